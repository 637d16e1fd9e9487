// The classes of a round and the classes of all, counted.
ghost use Rattle.std.specs.Prelude.{◌≡◌};
ghost use Rattle.theory.specs.Theorems.{NumberingExists, ClassesExist, RoundCount, StableCount, ClassCount, StableClasses, CountFew, CountRises, CountStable};

pub fn classes_can_be_numbered() -> u8
    ensures value { result ≡ 0 }
    ensures round { NumberingExists }
    ensures all { ClassesExist }
{
    0
}

pub fn class_count_is_determined() -> u8
    ensures value { result ≡ 0 }
    ensures round { RoundCount }
    ensures stable { StableCount }
    ensures all { ClassCount }
    ensures few { CountFew }
{
    0
}

pub fn stable_numbering_is_by_classes() -> u8
    ensures value { result ≡ 0 }
    ensures classes { StableClasses }
{
    0
}

pub fn class_counts_tell_stability() -> u8
    ensures value { result ≡ 0 }
    ensures rises { CountRises }
    ensures stable { CountStable }
{
    0
}
