// What bisimulations relate.
ghost use Rattle.std.specs.Prelude.{◌≡◌, ℕ};
ghost use Rattle.theory.specs.Theorems.{RelatedReflexive, RelatedSymmetric, RelatedTransitive, AnyRelated, Unrelated, JoinedRelated};

// A relation between states, of any kind: a test, or one that nothing decides.
pub trait Relation {
    ghost relates: { ℕ → ℕ → Type 0 };
}

pub fn related_is_an_equivalence() -> u8
    ensures value { result ≡ 0 }
    ensures reflexive { RelatedReflexive }
    ensures symmetric { RelatedSymmetric }
    ensures transitive { RelatedTransitive }
{
    0
}

// What any relation can relate, a test can.
pub fn tests_relate_all_that_is_related<R: Relation>() -> u8
    ensures value { result ≡ 0 }
    ensures related { AnyRelated R.Relation.relates }
    ensures unrelated { Unrelated R.Relation.relates }
{
    0
}

// Two procedures can be compared side by side in one.
pub fn related_as_in_the_joined_procedure() -> u8
    ensures value { result ≡ 0 }
    ensures joined { JoinedRelated }
{
    0
}
