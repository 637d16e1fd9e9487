// What holds of every file, in the file's own terms.
ghost use Rattle.std.specs.Prelude.{◌≡◌};
ghost use Rattle.tables.specs.Theorems.{LaidOnce, AcceptedFiles, EndsAreNamed};

// Its records are determined, it is accepted exactly when they draw a table, and its ends are those named.
pub fn files_are_told_by_their_records() -> u8
    ensures value { result ≡ 0 }
    ensures records { LaidOnce }
    ensures accepted { AcceptedFiles }
    ensures ends { EndsAreNamed }
{
    0
}
