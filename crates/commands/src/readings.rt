// A theorem only: the function's contract is what its name tells, and it answers 0.
ghost use Rattle.std.specs.Prelude.{◌≡◌};
ghost use Rattle.commands.specs.Readings.{OneRequest, OneMisfit, NeverBoth};

pub fn lines_are_read_one_way() -> u8
    ensures value { result ≡ 0 }
    ensures request { OneRequest }
    ensures misfit { OneMisfit }
    ensures both { NeverBoth }
{
    0
}
