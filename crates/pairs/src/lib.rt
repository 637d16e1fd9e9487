// Ten pairs of procedures and how they compare.
// A theorem only: the function's contract is what its name tells, and it answers 0.

#![tactic(auto)]

ghost use Rattle.std.specs.Prelude.{◌≡◌};
ghost use Rattle.pairs.specs.Pairs.{TenPairs};

pub fn ten_pairs_hold() -> u8
    ensures value { result ≡ 0 }
    ensures pairs { TenPairs }
{
    0
}
