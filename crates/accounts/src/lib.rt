// The account of a shelf: what its five calls answer and leave, and the law over all their runs.
// Theorems only: each function's contract is what its name tells, and it answers 0.

#![tactic(auto)]

ghost use Rattle.std.specs.Prelude.{◌≡◌};
ghost use Rattle.accounts.specs.Law.{Determined, Lasting};

pub fn calls_determine_the_account() -> u8
    ensures value { result ≡ 0 }
    ensures determined { Determined }
{
    0
}

pub fn every_run_keeps_the_law() -> u8
    ensures value { result ≡ 0 }
    ensures lasting { Lasting }
{
    0
}
