// A theorem only: the function's contract is what its name tells, and it answers 0.
ghost use Rattle.std.specs.Prelude.{◌≡◌};
ghost use Rattle.console.specs.Theorems.{OneAnswer, OneState};

pub fn lines_determine_the_console() -> u8
    ensures value { result ≡ 0 }
    ensures answer { OneAnswer }
    ensures state { OneState }
{
    0
}
