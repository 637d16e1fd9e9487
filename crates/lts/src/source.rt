// One procedure.
ghost use Rattle.std.specs.Prelude.{◌≡◌, ◌≤◌};

use crate::system::System;

// The largest number of states of a kind of source. It is tied to a number of the type, since nothing can be said of a trait's constant
// where the type has a lifetime.
#[derive(Clone, Copy)]
pub struct Most<const N: usize> {
    pub states: usize,
    ghost tied: { states ≡ N },
}

pub trait Source<const N: usize>: System {
    const MOST: Most<N>;

    ghost bounded: { N ≤ 128 };

    ghost fits: { (x : Self) → (Self.meaning x).count ≤ N };
}
