// Two sources side by side: the left one's states, then the right one's.
ghost use Rattle.std.specs.Prelude.{◌≡◌};
ghost use Rattle.lts.specs.Joined.{joined};
ghost use Rattle.lts.specs.Laws.Joined.{joined_lawful};
ghost use Rattle.lts.specs.Laws.Most.{narrow};

use crate::source::Source;
use crate::system::System;

#[derive_where(Clone, Copy)]
pub struct Pair<'a, 'b, L, R, const M: usize, const N: usize> {
    pub left: &'a L,
    pub right: &'b R,
}

impl<'a, 'b, const M: usize, const N: usize, L: Source<M>, R: Source<N>> Pair<'a, 'b, L, R, M, N> {
    pub fn new(left: &'a L, right: &'b R) -> Self
        ensures left { result.left.now ≡ left.now }
        ensures right { result.right.now ≡ right.now }
    {
        Pair { left, right }
    }
}

impl<'a, 'b, const M: usize, const N: usize, L: Source<M>, R: Source<N>> System
    for Pair<'a, 'b, L, R, M, N> {
    ghost meaning = { λ x. joined (L.meaning x.left.now) (R.meaning x.right.now) };

    ghost lawful = { λ x. joined_lawful (L.meaning x.left.now) (R.meaning x.right.now) (narrow (L.fits x.left.now) L.bounded (L.lawful x.left.now)) (narrow (R.fits x.right.now) R.bounded (R.lawful x.right.now)) };

    fn states(&self) -> usize {
        self.left.states() + self.right.states()
    }

    fn is_end(&self, s: usize) -> bool {
        let n = self.left.states();
        if s < n {
            self.left.is_end(s)
        } else {
            self.right.is_end(s - n)
        }
    }

    fn step_count(&self, s: usize) -> usize {
        let n = self.left.states();
        if s < n {
            self.left.step_count(s)
        } else {
            self.right.step_count(s - n)
        }
    }

    fn step(&self, s: usize, k: usize) -> Option<(u8, u8)> {
        let n = self.left.states();
        if s < n {
            return self.left.step(s, k);
        }
        let (action, target) = self.right.step(s - n, k)?;
        Some((action, n as u8 + target))
    }
}
