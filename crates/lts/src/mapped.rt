// A source under an action map.
ghost use Rattle.lts.specs.Map.{mapped};
ghost use Rattle.lts.specs.Laws.Mapped.{mapped_lawful};

use crate::action_map::ActionMap;
use crate::source::{Most, Source};
use crate::system::System;

#[derive_where(Clone, Copy)]
pub struct Mapped<'a, 'b, S> {
    pub map: &'a ActionMap,
    pub source: &'b S,
}

impl<'a, 'b, S: System> System for Mapped<'a, 'b, S> {
    ghost meaning = { λ x. mapped x.map.now.entries (S.meaning x.source.now) };

    ghost lawful = { λ x. mapped_lawful x.map.now.entries x.map.now.actions (S.meaning x.source.now) (S.lawful x.source.now) };

    fn states(&self) -> usize {
        self.source.states()
    }

    fn is_end(&self, s: usize) -> bool {
        self.source.is_end(s)
    }

    fn step_count(&self, s: usize) -> usize {
        self.source.step_count(s)
    }

    fn step(&self, s: usize, k: usize) -> Option<(u8, u8)> {
        let (action, target) = self.source.step(s, k)?;
        let entry = self.map.get(action)?;
        Some((entry, target))
    }
}

impl<'a, 'b, const N: usize, S: Source<N>> Source<N> for Mapped<'a, 'b, S> {
    const MOST: Most<N> = S::MOST;

    ghost bounded = { S.bounded };

    ghost fits = { λ x. S.fits x.source.now };
}
