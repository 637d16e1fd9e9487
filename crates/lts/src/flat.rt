// States laid out flat, read as a system.
ghost use Rattle.lts.specs.Layout.{Readable, stored};
ghost use Rattle.lts.specs.Laws.Most.{wider};
ghost use Rattle.lts.specs.Laws.Stored.{stored_lawful};

use crate::laid::Laid;
use crate::system::System;

#[derive(Clone, Copy)]
pub struct Flat<'a, const STATES: usize, const STEPS: usize> {
    pub of: &'a Laid<STATES, STEPS>,
    ghost readable: { Readable of.now },
}

impl<'a, const STATES: usize, const STEPS: usize> System for Flat<'a, STATES, STEPS> {
    ghost meaning = { λ x. stored x.of.now };

    ghost lawful = { λ x. wider x.readable.states_room (stored_lawful x.of.now x.readable) };

    fn states(&self) -> usize {
        self.of.states
    }

    fn is_end(&self, s: usize) -> bool {
        s < self.of.states && self.of.ends[s]
    }

    fn step_count(&self, s: usize) -> usize {
        if s >= self.of.states {
            return 0;
        }
        self.of.runs[s].count as usize
    }

    fn step(&self, s: usize, k: usize) -> Option<(u8, u8)> {
        if k >= self.step_count(s) {
            return None;
        }
        Some(self.of.steps[self.of.runs[s].from as usize + k])
    }
}
