// A stored procedure read as a source.
ghost use Rattle.std.proofs.Common.{lit≤};
ghost use Rattle.std.specs.Prelude.{◌≡◌};
ghost use Rattle.lts.specs.Layout.{Sound, stored};
ghost use Rattle.lts.specs.Laws.Most.{wider};
ghost use Rattle.lts.specs.Laws.Stored.{sound_lawful};

use crate::flat::Flat;
use crate::procedure::Procedure;
use crate::source::{Most, Source};
use crate::system::System;

#[derive(Clone, Copy)]
pub struct Stored<'a> {
    pub of: &'a Procedure,
    ghost sound: { Sound of.now },
}

impl<'a> Stored<'a> {
    fn flat(&self) -> Flat<'_, 128, 512>
        ensures { result.of.now ≡ self.now.of.now }
    {
        Flat { of: self.of }
    }
}

impl<'a> System for Stored<'a> {
    ghost meaning = { λ x. stored x.of.now };

    ghost lawful = { λ x. wider (lit≤ tt) (sound_lawful x.of.now x.sound) };

    fn states(&self) -> usize {
        self.flat().states()
    }

    fn is_end(&self, s: usize) -> bool {
        self.flat().is_end(s)
    }

    fn step_count(&self, s: usize) -> usize {
        self.flat().step_count(s)
    }

    fn step(&self, s: usize, k: usize) -> Option<(u8, u8)> {
        self.flat().step(s, k)
    }
}

impl<'a> Source<128> for Stored<'a> {
    const MOST: Most<128> = Most { states: 128 };

    ghost bounded = { lit≤ tt };

    ghost fits = { λ x. x.sound.few };
}
