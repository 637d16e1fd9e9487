// A table read as a source.
ghost use Rattle.std.proofs.Common.{lit≤};
ghost use Rattle.std.specs.Prelude.{◌≡◌};
ghost use Rattle.lts.specs.Laws.Most.{wider};
ghost use Rattle.tables.specs.Laws.{table_lawful};
ghost use Rattle.tables.specs.Tables.{meaning_of};

use crate::table::Table;
use lts::{Most, Source, Stored, System};

impl Table {
    fn stored(&self) -> Stored<'_>
        ensures { result.of.now ≡ self.now.procedure }
    {
        Stored {
            of: &self.procedure,
        }
    }
}

impl System for Table {
    ghost meaning = { meaning_of };

    ghost lawful = { λ x. wider (lit≤ tt) (table_lawful x) };

    fn states(&self) -> usize {
        self.stored().states()
    }

    fn is_end(&self, s: usize) -> bool {
        self.stored().is_end(s)
    }

    fn step_count(&self, s: usize) -> usize {
        self.stored().step_count(s)
    }

    fn step(&self, s: usize, k: usize) -> Option<(u8, u8)> {
        self.stored().step(s, k)
    }
}

impl Source<128> for Table {
    const MOST: Most<128> = Most { states: 128 };

    ghost bounded = { lit≤ tt };

    ghost fits = { λ x. (table_lawful x).few };
}
