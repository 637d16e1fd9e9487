// A term read as a source: its states are the places in its text.
ghost use Rattle.std.specs.Prelude.{◌≡◌};
ghost use Rattle.std.proofs.Common.{lit≤};
ghost use Rattle.lts.specs.Laws.Most.{wider};
ghost use Rattle.terms.specs.Graph.{graph};
ghost use Rattle.terms.specs.Laws.Lawful.{term_lawful};
ghost use Rattle.terms.specs.Terms.{tree_of};

use crate::term::Term;
use lts::{Flat, Most, Source, System};

impl Term {
    fn stored(&self) -> Flat<'_, 64, 63>
        ensures { result.of.now ≡ self.now.laid }
    {
        Flat { of: &self.laid }
    }
}

impl System for Term {
    ghost meaning = { λ x. graph (tree_of x) };

    ghost lawful = { λ x. wider (lit≤ tt) (term_lawful x) };

    fn states(&self) -> usize {
        self.stored().states()
    }

    fn is_end(&self, s: usize) -> bool {
        self.stored().is_end(s)
    }

    fn step_count(&self, s: usize) -> usize {
        self.stored().step_count(s)
    }

    fn step(&self, s: usize, k: usize) -> Option<(u8, u8)> {
        self.stored().step(s, k)
    }
}

impl Source<64> for Term {
    const MOST: Most<64> = Most { states: 64 };

    ghost bounded = { lit≤ tt };

    ghost fits = { λ x. (term_lawful x).few };
}
