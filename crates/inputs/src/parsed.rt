// A procedure that was read.
ghost use Rattle.std.proofs.Common.{lit≤};
ghost use Rattle.std.specs.Prelude.{◌≡◌, IfOk};
ghost use Rattle.inputs.specs.Inputs.{first_refusal_of, Denotes, meaning_of, refusal_of};
ghost use Rattle.inputs.specs.Laws.{parsed_lawful};
ghost use Rattle.lts.specs.Laws.Most.{wider};

use crate::fault::InputFault;
use crate::input::Input;
use lts::{Most, Source, System};
use tables::Table;
use terms::Term;

#[derive(Drop)]
pub enum Parsed {
    Term(Term),
    Table(Table),
}

impl Parsed {
    // Reads an input: the procedure that it denotes, or its first refusal.
    pub fn read(input: Input<'_>) -> Result<Parsed, InputFault>
        ensures refuses { refusal_of result ≡ first_refusal_of input.entry }
        ensures denotes { IfOk result (λ x. Denotes input.entry (meaning_of x)) }
    {
        match input {
            Input::Term(text) => Ok(Parsed::Term(Term::read(text)?)),
            Input::Table(file) => Ok(Parsed::Table(Table::read(file)?)),
        }
    }
}

impl System for Parsed {
    ghost meaning = { meaning_of };

    ghost lawful = { λ x. wider (lit≤ tt) (parsed_lawful x) };

    // Each call is passed on by a match: no function may hand out a `dyn System` of either kind, and no closure is over any system.
    fn states(&self) -> usize {
        match self {
            Parsed::Term(term) => term.states(),
            Parsed::Table(table) => table.states(),
        }
    }

    fn is_end(&self, s: usize) -> bool {
        match self {
            Parsed::Term(term) => term.is_end(s),
            Parsed::Table(table) => table.is_end(s),
        }
    }

    fn step_count(&self, s: usize) -> usize {
        match self {
            Parsed::Term(term) => term.step_count(s),
            Parsed::Table(table) => table.step_count(s),
        }
    }

    fn step(&self, s: usize, k: usize) -> Option<(u8, u8)> {
        match self {
            Parsed::Term(term) => term.step(s, k),
            Parsed::Table(table) => table.step(s, k),
        }
    }
}

impl Source<128> for Parsed {
    const MOST: Most<128> = Most { states: 128 };

    ghost bounded = { lit≤ tt };

    ghost fits = { λ x. (parsed_lawful x).few };
}
