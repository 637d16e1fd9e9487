// A procedure with the word that it was read from.
ghost use Rattle.std.specs.Prelude.{◌≡◌, IfOk, Ok, Err};
ghost use Rattle.terms.specs.Scan.{first_refusal};
ghost use Rattle.inputs.specs.Inputs.{Denotes, first_refusal_of};
ghost use Rattle.inputs.specs.Words.{input_of};
ghost use Rattle.explanations.specs.Refused.{refusal};
ghost use Rattle.inputs.specs.declared.word.Given.TheVariants as givens;

use inputs::{Given, InputFault, Parsed};
use lts::System;
use terms::Term;
use terms::fault::TermFault;

// The procedure is what the word denotes, or the file that it names.
#[derive(Drop)]
pub struct Version<'a, S: System> {
    pub given: Given<'a>,
    pub procedure: S,
    ghost denoted: { ∥ Denotes (input_of given) (S.meaning procedure) ∥₁ },
}

impl<'a> Version<'a, Term> {
    // The term that a text spells.
    pub fn of_text(text: &'a [u8]) -> Result<Version<'a, Term>, TermFault>
        ensures refuses { refusal result ≡ first_refusal text.entry.now }
        ensures denotes { IfOk result (λ v. (v.given ≡ givens.Term text.entry) × Denotes (input_of v.given) (⟦<Term as System>⟧.meaning v.procedure)) }
    {
        let procedure = Term::read(text)?;
        let given = Given::Term(text);
        Ok(Version { given, procedure })
    }
}

impl<'a> Version<'a, Parsed> {
    // What a word names.
    pub fn of_given(given: Given<'a>) -> Result<Version<'a, Parsed>, InputFault>
        ensures refuses { refusal result ≡ first_refusal_of (input_of given.entry) }
        ensures denotes { IfOk result (λ v. (v.given ≡ given.entry) × Denotes (input_of v.given) (⟦<Parsed as System>⟧.meaning v.procedure)) }
    {
        let procedure = Parsed::read(given.input())?;
        Ok(Version { given, procedure })
    }
}
