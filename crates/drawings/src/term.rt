// A term's text drawn.
ghost use Rattle.std.specs.Prelude.{IfOk, string_bytes};
ghost use Rattle.drawings.specs.Answers.{Drawn};

use crate::form::Form;
use crate::reading::draw_reading;
use std::alloc::{AllocError, Global};
use terms::Term;

// The drawing of the term that the text spells, or the line that tells its refusal.
pub fn draw_term(heap: Global, form: Form, text: &[u8]) -> Result<String, AllocError>
    ensures { IfOk result (λ t. Drawn form text.now (string_bytes t)) }
{
    draw_reading(heap, form, Term::read(text))
}
