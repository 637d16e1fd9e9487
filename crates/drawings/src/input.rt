// An input drawn.
ghost use Rattle.std.specs.Prelude.{IfOk, string_bytes};
ghost use Rattle.drawings.specs.Answers.{InputDrawn};

use crate::form::Form;
use crate::reading::draw_reading;
use inputs::{Input, Parsed};
use std::alloc::{AllocError, Global};

// The drawing of the procedure that the input denotes, or the line that tells its refusal.
pub fn draw_input(heap: Global, form: Form, input: Input<'_>) -> Result<String, AllocError>
    ensures { IfOk result (λ t. InputDrawn form input.entry (string_bytes t)) }
{
    draw_reading(heap, form, Parsed::read(input))
}
