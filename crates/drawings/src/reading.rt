// What was read drawn, or its refusal.
ghost use Rattle.std.specs.Prelude.{◌≡◌, ◌++◌, IfOk, MatchResult, string_bytes, codes};
ghost use Rattle.refusals.specs.Texts.{refusal_text};
ghost use Rattle.drawings.specs.Texts.{drawing};

use crate::form::Form;
use crate::procedure::draw;
use lts::System;
use refusals::Fault;
use std::alloc::{AllocError, Global};

// The drawing of the procedure that was read, or the line that tells the refusal.
pub fn draw_reading<S: System + Drop, F: Fault + Drop>(
    heap: Global,
    form: Form,
    reading: Result<S, F>,
) -> Result<String, AllocError>
    ensures { IfOk result (λ t. MatchResult reading (λ x. string_bytes t ≡ drawing form (S.meaning x)) (λ f. string_bytes t ≡ refusal_text (F.told f) ++ codes "\n")) }
{
    match reading {
        Ok(source) => draw(heap, form, &source),
        Err(fault) => {
            let refusal = fault.refusal();
            format!(in heap; "{refusal}\n")
        }
    }
}
