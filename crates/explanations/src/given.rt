// Two procedures explained that are given as words, of a term or of a table file.
ghost use Rattle.std.specs.Prelude.{IfOk, string_bytes};
ghost use Rattle.explanations.specs.Givens.{GivenExplained};

use crate::told::told;
use crate::version::Version;
use comparison::{MOST_CLASSES, MOST_LINES};
use inputs::Given;
use std::alloc::{AllocError, Global};

// What is told of two inputs: each refusal, or else how the procedures compare.
pub fn explain_given(heap: Global, left: Given<'_>, right: Given<'_>) -> Result<String, AllocError>
    ensures { IfOk result (λ t. GivenExplained left.entry right.entry (string_bytes t)) }
{
    let left = Version::of_given(left);
    let right = Version::of_given(right);
    told::<_, _, _, MOST_LINES, MOST_CLASSES>(heap, left, right)
}
