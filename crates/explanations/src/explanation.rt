// Two terms explained.
ghost use Rattle.std.specs.Prelude.{IfOk, string_bytes};
ghost use Rattle.explanations.specs.Explanations.{Explained};

use crate::told::told;
use crate::version::Version;
use std::alloc::{AllocError, Global};

// Room for the lines of two terms, of which each has at most 64 states.
const MOST_LINES: usize = 512;

const MOST_STATES: usize = 128;

// What is told of two texts: each refusal, or else how the terms compare.
pub fn explain(heap: Global, left: &[u8], right: &[u8]) -> Result<String, AllocError>
    ensures { IfOk result (λ t. Explained left.now right.now (string_bytes t)) }
{
    let left = Version::of_text(left);
    let right = Version::of_text(right);
    told::<_, _, _, MOST_LINES, MOST_STATES>(heap, left, right)
}
