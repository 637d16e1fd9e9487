// Formulas as lists of lines, and their evaluation over a source.

#![tactic(auto)]

mod admission;
pub mod evaluation;
pub mod fault;
pub mod line;
pub mod marked;

pub use evaluation::evaluate;
pub use fault::EvaluationFault;
pub use line::Line;
pub use marked::first_marked;

// The most lines of a formula.
pub const MOST_LINES: usize = 1024;
