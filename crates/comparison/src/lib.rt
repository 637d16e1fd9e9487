// Two procedures compared: the classes of their states, the rounds that tell them apart, and a formula
// that shows a difference with as few nested steps as any.

#![tactic(auto)]

mod buffers;
pub mod comparing;
mod contrast;
mod draft;
mod ends;
pub mod fault;
mod layout;
mod links;
mod outcome;
mod partition;
mod reach;
pub mod report;
mod round;
mod rounds;
mod script;
mod settling;
mod split;
mod starts;

pub use comparing::compare;
pub use fault::CompareFault;
pub use report::{Report, Verdict};

// Enough lines for any two procedures, of 128 states each.
pub const MOST_LINES: usize = 1021;

// Enough class numbers for them.
pub const MOST_CLASSES: usize = 256;
