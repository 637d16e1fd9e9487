// The lines of a console: what is typed, and what is answered.

#![tactic(auto)]

pub mod command;
pub mod fault;
pub mod input;
pub mod outcome;
pub mod output;
pub mod readings;
pub mod verb;

pub use command::Command;
pub use fault::ConsoleFault;
pub use input::admit;
pub use outcome::Outcome;
pub use output::Output;
pub use readings::lines_are_read_one_way;
pub use verb::{UnknownLetter, Verb};
