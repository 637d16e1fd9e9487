// What a procedure is given as, a term's text or a table file, and how it is read.

#![tactic(auto)]

pub mod fault;
pub mod input;
pub mod parsed;
pub mod word;

pub use fault::InputFault;
pub use input::Input;
pub use parsed::Parsed;
pub use word::{Given, Word};
