// Procedures written out for people and for other tools.

#![tactic(auto)]

pub mod form;
pub mod input;
pub mod procedure;
mod reading;
pub mod term;

pub use form::Form;
pub use input::draw_input;
pub use lines::{split_at_byte, split_line};
pub use procedure::{ActionName, draw, push_drawing};
pub use term::draw_term;
