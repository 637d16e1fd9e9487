// Classes and formula lines listed as text, and where the actions of a term's text stand.

#![tactic(auto)]

pub mod classes;
pub mod numbered;
pub mod offsets;

pub use classes::push_classes;
pub use numbered::push_lines;
pub use offsets::action_offset;
