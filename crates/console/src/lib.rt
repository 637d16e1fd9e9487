// The console: a shelf and an action map, worked line by line.

#![tactic(auto)]

mod calls;
pub mod console;
pub mod theorem;

pub use console::Console;
pub use theorem::lines_determine_the_console;
