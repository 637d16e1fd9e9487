// What the programs have in common: the files that words name, and answers one behind another.

#![tactic(auto)]

pub mod answers;
pub mod files;

pub use answers::Answers;
pub use files::{Fetched, fetch};
