// Process terms: how a text is read, and the graph that the rules of the calculus give it.

#![tactic(auto)]

pub mod fault;
pub mod letter;
mod listing;
pub mod node;
mod nodes;
pub mod term;

pub use term::Term;
