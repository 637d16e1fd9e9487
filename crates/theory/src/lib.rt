// Bisimulation, rounds, formulas and classes of finite labelled transition systems.
// Theorems only: a function's contract is the theorem that its name tells, and it answers 0.

#![tactic(auto)]

pub mod agreement;
pub mod bisimilarity;
pub mod partition;
pub mod satisfaction;

pub use bisimilarity::Relation;
