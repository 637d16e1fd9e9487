// The product for C: comparison, evaluation and the console over numbers and bytes that the caller lends.

#![tactic(auto)]

pub mod comparing;
pub mod evaluating;
mod numbers;
pub mod typing;
