//! The results file of an evaluation: the values that a simulation left, or its word that it failed.
#![tactic(auto)]

mod front;
pub mod laws;
mod reading;
#[cfg(test)]
mod tests;

pub use reading::{Reading, read_results};
