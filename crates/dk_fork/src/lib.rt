//! One attempt at an evaluation: by a child on a bench, or by the program's own function.
#![tactic(auto)]

mod attempt;
pub mod names;
mod room;
pub mod serve;
pub mod station;
#[cfg(test)]
mod tests;

pub use serve::BenchStep;
pub use station::{BenchFault, Job, Station};
