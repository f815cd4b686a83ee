//! The points of a study, handed out in batches.
#![tactic(auto)]

mod centered;
mod grid;
pub mod laws;
mod planning;
mod search;
#[cfg(test)]
mod tests;
mod vector;
mod written;

pub use planning::{Planning, plan_of};
