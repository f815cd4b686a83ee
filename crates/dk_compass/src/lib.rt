//! One iteration of a compass search.
#![tactic(auto)]

mod bounds;
mod choice;
mod directions;
mod iterate;
mod polling;
mod stepping;
#[cfg(test)]
mod tests;

pub use iterate::{State, Step, ended};
pub use polling::polls;
pub use stepping::step;
