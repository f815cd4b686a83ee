//! The restart journal.
#![tactic(auto)]

mod birth;
pub mod fault;
mod fetch;
pub mod journal;
pub mod laws;
mod opening;
mod reading;
mod records;
mod steps;
#[cfg(test)]
mod tests;

pub use dk_outside::Mode;
pub use fault::{AppendFault, OpenFault};
pub use journal::{Journal, Opened, Refused};
