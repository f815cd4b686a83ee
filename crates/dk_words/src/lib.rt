//! The words of the command line, and what they command.
#![tactic(auto)]

mod commands;
pub mod laws;
mod purpose;
#[cfg(test)]
mod tests;
mod words;

pub use commands::{Command, CommandFault};
pub use purpose::Purpose;
pub use words::{command, mode_of, usage_for};
