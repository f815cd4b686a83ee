//! The study that a text says, or the text's first fault.
#![tactic(auto)]

mod bounds;
mod build;
mod check;
mod document;
mod entries;
mod fault;
mod faults;
mod fields;
mod grow;
mod heads;
pub mod laws;
mod limits;
mod methods;
mod parts;
mod read;
mod reader;
#[cfg(test)]
mod tests;
mod units;
mod value;

pub use fault::{ReadRefusal, StudyFault, StudyKind};
pub use reader::read_study;
