//! The evaluation of a study, one point after another, over a book of attempts and the journal that keeps them.
#![tactic(auto)]

pub mod evaluation;
pub mod laws;
pub mod ledger;
pub mod rows;
pub mod settle;
#[cfg(test)]
mod tests;

pub use evaluation::{Prepared, Ran, Verdict, evaluate, prepare};
pub use ledger::Ledger;
pub use rows::RowPool;
pub use settle::Stop;
