//! Rows of decimals of one width, in room that is made once.
#![tactic(auto)]

mod pool;
mod region;
#[cfg(test)]
mod tests;

pub use pool::{Pool, RowId};
