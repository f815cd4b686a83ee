//! The evaluation cache: a book of cards, one for each point that was placed.
#![tactic(auto)]

pub mod book;
mod hash;
mod index;
pub mod laws;
#[cfg(test)]
mod tests;

pub use book::{Answer, Book, CardId};
