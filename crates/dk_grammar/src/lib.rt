//! The table of words, and the blocks and keywords of a study's text, each keyword with its values.
#![tactic(auto)]

mod context;
mod faults;
mod grower;
mod judge;
mod known;
mod lookups;
pub mod parts;
mod table;
#[cfg(test)]
mod tests;
pub mod words;

pub use grower::tree;
pub use lookups::entry_of;
pub use parts::{Blocks, GrammarFault, Item, Items, Opening, Tree};
pub use words::{Block, Count, Entry, Name, Takes};
