//! The texts that tell what a study's evaluation gave: the table of its rows and the summary.
#![tactic(auto)]

mod best_row;
mod numbers;
mod repeats;
mod summary;
mod table;
#[cfg(test)]
mod tests;

pub use best_row::best;
pub use numbers::{put_decimal, put_number};
pub use summary::write_summary;
pub use table::write_table;
