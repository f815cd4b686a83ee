//! The bytes of a restart file: a header with the labels of a study, and a record for each attempt that was made. Whole
//! numbers stand with their lowest byte first, signed ones in two's complement. Each header and each record stands
//! behind a gate, one byte, which is open where it isn't zero; a closed gate ends the file.
#![tactic(auto)]

mod cursor;
pub mod headers;
pub mod laws;
mod pieces;
pub mod record;
#[cfg(test)]
mod tests;

pub use headers::{StoredShape, header, read_header};
pub use record::{Decoded, read_record, write_record};
