//! Laws of the definitions: what a reader may conclude from them. Each is the contract of a function that does
//! nothing.
pub mod arithmetic;
pub mod texts;
pub mod units;
pub mod values;
