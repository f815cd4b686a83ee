//! The parameters file of an evaluation, from which the program that is run for it reads its point. It has one of the two
//! forms of the Dakota User's Manual, "Parameters file format": the standard one or that of APREPRO.
//!
//! Each line has a value and its tag: how many variables there are (`variables`), each variable by its label with its
//! value, how many responses (`functions`), that of each the value is asked for (1 at `ASV_i:LABEL`), how many variables
//! a derivative would be taken by (`derivative_variables`) and which (i at `DVV_i:LABEL`), no analysis component (0 at
//! `analysis_components`), and the evaluation's number (`eval_id`). Values are decimals with a point behind the first digit,
//! at least 15 digits behind the point and an exponent of at least two digits.
//!
//! In the standard form a value stands at the right of 22 places, a longer one in as many as it takes, then a blank and the
//! tag. The APREPRO form has `{ TAG = VALUE }`, and `DAKOTA_VARS`, `DAKOTA_FNS`, `DAKOTA_DER_VARS`, `DAKOTA_AN_COMPS` and
//! `DAKOTA_EVAL_ID` in place of the five tags without a label.
#![tactic(auto)]

mod file;
pub mod laws;
mod page;
mod study;
mod task;
#[cfg(test)]
mod tests;

pub use study::{params_bound, params_text};
pub use task::Task;
