//! A study, its points and its rows, and the definitions of what its evaluation gives and of the texts that tell it.
#![tactic(auto)]

mod copies;
pub mod entry;
pub mod laws;
pub mod lists;
pub mod planner;
pub mod rows;
pub mod study;
#[cfg(test)]
mod tests;

pub use dk_outside::{Text, Words};
pub use entry::{Entry, Outcome, Said};
pub use lists::{Counts, Decs, Labels, Units};
pub use planner::{Plan, Planner};
pub use rows::{Row, Rows};
pub use study::{
    Driver, Ending, FailRule, Interface, Method, ParamForm, Responses, Shape, Study, Variables,
    Way, Why,
};
