//! Texts with the study that they say or their first fault.
mod bytes;
mod faults;
mod ranges;
mod refusals;
mod studies;
mod told;

use std::alloc::{AllocError, Global};

/// A vector study of Rosenbrock's function, which each case edits.
pub const BASE: &str = "environment
  tabular_data
    tabular_data_file = 't.dat'
method
  vector_parameter_study
    num_steps = 2
    step_vector = 0.5 0.5
variables
  continuous_design = 2
    initial_point = 0 0
    descriptors = 'x1' 'x2'
interface
  analysis_drivers = 'rosenbrock'
    direct
responses
  objective_functions = 1
  no_gradients
  no_hessians
";

/// The text with the first place of some words replaced by others.
pub fn replaced(alloc: Global, text: &str, old: &str, new: &str) -> Result<String, AllocError> {
    let mut next = String::new(alloc);
    match text.split_once(old) {
        Some((front, behind)) => {
            next.push_str(front)?;
            next.push_str(new)?;
            next.push_str(behind)?;
        }
        None => next.push_str("an edit that doesn't apply")?,
    }
    Ok(next)
}

/// The base study in which the first place of each of these words has others.
pub fn edited(alloc: Global, edits: &[(&str, &str)]) -> Result<String, AllocError> {
    let mut text = String::from_str(alloc, BASE)?;
    for (old, new) in edits {
        text = replaced(alloc, text.as_str(), old, new)?;
    }
    Ok(text)
}

/// The text without its brackets, and where they stood.
pub fn unmarked(alloc: Global, text: &str) -> Result<(Vec<u8>, usize, usize), AllocError> {
    let mut bytes = Vec::new(alloc);
    let mut from = 0;
    let mut to = 0;
    for byte in text.as_bytes() {
        match *byte {
            b'[' => from = bytes.len(),
            b']' => to = bytes.len(),
            other => bytes.push(other)?,
        }
    }
    Ok((bytes, from, to))
}
