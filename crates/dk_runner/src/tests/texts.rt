// Texts of studies.
use std::alloc::{AllocError, Global};

/// A vector study of Rosenbrock's function, which each case edits.
pub const BASE: &str = "environment
  tabular_data
    tabular_data_file = 't.dat'
method
  vector_parameter_study
    num_steps = 2
    step_vector = 0.5 0.5
variables
  continuous_design = 2
    initial_point = 0 0
    descriptors = 'x1' 'x2'
interface
  analysis_drivers = 'rosenbrock'
    direct
responses
  objective_functions = 1
  no_gradients
  no_hessians
";

/// The lines of its method.
pub const METHOD: &str = "vector_parameter_study
    num_steps = 2
    step_vector = 0.5 0.5";

/// The words of the command line.
pub fn words_of(alloc: Global, words: &[&str]) -> Result<Vec<String>, AllocError> {
    let mut texts = Vec::new(alloc);
    for word in words {
        texts.push(String::from_str(alloc, word)?)?;
    }
    Ok(texts)
}

/// The base study's text in which the first place of each of these words has others.
pub fn edited(alloc: Global, edits: &[(&str, &str)]) -> Result<Vec<u8>, AllocError> {
    let mut text = String::from_str(alloc, BASE)?;
    for (old, new) in edits {
        let mut next = String::new(alloc);
        match text.as_str().split_once(*old) {
            Some((front, behind)) => {
                next.push_str(front)?;
                next.push_str(new)?;
                next.push_str(behind)?;
            }
            None => next.push_str("an edit that doesn't apply")?,
        }
        text = next;
    }
    Vec::from_slice(alloc, text.as_bytes())
}

/// The text without its brackets, and where they stood; at 0 where there are none.
pub fn unmarked(alloc: Global, text: &[u8]) -> Result<(Vec<u8>, u32, u32), AllocError> {
    let mut bytes = Vec::new(alloc);
    let mut at = 0u32;
    let mut from = 0;
    let mut to = 0;
    for byte in text {
        match *byte {
            b'[' => from = at,
            b']' => to = at,
            other => {
                bytes.push(other)?;
                at = at.saturating_add(1);
            }
        }
    }
    Ok((bytes, from, to))
}

/// The text with a comment behind it, so that it has so many bytes.
pub fn padded(mut text: Vec<u8>, count: usize) -> Result<Vec<u8>, AllocError> {
    for _ in text.len()..count {
        text.push(b'#')?;
    }
    Ok(text)
}
