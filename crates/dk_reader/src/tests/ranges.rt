//! Both ends of each range of whole numbers, and one number past each end.
use crate::tests::told::told;
use crate::tests::{edited, replaced};
use std::alloc::{AllocError, Global};
use std::test::Fail;

const METHOD: &str = "  vector_parameter_study
    num_steps = 2
    step_vector = 0.5 0.5";

/// Edits of the base study, in which a question mark stands for a number, and the least and the greatest number that
/// its keyword takes.
type Case = (&'static [(&'static str, &'static str)], u32, u32);

const RANGES: [Case; 10] = [
    (&[("num_steps = 2", "num_steps = ?")], 0, 10_000),
    (
        &[(
            METHOD,
            "centered_parameter_study step_vector = 1 1 steps_per_variable = ?",
        )],
        0,
        10_000,
    ),
    (
        &[
            (METHOD, "multidim_parameter_study partitions = ? 1"),
            (
                "initial_point = 0 0",
                "lower_bounds = -2 -2 upper_bounds = 2 2",
            ),
        ],
        1,
        10_000,
    ),
    (
        &[(
            METHOD,
            "compass_search initial_delta = 1 threshold_delta = 1 max_iterations = ?",
        )],
        0,
        10_000,
    ),
    (
        &[(
            METHOD,
            "compass_search initial_delta = 1 threshold_delta = 1 max_function_evaluations = ?",
        )],
        1,
        100_000,
    ),
    (
        &[("continuous_design = 2", "continuous_design = ?")],
        1,
        100,
    ),
    (
        &[("objective_functions = 1", "objective_functions = ?")],
        1,
        100,
    ),
    (
        &[("objective_functions = 1", "response_functions = ?")],
        1,
        100,
    ),
    (
        &[("direct", "direct asynchronous evaluation_concurrency = ?")],
        1,
        64,
    ),
    (&[("direct", "direct failure_capture retry = ?")], 1, 1000),
];

/// Whether the number is refused as one that is in no range of its keyword. Other limits of a study may refuse it too.
fn is_bad_whole(alloc: Global, text: &str, number: u32) -> Result<bool, AllocError> {
    let digits = format!(in alloc; "{number}")?;
    let study = replaced(alloc, text, "?", digits.as_str())?;
    Ok(
        told(alloc, study.as_bytes())?
            .as_str()
            .starts_with("BadWhole"),
    )
}

/// Each range goes from its least number to its greatest.
#[test]
fn ranges_have_their_ends(rt: HostRuntime) -> Result<(), Fail> {
    let alloc = rt.alloc();
    for (edits, least, greatest) in &RANGES {
        let text = edited(alloc, edits)?;
        assert!(&rt; !is_bad_whole(alloc, text.as_str(), *least)?);
        assert!(&rt; !is_bad_whole(alloc, text.as_str(), *greatest)?);
        assert!(&rt; is_bad_whole(alloc, text.as_str(), greatest.saturating_add(1))?);
        if *least > 0 {
            assert!(&rt; is_bad_whole(alloc, text.as_str(), *least - 1)?);
        }
    }
    Ok(())
}
