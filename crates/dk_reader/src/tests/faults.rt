//! Each refusal of each step: the text with brackets round the place that is told.
use crate::tests::told::told;
use crate::tests::{edited, unmarked};
use std::alloc::Global;
use std::process::Abort;
use std::test::Fail;

/// A kind of fault, and the edits of the base study that give it.
type Case<'a> = (&'a str, &'a [(&'a str, &'a str)]);

fn refused(rt: &impl Abort, alloc: Global, cases: &[Case]) -> Result<(), Fail> {
    for (kind, edits) in cases {
        let text = edited(alloc, edits)?;
        let (bytes, from, to) = unmarked(alloc, text.as_str())?;
        let wanted = format!(in alloc; "{kind} {from}..{to}")?;
        assert_eq!(rt; told(alloc, &bytes)?.as_str(), wanted.as_str());
    }
    Ok(())
}

const METHOD: &str = "  vector_parameter_study
    num_steps = 2
    step_vector = 0.5 0.5";

const HEADS: [Case<'static>; 20] = [
    ("Missing", &[("method", "[method]"), (METHOD, "")]),
    ("Conflict", &[("num_steps", "[compass_search] num_steps")]),
    (
        "Missing",
        &[("variables", "[variables]"), ("continuous_design = 2", "")],
    ),
    (
        "WrongCount",
        &[("continuous_design = 2", "[continuous_design]")],
    ),
    (
        "WrongCount",
        &[("continuous_design = 2", "[continuous_design] = 2*1")],
    ),
    (
        "BadWhole",
        &[("continuous_design = 2", "continuous_design = [0]")],
    ),
    (
        "BadWhole",
        &[("continuous_design = 2", "continuous_design = [101]")],
    ),
    (
        "BadWhole",
        &[("continuous_design = 2", "continuous_design = [2.]")],
    ),
    (
        "Missing",
        &[
            ("responses", "[responses]"),
            ("objective_functions = 1", ""),
        ],
    ),
    (
        "Conflict",
        &[("no_gradients", "[response_functions] = 1 no_gradients")],
    ),
    (
        "WrongCount",
        &[("objective_functions = 1", "[objective_functions] = 1 1")],
    ),
    (
        "BadWhole",
        &[("objective_functions = 1", "objective_functions = [1e0]")],
    ),
    (
        "Missing",
        &[
            ("interface", "[interface]"),
            ("analysis_drivers = 'rosenbrock'", ""),
        ],
    ),
    (
        "WrongCount",
        &[("analysis_drivers = 'rosenbrock'", "[analysis_drivers]")],
    ),
    (
        "Unsupported",
        &[(
            "analysis_drivers = 'rosenbrock'",
            "[analysis_drivers] 'a' 'b'",
        )],
    ),
    ("WrongCount", &[("'rosenbrock'", "['  ']")]),
    (
        "Missing",
        &[("interface", "[interface]"), ("    direct\n", "")],
    ),
    ("Conflict", &[("direct", "direct [fork]")]),
    ("Unsupported", &[("'rosenbrock'", "['rosenbrock ']")]),
    (
        "Conflict",
        &[
            ("direct", "[direct]"),
            ("objective_functions = 1", "objective_functions = 2"),
        ],
    ),
];

/// The method, the numbers of variables and responses, and the driver.
#[test]
fn heads_are_refused(rt: HostRuntime) -> Result<(), Fail> {
    refused(&rt, rt.alloc(), &HEADS)
}

const VALUES: [Case<'static>; 16] = [
    ("BadWhole", &[("num_steps = 2", "num_steps = [10001]")]),
    ("BadWhole", &[("num_steps = 2", "num_steps = [-1]")]),
    ("BadWhole", &[("num_steps = 2", "num_steps = [0*2]")]),
    (
        "BadWhole",
        &[("initial_point = 0 0", "initial_point = [4000001*0]")],
    ),
    (
        "WrongCount",
        &[("initial_point = 0 0", "[initial_point] = 4000000*0")],
    ),
    (
        "TooMany",
        &[("initial_point = 0 0", "initial_point = 4000000*0 [1]")],
    ),
    (
        "BadNumber",
        &[("step_vector = 0.5 0.5", "step_vector = 0.5 [1x]")],
    ),
    (
        "BadNumber",
        &[("step_vector = 0.5 0.5", "step_vector = [1e401] 0.5")],
    ),
    (
        "BadNumber",
        &[("step_vector = 0.5 0.5", "step_vector = [1e3*5]")],
    ),
    (
        "WrongCount",
        &[("step_vector = 0.5 0.5", "[step_vector] = 0.5")],
    ),
    (
        "WrongCount",
        &[("'x1' 'x2'", "'x1'"), ("descriptors", "[descriptors]")],
    ),
    (
        "WrongCount",
        &[("step_vector = 0.5 0.5", "step_vector = 0.5 0.5 [output]")],
    ),
    (
        "BadNumber",
        &[(
            "vector_parameter_study",
            "vector_parameter_study threshold_delta = [0]",
        )],
    ),
    (
        "BadNumber",
        &[("direct", "direct failure_capture recover = [.]")],
    ),
    (
        "WrongCount",
        &[("direct", "direct failure_capture [recover] = 1 2")],
    ),
    (
        "WrongCount",
        &[(METHOD, "list_parameter_study [list_of_points] = 3*1")],
    ),
];

/// Values and their counts.
#[test]
fn values_are_refused(rt: HostRuntime) -> Result<(), Fail> {
    refused(&rt, rt.alloc(), &VALUES)
}

const KEYWORDS: [Case<'static>; 17] = [
    ("BadLabel", &[("'x1' 'x2'", "'x1' ['2x']")]),
    ("BadLabel", &[("'x1' 'x2'", "'x1' ['x 2']")]),
    ("BadLabel", &[("'x1' 'x2'", "'x1' ['']")]),
    (
        "BadLabel",
        &[
            (
                "environment",
                "responses objective_functions = 1 descriptors = ['1'] environment",
            ),
            ("'x1' 'x2'", "'x1' '2'"),
            (
                "responses\n  objective_functions = 1\n  no_gradients\n  no_hessians",
                "",
            ),
        ],
    ),
    ("Conflict", &[("'x1' 'x2'", "'x1' ['x1']")]),
    (
        "Conflict",
        &[(
            "no_gradients",
            "descriptors 'f' [response_descriptors] 'g' no_gradients",
        )],
    ),
    ("BadLabel", &[("'t.dat'", "['']")]),
    ("BadLabel", &[("direct", "direct results_file = [\"\"]")]),
    (
        "Conflict",
        &[("num_steps = 2", "num_steps = 2 [steps_per_variable] = 1 1")],
    ),
    (
        "Conflict",
        &[(
            "num_steps = 2",
            "num_steps = 2 output quiet [partitions] = 1 1",
        )],
    ),
    (
        "Missing",
        &[
            ("vector_parameter_study", "[vector_parameter_study]"),
            ("    num_steps = 2\n", ""),
        ],
    ),
    (
        "Missing",
        &[
            ("vector_parameter_study", "[vector_parameter_study]"),
            ("step_vector = 0.5 0.5", ""),
        ],
    ),
    (
        "Conflict",
        &[(
            "step_vector = 0.5 0.5",
            "step_vector = 0.5 0.5 [final_point] = 1 1",
        )],
    ),
    (
        "Missing",
        &[(METHOD, "[centered_parameter_study] step_vector = 1 1")],
    ),
    ("Missing", &[(METHOD, "[list_parameter_study]")]),
    (
        "Missing",
        &[
            (METHOD, "multidim_parameter_study partitions = 8 8"),
            ("variables", "[variables]"),
        ],
    ),
    (
        "Conflict",
        &[
            (
                METHOD,
                "[compass_search] initial_delta = 1 threshold_delta = 1",
            ),
            ("objective_functions", "response_functions"),
        ],
    ),
];

/// Labels, file names, and the keywords of the method.
#[test]
fn labels_and_keywords_are_refused(rt: HostRuntime) -> Result<(), Fail> {
    refused(&rt, rt.alloc(), &KEYWORDS)
}

const REST: [Case<'static>; 20] = [
    (
        "Conflict",
        &[("direct", "direct failure_capture abort [retry] = 2")],
    ),
    ("Missing", &[("direct", "direct [retry] = 2")]),
    ("Missing", &[("direct", "direct [failure_capture]")]),
    (
        "Missing",
        &[("direct", "direct [evaluation_concurrency] = 2")],
    ),
    (
        "Conflict",
        &[
            ("interface", "[interface]"),
            ("direct", "direct parameters_file = 'results.out'"),
        ],
    ),
    (
        "Conflict",
        &[(
            "initial_point = 0 0",
            "initial_point = 0 0 lower_bounds = 1 1 upper_bounds = 1 [0.5]",
        )],
    ),
    (
        "OutsideBounds",
        &[(
            "initial_point = 0 0",
            "initial_point = 0 [3] upper_bounds = 2 2",
        )],
    ),
    (
        "OutsideBounds",
        &[(
            "initial_point = 0 0",
            "initial_point = [2*-1] lower_bounds = 0 0",
        )],
    ),
    (
        "OutsideBounds",
        &[
            ("variables", "[variables]"),
            ("initial_point = 0 0", "lower_bounds = 0 1"),
        ],
    ),
    (
        "TooMany",
        &[
            (METHOD, "multidim_parameter_study [partitions] = 316 316"),
            (
                "initial_point = 0 0",
                "lower_bounds = -2 -2 upper_bounds = 2 2",
            ),
        ],
    ),
    (
        "TooMany",
        &[
            (METHOD, "list_parameter_study [list_of_points] = 200002*1"),
            ("direct", "fork"),
        ],
    ),
    (
        "TooMany",
        &[
            (
                METHOD,
                "[compass_search] initial_delta = 1 threshold_delta = 1 max_function_evaluations = 100000",
            ),
            ("continuous_design = 2", "continuous_design = 40"),
            ("    initial_point = 0 0\n    descriptors = 'x1' 'x2'\n", ""),
            ("direct", "fork"),
        ],
    ),
    (
        "TooMany",
        &[
            (
                METHOD,
                "centered_parameter_study step_vector = 11*1 [steps_per_variable] = 5000",
            ),
            ("continuous_design = 2", "continuous_design = 11"),
            ("    initial_point = 0 0\n    descriptors = 'x1' 'x2'\n", ""),
            ("direct", "fork"),
        ],
    ),
    (
        "OffGrid",
        &[("initial_point = 0 0", "initial_point = 1e20 [1e-20]")],
    ),
    (
        "OffGrid",
        &[
            ("step_vector = 0.5 0.5", "step_vector = [1e-30] 0.5"),
            ("initial_point = 0 0", "initial_point = 1 0"),
        ],
    ),
    (
        "OffGrid",
        &[
            (
                "initial_point = 0 0",
                "initial_point = 0 0 upper_bounds = 1e29 1",
            ),
            ("step_vector = 0.5 0.5", "step_vector = [0.5] 0.5"),
        ],
    ),
    (
        "Missing",
        &[
            ("  tabular_data\n", ""),
            ("tabular_data_file", "[tabular_data_file]"),
        ],
    ),
    ("Unsupported", &[("direct", "direct [continuation]")]),
    (
        "OutsideBounds",
        &[(
            "initial_point = 0 0",
            "initial_point = 1e20 [1e-20] lower_bounds = 0 1",
        )],
    ),
    (
        "TooMany",
        &[
            (METHOD, "multidim_parameter_study [partitions] = 2*10000"),
            (
                "initial_point = 0 0",
                "lower_bounds = 2*0 upper_bounds = 1e20 1e-20",
            ),
        ],
    ),
];

/// Failures, concurrency, file names, bounds, sizes, the unit and the table.
#[test]
fn the_rest_is_refused(rt: HostRuntime) -> Result<(), Fail> {
    refused(&rt, rt.alloc(), &REST)
}
