//! Studies as their texts say them, with each default.
use crate::read_study;
use crate::tests::told::told;
use crate::tests::{BASE, edited};
use std::test::Fail;

const METHOD: &str = "  vector_parameter_study
    num_steps = 2
    step_vector = 0.5 0.5";

const DIRECT: &str = "  analysis_drivers = 'rosenbrock'
    direct";

/// Edits of the base study, and how the study that they give is told.
type Case = (&'static [(&'static str, &'static str)], &'static str);

const STUDIES: [Case; 9] = [
    (
        &[],
        "1e-29 x1 x2 from 0 0 objectives obj_fn vector 2 by 50000000000000000000000000000 50000000000000000000000000000 direct params.in results.out 1 abort into t.dat limit 3",
    ),
    (
        &[
            ("step_vector = 0.5 0.5", "FINAL_POINT = 2*1"),
            ("method", "model single METHOD output quiet"),
        ],
        "1e-28 x1 x2 from 0 0 objectives obj_fn vector 2 to 10000000000000000000000000000 10000000000000000000000000000 direct params.in results.out 1 abort into t.dat limit 3",
    ),
    (
        &[(
            METHOD,
            "list_parameter_study list_of_points = 0.10 0 1e-1 0",
        )],
        "1e-29 x1 x2 from 0 0 objectives obj_fn list 10000000000000000000000000000 0 10000000000000000000000000000 0 direct params.in results.out 1 abort into t.dat limit 2",
    ),
    (
        &[(
            METHOD,
            "centered_parameter_study step_vector = 1 1 steps_per_variable = 2",
        )],
        "1e-28 x1 x2 from 0 0 objectives obj_fn centered 10000000000000000000000000000 10000000000000000000000000000 times 2 2 direct params.in results.out 1 abort into t.dat limit 9",
    ),
    (
        &[
            (METHOD, "multidim_parameter_study partitions = 315 315"),
            (
                "initial_point = 0 0",
                "lower_bounds = -2.0 -2.0 upper_bounds = 2.0 2.0",
            ),
            ("objective_functions", "response_functions"),
        ],
        "1e-28 x1 x2 from 0 0 above -20000000000000000000000000000 -20000000000000000000000000000 below 20000000000000000000000000000 20000000000000000000000000000 responses response_fn_1 grid 315 315 direct params.in results.out 1 abort into t.dat limit 99856",
    ),
    (
        &[(
            METHOD,
            "compass_search initial_delta = 1 threshold_delta = 0.5",
        )],
        "1e-28 x1 x2 from 0 0 objectives obj_fn compass 10000000000000000000000000000 5000000000000000000000000000 1000 1000 direct params.in results.out 1 abort into t.dat limit 1000",
    ),
    (
        &[(
            DIRECT,
            "analysis_drivers 'a b' fork file_tag file_save aprepro asynchronous evaluation_concurrency = 3 parameters_file = 'p' results_file = 'r' failure_capture retry = 4",
        )],
        "1e-29 x1 x2 from 0 0 objectives obj_fn vector 2 by 50000000000000000000000000000 50000000000000000000000000000 fork a b p r aprepro tag save 3 retry 4 into t.dat limit 3",
    ),
    (
        &[
            (
                DIRECT,
                "analysis_drivers 'a' fork failure_capture recover = 2*7",
            ),
            ("objective_functions = 1", "response_functions = 2"),
        ],
        "1e-29 x1 x2 from 0 0 responses response_fn_1 response_fn_2 vector 2 by 50000000000000000000000000000 50000000000000000000000000000 fork a params.in results.out 1 recover 7 7 into t.dat limit 3",
    ),
    (
        &[
            ("descriptors = 'x1' 'x2'", ""),
            ("    initial_point = 0 0\n", ""),
        ],
        "1e-29 cdv_1 cdv_2 from 0 0 objectives obj_fn vector 2 by 50000000000000000000000000000 50000000000000000000000000000 direct params.in results.out 1 abort into t.dat limit 3",
    ),
];

/// The base study with these edits is read as this line says.
#[test]
fn studies_are_read_as_written(rt: HostRuntime) -> Result<(), Fail> {
    let alloc = rt.alloc();
    for (edits, wanted) in &STUDIES {
        let text = edited(alloc, edits)?;
        assert_eq!(&rt; told(alloc, text.as_bytes())?.as_str(), *wanted);
    }
    Ok(())
}

/// What isn't written has its default.
#[test]
fn parts_that_are_not_written_have_their_defaults(rt: HostRuntime) -> Result<(), Fail> {
    let alloc = rt.alloc();
    let text = "method list_parameter_study list_of_points = 6*0
variables continuous_design = 3
interface analysis_drivers = ' sim  -v ' fork asynchronous
responses objective_functions = 2
environment tabular_data";
    let wanted =
        "1e-28 cdv_1 cdv_2 cdv_3 from 0 0 0 objectives obj_fn_1 obj_fn_2 list 0 0 0 0 0 0 fork sim -v params.in results.out 64 abort into dakota_tabular.dat limit 2";
    assert_eq!(&rt; told(alloc, text.as_bytes())?.as_str(), wanted);
    Ok(())
}

/// The shape of a study has its labels.
#[test]
fn shapes_have_the_labels(rt: HostRuntime) -> Result<(), Fail> {
    let alloc = rt.alloc();
    match read_study(alloc, BASE.as_bytes()) {
        Ok(study) => {
            let shape = study.shape(alloc)?;
            assert_eq!(&rt; shape.variables.items().len(), 2);
            assert_eq!(&rt; shape.variables.items()[1].as_str(), "x2");
            assert_eq!(&rt; shape.responses.items().len(), 1);
            assert_eq!(&rt; shape.responses.items()[0].as_str(), "obj_fn");
        }
        Err(_) => assert!(&rt; false),
    }
    Ok(())
}
