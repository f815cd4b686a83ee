// Whole runs of the four parameter studies.
use super::texts::METHOD;
use super::{assert_told, run_anew};
use std::alloc::Global;
use std::process::Abort;
use std::test::Fail;

/// The edits of the base study, the exit status of a run of it, its table and its summary.
pub type Case<'a> = (&'a [(&'a str, &'a str)], u8, &'a str, &'a str);

const CENTERED: &str = "%eval_id interface x1 x2 obj_fn
1 NO_ID 0 0 1
2 NO_ID -1 0 104
3 NO_ID 1 0 100
4 NO_ID 0 -1 101
5 NO_ID 0 1 101
";

const AT_THE_CENTRE: &str = "<<<<< Study finished: complete
<<<<< Function evaluation summary: 5 total (5 new, 0 duplicate)
<<<<< Best evaluation: 1
<<<<< Best parameters: x1 = 0, x2 = 0
<<<<< Best objective function: obj_fn = 1
";

pub const LISTED: &str = "%eval_id interface x1 x2 obj_fn
1 NO_ID 0.1 0 0.82
2 NO_ID 0.1 0 0.82
";

pub const LISTED_TWICE: &str = "<<<<< Study finished: complete
<<<<< Function evaluation summary: 2 total (1 new, 1 duplicate)
<<<<< Best evaluation: 1
<<<<< Best parameters: x1 = 0.1, x2 = 0
<<<<< Best objective function: obj_fn = 0.82
";

const FIRST_OF_A_WAY: &str = "%eval_id interface x1 x2 obj_fn
1 NO_ID 0 0 1
";

pub const RECOVERED: &str = "%eval_id interface x1 x2 obj_fn
1 NO_ID 0 0 1
2 NO_ID 0.3333333333333333333333333333 0.3333333333333333333333333333 7
3 NO_ID 0.6666666666666666666666666667 0.6666666666666666666666666667 7
4 NO_ID 1 1 0
";

pub const RECOVERED_ON_THE_WAY: &str = "<<<<< Study finished: complete
<<<<< Function evaluation summary: 4 total (4 new, 0 duplicate)
<<<<< Best evaluation: 4
<<<<< Best parameters: x1 = 1, x2 = 1
<<<<< Best objective function: obj_fn = 0
";

const TRIED_THRICE: &str = "<<<<< Study aborted: evaluation 2 failed, attempts 3
<<<<< Function evaluation summary: 1 total (1 new, 0 duplicate)
<<<<< Best evaluation: 1
<<<<< Best parameters: x1 = 0, x2 = 0
<<<<< Best objective function: obj_fn = 1
";

pub const NO_ROWS: &str = "%eval_id interface x1 x2 obj_fn
";

pub const STOPPED_AT_ONCE: &str = "<<<<< Study aborted: evaluation 1 failed, attempts 1
<<<<< Function evaluation summary: 0 total (0 new, 0 duplicate)
";

const STOPPED_ON_THE_WAY: &str = "<<<<< Study aborted: evaluation 2 failed, attempts 1
<<<<< Function evaluation summary: 1 total (1 new, 0 duplicate)
<<<<< Best evaluation: 1
<<<<< Best parameters: x1 = 0, x2 = 0
<<<<< Best objective function: obj_fn = 1
";

/// Each of these studies comes to its status, its table and its summary.
pub fn assert_cases(rt: &impl Abort, alloc: Global, cases: &[Case]) -> Result<(), Fail> {
    for (edits, code, rows, told) in cases {
        assert_told(rt, &run_anew(alloc, edits)?, *code, rows, told);
    }
    Ok(())
}

/// A centered study, a list with a point twice, and a way to a final point whose second point has no value.
#[test]
fn each_study_has_its_rows(rt: HostRuntime) -> Result<(), Fail> {
    let centered = "centered_parameter_study step_vector = 1 1 steps_per_variable = 1 1";
    let list = "list_parameter_study list_of_points = 0.10 0 1e-1 0";
    let way = "vector_parameter_study num_steps = 3 final_point = 1 1";
    let cases: [Case; 3] = [
        (&[(METHOD, centered)], 0, CENTERED, AT_THE_CENTRE),
        (&[(METHOD, list)], 0, LISTED, LISTED_TWICE),
        (&[(METHOD, way)], 1, FIRST_OF_A_WAY, STOPPED_ON_THE_WAY),
    ];
    assert_cases(&rt, rt.alloc(), &cases)
}

/// A point without a value has the rule's own, is tried again as often as the rule says, or ends the study, at its
/// first row too, with a table and without one.
#[test]
fn each_rule_has_its_rows(rt: HostRuntime) -> Result<(), Fail> {
    let way = "vector_parameter_study num_steps = 3 final_point = 1 1";
    let recover = ("direct", "direct failure_capture recover = 7");
    let retry = ("direct", "direct failure_capture retry = 2");
    let thirds = ("0.5 0.5", "0.3333333333333333333333333333 0");
    let one_step = ("num_steps = 2", "num_steps = 1");
    let dead = ("0 0", "0.3333333333333333333333333333 0");
    let no_table = ("  tabular_data\n    tabular_data_file = 't.dat'\n", "");
    let cases: [Case; 4] = [
        (
            &[(METHOD, way), recover],
            0,
            RECOVERED,
            RECOVERED_ON_THE_WAY,
        ),
        (&[one_step, thirds, retry], 1, FIRST_OF_A_WAY, TRIED_THRICE),
        (&[dead], 1, NO_ROWS, STOPPED_AT_ONCE),
        (&[no_table, dead], 1, "", STOPPED_AT_ONCE),
    ];
    assert_cases(&rt, rt.alloc(), &cases)
}

const FIRST_ROWS: &str = "%eval_id interface x1 x2 response_fn_1
1 NO_ID -2 -2 3609
2 NO_ID -1.5 -2 1812.5
3 NO_ID -1 -2 904
";

const LAST_ROW: &str = "\n81 NO_ID 2 2 401\n";

const GRID_TOLD: &str = "<<<<< Study finished: complete
<<<<< Function evaluation summary: 81 total (81 new, 0 duplicate)
";

/// A grid of nine values for each of two variables.
#[test]
fn a_grid_has_a_row_for_each_choice(rt: HostRuntime) -> Result<(), Fail> {
    let alloc = rt.alloc();
    let edits = [
        (METHOD, "multidim_parameter_study partitions = 8 8"),
        (
            "initial_point = 0 0",
            "lower_bounds = -2.0 -2.0 upper_bounds = 2.0 2.0",
        ),
        ("objective_functions", "response_functions"),
    ];
    let left = run_anew(alloc, &edits)?;
    assert_eq!(rt; left.status.code(), 0);
    assert!(rt; left.table.taken().starts_with(FIRST_ROWS.as_bytes()));
    assert!(rt; left.table.taken().ends_with(LAST_ROW.as_bytes()));
    assert_eq!(rt; left.out.taken(), GRID_TOLD.as_bytes());
    Ok(())
}
