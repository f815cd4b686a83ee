// Whole runs of compass searches.
use super::ONE_ROW;
use super::studies::{Case, assert_cases};
use super::texts::METHOD;
use std::test::Fail;

/// The method of a search that halves its step once before it ends, and its bounds.
pub const TO_HALF: (&str, &str) = (
    METHOD,
    "compass_search initial_delta = 1 threshold_delta = 0.5",
);

pub const ABOUT: (&str, &str) = (
    "initial_point = 0 0",
    "initial_point = 0 0 lower_bounds = -2 -2 upper_bounds = 2 2",
);

pub const HALVED: &str = "%eval_id interface x1 x2 obj_fn
1 NO_ID 0 0 1
2 NO_ID 1 0 100
3 NO_ID -1 0 104
4 NO_ID 0 1 101
5 NO_ID 0 -1 101
6 NO_ID 0.5 0 6.5
7 NO_ID -0.5 0 8.5
8 NO_ID 0 0.5 26
9 NO_ID 0 -0.5 26
";

pub const HALVED_ONCE: &str = "<<<<< Study finished: threshold_delta
<<<<< Function evaluation summary: 9 total (9 new, 0 duplicate)
<<<<< Best evaluation: 1
<<<<< Best parameters: x1 = 0, x2 = 0
<<<<< Best objective function: obj_fn = 1
";

const IN_A_CORNER: &str = "%eval_id interface x1 x2 obj_fn
1 NO_ID 0 0 1
2 NO_ID 1 0 100
3 NO_ID 0 1 101
4 NO_ID 0.5 0 6.5
5 NO_ID 0 0.5 26
";

const KEPT_THERE: &str = "<<<<< Study finished: threshold_delta
<<<<< Function evaluation summary: 5 total (5 new, 0 duplicate)
<<<<< Best evaluation: 1
<<<<< Best parameters: x1 = 0, x2 = 0
<<<<< Best objective function: obj_fn = 1
";

const MOVED: &str = "%eval_id interface x1 x2 obj_fn
1 NO_ID 0 0 1
2 NO_ID 1 0 100
3 NO_ID -1 0 104
4 NO_ID 0 1 101
5 NO_ID 0 -1 101
6 NO_ID 0.5 0 6.5
7 NO_ID -0.5 0 8.5
8 NO_ID 0 0.5 26
9 NO_ID 0 -0.5 26
10 NO_ID 0.25 0 0.953125
11 NO_ID -0.25 0 1.953125
12 NO_ID 0 0.25 7.25
13 NO_ID 0 -0.25 7.25
14 NO_ID 0.5 0 6.5
15 NO_ID 0 0 1
16 NO_ID 0.25 0.25 4.078125
17 NO_ID 0.25 -0.25 10.328125
";

const MOVED_ONCE: &str = "<<<<< Study finished: threshold_delta
<<<<< Function evaluation summary: 17 total (15 new, 2 duplicate)
<<<<< Best evaluation: 10
<<<<< Best parameters: x1 = 0.25, x2 = 0
<<<<< Best objective function: obj_fn = 0.953125
";

const FIRST_BATCH: &str = "%eval_id interface x1 x2 obj_fn
1 NO_ID 0 0 1
2 NO_ID 1 0 100
3 NO_ID -1 0 104
4 NO_ID 0 1 101
5 NO_ID 0 -1 101
";

const NO_ROOM_FOR_MORE: &str = "<<<<< Study finished: max_function_evaluations
<<<<< Function evaluation summary: 5 total (5 new, 0 duplicate)
<<<<< Best evaluation: 1
<<<<< Best parameters: x1 = 0, x2 = 0
<<<<< Best objective function: obj_fn = 1
";

const NOT_BEGUN: &str = "<<<<< Study finished: max_iterations
<<<<< Function evaluation summary: 1 total (1 new, 0 duplicate)
<<<<< Best evaluation: 1
<<<<< Best parameters: x1 = 0, x2 = 0
<<<<< Best objective function: obj_fn = 1
";

const NO_WAY_OUT: &str = "<<<<< Study finished: threshold_delta
<<<<< Function evaluation summary: 1 total (1 new, 0 duplicate)
<<<<< Best evaluation: 1
<<<<< Best parameters: x1 = 0, x2 = 0
<<<<< Best objective function: obj_fn = 1
";

/// A search stays where no poll is better, keeps its bounds, moves to a better poll, and ends at its threshold or at one of
/// its limits. Where the bounds leave no poll, and where its first step is below the threshold, it has one row.
#[test]
fn each_search_has_its_rows(rt: HostRuntime) -> Result<(), Fail> {
    let quarter = "compass_search initial_delta = 1 threshold_delta = 0.25";
    let five =
        "compass_search initial_delta = 1 threshold_delta = 0.5 max_function_evaluations = 5";
    let none = "compass_search initial_delta = 1 threshold_delta = 0.5 max_iterations = 0";
    let small = "compass_search initial_delta = 0.5 threshold_delta = 1";
    let corner = (ABOUT.0, "lower_bounds = 0 0 upper_bounds = 2 2");
    let point = (ABOUT.0, "lower_bounds = 0 0 upper_bounds = 0 0");
    let cases: [Case; 7] = [
        (&[TO_HALF, ABOUT], 0, HALVED, HALVED_ONCE),
        (&[TO_HALF, corner], 0, IN_A_CORNER, KEPT_THERE),
        (&[(METHOD, quarter), ABOUT], 0, MOVED, MOVED_ONCE),
        (&[(METHOD, five), ABOUT], 0, FIRST_BATCH, NO_ROOM_FOR_MORE),
        (&[(METHOD, none), ABOUT], 0, ONE_ROW, NOT_BEGUN),
        (&[TO_HALF, point], 0, ONE_ROW, NO_WAY_OUT),
        (&[(METHOD, small), ABOUT], 0, ONE_ROW, NO_WAY_OUT),
    ];
    assert_cases(&rt, rt.alloc(), &cases)
}
