// Runs whose points are evaluated by a simulation.
use super::benches::{Answer, Simulation, benches_of};
use super::files::FILE;
use super::searches::{ABOUT, HALVED_ONCE, TO_HALF};
use super::texts::{METHOD, edited};
use super::{FOUND, FRESH, Left, PLENTY, RESUMED, TABLE, assert_refused, assert_told, run_on};
use dk_memory::{Image, MemDisk, MemSource};
use dk_outside::Disk;
use std::alloc::{AllocError, Global};
use std::process::Abort;
use std::test::Fail;

/// The interface of a study over a simulation, and of one that tries a point twice again or has a value for it.
const FORK: (&str, &str) = ("'rosenbrock'\n    direct", "'sim' fork");

const RETRY: (&str, &str) = (
    "'rosenbrock'\n    direct",
    "'sim' fork failure_capture retry = 2",
);

const RECOVER: (&str, &str) = (
    "'rosenbrock'\n    direct",
    "'sim' fork failure_capture recover = 99",
);

const ONE_POINT: (&str, &str) = ("num_steps = 2", "num_steps = 0");

/// Rosenbrock's function at four points.
const ROSENBROCK: Simulation = Simulation {
    answers: &[
        Answer(" 0.000000000000000e+00 x1\n", 1, b"1 obj_fn\n"),
        Answer(" 5.000000000000000e-01 x1\n", 1, b"6.5 obj_fn\n"),
        Answer(" 1.000000000000000e+00 x1\n", 1, b"0 obj_fn\n"),
        Answer(" 1.500000000000000e+00 x1\n", 1, b"56.5 obj_fn\n"),
    ],
};

/// A run of the base study with these edits over a disk and a simulation, on a first bench whose calls of these numbers fail.
fn run_over(
    alloc: Global,
    words: &[&str],
    edits: &[(&str, &str)],
    disk: MemDisk,
    simulation: Simulation,
    fail: &[u64],
) -> Result<Left, AllocError> {
    let source = MemSource::source(alloc, &edited(alloc, edits)?, &[])?;
    let benches = benches_of(alloc, simulation, fail)?;
    run_on(alloc, words, source, disk, (PLENTY, PLENTY), benches)
}

/// The simulation ran so often on the first bench, and on no other.
fn assert_runs(rt: &impl Abort, left: &Left, wanted: usize, told: &str) {
    assert_eq!(rt; left.runs, wanted, "{told}");
    assert!(rt; left.others_rest, "{told}");
}

const FOUR: &str = "%eval_id interface x1 x2 obj_fn
1 NO_ID 0 0 4
";

const FOUR_TOLD: &str = "<<<<< Study finished: complete
<<<<< Function evaluation summary: 1 total (1 new, 0 duplicate)
<<<<< Best evaluation: 1
<<<<< Best parameters: x1 = 0, x2 = 0
<<<<< Best objective function: obj_fn = 4
";

const NO_ROWS: &str = "%eval_id interface x1 x2 obj_fn
";

const TRIED_THRICE: &str = "<<<<< Study aborted: evaluation 1 failed, attempts 3
<<<<< Function evaluation summary: 0 total (0 new, 0 duplicate)
";

const RECOVERED: &str = "%eval_id interface x1 x2 obj_fn
1 NO_ID 0 0 99
";

const RECOVERED_TOLD: &str = "<<<<< Study finished: complete
<<<<< Function evaluation summary: 1 total (1 new, 0 duplicate)
<<<<< Best evaluation: 1
<<<<< Best parameters: x1 = 0, x2 = 0
<<<<< Best objective function: obj_fn = 99
";

/// The edits of the base study and the answers, and then the exit status, the table, the summary, how many bytes the restart
/// file has, and how often the simulation ran.
type Case = (
    &'static [(&'static str, &'static str)],
    &'static [Answer],
    u8,
    &'static str,
    &'static str,
    u64,
    usize,
);

const CASES: [Case; 3] = [
    (
        &[ONE_POINT, RETRY],
        &[Answer("", 3, b"4"), Answer("", 1, b"FAIL\n")],
        0,
        FOUR,
        FOUR_TOLD,
        171,
        3,
    ),
    (
        &[ONE_POINT, RETRY],
        &[Answer("", 1, b"FAIL\n")],
        1,
        NO_ROWS,
        TRIED_THRICE,
        153,
        3,
    ),
    (
        &[ONE_POINT, RECOVER],
        &[Answer("", 1, b"FAILURE at step 3\n")],
        0,
        RECOVERED,
        RECOVERED_TOLD,
        69,
        1,
    ),
];

/// The study of a case ends as it should.
fn assert_case(rt: &impl Abort, alloc: Global, case: Case) -> Result<(), AllocError> {
    let (edits, answers, code, table, told, length, runs) = case;
    let disk = MemDisk::disk(alloc, b"", &[], None)?;
    let simulation = Simulation { answers };
    let mut left = run_over(alloc, FRESH, edits, disk, simulation, &[])?;
    assert_told(rt, &left, code, table, told);
    assert_eq!(rt; left.disk.length(), Ok(length), "{told}");
    assert_runs(rt, &left, runs, told);
    Ok(())
}

/// A simulation that fails is tried again as often as the rule says, or the rule's value stands for it.
#[test]
fn simulations_that_fail_are_handled_as_the_rule_says(rt: HostRuntime) -> Result<(), Fail> {
    for case in CASES {
        assert_case(&rt, rt.alloc(), case)?;
    }
    Ok(())
}

const TIED: &str = "%eval_id interface x1 x2 obj_fn
1 NO_ID 0 0 1
2 NO_ID 1 0 1
3 NO_ID -1 0 1
4 NO_ID 0 1 1
5 NO_ID 0 -1 1
6 NO_ID 0.5 0 1
7 NO_ID -0.5 0 1
8 NO_ID 0 0.5 1
9 NO_ID 0 -0.5 1
";

const OVER_TIES: Case = (
    &[TO_HALF, ABOUT, FORK],
    &[Answer("", 1, b"1")],
    0,
    TIED,
    HALVED_ONCE,
    567,
    9,
);

/// A search over values that are all alike stays where it is and halves its step.
#[test]
fn a_search_over_ties_stays(rt: HostRuntime) -> Result<(), Fail> {
    assert_case(&rt, rt.alloc(), OVER_TIES)?;
    Ok(())
}

/// The worked file with this byte at its second gate and a closed one behind the second record.
fn two_records(gate: u8) -> [u8; 147] {
    let mut bytes = [0; 147];
    bytes.copy_from_slice(&FILE[..147]);
    bytes[86] = gate;
    bytes[146] = 0;
    bytes
}

/// One record, and behind its closed gate what a crash left of the next.
fn one_record() -> [u8; 146] {
    let mut bytes = [255; 146];
    bytes[..86].copy_from_slice(&FILE[..86]);
    bytes[86] = 0;
    bytes
}

/// A run that goes on with what a crash left of the base study's file starts the simulation for what isn't there, and ends
/// as one that wasn't stopped.
#[test]
fn no_recorded_attempt_is_started(rt: HostRuntime) -> Result<(), Fail> {
    let alloc = rt.alloc();
    let unborn = [0, 255, 255, 255, 255, 255, 255, 255, 255, 255, 255];
    let cases: [(&[u8], usize); 7] = [
        (&one_record(), 2),
        (&two_records(0), 2),
        (&two_records(7), 1),
        (b"x", 3),
        (&unborn, 3),
        (b"", 3),
        (&FILE, 0),
    ];
    for (bytes, runs) in cases {
        let disk = MemDisk::disk(alloc, bytes, &[], None)?;
        let mut left = run_over(alloc, RESUMED, &[FORK], disk, ROSENBROCK, &[])?;
        assert_told(&rt, &left, 0, TABLE, FOUND);
        assert_eq!(rt; left.disk.length(), Ok(207));
        assert_runs(&rt, &left, runs, "resumed");
    }
    Ok(())
}

const FOUR_ROWS: &str = "%eval_id interface x1 x2 obj_fn
1 NO_ID 0 0 1
2 NO_ID 0.5 0.5 6.5
3 NO_ID 1 1 0
4 NO_ID 1.5 1.5 56.5
";

const FOUR_FOUND: &str = "<<<<< Study finished: complete
<<<<< Function evaluation summary: 4 total (4 new, 0 duplicate)
<<<<< Best evaluation: 3
<<<<< Best parameters: x1 = 1, x2 = 1
<<<<< Best objective function: obj_fn = 0
";

/// The disk fails at the first write of the third record: three runs were made, and the run that goes on makes two.
#[test]
fn an_attempt_that_was_not_recorded_is_made_again(rt: HostRuntime) -> Result<(), Fail> {
    let alloc = rt.alloc();
    let edits = [("num_steps = 2", "num_steps = 3"), FORK];
    let disk = MemDisk::disk(alloc, b"", &[17], None)?;
    let left = run_over(alloc, FRESH, &edits, disk, ROSENBROCK, &[])?;
    assert_refused(&rt, &left, 6, "dakota: restart file failed\n");
    assert_runs(&rt, &left, 3, "stopped");
    let image = left.disk.image(left.disk.moments(), Image::Old)?;
    let disk = MemDisk::disk(alloc, &image, &[], None)?;
    let left = run_over(alloc, RESUMED, &edits, disk, ROSENBROCK, &[])?;
    assert_told(&rt, &left, 0, FOUR_ROWS, FOUR_FOUND);
    assert_runs(&rt, &left, 2, "resumed");
    Ok(())
}

/// A call of the first bench that fails is told by its step, and nothing is recorded. An attempt takes six calls.
#[test]
fn a_failed_call_of_a_bench_is_told(rt: HostRuntime) -> Result<(), Fail> {
    let alloc = rt.alloc();
    for (call, line, runs) in [
        (1, "dakota: bench 0 failed at clear\n", 0),
        (2, "dakota: bench 0 failed at lay\n", 0),
        (3, "dakota: bench 0 failed at run\n", 0),
        (4, "dakota: bench 0 failed at fetch\n", 1),
        (5, "dakota: bench 0 failed at clear after\n", 1),
        (6, "dakota: bench 0 failed at clear after\n", 1),
    ] {
        let disk = MemDisk::disk(alloc, b"", &[], None)?;
        let mut left = run_over(alloc, FRESH, &[FORK], disk, ROSENBROCK, &[call])?;
        assert_refused(&rt, &left, 8, line);
        assert_eq!(rt; left.disk.length(), Ok(27), "{line}");
        assert_runs(&rt, &left, runs, line);
    }
    Ok(())
}

const LISTED: &str = "%eval_id interface x1 x2 obj_fn
1 NO_ID 0 0 4
2 NO_ID 0 0 4
";

const LISTED_TOLD: &str = "<<<<< Study finished: complete
<<<<< Function evaluation summary: 2 total (1 new, 1 duplicate)
<<<<< Best evaluation: 1
<<<<< Best parameters: x1 = 0, x2 = 0
<<<<< Best objective function: obj_fn = 4
";

/// A duplicate starts nothing.
#[test]
fn a_duplicate_starts_nothing(rt: HostRuntime) -> Result<(), Fail> {
    let alloc = rt.alloc();
    let list = "list_parameter_study list_of_points = 0.0 0 0e5 -0";
    let simulation = Simulation {
        answers: &[Answer("", 1, b"4")],
    };
    let disk = MemDisk::disk(alloc, b"", &[], None)?;
    let left = run_over(alloc, FRESH, &[(METHOD, list), FORK], disk, simulation, &[])?;
    assert_told(&rt, &left, 0, LISTED, LISTED_TOLD);
    assert_runs(&rt, &left, 1, "listed");
    Ok(())
}

const GRID: &str = "multidim_parameter_study partitions = 315 315";

const BOUNDS: &str = "lower_bounds = -2.0 -2.0 upper_bounds = 2.0 2.0";

const GRID_LINE: &str = "<<<<< Function evaluation summary: 99856 total (99856 new, 0 duplicate)\n";

/// A grid of 316 values for each of two variables, each point of which is evaluated by the simulation.
#[test]
fn a_simulation_of_most_rows_is_run(rt: HostRuntime) -> Result<(), Fail> {
    let alloc = rt.alloc();
    let edits = [(METHOD, GRID), ("initial_point = 0 0", BOUNDS), FORK];
    let simulation = Simulation {
        answers: &[Answer("", 1, b"1")],
    };
    let disk = MemDisk::disk(alloc, b"", &[], None)?;
    let left = run_over(alloc, FRESH, &edits, disk, simulation, &[])?;
    assert_eq!(rt; left.status.code(), 0);
    assert!(rt; left.table.taken().ends_with(b"\n99856 NO_ID 2 2 1\n"));
    let told = str::from_utf8(left.out.taken()).is_ok_and(|told| told.contains(GRID_LINE));
    assert!(rt; told);
    assert_runs(&rt, &left, 99_856, "grid");
    Ok(())
}
