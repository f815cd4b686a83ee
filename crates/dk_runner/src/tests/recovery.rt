// Files with failed attempts, under the rule that they were made under and under others.
use super::files::FAILED;
use super::studies::{NO_ROWS, RECOVERED, RECOVERED_ON_THE_WAY, STOPPED_AT_ONCE};
use super::texts::METHOD;
use super::{RESUMED, assert_told, run, run_anew};
use dk_memory::MemDisk;
use std::test::Fail;

const ONE_POINT: (&str, &str) = ("num_steps = 2", "num_steps = 0");

/// A point without a value.
const DEAD: (&str, &str) = (
    "initial_point = 0 0",
    "initial_point = 0.3333333333333333333333333333 0",
);

const ABORT: (&str, &str) = ("direct", "direct failure_capture abort");

const RETRY: (&str, &str) = ("direct", "direct failure_capture retry = 2");

const RECOVER_SEVEN: (&str, &str) = ("direct", "direct failure_capture recover = 7");

const RECOVER_EIGHT: (&str, &str) = ("direct", "direct failure_capture recover = 8");

const SEVEN: &str = "%eval_id interface x1 x2 obj_fn
1 NO_ID 0.3333333333333333333333333333 0 7
";

const SEVEN_TOLD: &str = "<<<<< Study finished: complete
<<<<< Function evaluation summary: 1 total (1 new, 0 duplicate)
<<<<< Best evaluation: 1
<<<<< Best parameters: x1 = 0.3333333333333333333333333333, x2 = 0
<<<<< Best objective function: obj_fn = 7
";

const EIGHT: &str = "%eval_id interface x1 x2 obj_fn
1 NO_ID 0.3333333333333333333333333333 0 8
";

const EIGHT_TOLD: &str = "<<<<< Study finished: complete
<<<<< Function evaluation summary: 1 total (1 new, 0 duplicate)
<<<<< Best evaluation: 1
<<<<< Best parameters: x1 = 0.3333333333333333333333333333, x2 = 0
<<<<< Best objective function: obj_fn = 8
";

const TRIED_THRICE: &str = "<<<<< Study aborted: evaluation 1 failed, attempts 3
<<<<< Function evaluation summary: 0 total (0 new, 0 duplicate)
";

/// Where the rule's value stands for a failed attempt, the file has the failed attempt.
#[test]
fn failed_attempts_are_kept_as_failed(rt: HostRuntime) -> Result<(), Fail> {
    let left = run_anew(rt.alloc(), &[ONE_POINT, DEAD, RECOVER_SEVEN])?;
    assert_told(&rt, &left, 0, SEVEN, SEVEN_TOLD);
    assert_eq!(rt; left.file()?.as_slice(), FAILED.as_slice());
    Ok(())
}

/// A run that goes on with a failed attempt reads it so: under another rule it aborts the study, or gets the other value.
/// The file is only read: the disk fails behind the three calls for that.
#[test]
fn failed_attempts_are_read_under_other_rules(rt: HostRuntime) -> Result<(), Fail> {
    for (rule, code, table, out) in [
        (RECOVER_SEVEN, 0, SEVEN, SEVEN_TOLD),
        (RECOVER_EIGHT, 0, EIGHT, EIGHT_TOLD),
        (ABORT, 1, NO_ROWS, STOPPED_AT_ONCE),
    ] {
        let disk = MemDisk::disk(rt.alloc(), &FAILED, &[], Some(4))?;
        let left = run(rt.alloc(), RESUMED, &[ONE_POINT, DEAD, rule], disk)?;
        assert_told(&rt, &left, code, table, out);
        assert_eq!(rt; left.file()?.as_slice(), FAILED.as_slice());
    }
    Ok(())
}

/// Where a failed attempt is to be tried again, the next ones are made and added behind it, in 42 bytes each.
#[test]
fn failed_attempts_are_gone_on_from(rt: HostRuntime) -> Result<(), Fail> {
    let disk = MemDisk::disk(rt.alloc(), &FAILED, &[], None)?;
    let left = run(rt.alloc(), RESUMED, &[ONE_POINT, DEAD, RETRY], disk)?;
    assert_told(&rt, &left, 1, NO_ROWS, TRIED_THRICE);
    let file = left.file()?;
    assert_eq!(rt; file.len(), 153);
    assert!(rt; file.starts_with(&FAILED[..68]));
    Ok(())
}

/// Two records with values and two without: 60 bytes each and 42.
#[test]
fn failures_among_values_are_kept(rt: HostRuntime) -> Result<(), Fail> {
    let alloc = rt.alloc();
    let way = "vector_parameter_study num_steps = 3 final_point = 1 1";
    let edits = [(METHOD, way), RECOVER_SEVEN];
    let left = run_anew(alloc, &edits)?;
    assert_told(&rt, &left, 0, RECOVERED, RECOVERED_ON_THE_WAY);
    let file = left.file()?;
    assert_eq!(rt; file.len(), 231);
    let disk = MemDisk::disk(alloc, &file, &[], Some(4))?;
    let again = run(alloc, RESUMED, &edits, disk)?;
    assert_told(&rt, &again, 0, RECOVERED, RECOVERED_ON_THE_WAY);
    Ok(())
}
