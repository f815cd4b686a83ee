// Studies of many rows, and long texts.
use super::texts::{METHOD, edited, padded, words_of};
use super::{
    FOUND, FRESH, Left, PLENTY, RESUMED, TABLE, assert_refused, assert_told, run, run_text,
};
use crate::check;
use dk_memory::{MemDisk, MemSink, MemSource};
use dk_outside::Disk;
use std::alloc::{AllocError, Global};
use std::process::Abort;
use std::test::Fail;

const HUNDRED_PARTS: &str = "multidim_parameter_study partitions = 100 100";

const MOST_PARTS: &str = "multidim_parameter_study partitions = 315 315";

/// The edits that make a grid of the base study, where a point without a value has the rule's own.
fn grid(method: &str) -> [(&str, &str); 4] {
    [
        (METHOD, method),
        (
            "initial_point = 0 0",
            "lower_bounds = -2.0 -2.0 upper_bounds = 2.0 2.0",
        ),
        ("objective_functions", "response_functions"),
        ("direct", "direct failure_capture recover = 7"),
    ]
}

const MANY_TOLD: &str = "<<<<< Study finished: complete
<<<<< Function evaluation summary: 10201 total (10201 new, 0 duplicate)
";

const MOST_TOLD: &str = "<<<<< Study finished: complete
<<<<< Function evaluation summary: 99856 total (99856 new, 0 duplicate)
";

/// A run of a grid over a new file comes to this summary, to a table with this last line, and to a file of so many bytes.
/// The disk is that file's.
fn assert_grid(
    rt: &impl Abort,
    alloc: Global,
    method: &str,
    told: &str,
    last: &str,
    size: u64,
) -> Result<MemDisk, AllocError> {
    let disk = MemDisk::disk(alloc, b"", &[], None)?;
    let mut left = run(alloc, FRESH, &grid(method), disk)?;
    assert_eq!(rt; left.status.code(), 0);
    assert_eq!(rt; left.out.taken(), told.as_bytes());
    assert!(rt; left.table.taken().ends_with(last.as_bytes()));
    assert_eq!(rt; left.disk.length(), Ok(size));
    Ok(left.disk)
}

/// A run of a grid that goes on with a file of so many bytes comes to this summary, and only reads the file.
fn assert_grid_again(
    rt: &impl Abort,
    alloc: Global,
    method: &str,
    told: &str,
    mut disk: MemDisk,
    size: u64,
) -> Result<(), AllocError> {
    let mut file = vec![in alloc; 0u8; size as usize]?;
    assert_eq!(rt; disk.read_at(0, &mut file), Ok(size as usize));
    let disk = MemDisk::disk(alloc, &file, &[], Some(4))?;
    let left = run(alloc, RESUMED, &grid(method), disk)?;
    assert_eq!(rt; left.status.code(), 0);
    assert_eq!(rt; left.out.taken(), told.as_bytes());
    Ok(())
}

/// Grids of 101 and of 316 values for each of two variables. Each point of the first has a value, and all but 36 of the
/// second have none: a record takes 60 bytes with a value and 42 without one.
#[test]
fn studies_of_many_rows_are_evaluated(rt: HostRuntime) -> Result<(), Fail> {
    let alloc = rt.alloc();
    for (method, told, last, size) in [
        (HUNDRED_PARTS, MANY_TOLD, "\n10201 NO_ID 2 2 401\n", 612_094),
        (MOST_PARTS, MOST_TOLD, "\n99856 NO_ID 2 2 401\n", 4_194_634),
    ] {
        let disk = assert_grid(&rt, alloc, method, told, last, size)?;
        assert_grid_again(&rt, alloc, method, told, disk, size)?;
    }
    Ok(())
}

const LINE: &str = "study accepted: variables 2, responses 1, evaluations at most 99856\n";

/// A grid of 316 values for each of two variables.
#[test]
fn a_study_of_most_rows_is_checked(rt: HostRuntime) -> Result<(), Fail> {
    let alloc = rt.alloc();
    let text = edited(alloc, &grid(MOST_PARTS))?;
    let mut source = MemSource::source(alloc, &text, &[])?;
    let mut out = MemSink::sink(alloc, PLENTY, &[])?;
    let words = words_of(alloc, &["-check", "-i", "grid.in"])?;
    assert_eq!(rt; check(alloc, &words, &mut source, &mut out).code(), 0);
    assert_eq!(rt; out.taken(), LINE.as_bytes());
    Ok(())
}

/// A run of the base study's text with a comment behind it, so that it has so many bytes. The source's calls of these
/// numbers fail.
fn run_padded(alloc: Global, count: usize, fail: &[u64]) -> Result<Left, AllocError> {
    let text = padded(edited(alloc, &[])?, count)?;
    run_text(alloc, FRESH, &text, fail)
}

/// A text that is as long as it may be is read, in 256 pieces.
#[test]
fn a_long_text_is_read_to_its_end(rt: HostRuntime) -> Result<(), Fail> {
    let left = run_padded(rt.alloc(), 1_048_576, &[])?;
    assert_told(&rt, &left, 0, TABLE, FOUND);
    Ok(())
}

/// A source that fails behind so long a text has a fault. A longer text is refused for its length, also where its source
/// fails behind the next piece.
#[test]
fn longer_texts_are_given_up(rt: HostRuntime) -> Result<(), Fail> {
    for (count, fail, code, line) in [
        (1_048_576, 257, 4, "dakota: study not readable\n"),
        (
            1_048_577,
            258,
            3,
            "dakota: study refused: TooLong at bytes 0..0\n",
        ),
    ] {
        let left = run_padded(rt.alloc(), count, &[fail])?;
        assert_refused(&rt, &left, code, line);
    }
    Ok(())
}
