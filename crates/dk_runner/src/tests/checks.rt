// Checks of studies in memory.
use super::PLENTY;
use super::texts::words_of;
use crate::check;
use dk_memory::{MemSink, MemSource};
use std::alloc::{AllocError, Global};
use std::process::Abort;
use std::test::Fail;

const GRID: &str = "method
  multidim_parameter_study
    partitions = 8 8
variables
  continuous_design = 2
    lower_bounds = -2.0 -2.0
    upper_bounds = 2.0 2.0
interface
  analysis_drivers = 'rosenbrock'
    direct
responses
  response_functions = 1
  no_gradients
  no_hessians
";

const REPEATED: &str = "method
  multidim_parameter_study
    partitions = 8 8
    partitions = 8 8
";

const LINE: &str = "study accepted: variables 2, responses 1, evaluations at most 81\n";

const REPEATED_LINE: &str = "dakota: study refused: Repeated at bytes 59..69\n";

const WORDS: &[&str] = &["-check", "-i", "a"];

/// A check over the words and the bytes of a source, whose calls of these numbers fail, with so much room on standard
/// output, comes to this exit status and these bytes there.
fn assert_checked(
    rt: &impl Abort,
    alloc: Global,
    words: &[&str],
    (text, fail): (&[u8], &[u64]),
    room: usize,
    (code, told): (u8, &str),
) -> Result<(), AllocError> {
    let words = words_of(alloc, words)?;
    let mut source = MemSource::source(alloc, text, fail)?;
    let mut out = MemSink::sink(alloc, room, &[])?;
    let status = check(alloc, &words, &mut source, &mut out);
    assert_eq!(rt; status.code(), code, "{told}");
    assert_eq!(rt; out.taken(), told.as_bytes(), "{told}");
    assert_eq!(rt; out.begun(), None, "{told}");
    Ok(())
}

#[test]
fn a_study_is_accepted(rt: HostRuntime) -> Result<(), Fail> {
    let alloc = rt.alloc();
    let grid = GRID.as_bytes();
    assert_checked(&rt, alloc, WORDS, (grid, &[]), PLENTY, (0, LINE))?;
    let words = ["-input", "a", "-check"];
    assert_checked(&rt, alloc, &words, (grid, &[]), PLENTY, (0, LINE))?;
    Ok(())
}

#[test]
fn other_texts_are_refused(rt: HostRuntime) -> Result<(), Fail> {
    let alloc = rt.alloc();
    let long = vec![in alloc; b'#'; 1_048_577]?;
    let cases: [(&[u8], &str); 3] = [
        (REPEATED.as_bytes(), REPEATED_LINE),
        (b"", "dakota: study refused: MissingBlock at bytes 0..0\n"),
        (&long, "dakota: study refused: TooLong at bytes 0..0\n"),
    ];
    for (text, line) in cases {
        assert_checked(&rt, alloc, WORDS, (text, &[]), PLENTY, (3, line))?;
    }
    Ok(())
}

/// The words of a run are refused, and nothing is read: the source fails at its first call.
#[test]
fn a_run_is_no_check(rt: HostRuntime) -> Result<(), Fail> {
    let told = (2, "dakota: usage: word 1\n");
    assert_checked(&rt, rt.alloc(), &["-i", "a"], (b"", &[1]), PLENTY, told)?;
    Ok(())
}

/// A source that fails, a sink that fails for the line, and one that fails for the line of a refusal.
#[test]
fn faults_of_the_outside_are_told(rt: HostRuntime) -> Result<(), Fail> {
    let alloc = rt.alloc();
    let grid = GRID.as_bytes();
    let unreadable = (4, "dakota: study not readable\n");
    assert_checked(&rt, alloc, WORDS, (grid, &[1]), PLENTY, unreadable)?;
    assert_checked(&rt, alloc, WORDS, (grid, &[]), 10, (9, "study acce"))?;
    let repeated = REPEATED.as_bytes();
    assert_checked(&rt, alloc, WORDS, (repeated, &[]), 10, (3, "dakota: st"))?;
    Ok(())
}
