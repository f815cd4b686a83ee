// Commands with their exit status, what they print and the table that they leave.
use super::outputs::{Closed, Page};
use crate::carry_out::{HELP, VERSION, carry_out};
use dk_real::OutSink;
use std::alloc::{AllocError, Global};
use std::fs;
use std::fs::File;
use std::process::{Abort, Processes};
use std::rt::{Files, Stderr};
use std::test::Fail;

const STUDY: &str = "s.in";

const TABLE: &str = "t.dat";

/// What stands in the table's file before each command.
const OLDER: &str = "older\n";

const FINISHED: &str = "<<<<< Study finished: complete
<<<<< Function evaluation summary: 2 total (2 new, 0 duplicate)
<<<<< Best evaluation: 2
<<<<< Best parameters: x1 = 1, x2 = 1
<<<<< Best objective function: obj_fn = 0
";

const ROWS: &str = "%eval_id interface x1 x2 obj_fn
1 NO_ID 0 0 1
2 NO_ID 1 1 0
";

const ABORTED: &str = "<<<<< Study aborted: evaluation 2 failed, attempts 1
<<<<< Function evaluation summary: 1 total (1 new, 0 duplicate)
<<<<< Best evaluation: 1
<<<<< Best parameters: x1 = 0, x2 = 0
<<<<< Best objective function: obj_fn = 1
";

const FIRST_ROW: &str = "%eval_id interface x1 x2 obj_fn
1 NO_ID 0 0 1
";

const ACCEPTED: &str = "study accepted: variables 2, responses 1, evaluations at most 2\n";

const UNREADABLE: &str = "dakota: study not readable\n";

const UNWRITTEN: &str = "dakota: table not written\n";

const UNOPENED: &str = "dakota: restart file failed\n";

const UNSTARTED: &str = "dakota: bench 0 failed at run\n";

const NO_RESTART: &str = "dakota: restart refused: NotARestart\n";

/// The restart file of a run, and the one that words name.
const RESTART: &str = "dakota.rst";

const NAMED: &str = "x.rst";

/// How many bytes the restart file of two evaluations has.
const TWO_RECORDS: usize = 147;

/// The step and the words of the interface of studies.
const PLAIN: (&str, &str) = ("1 1", "'rosenbrock' direct");

const UNEVEN: (&str, &str) = ("0.3333333333 1", "'rosenbrock' direct");

const FORKED: (&str, &str) = ("1 1", "'rosenbrock' fork");

/// A child that leaves 1 for the point whose parameters file has no 1, and else 0.
const SCRIPTED: (&str, &str) = ("1 1", "'sh child.sh' fork");

/// The same behind a first call that fails.
const FLAKY: (&str, &str) = ("1 1", "'sh flaky.sh' fork failure_capture retry = 1");

const FLAKY_SCRIPT: &str = "if [ -f $2.count ]; then exec sh child.sh $1 $2; fi
echo x > $2.count
echo FAIL > $2
";

const SCRIPT: &str = "if grep -q '1.000000000000000e+00 x1' $1; then echo 0; else echo 1; fi >$2";

const WRONG: (&str, &str) = ("1 1", "'rosenbrock' direct grid");

/// A study with a table of this name.
fn study_text(alloc: Global, table: &str, study: (&str, &str)) -> Result<String, AllocError> {
    let (step, interface) = study;
    format!(in alloc;
        "environment tabular_data tabular_data_file = '{table}'
        method vector_parameter_study num_steps = 1 step_vector = {step}
        variables continuous_design = 2 descriptors = 'x1' 'x2'
        interface analysis_drivers = {interface}
        responses objective_functions = 1"
    )
}

fn texts(alloc: Global, words: &[&str]) -> Result<Vec<String>, AllocError> {
    let mut texts = Vec::new(alloc);
    for word in words {
        texts.push(String::from_str(alloc, word)?)?;
    }
    Ok(texts)
}

/// Takes away what an earlier run in this folder may have left.
fn begin_anew<R: Files>(rt: &R) {
    for name in [RESTART, NAMED, "hard.in", "soft.in", "results.out.count"] {
        let _ = fs::remove_file(rt, name);
    }
}

/// The words, the study in the file and its table's name, and then the exit status, what is printed, and what the
/// table's file has.
type Case = (
    &'static [&'static str],
    (&'static str, &'static str),
    &'static str,
    u8,
    &'static str,
    &'static str,
);

const CASES: [Case; 21] = [
    (&["-i", STUDY], PLAIN, TABLE, 0, FINISHED, ROWS),
    (&["-input", "./s.in"], PLAIN, TABLE, 0, FINISHED, ROWS),
    (&["-i", STUDY], UNEVEN, TABLE, 1, ABORTED, FIRST_ROW),
    (&["-check", "-i", STUDY], PLAIN, TABLE, 0, ACCEPTED, OLDER),
    (&["-i", STUDY, "-check"], FORKED, TABLE, 0, ACCEPTED, OLDER),
    (&["--help"], PLAIN, TABLE, 0, HELP, OLDER),
    (&["--version"], PLAIN, TABLE, 0, VERSION, OLDER),
    (&[], PLAIN, TABLE, 2, "dakota: usage: word 1\n", OLDER),
    (&["-i"], PLAIN, TABLE, 2, "dakota: usage: word 2\n", OLDER),
    (
        &["--help", "--version"],
        PLAIN,
        TABLE,
        2,
        "dakota: usage: word 1\n",
        OLDER,
    ),
    (
        &["-i", STUDY, "-o", "out"],
        PLAIN,
        TABLE,
        2,
        "dakota: usage: word 3\n",
        OLDER,
    ),
    (&["-i", STUDY, "-w", NAMED], PLAIN, TABLE, 0, FINISHED, ROWS),
    (&["-i", STUDY, "-r", NAMED], PLAIN, TABLE, 0, FINISHED, ROWS),
    (
        &["-r", "none.rst", "-i", STUDY],
        PLAIN,
        TABLE,
        6,
        UNOPENED,
        OLDER,
    ),
    (
        &["-i", STUDY, "-r", TABLE],
        PLAIN,
        TABLE,
        5,
        NO_RESTART,
        OLDER,
    ),
    (
        &["-i", STUDY, "-w", STUDY],
        PLAIN,
        TABLE,
        6,
        UNOPENED,
        OLDER,
    ),
    (
        &["-i", STUDY],
        WRONG,
        TABLE,
        3,
        "dakota: study refused: Unsupported at bytes 244..248\n",
        OLDER,
    ),
    (
        &["-check", "-i", STUDY],
        WRONG,
        TABLE,
        3,
        "dakota: study refused: Unsupported at bytes 244..248\n",
        OLDER,
    ),
    (&["-i", "none.in"], PLAIN, TABLE, 4, UNREADABLE, OLDER),
    (
        &["-check", "-i", "none/s.in"],
        PLAIN,
        TABLE,
        4,
        UNREADABLE,
        OLDER,
    ),
    (&["-i", STUDY], PLAIN, "none/t.dat", 9, UNWRITTEN, OLDER),
];

/// Studies over simulations.
const OVER_SIMULATIONS: [Case; 3] = [
    (&["-i", STUDY], FORKED, TABLE, 8, UNSTARTED, OLDER),
    (&["-i", STUDY], SCRIPTED, TABLE, 0, FINISHED, ROWS),
    (&["-i", STUDY], FLAKY, TABLE, 0, FINISHED, ROWS),
];

/// A command ends and prints as it should, and leaves its table so.
fn assert_command<R: Files<File = File> + Processes + AllocGlobal + Abort>(
    rt: &R,
    prints: Stderr,
    words: &[&str],
    left: &str,
    status: u8,
    told: &str,
) -> Result<(), Fail> {
    let alloc = rt.alloc();
    let _ = fs::remove_file(rt, RESTART);
    fs::write(rt, TABLE, OLDER)?;
    let mut page = Page::new(alloc);
    let ended = carry_out(rt, &texts(alloc, words)?, prints, &mut page);
    assert_eq!(rt; page.text(), told.as_bytes());
    assert_eq!(rt; ended.code(), status, "at {told}");
    let file = fs::read(rt, TABLE)?;
    assert_eq!(rt; file.as_slice(), left.as_bytes());
    Ok(())
}

#[test]
fn commands_end_and_print_as_they_should(rt: HostRuntime) -> Result<(), Fail> {
    begin_anew(&rt);
    for (words, study, table, status, told, left) in CASES {
        fs::write(&rt, STUDY, study_text(rt.alloc(), table, study)?)?;
        assert_command(&rt, rt.stderr(), words, left, status, told)?;
    }
    let file = fs::read(&rt, NAMED)?;
    assert_eq!(rt; file.len(), TWO_RECORDS);
    Ok(())
}

#[test]
fn simulations_are_run(rt: HostRuntime) -> Result<(), Fail> {
    begin_anew(&rt);
    fs::write(&rt, "child.sh", SCRIPT)?;
    fs::write(&rt, "flaky.sh", FLAKY_SCRIPT)?;
    for (words, study, table, status, told, left) in OVER_SIMULATIONS {
        fs::write(&rt, STUDY, study_text(rt.alloc(), table, study)?)?;
        assert_command(&rt, rt.stderr(), words, left, status, told)?;
    }
    Ok(())
}

const SEARCH: &str = "environment tabular_data tabular_data_file = 't.dat'
method compass_search initial_delta = 1 threshold_delta = 0.5
variables continuous_design = 2 lower_bounds = 0 0 upper_bounds = 2 2 descriptors = 'x1' 'x2'
interface analysis_drivers = 'rosenbrock' direct
responses objective_functions = 1
";

const SEARCHED: &str = "<<<<< Study finished: threshold_delta
<<<<< Function evaluation summary: 5 total (5 new, 0 duplicate)
<<<<< Best evaluation: 1
<<<<< Best parameters: x1 = 0, x2 = 0
<<<<< Best objective function: obj_fn = 1
";

const POLLED: &str = "%eval_id interface x1 x2 obj_fn
1 NO_ID 0 0 1
2 NO_ID 1 0 100
3 NO_ID 0 1 101
4 NO_ID 0.5 0 6.5
5 NO_ID 0 0.5 26
";

#[test]
fn a_search_is_run(rt: HostRuntime) -> Result<(), Fail> {
    begin_anew(&rt);
    fs::write(&rt, STUDY, SEARCH)?;
    assert_command(&rt, rt.stderr(), &["-i", STUDY], POLLED, 0, SEARCHED)
}

#[test]
fn a_closed_standard_output_is_told_by_the_status(rt: HostRuntime) -> Result<(), Fail> {
    let alloc = rt.alloc();
    let cases: [(&[&str], u8, &str); 6] = [
        (&["--help"], 9, OLDER),
        (&["--version"], 9, OLDER),
        (&["-check", "-i", STUDY], 9, OLDER),
        (&["-i", STUDY], 9, ROWS),
        (&["-i"], 2, OLDER),
        (&["-i", "none.in"], 4, OLDER),
    ];
    for (words, status, left) in cases {
        begin_anew(&rt);
        fs::write(&rt, STUDY, study_text(alloc, TABLE, PLAIN)?)?;
        fs::write(&rt, TABLE, OLDER)?;
        let ended = carry_out(
            &rt,
            &texts(alloc, words)?,
            rt.stderr(),
            &mut OutSink::new(&Closed),
        );
        assert_eq!(rt; ended.code(), status);
        let file = fs::read(&rt, TABLE)?;
        assert_eq!(rt; file.as_slice(), left.as_bytes());
    }
    Ok(())
}

#[test]
fn a_table_cannot_take_the_studys_place(rt: HostRuntime) -> Result<(), Fail> {
    let alloc = rt.alloc();
    begin_anew(&rt);
    fs::write(&rt, STUDY, "")?;
    fs::hard_link(&rt, STUDY, "hard.in")?;
    rt.symlink(STUDY, "soft.in")?;
    for name in [STUDY, "./s.in", "hard.in", "soft.in"] {
        let text = study_text(alloc, name, PLAIN)?;
        fs::write(&rt, STUDY, text.as_str())?;
        for path in [STUDY, "./s.in", "soft.in"] {
            let _ = fs::remove_file(&rt, RESTART);
            let mut page = Page::new(alloc);
            let ended = carry_out(&rt, &texts(alloc, &["-i", path])?, rt.stderr(), &mut page);
            assert_eq!(rt; ended.code(), 9);
            assert_eq!(rt; page.text(), UNWRITTEN.as_bytes());
            let file = fs::read(&rt, STUDY)?;
            assert_eq!(rt; file.as_slice(), text.as_bytes());
        }
    }
    Ok(())
}
