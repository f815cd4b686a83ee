//! Whole runs over a source, a restart file, sinks and benches in memory.
ghost use Rattle.std.specs.Prelude.{◌≤◌, length};
ghost use Rattle.std.specs.List.{All};
ghost use Rattle.dk_runner.specs.Outsides.{AllGoTogether};

mod benches;
mod checks;
mod children;
mod crashes;
mod files;
mod long_disk;
mod recovery;
mod refusals;
mod restarts;
mod searches;
mod sizes;
mod studies;
mod texts;

use crate::{
    BenchFault, BenchStep, Ended, OpenFault, Span, Status, StudyFault, StudyKind, Which, dakota,
    usage, write_line,
};
use benches::{NO_SIMULATION, Simulation, benches_of};
use dk_book::Book;
use dk_memory::{Image, MemBench, MemDisk, MemSink, MemSource};
use dk_outside::Bench;
use std::alloc::{AllocError, Global};
use std::process::Abort;
use std::test::Fail;
use texts::{edited, words_of};

const FOUND: &str = "<<<<< Study finished: complete
<<<<< Function evaluation summary: 3 total (3 new, 0 duplicate)
<<<<< Best evaluation: 3
<<<<< Best parameters: x1 = 1, x2 = 1
<<<<< Best objective function: obj_fn = 0
";

const TABLE: &str = "%eval_id interface x1 x2 obj_fn
1 NO_ID 0 0 1
2 NO_ID 0.5 0.5 6.5
3 NO_ID 1 1 0
";

const ONE_ROW: &str = "%eval_id interface x1 x2 obj_fn
1 NO_ID 0 0 1
";

const ONE_POINT: &str = "<<<<< Study finished: complete
<<<<< Function evaluation summary: 1 total (1 new, 0 duplicate)
<<<<< Best evaluation: 1
<<<<< Best parameters: x1 = 0, x2 = 0
<<<<< Best objective function: obj_fn = 1
";

const ABORTED: &str = "<<<<< Study aborted: evaluation 2 failed, attempts 1
<<<<< Function evaluation summary: 1 total (1 new, 0 duplicate)
<<<<< Best evaluation: 1
<<<<< Best parameters: x1 = 0, x2 = 0
<<<<< Best objective function: obj_fn = 1
";

const SAME_ROWS: &str = "%eval_id interface x1 x2 obj_fn
1 NO_ID 1 1 0
2 NO_ID 1 1 0
3 NO_ID 1 1 0
";

const STANDS_STILL: &str = "<<<<< Study finished: complete
<<<<< Function evaluation summary: 3 total (1 new, 2 duplicate)
<<<<< Best evaluation: 1
<<<<< Best parameters: x1 = 1, x2 = 1
<<<<< Best objective function: obj_fn = 0
";

const OTHER_LABELS: &str = "<<<<< Study finished: complete
<<<<< Function evaluation summary: 3 total (3 new, 0 duplicate)
<<<<< Best evaluation: 3
<<<<< Best parameters: length = 1, width = 1
<<<<< Best objective function: cost = 0
";

const OTHER_HEADER: &str = "%eval_id interface length width cost
1 NO_ID 0 0 1
2 NO_ID 0.5 0.5 6.5
3 NO_ID 1 1 0
";

const NO_BEST: &str = "<<<<< Study finished: complete
<<<<< Function evaluation summary: 3 total (3 new, 0 duplicate)
";

/// The words of a run over a new restart file, and of one that goes on with a file.
const FRESH: &[&str] = &["-i", "s1.in"];

const RESUMED: &[&str] = &["-i", "s1.in", "-r", "s1.rst"];

/// Room for each table and each summary.
const PLENTY: usize = 100_000_000;

/// What a run left: its status, the book, the restart file's disk, the table, standard output, how often a simulation ran on
/// the first bench, and whether none ran on another of the 64.
#[derive(Drop)]
struct Left {
    status: Status,
    book: Option<Book>,
    disk: MemDisk,
    table: MemSink,
    out: MemSink,
    runs: usize,
    others_rest: bool,
}

impl Left {
    /// The bytes of the restart file, as reads give them.
    fn file(&self) -> Result<Vec<u8>, AllocError> {
        self.disk.image(self.disk.moments(), Image::New)
    }
}

/// A run over a source and a disk, with so much room for the table and on standard output.
fn run_within(
    alloc: Global,
    words: &[&str],
    source: MemSource,
    disk: MemDisk,
    table_room: usize,
    out_room: usize,
) -> Result<Left, AllocError> {
    let benches = benches_of(alloc, NO_SIMULATION, &[])?;
    run_on(alloc, words, source, disk, (table_room, out_room), benches)
}

/// A run over a source, a disk and benches, with so much room for the table and on standard output.
fn run_on(
    alloc: Global,
    words: &[&str],
    mut source: MemSource,
    disk: MemDisk,
    rooms: (usize, usize),
    benches: Vec<MemBench<Simulation>>,
) -> Result<Left, AllocError>
    requires count { 64 ≤ length benches.items }
    requires together { All (λ bench. AllGoTogether (⟦<MemBench<Simulation> as Bench>⟧.together bench)) benches.items }
{
    let words = words_of(alloc, words)?;
    let (table_room, out_room) = rooms;
    let mut table = MemSink::sink(alloc, table_room, &[])?;
    let mut out = MemSink::sink(alloc, out_room, &[])?;
    let Ended {
        status,
        book,
        restart,
        benches,
    } = dakota(
        alloc,
        &words,
        &mut source,
        disk,
        &mut table,
        &mut out,
        benches,
    );
    Ok(Left {
        status,
        book,
        disk: restart,
        table,
        out,
        runs: benches.first().map_or(0, |bench| bench.runs().len()),
        others_rest: benches.len() == 64
            && benches[1..].iter().all(|bench| bench.runs().is_empty()),
    })
}

/// A run of the base study with these edits over a disk.
fn run(
    alloc: Global,
    words: &[&str],
    edits: &[(&str, &str)],
    disk: MemDisk,
) -> Result<Left, AllocError> {
    let source = MemSource::source(alloc, &edited(alloc, edits)?, &[])?;
    run_within(alloc, words, source, disk, PLENTY, PLENTY)
}

/// A run of it over an empty disk.
fn run_anew(alloc: Global, edits: &[(&str, &str)]) -> Result<Left, AllocError> {
    run(alloc, FRESH, edits, MemDisk::disk(alloc, b"", &[], None)?)
}

/// A run of a text, from a source whose calls of these numbers fail, over an empty disk.
fn run_text(alloc: Global, words: &[&str], text: &[u8], fail: &[u64]) -> Result<Left, AllocError> {
    let source = MemSource::source(alloc, text, fail)?;
    let disk = MemDisk::disk(alloc, b"", &[], None)?;
    run_within(alloc, words, source, disk, PLENTY, PLENTY)
}

/// The run ended with this exit status, this table and this text on standard output.
fn assert_told(rt: &impl Abort, left: &Left, code: u8, table: &str, out: &str) {
    assert_eq!(rt; left.status.code(), code, "{out}");
    assert_eq!(rt; left.table.taken(), table.as_bytes(), "{out}");
    assert_eq!(rt; left.out.taken(), out.as_bytes(), "{out}");
}

/// The run ended with this exit status and this line, and its table wasn't begun.
fn assert_refused(rt: &impl Abort, left: &Left, code: u8, line: &str) {
    assert_told(rt, left, code, "", line);
    assert_eq!(rt; left.table.begun(), None, "{line}");
}

/// A study with these numbers finds its minimum at the third of three points.
#[test]
fn a_study_is_evaluated_and_told(rt: HostRuntime) -> Result<(), Fail> {
    let left = run_anew(rt.alloc(), &[])?;
    assert_told(&rt, &left, 0, TABLE, FOUND);
    assert_eq!(rt; left.table.begun(), Some("t.dat"));
    assert_eq!(rt; left.out.begun(), None);
    Ok(())
}

/// The rows and the summary of other numbers: one point, a point without a value, and a study that stands still.
#[test]
fn other_numbers_give_other_rows(rt: HostRuntime) -> Result<(), Fail> {
    let cases: [(&[(&str, &str)], u8, &str, &str); 3] = [
        (&[("num_steps = 2", "num_steps = 0")], 0, ONE_ROW, ONE_POINT),
        (
            &[
                ("num_steps = 2", "num_steps = 1"),
                ("0.5 0.5", "0.3333333333333333333333333333 0"),
            ],
            1,
            ONE_ROW,
            ABORTED,
        ),
        (
            &[
                ("num_steps = 2", "num_steps = 00002"),
                ("0.5 0.5", "0 0e7"),
                ("initial_point = 0 0", "initial_point = +1. 1e0"),
            ],
            0,
            SAME_ROWS,
            STANDS_STILL,
        ),
    ];
    for (edits, code, rows, told) in cases {
        assert_told(&rt, &run_anew(rt.alloc(), edits)?, code, rows, told);
    }
    Ok(())
}

/// Labels, the table's name and the response are the text's. Without an objective function there is no best row.
#[test]
fn other_parts_of_a_study_are_the_texts(rt: HostRuntime) -> Result<(), Fail> {
    let edits = [
        ("'t.dat'", "'rows.txt'"),
        ("'x1' 'x2'", "'length' 'width'"),
        (
            "objective_functions = 1",
            "objective_functions = 1 descriptors = 'cost'",
        ),
    ];
    let left = run_anew(rt.alloc(), &edits)?;
    assert_told(&rt, &left, 0, OTHER_HEADER, OTHER_LABELS);
    assert_eq!(rt; left.table.begun(), Some("rows.txt"));
    let left = run_anew(rt.alloc(), &[("objective_functions", "response_functions")])?;
    assert_eq!(rt; left.out.taken(), NO_BEST.as_bytes());
    Ok(())
}

/// The sink of a table that isn't asked for isn't called: it has no room.
#[test]
fn a_table_is_written_where_it_is_asked_for(rt: HostRuntime) -> Result<(), Fail> {
    let alloc = rt.alloc();
    let no_table = ("  tabular_data\n    tabular_data_file = 't.dat'\n", "");
    let source = MemSource::source(alloc, &edited(alloc, &[no_table])?, &[])?;
    let disk = MemDisk::disk(alloc, b"", &[], None)?;
    let left = run_within(alloc, FRESH, source, disk, 0, PLENTY)?;
    assert_told(&rt, &left, 0, "", FOUND);
    assert_eq!(rt; left.table.begun(), None);
    Ok(())
}

/// A source that fails, a table for which there is no room, and a standard output without room for the summary.
#[test]
fn faults_of_the_outside_are_told(rt: HostRuntime) -> Result<(), Fail> {
    let alloc = rt.alloc();
    let cases: [(&[u64], usize, usize, u8, &str, &str); 3] = [
        (&[1], PLENTY, PLENTY, 4, "", "dakota: study not readable\n"),
        (
            &[],
            10,
            PLENTY,
            9,
            "%eval_id i",
            "dakota: table not written\n",
        ),
        (&[], PLENTY, 10, 9, TABLE, "<<<<< Stud"),
    ];
    for (fail, table_room, out_room, code, table, told) in cases {
        let source = MemSource::source(alloc, &edited(alloc, &[])?, fail)?;
        let disk = MemDisk::disk(alloc, b"", &[], None)?;
        let left = run_within(alloc, FRESH, source, disk, table_room, out_room)?;
        assert_told(&rt, &left, code, table, told);
    }
    Ok(())
}

/// A status has this exit status and this line.
fn assert_status(
    rt: &impl Abort,
    alloc: Global,
    status: Status,
    code: u8,
    line: &str,
) -> Result<(), AllocError> {
    let mut out = MemSink::sink(alloc, PLENTY, &[])?;
    write_line(&status, &mut out);
    assert_eq!(rt; status.code(), code);
    assert_eq!(rt; out.taken(), line.as_bytes());
    Ok(())
}

/// Each status has its exit status and its line.
#[test]
fn statuses_have_their_codes_and_lines(rt: HostRuntime) -> Result<(), Fail> {
    let off_grid = StudyFault {
        kind: StudyKind::OffGrid,
        span: Span { from: 7, to: 9 },
    };
    let refused = "dakota: study refused: OffGrid at bytes 7..9\n";
    let length = 268_435_457;
    let long = OpenFault::TooLarge { length };
    let too_long = "dakota: restart refused: TooLarge (length 268435457)\n";
    let full = "dakota: restart file full (length 268435457)\n";
    let failed = "dakota: restart file failed\n";
    let unwritten = "dakota: table not written\n";
    let slot = 63;
    let step = BenchStep::ClearAfter;
    let bench = BenchFault { slot, step };
    let unclear = "dakota: bench 63 failed at clear after\n";
    for (status, code, line) in [
        (Status::Finished, 0, ""),
        (Status::Aborted, 1, ""),
        (Status::Usage { at: 1 }, 2, "dakota: usage: word 1\n"),
        (Status::StudyRefused(off_grid), 3, refused),
        (Status::SourceFault, 4, "dakota: study not readable\n"),
        (Status::RestartRefused(long), 5, too_long),
        (Status::DiskFault, 6, failed),
        (Status::RestartFull { length }, 7, full),
        (Status::BenchFault(bench), 8, unclear),
        (Status::SinkFault(Which::Table), 9, unwritten),
        (Status::SinkFault(Which::Out), 9, ""),
        (Status::NoMemory, 10, "dakota: out of memory\n"),
    ] {
        assert_status(&rt, rt.alloc(), status, code, line)?;
    }
    Ok(())
}

#[test]
fn usage_is_told(rt: HostRuntime) -> Result<(), Fail> {
    let mut out = MemSink::sink(rt.alloc(), PLENTY, &[])?;
    assert_eq!(rt; usage(7, &mut out).code(), 2);
    assert_eq!(rt; out.taken(), "dakota: usage: word 7\n".as_bytes());
    Ok(())
}
