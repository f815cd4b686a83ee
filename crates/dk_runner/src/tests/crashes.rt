// Runs whose disk fails or stops, and runs over what a crash may leave then.
use super::files::{FILE, GATES};
use super::searches::{ABOUT, HALVED, HALVED_ONCE, TO_HALF};
use super::{FOUND, FRESH, Left, RESUMED, TABLE, assert_refused, assert_told, run};
use dk_memory::{Image, MemDisk};
use std::alloc::{AllocError, Global};
use std::process::Abort;
use std::test::Fail;

const FAILED: &str = "dakota: restart file failed\n";

/// What a crash may leave, of each kind.
const IMAGES: [Image; 5] = [
    Image::Old,
    Image::New,
    Image::Fill(0),
    Image::Fill(7),
    Image::Fill(255),
];

/// A run over a new file on a disk whose calls of these numbers fail, and all from `stop` on.
fn run_on(
    alloc: Global,
    edits: &[(&str, &str)],
    fail: &[u64],
    stop: Option<u64>,
) -> Result<Left, AllocError> {
    run(alloc, FRESH, edits, MemDisk::disk(alloc, b"", fail, stop)?)
}

/// A run that goes on with what a crash left.
fn go_on(alloc: Global, edits: &[(&str, &str)], left: &[u8]) -> Result<Left, AllocError> {
    run(
        alloc,
        RESUMED,
        edits,
        MemDisk::disk(alloc, left, &[], None)?,
    )
}

const FOUR_ROWS: &str = "%eval_id interface x1 x2 obj_fn
1 NO_ID 0 0 1
2 NO_ID 0.5 0.5 6.5
3 NO_ID 1 1 0
4 NO_ID 1.5 1.5 56.5
";

const FOUR_TOLD: &str = "<<<<< Study finished: complete
<<<<< Function evaluation summary: 4 total (4 new, 0 duplicate)
<<<<< Best evaluation: 3
<<<<< Best parameters: x1 = 1, x2 = 1
<<<<< Best objective function: obj_fn = 0
";

/// The disk fails at the first write of the third record. Two calls look at the file, six begin it, and each record takes
/// four: a write and its sync behind the gate, and those of the gate.
#[test]
fn a_run_goes_on_behind_a_failed_write(rt: HostRuntime) -> Result<(), Fail> {
    let alloc = rt.alloc();
    let edits = [("num_steps = 2", "num_steps = 3")];
    let left = run_on(alloc, &edits, &[17], None)?;
    assert_refused(&rt, &left, 6, FAILED);
    assert_eq!(rt; left.book.as_ref().map(|book| book.count()), Some(3));
    let image = left.disk.image(left.disk.moments(), Image::Old)?;
    let mut two_records = Vec::from_slice(alloc, &FILE[..146])?;
    two_records.push(0)?;
    assert_eq!(rt; image.as_slice(), two_records.as_slice());
    let left = go_on(alloc, &edits, &image)?;
    assert_told(&rt, &left, 0, FOUR_ROWS, FOUR_TOLD);
    assert_eq!(rt; left.file()?.len(), 267);
    Ok(())
}

/// The disk fails at the first write of the fourth record, in the middle of a search's first four polls. The search that goes
/// on ends as one that wasn't stopped.
#[test]
fn a_search_goes_on_behind_a_failed_write(rt: HostRuntime) -> Result<(), Fail> {
    let alloc = rt.alloc();
    let edits = [TO_HALF, ABOUT];
    let left = run_on(alloc, &edits, &[21], None)?;
    assert_refused(&rt, &left, 6, FAILED);
    let image = left.disk.image(left.disk.moments(), Image::Old)?;
    let left = go_on(alloc, &edits, &image)?;
    assert_told(&rt, &left, 0, HALVED, HALVED_ONCE);
    assert_eq!(rt; left.file()?.len(), 567);
    Ok(())
}

/// The file is that of the base study, but that each open gate may be of any byte but 0.
fn assert_file(rt: &impl Abort, mut file: Vec<u8>, told: &str) {
    for (place, gate) in GATES {
        if let Some(there) = file.get_mut(place) {
            if *there != 0 {
                *there = gate;
            }
        }
    }
    assert_eq!(rt; file.as_slice(), FILE.as_slice(), "{told}");
}

/// Wherever the disk of the base study stops, a run over each image of each moment ends as the one that isn't stopped.
#[test]
fn a_run_that_stops_is_gone_on_with(rt: HostRuntime) -> Result<(), Fail> {
    let alloc = rt.alloc();
    for stop in 1..21 {
        let stopped = run_on(alloc, &[], &[], Some(stop))?;
        assert_refused(&rt, &stopped, 6, FAILED);
        for moment in 0..=stopped.disk.moments() {
            for image in IMAGES {
                let bytes = stopped.disk.image(moment, image)?;
                let left = go_on(alloc, &[], &bytes)?;
                assert_told(&rt, &left, 0, TABLE, FOUND);
                let told = format!(in alloc; "{image:?} at {moment}, stopped at {stop}")?;
                assert_file(&rt, left.file()?, told.as_str());
            }
        }
    }
    let whole = run_on(alloc, &[], &[], Some(21))?;
    assert_told(&rt, &whole, 0, TABLE, FOUND);
    Ok(())
}
