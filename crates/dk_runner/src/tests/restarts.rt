// The restart file of a run, and runs that go on with one.
use super::benches::{NO_SIMULATION, benches_of};
use super::files::{FILE, GATES, ONE_RECORD};
use super::long_disk::LongDisk;
use super::studies::{LISTED, LISTED_TWICE};
use super::texts::{METHOD, edited, words_of};
use super::{
    FOUND, FRESH, Left, PLENTY, RESUMED, TABLE, assert_refused, assert_told, run, run_anew,
};
use crate::dakota;
use dk_book::Book;
use dk_memory::{MemDisk, MemSink, MemSource};
use dk_num::Dec;
use dk_types::Outcome;
use std::alloc::{AllocError, Global};
use std::process::Abort;
use std::test::Fail;

/// A run of the base study over an empty disk leaves this file, byte for byte.
#[test]
fn each_attempt_is_in_the_file(rt: HostRuntime) -> Result<(), Fail> {
    let left = run_anew(rt.alloc(), &[])?;
    assert_told(&rt, &left, 0, TABLE, FOUND);
    let file = left.file()?;
    assert_eq!(rt; file.as_slice(), FILE.as_slice());
    for (place, gate) in GATES {
        assert_eq!(rt; file.get(place), Some(&gate), "at {place}");
    }
    Ok(())
}

/// A point that stands in two rows is attempted once.
#[test]
fn a_repeated_point_has_one_record(rt: HostRuntime) -> Result<(), Fail> {
    let list = "list_parameter_study list_of_points = 0.10 0 1e-1 0";
    let left = run_anew(rt.alloc(), &[(METHOD, list)])?;
    assert_told(&rt, &left, 0, LISTED, LISTED_TWICE);
    assert_eq!(rt; left.file()?.as_slice(), ONE_RECORD.as_slice());
    Ok(())
}

/// A run over a file of these bytes, on a disk that fails behind so many calls: one syncs what stands there, one asks for
/// its length, and one reads it.
fn run_over(alloc: Global, words: &[&str], bytes: &[u8], calls: u64) -> Result<Left, AllocError> {
    let stop = Some(calls.saturating_add(1));
    run(alloc, words, &[], MemDisk::disk(alloc, bytes, &[], stop)?)
}

/// A file that tells all attempts gives the table and the summary by itself, and is only read.
#[test]
fn a_whole_file_is_told_again(rt: HostRuntime) -> Result<(), Fail> {
    let left = run_over(rt.alloc(), RESUMED, &FILE, 3)?;
    assert_told(&rt, &left, 0, TABLE, FOUND);
    assert_eq!(rt; left.disk.moments(), 1);
    assert_eq!(rt; left.file()?.as_slice(), FILE.as_slice());
    Ok(())
}

/// The worked file, with this byte at this place.
fn changed(place: usize, byte: u8) -> [u8; 207] {
    let mut bytes = FILE;
    if let Some(there) = bytes.get_mut(place) {
        *there = byte;
    }
    bytes
}

/// The restart file isn't opened, for this refusal, and is only read.
fn assert_not_opened(
    rt: &impl Abort,
    alloc: Global,
    words: &[&str],
    bytes: &[u8],
    calls: u64,
    refusal: &str,
) -> Result<(), AllocError> {
    let left = run_over(alloc, words, bytes, calls)?;
    let line = format!(in alloc; "dakota: restart refused: {refusal}\n")?;
    assert_refused(rt, &left, 5, line.as_str());
    assert!(rt; left.book.is_none());
    assert_eq!(rt; left.disk.moments(), 1);
    assert_eq!(rt; left.file()?.as_slice(), bytes, "{refusal}");
    Ok(())
}

/// A file that the study can't go on with is refused by the first test that fails.
#[test]
fn other_files_are_refused(rt: HostRuntime) -> Result<(), Fail> {
    let mut repeated = FILE;
    repeated.copy_within(26..86, 86);
    let cases: [(&[u8], &str); 6] = [
        (b"hello", "NotARestart"),
        (&changed(12, b'y'), "OtherShape"),
        (&changed(67, 9), "Damaged (offset 26)"),
        (&FILE[..100], "Damaged (offset 86)"),
        (&FILE[..86], "Damaged (offset 86)"),
        (&repeated, "Damaged (offset 86)"),
    ];
    for (bytes, refusal) in cases {
        assert_not_opened(&rt, rt.alloc(), RESUMED, bytes, 3, refusal)?;
    }
    Ok(())
}

/// A new run takes no file that has bytes, whether it is to be the default one or one that is named.
#[test]
fn a_new_run_takes_an_empty_file(rt: HostRuntime) -> Result<(), Fail> {
    let named: &[&str] = &["-i", "s1.in", "-w", "s1.rst"];
    let cases: [(&[&str], &[u8], &str); 3] = [
        (FRESH, &FILE, "NotEmpty (length 207)"),
        (FRESH, b"\0", "NotEmpty (length 1)"),
        (named, b"hello", "NotEmpty (length 5)"),
    ];
    for (words, bytes, refusal) in cases {
        assert_not_opened(&rt, rt.alloc(), words, bytes, 2, refusal)?;
    }
    Ok(())
}

/// A file that is longer than one may be isn't read.
#[test]
fn a_file_that_is_too_long_is_refused(rt: HostRuntime) -> Result<(), Fail> {
    let alloc = rt.alloc();
    let words = words_of(alloc, RESUMED)?;
    let mut source = MemSource::source(alloc, &edited(alloc, &[])?, &[])?;
    let mut table = MemSink::sink(alloc, PLENTY, &[])?;
    let mut out = MemSink::sink(alloc, PLENTY, &[])?;
    let ended = dakota(
        alloc,
        &words,
        &mut source,
        LongDisk::of(268_435_457),
        &mut table,
        &mut out,
        benches_of(alloc, NO_SIMULATION, &[])?,
    );
    let line = "dakota: restart refused: TooLarge (length 268435457)\n";
    assert_eq!(rt; ended.status.code(), 5);
    assert_eq!(rt; out.taken(), line.as_bytes());
    assert_eq!(rt; table.begun(), None);
    assert_eq!(rt; ended.restart.faults(), 0);
    Ok(())
}

/// What an attempt of a point gave, by the point's card; none where there is no card.
fn said_of<'a>(book: &'a Book, point: &[Dec], attempt: u32) -> Option<Outcome<'a>> {
    match book.find(point) {
        Some(card) if (card.index as usize) < book.count() => book.said(card, attempt),
        _ => None,
    }
}

/// The book has a card for each point, with the values of its one attempt.
fn assert_cards(rt: &impl Abort, book: &Book) -> Result<(), Fail> {
    assert_eq!(rt; book.count(), 3);
    let cases: [(&[u8], &[u8]); 3] = [(b"0", b"1"), (b".5", b"6.5"), (b"1", b"0")];
    for (coordinate, value) in cases {
        let coordinate = Dec::read(coordinate)?;
        match said_of(book, &[coordinate, coordinate], 1) {
            Some(Outcome::Values(values)) => {
                assert_eq!(rt; values, [Dec::read(value)?].as_slice());
            }
            _ => assert!(rt; false),
        }
        assert!(rt; said_of(book, &[coordinate, coordinate], 2).is_none());
    }
    Ok(())
}

/// Whether attempts were made or read, the book that is handed back tells of them.
#[test]
fn the_book_tells_of_each_attempt(rt: HostRuntime) -> Result<(), Fail> {
    let alloc = rt.alloc();
    for left in [run_anew(alloc, &[])?, run_over(alloc, RESUMED, &FILE, 3)?] {
        match &left.book {
            Some(book) => assert_cards(&rt, book)?,
            None => assert!(rt; false),
        }
    }
    Ok(())
}
