//! Restart files, byte for byte.
use crate::reading::{Reading, read_file};
use dk_num::Dec;
use dk_record::read_header;
use std::alloc::{AllocError, Global};
use std::test::Fail;

// two variables, x1 and x2, and the response obj_fn: (0, 0) gave 1, (0.5, 0.5) gave 6.5, and (1, 1) gave 0
pub(crate) const FILE: [u8; 207] = [
    0x01, 0x44, 0x4b, 0x52, 0x53, 0x54, 0x76, 0x31, 0x0a, 0x02, 0x00, 0x02, 0x78, 0x31, 0x02, 0x78,
    0x32, 0x01, 0x00, 0x06, 0x6f, 0x62, 0x6a, 0x5f, 0x66, 0x6e, 0x01, 0x00, 0x00, 0x00, 0x00, 0x00,
    0x00, 0x00, 0x00, 0x00, 0x00, 0x00, 0x00, 0x00, 0x00, 0x00, 0x00, 0x00, 0x00, 0x00, 0x00, 0x00,
    0x00, 0x00, 0x00, 0x00, 0x00, 0x00, 0x00, 0x00, 0x00, 0x00, 0x00, 0x00, 0x00, 0x00, 0x00, 0x01,
    0x00, 0x00, 0x00, 0x01, 0x01, 0x00, 0x00, 0x00, 0x00, 0x00, 0x00, 0x00, 0x00, 0x00, 0x00, 0x00,
    0x00, 0x00, 0x00, 0x00, 0x00, 0x00, 0x01, 0x05, 0x00, 0x00, 0x00, 0x00, 0x00, 0x00, 0x00, 0x00,
    0x00, 0x00, 0x00, 0x00, 0x00, 0x00, 0x00, 0xff, 0xff, 0x05, 0x00, 0x00, 0x00, 0x00, 0x00, 0x00,
    0x00, 0x00, 0x00, 0x00, 0x00, 0x00, 0x00, 0x00, 0x00, 0xff, 0xff, 0x01, 0x00, 0x00, 0x00, 0x01,
    0x41, 0x00, 0x00, 0x00, 0x00, 0x00, 0x00, 0x00, 0x00, 0x00, 0x00, 0x00, 0x00, 0x00, 0x00, 0x00,
    0xff, 0xff, 0x01, 0x01, 0x00, 0x00, 0x00, 0x00, 0x00, 0x00, 0x00, 0x00, 0x00, 0x00, 0x00, 0x00,
    0x00, 0x00, 0x00, 0x00, 0x00, 0x01, 0x00, 0x00, 0x00, 0x00, 0x00, 0x00, 0x00, 0x00, 0x00, 0x00,
    0x00, 0x00, 0x00, 0x00, 0x00, 0x00, 0x00, 0x01, 0x00, 0x00, 0x00, 0x01, 0x00, 0x00, 0x00, 0x00,
    0x00, 0x00, 0x00, 0x00, 0x00, 0x00, 0x00, 0x00, 0x00, 0x00, 0x00, 0x00, 0x00, 0x00, 0x00,
];

/// What a file is read as that is to have the shape of the worked one, with room for two cards more. None where it may be
/// unborn, or is long.
fn read(alloc: Global, bytes: &[u8]) -> Result<Option<Reading>, AllocError> {
    let Some(stored) = read_header(alloc, &FILE[1..])? else {
        return Ok(None);
    };
    let [gate, _, ..] = bytes else {
        return Ok(None);
    };
    if *gate == 0 || bytes.len() > 1000 {
        return Ok(None);
    }
    Ok(Some(read_file(alloc, bytes, &stored.shape, 2)?))
}

/// What was read, and the place that is told.
#[derive(Clone, Copy, Debug, PartialEq, Eq)]
enum Told {
    Entries(usize),
    NotARestart,
    OtherShape,
    Damaged(usize),
    Unborn,
}

/// What a file is read as that is to have the shape of the worked one.
fn judged(alloc: Global, bytes: &[u8]) -> Result<Told, AllocError> {
    let reading = read(alloc, bytes)?;
    Ok(match &reading {
        Some(Reading::Entries { end, .. }) => Told::Entries(*end),
        Some(Reading::NotARestart) => Told::NotARestart,
        Some(Reading::OtherShape { .. }) => Told::OtherShape,
        Some(Reading::Damaged { offset }) => Told::Damaged(*offset),
        None => Told::Unborn,
    })
}

/// The worked file, with this byte at this place.
fn changed(place: usize, byte: u8) -> [u8; 207] {
    let mut bytes = FILE;
    if let Some(there) = bytes.get_mut(place) {
        *there = byte;
    }
    bytes
}

/// All three records of a file are in the book, which has room for two cards more.
#[test]
fn records_are_read_back(rt: HostRuntime) -> Result<(), Fail> {
    let alloc = rt.alloc();
    let reading = read(alloc, &FILE)?;
    match &reading {
        Some(Reading::Entries { book, count, end }) => {
            assert_eq!(rt; *count, 3);
            assert_eq!(rt; *end, 206);
            assert_eq!(rt; book.spare(), 2);
            assert_eq!(rt; book.room(), 2);
            let half = Dec::of_pair(5, -1).unwrap_or(Dec::whole(0));
            let places = [
                book.find(&[Dec::whole(0), Dec::whole(0)]),
                book.find(&[half, half]),
                book.find(&[Dec::whole(1), Dec::whole(1)]),
            ];
            for (place, card) in places.iter().enumerate() {
                assert_eq!(rt; card.map(|card| card.index as usize), Some(place));
            }
            assert!(rt; book.find(&[half, Dec::whole(0)]).is_none());
        }
        _ => assert!(rt; false),
    }
    Ok(())
}

/// A byte that is changed, at a place, and what the file is read as then.
#[test]
fn damage_is_told_where_its_gate_is_due(rt: HostRuntime) -> Result<(), Fail> {
    let alloc = rt.alloc();
    for (place, byte, want) in [
        // a gate is open whatever its byte is, and a closed one ends the file
        (0, 9, Told::Entries(206)),
        (26, 255, Told::Entries(206)),
        (26, 0, Told::Entries(26)),
        (146, 0, Told::Entries(146)),
        // a kind of 9, and attempts 2 and 0
        (67, 9, Told::Damaged(26)),
        (63, 2, Told::Damaged(26)),
        (123, 0, Told::Damaged(86)),
        // ten tenths are one
        (87, 10, Told::Damaged(86)),
        // the end gate is open
        (206, 1, Told::Damaged(206)),
        // a label is y1, is empty, or is the other one; another sign stands in front
        (12, 0x79, Told::OtherShape),
        (11, 0, Told::NotARestart),
        (13, 0x32, Told::NotARestart),
        (1, 0x45, Told::NotARestart),
        (0, 0, Told::Unborn),
    ] {
        assert_eq!(rt;
            judged(alloc, &changed(place, byte))?,
            want,
            "byte {byte} at {place}"
        );
    }
    Ok(())
}

/// A file that is cut is damaged where the last whole record ends, and one that tells of an attempt twice where it does so
/// the second time.
#[test]
fn cut_files_and_repeated_records_are_damaged(rt: HostRuntime) -> Result<(), Fail> {
    let alloc = rt.alloc();
    for (end, place) in [
        (206, 206),
        (205, 146),
        (100, 86),
        (87, 86),
        (86, 86),
        (85, 26),
        (26, 26),
    ] {
        assert_eq!(rt;
            judged(alloc, &FILE[..end])?,
            Told::Damaged(place),
            "cut at {end}"
        );
    }
    for end in 2..26 {
        assert_eq!(rt;
            judged(alloc, &FILE[..end])?,
            Told::NotARestart,
            "cut at {end}"
        );
    }
    let mut bytes = FILE;
    bytes.copy_within(26..86, 86);
    assert_eq!(rt; judged(alloc, &bytes)?, Told::Damaged(86));
    assert_eq!(rt; judged(alloc, b"hello")?, Told::NotARestart);
    Ok(())
}
