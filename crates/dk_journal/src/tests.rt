//! Restart files on a disk in memory, which stops.
ghost use Rattle.std.specs.Prelude.{◌≡◌, ◌+◌, ◌^◌, ◌≤◌, length, IfOk, IfSome};
ghost use Rattle.dk_record.specs.Payloads.{header_payload, IsShape};

use crate::opening::is_unborn;
use crate::reading::tests::FILE;
use crate::{Journal, Mode};
use dk_memory::{Image, MemDisk};
use dk_num::Dec;
use dk_record::{StoredShape, read_header};
use dk_types::Outcome;
use std::alloc::{AllocError, Global};
use std::test::Fail;

/// What was answered, in a text, and the disk that came back.
#[derive(Drop)]
struct Tried {
    told: String,
    disk: MemDisk,
}

impl Tried {
    /// The bytes that the disk has now.
    fn bytes(&self) -> Result<Vec<u8>, AllocError> {
        self.disk.image(self.disk.moments(), Image::New)
    }
}

/// The labels x1, x2 and obj_fn, which a file within this limit has room for.
fn labels(alloc: Global, limit: u64) -> Result<Option<StoredShape>, AllocError>
    ensures { IfOk result (λ answer. IfSome answer (λ stored. IsShape stored.shape × (length (header_payload stored.shape) + 2 ≤ limit) × (limit ≤ 2 ^ 28) × (length stored.shape.variables ≡ 2) × (length stored.shape.responses ≡ 1))) }
{
    let Some(stored) = read_header(alloc, &FILE[1..])? else {
        return Ok(None);
    };
    let variables = stored.shape.variables.items().len();
    let responses = stored.shape.responses.items().len();
    if stored.length as u64 > limit.saturating_sub(2)
        || limit > 1000
        || variables != 2
        || responses != 1
    {
        return Ok(None);
    }
    Ok(Some(stored))
}

/// Opens a file, and tells how many entries it has.
fn try_open(
    alloc: Global,
    bytes: &[u8],
    mode: Mode,
    limit: u64,
) -> Result<Option<Tried>, AllocError> {
    let Some(stored) = labels(alloc, limit)? else {
        return Ok(None);
    };
    let disk = MemDisk::disk(alloc, bytes, &[], None)?;
    match Journal::open(alloc, disk, &stored.shape, mode, limit, 2) {
        Ok(opened) => Ok(Some(Tried {
            told: format!(in alloc; "entries {}", opened.journal.entries())?,
            disk: opened.journal.give_back(),
        })),
        Err(refused) => Ok(Some(Tried {
            told: format!(in alloc; "{}", refused.fault)?,
            disk: refused.disk,
        })),
    }
}

/// Opens a file in which no entry was ever kept, on a disk that may stop, and appends that (0, 0) gave 1.
fn try_append(
    alloc: Global,
    bytes: &[u8],
    stop: Option<u64>,
    limit: u64,
) -> Result<Option<Tried>, AllocError> {
    let Some(stored) = labels(alloc, limit)? else {
        return Ok(None);
    };
    if !is_unborn(bytes) {
        return Ok(None);
    }
    let disk = MemDisk::disk(alloc, bytes, &[], stop)?;
    let opened = match Journal::open(alloc, disk, &stored.shape, Mode::Resume, limit, 2) {
        Ok(opened) => opened,
        Err(refused) => {
            return Ok(Some(Tried {
                told: format!(in alloc; "not opened: {}", refused.fault)?,
                disk: refused.disk,
            }));
        }
    };
    let mut journal = opened.journal;
    let point = [Dec::whole(0), Dec::whole(0)];
    let values = [Dec::whole(1)];
    let told = match journal.append(&point, 1, Outcome::Values(&values)) {
        Ok(number) => format!(in alloc; "number {number}")?,
        Err(fault) => format!(in alloc; "{fault}")?,
    };
    Ok(Some(Tried {
        told,
        disk: journal.give_back(),
    }))
}

/// Opens an image of a moment of a disk. None where the moment hasn't come.
fn open_again(
    alloc: Global,
    disk: &MemDisk,
    moment: u64,
    image: Image,
) -> Result<Option<Tried>, AllocError> {
    if moment > disk.moments() {
        return Ok(None);
    }
    let left = disk.image(moment, image)?;
    try_open(alloc, &left, Mode::Resume, 1000)
}

/// A file may be as long as its limit, and no longer.
#[test]
fn limits_are_kept(rt: HostRuntime) -> Result<(), Fail> {
    let alloc = rt.alloc();
    for (limit, want) in [
        (86, "Full (length 87)"),
        (87, "number 0"),
        (27, "Full (length 87)"),
    ] {
        let Some(tried) = try_append(alloc, b"", None, limit)? else {
            assert!(rt; false);
            return Ok(());
        };
        assert_eq!(rt; tried.told.as_bytes(), want.as_bytes(), "at {limit}");
    }
    Ok(())
}

/// A refusal tells the first test that fails, and leaves the file as it was.
#[test]
fn refused_files_stay(rt: HostRuntime) -> Result<(), Fail> {
    let alloc = rt.alloc();
    for (end, place, byte, mode, limit, want) in [
        (207, 0, 1, Mode::Resume, 207, "entries 3"),
        (207, 0, 1, Mode::Resume, 206, "TooLarge (length 207)"),
        (87, 86, 0, Mode::Resume, 87, "entries 1"),
        (87, 86, 0, Mode::Resume, 86, "TooLarge (length 87)"),
        (87, 86, 0, Mode::Fresh, 86, "TooLarge (length 87)"),
        (207, 0, 1, Mode::Fresh, 207, "NotEmpty (length 207)"),
        (5, 1, 0x65, Mode::Fresh, 207, "NotEmpty (length 5)"),
        (1, 0, 0, Mode::Fresh, 207, "NotEmpty (length 1)"),
        (5, 1, 0x65, Mode::Resume, 207, "NotARestart"),
        (207, 12, 0x79, Mode::Resume, 207, "OtherShape"),
        (207, 67, 9, Mode::Resume, 207, "Damaged (offset 26)"),
        (100, 0, 1, Mode::Resume, 207, "Damaged (offset 86)"),
        (86, 0, 1, Mode::Resume, 207, "Damaged (offset 86)"),
    ] {
        let mut bytes = FILE;
        bytes[place] = byte;
        let Some(tried) = try_open(alloc, &bytes[..end], mode, limit)? else {
            assert!(rt; false);
            return Ok(());
        };
        assert_eq!(rt;
            tried.told.as_bytes(),
            want.as_bytes(),
            "{end} bytes, {byte} at {place}"
        );
        assert_eq!(rt;
            tried.bytes()?.as_slice(),
            &bytes[..end],
            "{end} bytes, {byte} at {place}"
        );
    }
    Ok(())
}

/// Wherever an opening and an append stop, each image of each moment opens again, with the entry where that was answered.
#[test]
fn files_that_stop_open_again(rt: HostRuntime) -> Result<(), Fail> {
    let alloc = rt.alloc();
    let mut old = FILE;
    old[0] = 0;
    let starts: [&[u8]; 3] = [b"", b"\x09", &old];
    for start in starts {
        for stop in 1..15 {
            let Some(tried) = try_append(alloc, start, Some(stop), 1000)? else {
                assert!(rt; false);
                return Ok(());
            };
            let last = tried.disk.moments();
            for moment in 0..=last {
                for image in [
                    Image::Old,
                    Image::New,
                    Image::Fill(0),
                    Image::Fill(7),
                    Image::Fill(255),
                ] {
                    let Some(again) = open_again(alloc, &tried.disk, moment, image)? else {
                        assert!(rt; false);
                        return Ok(());
                    };
                    let is_there = again.told.as_str() == "entries 1";
                    let is_empty = again.told.as_str() == "entries 0";
                    assert!(rt;
                        is_there || is_empty,
                        "{image:?} at {moment}, stopped at {stop}"
                    );
                    if tried.told.as_str() == "number 0" && moment == last {
                        assert!(rt; is_there, "{image:?} at {moment}, stopped at {stop}");
                    }
                    if tried.told.as_str() == "not opened: Disk" {
                        assert!(rt; is_empty, "{image:?} at {moment}, stopped at {stop}");
                    }
                }
            }
        }
    }
    Ok(())
}
