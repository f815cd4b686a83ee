//! Objects in memory, whose calls fail as they are told.
mod benches;

use crate::{Image, MemDisk, MemSink, MemSource};
use dk_outside::{Disk, Failed, Sink, Source};
use std::test::Fail;

/// A source gives its bytes, and fails at the calls that it was told.
#[test]
fn a_source_fails_as_told(rt: HostRuntime) -> Result<(), Fail> {
    let mut source = MemSource::source(rt.alloc(), b"abcde", &[2])?;
    let mut buf = [0u8; 3];
    assert_eq!(rt; source.read(&mut buf), Ok(3));
    assert_eq!(rt; buf, *b"abc");
    assert_eq!(rt; source.read(&mut buf), Err(Failed));
    assert_eq!(rt; source.read(&mut buf), Ok(2));
    assert_eq!(rt; buf, *b"dec");
    assert_eq!(rt; source.read(&mut buf), Ok(0));
    Ok(())
}

/// A sink takes as much as it has room for, and keeps its name.
#[test]
fn a_sink_takes_what_it_has_room_for(rt: HostRuntime) -> Result<(), Fail> {
    let mut sink = MemSink::sink(rt.alloc(), 5, &[3])?;
    assert_eq!(rt; sink.begun(), None);
    assert_eq!(rt; sink.begin("t.dat"), Ok(()));
    assert_eq!(rt; sink.write(b"abc"), Ok(3));
    assert_eq!(rt; sink.write(b"def"), Err(Failed));
    assert_eq!(rt; sink.write(b"def"), Ok(2));
    assert_eq!(rt; sink.write(b"f"), Err(Failed));
    assert_eq!(rt; sink.taken(), b"abcde".as_slice());
    assert_eq!(rt; sink.begun(), Some("t.dat"));
    assert_eq!(rt; sink.refused(), 0);
    Ok(())
}

/// What was written is pending until a sync, also where the write failed.
#[test]
fn a_disk_tells_what_a_crash_leaves(rt: HostRuntime) -> Result<(), Fail> {
    let mut disk = MemDisk::disk(rt.alloc(), b"abcd", &[4], Some(7))?;
    assert_eq!(rt; disk.write_at(3, b"xyz"), Ok(()));
    assert_eq!(rt; disk.sync(), Ok(()));
    assert_eq!(rt; disk.write_at(1, b"123"), Ok(()));
    assert_eq!(rt; disk.write_at(6, b"45"), Err(Failed));
    assert_eq!(rt; disk.length(), Ok(6));
    let mut buf = [0u8; 4];
    assert_eq!(rt; disk.read_at(3, &mut buf), Ok(3));
    assert_eq!(rt; buf, *b"3yz\0");
    assert_eq!(rt; disk.sync(), Err(Failed));
    assert_eq!(rt; disk.length(), Err(Failed));
    let cases: [(u64, Image, &[u8]); 9] = [
        (0, Image::New, b"abcd"),
        (1, Image::Old, b"abcd"),
        (1, Image::New, b"abcxyz"),
        (1, Image::Fill(b'.'), b"abc..."),
        (2, Image::Old, b"abcxyz"),
        (3, Image::Fill(b'.'), b"a...yz"),
        (4, Image::Old, b"abcxyz"),
        (4, Image::New, b"a123yz"),
        (4, Image::Fill(b'.'), b"a...yz.."),
    ];
    assert_eq!(rt; disk.moments(), 4);
    for (moment, image, bytes) in cases {
        let left = disk.image(moment, image)?;
        assert_eq!(rt; left.as_slice(), bytes, "{image:?} at {moment}");
    }
    assert_eq!(rt; disk.refused(), 0);
    Ok(())
}
