//! The adapters over real files, programs and standard output.
mod children;

use crate::{FileDisk, FileSink, FileSource, OutSink};
use dk_outside::sink::write_all;
use dk_outside::source::read_text;
use dk_outside::{Disk, Failed, Mode, Sink, Source};
use std::fs;
use std::rt::Files;
use std::test::Fail;

const NAME: &str = "t.dat";

const STUDY: &str = "s.in";

const RESTART: &str = "s.rst";

/// Takes away what an earlier run in this folder may have left.
fn begin_anew(rt: &HostRuntime) {
    for name in [RESTART, "s.rst.old", "s.rst.old2", "hard.in", "soft.in"] {
        let _ = fs::remove_file(rt, name);
    }
}

/// A table is the file begun last, and never the study, its restart file or an older one, by whatever path.
#[test]
fn a_table_is_the_file_begun_last(rt: HostRuntime) -> Result<(), Fail> {
    begin_anew(&rt);
    fs::write(&rt, STUDY, "study")?;
    for name in [RESTART, "s.rst.old", "s.rst.old2"] {
        fs::write(&rt, name, "restart")?;
    }
    let mut sink = FileSink::new(&rt, STUDY, RESTART);
    assert!(rt; sink.write(b"too early").is_err());
    for text in ["a longer first one\n", "1 NO_ID\n"] {
        assert!(rt; sink.begin(NAME).is_ok());
        assert!(rt; write_all(&mut sink, text.as_bytes()).is_ok());
    }
    for name in [
        STUDY,
        "./s.in",
        RESTART,
        "./s.rst",
        "s.rst.old",
        "./s.rst.old2",
        "none/t.dat",
    ] {
        assert!(rt; sink.begin(name).is_err());
    }
    assert!(rt; write_all(&mut sink, b"2 NO_ID\n").is_ok());
    for (name, whole) in [
        (NAME, "1 NO_ID\n2 NO_ID\n"),
        (STUDY, "study"),
        (RESTART, "restart"),
        ("s.rst.old2", "restart"),
    ] {
        let text = read_text(rt.alloc(), &mut FileSource::new(&rt, name))?;
        assert_eq!(rt; text.as_slice(), whole.as_bytes());
    }
    assert!(rt; FileSource::new(&rt, "none.in").read(&mut [0]).is_err());
    Ok(())
}

/// Standard output takes bytes and can't be begun.
#[test]
fn standard_output_takes_bytes(rt: HostRuntime) -> Result<(), Fail> {
    let mut out = OutSink::new(&rt);
    assert!(rt; out.begin(NAME).is_err());
    assert!(rt; write_all(&mut out, b"taken\n").is_ok());
    Ok(())
}

/// Whether the file at a path has this text.
fn has(rt: &HostRuntime, path: &str, text: &str) -> bool {
    fs::read(rt, path).is_ok_and(|bytes| bytes.as_slice() == text.as_bytes())
}

/// A restart file is written and read back, and a fresh one leaves the older ones under other names.
#[test]
fn a_restart_file_is_begun_and_gone_on_with(rt: HostRuntime) -> Result<(), Fail> {
    begin_anew(&rt);
    fs::write(&rt, STUDY, "study")?;
    let mut buf = [0u8; 4];
    let mut absent = FileDisk::new(&rt, RESTART, Mode::Resume, STUDY);
    assert_eq!(rt; absent.length(), Err(Failed));
    assert!(rt; !fs::exists(&rt, RESTART)?);

    for text in ["first", "second", "third"] {
        let mut disk = FileDisk::new(&rt, RESTART, Mode::Fresh, STUDY);
        assert_eq!(rt; disk.length(), Ok(0));
        assert_eq!(rt; disk.write_at(0, text.as_bytes()), Ok(()));
        assert_eq!(rt; disk.sync(), Ok(()));
        assert_eq!(rt; disk.length(), Ok(text.len() as u64));
        assert_eq!(rt; disk.read_at(3, &mut buf), Ok(text.len() - 3));
        assert!(rt; buf[..2] == text.as_bytes()[3..5]);
        for mode in [Mode::Fresh, Mode::Resume] {
            let mut other = FileDisk::new(&rt, RESTART, mode, STUDY);
            assert_eq!(rt; other.write_at(0, b"other"), Err(Failed));
        }
        assert!(rt; has(&rt, RESTART, text));
    }
    assert!(rt; has(&rt, "s.rst.old", "first"));
    assert!(rt; has(&rt, "s.rst.old2", "second"));
    assert!(rt; !fs::exists(&rt, "s.rst.old3")?);

    let mut disk = FileDisk::new(&rt, RESTART, Mode::Resume, STUDY);
    assert_eq!(rt; disk.read_at(1, &mut buf), Ok(4));
    assert_eq!(rt; buf, *b"hird");
    assert_eq!(rt; disk.read_at(9, &mut buf), Ok(0));
    assert_eq!(rt; disk.write_at(4, b"s"), Ok(()));
    assert!(rt; has(&rt, RESTART, "thirs"));
    drop(disk);
    assert_eq!(rt; absent.sync(), Err(Failed));
    Ok(())
}

/// A study is no restart file, by whatever path, and neither is a folder.
#[test]
fn a_study_is_no_restart_file(rt: HostRuntime) -> Result<(), Fail> {
    begin_anew(&rt);
    fs::write(&rt, STUDY, "study")?;
    fs::hard_link(&rt, STUDY, "hard.in")?;
    rt.symlink(STUDY, "soft.in")?;
    for path in [STUDY, "./s.in", "hard.in", "soft.in", ".", "none/s.rst"] {
        for mode in [Mode::Fresh, Mode::Resume] {
            let mut disk = FileDisk::new(&rt, path, mode, STUDY);
            assert_eq!(rt; disk.length(), Err(Failed), "at {path}");
            assert_eq!(rt; disk.write_at(0, b"other"), Err(Failed));
        }
    }
    assert!(rt; has(&rt, STUDY, "study"));
    assert!(rt; !fs::exists(&rt, "s.in.old")?);
    Ok(())
}
