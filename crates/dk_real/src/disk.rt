// The restart file as a disk.
ghost use Rattle.std.specs.Prelude.{◌≡◌, true, false, IsNone};
ghost use Rattle.std.specs.Io.{ReadsAtMost};

use crate::faults::counted;
use crate::opening::open;
use dk_outside::{Disk, Failed, Mode};
use std::fs::File;
use std::io;
use std::io::ErrorKind;
use std::os::unix::fs::FileExt;
use std::rt::Files;

/// The restart file at a path. The first call opens it, and it is locked from then on as long as the disk is open.
///
/// `Fresh` begins it empty. A file that stands there and isn't empty is kept under the first name of NAME.old, NAME.old2,
/// NAME.old3 and so on that is free. `Resume` takes the file that stands there, and makes none.
///
/// The first call fails where another run has the file, where it is the study's own, by its name or by another path,
/// where it is no plain file or may not be written, and where memory for a name is wanting. No byte of any file has
/// changed then. Where the first call failed so, each later one fails too.
///
/// After a sync that failed the file is closed, and each later call fails: the system may have dropped what was pending,
/// and a later sync would not tell.
#[derive(Drop)]
pub struct FileDisk<'a, R: Files<File = File> + AllocGlobal> {
    rt: &'a R,
    path: &'a str,
    mode: Mode,
    study: &'a str,
    tried: bool,
    file: Option<File>,
    faults: u64,
}

impl<'a, R: Files<File = File> + AllocGlobal> FileDisk<'a, R> {
    /// The disk over the file at a path, for the study at another. Nothing is opened yet.
    pub fn new(rt: &'a R, path: &'a str, mode: Mode, study: &'a str) -> FileDisk<'a, R>
        ensures faults { result.faults ≡ 0 }
        ensures path { result.path.now ≡ path.now }
        ensures mode { result.mode ≡ mode }
        ensures study { result.study.now ≡ study.now }
        ensures untried { result.tried ≡ false }
        ensures closed { IsNone result.file }
    {
        FileDisk {
            rt,
            path,
            mode,
            study,
            tried: false,
            file: None,
            faults: 0,
        }
    }

    /// Opens the file where no call tried it yet.
    fn open_once(&mut self)
        ensures faults { self.new.faults ≡ self.old.faults }
        ensures tried { self.new.tried ≡ true }
    {
        if !self.tried {
            self.tried = true;
            self.file = open(self.rt, self.path, self.mode, self.study).ok();
        }
    }
}

impl<R: Files<File = File> + AllocGlobal> Disk for FileDisk<'_, R> {
    ghost use Rattle.std.specs.Prelude.{None};

    ghost told = { λ _. None };

    ghost faults = { λ disk. disk.faults };

    ghost shows = { λ _. tt };

    fn length(&mut self) -> Result<u64, Failed> {
        self.open_once();
        let answer = length_of(&self.file);
        counted(answer, &mut self.faults)
    }

    fn read_at(&mut self, at: u64, buf: &mut [u8]) -> Result<usize, Failed> {
        self.open_once();
        let answer = read_place(&self.file, at, buf);
        counted(answer, &mut self.faults)
    }

    fn write_at(&mut self, at: u64, bytes: &[u8]) -> Result<(), Failed> {
        self.open_once();
        let answer = write_place(&self.file, at, bytes);
        counted(answer, &mut self.faults)
    }

    fn sync(&mut self) -> Result<(), Failed> {
        self.open_once();
        let answer = sync_file(&self.file);
        if answer.is_err() {
            self.file = None;
        }
        counted(answer, &mut self.faults)
    }
}

/// The file, where it is open.
fn opened(file: &Option<File>) -> io::Result<&File> {
    match file {
        Some(file) => Ok(file),
        None => Err(ErrorKind::NotFound.into()),
    }
}

/// How many bytes the file has.
fn length_of(file: &Option<File>) -> io::Result<u64> {
    Ok(opened(file)?.metadata()?.len())
}

/// Reads as many bytes from a place on as the file has and the buffer takes.
fn read_place(file: &Option<File>, at: u64, buf: &mut [u8]) -> io::Result<usize>
    ensures bound { ReadsAtMost result buf.new }
{
    let file = opened(file)?;
    let left = file.metadata()?.len().saturating_sub(at);
    let count = (buf.len() as u64).min(left) as usize;
    file.read_exact_at(&mut buf[..count], at)?;
    Ok(count)
}

/// Writes all bytes at a place.
fn write_place(file: &Option<File>, at: u64, bytes: &[u8]) -> io::Result<()> {
    opened(file)?.write_all_at(bytes, at)
}

/// Has the system write down what is pending.
fn sync_file(file: &Option<File>) -> io::Result<()> {
    opened(file)?.sync_data()
}
