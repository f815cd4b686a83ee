// Files: the source of a study's text, and the sink of its table.
ghost use Rattle.std.specs.Prelude.{◌≡◌};

use crate::faults::{fault, read_from, write_to};
use crate::opening::{is_older_file, is_same_file};
use dk_outside::{Failed, Sink, Source};
use std::fs;
use std::rt::Files;

/// The bytes of the file at a path. It is opened by the first read.
#[derive(Drop)]
pub struct FileSource<'a, R: Files> {
    files: &'a R,
    path: &'a str,
    file: Option<R::File>,
    faults: u64,
}

impl<'a, R: Files> FileSource<'a, R> {
    pub fn new(files: &'a R, path: &'a str) -> FileSource<'a, R>
        ensures faults { result.faults ≡ 0 }
        ensures path { result.path.now ≡ path.now }
    {
        FileSource {
            files,
            path,
            file: None,
            faults: 0,
        }
    }
}

impl<R: Files> Source for FileSource<'_, R> {
    ghost use Rattle.std.specs.Prelude.{None};

    ghost left = { λ _. None };

    ghost faults = { λ source. source.faults };

    fn read(&mut self, buf: &mut [u8]) -> Result<usize, Failed> {
        if self.file.is_none() {
            self.file = fs::open(self.files, self.path).ok();
        }
        read_from(&mut self.file, buf, &mut self.faults)
    }
}

/// A file that `begin` makes or empties, at a path from the current folder on. It isn't begun in the place of the study, of
/// its restart file, or of an older one that was kept as NAME.old, NAME.old2 and so on.
#[derive(Drop)]
pub struct FileSink<'a, R: Files + AllocGlobal> {
    files: &'a R,
    study: &'a str,
    restart: &'a str,
    file: Option<R::File>,
    faults: u64,
}

impl<'a, R: Files + AllocGlobal> FileSink<'a, R> {
    /// A sink that isn't begun, for the table of the study and the restart file at these paths.
    pub fn new(files: &'a R, study: &'a str, restart: &'a str) -> FileSink<'a, R>
        ensures faults { result.faults ≡ 0 }
        ensures study { result.study.now ≡ study.now }
        ensures restart { result.restart.now ≡ restart.now }
    {
        FileSink {
            files,
            study,
            restart,
            file: None,
            faults: 0,
        }
    }
}

impl<R: Files + AllocGlobal> Sink for FileSink<'_, R> {
    ghost use Rattle.std.specs.Prelude.{None};

    ghost held = { λ _. None };

    ghost faults = { λ sink. sink.faults };

    fn begin(&mut self, name: &str) -> Result<(), Failed> {
        if is_same_file(self.files, self.study, name)
            || is_same_file(self.files, self.restart, name)
            || is_older_file(self.files, self.restart, name)
        {
            return Err(fault(&mut self.faults));
        }
        match fs::create(self.files, name) {
            Ok(file) => {
                self.file = Some(file);
                Ok(())
            }
            Err(_) => Err(fault(&mut self.faults)),
        }
    }

    fn write(&mut self, piece: &[u8]) -> Result<usize, Failed> {
        write_to(&mut self.file, piece, &mut self.faults)
    }
}
