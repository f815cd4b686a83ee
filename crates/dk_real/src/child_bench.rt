// A bench over the system's files, on which programs run as children.
ghost use Rattle.std.specs.Prelude.{◌≡◌, ◌≤◌, length, IfOk};
ghost use Rattle.dk_outside.specs.Benches.{IsAtMost};

use crate::faults::{counted, fault};
use crate::opening::{is_at, is_older_file};
use dk_outside::{Bench, Call, Failed, Fetched};
use std::fs::File;
use std::io::{ErrorKind, Read, Write};
use std::process::{Command, Processes, Stdio};
use std::rt::{Files, Stderr};
use std::{fs, io};

/// The current folder as a bench: its files are the folder's, and its children are programs of the system.
///
/// A child is started by the driver's words with the names of its two files behind them, and waited for; its exit status says
/// nothing. Its standard input is empty, and what it prints goes to this program's standard error, so that standard output has
/// the summary alone. A child that can't be started is a fault, and so is a name of a parameters file or a results file that
/// leads to one of the files that are kept from children: the study, its restart file and the older ones.
#[derive(Drop)]
pub struct ChildBench<'a, R: Files + Processes + AllocGlobal> {
    rt: &'a R,
    prints: Stderr,
    study: &'a str,
    restart: &'a str,
    faults: u64,
}

impl<'a, R: Files + Processes + AllocGlobal> ChildBench<'a, R> {
    /// A bench whose children print to this stream, for the study and the restart file at these paths, which are neither
    /// cleared nor laid.
    pub fn new(rt: &'a R, prints: Stderr, study: &'a str, restart: &'a str) -> ChildBench<'a, R>
        ensures { result.faults ≡ 0 }
    {
        ChildBench {
            rt,
            prints,
            study,
            restart,
            faults: 0,
        }
    }

    /// Whether a name leads to a file that is kept from children.
    fn keeps(&self, name: &str) -> bool {
        match fs::metadata(self.rt, name) {
            Ok(file) => {
                is_at(self.rt, self.study, &file)
                    || is_at(self.rt, self.restart, &file)
                    || is_older_file(self.rt, self.restart, name)
            }
            Err(_) => false,
        }
    }

    /// Starts a child and waits for it.
    fn start(&self, call: &Call<'_>) -> io::Result<()> {
        let Some((program, words)) = call.driver.items().split_first() else {
            return Err(ErrorKind::InvalidInput.into());
        };
        let mut command = Command::new(self.rt.alloc(), program.as_str())?;
        for word in words {
            command.arg(word.as_str())?;
        }
        command.arg(call.parameters)?.arg(call.results)?;
        command.stdin(Stdio::null()).stdout(self.prints);
        command.status(self.rt)?;
        Ok(())
    }
}

impl<R: Files + Processes + AllocGlobal> Bench for ChildBench<'_, R> {
    ghost use Rattle.std.specs.Prelude.{None, refl};

    ghost held = { λ _. None };

    ghost together = { λ _ parameters results. Unit {0} };

    ghost leaves = { λ parameters attempt left. Unit {0} };

    ghost after = { λ old new. Unit {0} };

    ghost faults = { λ bench. bench.faults };

    ghost after_itself = { λ bench. tt };

    ghost after_both = { λ first second third one other. tt };

    ghost stays_silent = { λ old new after silent. refl };

    ghost stay_together = { λ old new parameters results after one. tt };

    fn clear(&mut self, name: &str) -> Result<(), Failed> {
        if self.keeps(name) {
            return Err(fault(&mut self.faults));
        }
        let answer = remove(self.rt, name);
        counted(answer, &mut self.faults)
    }

    fn lay(&mut self, name: &str, bytes: &[u8]) -> Result<(), Failed> {
        if self.keeps(name) {
            return Err(fault(&mut self.faults));
        }
        let answer = make(self.rt, name, bytes);
        counted(answer, &mut self.faults)
    }

    fn run(&mut self, call: &Call<'_>) -> Result<(), Failed> {
        let answer = self.start(call);
        counted(answer, &mut self.faults)
    }

    fn fetch(&mut self, name: &str, buf: &mut [u8]) -> Result<Fetched, Failed> {
        match fs::open(self.rt, name) {
            Ok(mut file) => {
                let answer = read_whole(&mut file, buf);
                counted(answer, &mut self.faults)
            }
            Err(error) if error.kind() == ErrorKind::NotFound => Ok(Fetched::Absent),
            Err(_) => Err(fault(&mut self.faults)),
        }
    }
}

/// Removes a file, where it is there.
fn remove<R: Files>(files: &R, name: &str) -> io::Result<()> {
    match fs::remove_file(files, name) {
        Err(error) if error.kind() == ErrorKind::NotFound => Ok(()),
        answer => answer,
    }
}

/// Makes a file anew. One that stands there is removed and not emptied: a file that was emptied is flushed to the disk when it
/// is closed, which takes far longer than the call.
fn make<R: Files>(files: &R, name: &str, bytes: &[u8]) -> io::Result<()> {
    remove(files, name)?;
    File::create_new(files, name)?.write_all(bytes)
}

/// Reads a file to its end, where the buffer has the room.
fn read_whole<F: Read>(file: &mut F, buf: &mut [u8]) -> io::Result<Fetched>
    ensures bound { IfOk result (λ fetched. IsAtMost fetched (length buf.new)) }
{
    let mut count = 0;
    while count < buf.len() {
        let taken = file.read(&mut buf[count..])?;
        if taken == 0 {
            return Ok(Fetched::Bytes(count));
        }
        count += taken;
    }
    if file.read(&mut [0])? == 0 {
        Ok(Fetched::Bytes(count))
    } else {
        Ok(Fetched::TooLong)
    }
}
