// What the words of the command line are carried out by.
ghost use Rattle.std.specs.Prelude.{◌≡◌, ◌⊎◌, ◌≤◌, length, IfOk};
ghost use Rattle.dk_outside.specs.Causes.{Rose};
ghost use Rattle.dk_outside.specs.Sinks.{Grows};
ghost use Rattle.dk_runner.specs.Headline.{Says, OnlyGrows};
ghost use Rattle.dk_runner.specs.Lines.{line};
ghost use Rattle.dk_runner.specs.declared.status.Status.TheVariants.{Finished, NoMemory, SinkFault};

use dk_outside::sink::write_all;
use dk_outside::{Mode, Sink};
use dk_real::{ChildBench, FileDisk, FileSink, FileSource};
use dk_runner::{Command, CommandFault, Status, Which, check, command, dakota, usage, write_line};
use std::alloc::{AllocError, Global};
use std::fs::File;
use std::process::Processes;
use std::rt::{Files, Stderr};

/// How many benches a run is handed.
const BENCHES: usize = 64;

pub const HELP: &str = "dakota: runs a study of a simulation, or checks one

  dakota -i FILE            run the study in FILE (-input FILE is the same)
  dakota -i FILE -w RESTART begin the restart file RESTART in place of dakota.rst
                            (-write_restart RESTART is the same)
  dakota -i FILE -r RESTART go on with the restart file RESTART
                            (-read_restart RESTART is the same)
  dakota -check -i FILE     read and check the study, and run nothing
  dakota --help             print this
  dakota --version          print the version

A run writes the study's table under the name that the study gives, and its summary here.
Each evaluation is recorded in the restart file, and synced, before it counts. A run that was
stopped is gone on with so, and no evaluation that the file holds is made again:

  dakota -i FILE -r dakota.rst

Without -r an older restart file is kept as RESTART.old, RESTART.old2 and so on.

docs/MANUAL.md in Dirhaulk's repository says how a study is written, keyword by keyword,
and what the exit statuses are.
";

pub const VERSION: &str = "dakota, Dirhaulk 0.1.0\n";

/// Carries out the words behind the program's name: runs or checks the study in a file, prints a text that is asked
/// for, or says where the words are wrong. Answers how that ended. What children print goes to `prints`.
pub fn carry_out<R: Files<File = File> + Processes + AllocGlobal, U: Sink>(
    rt: &R,
    words: &[String],
    prints: Stderr,
    out: &mut U,
) -> Status {
    if let Some(text) = text_asked_for(words) {
        return print_text(text, out);
    }
    match command(rt.alloc(), words) {
        Ok(
            Command::Run {
                input,
                restart,
                mode,
            },
        ) => {
            let paths = Paths {
                study: input.as_str(),
                restart: restart.as_str(),
            };
            run_file(rt, words, &paths, mode, prints, out)
        }
        Ok(Command::Check { input }) => {
            let mut study = FileSource::new(rt, input.as_str());
            check(rt.alloc(), words, &mut study, out)
        }
        Err(CommandFault::Usage { at }) => usage(at, out),
        Err(CommandFault::NoMemory) => end_without_memory(out),
    }
}

/// Ends for want of memory before there is a call to make.
pub fn end_without_memory<U: Sink>(out: &mut U) -> Status
    ensures status { result ≡ NoMemory }
    ensures says { Says (U.held out.old) (U.held out.new) (U.faults out.old) (U.faults out.new) (line NoMemory) }
    ensures never_begun { OnlyGrows (U.held out.old) (U.held out.new) }
{
    write_line(&Status::NoMemory, out);
    Status::NoMemory
}

/// The text that is asked for by one word alone.
fn text_asked_for(words: &[String]) -> Option<&'static str> {
    let [word] = words else {
        return None;
    };
    match word.as_str() {
        "--help" => Some(HELP),
        "--version" => Some(VERSION),
        _ => None,
    }
}

/// Prints a text that was asked for.
fn print_text<U: Sink>(text: &str, out: &mut U) -> Status
    ensures prints { result ≡ Finished → Grows (U.held out.old) (U.held out.new) text.now }
    ensures ends { (result ≡ Finished) ⊎ (result ≡ SinkFault Which.Out) }
    ensures out_fault { result ≡ SinkFault Which.Out → Rose (U.faults out.old) (U.faults out.new) }
    ensures never_begun { OnlyGrows (U.held out.old) (U.held out.new) }
{
    match write_all(out, text.as_bytes()) {
        Ok(()) => Status::Finished,
        Err(_) => Status::SinkFault(Which::Out),
    }
}

/// The files of a run.
#[derive(Drop)]
struct Paths<'a> {
    study: &'a str,
    restart: &'a str,
}

/// Runs the study in a file over a restart file. The table can take neither's place.
fn run_file<R: Files<File = File> + Processes + AllocGlobal, U: Sink>(
    rt: &R,
    words: &[String],
    paths: &Paths<'_>,
    mode: Mode,
    prints: Stderr,
    out: &mut U,
) -> Status
    ensures out_fault { result ≡ SinkFault Which.Out → Rose (U.faults out.old) (U.faults out.new) }
    ensures never_begun { OnlyGrows (U.held out.old) (U.held out.new) }
{
    let Ok(benches) = benches(rt, prints, paths) else {
        return end_without_memory(out);
    };
    let mut study = FileSource::new(rt, paths.study);
    let mut table = FileSink::new(rt, paths.study, paths.restart);
    let ended = dakota(
        rt.alloc(),
        words,
        &mut study,
        FileDisk::new(rt, paths.restart, mode, paths.study),
        &mut table,
        out,
        benches,
    );
    ended.status
}

/// As many benches as a run is handed, each in the current folder.
fn benches<'a, R: Files + Processes + AllocGlobal>(
    rt: &'a R,
    prints: Stderr,
    paths: &Paths<'a>,
) -> Result<Vec<ChildBench<'a, R>>, AllocError>
    ensures { IfOk result (λ benches. 64 ≤ length benches.items) }
{
    let mut benches = Vec::with_capacity(rt.alloc(), BENCHES)?;
    while benches.len() < BENCHES {
        benches.push(ChildBench::new(rt, prints, paths.study, paths.restart))?;
    }
    Ok(benches)
}
