//! The program: it hands the words of the command line, and standard output, to the function that carries them out.
#![tactic(auto)]

mod carry_out;
#[cfg(test)]
mod tests;

use crate::carry_out::{carry_out, end_without_memory};
use dk_real::OutSink;
use std::alloc::AllocError;
use std::io::ErrorKind;
use std::process::ExitCode;
use std::rt::{Env, Files};
use std::{env, fs};

fn main(rt: HostRuntime) -> ExitCode {
    let _input = placeholder(&rt);
    let _output = placeholder(&rt);
    let mut out = OutSink::new(&rt);
    let status = match words(&rt) {
        Ok(words) => carry_out(&rt, &words, rt.stderr(), &mut out),
        Err(AllocError) => end_without_memory(&mut out),
    };
    ExitCode::from(status.code())
}

/// A file that takes the place of standard input or output where that was closed, so that no file that is opened later
/// does: what is printed would go there.
fn placeholder<R: Files>(files: &R) -> Option<R::File> {
    fs::open(files, "/dev/null").ok()
}

/// The words behind the program's name; none where one of them isn't text.
fn words<R: Env + AllocGlobal>(rt: &R) -> Result<Vec<String>, AllocError> {
    match env::args(rt) {
        Ok(words) => words.skip(1).collect(rt.alloc()),
        Err(error) if error.kind() == ErrorKind::OutOfMemory => Err(AllocError),
        Err(_) => Ok(Vec::new(rt.alloc())),
    }
}
