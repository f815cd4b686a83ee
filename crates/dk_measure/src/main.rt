//! What parameters files, results files and attempts take, for `bench/`.
//!
//!     dk_measure texts COUNT STUDY RESULTS X ..
//!     dk_measure attempts COUNT STUDY X ..
//!
//! `texts` writes the parameters files of the evaluations 1 to COUNT of the study in STUDY, each at the point X .., and reads
//! the results file RESULTS as often. It prints how many bytes it wrote, and how often there were values. `attempts` makes as
//! many attempts at that point, in the current folder, and prints how often there were values. It ends with 0, or with 1 for
//! other words, files or studies, or where an attempt couldn't be made.
#![tactic(auto)]

ghost use Rattle.std.specs.Prelude.{◌≡◌, length, IfOk};
ghost use Rattle.dk_types.specs.Sound.{IsSound};

mod attempts;
mod texts;

use crate::attempts::make_attempts;
use crate::texts::measure_texts;
use dk_num::Dec;
use dk_reader::read_study;
use dk_types::Study;
use std::alloc::Global;
use std::io::ErrorKind;
use std::process::{ExitCode, Processes};
use std::rt::{Env, Files, Stderr};
use std::{env, fs, io};

/// The most bytes of a study's text.
const MOST_BYTES: usize = 1_048_576;

fn main(rt: HostRuntime) -> ExitCode {
    match measure(&rt, rt.stderr()) {
        Ok(()) => ExitCode::from(0),
        Err(_) => ExitCode::from(1),
    }
}

/// Does what the words behind the program's name say.
fn measure<R: Files + Env + Print + Processes + AllocGlobal>(
    rt: &R,
    prints: Stderr,
) -> io::Result<()> {
    let words: Vec<String> = env::args(rt)?.skip(1).collect(rt.alloc())?;
    match words.as_slice() {
        [mode, count, study, results, point @ ..] if mode.as_str() == "texts" => {
            let results = fs::read(rt, results.as_str())?;
            let point = point_of(rt.alloc(), point)?;
            let study = study_of(rt, study.as_str(), &point)?;
            measure_texts(rt, &study, &point, count_of(count)?, &results)
        }
        [mode, count, study, point @ ..] if mode.as_str() == "attempts" => {
            let point = point_of(rt.alloc(), point)?;
            let study = study_of(rt, study.as_str(), &point)?;
            let values = make_attempts(rt, prints, &study, &point, count_of(count)?)?;
            println!(rt; "{values} of {} with values", count.as_str())
        }
        _ => Err(ErrorKind::InvalidInput.into()),
    }
}

/// How often something is done.
fn count_of(word: &String) -> io::Result<u32> {
    match word.as_str().parse::<u32>() {
        Ok(count) => Ok(count),
        Err(_) => Err(ErrorKind::InvalidInput.into()),
    }
}

/// The decimals that words say.
fn point_of(alloc: Global, words: &[String]) -> io::Result<Vec<Dec>> {
    let mut point = Vec::new(alloc);
    for word in words {
        match Dec::read(word.as_str().as_bytes()) {
            Ok(number) => point.push(number)?,
            Err(_) => return Err(ErrorKind::InvalidInput.into()),
        }
    }
    Ok(point)
}

/// The study in a file, where it has as many variables as the point has numbers.
fn study_of<R: Files + AllocGlobal>(rt: &R, path: &str, point: &[Dec]) -> io::Result<Study>
    ensures sound { IfOk result IsSound }
    ensures width { IfOk result (λ study. length point.now ≡ length study.variables.labels) }
{
    let text = fs::read(rt, path)?;
    if text.len() > MOST_BYTES {
        return Err(ErrorKind::InvalidData.into());
    }
    match read_study(rt.alloc(), &text) {
        Ok(study) if study.variables.labels.items().len() == point.len() => Ok(study),
        _ => Err(ErrorKind::InvalidData.into()),
    }
}
