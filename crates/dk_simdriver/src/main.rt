//! A small simulation, for studies over children and for the manual: Rosenbrock's function, which fails as its words say.
//!
//!     dk_simdriver rosenbrock PARAMETERS RESULTS
//!     dk_simdriver fail N PARAMETERS RESULTS
//!     dk_simdriver flaky K PARAMETERS RESULTS
//!
//! It reads a parameters file of the standard form and writes a results file, or prints the results where RESULTS is `-`.
//! `rosenbrock` leaves the value and the response's label, or `FAIL` where there is no value. `fail N` does so too, but leaves
//! `FAIL` for evaluation N. `flaky K` leaves `FAIL` at its first K calls, which it counts in the file RESULTS.count, and does as
//! `rosenbrock` afterwards. It ends with 0, or with 1 where the words or the files are others.
#![tactic(auto)]

mod mode;
mod parameters;
#[cfg(test)]
mod tests;

use crate::mode::{Mode, Words, words_of};
use crate::parameters::{Parameters, read_parameters};
use dk_num::rosenbrock;
use std::io::ErrorKind;
use std::process::ExitCode;
use std::rt::{Env, Files};
use std::{env, fs, io};

const FAILED: &str = "FAIL\n";

fn main(rt: HostRuntime) -> ExitCode {
    match simulate(&rt) {
        Ok(()) => ExitCode::from(0),
        Err(_) => ExitCode::from(1),
    }
}

/// Does what the words behind the program's name say.
fn simulate<R: Files + Env + Print + AllocGlobal>(rt: &R) -> io::Result<()> {
    let words: Vec<String> = env::args(rt)?.skip(1).collect(rt.alloc())?;
    run(rt, &words)
}

/// Reads the parameters, and leaves the results.
fn run<R: Files + Print + AllocGlobal>(rt: &R, words: &[String]) -> io::Result<()> {
    let Some(words) = words_of(words) else {
        return Err(ErrorKind::InvalidInput.into());
    };
    let text = fs::read_to_string(rt, words.parameters)?;
    let Some(parameters) = read_parameters(text.as_str()) else {
        return Err(ErrorKind::InvalidData.into());
    };
    let results = if fails(rt, &words, &parameters)? {
        String::from_str(rt.alloc(), FAILED)?
    } else {
        results_of(rt, &parameters)?
    };
    if words.results == "-" {
        rt.write_all(results.as_bytes())
    } else {
        fs::write(rt, words.results, results.as_str())
    }
}

/// Whether the mode makes this call fail.
fn fails<R: Files + AllocGlobal>(
    rt: &R,
    words: &Words<'_>,
    parameters: &Parameters<'_>,
) -> io::Result<bool> {
    match words.mode {
        Mode::Rosenbrock => Ok(false),
        Mode::Fail { evaluation } => Ok(parameters.evaluation == evaluation),
        Mode::Flaky { calls } => Ok(count_call(rt, words.results)? <= calls),
    }
}

/// The number of this call, counted from 1 in a file beside the results.
fn count_call<R: Files + AllocGlobal>(rt: &R, results: &str) -> io::Result<u32> {
    let name = format!(in rt.alloc(); "{results}.count")?;
    let before = match fs::read_to_string(rt, name.as_str()) {
        Ok(text) => text.as_str().trim().parse::<u32>().unwrap_or(0),
        Err(error) if error.kind() == ErrorKind::NotFound => 0,
        Err(error) => return Err(error),
    };
    let number = before.saturating_add(1);
    let text = format!(in rt.alloc(); "{number}\n")?;
    fs::write(rt, name.as_str(), text.as_str())?;
    Ok(number)
}

/// The line of the value, or of a failure where there is none.
fn results_of<R: AllocGlobal>(rt: &R, parameters: &Parameters<'_>) -> io::Result<String> {
    let mut out = [0u8; 64];
    match rosenbrock(parameters.x1, parameters.x2) {
        Some(value) => {
            let length = value.sci_text(&mut out);
            let text = str::from_utf8(&out[..length]).unwrap_or("FAIL");
            Ok(format!(in rt.alloc(); "{text} {}\n", parameters.label)?)
        }
        None => Ok(String::from_str(rt.alloc(), FAILED)?),
    }
}
