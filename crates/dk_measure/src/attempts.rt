// Attempts on the current folder's bench.
ghost use Rattle.std.specs.Prelude.{◌≡◌, ◌≤◌, length, IfOk};
ghost use Rattle.dk_types.specs.Sound.{IsSound};

use dk_fork::{Job, Station};
use dk_num::Dec;
use dk_outside::Bench;
use dk_real::ChildBench;
use dk_results::Reading;
use dk_types::Study;
use std::io;
use std::io::ErrorKind;
use std::process::Processes;
use std::rt::{Files, Stderr};

/// Makes so many attempts at a point, each of a row of its own, and answers how often there were values.
pub fn make_attempts<R: Files + Processes + AllocGlobal>(
    rt: &R,
    prints: Stderr,
    study: &Study,
    point: &[Dec],
    count: u32,
) -> io::Result<u32>
    requires sound { IsSound study.now }
    requires width { length point.now ≡ length study.now.variables.labels }
{
    let bench = ChildBench::new(rt, prints, "", "");
    match Station::station(rt.alloc(), bench, 0, study) {
        Ok(mut station) => attempt_rows(&mut station, point, count),
        Err(_) => Err(ErrorKind::OutOfMemory.into()),
    }
}

/// Makes an attempt of each of the rows 1 to COUNT.
fn attempt_rows<B: Bench>(station: &mut Station<B>, point: &[Dec], count: u32) -> io::Result<u32>
    requires { length point.now ≡ length station.old.task.variables }
{
    let mut read = 0u32;
    for place in 0..count {
        let job = Job {
            row: place + 1,
            attempt: 1,
        };
        match station.attempt(&job, point) {
            Ok(Reading::Values) => read = read.saturating_add(1),
            Ok(Reading::Failed) => {}
            Err(_) => return Err(ErrorKind::Other.into()),
        }
    }
    Ok(read)
}
