//! Attempts of a study on a bench in memory.
ghost use Rattle.std.specs.Prelude.{◌≡◌, length};

mod child;

use crate::{BenchFault, BenchStep, Job, Station};
use child::{Gives, Simulated};
use dk_memory::MemBench;
use dk_num::Dec;
use dk_outside::Bench;
use dk_reader::read_study;
use dk_results::Reading;
use std::alloc::{AllocError, Global};
use std::process::Abort;
use std::test::Fail;

const SLOT: u32 = 3;

const JOB: Job = Job { row: 7, attempt: 2 };

/// What came of an attempt: its reading, its values then, and its bench.
#[derive(Drop)]
struct Made {
    reading: Result<Reading, BenchFault>,
    values: Vec<Dec>,
    bench: MemBench<Simulated>,
}

/// An attempt at (0.5, 0.5) of a study whose interface has these words, on a bench that has a results file of before, where
/// the calls of these numbers fail.
fn attempt(
    rt: &impl Abort,
    alloc: Global,
    interface: &str,
    gives: Gives,
    fail: &[u64],
) -> Result<Made, Fail> {
    let text = format!(in alloc;
        "method vector_parameter_study num_steps = 2 step_vector = 0.5 0.5
        variables continuous_design = 2 descriptors = 'x1' 'x2'
        interface analysis_drivers = {interface}
        responses objective_functions = 1"
    )?;
    assert!(rt; text.as_str().len() < 1000);
    let study = read_study(alloc, text.as_bytes())?;
    assert_eq!(rt; study.variables.labels.items().len(), 2);
    let mut bench = MemBench::bench(alloc, Simulated { gives }, fail)?;
    let _ = bench.lay("results.out", b"1\n");
    match Station::station(alloc, bench, SLOT, &study) {
        Ok(station) => attempt_half(station, alloc),
        Err((AllocError, _)) => Err(AllocError.into()),
    }
}

/// An attempt at (0.5, 0.5) at a station for two variables.
fn attempt_half(mut station: Station<MemBench<Simulated>>, alloc: Global) -> Result<Made, Fail>
    requires { length station.task.variables ≡ 2 }
{
    let half = Dec::read(b"0.5")?;
    let reading = station.attempt(&JOB, &[half, half]);
    let values = Vec::from_slice(alloc, station.values())?;
    Ok(Made {
        reading,
        values,
        bench: station.give_back(),
    })
}

/// A reading is what the child left, and never what stood there before.
#[test]
fn results_are_the_childs(rt: HostRuntime) -> Result<(), Fail> {
    let cases = [
        (Gives::Value, Reading::Values),
        (Gives::Failure, Reading::Failed),
        (Gives::Nothing, Reading::Failed),
        (Gives::TooMuch, Reading::Failed),
    ];
    for (gives, reading) in cases {
        let made = attempt(&rt, rt.alloc(), "'sim -v' fork", gives, &[])?;
        assert_eq!(rt; made.reading, Ok(reading), "{gives:?}");
        assert_eq!(rt; made.bench.runs().len(), 1);
        assert!(rt; made.bench.file("params.in").is_none());
        assert!(rt; made.bench.file("results.out").is_none());
        if reading == Reading::Values {
            assert_eq!(rt; made.values.as_slice(), [Dec::read(b"6.5")?].as_slice());
        }
    }
    Ok(())
}

/// The words, the names of files and whether they stand then, by what the interface says.
#[test]
fn files_are_named_and_kept_as_the_study_says(rt: HostRuntime) -> Result<(), Fail> {
    let cases = [
        ("'sim' fork", "params.in", "results.out", false),
        ("'sim' fork file_save", "params.in", "results.out", true),
        (
            "'sim' fork file_tag file_save parameters_file = 'p'",
            "p.7",
            "results.out.7",
            true,
        ),
        (
            "'sim' fork asynchronous evaluation_concurrency = 2 results_file = 'r'",
            "params.in.7",
            "r.7",
            false,
        ),
    ];
    for (interface, parameters, results, saved) in cases {
        let made = attempt(&rt, rt.alloc(), interface, Gives::Value, &[])?;
        assert_eq!(rt; made.reading, Ok(Reading::Values));
        let [run] = made.bench.runs() else {
            assert!(rt; false);
            continue;
        };
        assert_eq!(rt; run.parameters.as_str(), parameters);
        assert_eq!(rt; run.results.as_str(), results);
        assert_eq!(rt; run.attempt, 2);
        assert!(rt; run.bytes.items().ends_with(b" 7 eval_id\n"));
        assert_eq!(rt; made.bench.file(parameters).is_some(), saved);
        assert_eq!(rt;
            made.bench
                .file(results)
                .is_some_and(|bytes| bytes == b"6.5 obj_fn\n".as_slice()),
            saved
        );
    }
    Ok(())
}

/// Each call of an attempt fails once, behind the one that laid an older results file.
#[test]
fn a_fault_names_its_call(rt: HostRuntime) -> Result<(), Fail> {
    let cases = [
        (2, BenchStep::ClearBefore, 0),
        (3, BenchStep::Lay, 0),
        (4, BenchStep::Run, 0),
        (5, BenchStep::Fetch, 1),
        (6, BenchStep::ClearAfter, 1),
        (7, BenchStep::ClearAfter, 1),
    ];
    for (call, step, runs) in cases {
        let made = attempt(&rt, rt.alloc(), "'sim' fork", Gives::Value, &[call])?;
        assert_eq!(rt; made.reading, Err(BenchFault { slot: SLOT, step }));
        assert_eq!(rt; made.bench.runs().len(), runs);
        assert_eq!(rt;
            made.bench.file("results.out").is_some(),
            call != 3 && call != 4 && call != 7
        );
    }
    Ok(())
}

/// The program's own function is computed, and no bench is called.
#[test]
fn a_direct_driver_calls_no_bench(rt: HostRuntime) -> Result<(), Fail> {
    let made = attempt(&rt, rt.alloc(), "'rosenbrock' direct", Gives::Failure, &[2])?;
    assert_eq!(rt; made.reading, Ok(Reading::Values));
    assert_eq!(rt; made.values.as_slice(), [Dec::read(b"6.5")?].as_slice());
    assert_eq!(rt; made.bench.runs().len(), 0);
    Ok(())
}
