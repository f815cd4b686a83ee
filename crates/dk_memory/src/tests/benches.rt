//! A bench in memory and a child on it.
ghost use Rattle.std.specs.Prelude.{◌≡◌, ◌⊎◌, ◌<◌, ◌≤◌, ℕ, List, take, length, Option, Some, None};
ghost use Rattle.dk_memory.specs.Files.{left_of, IsWithin};

use crate::{Child, Left, MemBench};
use dk_outside::{Bench, Call, Failed, Fetched, Text, Words};
use std::alloc::{AllocError, Global};
use std::test::Fail;

/// Leaves as many bytes of its parameters as the attempt's number says, and nothing from the fourth attempt on.
#[derive(Drop)]
struct Front;

impl Child for Front {
    ghost use Rattle.std.specs.Prelude.{◌≡◌, ◌⊎◌, ◌<◌, take, Some, None};

    ghost leaves = { λ parameters attempt left. (left ≡ Some (take attempt parameters)) ⊎ ((3 < attempt) × (left ≡ None)) };

    fn leave(&self, parameters: &[u8], attempt: u32, buf: &mut [u8]) -> Left {
        if attempt > 3 {
            return Left::Nothing;
        }
        let count = parameters.len().min(attempt as usize);
        buf[..count].copy_from_slice(&parameters[..count]);
        Left::Bytes(count)
    }
}

/// Runs the child over the parameters file, where it is there.
fn run<F: Child>(bench: &mut MemBench<F>, driver: &Words, attempt: u32) -> Result<(), Failed> {
    if bench.file("p").is_none() {
        return Err(Failed);
    }
    bench.run(&Call {
        driver,
        parameters: "p",
        results: "r",
        attempt,
    })
}

fn driver(alloc: Global) -> Result<Words, AllocError> {
    Words::of(alloc, &[Text::of(alloc, "sim")?])
}

/// A child leaves its bytes in place of a results file, or leaves that as it stood, and each run is kept.
#[test]
fn a_bench_runs_children(rt: HostRuntime) -> Result<(), Fail> {
    let driver = driver(rt.alloc())?;
    let mut bench = MemBench::bench(rt.alloc(), Front, &[])?;
    let mut buf = [0u8; 4];
    assert_eq!(rt; bench.clear("r"), Ok(()));
    assert_eq!(rt; bench.lay("p", b"abcde"), Ok(()));
    assert_eq!(rt; bench.lay("r", b"stale"), Ok(()));
    assert_eq!(rt; run(&mut bench, &driver, 4), Ok(()));
    assert_eq!(rt; bench.fetch("r", &mut buf), Ok(Fetched::TooLong));
    assert_eq!(rt; run(&mut bench, &driver, 2), Ok(()));
    assert_eq!(rt; bench.fetch("r", &mut buf), Ok(Fetched::Bytes(2)));
    assert_eq!(rt; buf, *b"ab\0\0");
    assert_eq!(rt; bench.clear("r"), Ok(()));
    assert_eq!(rt; bench.lay("p", b"xy"), Ok(()));
    assert_eq!(rt; run(&mut bench, &driver, 4), Ok(()));
    assert_eq!(rt; bench.fetch("r", &mut buf), Ok(Fetched::Absent));
    assert_eq!(rt; bench.file("p"), Some(b"xy".as_slice()));
    let runs: [(&[u8], u32); 3] = [(b"abcde", 4), (b"abcde", 2), (b"xy", 4)];
    assert_eq!(rt; bench.runs().len(), runs.len());
    for (run, (bytes, attempt)) in bench.runs().iter().zip(runs) {
        assert_eq!(rt; run.driver.items().len(), 1);
        assert_eq!(rt; run.parameters.as_str(), "p");
        assert_eq!(rt; run.results.as_str(), "r");
        assert_eq!(rt; run.bytes.items(), bytes);
        assert_eq!(rt; run.attempt, attempt);
    }
    assert_eq!(rt; bench.refused(), 0);
    Ok(())
}

/// Each of the four calls fails at its number and changes nothing.
#[test]
fn a_bench_fails_as_told(rt: HostRuntime) -> Result<(), Fail> {
    let driver = driver(rt.alloc())?;
    let mut bench = MemBench::bench(rt.alloc(), Front, &[1, 3, 5, 7])?;
    let mut buf = [0u8; 4];
    assert_eq!(rt; bench.lay("p", b"abcde"), Err(Failed));
    assert_eq!(rt; bench.file("p"), None);
    assert_eq!(rt; bench.lay("p", b"abcde"), Ok(()));
    assert_eq!(rt; run(&mut bench, &driver, 1), Err(Failed));
    assert_eq!(rt; bench.runs().len(), 0);
    assert_eq!(rt; run(&mut bench, &driver, 1), Ok(()));
    assert_eq!(rt; bench.fetch("r", &mut buf), Err(Failed));
    assert_eq!(rt; bench.fetch("r", &mut buf), Ok(Fetched::Bytes(1)));
    assert_eq!(rt; bench.clear("r"), Err(Failed));
    assert_eq!(rt; bench.file("r"), Some(b"a".as_slice()));
    assert_eq!(rt; bench.clear("r"), Ok(()));
    assert_eq!(rt; bench.file("r"), None);
    assert_eq!(rt; bench.runs().len(), 1);
    Ok(())
}
