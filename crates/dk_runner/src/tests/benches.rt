// Benches in memory, and a simulation that runs on them.
ghost use Rattle.std.specs.Prelude.{◌≤◌, length, IfOk};
ghost use Rattle.std.specs.List.{All};
ghost use Rattle.dk_outside.specs.Causes.{Rose};
ghost use Rattle.dk_runner.specs.Outsides.{AllGoTogether};

use dk_memory::{Child, Left, MemBench};
use dk_outside::{Bench, Failed};
use std::alloc::{AllocError, Global};

/// How many benches a run is handed.
const BENCHES: usize = 64;

/// Where the parameters file has a text, from an attempt on, a simulation leaves these results.
#[derive(Clone, Copy)]
pub struct Answer(pub &'static str, pub u32, pub &'static [u8]);

/// A simulation that leaves what the first answer says that serves; nothing where none does.
#[derive(Clone, Copy)]
pub struct Simulation {
    pub answers: &'static [Answer],
}

impl Child for Simulation {
    ghost leaves = { λ parameters attempt left. Unit {0} };

    fn leave(&self, parameters: &[u8], attempt: u32, buf: &mut [u8]) -> Left {
        let Ok(text) = str::from_utf8(parameters) else {
            return Left::Nothing;
        };
        for Answer(parameters, from, results) in self.answers {
            if *from <= attempt && text.contains(*parameters) {
                let count = results.len().min(buf.len());
                buf[..count].copy_from_slice(&results[..count]);
                return Left::Bytes(count);
            }
        }
        Left::Nothing
    }
}

/// For studies without one.
pub const NO_SIMULATION: Simulation = Simulation { answers: &[] };

/// As many benches as a run is handed, on which a simulation runs. The calls of these numbers of the first fail.
pub fn benches_of(
    alloc: Global,
    simulation: Simulation,
    fail: &[u64],
) -> Result<Vec<MemBench<Simulation>>, AllocError>
    ensures count { IfOk result (λ benches. 64 ≤ length benches.items) }
    ensures together { IfOk result (λ benches. All (λ bench. AllGoTogether (⟦<MemBench<Simulation> as Bench>⟧.together bench)) benches.items) }
{
    let mut benches = Vec::with_capacity(alloc, BENCHES)?;
    benches.push(MemBench::bench(alloc, simulation, fail)?)?;
    while benches.len() < BENCHES {
        benches.push(MemBench::bench(alloc, simulation, &[])?)?;
    }
    Ok(benches)
}

/// Counts a fault.
pub fn fail(faults: &mut u64) -> Failed
    ensures rose { Rose faults.old faults.new }
    ensures later { faults.old ≤ faults.new }
{
    *faults = faults.saturating_add(1);
    Failed
}
