// A bench in memory.
ghost use Rattle.std.specs.Prelude.{◌≡◌, ◌⊎◌, ℕ, ◌≤◌, List, [], ◌∷◌, ◌++◌, length, vec_len, Option, option_map, Some, None, IfOk, IsSome, OnOk, OnErr};
ghost use Rattle.dk_outside.specs.Causes.{HasCause};
ghost use Rattle.dk_outside.specs.Benches.{Contents, Sets, Starts, start_of, IsFetched, IsAtMost};
ghost use Rattle.dk_memory.specs.Calls.{fresh, IsDue, IsCounted, IsCountedGrowth};
ghost use Rattle.dk_memory.specs.BenchStates.{contents, Ran};
ghost use Rattle.dk_memory.specs.Files.{look};
ghost use Rattle.dk_memory.specs.declared.bench.TheConstants.{LEFT_ROOM};

use crate::calls::Calls;
use crate::child::Child;
use crate::files::{File, find, put, put_left, remove};
use dk_outside::{Bench, Bytes, Call, Failed, Fetched, Run, Text};
use std::alloc::{AllocError, Global};
use std::marker::Model;

/// How many bytes a child may leave.
const LEFT_ROOM: usize = 65_537;

/// A bench in memory, on which such a child runs. It tells its files and the children that ran. It fails at the calls of
/// the given numbers, counted from 1, and where it finds no memory. A call that fails changes nothing.
#[derive(Drop)]
pub struct MemBench<F> {
    alloc: Global,
    child: F,
    files: Vec<File>,
    runs: Vec<Run>,
    left: Vec<u8>,
    calls: Calls,
}

impl<F> Model for MemBench<F> {
    ghost use Rattle.std.specs.Prelude.{◌≤◌, vec_len};
    ghost use Rattle.dk_memory.specs.BenchStates.{BenchState};
    ghost use Rattle.dk_memory.specs.declared.bench.TheConstants.{LEFT_ROOM};

    ghost Value = { BenchState };

    ghost view = { λ b. record { files = b.files.items; runs = b.runs.items; calls = b.calls } };

    ghost invariant = { λ b. LEFT_ROOM ≤ vec_len b.left };
}

impl<F: Child> MemBench<F> {
    /// A bench without files, on which no child ran. The calls of these numbers fail.
    pub fn bench(alloc: Global, child: F, fail: &[u64]) -> Result<MemBench<F>, AllocError>
        ensures { IfOk result (λ bench. bench ≡ record { files = []; runs = []; calls = fresh fail.now None }) }
    {
        Ok(MemBench {
            alloc,
            child,
            files: Vec::new(alloc),
            runs: Vec::new(alloc),
            left: room(alloc)?,
            calls: Calls::of(fail.to_vec(alloc)?, None),
        })
    }
}

impl<F> MemBench<F> {
    /// The children that ran, in order.
    pub fn runs(&self) -> &[Run]
        ensures { result.now ≡ self.now.runs }
    {
        &self.runs
    }

    /// The bytes of a file, where it is there.
    pub fn file(&self, name: &str) -> Option<&[u8]>
        ensures { option_map (λ bytes. bytes.now) result ≡ look self.now.files name.now }
    {
        find(&self.files, name)
    }

    /// How many calls failed for want of memory.
    pub fn refused(&self) -> u64
        ensures { result ≡ self.now.calls.refused }
    {
        self.calls.refused()
    }
}

/// Room for what a child leaves.
fn room(alloc: Global) -> Result<Vec<u8>, AllocError>
    ensures { IfOk result (λ left. LEFT_ROOM ≤ vec_len left) }
{
    vec![in alloc; 0; LEFT_ROOM]
}

/// The start of a child, kept.
fn started(alloc: Global, call: &Call<'_>, bytes: &[u8]) -> Result<Run, AllocError>
    ensures { IfOk result (λ run. run ≡ start_of call.now.driver.now call.now.parameters.now call.now.results.now bytes.now call.now.attempt) }
{
    Ok(Run {
        driver: call.driver.copy(alloc)?,
        parameters: Text::of(alloc, call.parameters)?,
        results: Text::of(alloc, call.results)?,
        bytes: Bytes::of(alloc, bytes)?,
        attempt: call.attempt,
    })
}

/// Runs a child over its parameters file, which is there, and keeps that it ran. For want of memory all stays.
fn run_child<F: Child>(
    alloc: Global,
    child: &F,
    files: &mut Vec<File>,
    runs: &mut Vec<Run>,
    buffer: &mut [u8],
    call: &Call<'_>,
) -> Result<(), AllocError>
    requires there { IsSome (look files.old.items call.now.parameters.now) }
    requires room { LEFT_ROOM ≤ length buffer.old }
    ensures ran { OnOk result ((bytes : List ℕ) → look files.old.items call.now.parameters.now ≡ Some bytes →
        Ran ⟦<F as Child>⟧.leaves (contents files.old.items runs.old.items) (contents files.new.items runs.new.items)
        (start_of call.now.driver.now call.now.parameters.now call.now.results.now bytes call.now.attempt)) }
    ensures files_stay { OnErr result (files.new.items ≡ files.old.items) }
    ensures runs_stay { OnErr result (runs.new.items ≡ runs.old.items) }
    ensures room { length buffer.new ≡ length buffer.old }
{
    let Some(bytes) = find(files, call.parameters) else {
        return Ok(());
    };
    let run = started(alloc, call, bytes)?;
    runs.reserve(1)?;
    let left = child.leave(bytes, call.attempt, buffer);
    put_left(alloc, files, call.results, left, buffer)?;
    let _ = runs.push(run);
    Ok(())
}

/// Puts a file's bytes in front of the buffer, where it has the room.
fn fetched(file: Option<&[u8]>, buf: &mut [u8]) -> Fetched
    ensures file { IsFetched (option_map (λ bytes. bytes.now) file.entry) result buf.new }
    ensures bound { IsAtMost result (length buf.new) }
{
    let Some(bytes) = file else {
        return Fetched::Absent;
    };
    if bytes.len() > buf.len() {
        return Fetched::TooLong;
    }
    buf[..bytes.len()].copy_from_slice(bytes);
    Fetched::Bytes(bytes.len())
}

impl<F: Child> Bench for MemBench<F> {
    ghost use Rattle.std.specs.Prelude.{Some};
    ghost use Rattle.dk_memory.specs.BenchStates.{contents};

    ghost held = { λ bench. Some (contents bench.files bench.runs) };

    ghost together = { λ _ parameters results. Unit {0} };

    ghost leaves = { F.leaves };

    ghost after = { λ old new. Unit {0} };

    ghost faults = { λ bench. bench.calls.faults };

    ghost after_itself = { λ bench. tt };

    ghost after_both = { λ first second third one other. tt };

    ghost stays_silent = { λ old new after silent. cc };

    ghost stay_together = { λ old new parameters results after one. tt };

    fn clear(&mut self, name: &str) -> Result<(), Failed>
        ensures clears { Sets (contents self.old.files self.old.runs) (Some (contents self.new.files self.new.runs)) name.now None result }
        ensures cause { HasCause self.old.calls.faults self.new.calls.faults result }
        ensures counted { IsCounted self.old.calls self.new.calls (IsDue self.old.calls self.new.calls.made) result }
        ensures stays { OnErr result ((self.new.files ≡ self.old.files) × (self.new.runs ≡ self.old.runs)) }
    {
        if self.calls.is_due() {
            return Err(self.calls.fail());
        }
        remove(&mut self.files, name);
        Ok(())
    }

    fn lay(&mut self, name: &str, bytes: &[u8]) -> Result<(), Failed>
        ensures lays { Sets (contents self.old.files self.old.runs) (Some (contents self.new.files self.new.runs)) name.now (Some bytes.now) result }
        ensures cause { HasCause self.old.calls.faults self.new.calls.faults result }
        ensures counted { IsCountedGrowth self.old.calls self.new.calls (IsDue self.old.calls self.new.calls.made) result }
        ensures stays { OnErr result ((self.new.files ≡ self.old.files) × (self.new.runs ≡ self.old.runs)) }
    {
        if self.calls.is_due() {
            return Err(self.calls.fail());
        }
        match put(self.alloc, &mut self.files, name, bytes) {
            Ok(()) => Ok(()),
            Err(_) => Err(self.calls.refuse()),
        }
    }

    fn run(&mut self, call: &Call<'_>) -> Result<(), Failed>
        requires there { IsSome (look self.old.files call.now.parameters.now) }
        ensures runs { (bytes : List ℕ) → look self.old.files call.now.parameters.now ≡ Some bytes →
            Starts ⟦<F as Child>⟧.leaves (contents self.old.files self.old.runs) (Some (contents self.new.files self.new.runs))
            (start_of call.now.driver.now call.now.parameters.now call.now.results.now bytes call.now.attempt) result }
        ensures cause { HasCause self.old.calls.faults self.new.calls.faults result }
        ensures ran { OnOk result ((bytes : List ℕ) → look self.old.files call.now.parameters.now ≡ Some bytes →
            Ran ⟦<F as Child>⟧.leaves (contents self.old.files self.old.runs) (contents self.new.files self.new.runs)
            (start_of call.now.driver.now call.now.parameters.now call.now.results.now bytes call.now.attempt)) }
        ensures counted { IsCountedGrowth self.old.calls self.new.calls (IsDue self.old.calls self.new.calls.made) result }
        ensures stays { OnErr result ((self.new.files ≡ self.old.files) × (self.new.runs ≡ self.old.runs)) }
    {
        if self.calls.is_due() {
            return Err(self.calls.fail());
        }
        match run_child(
            self.alloc,
            &self.child,
            &mut self.files,
            &mut self.runs,
            &mut self.left,
            call,
        ) {
            Ok(()) => Ok(()),
            Err(_) => Err(self.calls.refuse()),
        }
    }

    fn fetch(&mut self, name: &str, buf: &mut [u8]) -> Result<Fetched, Failed>
        ensures stays { (self.new.files ≡ self.old.files) × (self.new.runs ≡ self.old.runs) }
        ensures file { IfOk result (λ fetched. IsFetched (look self.old.files name.now) fetched buf.new) }
        ensures bound { IfOk result (λ fetched. IsAtMost fetched (length buf.new)) }
        ensures cause { HasCause self.old.calls.faults self.new.calls.faults result }
        ensures counted { IsCounted self.old.calls self.new.calls (IsDue self.old.calls self.new.calls.made) result }
    {
        if self.calls.is_due() {
            return Err(self.calls.fail());
        }
        Ok(fetched(find(&self.files, name), buf))
    }
}
