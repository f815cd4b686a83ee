// A sink in memory.
ghost use Rattle.std.specs.Prelude.{◌≡◌, ◌⊎◌, ◌+◌, ◌<◌, ◌≤◌, [], length, min, option_map, IfOk, MatchResult, Some, None};
ghost use Rattle.dk_outside.specs.Causes.{HasCause};
ghost use Rattle.dk_outside.specs.Sinks.{Begins, Takes};
ghost use Rattle.dk_memory.specs.Calls.{fresh, IsDue, IsCountedGrowth};

use crate::calls::Calls;
use dk_outside::{Failed, Sink, Text};
use std::alloc::{AllocError, Global};
use std::marker::Model;

/// A sink in memory. It takes a number of bytes in all, whatever is begun, and of each piece as many as there is room for;
/// where there is none it fails. It also fails at the calls of the given numbers, counted from 1, and where it finds no
/// memory.
#[derive(Drop)]
pub struct MemSink {
    alloc: Global,
    begun: Option<Text>,
    taken: Vec<u8>,
    room: usize,
    calls: Calls,
}

impl Model for MemSink {
    ghost use Rattle.dk_memory.specs.States.{SinkState};

    ghost Value = { SinkState };

    ghost view = { λ s. record { held = record { begun = s.begun; taken = s.taken.items }; room = s.room; calls = s.calls } };
}

impl MemSink {
    /// A sink that isn't begun and takes so many bytes, whose calls of these numbers fail.
    pub fn sink(alloc: Global, room: usize, fail: &[u64]) -> Result<MemSink, AllocError>
        ensures { IfOk result (λ sink. sink ≡ record { held = record { begun = None; taken = [] }; room = room; calls = fresh fail.now None }) }
    {
        Ok(MemSink {
            alloc,
            begun: None,
            taken: Vec::new(alloc),
            room,
            calls: Calls::of(fail.to_vec(alloc)?, None),
        })
    }

    /// The bytes taken since it was begun last.
    pub fn taken(&self) -> &[u8]
        ensures { result.now ≡ self.now.held.taken }
    {
        &self.taken
    }

    /// The name that it was begun with last.
    pub fn begun(&self) -> Option<&str>
        ensures { option_map (λ name. name.now) result ≡ self.now.held.begun }
    {
        self.begun.as_ref().map(|name| name.as_str())
    }

    /// How many calls failed for want of memory.
    pub fn refused(&self) -> u64
        ensures { result ≡ self.now.calls.refused }
    {
        self.calls.refused()
    }
}

impl Sink for MemSink {
    ghost use Rattle.std.specs.Prelude.{Some};

    ghost held = { λ sink. Some sink.held };

    ghost faults = { λ sink. sink.calls.faults };

    fn begin(&mut self, name: &str) -> Result<(), Failed>
        ensures begins { Begins (Some self.old.held) (Some self.new.held) result name.now }
        ensures cause { HasCause self.old.calls.faults self.new.calls.faults result }
        ensures room { self.new.room ≡ self.old.room }
        ensures counted { IsCountedGrowth self.old.calls self.new.calls (IsDue self.old.calls self.new.calls.made) result }
    {
        if self.calls.is_due() {
            return Err(self.calls.fail());
        }
        match Text::of(self.alloc, name) {
            Ok(name) => {
                self.begun = Some(name);
                self.taken.clear();
                Ok(())
            }
            Err(_) => Err(self.calls.refuse()),
        }
    }

    fn write(&mut self, piece: &[u8]) -> Result<usize, Failed>
        requires { 0 < length piece.now }
        ensures bound { IfOk result (λ n. n ≤ length piece.now) }
        ensures some { IfOk result (λ n. 0 < n) }
        ensures bytes { Takes (Some self.old.held) (Some self.new.held) result piece.now }
        ensures cause { HasCause self.old.calls.faults self.new.calls.faults result }
        ensures takes_all { IfOk result (λ n. n ≡ min (length piece.now) self.old.room) }
        ensures room { MatchResult result (λ n. self.new.room + n ≡ self.old.room) (λ failed. self.new.room ≡ self.old.room) }
        ensures counted { IsCountedGrowth self.old.calls self.new.calls (IsDue self.old.calls self.new.calls.made ⊎ (self.old.room ≡ 0)) result }
    {
        if self.calls.is_due() || self.room == 0 {
            return Err(self.calls.fail());
        }
        let count = piece.len().min(self.room);
        match self.taken.extend_from_slice(&piece[..count]) {
            Ok(()) => {
                self.room -= count;
                Ok(count)
            }
            Err(_) => Err(self.calls.refuse()),
        }
    }
}
