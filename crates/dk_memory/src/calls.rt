// Which calls of an object in memory fail, and what it counts.
ghost use Rattle.std.specs.Prelude.{◌≡◌, ◌≤◌, ◌↔◌, IsTrue};
ghost use Rattle.dk_outside.specs.Causes.{Rose};
ghost use Rattle.dk_memory.specs.Calls.{fresh, called, failed, refused, IsDue};

use dk_outside::Failed;
use std::marker::Model;

/// The numbers of the calls that fail, from 1, and the number from which on every call fails. Counted are the calls,
/// those that failed, and of these the ones that found no memory. Each count stops at 2^64 - 1.
#[derive(Drop)]
pub struct Calls {
    fail: Vec<u64>,
    stop: Option<u64>,
    made: u64,
    faults: u64,
    refused: u64,
}

impl Model for Calls {
    ghost use Rattle.dk_memory.specs.Calls.{CallState};

    ghost Value = { CallState };

    ghost view = { λ c. record { fail = c.fail.items; stop = c.stop; made = c.made; faults = c.faults; refused = c.refused } };
}

impl Calls {
    /// No call was made so far.
    pub fn of(fail: Vec<u64>, stop: Option<u64>) -> Calls
        ensures { result ≡ fresh fail.items stop }
    {
        Calls {
            fail,
            stop,
            made: 0,
            faults: 0,
            refused: 0,
        }
    }

    /// Counts a call, and says whether it fails by its number.
    pub fn is_due(&mut self) -> bool
        ensures due { IsTrue result ↔ IsDue self.old self.new.made }
        ensures counts { self.new ≡ called self.old }
        ensures faults { self.new.faults ≡ self.old.faults }
    {
        self.made = self.made.saturating_add(1);
        let number = self.made;
        self.fail.contains(&number) || self.stop.is_some_and(|stop| stop <= number)
    }

    /// Counts a fault.
    pub fn fail(&mut self) -> Failed
        ensures counts { self.new ≡ failed self.old }
        ensures rose { Rose self.old.faults self.new.faults }
        ensures later { self.old.faults ≤ self.new.faults }
    {
        self.faults = self.faults.saturating_add(1);
        Failed
    }

    /// Counts a fault for want of memory.
    pub fn refuse(&mut self) -> Failed
        ensures counts { self.new ≡ refused self.old }
        ensures rose { Rose self.old.faults self.new.faults }
        ensures later { self.old.faults ≤ self.new.faults }
    {
        self.refused = self.refused.saturating_add(1);
        self.fail()
    }

    /// How many calls failed for want of memory.
    pub fn refused(&self) -> u64
        ensures { result ≡ self.now.refused }
    {
        self.refused
    }
}
