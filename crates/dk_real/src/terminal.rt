// Standard output.
ghost use Rattle.std.specs.Prelude.{◌≡◌, IsErr};
ghost use Rattle.dk_outside.specs.Causes.{HasCause};
ghost use Rattle.dk_outside.specs.Sinks.{Begins};

use crate::faults::{fault, write_to};
use dk_outside::{Failed, Sink};
use std::io;

/// Standard output, which can't be begun anew.
#[derive(Drop)]
pub struct OutSink<'a, P: Print> {
    print: &'a P,
    faults: u64,
}

impl<'a, P: Print> OutSink<'a, P> {
    pub fn new(print: &'a P) -> OutSink<'a, P>
        ensures { result.faults ≡ 0 }
    {
        OutSink { print, faults: 0 }
    }
}

impl<P: Print> Sink for OutSink<'_, P> {
    ghost use Rattle.std.specs.Prelude.{None};

    ghost held = { λ _. None };

    ghost faults = { λ sink. sink.faults };

    fn begin(&mut self, _name: &str) -> Result<(), Failed>
        ensures fails { IsErr result }
        ensures begins { Begins None None result _name.now }
        ensures cause { HasCause self.old.faults self.new.faults result }
    {
        Err(fault(&mut self.faults))
    }

    fn write(&mut self, piece: &[u8]) -> Result<usize, Failed> {
        write_to(&mut Some(io::writer(self.print)), piece, &mut self.faults)
    }
}
