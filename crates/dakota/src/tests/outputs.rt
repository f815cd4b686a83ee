// Standard outputs in memory, and one that is closed.
use dk_outside::{Failed, Sink};
use dk_real::fault;
use std::alloc::Global;
use std::fmt::Display;
use std::io;

/// Keeps what is printed.
#[derive(Drop)]
pub struct Page {
    text: Vec<u8>,
    faults: u64,
}

impl Page {
    pub fn new(alloc: Global) -> Page {
        Page {
            text: Vec::new(alloc),
            faults: 0,
        }
    }

    pub fn text(&self) -> &[u8] {
        &self.text
    }
}

impl Sink for Page {
    ghost use Rattle.std.specs.Prelude.{None};

    ghost held = { λ _. None };

    ghost faults = { λ page. page.faults };

    fn begin(&mut self, _name: &str) -> Result<(), Failed> {
        Err(fault(&mut self.faults))
    }

    fn write(&mut self, piece: &[u8]) -> Result<usize, Failed> {
        match self.text.extend_from_slice(piece) {
            Ok(()) => Ok(piece.len()),
            Err(_) => Err(fault(&mut self.faults)),
        }
    }
}

/// A standard output that is closed: nothing can be printed.
pub struct Closed;

impl Print for Closed {
    fn print<D: Display + Drop>(&self, _value: D) -> io::Result<()> {
        Err(io::Error::from(io::ErrorKind::BrokenPipe))
    }

    fn println<D: Display + Drop>(&self, _value: D) -> io::Result<()> {
        Err(io::Error::from(io::ErrorKind::BrokenPipe))
    }

    fn write_all(&self, _bytes: &[u8]) -> io::Result<()> {
        Err(io::Error::from(io::ErrorKind::BrokenPipe))
    }
}
