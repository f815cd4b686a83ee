// What the words of the command line command.
use dk_outside::{Mode, Text};
use thiserror::Error;

/// What the program is to do.
#[derive(Debug, Drop)]
pub enum Command {
    /// Evaluate the study of the file `input`, with the restart file `restart`.
    Run {
        input: Text,
        restart: Text,
        mode: Mode,
    },
    /// Read the study of a file, and evaluate nothing.
    Check {
        input: Text,
    },
}

/// Why words command nothing.
#[derive(Clone, Copy, Debug, PartialEq, Eq, Error)]
pub enum CommandFault {
    /// Their first fault stands at this place, counted from 1.
    #[error("usage: word {at}")]
    Usage { at: u32 },
    /// There was no memory, which says nothing of the words.
    #[error("out of memory")]
    NoMemory,
}
