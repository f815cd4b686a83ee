// Why a restart file wasn't opened, and why an entry wasn't appended.
use dk_types::Shape;
use thiserror::Error;

/// Why a restart file wasn't opened, and why an entry wasn't appended.
#[derive(Clone, Copy, Debug, PartialEq, Eq, Error)]
pub enum AppendFault {
    /// The disk failed.
    #[error("Disk")]
    Disk,
    /// With its record the file would have this length in bytes, more than it may.
    #[error("Full (length {length})")]
    Full { length: u64 },
}

/// Why a restart file wasn't opened. The tests are made in the order of `TooLarge`, `NotEmpty`, `NotARestart`,
/// `OtherShape`, `Damaged`, and the first that fails is told. Nothing was written then, nor where there was no memory.
#[derive(Debug, Drop, Error)]
pub enum OpenFault {
    /// The file isn't empty, though there was to be none: it has so many bytes.
    #[error("NotEmpty (length {length})")]
    NotEmpty { length: u64 },
    /// No header stands behind the first byte.
    #[error("NotARestart")]
    NotARestart,
    /// The header has other labels than those wanted.
    #[error("OtherShape")]
    OtherShape { stored: Shape, wanted: Shape },
    /// At this byte, counted from 0, where the gate of a record or the end gate is due, the file ends, or an open gate
    /// is followed by no record of an attempt that may come next.
    #[error("Damaged (offset {offset})")]
    Damaged { offset: u64 },
    /// The file has so many bytes, more than it may.
    #[error("TooLarge (length {length})")]
    TooLarge { length: u64 },
    /// The disk failed.
    #[error("Disk")]
    Disk,
    /// There was no memory.
    #[error("NoMemory")]
    NoMemory,
}
