// Why a text says no study.
use dk_lex::Span;
use std::alloc::AllocError;
use std::fmt;
use thiserror::Error;

/// The kinds of faults of a study's text.
#[derive(Clone, Copy, Debug, PartialEq, Eq)]
pub enum StudyKind {
    /// The text has more than 1,048,576 bytes. `read_study` never answers it.
    TooLong,
    /// A string isn't closed in its line.
    OpenString,
    /// A byte stands where it may not.
    BadByte,
    /// A word is no keyword.
    UnknownKeyword,
    /// A word, a number of drivers or a driver of Dakota's that is refused here.
    Unsupported,
    /// A block, or a keyword of its block, stands for the second time.
    Repeated,
    /// A keyword stands outside a block that has it, or a value behind no keyword that takes such values.
    Misplaced,
    /// A block that each study has isn't there.
    MissingBlock,
    /// The keyword needs another one, or the block one of its keywords, that isn't there.
    Missing,
    /// The keyword or value doesn't go together with one before it.
    Conflict,
    /// The keyword has too many values or too few.
    WrongCount,
    /// The value is no number, or none that its keyword takes.
    BadNumber,
    /// The value is no whole number in its keyword's range.
    BadWhole,
    /// The string is no label, or no name of a file.
    BadLabel,
    /// An initial value lies outside its bounds.
    OutsideBounds,
    /// The keyword has more than 4,000,000 values, or the study too many evaluations.
    TooMany,
    /// The number is no whole multiple of the study's unit.
    OffGrid,
}

impl fmt::Display for StudyKind {
    /// The name of the kind.
    fn fmt<W: fmt::Write>(&self, f: &mut fmt::Formatter<W>) -> fmt::Result {
        write!(f, "{self:?}")
    }
}

impl std::error::Error for StudyKind {}

/// A fault and the bytes of the text at which it stands.
#[derive(Clone, Copy, Debug, PartialEq, Eq, Error)]
#[error("study refused: {kind} at bytes {}..{}", .span.from, .span.to)]
pub struct StudyFault {
    pub kind: StudyKind,
    pub span: Span,
}

/// Why no study was read.
#[derive(Clone, Copy, Debug, PartialEq, Eq, Error)]
pub enum ReadRefusal {
    /// The text's first fault.
    #[error("{0}")]
    Study(StudyFault),
    /// There was no memory, which says nothing of the text.
    #[error("out of memory")]
    NoMemory,
}

impl From<AllocError> for ReadRefusal {
    ghost use Rattle.std.specs.Prelude.{◌≡◌};
    ghost use Rattle.dk_reader.specs.declared.fault.ReadRefusal.TheVariants.{NoMemory};

    ghost from_gives = { λ _ refusal. refusal ≡ NoMemory };

    fn from(_error: AllocError) -> ReadRefusal {
        ReadRefusal::NoMemory
    }
}
