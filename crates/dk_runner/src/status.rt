// How a run ends.
use dk_fork::BenchFault;
use dk_journal::OpenFault;
use dk_reader::StudyFault;

/// One of the two sinks.
#[derive(Clone, Copy, Debug, PartialEq, Eq)]
pub enum Which {
    Table,
    Out,
}

/// How a run ended.
#[derive(Debug, Drop)]
pub enum Status {
    /// The study finished, and its table and summary are written.
    Finished,
    /// The study was aborted at an evaluation without a value, and its table and summary are written.
    Aborted,
    /// The words aren't those of a run. The first fault is at this place, counted from 1.
    Usage { at: u32 },
    /// The study's text is refused.
    StudyRefused(StudyFault),
    /// The study's text could not be read.
    SourceFault,
    /// The restart file isn't one that the study can go on with. It is as it was.
    RestartRefused(OpenFault),
    /// The restart file's disk failed, and the study isn't decided by what the file is known to hold.
    DiskFault,
    /// With the record that came next the restart file would have this length in bytes, more than 2^28. The study isn't
    /// decided.
    RestartFull { length: u64 },
    /// A call of a bench failed, in an attempt for which the study waits. The study isn't decided.
    BenchFault(BenchFault),
    /// The study was decided, and a sink failed while its text was written.
    SinkFault(Which),
    /// There was no memory.
    NoMemory,
}

impl Status {
    ghost use Rattle.std.specs.Prelude.{◌≡◌};
    ghost use Rattle.dk_runner.specs.Lines.{code};

    /// The exit status of the program.
    pub fn code(&self) -> u8
        ensures { result ≡ code self.now }
    {
        match self {
            Status::Finished => 0,
            Status::Aborted => 1,
            Status::Usage { at: _ } => 2,
            Status::StudyRefused(_) => 3,
            Status::SourceFault => 4,
            Status::RestartRefused(_) => 5,
            Status::DiskFault => 6,
            Status::RestartFull { length: _ } => 7,
            Status::BenchFault(_) => 8,
            Status::SinkFault(_) => 9,
            Status::NoMemory => 10,
        }
    }
}
