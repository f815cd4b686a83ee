//! A run of a study, from the words of the command line and the bytes of a study to the bytes of the table and of
//! the summary, over a restart file.
#![tactic(auto)]

mod accept;
mod benches;
mod checks;
mod over_file;
mod refusal;
mod run;
mod status;
#[cfg(test)]
mod tests;

pub use checks::check;
pub use dk_fork::{BenchFault, BenchStep};
pub use dk_journal::OpenFault;
pub use dk_lex::Span;
pub use dk_reader::{StudyFault, StudyKind};
pub use dk_words::{Command, CommandFault, Purpose, command, mode_of};
pub use refusal::{usage, write_line};
pub use run::{Ended, dakota};
pub use status::{Status, Which};
