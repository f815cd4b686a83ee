//! The adapters over the system: a file as a source, as a sink and as a disk, standard output as a sink, and the current folder
//! as a bench. Each counts its calls that failed. None tells what it holds.
#![tactic(auto)]

mod child_bench;
mod disk;
mod faults;
mod files;
mod opening;
mod terminal;
#[cfg(test)]
mod tests;

pub use child_bench::ChildBench;
pub use disk::FileDisk;
pub use faults::fault;
pub use files::{FileSink, FileSource};
pub use terminal::OutSink;
