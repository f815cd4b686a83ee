//! The outside in memory, for tests and rehearsals. All that these objects hold is told, and their calls fail as a test
//! says.
#![tactic(auto)]

pub mod bench;
mod calls;
pub mod child;
pub mod disk;
mod event;
mod files;
pub mod image;
mod kept;
mod overwrite;
pub mod sink;
pub mod source;
#[cfg(test)]
mod tests;

pub use bench::MemBench;
pub use child::{Child, Left};
pub use disk::MemDisk;
pub use image::Image;
pub use sink::MemSink;
pub use source::MemSource;
