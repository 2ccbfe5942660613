//! What the program knows of files and of where it writes.
#![tactic(auto)]

mod disk;
mod files;
mod memory;
mod shelf;
mod sink;
mod standard;
mod sure;
#[cfg(test)]
mod tests;

pub use disk::DiskFiles;
pub use files::{Files, OpenFault};
pub use memory::{MemFiles, MemSink};
pub use sink::{Failed, Sink};
pub use standard::StdSink;
pub use sure::{SureFiles, SureSink};
