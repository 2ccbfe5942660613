//! The cores of a kernel: which thread runs on which core, and which core holds the lock over all cores.
#![tactic(auto)]

mod cores;

pub use cores::Cores;
