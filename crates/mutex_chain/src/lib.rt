//! Who owns and who awaits which mutex, and how urgent each thread is through it.
#![tactic(auto)]

mod answers;
mod changes;
mod curs;
mod ends;
mod graph;
pub mod laws;
mod lone;
mod owners;
mod passes;
mod raising;
mod renewing;
mod rows;
mod stored;
mod woken;

pub use answers::{Released, Took};
pub use changes::{Change, Changes};
pub use graph::MutexGraph;
pub use passes::Passes;
pub use woken::Woken;
