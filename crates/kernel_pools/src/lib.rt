//! The memory pools of a board by name: who holds which of their blocks.
#![tactic(auto)]

mod named;
mod open;
mod pools;

pub use pools::Pools;
