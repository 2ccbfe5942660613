//! The machine: steps and ticks of a board, and the journal of what they did.
#![tactic(auto)]

mod built;
mod did;
mod engine;
mod machine;
mod resting;

pub use built::is_built;
pub use did::Did;
pub use machine::{Machine, StartFault};
