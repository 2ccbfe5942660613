//! The armed rows of a kernel: when each timer is due, and which one fires next.
#![tactic(auto)]

mod node;
mod row;
mod rows;
mod timers;

pub use timers::Timers;
