//! The threads and the objects that they wait for, mutexes among them, by current priorities.
//!
//! Below, in `kernel_tables`, the lists go by a number for each thread. Here that number is the thread's current
//! priority, which the graph of `mutex_chain` keeps; contracts see the base priorities, and mutexes by their names.
#![tactic(auto)]

mod blocks;
mod close;
mod create;
mod delete;
mod events;
mod holds;
mod known;
pub mod laws;
mod mails;
mod messages;
mod mutexes;
mod object_rows;
mod open;
mod passed;
mod ready;
mod renew;
mod rows;
mod sems;
mod steps;
mod tables;
mod views;
mod waits;

pub use passed::{Passed, PassedMutexes};
pub use tables::MutexTables;
