//! The timers of a board, and what is armed: when the wait of each thread and each timer is due.
#![tactic(auto)]

mod alarms;
mod open;
mod rows;
mod timers;

pub use alarms::Alarms;
