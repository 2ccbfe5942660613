//! Runs of boards: by their schedules, and traces replayed.
#![tactic(auto)]

mod fault;
mod parts;
mod place;
mod replays;
mod runner;
mod slept;
mod trace_lines;
mod trace_reader;
mod turns;

pub use fault::{ReplayFault, RunFault};
pub use replays::replay;
pub use runner::{run, run_within};
