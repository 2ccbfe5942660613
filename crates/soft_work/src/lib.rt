//! The works of soft timers: timers that have fired and whose calls are still to be made, in the order in which they fired.
#![tactic(auto)]

mod works;

pub use works::Works;
