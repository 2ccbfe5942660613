//! The serial devices of a board, and what is still to arrive at them.
#![tactic(auto)]

mod calls;
mod console;
mod device;
mod devices;
pub mod laws;
mod lines;
mod open;
mod power;
mod ticks;

pub use device::{Arrived, ReadBytes, Written};
pub use devices::{Devices, Incoming};
