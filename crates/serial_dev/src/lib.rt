//! The receive ring and the transmit ring of a serial device, whose memory is taken once.
#![tactic(auto)]

mod serial;

pub use serial::Serial;
