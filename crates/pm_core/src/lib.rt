//! Power management: the votes for sleep modes, the rounds of a run mode, the low-power clock, and the
//! length of a sleep by it.
#![tactic(auto)]

mod clock;
mod timing;
mod votes;

pub use clock::LpClock;
pub use timing::{length, rounds};
pub use votes::Votes;
