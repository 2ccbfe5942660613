//! Names, texts, lists, numbers and codes that every other crate uses.
#![tactic(auto)]

mod bounded;
mod codes;
mod list;
mod name;
mod numbers;
mod steps;
#[cfg(test)]
mod tests;
mod text;

pub use bounded::Bounded;
pub use codes::{Class, Code, Event, Halt, RunMode, Sleep, WaitOrder};
pub use list::{AllocFailed, Duplicate, List};
pub use name::Name;
pub use numbers::{CoreNo, ObjNo, Prio, ThreadNo, TimerNo};
pub use steps::Steps;
pub use text::Text;
