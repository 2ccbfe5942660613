//! The objects of each class by number and name, and how often devices are open.
#![tactic(auto)]

mod container;
mod device;
mod fault;
mod limits;
mod object;
mod objects;

pub use device::DeviceRow;
pub use fault::{CountFull, Make, NoRate, NotOpen};
pub use limits::ClassLimits;
pub use object::Object;
pub use objects::Objects;
