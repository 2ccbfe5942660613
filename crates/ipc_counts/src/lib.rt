//! Semaphores and event objects: what a call does by itself, and whom it wakes.
#![tactic(auto)]

mod event;
mod sem;
mod want;
mod woken;

pub use event::EventObj;
pub use sem::{Sem, SemReleased};
pub use want::Want;
pub use woken::WokenFlags;
