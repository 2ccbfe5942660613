//! The lock over all cores: which core holds it, and how deep; and the lock by which threads, one for each core,
//! work on one value.
#![tactic(auto)]

mod dealing;
mod enter;
mod held;
mod knows;
mod law;
mod lend;
mod lock;
mod nest;
mod nested;
mod pass;
mod table;

pub use enter::Enter;
pub use held::Held;
pub use lock::{CpusLock, Refused};
pub use nest::Nest;
pub use nested::Nested;
pub use pass::Pass;
