//! A memory pool: blocks of one size, who holds which, and the threads that wait for one.
#![tactic(auto)]

mod bits;
mod freed;
pub mod laws;
mod pool;

pub use freed::Freed;
pub use pool::MemPool;
