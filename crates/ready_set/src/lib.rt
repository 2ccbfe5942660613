//! The threads that are ready to run: a queue for each priority and binding, over bitmaps that find the next one.
#![tactic(auto)]

mod bits;
mod queues;
mod ready;
mod words;

pub use queues::Queues;
pub use ready::ReadySet;
pub use words::Words;
