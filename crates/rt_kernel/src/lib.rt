//! The kernel's state and all calls of scripts.
#![tactic(auto)]

mod answer;
mod arrivals;
mod built;
mod caller;
mod device_calls;
mod event_calls;
mod heads;
mod kernel;
mod mailbox_calls;
mod open;
mod pool_calls;
mod queue_calls;
mod retries;
mod sem_calls;
mod settle;
mod state;
mod statements;
mod switch;
mod telling;
mod thread_calls;
mod ticks;
mod timer_calls;
mod timer_fires;
mod told;
mod view;
mod waits;

pub use answer::Answer;
pub use built::{is_built, know_built};
pub use caller::Caller;
pub use kernel::Kernel;
