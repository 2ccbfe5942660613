//! The threads of the kernel and the objects that they wait for, with who waits for which.
#![tactic(auto)]

mod awaited;
mod block_line;
mod event_table;
mod lists;
mod mailbox_table;
mod object_rows;
mod open;
mod queue_table;
mod ready;
mod retry;
mod sem_table;
mod shown;
mod stage;
mod tables;
mod thread_list;
mod threads;
mod vars;
mod wait_list;
mod waking;
mod woken;

pub use awaited::Awaited;
pub use retry::Retry;
pub use stage::Stage;
pub use tables::Tables;
pub use thread_list::ThreadList;
pub use threads::Threads;
pub use vars::Vars;
pub use woken::WokenThreads;
