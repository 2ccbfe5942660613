//! The text of a board, read into a board or refused at its first bad line.
#![tactic(auto)]

mod draft;
mod fault;
mod lines;
mod places;
mod reading;
mod table;
mod tails;

pub use fault::BoardFault;
pub use reading::{LONGEST, parse};
pub use rt_plain::{
    Arrival, Board, Call, DeviceDef, EventDef, Limits, MailboxDef, MutexDef, PoolDef, QueueDef,
    Schedule, SemDef, Stmt, ThreadDef, TimerDef, TimerKind, What, Why,
};
