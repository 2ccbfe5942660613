//! Mailboxes and message queues: bounded lists whose memory is taken once, and who waits at their two ends.
#![tactic(auto)]

mod channels;
mod ends;
mod fault;
mod mailbox;
mod msg_queue;

pub use channels::{ChannelKind, Channels, MailSlot, MessageSlot};
pub use ends::{End, Ends};
pub use fault::{Empty, Full, PutFault};
pub use mailbox::Mailbox;
pub use msg_queue::MsgQueue;
