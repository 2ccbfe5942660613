//! The threads that wait on an object, in the order in which they will be woken.
#![tactic(auto)]

mod list;
mod ring;
mod row;

pub use list::SuspList;
pub use row::Row;
