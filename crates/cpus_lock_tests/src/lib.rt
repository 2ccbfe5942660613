//! Tests of the lock over all cores, by its public calls alone.
#![tactic(auto)]

pub mod diary;
#[cfg(test)]
mod locking;
#[cfg(test)]
mod nesting;
