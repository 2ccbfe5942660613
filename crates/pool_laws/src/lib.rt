//! What is so of memory pools in every run of a board.
#![tactic(auto)]

pub mod laws;
