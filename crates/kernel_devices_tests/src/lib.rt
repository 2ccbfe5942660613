//! The devices of a board, by the public calls alone.
#![tactic(auto)]

#[cfg(test)]
mod devices;
