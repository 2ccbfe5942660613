//! The memory pools of a board, by the public calls alone.
#![tactic(auto)]

#[cfg(test)]
mod pools;
