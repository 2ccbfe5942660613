//! The public calls of the runner, each run once: what they answer.
#![tactic(auto)]

#[cfg(test)]
mod runs;
