//! The public calls of the kernel, each run once: what they answer and show.
#![tactic(auto)]

#[cfg(test)]
mod kernel;
