//! Tests of `timer_skip`, by its public calls alone.
#![tactic(auto)]

#[cfg(test)]
mod tests;
