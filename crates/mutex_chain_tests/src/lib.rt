//! Tests of `mutex_chain`, by its public calls alone.
#![tactic(auto)]

#[cfg(test)]
mod bench;
#[cfg(test)]
mod plain;
#[cfg(test)]
mod random_edits;
#[cfg(test)]
mod worked_rows;
