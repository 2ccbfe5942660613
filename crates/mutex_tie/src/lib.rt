//! The mutexes, owners and waits of a plain state, and the graph of `mutex_chain` that stands for them.
//!
//! A plain state names its mutexes, and computes each current priority from all owners and waiters. The graph
//! has numbers, and each of its edits lists the current priorities that it changed. What ties the two is said
//! by `StandsFor`, in `specs/Tie.antt`, and its laws by the functions of `laws`.
#![tactic(auto)]

pub mod laws;
