ghost use Rattle.std.specs.Prelude.{◌≡◌, ◌<◌, [], length, IfOk, IfSome};
ghost use Rattle.mutex_chain.specs.Graph.{passed_to};

use rt_base::{ObjNo, ThreadNo};
use std::alloc::{AllocError, Global};
use std::marker::Model;

/// The mutexes that an ending thread gave to a waiter, in the order in which it gave them back, each
/// with the thread that got it. Contracts see them, and for how many threads there is room.
#[derive(Drop)]
pub struct Passes {
    threads: u16,
    passes: Vec<(ObjNo, ThreadNo)>,
}

impl Model for Passes {
    ghost use Rattle.std.specs.Prelude.{◌≤◌, vec_capacity};
    ghost use Rattle.mutex_chain.specs.Graph.{PassList};

    ghost Value = { PassList };

    ghost view = { λ p. record { threads = p.threads; passes = p.passes.items } };

    ghost invariant = { λ p. p.threads ≤ vec_capacity p.passes };
}

impl Passes {
    /// No pass, with room for a number of threads. No other call takes memory.
    pub fn new(alloc: Global, threads: u16) -> Result<Passes, AllocError>
        ensures { IfOk result (λ p. p ≡ record { threads = threads; passes = [] }) }
    {
        let passes = Vec::with_capacity(alloc, threads as usize)?;
        Ok(Passes { threads, passes })
    }

    /// The mutexes that passed, each with the thread that got it.
    pub fn as_slice(&self) -> &[(ObjNo, ThreadNo)]
        ensures { result.now ≡ self.now.passes }
    {
        self.passes.as_slice()
    }

    // Drops what was there.
    pub(crate) fn clear(&mut self)
        ensures { self.new ≡ record self.old { passes = [] } }
    {
        self.passes.clear();
    }

    // One more at the end, where the mutex passes to somebody.
    pub(crate) fn push(&mut self, mutex: ObjNo, to: &Option<ThreadNo>)
        requires { IfSome to.now (λ _. length self.old.passes < self.old.threads) }
        ensures { self.new ≡ passed_to mutex to.now self.old }
    {
        if let Some(thread) = to {
            self.passes.push_reserved((mutex, *thread));
        }
    }
}
