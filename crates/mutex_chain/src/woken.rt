ghost use Rattle.std.specs.Prelude.{◌≡◌, ◌<◌, ◌∷◌, ◌++◌, [], length, IfOk};

use rt_base::ThreadNo;
use std::alloc::{AllocError, Global};
use std::marker::Model;

/// The threads that the end of a mutex woke, in the order in which they stood. Contracts see them, and
/// for how many threads there is room.
#[derive(Drop)]
pub struct Woken {
    threads: u16,
    woken: Vec<ThreadNo>,
}

impl Model for Woken {
    ghost use Rattle.std.specs.Prelude.{◌≤◌, vec_capacity};
    ghost use Rattle.mutex_chain.specs.Graph.{WokenList};

    ghost Value = { WokenList };

    ghost view = { λ w. record { threads = w.threads; woken = w.woken.items } };

    ghost invariant = { λ w. w.threads ≤ vec_capacity w.woken };
}

impl Woken {
    /// Nobody, with room for a number of threads. No other call takes memory.
    pub fn new(alloc: Global, threads: u16) -> Result<Woken, AllocError>
        ensures { IfOk result (λ w. w ≡ record { threads = threads; woken = [] }) }
    {
        let woken = Vec::with_capacity(alloc, threads as usize)?;
        Ok(Woken { threads, woken })
    }

    /// The woken threads.
    pub fn as_slice(&self) -> &[ThreadNo]
        ensures { result.now ≡ self.now.woken }
    {
        self.woken.as_slice()
    }

    // Drops what was there.
    pub(crate) fn clear(&mut self)
        ensures { self.new ≡ record self.old { woken = [] } }
    {
        self.woken.clear();
    }

    // One more at the end.
    pub(crate) fn push(&mut self, thread: ThreadNo)
        requires { length self.old.woken < self.old.threads }
        ensures { self.new ≡ record self.old { woken = self.old.woken ++ thread ∷ [] } }
    {
        self.woken.push_reserved(thread);
    }
}
