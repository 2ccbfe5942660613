ghost use Rattle.std.specs.Prelude.{◌≡◌, ◌<◌, ◌∷◌, ◌++◌, [], length, IfOk};

use rt_base::{Bounded, ThreadNo};
use std::alloc::{AllocError, Global};
use std::marker::Model;

/// The threads that a send woke, in the order in which they stood, each with the flags that it got.
/// Contracts see them, and for how many threads there is room.
#[derive(Drop)]
pub struct WokenFlags {
    woken: Bounded<(ThreadNo, u32)>,
}

impl Model for WokenFlags {
    ghost use Rattle.ipc_counts.specs.Flags.{Woken};

    ghost Value = { Woken };

    ghost view = { λ w. record { threads = w.woken.room; woken = w.woken.items } };
}

impl WokenFlags {
    /// Nobody, with room for a number of threads. No other call takes memory.
    pub fn new(alloc: Global, threads: u16) -> Result<WokenFlags, AllocError>
        ensures { IfOk result (λ w. w ≡ record { threads = threads; woken = [] }) }
    {
        Ok(WokenFlags {
            woken: Bounded::new(alloc, threads as usize)?,
        })
    }

    /// The woken threads, each with the flags that it got.
    pub fn as_slice(&self) -> &[(ThreadNo, u32)]
        ensures { result.now ≡ self.now.woken }
    {
        self.woken.as_slice()
    }

    // Drops what was there.
    pub(crate) fn clear(&mut self)
        ensures { self.new ≡ record self.old { woken = [] } }
    {
        self.woken.clear();
    }

    // One more at the end.
    pub(crate) fn push(&mut self, thread: ThreadNo, flags: u32)
        requires { length self.old.woken < self.old.threads }
        ensures { self.new ≡ record self.old { woken = self.old.woken ++ (thread, flags) ∷ [] } }
    {
        self.woken.push((thread, flags));
    }
}
