ghost use Rattle.std.specs.Prelude.{◌≡◌, ◌<◌, ◌≤◌, [], length, bit_or, slice_get, Some, IfOk};
ghost use Rattle.ipc_counts.specs.Sent.{sent, wanting, woken_by};

use ipc_counts::{EventObj, WokenFlags};
use rt_base::ThreadNo;
use std::alloc::{AllocError, Global};
use std::marker::Model;

/// The threads that a send woke, each with the flags that it got, in room for 256. Contracts see them.
#[derive(Drop)]
pub struct WokenThreads {
    flags: WokenFlags,
}

impl Model for WokenThreads {
    ghost use Rattle.std.specs.Prelude.{List, ℕ, ◌≡◌};

    ghost Value = { List (ℕ × ℕ) };

    ghost view = { λ w. w.flags.woken };

    ghost invariant = { λ w. w.flags.threads ≡ 256 };
}

impl WokenThreads {
    /// Nobody. No other call takes memory.
    pub fn new(alloc: Global) -> Result<WokenThreads, AllocError>
        ensures { IfOk result (λ w. w ≡ []) }
    {
        let flags = WokenFlags::new(alloc, 256)?;
        Ok(WokenThreads { flags })
    }

    // Sends flags to an event object of at most 256 threads.
    pub(crate) fn send(&mut self, event: &mut EventObj, mask: u32)
        requires { length event.old.waiters.rows ≤ 256 }
        ensures event { event.new ≡ sent event.old mask }
        ensures woken { self.new ≡ woken_by (bit_or event.old.flags mask) (wanting event.old) }
    {
        event.send(mask, &mut self.flags);
    }

    /// How many threads there are.
    pub fn len(&self) -> usize
        ensures { result ≡ length self.now }
    {
        self.flags.as_slice().len()
    }

    /// A thread, with the flags that it got.
    pub fn at(&self, place: usize) -> (ThreadNo, u32)
        requires { place < length self.now }
        ensures { slice_get self.now place ≡ Some result }
    {
        self.flags.as_slice()[place]
    }
}
