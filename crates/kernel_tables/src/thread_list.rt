ghost use Rattle.std.specs.Prelude.{◌≡◌, ◌<◌, ◌≤◌, not, [], ◌∷◌, ◌++◌, ◌==◌, length, filter, slice_index, IfOk};
ghost use Rattle.rt_plain.specs.kernel.State.{is_among};

use rt_base::ThreadNo;
use std::alloc::{AllocError, Global};
use std::marker::Model;

// Whether two numbers are the same.
fn is_same(one: ThreadNo, other: ThreadNo) -> bool
    ensures { result ≡ (one == other) }
{
    one.0 == other.0
}

/// A list of threads in room for 512: all threads that there may be, and once more all whom one call wakes behind them.
/// Contracts see the list.
#[derive(Drop)]
pub struct ThreadList {
    items: Vec<ThreadNo>,
}

impl Model for ThreadList {
    ghost use Rattle.std.specs.Prelude.{List, ℕ, ◌≤◌, vec_capacity};

    ghost Value = { List ℕ };

    ghost view = { λ q. q.items.items };

    ghost invariant = { λ q. 512 ≤ vec_capacity q.items };
}

impl ThreadList {
    /// An empty list. No other call takes memory.
    pub fn new(alloc: Global) -> Result<ThreadList, AllocError>
        ensures { IfOk result (λ q. q ≡ []) }
    {
        Ok(ThreadList {
            items: Vec::with_capacity(alloc, 512)?,
        })
    }

    /// Nobody stands in it any more.
    pub fn clear(&mut self)
        ensures { self.new ≡ [] }
    {
        self.items.clear();
    }

    /// How many threads stand in it.
    pub fn len(&self) -> usize
        ensures { result ≡ length self.now }
    {
        self.items.len()
    }

    /// The thread at a place.
    pub fn at(&self, place: usize) -> ThreadNo
        requires { place < length self.now }
        ensures { result ≡ slice_index self.now place }
    {
        self.items[place]
    }

    /// Whether a thread stands in it.
    pub fn holds(&self, t: ThreadNo) -> bool
        ensures { result ≡ is_among self.now t }
    {
        self.items.iter().any(|u| is_same(*u, t))
    }

    /// The thread goes to the end.
    pub fn push_last(&mut self, t: ThreadNo)
        requires { length self.old < 512 }
        ensures { self.new ≡ self.old ++ t ∷ [] }
    {
        self.items.push_reserved(t);
    }

    /// The thread goes to the front.
    pub fn push_first(&mut self, t: ThreadNo)
        requires { length self.old < 512 }
        ensures { self.new ≡ t ∷ self.old }
    {
        let _ = self.items.insert(0, t);
    }

    /// The thread leaves the list.
    pub fn remove(&mut self, t: ThreadNo)
        ensures list { self.new ≡ filter (λ u. not (u == t)) self.old }
        ensures shorter { length self.new ≤ length self.old }
    {
        self.items.retain(|u| !is_same(*u, t));
    }
}
