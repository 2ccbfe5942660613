ghost use Rattle.std.specs.Prelude.{◌≡◌, ◌<◌, ◌++◌, ◌∷◌, [], false, true, drop, slice_get, IfOk, IfSome};
ghost use Rattle.rt_base.specs.Chains.{is_among, without};
ghost use Rattle.soft_work.specs.WorkLists.{IsSound};

use rt_base::ObjNo;
use std::alloc::{AllocError, Global};
use std::marker::Model;

/// The works of soft timers: the timers that have fired and whose calls are still to be made, in the
/// order in which they fired. A timer stands among them once or not at all. As in RT-Thread a thread
/// makes the calls of soft timers; that they wait for it in a list is this project's own.
///
/// Contracts see the number of timers and the list of works. The timers are linked by number in a
/// ring, as RT-Thread's lists are, with one more number, the root, between the last and the first. No
/// call but `new` takes memory, and each takes the same few steps however long the list is.
#[derive(Drop)]
pub struct Works {
    timers: u16,
    next: Vec<u16>,
    prev: Vec<u16>,
    held: Vec<bool>,
}

impl Model for Works {
    ghost use Rattle.soft_work.specs.WorkLists.{WorkList};
    ghost use Rattle.soft_work.specs.Links.{IsLinked, ring_of};

    ghost Value = { WorkList };

    ghost view = { λ w. record { timers = w.timers; works = ring_of w.timers w.next.items } };

    ghost invariant = { λ w. IsLinked w.timers w.next.items w.prev.items w.held.items
        (ring_of w.timers w.next.items) };
}

impl Works {
    /// No works, with room for the timers below a number. The only error is want of memory.
    pub fn new(alloc: Global, timers: u16) -> Result<Works, AllocError>
        ensures { IfOk result (λ w. w ≡ record { timers = timers; works = [] }) }
    {
        let next = vec![in alloc; timers; timers as usize + 1]?;
        let prev = vec![in alloc; timers; timers as usize + 1]?;
        let held = vec![in alloc; false; timers as usize]?;
        Ok(Works {
            timers,
            next,
            prev,
            held,
        })
    }

    /// Whether a timer is among the works. One at or above the number of timers isn't.
    pub fn holds(&self, timer: ObjNo) -> bool
        ensures held { result ≡ is_among timer self.now.works }
        // No timer stands there twice, and each is below the number of timers.
        ensures sound { IsSound self.now }
    {
        matches!(self.held.get(timer.0 as usize), Some(true))
    }

    /// Puts a timer that has fired behind all other works.
    pub fn put(&mut self, timer: ObjNo)
        requires below { timer < self.old.timers }
        requires absent { is_among timer self.old.works ≡ false }
        ensures { self.new ≡ record self.old { works = self.old.works ++ timer ∷ [] } }
    {
        let place = timer.0 as usize;
        let root = self.timers as usize;
        let last = self.prev[root];
        self.next[last as usize] = timer.0;
        self.next[place] = self.timers;
        self.prev[root] = timer.0;
        self.prev[place] = last;
        self.held[place] = true;
    }

    /// Takes the timer that fired first of all works: `None` exactly where there are no works.
    pub fn take(&mut self) -> Option<ObjNo>
        ensures first { result ≡ slice_get self.old.works 0 }
        ensures rest { self.new ≡ record self.old { works = drop 1 self.old.works } }
        ensures below { IfSome result (λ timer. timer < self.old.timers) }
    {
        let first = self.next[self.timers as usize];
        if first == self.timers {
            return None;
        }
        self.unlink(first);
        Some(ObjNo(first))
    }

    /// Takes a timer out of the works, wherever it stands there, so that its call isn't made: false
    /// exactly where it isn't among them. The others keep their order.
    pub fn drop_one(&mut self, timer: ObjNo) -> bool
        ensures answer { result ≡ is_among timer self.old.works }
        ensures works { self.new ≡ record self.old { works = without timer self.old.works } }
    {
        if !self.holds(timer) {
            return false;
        }
        self.unlink(timer.0);
        true
    }

    // Takes a timer out of the ring.
    fn unlink(&mut self, timer: u16)
        requires { is_among timer self.old.works ≡ true }
        ensures { self.new ≡ record self.old { works = without timer self.old.works } }
    {
        let place = timer as usize;
        let before = self.prev[place];
        let after = self.next[place];
        self.next[before as usize] = after;
        self.prev[after as usize] = before;
        self.held[place] = false;
    }
}
