ghost use Rattle.std.specs.Prelude.{◌≡◌, ◌+◌, ◌≤◌, ◌<◌, ◌++◌, ◌∷◌, [], IfOk, IfSome, Some, false, true, length};
ghost use Rattle.std.specs.List.{find};
ghost use Rattle.rt_plain.specs.kernel.Pick.{pick_among};
ghost use Rattle.rt_plain.specs.kernel.Sleeps.{is_empty};
ghost use Rattle.ready_set.specs.ReadyLists.{IsBinding, row_of, rows_without};
ghost use Rattle.ready_list.specs.Depths.{is_depth};
ghost use Rattle.ready_list.specs.Ordered.{AreWithin, has_row, is_row_of, none_ready, order_of, rows_moved, with_rows};

use crate::level_set::LevelSet;
use ready_set::{Queues, Words};
use rt_base::{CoreNo, Prio, Steps, ThreadNo};
use std::alloc::{AllocError, Global};
use std::marker::{Brand, Model};
use std::sync::ledger::{Blank, Ledger};

/// The priority with which a thread is ready, and the number of the core that it is bound to, if any.
#[derive(Clone, Copy)]
pub struct Place {
    pub prio: u8,
    pub core: Option<u8>,
}

/// The ready list of a machine with 8, 32 or 256 levels: a `ReadySet` that finds the thread to run, and one ring of all
/// ready threads, which keeps their order.
///
/// Contracts see the numbers of threads, cores and levels, and the list of rows in order: of each ready thread its
/// number, its priority and the core that it is bound to, if any. No call but `new` takes memory, and none takes longer
/// where more threads are ready.
#[derive(Drop)]
pub struct ReadyList {
    set: LevelSet,

    // one queue of all ready threads
    ring: Queues,

    // by thread; that of one that isn't ready tells nothing
    places: Words<Place>,
}

impl Model for ReadyList {
    ghost use Rattle.ready_list.specs.Ordered.{ReadySeen, IsReadyList, seen_of};

    ghost Value = { ReadySeen };

    ghost view = { λ r. seen_of r.set r.ring r.places };

    ghost invariant = { λ r. IsReadyList r.set r.ring r.places };
}

// The number of a core, if there is one.
fn number_of(core: &Option<CoreNo>) -> Option<u8>
    ensures { result ≡ core.now }
{
    match core {
        None => None,
        Some(core) => Some(core.0),
    }
}

// The core of a number, if there is one.
fn core_of_number(number: Option<u8>) -> Option<CoreNo>
    ensures { result ≡ number }
{
    match number {
        None => None,
        Some(number) => Some(CoreNo(number)),
    }
}

// Whether the first ring has no thread, read with a counter of its own.
fn has_nobody<L: Ledger>(ring: &Queues, blank: Blank) -> bool
    requires name { blank.name ≡ L.name }
    requires parts { blank.parts ≡ L.parts }
    requires one { L.parts ≡ 1 }
    requires some { 0 < length ring.now.queues }
    ensures { result ≡ is_empty (order_of ring.now) }
{
    let mut steps: Steps<L> = Steps::new(blank);
    !ring.first(0, &mut steps).is_some()
}

impl ReadyList {
    /// A ready list with no thread in it, for threads and cores below these numbers. The only error is want of memory.
    pub fn new(alloc: Global, threads: u16, cores: u8, levels: u16) -> Result<ReadyList, AllocError>
        requires { is_depth levels ≡ true }
        ensures { IfOk result (λ ready. ready ≡ none_ready threads cores levels) }
    {
        let set = LevelSet::new(alloc, threads, cores, levels)?;
        let ring = Queues::new(alloc, threads, 1)?;
        let nowhere = Place {
            prio: 0,
            core: None,
        };
        let places = Words::new(alloc, nowhere, threads as usize)?;
        Ok(ReadyList { set, ring, places })
    }

    /// Whether a thread is ready. It tells also that each row has a level and a core of the machine.
    pub fn holds(&self, thread: ThreadNo) -> bool
        requires { thread < self.now.threads }
        ensures held { result ≡ has_row self.now.rows thread }
        ensures within { AreWithin self.now }
    {
        self.ring.holds(thread.0)
    }

    /// Whether no thread is ready.
    pub fn is_empty(&self) -> bool
        ensures { result ≡ is_empty self.now.rows }
    {
        has_nobody::<Brand>(&self.ring, Blank::new(1))
    }

    // The priority and binding of a ready thread.
    fn place_of(&mut self, thread: ThreadNo) -> (Prio, Option<CoreNo>)
        requires below { thread < self.old.threads }
        requires held { has_row self.old.rows thread ≡ true }
        ensures same { self.new ≡ self.old }
        ensures found { find (is_row_of thread) self.old.rows ≡ Some (row_of thread result.0 result.1) }
        ensures prio_below { result.0 < self.old.levels }
        ensures core_below { IsBinding self.old.cores result.1 }
    {
        let place = self.places.stored(thread.0 as usize);
        (Prio(place.prio), core_of_number(place.core))
    }

    /// Puts a thread at the end, as one that was started or woken.
    #[tactic(auto, using(crate::proofs::OrderLemmas::held_set, crate::proofs::OrderLemmas::held_ring))]
    pub fn add_tail(&mut self, thread: ThreadNo, prio: Prio, core: Option<CoreNo>)
        requires thread_below { thread < self.old.threads }
        requires prio_below { prio < self.old.levels }
        requires core_below { IsBinding self.old.cores core }
        requires absent { has_row self.old.rows thread ≡ false }
        ensures { self.new ≡ with_rows self.old (self.old.rows ++ row_of thread prio core ∷ []) }
    {
        let place = Place {
            prio: prio.0,
            core: number_of(&core),
        };
        self.places.write(thread.0 as usize, place);
        self.ring.add_tail(0, thread.0);
        self.set.add_tail(thread, prio, core);
    }

    /// Puts a thread at the front, as one that gives way to a more urgent one.
    #[tactic(auto, using(crate::proofs::OrderLemmas::held_set, crate::proofs::OrderLemmas::held_ring))]
    pub fn add_head(&mut self, thread: ThreadNo, prio: Prio, core: Option<CoreNo>)
        requires thread_below { thread < self.old.threads }
        requires prio_below { prio < self.old.levels }
        requires core_below { IsBinding self.old.cores core }
        requires absent { has_row self.old.rows thread ≡ false }
        ensures { self.new ≡ with_rows self.old (row_of thread prio core ∷ self.old.rows) }
    {
        let place = Place {
            prio: prio.0,
            core: number_of(&core),
        };
        self.places.write(thread.0 as usize, place);
        self.ring.add_head(0, thread.0);
        self.set.add_head(thread, prio, core);
    }

    /// Takes a thread out, wherever it stands. One that isn't ready changes nothing.
    pub fn remove(&mut self, thread: ThreadNo)
        requires { thread < self.old.threads }
        ensures { self.new ≡ with_rows self.old (rows_without self.old.rows thread) }
    {
        if self.holds(thread) {
            self.set.remove(thread);
            let _emptied = self.ring.remove(thread.0);
        }
    }

    /// A ready thread goes to the end with another priority. One that isn't ready changes nothing.
    #[tactic(auto, using(crate::proofs::OrderLemmas::absent_without, crate::proofs::OrderLemmas::moved_absent))]
    pub fn reprio(&mut self, thread: ThreadNo, prio: Prio)
        requires thread_below { thread < self.old.threads }
        requires prio_below { prio < self.old.levels }
        ensures { self.new ≡ with_rows self.old (rows_moved self.old.rows thread prio) }
    {
        if self.holds(thread) {
            let (_old, core) = self.place_of(thread);
            self.remove(thread);
            self.add_tail(thread, prio, core);
        }
    }

    /// The thread that a core takes next: of the threads that are unbound or bound to it, one of the least priority, of
    /// these a bound one before an unbound one, and then the one that stands first. None exactly where no ready thread
    /// may run there. It reads at most eight words, however many levels and threads there are.
    pub fn pick<L: Ledger>(&self, core: CoreNo, steps: &mut Steps<L>) -> Option<ThreadNo>
        requires { core < self.now.cores }
        ensures thread { result ≡ pick_among self.now.rows core }
        ensures ready { IfSome result (λ t. (t < self.now.threads) × (has_row self.now.rows t ≡ true)) }
        ensures cost { steps.new ≤ steps.old + 8 }
    {
        self.set.pick(core, steps)
    }
}

// A further field doesn't compile: a ready list has counted words and plain numbers alone.
fn fields(ready: &ReadyList) {
    let ReadyList { set, ring, places } = ready;
    let _: &LevelSet = set;
    let _: &Queues = ring;
    let _: &Words<Place> = places;
}
