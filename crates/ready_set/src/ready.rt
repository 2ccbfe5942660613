ghost use Rattle.std.specs.Prelude.{◌≡◌, ◌+◌, ◌*◌, ◌≤◌, ◌<◌, ◌++◌, ◌∷◌, ◌==◌, [], IfOk, IfNone, IfSome, List, false, true};
ghost use Rattle.std.specs.List.{list_any};
ghost use Rattle.rt_plain.specs.kernel.Pick.{ReadyRow, pick_among};
ghost use Rattle.ready_set.specs.ReadyLists.{IsBinding, StandsForRows, empty_view, HasNoneFor, binding_place, chosen, is_held, queue_of, row_of, rows_without, with_queue, without_thread};

use crate::bits::PrioBits;
use crate::queues::Queues;
use crate::words::Words;
use rt_base::{CoreNo, Prio, Steps, ThreadNo};
use std::alloc::{AllocError, Global};
use std::marker::Model;
use std::sync::ledger::Ledger;

/// The ready threads of a machine with 8 * G levels, G at most 32: a queue for each priority and binding, and bitmaps
/// that find the one to run.
///
/// Contracts see the numbers of threads, cores and levels and each queue's list of threads. Such a set stands for any
/// one ready list of which each queue is the part of its priority and binding (`StandsForRows`), and each call says
/// what it does to every ready list that the set stands for. No call but `new` takes memory.
#[derive(Drop)]
pub struct ReadySet<const G: usize> {
    pub(crate) cores: u8,
    pub(crate) bits: PrioBits<G>,
    pub(crate) queues: Queues,
}

impl<const G: usize> Model for ReadySet<G> {
    ghost use Rattle.std.specs.Prelude.{◌*◌};
    ghost use Rattle.ready_set.specs.ReadyLists.{IsReadySet, ReadyView};

    ghost Value = { ReadyView };

    ghost view = { λ r. record { threads = r.queues.threads; cores = r.cores; levels = 8 * G; queues = r.queues.queues } };

    ghost invariant = { λ r. IsReadySet G r.cores r.bits r.queues };
}

// The number of a binding: 0 for unbound, else that of the core plus 1.
fn binding_number(core: Option<CoreNo>) -> usize
    ensures { result ≡ binding_place core }
{
    match core {
        None => 0,
        Some(core) => core.0 as usize + 1,
    }
}

// The binding and level to take, by the least levels of the threads bound to a core and of the unbound ones: the lesser
// level, and of equal ones the bound threads'.
fn chosen_queue(
    core: CoreNo,
    bound: Option<u8>,
    unbound: Option<u8>,
) -> Option<(Option<CoreNo>, u8)>
    ensures { result ≡ chosen core bound unbound }
{
    match (bound, unbound) {
        (None, None) => None,
        (None, Some(level)) => Some((None, level)),
        (Some(level), None) => Some((Some(core), level)),
        (Some(level), Some(other)) => {
            if other < level {
                Some((None, other))
            } else {
                Some((Some(core), level))
            }
        }
    }
}

impl<const G: usize> ReadySet<G> {
    /// A ready set with no thread in it, for threads and cores below these numbers. The only error is want of memory.
    pub fn new(alloc: Global, threads: u16, cores: u8) -> Result<ReadySet<G>, AllocError>
        requires groups { G ≤ 32 }
        ensures empty { IfOk result (λ set. set ≡ empty_view threads cores (8 * G)) }
        ensures ready { IfOk result (λ set. StandsForRows set []) }
    {
        let bindings = cores as usize + 1;
        let bits = PrioBits::new(alloc, bindings)?;
        let queues = Queues::new(alloc, threads, bindings * (8 * G))?;
        Ok(ReadySet {
            cores,
            bits,
            queues,
        })
    }

    /// Whether a thread is in the set.
    pub fn holds(&self, thread: ThreadNo) -> bool
        requires { thread < self.now.threads }
        ensures held { result ≡ is_held self.now thread }
        ensures ready { (rows : List ReadyRow) → StandsForRows self.now rows → result ≡ list_any (λ row. row.thread == thread) rows }
    {
        self.queues.holds(thread.0)
    }

    /// Puts a thread after the ready threads of its priority and binding, as a thread that was started or woken.
    pub fn add_tail(&mut self, thread: ThreadNo, prio: Prio, core: Option<CoreNo>)
        requires thread_below { thread < self.old.threads }
        requires prio_below { prio < self.old.levels }
        requires core_below { IsBinding self.old.cores core }
        requires absent { is_held self.old thread ≡ false }
        ensures queue { self.new ≡ with_queue self.old prio core (queue_of self.old prio core ++ thread ∷ []) }
        ensures ready { (rows : List ReadyRow) → StandsForRows self.old rows → StandsForRows self.new (rows ++ row_of thread prio core ∷ []) }
    {
        let binding = binding_number(core);
        self.bits.set(binding, prio.0);
        let place = binding * (8 * G) + prio.0 as usize;
        self.queues.add_tail(place, thread.0);
    }

    /// Puts a thread before the ready threads of its priority and binding, as one that gives way to a more urgent one.
    pub fn add_head(&mut self, thread: ThreadNo, prio: Prio, core: Option<CoreNo>)
        requires thread_below { thread < self.old.threads }
        requires prio_below { prio < self.old.levels }
        requires core_below { IsBinding self.old.cores core }
        requires absent { is_held self.old thread ≡ false }
        ensures queue { self.new ≡ with_queue self.old prio core (thread ∷ queue_of self.old prio core) }
        ensures ready { (rows : List ReadyRow) → StandsForRows self.old rows → StandsForRows self.new (row_of thread prio core ∷ rows) }
    {
        let binding = binding_number(core);
        self.bits.set(binding, prio.0);
        let place = binding * (8 * G) + prio.0 as usize;
        self.queues.add_head(place, thread.0);
    }

    /// Takes a thread out of the set, wherever it stands.
    pub fn remove(&mut self, thread: ThreadNo)
        requires thread_below { thread < self.old.threads }
        requires held { is_held self.old thread ≡ true }
        ensures queues { self.new ≡ without_thread self.old thread }
        ensures ready { (rows : List ReadyRow) → StandsForRows self.old rows → StandsForRows self.new (rows_without rows thread) }
    {
        if let Some(place) = self.queues.remove(thread.0) {
            self.bits.clear(place / (8 * G), (place % (8 * G)) as u8);
        }
    }

    /// The thread that a core takes next: of the threads that are unbound or bound to it, one of the least priority, of
    /// these a bound one before an unbound one, and then the one that stands first. None exactly where no thread of the
    /// set may run there. It reads at most eight words, however many levels and threads there are.
    pub fn pick<L: Ledger>(&self, core: CoreNo, steps: &mut Steps<L>) -> Option<ThreadNo>
        requires { core < self.now.cores }
        ensures ready { (rows : List ReadyRow) → StandsForRows self.now rows → result ≡ pick_among rows core }
        ensures held { IfSome result (λ thread. (thread < self.now.threads) × (is_held self.now thread ≡ true)) }
        ensures none { IfNone result (HasNoneFor self.now core) }
        ensures cost { steps.new ≤ steps.old + 8 }
    {
        let bound = self.bits.lowest(core.0 as usize + 1, steps);
        let unbound = self.bits.lowest(0, steps);
        let (binding, level) = chosen_queue(core, bound, unbound)?;
        let place = binding_number(binding) * (8 * G) + level as usize;
        let thread = self.queues.first(place, steps)?;
        Some(ThreadNo(thread))
    }
}

// A further field doesn't compile: a set has counted words and plain numbers alone.
fn fields<const G: usize>(set: &ReadySet<G>) {
    let ReadySet {
        cores,
        bits,
        queues,
    } = set;
    let _: &u8 = cores;
    let PrioBits { tops, groups } = bits;
    let _: &Words<u32> = tops;
    let _: &Words<u8> = groups;
    let Queues {
        threads,
        next,
        prev,
        places,
    } = queues;
    let _: &u16 = threads;
    let _: &Words<usize> = next;
    let _: &Words<usize> = prev;
    let _: &Words<Option<usize>> = places;
}
