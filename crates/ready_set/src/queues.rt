ghost use Rattle.std.specs.Prelude.{◌≡◌, ◌+◌, ◌≤◌, ◌<◌, ◌++◌, ◌∷◌, [], EachIndex, IfOk, IfSome, None, false, true, is_some, length, map, replicate, slice_get, slice_index, slice_index_or, slice_set};
ghost use Rattle.rt_base.specs.Chains.{without};
ghost use Rattle.ready_set.specs.Links.{IsEmptied, is_queued};

use crate::words::Words;
use rt_base::Steps;
use std::alloc::{AllocError, Global};
use std::marker::{Brand, Model};
use std::sync::ledger::{Blank, Ledger};

/// Queues of threads, each thread in at most one. They are linked in rings, as RT-Thread's lists are: a node for each
/// thread, and after these a head for each queue. Contracts see the number of threads and each queue's list of them.
#[derive(Drop)]
pub struct Queues {
    pub(crate) threads: u16,
    pub(crate) next: Words<usize>,
    pub(crate) prev: Words<usize>,
    pub(crate) places: Words<Option<usize>>,
}

impl Model for Queues {
    ghost use Rattle.ready_set.specs.Links.{IsLinked, Queued, queues_of};

    ghost Value = { Queued };

    ghost view = { λ q. record { threads = q.threads; queues = queues_of q.threads q.next } };

    ghost invariant = { λ q. IsLinked q.threads q.next q.prev q.places (queues_of q.threads q.next) };
}

// Words that each hold their own number.
fn own_numbers(alloc: Global, count: usize) -> Result<Words<usize>, AllocError>
    ensures { IfOk result (λ w. (length w ≡ count) × EachIndex w (λ k. slice_index w k ≡ k)) }
{
    let mut nodes = Words::new(alloc, 0, count)?;
    for node in 0..count {
        nodes.write(node, node);
    }
    Ok(nodes)
}

// Whether a thread has a place, read with a counter of its own.
fn is_marked<L: Ledger>(places: &Words<Option<usize>>, thread: u16, blank: Blank) -> bool
    requires name { blank.name ≡ L.name }
    requires parts { blank.parts ≡ L.parts }
    requires one { L.parts ≡ 1 }
    requires thread_below { thread < length places.now }
    ensures { result ≡ is_some (slice_index_or places.now thread None) }
{
    let mut steps: Steps<L> = Steps::new(blank);
    places.read(thread as usize, &mut steps).is_some()
}

// Links a node in between two that were neighbours.
fn link(next: &mut Words<usize>, prev: &mut Words<usize>, before: usize, node: usize, after: usize)
    requires before_below { before < length next.old }
    requires node_below { node < length next.old }
    requires after_below { after < length prev.old }
    requires same_length { length prev.old ≡ length next.old }
    ensures next { next.new ≡ slice_set (slice_set next.old before node) node after }
    ensures prev { prev.new ≡ slice_set (slice_set prev.old after node) node before }
{
    next.write(before, node);
    next.write(node, after);
    prev.write(after, node);
    prev.write(node, before);
}

impl Queues {
    /// Queues with no thread in them. The only error is want of memory.
    pub fn new(alloc: Global, threads: u16, count: usize) -> Result<Queues, AllocError>
        requires { count ≤ 65536 }
        ensures { IfOk result (λ q. q ≡ record { threads = threads; queues = replicate count [] }) }
    {
        let nodes = threads as usize + count;
        let next = own_numbers(alloc, nodes)?;
        let prev = own_numbers(alloc, nodes)?;
        let places = Words::new(alloc, None, threads as usize)?;
        Ok(Queues {
            threads,
            next,
            prev,
            places,
        })
    }

    /// Whether a thread is in one of the queues.
    pub fn holds(&self, thread: u16) -> bool
        requires { thread < self.now.threads }
        ensures { result ≡ is_queued self.now.queues thread }
    {
        is_marked::<Brand>(&self.places, thread, Blank::new(1))
    }

    /// Puts a thread at the end of a queue.
    pub fn add_tail(&mut self, place: usize, thread: u16)
        requires place_below { place < length self.old.queues }
        requires thread_below { thread < self.old.threads }
        requires absent { is_queued self.old.queues thread ≡ false }
        ensures { self.new ≡ record self.old { queues = slice_set self.old.queues place (slice_index_or self.old.queues place [] ++ thread ∷ []) } }
    {
        let head = self.threads as usize + place;
        let last = self.prev.stored(head);
        link(&mut self.next, &mut self.prev, last, thread as usize, head);
        self.places.write(thread as usize, Some(place));
    }

    /// Puts a thread at the front of a queue.
    pub fn add_head(&mut self, place: usize, thread: u16)
        requires place_below { place < length self.old.queues }
        requires thread_below { thread < self.old.threads }
        requires absent { is_queued self.old.queues thread ≡ false }
        ensures { self.new ≡ record self.old { queues = slice_set self.old.queues place (thread ∷ slice_index_or self.old.queues place []) } }
    {
        let head = self.threads as usize + place;
        let first = self.next.stored(head);
        link(&mut self.next, &mut self.prev, head, thread as usize, first);
        self.places.write(thread as usize, Some(place));
    }

    /// Takes a thread out of its queue, wherever it stands there, and says which queue that left empty, if it did.
    pub fn remove(&mut self, thread: u16) -> Option<usize>
        requires thread_below { thread < self.old.threads }
        requires held { is_queued self.old.queues thread ≡ true }
        ensures after { self.new ≡ record self.old { queues = map (without thread) self.old.queues } }
        ensures emptied { IsEmptied result self.old.queues self.new.queues }
    {
        let node = thread as usize;
        let before = self.prev.stored(node);
        let after = self.next.stored(node);
        self.next.write(before, after);
        self.prev.write(after, before);
        let place = self.places.stored(node);
        self.places.write(node, None);
        if before == after { place } else { None }
    }

    /// The first thread of a queue, or None exactly where it has none. It reads one word.
    pub fn first<L: Ledger>(&self, place: usize, steps: &mut Steps<L>) -> Option<u16>
        requires { place < length self.now.queues }
        ensures value { result ≡ slice_get (slice_index_or self.now.queues place []) 0 }
        ensures below { IfSome result (λ thread. thread < self.now.threads) }
        ensures cost { steps.new ≡ steps.old + 1 }
    {
        let node = self.next.read(self.threads as usize + place, steps);
        if node < self.threads as usize {
            Some(node as u16)
        } else {
            None
        }
    }
}
