ghost use Rattle.std.specs.Prelude.{◌≡◌, ◌+◌, ◌≤◌, ◌<◌, ◌++◌, ◌∷◌, [], IfOk, IfSome, List, false, true};
ghost use Rattle.rt_plain.specs.kernel.Pick.{ReadyRow, pick_among};
ghost use Rattle.ready_set.specs.ReadyLists.{IsBinding, StandsForRows, empty_view, is_held, queue_of, with_queue, without_thread};
ghost use Rattle.ready_list.specs.Depths.{is_depth};
ghost use Rattle.ready_list.specs.Sets.{view_of};

use ready_set::ReadySet;
use rt_base::{CoreNo, Prio, Steps, ThreadNo};
use std::alloc::{AllocError, Global};
use std::marker::Model;
use std::sync::ledger::Ledger;

// The set of a machine, by its number of levels.
#[derive(Drop)]
enum Sets {
    Shallow(ReadySet<1>),
    Middle(ReadySet<4>),
    Deep(ReadySet<32>),
}

/// The ready threads of a machine with 8, 32 or 256 levels, as a `ReadySet`. Contracts see what they see of that.
#[derive(Drop)]
pub struct LevelSet {
    sets: Sets,
}

impl Model for LevelSet {
    ghost use Rattle.ready_set.specs.ReadyLists.{ReadyView};
    ghost use Rattle.ready_list.specs.Sets.{view_of};

    ghost Value = { ReadyView };

    ghost view = { λ s. view_of s.sets };
}

// The empty set of a machine with so many levels.
fn empty_sets(alloc: Global, threads: u16, cores: u8, levels: u16) -> Result<Sets, AllocError>
    requires { is_depth levels ≡ true }
    ensures empty { IfOk result (λ sets. view_of sets ≡ empty_view threads cores levels) }
    ensures ready { IfOk result (λ sets. StandsForRows (view_of sets) []) }
{
    if levels == 8 {
        Ok(Sets::Shallow(ReadySet::new(alloc, threads, cores)?))
    } else if levels == 32 {
        Ok(Sets::Middle(ReadySet::new(alloc, threads, cores)?))
    } else {
        Ok(Sets::Deep(ReadySet::new(alloc, threads, cores)?))
    }
}

impl LevelSet {
    /// A set with no thread in it, for threads and cores below these numbers. The only error is want of memory.
    pub fn new(alloc: Global, threads: u16, cores: u8, levels: u16) -> Result<LevelSet, AllocError>
        requires { is_depth levels ≡ true }
        ensures empty { IfOk result (λ set. set ≡ empty_view threads cores levels) }
        ensures ready { IfOk result (λ set. StandsForRows set []) }
    {
        Ok(LevelSet {
            sets: empty_sets(alloc, threads, cores, levels)?,
        })
    }

    /// Puts a thread after the ready threads of its priority and binding.
    pub fn add_tail(&mut self, thread: ThreadNo, prio: Prio, core: Option<CoreNo>)
        requires thread_below { thread < self.old.threads }
        requires prio_below { prio < self.old.levels }
        requires core_below { IsBinding self.old.cores core }
        requires absent { is_held self.old thread ≡ false }
        ensures { self.new ≡ with_queue self.old prio core (queue_of self.old prio core ++ thread ∷ []) }
    {
        match &mut self.sets {
            Sets::Shallow(set) => set.add_tail(thread, prio, core),
            Sets::Middle(set) => set.add_tail(thread, prio, core),
            Sets::Deep(set) => set.add_tail(thread, prio, core),
        }
    }

    /// Puts a thread before the ready threads of its priority and binding.
    pub fn add_head(&mut self, thread: ThreadNo, prio: Prio, core: Option<CoreNo>)
        requires thread_below { thread < self.old.threads }
        requires prio_below { prio < self.old.levels }
        requires core_below { IsBinding self.old.cores core }
        requires absent { is_held self.old thread ≡ false }
        ensures { self.new ≡ with_queue self.old prio core (thread ∷ queue_of self.old prio core) }
    {
        match &mut self.sets {
            Sets::Shallow(set) => set.add_head(thread, prio, core),
            Sets::Middle(set) => set.add_head(thread, prio, core),
            Sets::Deep(set) => set.add_head(thread, prio, core),
        }
    }

    /// Takes a thread out of the set, wherever it stands.
    pub fn remove(&mut self, thread: ThreadNo)
        requires thread_below { thread < self.old.threads }
        requires held { is_held self.old thread ≡ true }
        ensures { self.new ≡ without_thread self.old thread }
    {
        match &mut self.sets {
            Sets::Shallow(set) => set.remove(thread),
            Sets::Middle(set) => set.remove(thread),
            Sets::Deep(set) => set.remove(thread),
        }
    }

    /// The thread that a core takes next. It reads at most eight words, at each depth.
    pub fn pick<L: Ledger>(&self, core: CoreNo, steps: &mut Steps<L>) -> Option<ThreadNo>
        requires { core < self.now.cores }
        ensures ready { (rows : List ReadyRow) → StandsForRows self.now rows → result ≡ pick_among rows core }
        ensures held { IfSome result (λ thread. (thread < self.now.threads) × (is_held self.now thread ≡ true)) }
        ensures cost { steps.new ≤ steps.old + 8 }
    {
        match &self.sets {
            Sets::Shallow(set) => set.pick(core, steps),
            Sets::Middle(set) => set.pick(core, steps),
            Sets::Deep(set) => set.pick(core, steps),
        }
    }
}
