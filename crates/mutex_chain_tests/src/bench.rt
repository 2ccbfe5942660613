ghost use Rattle.std.specs.Prelude.{◌≡◌, ◌<◌, ◌≤◌, length};

use mutex_chain::{Changes, MutexGraph, Passes, Released, Took, Woken};
use rt_base::{ObjNo, Prio, Steps, ThreadNo};
use std::alloc::Global;
use std::process::Abort;
use std::sync::ledger::Ledger;
use std::test::Fail;

// A graph for 256 threads and 256 mutexes, with the lists that its edits fill.
#[derive(Drop)]
pub struct Bench {
    pub graph: MutexGraph,
    pub out: Changes,
    pub woken: Woken,
    pub passes: Passes,
    ghost threads: { length graph.members ≡ 256 },
    ghost mutexes: { length graph.ceilings ≡ 256 },
    ghost room: { out.threads ≡ 256 },
    ghost woken_room: { woken.threads ≡ 256 },
    ghost passes_room: { passes.threads ≡ 256 },
}

impl Bench {
    pub fn new(alloc: Global) -> Result<Bench, Fail> {
        let graph = MutexGraph::new(alloc, 256, 256)?;
        let out = Changes::new(alloc, 256)?;
        let woken = Woken::new(alloc, 256)?;
        let passes = Passes::new(alloc, 256)?;
        Ok(Bench {
            graph,
            out,
            woken,
            passes,
        })
    }

    pub fn add_thread(&mut self, rt: &impl Abort, thread: u16, base: u8) {
        assert!(rt; thread < 256);
        assert!(rt; !self.graph.has_thread(ThreadNo(thread)));
        self.graph.add_thread(ThreadNo(thread), Prio(base));
    }

    pub fn add_mutex(&mut self, rt: &impl Abort, mutex: u16, ceiling: u8) {
        assert!(rt; mutex < 256);
        assert!(rt; !self.graph.has_mutex(ObjNo(mutex)));
        self.graph.add_mutex(ObjNo(mutex), Prio(ceiling));
    }

    pub fn cur(&self, rt: &impl Abort, thread: u16) -> u8 {
        assert!(rt; thread < 256);
        assert!(rt; self.graph.has_thread(ThreadNo(thread)));
        self.graph.cur(ThreadNo(thread)).0
    }

    pub fn set_base<L: Ledger>(
        &mut self,
        rt: &impl Abort,
        thread: u16,
        base: u8,
        steps: &mut Steps<L>,
    ) {
        assert!(rt; thread < 256);
        assert!(rt; self.graph.has_thread(ThreadNo(thread)));
        self.graph
            .set_base(ThreadNo(thread), Prio(base), &mut self.out, steps);
    }

    pub fn set_ceiling<L: Ledger>(
        &mut self,
        rt: &impl Abort,
        mutex: u16,
        ceiling: u8,
        steps: &mut Steps<L>,
    ) -> u8 {
        assert!(rt; mutex < 256);
        assert!(rt; self.graph.has_mutex(ObjNo(mutex)));
        self.graph
            .set_ceiling(ObjNo(mutex), Prio(ceiling), &mut self.out, steps)
            .0
    }

    // What is said of a mutex: its owner, the hold, the ceiling, the first waiter and the number of waiters.
    pub fn look(
        &self,
        rt: &impl Abort,
        mutex: u16,
    ) -> (Option<ThreadNo>, u8, u8, Option<ThreadNo>, u16) {
        assert!(rt; mutex < 256);
        assert!(rt; self.graph.has_mutex(ObjNo(mutex)));
        (
            self.graph.owner(ObjNo(mutex)),
            self.graph.hold(ObjNo(mutex)),
            self.graph.ceiling(ObjNo(mutex)).0,
            self.graph.first(ObjNo(mutex)),
            self.graph.waiters(ObjNo(mutex)),
        )
    }

    pub fn take<L: Ledger>(
        &mut self,
        rt: &impl Abort,
        thread: u16,
        mutex: u16,
        steps: &mut Steps<L>,
    ) -> Took {
        assert!(rt; thread < 256);
        assert!(rt; mutex < 256);
        assert!(rt; self.graph.has_thread(ThreadNo(thread)));
        assert!(rt; self.graph.has_mutex(ObjNo(mutex)));
        assert!(rt; self.graph.waits(ThreadNo(thread)).is_none());
        self.graph
            .take(ThreadNo(thread), ObjNo(mutex), &mut self.out, steps)
    }

    pub fn wait<L: Ledger>(
        &mut self,
        rt: &impl Abort,
        thread: u16,
        mutex: u16,
        at: u64,
        steps: &mut Steps<L>,
    ) {
        assert!(rt; thread < 256);
        assert!(rt; mutex < 256);
        assert!(rt; self.graph.has_thread(ThreadNo(thread)));
        assert!(rt; self.graph.has_mutex(ObjNo(mutex)));
        assert!(rt; self.graph.waits(ThreadNo(thread)).is_none());
        let owner = self
            .graph
            .owner(ObjNo(mutex))
            .expect(rt, "the mutex has an owner");
        assert!(rt; owner.0 != thread);
        self.graph
            .wait(ThreadNo(thread), ObjNo(mutex), at, &mut self.out, steps);
    }

    pub fn leave<L: Ledger>(&mut self, rt: &impl Abort, thread: u16, steps: &mut Steps<L>) {
        assert!(rt; thread < 256);
        assert!(rt; self.graph.has_thread(ThreadNo(thread)));
        assert!(rt; self.graph.waits(ThreadNo(thread)).is_some());
        self.graph.leave(ThreadNo(thread), &mut self.out, steps);
    }

    pub fn release<L: Ledger>(
        &mut self,
        rt: &impl Abort,
        thread: u16,
        mutex: u16,
        steps: &mut Steps<L>,
    ) -> Released {
        assert!(rt; thread < 256);
        assert!(rt; mutex < 256);
        assert!(rt; self.graph.has_thread(ThreadNo(thread)));
        assert!(rt; self.graph.has_mutex(ObjNo(mutex)));
        self.graph
            .release(ThreadNo(thread), ObjNo(mutex), &mut self.out, steps)
    }

    pub fn kill_mutex<L: Ledger>(&mut self, rt: &impl Abort, mutex: u16, steps: &mut Steps<L>) {
        assert!(rt; mutex < 256);
        assert!(rt; self.graph.has_mutex(ObjNo(mutex)));
        self.graph
            .kill_mutex(ObjNo(mutex), &mut self.woken, &mut self.out, steps);
    }

    pub fn kill_thread<L: Ledger>(&mut self, rt: &impl Abort, thread: u16, steps: &mut Steps<L>) {
        assert!(rt; thread < 256);
        assert!(rt; self.graph.has_thread(ThreadNo(thread)));
        self.graph
            .kill_thread(ThreadNo(thread), &mut self.passes, &mut self.out, steps);
    }
}
