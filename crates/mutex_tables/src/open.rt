ghost use Rattle.std.specs.Prelude.{◌≡◌, ◌≤◌, [], length, map, reverse, IfOk};
ghost use Rattle.rt_plain.specs.kernel.Opening.{new_mutex, new_script_thread};
ghost use Rattle.kernel_tables.specs.Opened.{MayOpen};
ghost use Rattle.mutex_tie.specs.Tie.{graph_of_threads};
ghost use Rattle.mutex_tables.specs.Opened.{MayCreate, MayOpenAll, bare, opened};

use crate::tables::MutexTables;
use kernel_tables::Tables;
use mutex_chain::MutexGraph;
use object_box::{ClassLimits, Objects};
use rt_base::{Prio, ThreadNo};
use rt_plain::{Board, MutexDef, ThreadDef};
use std::alloc::{AllocError, Global};

// The base priorities of the threads of a board.
fn bases_of(alloc: Global, defs: &[ThreadDef]) -> Result<Vec<Prio>, AllocError>
    ensures { IfOk result (λ bases. bases.items ≡ map (λ def. def.prio) defs.now) }
{
    let mut bases = Vec::with_capacity(alloc, defs.len())?;
    for def in defs {
        bases.push_reserved(def.prio);
    }
    Ok(bases)
}

// No mutex, with room for so many.
fn names_of(alloc: Global, mutexes: u16) -> Result<Objects, AllocError>
    ensures { IfOk result (λ names. names.mutex ≡ record { limit = mutexes; objects = [] }) }
{
    let limits = ClassLimits {
        thread: 0,
        sem: 0,
        event: 0,
        mutex: mutexes,
        mailbox: 0,
        msgqueue: 0,
        timer: 0,
        device: 0,
    };
    Objects::new(alloc, limits)
}

// The threads of a board, without a mutex, with room for so many.
fn graph_of(alloc: Global, defs: &[ThreadDef], mutexes: u16) -> Result<MutexGraph, AllocError>
    requires { length defs.now ≤ 256 }
    ensures { IfOk result (λ graph. graph ≡ graph_of_threads (map new_script_thread defs.now) mutexes) }
{
    let mut graph = MutexGraph::new(alloc, defs.len() as u16, mutexes)?;
    for i in 0..defs.len() {
        graph.add_thread(ThreadNo(i as u16), defs[i].prio);
    }
    Ok(graph)
}

impl MutexTables {
    // The mutexes of the board, in its order.
    fn create_mutexes(&mut self, defs: &[MutexDef])
        requires { MayCreate self.old defs.now }
        ensures { self.new ≡ record self.old { mutexes = reverse (map new_mutex defs.now) } }
    {
        for def in defs {
            let _ = self.create_mutex(def.name.copy(), def.ceiling);
        }
    }

    // All but the mutexes of a board.
    fn without_mutexes(alloc: Global, board: &Board) -> Result<MutexTables, AllocError>
        requires { MayOpen board.now }
        ensures { IfOk result (λ k. k ≡ bare board.now) }
    {
        let defs = board.threads.as_slice();
        let bases = bases_of(alloc, defs)?;
        let names = names_of(alloc, board.limits.mutex)?;
        let graph = graph_of(alloc, defs, board.limits.mutex)?;
        let tables = Tables::open(alloc, board)?;
        Ok(MutexTables {
            tables,
            bases,
            names,
            graph,
        })
    }

    /// The threads and the objects of a board as it opens, with room for as many objects of each class as it says. No
    /// other call takes memory. The one refusal is want of memory.
    pub fn open(alloc: Global, board: &Board) -> Result<MutexTables, AllocError>
        requires { MayOpenAll board.now }
        ensures { IfOk result (λ k. k ≡ opened board.now) }
    {
        let mut tables = MutexTables::without_mutexes(alloc, board)?;
        tables.create_mutexes(board.mutexes.as_slice());
        Ok(tables)
    }
}
