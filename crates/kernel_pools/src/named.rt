ghost use Rattle.std.specs.Prelude.{◌≡◌, ◌<◌, ◌≤◌, IfOk, is_some};
ghost use Rattle.std.specs.Option.{option_map};
ghost use Rattle.std.specs.Str.{bytes_eq};
ghost use Rattle.rt_plain.specs.kernel.Opening.{new_pool};
ghost use Rattle.rt_plain.specs.kernel.PoolCalls.{free_block, place_of};
ghost use Rattle.kernel_pools.specs.Pooled.{given_to, ReturnsBlock};

use mem_pool::{Freed, MemPool};
use rt_base::{Name, ThreadNo, WaitOrder};
use rt_plain::PoolDef;
use std::alloc::{AllocError, Global};
use std::marker::Model;

// A memory pool with its name and the order of its waiters, who don't stand in it. Contracts see the plain pool.
#[derive(Drop)]
pub struct NamedPool {
    pub name: Name,
    pub order: WaitOrder,
    blocks: MemPool,
}

impl Model for NamedPool {
    ghost use Rattle.rt_plain.specs.kernel.State.{Pool};
    ghost use Rattle.kernel_pools.specs.Pooled.{plain_pool};

    ghost Value = { Pool };

    ghost view = { λ p. plain_pool p.name p.order p.blocks };
}

impl NamedPool {
    // A pool of the board, whose blocks are all free.
    pub fn new(alloc: Global, def: &PoolDef) -> Result<NamedPool, AllocError>
        requires blocks_some { 1 ≤ def.now.blocks }
        requires blocks_few { def.now.blocks ≤ 64 }
        requires size_some { 1 ≤ def.now.size }
        ensures { IfOk result (λ pool. pool ≡ new_pool def.now) }
    {
        // Nobody waits in the pool itself.
        let blocks = MemPool::new(alloc, def.blocks, def.size, def.order, 0)?;
        Ok(NamedPool {
            name: def.name.copy(),
            order: def.order,
            blocks,
        })
    }

    // Whether this is its name.
    pub fn is_named(&self, name: &[u8]) -> bool
        ensures { result ≡ bytes_eq self.now.name name.now }
    {
        self.name.bytes() == name
    }

    // The order of those who wait for a block.
    pub fn order(&self) -> WaitOrder
        ensures { result ≡ self.now.order }
    {
        self.order
    }

    // Whether a block is free.
    pub fn has_free(&self) -> bool
        ensures { result ≡ is_some (free_block self.now) }
    {
        self.blocks.has_free()
    }

    // A thread gets the free block of the least number, whose place is told.
    pub fn give(&mut self, t: ThreadNo) -> Option<u32>
        ensures place { result ≡ option_map (place_of self.old) (free_block self.old) }
        ensures state { self.new ≡ given_to self.old (free_block self.old) t }
    {
        self.blocks.try_alloc(t)
    }

    // The block that a thread got last goes to another one, if there is one, or is free.
    pub fn give_back(&mut self, t: ThreadNo, next: Option<ThreadNo>) -> Freed
        ensures { ReturnsBlock self.old t next self.new result }
    {
        self.blocks.give_back(t, next)
    }
}
