ghost use Rattle.std.specs.Prelude.{◌≡◌, ◌*◌, ◌<◌, ◌≤◌, None, [], count_by, length, option_map, replicate, IfOk, is_some};
ghost use Rattle.std.specs.Borrow.{sem};
ghost use Rattle.mem_pool.specs.Pools.{IsSound, after_alloc, free_block, holds_block, holder_of, is_free, last_block, place_of};
ghost use Rattle.mem_pool.specs.Frees.{Frees, GivesBack};
ghost use Rattle.mem_pool.specs.LendsWaiters.{LendsWaiters};

use crate::bits::Bits;
use crate::freed::Freed;
use rt_base::{ThreadNo, WaitOrder};
use std::alloc::{AllocError, Global};
use std::marker::Model;
use susp_list::SuspList;

/// A memory pool, as RT-Thread's `rt_mempool`: 1 to 64 blocks of one size, and the threads that wait
/// for one of them. Block `k` has the bytes from `k` times the size up to the next block's first. That
/// a pool knows who holds which block is this project's own.
///
/// Contracts see the size, for each block the thread that holds it, the held blocks in the order in
/// which they were got, and the waiters. In every pool each block is free or has one holder, and the
/// held blocks stand in that order once each, so that none is lost. A free block is found by a bitmap.
/// No call but `new` takes memory.
#[derive(Drop)]
pub struct MemPool {
    size: u16,
    holders: Vec<Option<ThreadNo>>,
    free: Bits,
    held: Vec<u8>,
    waiters: SuspList,
}

impl Model for MemPool {
    ghost use Rattle.mem_pool.specs.Pools.{PoolBlocks, IsKept};
    ghost use Rattle.std.specs.Prelude.{vec_capacity};

    ghost Value = { PoolBlocks };

    ghost view = { λ p. record { size = p.size; blocks = p.holders.items; held = p.held.items; waiters = p.waiters } };

    ghost invariant = { λ p. IsKept p.holders.items p.free.word p.held.items (vec_capacity p.held) };
}

// The place of a block: the number of its first byte.
fn place_of(block: u8, size: u16) -> u32
    ensures { result ≡ block * size }
{
    block as u32 * size as u32
}

impl MemPool {
    /// A pool of 1 to 64 free blocks of 1 to 65535 bytes each that nobody waits for, with room for the
    /// threads below a number to wait, in an order. The only error is want of memory.
    pub fn new(
        alloc: Global,
        blocks: u8,
        size: u16,
        order: WaitOrder,
        threads: u16,
    ) -> Result<MemPool, AllocError>
        requires blocks_some { 0 < blocks }
        requires blocks_few { blocks ≤ 64 }
        requires size_some { 0 < size }
        ensures { IfOk result (λ p. p ≡ record {
          size = size;
          blocks = replicate blocks None;
          held = [];
          waiters = record { order = order; rows = replicate threads None };
        }) }
    {
        let holders = vec![in alloc; None; blocks as usize]?;
        let held = Vec::with_capacity(alloc, blocks as usize)?;
        let waiters = SuspList::new(alloc, order, threads)?;
        Ok(MemPool {
            size,
            holders,
            free: Bits::below(blocks),
            held,
            waiters,
        })
    }

    /// Gives a thread the free block of the least number, and tells the block's place, as RT-Thread's
    /// `rt_mp_alloc` without a wait: `None` exactly where no block is free. It doesn't look at the waiters.
    pub fn try_alloc(&mut self, thread: ThreadNo) -> Option<u32>
        ensures place { result ≡ option_map (place_of self.old) (free_block self.old) }
        ensures state { self.new ≡ after_alloc self.old (free_block self.old) thread }
        ensures waiters { self.new.waiters ≡ self.old.waiters }
    {
        let block = self.free.lowest()?;
        self.free.remove(block);
        self.holders[block as usize] = Some(thread);
        self.held.push_reserved(block);
        Some(place_of(block, self.size))
    }

    /// Takes back the block that a thread got last of those that it holds, as RT-Thread's `rt_mp_free`
    /// does with a block that the caller names. A block that was passed to the thread was got then.
    /// `NotHeld` comes exactly where it holds none; else `Passed` exactly where
    /// somebody waits, with the first waiter, which has left the wait list and holds the block; else the
    /// block is free, and `Back` comes. Both tell the block's place.
    pub fn free(&mut self, thread: ThreadNo) -> Freed
        ensures exactly { Frees self.old thread self.new result }
        ensures room { length self.new.waiters.rows ≡ length self.old.waiters.rows }
    {
        let first = self.waiters.first();
        let freed = self.give_back(thread, first);
        if let Freed::Passed(waiter, _) = freed {
            self.waiters.leave(waiter);
        }
        freed
    }

    /// Takes back the block that a thread got last of those that it holds, for a caller who knows who is to
    /// have it next: `NotHeld` comes exactly where it holds none; else that thread holds it, got last, and
    /// `Passed` comes; where there is no such thread, the block is free, and `Back` comes. Both tell the
    /// block's place. It doesn't look at the waiters.
    pub fn give_back(&mut self, thread: ThreadNo, next: Option<ThreadNo>) -> Freed
        ensures exactly { GivesBack self.old thread next self.new result }
        ensures waiters { self.new.waiters ≡ self.old.waiters }
    {
        let Some(block) = self.last_block(thread) else {
            return Freed::NotHeld;
        };
        let place = place_of(block, self.size);
        self.held.retain(|other| *other != block);
        let Some(next) = next else {
            self.holders[block as usize] = None;
            self.free.insert(block);
            return Freed::Back(place);
        };
        self.holders[block as usize] = Some(next);
        self.held.push_reserved(block);
        Freed::Passed(next, place)
    }

    /// The threads that wait for a block.
    pub fn waiters(&mut self) -> &mut SuspList
        ensures* lent { sem 𝓛 (LendsWaiters self.entry result) }
        ensures value { result.now ≡ self.old.waiters }
    {
        &mut self.waiters
    }

    /// Whether a block is free.
    pub fn has_free(&self) -> bool
        ensures { result ≡ is_some (free_block self.now) }
    {
        self.free.lowest().is_some()
    }

    /// The number of free blocks.
    pub fn free_count(&self) -> u8
        ensures count { result ≡ count_by is_free self.now.blocks }
        // Each held block stands once among the held ones and a free one doesn't, and together they are all.
        ensures sound { IsSound self.now.blocks self.now.held }
    {
        (self.holders.len() - self.held.len()) as u8
    }

    // The block that a thread got last of those that it holds.
    fn last_block(&self, thread: ThreadNo) -> Option<u8>
        ensures { result ≡ last_block self.now thread }
    {
        self.held
            .iter()
            .rev()
            .find(|block| self.has(**block, thread))
            .copied()
    }

    // Whether a thread holds a block.
    fn has(&self, block: u8, thread: ThreadNo) -> bool
        ensures { result ≡ holds_block thread (holder_of self.now block) }
    {
        matches!(self.holders.get(block as usize), Some(Some(holder)) if holder.0 == thread.0)
    }
}
