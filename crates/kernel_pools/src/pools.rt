ghost use Rattle.std.specs.Prelude.{◌≡◌, ◌<◌, None, is_some, length, IfSome, MatchOption};
ghost use Rattle.std.specs.List.{position_from};
ghost use Rattle.std.specs.Option.{option_map};
ghost use Rattle.std.specs.Str.{bytes_eq};
ghost use Rattle.rt_plain.specs.kernel.PoolCalls.{free_block, place_of};
ghost use Rattle.kernel_pools.specs.Pooled.{found_pool, pool_at, pools_given, IsPool, Returns};

use crate::named::NamedPool;
use mem_pool::Freed;
use rt_base::{Name, ObjNo, ThreadNo, WaitOrder};
use std::marker::Model;

/// The memory pools of a board, by number and by name. Contracts see the plain pools, newest first. No two have one
/// name. Who waits for a block isn't known here: whoever gives a block back says which thread is to have it next. No
/// call but `open` takes memory.
#[derive(Drop)]
pub struct Pools {
    pub(crate) pools: Vec<NamedPool>,
}

impl Model for Pools {
    ghost use Rattle.std.specs.Prelude.{List};
    ghost use Rattle.rt_plain.specs.kernel.State.{Pool};
    ghost use Rattle.kernel_pools.specs.Pooled.{ArePooled};

    ghost Value = { List Pool };

    ghost view = { λ p. p.pools.items };

    ghost invariant = { λ p. ArePooled p.pools.items };
}

// Where the pool of a name stands.
fn position(pools: &[NamedPool], name: &[u8]) -> Option<usize>
    ensures found { result ≡ position_from (λ pool. bytes_eq pool.name name.now) 0 pools.now }
    ensures within { IfSome result (λ place. place < length pools.now) }
{
    pools.iter().position(|pool| pool.is_named(name))
}

impl Pools {
    /// The number of the pool of a name: `None` exactly where there is none.
    pub fn find(&self, name: &Name) -> Option<ObjNo>
        ensures { MatchOption result (found_pool self.now name.now ≡ None) (IsPool self.now name.now) }
    {
        let place = position(&self.pools, name.bytes())?;
        Some(ObjNo(place as u16))
    }

    /// The order of those who wait for a block of a pool.
    pub fn order(&self, o: ObjNo) -> WaitOrder
        requires { o < length self.now }
        ensures { result ≡ (pool_at self.now o).order }
    {
        self.pools[o.0 as usize].order()
    }

    /// Whether a block of a pool is free.
    pub fn has_free(&self, o: ObjNo) -> bool
        requires { o < length self.now }
        ensures { result ≡ is_some (free_block (pool_at self.now o)) }
    {
        self.pools[o.0 as usize].has_free()
    }

    /// Gives a thread the free block of the least number of a pool, and tells the block's place, as RT-Thread's
    /// `rt_mp_alloc` without a wait: `None` exactly where no block is free.
    pub fn give(&mut self, o: ObjNo, t: ThreadNo) -> Option<u32>
        requires { o < length self.old }
        ensures place { result ≡ option_map (place_of (pool_at self.old o)) (free_block (pool_at self.old o)) }
        ensures state { self.new ≡ pools_given self.old (pool_at self.old o) (free_block (pool_at self.old o)) t }
    {
        self.pools[o.0 as usize].give(t)
    }

    /// Takes back the block of a pool that a thread got last of those that it holds: `NotHeld` comes exactly where it
    /// holds none. Else `Passed` comes exactly where a thread is named that is to have the block next, which holds it
    /// then, got last; else the block is free, and `Back` comes. Both tell the block's place.
    pub fn give_back(&mut self, o: ObjNo, t: ThreadNo, next: Option<ThreadNo>) -> Freed
        requires { o < length self.old }
        ensures { Returns self.old (pool_at self.old o) t next self.new result }
    {
        self.pools[o.0 as usize].give_back(t, next)
    }
}
