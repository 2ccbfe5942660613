ghost use Rattle.std.specs.Prelude.{◌≡◌, map, reverse, All, IfOk};
ghost use Rattle.rt_plain.specs.kernel.Opening.{new_pool};
ghost use Rattle.kernel_pools.specs.Pooled.{IsSized};

use crate::named::NamedPool;
use crate::pools::Pools;
use rt_plain::{Board, PoolDef};
use std::alloc::{AllocError, Global};

// The pools of a board, the last one first.
fn pools_of(alloc: Global, defs: &[PoolDef]) -> Result<Vec<NamedPool>, AllocError>
    requires { All IsSized defs.now }
    ensures { IfOk result (λ pools. pools.items ≡ reverse (map new_pool defs.now)) }
{
    let mut pools = Vec::with_capacity(alloc, defs.len())?;
    for def in defs {
        pools.push_reserved(NamedPool::new(alloc, def)?);
    }
    pools.reverse();
    Ok(pools)
}

impl Pools {
    /// The pools of the board, with all their blocks free. The one refusal is want of memory.
    pub fn open(alloc: Global, board: &Board) -> Result<Pools, AllocError>
        ensures { IfOk result (λ pools. pools ≡ reverse (map new_pool board.now.pools)) }
    {
        let pools = pools_of(alloc, board.pools.as_slice())?;
        Ok(Pools { pools })
    }
}
