//! A law of memory pools: it is the contract of a function that does nothing.
ghost use Rattle.std.specs.Prelude.{ℕ, ◌≡◌, ◌≢◌, ◌+◌, ◌≤◌};
ghost use Rattle.std.proofs.Common.{◌⊎◌};
ghost use Rattle.mem_pool.specs.Pools.{PoolBlocks, place_of};

/// The bytes of two blocks don't overlap: one block ends before the other one begins.
pub fn blocks_are_apart()
    ensures { (p : PoolBlocks) (j k : ℕ) → j ≢ k →
        (place_of p j + p.size ≤ place_of p k) ⊎ (place_of p k + p.size ≤ place_of p j) }
{}
