use rt_base::ThreadNo;

/// What became of a block that a thread gave back. A place is the number of the block's first byte in the pool.
#[derive(Clone, Copy, Debug, PartialEq, Eq)]
pub enum Freed {
    /// The thread holds no block, and nothing has changed.
    NotHeld,
    /// The first waiter has left the wait list and holds the block, whose place is told.
    Passed(ThreadNo, u32),
    /// Nobody waited, and the block at this place is free.
    Back(u32),
}
