use rt_base::ThreadNo;

/// How a mutex was taken.
#[derive(Clone, Copy, Debug, PartialEq, Eq)]
pub enum Took {
    /// Nobody owned it: the thread now does.
    Free,
    /// The thread owned it, and has now taken it once more.
    Again,
    /// The thread owns it and has taken it 255 times. Nothing changed.
    HoldFull,
    /// Another thread owns it. Nothing changed.
    Owned(ThreadNo),
}

/// How a mutex was released.
#[derive(Clone, Copy, Debug, PartialEq, Eq)]
pub enum Released {
    /// The thread doesn't own it: this one does, or nobody. Nothing changed.
    NotOwner(Option<ThreadNo>),
    /// The thread had taken it more than once, and so many times are left.
    Held(u8),
    /// It passed to its first waiter.
    Passed(ThreadNo),
    /// Nobody owns it now.
    Free,
}
