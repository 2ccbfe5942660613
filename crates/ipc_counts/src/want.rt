ghost use Rattle.std.specs.Prelude.{◌≡◌};
ghost use Rattle.rt_plain.specs.kernel.EventCalls.{is_satisfied, flags_after};
ghost use Rattle.ipc_counts.specs.Flags.{plain_want};

/// Which flags a receiver wants.
#[derive(Clone, Copy, Debug, PartialEq, Eq)]
pub struct Want {
    /// The flags that are wanted.
    pub mask: u32,
    /// Whether all of them are wanted, and not just any of them.
    pub all: bool,
    /// Whether those of the mask are cleared once the receiver is satisfied.
    pub clear: bool,
}

impl Want {
    // Whether the flags satisfy the receiver.
    pub(crate) fn is_satisfied(&self, flags: u32) -> bool
        ensures { result ≡ is_satisfied flags (plain_want self.now) }
    {
        if self.all {
            flags & self.mask == self.mask
        } else {
            flags & self.mask != 0
        }
    }

    // The flags after the receiver was satisfied.
    pub(crate) fn flags_after(&self, flags: u32) -> u32
        ensures { result ≡ flags_after flags (plain_want self.now) }
    {
        if self.clear {
            flags ^ (flags & self.mask)
        } else {
            flags
        }
    }
}
