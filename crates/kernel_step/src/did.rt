use rt_base::Halt;

/// What an event of a machine did.
#[derive(Clone, Copy, Debug, PartialEq, Eq)]
pub enum Did {
    /// It made an entry of the journal.
    Entry,
    /// It changed nothing: a core without work, or one that waits for the lock over all cores.
    Same,
    /// The machine has halted so, by this event or before it.
    Halted(Halt),
}
