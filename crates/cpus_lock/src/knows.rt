use rt_base::Event;
use std::collections::LinkedList;

// What a seat of the lock knows. It exists in proofs alone, and no value of it is made.
pub(crate) struct Knows {
    // Whether it isn't spent.
    pub(crate) live: bool,
    pub(crate) holding: bool,
    // For how many cores the lock is.
    pub(crate) cores: u8,
    pub(crate) core: u8,
    pub(crate) root: LinkedList<u8>,
    pub(crate) tries: u64,
    pub(crate) found: u64,
    // The log that the last hold left.
    pub(crate) log: LinkedList<Event>,
    // The log at entering, of a seat that holds.
    pub(crate) entered: LinkedList<Event>,
    // How many cores were given out, in the first seat alone.
    pub(crate) given: u8,
    // What is kept of the seats that were joined into this one.
    pub(crate) kept: LinkedList<Kept>,
}

// What is kept of a joined seat.
pub(crate) struct Kept {
    pub(crate) core: u8,
    pub(crate) root: LinkedList<u8>,
    pub(crate) log: LinkedList<Event>,
    pub(crate) tries: u64,
}
