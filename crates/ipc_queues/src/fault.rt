/// There is no room for one more.
#[derive(Clone, Copy, Debug, PartialEq, Eq)]
pub struct Full;

/// There is nothing to receive.
#[derive(Clone, Copy, Debug, PartialEq, Eq)]
pub struct Empty;

/// Why a message is refused.
#[derive(Clone, Copy, Debug, PartialEq, Eq)]
pub enum PutFault {
    /// The message has `len` bytes, and the queue takes at most `max`.
    TooLong { len: usize, max: u8 },
    /// The message is short enough, and there is no room for one more.
    Full,
}
