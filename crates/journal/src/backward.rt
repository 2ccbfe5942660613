//! Short texts that are written from their end to their beginning, as digits come.
ghost use Rattle.std.specs.Prelude.{◌≡◌, ◌+◌, ◌≤◌, ◌++◌, [], length, decimal};

use itoa::write_digits;
use std::marker::Model;

// The most bytes of such a text.
const ROOM: usize = 80;

/// A text of at most 80 bytes, to whose front more is put. All of it goes out at once, which is cheaper than piece by
/// piece.
#[derive(Drop)]
pub(crate) struct Backward {
    bytes: [u8; ROOM],
    start: usize,
}

impl Model for Backward {
    ghost use Rattle.std.specs.Prelude.{◌≤◌, drop, List, ℕ};

    ghost Value = { List ℕ };

    ghost view = { λ b. drop b.start b.bytes };

    ghost invariant = { λ b. b.start ≤ 80 };
}

impl Backward {
    #[inline]
    pub(crate) fn new() -> Backward
        ensures { result ≡ [] }
    {
        Backward {
            bytes: [0; ROOM],
            start: ROOM,
        }
    }

    /// Puts bytes in front.
    #[inline]
    pub(crate) fn put(&mut self, bytes: &[u8])
        requires { length bytes.now + length self.old ≤ 80 }
        ensures { self.new ≡ bytes.now ++ self.old }
    {
        let end = self.start;
        self.start -= bytes.len();
        self.bytes[self.start..end].copy_from_slice(bytes);
    }

    /// Puts a number in digits in front, of which there are at most 20.
    #[inline]
    pub(crate) fn put_number(&mut self, n: u64)
        requires { length self.old + 20 ≤ 80 }
        ensures text { self.new ≡ decimal n ++ self.old }
        ensures short { length self.new ≤ length self.old + 20 }
    {
        self.start = write_digits(n, &mut self.bytes, self.start);
    }

    /// The text.
    #[inline]
    pub(crate) fn as_slice(&self) -> &[u8]
        ensures { result.now ≡ self.now }
    {
        &self.bytes[self.start..]
    }
}
