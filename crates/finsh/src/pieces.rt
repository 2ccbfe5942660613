//! A piece of what the shell prints: the bytes of one `print` line.
ghost use Rattle.std.specs.Prelude.{◌≡◌, ◌+◌, ◌≤◌, ◌<◌, ◌++◌, [], ◌∷◌, length, replicate};
ghost use Rattle.rt_plain.specs.declared.line.Line.{Line as Printed};

use arrayvec::ArrayVec;
use rt_base::Text;
use rt_plain::{Line, Lines};
use std::marker::Model;

/// At most 64 bytes, put together part by part.
#[derive(Drop)]
pub(crate) struct Piece {
    bytes: ArrayVec<u8, 64>,
}

impl Model for Piece {
    ghost use Rattle.std.specs.Prelude.{List, ℕ, ◌≤◌, length};

    ghost Value = { List ℕ };

    ghost view = { λ p. p.bytes.items };

    ghost invariant = { λ p. length p.bytes.items ≤ 64 };
}

impl Piece {
    // No bytes.
    pub(crate) fn new() -> Piece
        ensures { result ≡ [] }
    {
        Piece {
            bytes: ArrayVec::new(),
        }
    }

    // Adds bytes at the end, where there is room for them.
    pub(crate) fn put(&mut self, bytes: &[u8])
        requires { length self.old + length bytes.now ≤ 64 }
        ensures { self.new ≡ self.old ++ bytes.now }
    {
        if self.bytes.try_extend_from_slice(bytes).is_err() {
            unreachable!();
        }
    }

    // Adds spaces at the end, where there is room for them.
    pub(crate) fn fill(&mut self, count: usize)
        requires { length self.old + count ≤ 64 }
        ensures { self.new ≡ self.old ++ replicate count 32 }
    {
        for _i in 0..count {
            self.put(b" ");
        }
    }

    // Prints the bytes, of which there are some.
    pub(crate) fn print(&self, out: &mut Lines)
        requires some { 1 ≤ length self.now }
        requires room { length out.old.items < out.old.room }
        ensures items { out.new.items ≡ out.old.items ++ Printed.Print self.now ∷ [] }
        ensures room { out.new.room ≡ out.old.room }
    {
        let Some(text) = Text::read(self.bytes.as_slice()) else {
            unreachable!();
        };
        out.push(Line::Print(text));
    }
}
