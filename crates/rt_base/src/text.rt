ghost use Rattle.std.specs.Prelude.{◌≡◌, is_some, IfSome, IsTrue};
ghost use Rattle.rt_base.specs.Grammar.{is_text};

use arrayvec::ArrayVec;
use std::marker::Model;

/// A text of a board or a trace: 1 to 64 bytes of any value. Contracts see it as its bytes.
#[derive(Drop, PartialEq, Eq)]
pub struct Text {
    bytes: ArrayVec<u8, 64>,
}

impl Model for Text {
    ghost use Rattle.std.specs.Prelude.{List, ℕ, IsTrue};
    ghost use Rattle.rt_base.specs.Grammar.{is_text};

    ghost Value = { List ℕ };

    ghost view = { λ n. n.bytes.items };

    ghost invariant = { λ n. IsTrue (is_text n.bytes.items) };

    ghost inverse = { λ xs. record { bytes = record { items = xs } } };
}

impl Text {
    /// The text of these bytes. `None` exactly where they aren't 1 to 64.
    pub fn read(text: &[u8]) -> Option<Text>
        ensures some { IfSome result (λ t. t ≡ text.now) }
        ensures exactly { is_some result ≡ is_text text.now }
    {
        if text.len() == 0 || text.len() > 64 {
            return None;
        }
        let mut bytes = ArrayVec::new();
        let _ = bytes.try_extend_from_slice(text);
        Some(Text { bytes })
    }

    /// Its 1 to 64 bytes.
    pub fn bytes(&self) -> &[u8]
        ensures bytes { result.now ≡ self.now }
        ensures is_text { IsTrue (is_text result.now) }
    {
        self.bytes.as_slice()
    }

    /// The same text. It takes no memory.
    pub fn copy(&self) -> Text
        ensures { result ≡ self.now }
    {
        let mut bytes = ArrayVec::new();
        let _ = bytes.try_extend_from_slice(self.bytes.as_slice());
        Text { bytes }
    }
}
