ghost use Rattle.std.specs.Prelude.{◌≡◌, ◌≤◌, ◌<◌, length, is_some, IsTrue, IfSome};
ghost use Rattle.std.specs.List.{list_all};
ghost use Rattle.rt_base.specs.Grammar.{is_name, is_name_byte};

use arrayvec::ArrayVec;
use std::marker::Model;

/// The name of a kernel object: 1 to 8 bytes of `A-Z a-z 0-9 _`. Contracts see it as its bytes.
///
/// RT-Thread has names of up to 8 bytes; which bytes, and that a class has no name twice, is this project's own.
#[derive(Drop, PartialEq, Eq)]
pub struct Name {
    bytes: ArrayVec<u8, 8>,
}

impl Model for Name {
    ghost use Rattle.std.specs.Prelude.{List, ℕ, IsTrue};
    ghost use Rattle.rt_base.specs.Grammar.{is_name};

    ghost Value = { List ℕ };

    ghost view = { λ n. n.bytes.items };

    ghost invariant = { λ n. IsTrue (is_name n.bytes.items) };

    ghost inverse = { λ xs. record { bytes = record { items = xs } } };
}

fn is_name_byte(byte: u8) -> bool
    ensures { result ≡ is_name_byte byte }
{
    byte.is_ascii_alphanumeric() || byte == b'_'
}

fn has_name_bytes(text: &[u8]) -> bool
    ensures { result ≡ list_all is_name_byte text.now }
{
    text.iter().all(|b| is_name_byte(*b))
}

fn is_name(text: &[u8]) -> bool
    ensures value { result ≡ is_name text.now }
    ensures fits { IsTrue result → length text.now ≤ 8 }
{
    if text.len() == 0 || text.len() > 8 {
        return false;
    }
    has_name_bytes(text)
}

impl Name {
    /// The name of these bytes. `None` exactly where they aren't 1 to 8 bytes of `A-Z a-z 0-9 _`.
    pub fn read(text: &[u8]) -> Option<Name>
        ensures some { IfSome result (λ name. name ≡ text.now) }
        ensures exactly { is_some result ≡ is_name text.now }
    {
        if !is_name(text) {
            return None;
        }
        let mut bytes = ArrayVec::new();
        let _ = bytes.try_extend_from_slice(text);
        Some(Name { bytes })
    }

    /// Its 1 to 8 bytes.
    pub fn bytes(&self) -> &[u8]
        ensures bytes { result.now ≡ self.now }
        ensures is_name { IsTrue (is_name result.now) }
    {
        self.bytes.as_slice()
    }

    /// The same name. It takes no memory.
    pub fn copy(&self) -> Name
        ensures { result ≡ self.now }
    {
        let mut bytes = ArrayVec::new();
        let _ = bytes.try_extend_from_slice(self.bytes.as_slice());
        Name { bytes }
    }
}
