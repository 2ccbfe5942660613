ghost use Rattle.std.specs.Prelude.{◌≡◌, ◌<◌, ◌≤◌, ◌∷◌, ◌++◌, ◌↔◌, [], length, IsOk, IsErr, IfOk, OnOk, OnErr};

use crate::fault::{Empty, Full};
use circular_buffer::HeapCircularBuffer;
use std::alloc::{AllocError, Global};
use std::marker::Model;

/// A list of words that holds at most `size` of them. Contracts see its words and its size.
#[derive(Drop)]
pub struct Mailbox {
    ring: HeapCircularBuffer<u32>,
}

impl Model for Mailbox {
    ghost use Rattle.std.specs.Prelude.{◌<◌, ◌≤◌, length};
    ghost use Rattle.ipc_queues.specs.Queues.{PlainMailbox};

    ghost Value = { PlainMailbox };

    ghost view = { λ m. record { words = m.ring.items; size = m.ring.capacity } };

    ghost invariant = { λ m.
        (length m.ring.items ≤ m.ring.capacity) × (m.ring.capacity < 256) };
}

impl Mailbox {
    /// An empty mailbox for `size` words, 0 among the sizes. It is the only call that takes memory.
    pub fn new(alloc: Global, size: u8) -> Result<Mailbox, AllocError>
        ensures { IfOk result (λ mailbox. mailbox ≡ record { words = []; size = size }) }
    {
        let ring = HeapCircularBuffer::with_capacity(alloc, size as usize)?;
        Ok(Mailbox { ring })
    }

    /// How many words it holds.
    pub fn len(&self) -> u8
        ensures len { result ≡ length self.now.words }
        ensures within { result ≤ self.now.size }
    {
        self.ring.len() as u8
    }

    /// How many words it may hold.
    pub fn size(&self) -> u8
        ensures { result ≡ self.now.size }
    {
        self.ring.capacity() as u8
    }

    /// Puts a word at the end, as RT-Thread's `rt_mb_send`. `Full` comes exactly where it holds as
    /// many words as its size.
    pub fn try_send(&mut self, word: u32) -> Result<(), Full>
        ensures room { IsOk result ↔ (length self.old.words < self.old.size) }
        ensures sent { OnOk result
            (self.new ≡ record self.old { words = self.old.words ++ word ∷ [] }) }
        ensures full { OnErr result (length self.old.words ≡ self.old.size) }
        ensures unchanged { OnErr result (self.new ≡ self.old) }
    {
        self.ring.try_push_back(word).map_err(|_| Full)
    }

    /// Puts a word at the front, as RT-Thread's `rt_mb_urgent`. `Full` comes exactly where it holds
    /// as many words as its size.
    pub fn try_urgent(&mut self, word: u32) -> Result<(), Full>
        ensures room { IsOk result ↔ (length self.old.words < self.old.size) }
        ensures sent { OnOk result
            (self.new ≡ record self.old { words = word ∷ self.old.words }) }
        ensures full { OnErr result (length self.old.words ≡ self.old.size) }
        ensures unchanged { OnErr result (self.new ≡ self.old) }
    {
        self.ring.try_push_front(word).map_err(|_| Full)
    }

    /// Takes the word at the front, as RT-Thread's `rt_mb_recv` without a wait. `Empty` comes exactly
    /// where it holds none.
    pub fn try_recv(&mut self) -> Result<u32, Empty>
        ensures received { IfOk result (λ word.
            self.old ≡ record self.new { words = word ∷ self.new.words }) }
        ensures empty { IsErr result ↔ (self.old.words ≡ []) }
        ensures unchanged { OnErr result (self.new ≡ self.old) }
    {
        self.ring.pop_front().ok_or(Empty)
    }
}
