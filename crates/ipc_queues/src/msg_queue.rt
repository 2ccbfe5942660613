ghost use Rattle.std.specs.Prelude.{◌≡◌, ◌<◌, ◌≤◌, ◌∷◌, ◌++◌, ◌↔◌, [], length, IsOk, IsErr, IfOk, IfErr, OnOk, OnErr};
ghost use Rattle.ipc_queues.specs.Queues.{Takes, IsCause};

use crate::fault::{Empty, PutFault};
use circular_buffer::HeapCircularBuffer;
use rt_base::Text;
use std::alloc::{AllocError, Global};
use std::marker::Model;

/// A list of at most `size` messages of at most `max` bytes each. Contracts see its messages and
/// both numbers.
#[derive(Drop)]
pub struct MsgQueue {
    ring: HeapCircularBuffer<Text>,
    max: u8,
}

impl Model for MsgQueue {
    ghost use Rattle.std.specs.Prelude.{◌<◌, ◌≤◌, length};
    ghost use Rattle.ipc_queues.specs.Queues.{PlainMsgQueue};

    ghost Value = { PlainMsgQueue };

    ghost view = { λ q. record { messages = q.ring.items; max = q.max; size = q.ring.capacity } };

    ghost invariant = { λ q.
        (length q.ring.items ≤ q.ring.capacity) × (q.ring.capacity < 256) };
}

impl MsgQueue {
    /// An empty queue for `size` messages of at most `max` bytes. It is the only call that takes
    /// memory.
    pub fn new(alloc: Global, max: u8, size: u8) -> Result<MsgQueue, AllocError>
        ensures { IfOk result (λ queue.
            queue ≡ record { messages = []; max = max; size = size }) }
    {
        let ring = HeapCircularBuffer::with_capacity(alloc, size as usize)?;
        Ok(MsgQueue { ring, max })
    }

    /// How many messages it holds.
    pub fn len(&self) -> u8
        ensures len { result ≡ length self.now.messages }
        ensures within { result ≤ self.now.size }
    {
        self.ring.len() as u8
    }

    /// How many messages it may hold.
    pub fn size(&self) -> u8
        ensures { result ≡ self.now.size }
    {
        self.ring.capacity() as u8
    }

    /// The most bytes of one message.
    pub fn max(&self) -> u8
        ensures { result ≡ self.now.max }
    {
        self.max
    }

    // A copy of a text that isn't too long.
    fn short_copy(&self, text: &Text) -> Result<Text, PutFault>
        ensures short { IsOk result ↔ (length text.now ≤ self.now.max) }
        ensures copy { IfOk result (λ copy. copy ≡ text.now) }
        ensures too_long { IfErr result (λ fault.
            fault ≡ PutFault.TooLong (length text.now) self.now.max) }
    {
        let len = text.bytes().len();
        if len > self.max as usize {
            return Err(PutFault::TooLong { len, max: self.max });
        }
        Ok(text.copy())
    }

    /// Puts a copy of a text at the end, as RT-Thread's `rt_mq_send`. `TooLong` comes exactly where
    /// the text has more than `max` bytes, and else `Full` exactly where the queue holds as many
    /// messages as its size.
    pub fn try_send(&mut self, text: &Text) -> Result<(), PutFault>
        ensures room { IsOk result ↔ Takes self.old text.now }
        ensures sent { OnOk result
            (self.new ≡ record self.old { messages = self.old.messages ++ text.now ∷ [] }) }
        ensures cause { IfErr result (IsCause self.old text.now) }
        ensures unchanged { OnErr result (self.new ≡ self.old) }
    {
        let message = self.short_copy(text)?;
        self.ring.try_push_back(message).map_err(|_| PutFault::Full)
    }

    /// Puts a copy of a text at the front, as RT-Thread's `rt_mq_urgent`. `TooLong` and `Full` come
    /// exactly where they come from `try_send`.
    pub fn try_urgent(&mut self, text: &Text) -> Result<(), PutFault>
        ensures room { IsOk result ↔ Takes self.old text.now }
        ensures sent { OnOk result
            (self.new ≡ record self.old { messages = text.now ∷ self.old.messages }) }
        ensures cause { IfErr result (IsCause self.old text.now) }
        ensures unchanged { OnErr result (self.new ≡ self.old) }
    {
        let message = self.short_copy(text)?;
        self.ring
            .try_push_front(message)
            .map_err(|_| PutFault::Full)
    }

    /// Takes the message at the front, as RT-Thread's `rt_mq_recv` without a wait. `Empty` comes
    /// exactly where the queue holds none.
    pub fn try_recv(&mut self) -> Result<Text, Empty>
        ensures received { IfOk result (λ message.
            self.old ≡ record self.new { messages = message ∷ self.new.messages }) }
        ensures empty { IsErr result ↔ (self.old.messages ≡ []) }
        ensures unchanged { OnErr result (self.new ≡ self.old) }
    {
        self.ring.pop_front().ok_or(Empty)
    }
}
