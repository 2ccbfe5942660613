ghost use Rattle.std.specs.Prelude.{◌≡◌, ◌≤◌, ◌++◌, [], length, take, drop, min, nat_lt, IfOk};
ghost use Rattle.rt_plain.specs.kernel.DeviceCalls.{pushed_out_count, kept_bytes, fitting_front};

use circular_buffer::HeapCircularBuffer;
use std::alloc::{AllocError, Global};
use std::marker::Model;

/// A receive ring and a transmit ring of bytes. Contracts see the bytes of each and its size.
#[derive(Drop)]
pub struct Serial {
    rx: HeapCircularBuffer<u8>,
    tx: HeapCircularBuffer<u8>,
}

impl Model for Serial {
    ghost use Rattle.std.specs.Prelude.{◌<◌};
    ghost use Rattle.serial_dev.specs.Serial.{PlainSerial};

    ghost Value = { PlainSerial };

    ghost view = { λ s. record {
      rx = s.rx.items;
      rx_size = s.rx.capacity;
      tx = s.tx.items;
      tx_size = s.tx.capacity;
    } };

    ghost invariant = { λ s. (s.rx.capacity < 256) × (s.tx.capacity < 256) };
}

impl Serial {
    /// Two empty rings for `rx` and `tx` bytes, 0 for a ring that isn't there. It is the only call
    /// that takes memory.
    pub fn new(alloc: Global, rx: u8, tx: u8) -> Result<Serial, AllocError>
        ensures { IfOk result (λ serial.
            serial ≡ record { rx = []; rx_size = rx; tx = []; tx_size = tx }) }
    {
        let rx = HeapCircularBuffer::with_capacity(alloc, rx as usize)?;
        let tx = HeapCircularBuffer::with_capacity(alloc, tx as usize)?;
        Ok(Serial { rx, tx })
    }

    /// Puts bytes at the end of the receive ring, which keeps the last ones that fit, as RT-Thread's
    /// serial devices do. The answer is how many of the oldest bytes, the new ones among them, were
    /// pushed out.
    pub fn arrive(&mut self, bytes: &[u8]) -> usize
        ensures pushed_out { result ≡ pushed_out_count self.old.rx_size self.old.rx bytes.now }
        ensures kept { self.new ≡ record self.old {
          rx = kept_bytes self.old.rx_size self.old.rx bytes.now;
        } }
    {
        let total = self.rx.len() + bytes.len();
        self.rx.extend_from_slice(bytes);
        total.saturating_sub(self.rx.capacity())
    }

    /// Moves the oldest bytes of the receive ring to the front of `into`, as many as it holds and as
    /// there is room for, as RT-Thread's `rt_device_read`. The answer is their number.
    pub fn read(&mut self, into: &mut [u8]) -> usize
        ensures count { result ≡ min (length into.old) (length self.old.rx) }
        ensures moved { into.new ≡ take (length into.old) self.old.rx ++ drop result into.old }
        ensures left { self.new ≡ record self.old { rx = drop (length into.old) self.old.rx } }
    {
        self.rx.read_into(into)
    }

    /// Puts the front part of the bytes that fits at the end of the transmit ring, as RT-Thread's
    /// `rt_device_write`. The answer is its length, the smaller one of the bytes' number and the
    /// free room.
    pub fn write(&mut self, bytes: &[u8]) -> usize
        ensures count { result ≡ length (fitting_front self.old.tx_size self.old.tx bytes.now) }
        ensures kept { self.new ≡ record self.old {
          tx = self.old.tx ++ fitting_front self.old.tx_size self.old.tx bytes.now;
        } }
    {
        self.tx.fill_from_slice(bytes)
    }

    /// Moves the oldest bytes of the transmit ring to the front of `into`, as many as it holds and as
    /// there is room for. The answer is their number.
    pub fn drain(&mut self, into: &mut [u8]) -> usize
        ensures count { result ≡ min (length into.old) (length self.old.tx) }
        ensures moved { into.new ≡ take (length into.old) self.old.tx ++ drop result into.old }
        ensures left { self.new ≡ record self.old { tx = drop (length into.old) self.old.tx } }
    {
        self.tx.read_into(into)
    }

    /// Whether the transmit ring holds bytes.
    pub fn busy(&self) -> bool
        ensures { result ≡ nat_lt 0 (length self.now.tx) }
    {
        !self.tx.is_empty()
    }

    /// Empties the receive ring, as the last closing of a device does.
    pub fn clear_rx(&mut self)
        ensures { self.new ≡ record self.old { rx = [] } }
    {
        self.rx.clear();
    }

    /// How many bytes the receive ring and the transmit ring hold.
    pub fn held(&self) -> (u8, u8)
        ensures rx { (result.0 ≡ length self.now.rx) × (result.0 ≤ self.now.rx_size) }
        ensures tx { (result.1 ≡ length self.now.tx) × (result.1 ≤ self.now.tx_size) }
    {
        (self.rx.len() as u8, self.tx.len() as u8)
    }
}
