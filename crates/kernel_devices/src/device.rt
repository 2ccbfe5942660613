ghost use Rattle.std.specs.Prelude.{◌≡◌, ◌<◌, ◌++◌, ◌≤◌, length, take, min, IfOk};
ghost use Rattle.std.specs.Str.{bytes_eq};
ghost use Rattle.rt_plain.specs.kernel.Opening.{new_console, new_device};
ghost use Rattle.rt_plain.specs.kernel.Shell.{console_name};
ghost use Rattle.rt_plain.specs.kernel.Sleeps.{is_empty};
ghost use Rattle.rt_plain.specs.kernel.DeviceCalls.{is_open, is_sending, may_close, device_after_close};
ghost use Rattle.rt_plain.specs.kernel.Rows.{device_row};
ghost use Rattle.kernel_devices.specs.Acts.{acted, first_byte, text_of, may_open, device_after_open, open_answer, close_answer, device_after_read, read_answer, keeps_written, device_after_write, write_answer, has_rate, device_after_rate, rate_answer, device_after_arrival, arrival_answer, device_after_sending, sent_text, suspend_lines, resume_lines};

use object_box::{CountFull, NoRate, NotOpen};
use rt_base::{Name, Text};
use rt_plain::{DeviceDef, Line, Lines, Row};
use serial_dev::Serial;
use std::alloc::{AllocError, Global};
use std::marker::Model;

/// What was read from a device.
#[derive(Drop)]
pub struct ReadBytes {
    /// The bytes, or `None` where there were none.
    pub text: Option<Text>,
    /// Their number, 0 to 64.
    pub count: u8,
}

/// What was written to a device.
#[derive(Clone, Copy, Debug, PartialEq, Eq)]
pub struct Written {
    /// How many bytes were taken, 0 to 64.
    pub count: u8,
    /// Whether it is the console, which prints them at once.
    pub console: bool,
}

/// What came of an arrival at a device.
#[derive(Drop)]
pub struct Arrived {
    /// How many bytes were lost, old ones and new ones, 0 to 64.
    pub lost: u8,
    /// Whether it is the console, for which the shell may wait.
    pub console: bool,
    /// The semaphore that is to be released, where the device names one.
    pub ind: Option<Name>,
}

// A serial device of a board: its name, how often it is open, its two rings. Contracts see the plain device.
#[derive(Drop)]
pub struct SerialDevice {
    name: Name,
    console: bool,
    opened: u8,
    rate: u8,
    pm: bool,
    ind: Option<Name>,
    rings: Serial,
}

impl Model for SerialDevice {
    ghost use Rattle.std.specs.Prelude.{◌≤◌, length};
    ghost use Rattle.rt_plain.specs.kernel.State.{Device};

    ghost Value = { Device };

    ghost view = { λ d. record {
      name = d.name;
      console = d.console;
      opened = d.opened;
      rate = d.rate;
      rx_size = d.rings.rx_size;
      rx = d.rings.rx;
      tx_size = d.rings.tx_size;
      tx = d.rings.tx;
      pm = d.pm;
      ind = d.ind;
    } };

    ghost invariant = { λ d. (1 ≤ d.rate) × ((d.rate ≤ 64) × (length d.rings.rx ≤ d.rings.rx_size)) };
}

// The console's name.
pub fn console_name() -> Name
    ensures { result ≡ console_name }
{
    let Some(name) = Name::read(b"console") else {
        unreachable!();
    };
    name
}

// A name once more, where there is one.
fn copied(name: &Option<Name>) -> Option<Name>
    ensures { result ≡ name.now }
{
    match name {
        Some(name) => Some(name.copy()),
        None => None,
    }
}

// The first bytes as a text, where there are some.
fn text_of(bytes: &[u8], count: usize) -> Option<Text>
    requires within { count ≤ length bytes.now }
    requires few { count ≤ 64 }
    ensures { result ≡ text_of (take count bytes.now) }
{
    Text::read(&bytes[..count])
}

impl SerialDevice {
    // The console as it opens.
    pub fn console(alloc: Global) -> Result<SerialDevice, AllocError>
        ensures { IfOk result (λ device. device ≡ new_console) }
    {
        let rings = Serial::new(alloc, 128, 0)?;
        Ok(SerialDevice {
            name: console_name(),
            console: true,
            opened: 1,
            rate: 1,
            pm: false,
            ind: None,
            rings,
        })
    }

    // A device of the board as it opens.
    pub fn open_from(alloc: Global, def: &DeviceDef) -> Result<SerialDevice, AllocError>
        requires some { 1 ≤ def.now.rate }
        requires few { def.now.rate ≤ 64 }
        ensures { IfOk result (λ device. device ≡ new_device def.now) }
    {
        let rings = Serial::new(alloc, def.rx, def.tx)?;
        Ok(SerialDevice {
            name: def.name.copy(),
            console: false,
            opened: 0,
            rate: def.rate,
            pm: def.pm,
            ind: copied(&def.ind),
            rings,
        })
    }

    // Whether it has this name.
    pub fn is_named(&self, name: &[u8]) -> bool
        ensures { result ≡ bytes_eq self.now.name name.now }
    {
        self.name.bytes() == name
    }

    // Its name.
    pub fn name(&self) -> Name
        ensures { result ≡ self.now.name }
    {
        self.name.copy()
    }

    // Whether it has bytes to send.
    pub fn is_sending(&self) -> bool
        ensures { result ≡ is_sending self.now }
    {
        self.rings.busy()
    }

    // Its row in the shell's table.
    pub fn row(&self) -> Row
        ensures { result ≡ device_row self.now }
    {
        let (rx, tx) = self.rings.held();
        Row::Device {
            name: self.name.copy(),
            console: self.console,
            opened: self.opened,
            rx: rx as u16,
            tx: tx as u16,
        }
    }

    // Opens it once more, which is refused at 255.
    pub fn open(&mut self) -> Result<(), CountFull>
        ensures answer { result ≡ open_answer self.old }
        ensures device { self.new ≡ acted may_open device_after_open self.old }
    {
        if self.opened == u8::MAX {
            return Err(CountFull);
        }
        self.opened += 1;
        Ok(())
    }

    // Closes it once, which empties the receive ring at the last time. The console stays open.
    pub fn close(&mut self) -> Result<(), NotOpen>
        ensures answer { result ≡ close_answer self.old }
        ensures device { self.new ≡ acted may_close device_after_close self.old }
    {
        let least = if self.console { 1 } else { 0 };
        if self.opened <= least {
            return Err(NotOpen);
        }
        if self.opened == 1 {
            self.rings.clear_rx();
        }
        self.opened -= 1;
        Ok(())
    }

    // Takes up to so many received bytes, 1 to 64.
    pub fn read(&mut self, count: u8) -> Result<ReadBytes, NotOpen>
        requires { count ≤ 64 }
        ensures answer { result ≡ read_answer count self.old }
        ensures device { self.new ≡ acted is_open (device_after_read count) self.old }
    {
        if self.opened == 0 {
            return Err(NotOpen);
        }
        Ok(self.take_received(count))
    }

    // Takes the first received byte: `None` exactly where there is none.
    pub fn take_byte(&mut self) -> Option<u8>
        ensures byte { result ≡ first_byte self.old.rx }
        ensures device { self.new ≡ device_after_read 1 self.old }
    {
        let mut byte = [0];
        if self.rings.read(&mut byte) == 0 {
            return None;
        }
        Some(byte[0])
    }

    // Whether it has no received bytes.
    pub fn is_rx_empty(&self) -> bool
        ensures { result ≡ is_empty self.now.rx }
    {
        let (rx, _) = self.rings.held();
        rx == 0
    }

    // Keeps the front part of a text that fits, which goes to the console whole.
    pub fn write(&mut self, text: &Text) -> Result<Written, NotOpen>
        ensures answer { result ≡ write_answer text.now self.old }
        ensures device { self.new ≡ acted keeps_written (device_after_write text.now) self.old }
    {
        if self.opened == 0 {
            return Err(NotOpen);
        }
        let bytes = text.bytes();
        let count = if self.console {
            bytes.len()
        } else {
            self.rings.write(bytes)
        };
        Ok(Written {
            count: count as u8,
            console: self.console,
        })
    }

    // From now on it sends so many bytes a tick, 1 to 64. The console has no rate.
    pub fn set_rate(&mut self, rate: u8) -> Result<(), NoRate>
        requires some { 1 ≤ rate }
        requires few { rate ≤ 64 }
        ensures answer { result ≡ rate_answer self.old }
        ensures device { self.new ≡ acted has_rate (device_after_rate rate) self.old }
    {
        if self.console {
            return Err(NoRate);
        }
        self.rate = rate;
        Ok(())
    }

    // A text arrives: where it is closed it loses all bytes, and else the oldest beyond its receive ring.
    pub fn arrive(&mut self, text: &Text) -> Arrived
        ensures answer { result ≡ arrival_answer text.now self.old }
        ensures device { self.new ≡ device_after_arrival text.now self.old }
    {
        let bytes = text.bytes();
        let lost = if self.opened == 0 {
            bytes.len()
        } else {
            self.rings.arrive(bytes)
        };
        Arrived {
            lost: lost as u8,
            console: self.console,
            ind: copied(&self.ind),
        }
    }

    // Sends as many bytes as its rate allows: `None` exactly where it has none.
    pub fn send(&mut self) -> Option<Text>
        ensures text { result ≡ sent_text self.old }
        ensures device { self.new ≡ device_after_sending self.old }
    {
        if !self.rings.busy() {
            return None;
        }
        let mut bytes = [0; 64];
        let count = self.rings.drain(&mut bytes[..self.rate as usize]);
        text_of(&bytes, count)
    }

    // Shows that it is suspended for a sleep, where it has power management.
    pub fn show_suspended(&self, out: &mut Lines)
        requires { length out.old.items < out.old.room }
        ensures lines { out.new.items ≡ out.old.items ++ suspend_lines self.now }
        ensures room { out.new.room ≡ out.old.room }
    {
        if self.pm {
            out.push(Line::Suspend(self.name.copy()));
        }
    }

    // Shows that it is resumed after a sleep, where it has power management.
    pub fn show_resumed(&self, out: &mut Lines)
        requires { length out.old.items < out.old.room }
        ensures lines { out.new.items ≡ out.old.items ++ resume_lines self.now }
        ensures room { out.new.room ≡ out.old.room }
    {
        if self.pm {
            out.push(Line::Resume(self.name.copy()));
        }
    }

    // Takes up to so many received bytes.
    fn take_received(&mut self, count: u8) -> ReadBytes
        requires { count ≤ 64 }
        ensures text { result.text ≡ text_of (take count self.old.rx) }
        ensures count { result.count ≡ min count (length self.old.rx) }
        ensures device { self.new ≡ device_after_read count self.old }
    {
        let mut bytes = [0; 64];
        let taken = self.rings.read(&mut bytes[..count as usize]);
        ReadBytes {
            text: text_of(&bytes, taken),
            count: taken as u8,
        }
    }
}
