ghost use Rattle.std.specs.Prelude.{◌≡◌, ◌<◌, ◌≤◌, None, length, IfSome, MatchOption};
ghost use Rattle.std.specs.List.{position_from};
ghost use Rattle.std.specs.Option.{option_map};
ghost use Rattle.std.specs.Str.{bytes_eq};
ghost use Rattle.rt_plain.specs.kernel.DeviceCalls.{is_open, may_close, device_after_close};
ghost use Rattle.kernel_devices.specs.Deviced.{found_device, IsDevice};
ghost use Rattle.kernel_devices.specs.Acts.{always, devices_after, may_open, device_after_open, open_answer, close_answer, device_after_read, read_answer, keeps_written, device_after_write, write_answer, has_rate, device_after_rate, rate_answer, device_after_arrival, arrival_answer};

use crate::device::{Arrived, ReadBytes, SerialDevice, Written};
use crate::devices::Devices;
use object_box::{CountFull, NoRate, NotOpen};
use rt_base::{Name, Text};

// Where the device of a name stands.
fn position(devices: &[SerialDevice], name: &[u8]) -> Option<usize>
    ensures found { result ≡ position_from (λ device. bytes_eq device.name name.now) 0 devices.now }
    ensures within { IfSome result (λ place. place < length devices.now) }
{
    devices.iter().position(|device| device.is_named(name))
}

impl Devices {
    // Where the device of a name stands: `None` exactly where there is none.
    pub(crate) fn place(&self, name: &Name) -> Option<usize>
        ensures { MatchOption result (found_device self.now.devices name.now ≡ None) (IsDevice self.now.devices name.now) }
    {
        position(&self.devices, name.bytes())
    }

    /// Opens a device once more, as RT-Thread's `rt_device_open`: `None` exactly where there is none of that name.
    /// `CountFull` comes exactly where it is open 255 times, and changes nothing.
    pub fn open_device(&mut self, name: &Name) -> Option<Result<(), CountFull>>
        ensures answer { result ≡ option_map open_answer (found_device self.old.devices name.now) }
        ensures devices { self.new ≡ record self.old { devices = devices_after may_open device_after_open (found_device self.old.devices name.now) self.old.devices } }
    {
        let place = self.place(name)?;
        Some(self.devices[place].open())
    }

    /// Closes a device once, as RT-Thread's `rt_device_close`; the last time empties its receive ring, and the transmit
    /// ring goes on. `None` exactly where there is none of that name. `NotOpen` comes exactly where it isn't open, and at
    /// the console where it is open once, and changes nothing.
    pub fn close_device(&mut self, name: &Name) -> Option<Result<(), NotOpen>>
        ensures answer { result ≡ option_map close_answer (found_device self.old.devices name.now) }
        ensures devices { self.new ≡ record self.old { devices = devices_after may_close device_after_close (found_device self.old.devices name.now) self.old.devices } }
    {
        let place = self.place(name)?;
        Some(self.devices[place].close())
    }

    /// Takes up to so many bytes, at most 64, off the front of the receive ring of a device, as RT-Thread's
    /// `rt_device_read`: `None` exactly where there is none of that name. `NotOpen` comes exactly where it isn't open, and
    /// changes nothing.
    pub fn read(&mut self, name: &Name, count: u8) -> Option<Result<ReadBytes, NotOpen>>
        requires { count ≤ 64 }
        ensures answer { result ≡ option_map (read_answer count) (found_device self.old.devices name.now) }
        ensures devices { self.new ≡ record self.old { devices = devices_after is_open (device_after_read count) (found_device self.old.devices name.now) self.old.devices } }
    {
        let place = self.place(name)?;
        Some(self.devices[place].read(count))
    }

    /// Puts the front part of a text that fits at the end of the transmit ring of a device, as RT-Thread's
    /// `rt_device_write`; the console takes all and keeps nothing, since it prints at once. `None` exactly where there is
    /// none of that name. `NotOpen` comes exactly where it isn't open, and changes nothing.
    pub fn write(&mut self, name: &Name, text: &Text) -> Option<Result<Written, NotOpen>>
        ensures answer { result ≡ option_map (write_answer text.now) (found_device self.old.devices name.now) }
        ensures devices { self.new ≡ record self.old { devices = devices_after keeps_written (device_after_write text.now) (found_device self.old.devices name.now) self.old.devices } }
    {
        let place = self.place(name)?;
        Some(self.devices[place].write(text))
    }

    /// From now on a device sends up to so many bytes a tick, 1 to 64, as RT-Thread's `rt_device_control` may set it:
    /// `None` exactly where there is none of that name. `NoRate` comes exactly for the console, and changes nothing.
    pub fn set_rate(&mut self, name: &Name, rate: u8) -> Option<Result<(), NoRate>>
        requires some { 1 ≤ rate }
        requires few { rate ≤ 64 }
        ensures answer { result ≡ option_map rate_answer (found_device self.old.devices name.now) }
        ensures devices { self.new ≡ record self.old { devices = devices_after has_rate (device_after_rate rate) (found_device self.old.devices name.now) self.old.devices } }
    {
        let place = self.place(name)?;
        Some(self.devices[place].set_rate(rate))
    }

    /// A text arrives at a device: it goes into the receive ring and pushes out the oldest bytes beyond its size, and a
    /// closed device loses all of it. `None` exactly where there is none of that name.
    pub fn arrive(&mut self, name: &Name, text: &Text) -> Option<Arrived>
        ensures answer { result ≡ option_map (arrival_answer text.now) (found_device self.old.devices name.now) }
        ensures devices { self.new ≡ record self.old { devices = devices_after always (device_after_arrival text.now) (found_device self.old.devices name.now) self.old.devices } }
    {
        let place = self.place(name)?;
        Some(self.devices[place].arrive(text))
    }
}
