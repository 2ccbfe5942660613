ghost use Rattle.std.specs.Prelude.{◌≡◌};
ghost use Rattle.rt_plain.specs.kernel.Shell.{console_name, received_bytes};
ghost use Rattle.rt_plain.specs.kernel.Sleeps.{is_empty};
ghost use Rattle.kernel_devices.specs.Acts.{always, device_after_read, devices_after, first_byte};
ghost use Rattle.kernel_devices.specs.Deviced.{found_device};

use crate::device::console_name;
use crate::devices::Devices;

impl Devices {
    /// Whether the console has received nothing that wasn't read.
    pub fn is_console_empty(&self) -> bool
        ensures { result ≡ is_empty (received_bytes (found_device self.now.devices console_name)) }
    {
        match self.place(&console_name()) {
            Some(place) => self.devices[place].is_rx_empty(),
            None => true,
        }
    }

    /// Takes the first byte that the console received: `None` exactly where there is none.
    pub fn console_byte(&mut self) -> Option<u8>
        ensures answer { result ≡ first_byte (received_bytes (found_device self.old.devices console_name)) }
        ensures devices { self.new ≡ record self.old { devices = devices_after always (device_after_read 1) (found_device self.old.devices console_name) self.old.devices } }
    {
        let place = self.place(&console_name())?;
        self.devices[place].take_byte()
    }
}
