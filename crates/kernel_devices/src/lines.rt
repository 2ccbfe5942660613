ghost use Rattle.std.specs.Prelude.{◌≡◌, ◌≢◌, ◌+◌, ◌<◌, ◌≤◌, ◌++◌, AllPairs, length, map, reverse, slice_set};
ghost use Rattle.std.specs.List.{flat_map};
ghost use Rattle.kernel_devices.specs.Deviced.{device_at, names_of};
ghost use Rattle.kernel_devices.specs.Acts.{device_after_sending, sent_lines};

use crate::devices::Devices;
use rt_plain::{Line, Lines};

impl Devices {
    /// What the devices send in a tick, in the order of registration: each as many bytes of its transmit ring as its rate
    /// allows, with a `tx` line where it sends something. No two devices have one name.
    pub fn drain(&mut self, out: &mut Lines)
        requires { length out.old.items + length self.old.devices ≤ out.old.room }
        ensures devices { self.new ≡ record self.old { devices = map device_after_sending self.old.devices } }
        ensures lines { out.new.items ≡ out.old.items ++ flat_map sent_lines (reverse self.old.devices) }
        ensures room { out.new.room ≡ out.old.room }
        ensures apart { AllPairs (λ one other. one ≢ other) (names_of self.old.devices) }
    {
        let count = self.devices.len();
        for done in 0..count {
            self.send_at(count - 1 - done, out);
        }
    }

    // The device at a place sends what its rate allows, and shows it.
    fn send_at(&mut self, place: usize, out: &mut Lines)
        requires there { place < length self.old.devices }
        requires room { length out.old.items < out.old.room }
        ensures devices { self.new ≡ record self.old { devices = slice_set self.old.devices place (device_after_sending (device_at self.old.devices place)) } }
        ensures lines { out.new.items ≡ out.old.items ++ sent_lines (device_at self.old.devices place) }
        ensures room { out.new.room ≡ out.old.room }
    {
        let name = self.devices[place].name();
        if let Some(text) = self.devices[place].send() {
            out.push(Line::Tx(name, text));
        }
    }
}
