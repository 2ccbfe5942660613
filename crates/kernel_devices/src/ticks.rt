ghost use Rattle.std.specs.Prelude.{◌≡◌, ◌<◌, ◌≤◌, ◌∷◌, [], All, Some, length, map, slice_get, IfSome, MatchOption};
ghost use Rattle.std.specs.List.{list_any};
ghost use Rattle.rt_plain.specs.kernel.DeviceCalls.{is_sending};
ghost use Rattle.rt_plain.specs.kernel.Rows.{device_row};
ghost use Rattle.kernel_devices.specs.Deviced.{arrivals_at, next_moment};

use crate::device::SerialDevice;
use crate::devices::{Devices, Incoming};
use rt_plain::Row;

// Whether some device has bytes to send.
fn is_any_sending(devices: &[SerialDevice]) -> bool
    ensures { result ≡ list_any is_sending devices.now }
{
    devices.iter().any(|device| device.is_sending())
}

impl Devices {
    /// The moment at which something arrives next, in ticks since opening: `None` exactly where nothing is left to
    /// arrive. It looks at one arrival.
    pub fn next_arrival(&self) -> Option<u64>
        ensures moment { result ≡ next_moment self.now.arrivals }
        ensures earliest { IfSome result (λ moment. All (λ a. moment ≤ a.moment) self.now.arrivals) }
    {
        match self.left.last() {
            Some(next) => Some(next.moment),
            None => None,
        }
    }

    /// Takes the first of what arrives at a moment, before which nothing is left to arrive: `None` exactly where nothing
    /// arrives then. It looks at one arrival.
    pub fn take_arrival(&mut self, moment: u64) -> Option<Incoming>
        requires { All (λ a. moment ≤ a.moment) self.old.arrivals }
        ensures { MatchOption result ((arrivals_at moment self.old.arrivals ≡ []) × (self.new ≡ self.old))
            (λ arrival. (arrival.moment ≡ moment) × (self.old ≡ record self.new { arrivals = arrival ∷ self.new.arrivals })) }
    {
        let next = self.next_arrival()?;
        if next != moment {
            return None;
        }
        self.left.pop()
    }

    /// Whether some device has bytes to send.
    pub fn busy(&self) -> bool
        ensures { result ≡ list_any is_sending self.now.devices }
    {
        is_any_sending(&self.devices)
    }

    /// How many devices there are, 1 to 16.
    pub fn count(&self) -> usize
        ensures count { result ≡ length self.now.devices }
        ensures few { result ≤ 16 }
    {
        self.devices.len()
    }

    /// The row of a device in the shell's table, by its place below `count`, where the one registered last stands at 0.
    pub fn row(&self, place: usize) -> Row
        requires { place < length self.now.devices }
        ensures { slice_get (map device_row self.now.devices) place ≡ Some result }
    {
        self.devices[place].row()
    }
}
