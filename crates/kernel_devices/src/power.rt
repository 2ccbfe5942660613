ghost use Rattle.std.specs.Prelude.{◌≡◌, ◌+◌, ◌≤◌, ◌++◌, filter, length, map, reverse};
ghost use Rattle.rt_plain.specs.declared.line.Line.{Line as TraceLine};

use crate::devices::Devices;
use rt_plain::Lines;

impl Devices {
    /// The devices with power management are suspended for a sleep, in the order of registration: a `suspend` line each.
    pub fn power_down(&self, out: &mut Lines)
        requires { length out.old.items + length self.now.devices ≤ out.old.room }
        ensures lines { out.new.items ≡ out.old.items ++ map (λ d. TraceLine.Suspend d.name) (filter (λ d. d.pm) (reverse self.now.devices)) }
        ensures room { out.new.room ≡ out.old.room }
    {
        let count = self.devices.len();
        for done in 0..count {
            self.devices[count - 1 - done].show_suspended(out);
        }
    }

    /// The devices with power management are resumed after a sleep, the one registered last first: a `resume` line each.
    pub fn power_up(&self, out: &mut Lines)
        requires { length out.old.items + length self.now.devices ≤ out.old.room }
        ensures lines { out.new.items ≡ out.old.items ++ map (λ d. TraceLine.Resume d.name) (reverse (filter (λ d. d.pm) (reverse self.now.devices))) }
        ensures room { out.new.room ≡ out.old.room }
    {
        for device in &self.devices {
            device.show_resumed(out);
        }
    }
}
