ghost use Rattle.std.specs.Prelude.{◌≡◌, ◌+◌, ◌<◌, ◌≤◌, ◌++◌, length, map, reverse};
ghost use Rattle.std.specs.List.{flat_map};
ghost use Rattle.rt_plain.specs.kernel.DeviceCalls.{arrival_effect_at, find_device, indication_effect};
ghost use Rattle.kernel_devices.specs.Acts.{device_after_sending, sent_lines};
ghost use Rattle.rt_kernel.specs.Does.{Acts};
ghost use Rattle.rt_kernel.specs.Notice.{notice_by};
ghost use Rattle.rt_kernel.specs.View.{state_of};

use crate::state::State;
use kernel_devices::Arrived;
use rt_base::{Name, Text};
use rt_plain::{Line, Lines};

impl State {
    // The semaphore that a device names is released, where there is one of that name.
    fn indicate(&mut self, sem: &Option<Name>, out: &mut Lines)
        requires lines { length out.old.items < out.old.room }
        ensures acts { Acts self.old self.new out.old out.new 1 (indication_effect sem.now (state_of self.old)) }
        ensures numbers { self.new.numbers ≡ self.old.numbers }
    {
        if let Some(name) = sem {
            self.sem_release(name, out);
        }
    }

    // Whom an arrival wakes: the thread that waits for the console, or a waiter of the semaphore that the device names.
    fn notice(&mut self, arrived: &Arrived, out: &mut Lines)
        requires moment { self.old.armed.moment ≤ 1099511627775 }
        requires lines { length out.old.items < out.old.room }
        ensures acts { Acts self.old self.new out.old out.new 1 (notice_by arrived.now (state_of self.old)) }
        ensures numbers { self.new.numbers ≡ self.old.numbers }
    {
        if arrived.console {
            let waiter = self.tables.console_waiter();
            self.wake_first(waiter, out);
        } else {
            self.indicate(&arrived.ind, out);
        }
    }

    // A text arrives at the device of a name, if there is one: its line, and whom it wakes.
    pub fn arrive(&mut self, device: &Name, text: &Text, out: &mut Lines)
        requires moment { self.old.armed.moment ≤ 1099511627775 }
        requires lines { length out.old.items + 2 ≤ out.old.room }
        ensures acts { Acts self.old self.new out.old out.new 2 (arrival_effect_at (find_device (state_of self.old) device.now) text.now (state_of self.old)) }
        ensures numbers { self.new.numbers ≡ self.old.numbers }
    {
        let Some(arrived) = self.devices.arrive(device, text) else {
            return;
        };
        out.push(Line::Rx(device.copy(), text.copy(), arrived.lost));
        self.notice(&arrived, out);
    }
}
