ghost use Rattle.std.specs.Prelude.{◌≡◌, ◌+◌, ◌%◌, ◌<◌, ◌≤◌, ℕ, length};
ghost use Rattle.std.specs.Option.{option_map};
ghost use Rattle.rt_plain.specs.kernel.State.{OfThread, OfTimer};
ghost use Rattle.rt_plain.specs.kernel.TimerKinds.{is_periodic, is_soft};
ghost use Rattle.rt_plain.specs.declared.row.Row.TheVariants.{Timer as TimerRow};
ghost use Rattle.kernel_timers.specs.Alarmed.{timer_at, due_of, alarm_of, names_of, IsTimer};

use crate::alarms::Alarms;
use rt_base::ObjNo;
use rt_plain::{Row, TimerKind};

// Whether a timer is armed again when it fires.
fn is_periodic(kind: TimerKind) -> bool
    ensures { result ≡ is_periodic kind }
{
    match kind {
        TimerKind::OneShot | TimerKind::SoftOne => false,
        TimerKind::Periodic | TimerKind::SoftPer => true,
    }
}

// Whether a thread makes its call.
fn is_soft(kind: TimerKind) -> bool
    ensures { result ≡ is_soft kind }
{
    match kind {
        TimerKind::OneShot | TimerKind::Periodic => false,
        TimerKind::SoftOne | TimerKind::SoftPer => true,
    }
}

impl Alarms {
    /// How many timers there are, at most 256.
    pub fn count(&self) -> u16
        ensures count { result ≡ length self.now.timers }
        ensures few { result ≤ 256 }
    {
        self.timers.len() as u16
    }

    /// What is so of the timers: there are at most 256, each has a name of its own, and timer `o` has number `256 + o`
    /// among what is armed. It does nothing when it runs.
    pub fn know_timers(&self)
        ensures few { length self.now.timers ≤ 256 }
        ensures own { (o : ℕ) → o < length self.now.timers → IsTimer self.now.timers (timer_at self.now.timers o).name o }
        ensures numbered { (o : ℕ) → o < length self.now.timers → alarm_of (names_of self.now.timers) (256 + o) ≡ OfTimer (timer_at self.now.timers o).name }
        ensures threads { (t : ℕ) → t < 256 → alarm_of (names_of self.now.timers) t ≡ OfThread t }
    {
        let _timers = &self.timers;
    }

    // The tick at which a timer is due, as it is shown where the moment 0 is shown as the given one.
    fn shown_due(&self, o: ObjNo, tick0: u32) -> Option<u32>
        requires { o < length self.now.timers }
        ensures { result ≡ option_map (λ due. (tick0 + due) % 4294967296) (due_of (OfTimer (timer_at self.now.timers o).name) self.now.rows) }
    {
        let due = self.due(o)?;
        Some(tick0.wrapping_add(due))
    }

    /// The row of a timer in the table of timers. Moment 0 is shown as the given tick.
    pub fn row(&self, o: ObjNo, tick0: u32) -> Row
        requires { o < length self.now.timers }
        ensures { result ≡ TimerRow (timer_at self.now.timers o).name (is_periodic (timer_at self.now.timers o).kind) (is_soft (timer_at self.now.timers o).kind) (timer_at self.now.timers o).time (option_map (λ due. (tick0 + due) % 4294967296) (due_of (OfTimer (timer_at self.now.timers o).name) self.now.rows)) }
    {
        let timer = &self.timers[o.0 as usize];
        Row::Timer {
            name: timer.name.copy(),
            periodic: is_periodic(timer.kind),
            soft: is_soft(timer.kind),
            time: timer.time,
            due: self.shown_due(o, tick0),
        }
    }
}
