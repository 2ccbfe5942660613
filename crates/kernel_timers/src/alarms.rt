ghost use Rattle.std.specs.Prelude.{◌≡◌, ◌+◌, ◌%◌, ◌<◌, ◌≤◌, ◌++◌, ◌∷◌, [], All, length, IfSome, MatchOption};
ghost use Rattle.std.specs.Option.{option_map};
ghost use Rattle.rt_plain.specs.kernel.State.{OfThread, OfTimer};
ghost use Rattle.rt_plain.specs.kernel.Due.{due_rows_at};
ghost use Rattle.rt_plain.specs.kernel.Sleeps.{is_empty};
ghost use Rattle.kernel_timers.specs.Alarmed.{timer_at, names_of, alarm_of, due_of, is_armed, without, first_alarm, IsNextDue};
ghost use Rattle.kernel_timers.specs.Arming.{MayArm};

use rt_base::{ObjNo, Steps, ThreadNo, TimerNo};
use rt_plain::TimerDef;
use std::marker::Model;
use std::sync::ledger::Ledger;
use timer_skip::Timers;

/// The moment, the timers of the board, and what is armed: the waits of threads below number 256, and timers. A thread
/// has its own timer number in the skip list, and timer `o` has `256 + o`. Due moments have 64 bits, and the skip list
/// knows how many ticks are left of each. Contracts see the moment, the timers newest first, and the plain rows in the
/// order of their start numbers. All memory is taken by `open`.
#[derive(Drop)]
pub struct Alarms {
    pub(crate) moment: u64,
    pub(crate) timers: Vec<TimerDef>,
    pub(crate) rows: Timers<4>,
}

impl Model for Alarms {
    ghost use Rattle.kernel_timers.specs.Alarmed.{AlarmsSeen};

    ghost Value = { AlarmsSeen };

    ghost use Rattle.std.specs.Prelude.{map};
    ghost use Rattle.rt_plain.specs.kernel.Opening.{new_timer};
    ghost use Rattle.kernel_timers.specs.Alarmed.{names_of, row_of, IsAlarmed};

    ghost view = { λ a. record { moment = a.moment; timers = map new_timer a.timers.items; rows = map (row_of a.moment (names_of (map new_timer a.timers.items))) a.rows.rows } };

    ghost invariant = { λ a. IsAlarmed a.moment (map new_timer a.timers.items) a.rows };
}

// The number of a thread among what is armed.
fn thread_no(t: ThreadNo) -> TimerNo
    ensures { result ≡ t }
{
    TimerNo(t.0)
}

// The number of a timer among what is armed.
fn timer_no(o: ObjNo) -> TimerNo
    requires { o < 256 }
    ensures { result ≡ 256 + o }
{
    TimerNo(256 + o.0)
}

impl Alarms {
    /// How many ticks have passed since opening.
    pub fn moment(&self) -> u64
        ensures { result ≡ self.now.moment }
    {
        self.moment
    }

    /// So many ticks pass, before the last of which no row is due. It touches no row, however many they are.
    pub fn advance(&mut self, n: u32)
        requires early { self.old.moment + n ≤ 1099511627775 }
        requires ahead { All (λ row. self.old.moment + n ≤ row.due) self.old.rows }
        ensures { self.new ≡ record self.old { moment = self.old.moment + n } }
    {
        self.rows.advance(n);
        self.moment += n as u64;
    }

    /// How many ticks are left until a row is due: `None` exactly where nothing is armed. It looks at one row.
    pub fn next_due(&self) -> Option<u32>
        ensures { IsNextDue self.now result }
    {
        self.rows.next_due()
    }

    /// Arms the wait of a thread, which isn't armed: it is due at a moment from 1 to 2,147,483,647 ticks later, and its
    /// start number is above those of all rows.
    pub fn arm_wait(&mut self, t: ThreadNo, due: u64, number: u64)
        requires { MayArm self.old t due number }
        ensures { self.new ≡ record self.old {
          rows = self.old.rows ++ (record { due = due; number = number; alarm = OfThread t }) ∷ [];
        } }
    {
        let after = (due - self.moment) as u32;
        self.rows.start(thread_no(t), after, number);
    }

    /// Nothing is armed for the thread any more.
    pub fn disarm_wait(&mut self, t: ThreadNo)
        requires { t < 256 }
        ensures { self.new ≡ record self.old { rows = without (OfThread t) self.old.rows } }
    {
        self.rows.stop(thread_no(t));
    }

    /// The moment at which the wait of a thread is due: `None` exactly where it has no row.
    pub fn wait_due(&self, t: ThreadNo) -> Option<u64>
        requires there { t < 256 }
        requires early { self.now.moment ≤ 1099511627775 }
        ensures { result ≡ due_of (OfThread t) self.now.rows }
    {
        let left = self.rows.left(thread_no(t))?;
        Some(self.moment + left as u64)
    }

    /// Arms a timer: it is due after its time, its start number is above those of all rows, and an earlier row of it is
    /// dropped.
    pub fn arm_timer(&mut self, o: ObjNo, number: u64)
        requires there { o < length self.old.timers }
        requires latest { All (λ row. row.number < number) self.old.rows }
        ensures { self.new ≡ record self.old {
          rows = without (OfTimer (timer_at self.old.timers o).name) self.old.rows
              ++ (record { due = self.old.moment + (timer_at self.old.timers o).time; number = number; alarm = OfTimer (timer_at self.old.timers o).name }) ∷ [];
        } }
    {
        let time = self.timers[o.0 as usize].time;
        let no = timer_no(o);
        self.rows.stop(no);
        self.rows.start(no, time, number);
    }

    /// Disarms a timer: false exactly where it isn't armed.
    pub fn disarm_timer(&mut self, o: ObjNo) -> bool
        requires { o < length self.old.timers }
        ensures armed { result ≡ is_armed (OfTimer (timer_at self.old.timers o).name) self.old.rows }
        ensures rows { self.new ≡ record self.old { rows = without (OfTimer (timer_at self.old.timers o).name) self.old.rows } }
    {
        self.rows.stop(timer_no(o))
    }

    /// The moment at which a timer is due, in 32 bits: `None` exactly where it isn't armed.
    pub fn due(&self, o: ObjNo) -> Option<u32>
        requires { o < length self.now.timers }
        ensures { result ≡ option_map (λ due. due % 4294967296) (due_of (OfTimer (timer_at self.now.timers o).name) self.now.rows) }
    {
        self.rows.due(timer_no(o))
    }

    /// Whether nothing is armed.
    pub fn is_empty(&self) -> bool
        ensures { result ≡ is_empty self.now.rows }
    {
        !self.rows.next_due().is_some()
    }

    /// Takes out the row that fires first of those that are due at the moment, and says whose it is: `None` exactly
    /// where none is due. It counts one read, of the row that fires next.
    pub fn take_due<L: Ledger>(&mut self, steps: &mut Steps<L>) -> Option<TimerNo>
        ensures first { first_alarm (due_rows_at self.old.moment self.old.rows) ≡ option_map (alarm_of (names_of self.old.timers)) result }
        ensures rows { MatchOption result (self.new ≡ self.old) (λ no. self.new ≡ record self.old { rows = without (alarm_of (names_of self.old.timers) no) self.old.rows }) }
        ensures there { IfSome result (λ no. no < 256 + length self.old.timers) }
        ensures count { steps.new ≡ steps.old + 1 }
    {
        self.rows.take_due(steps)
    }
}
