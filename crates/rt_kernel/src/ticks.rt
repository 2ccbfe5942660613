ghost use Rattle.std.specs.Prelude.{ℕ, ◌≡◌, ◌+◌, ◌<◌, ◌≤◌, ◌^◌, ◌-◌, ◌++◌, All, length, true, Some, IfSome};
ghost use Rattle.std.specs.Option.{option_map};
ghost use Rattle.rt_plain.specs.kernel.Due.{due, timeout_effect};
ghost use Rattle.rt_plain.specs.kernel.State.{running_on};
ghost use Rattle.rt_plain.specs.kernel.Ticks.{next_tick_state, with_slice_used};
ghost use Rattle.kernel_timers.specs.Alarmed.{alarm_of, first_alarm, names_of};
ghost use Rattle.rt_kernel.specs.Due.{taken};
ghost use Rattle.rt_kernel.specs.Does.{Acts};
ghost use Rattle.rt_kernel.specs.Limits.{limits_of};
ghost use Rattle.rt_plain.specs.kernel.Sound.{is_waiting};
ghost use Rattle.rt_kernel.specs.Mutexes.{HasNoMutex};
ghost use Rattle.kernel_tables.specs.Threads.{row_at};
ghost use Rattle.rt_kernel.specs.View.{state_of};

use crate::state::State;
use rt_base::{CoreNo, Steps, ThreadNo, TimerNo};
use rt_plain::{Line, Lines};
use std::sync::ledger::Ledger;

impl State {
    // The slice of the thread that a core runs falls, if it runs one.
    fn use_slice(&mut self, core: CoreNo)
        requires core { core < length self.old.cores.running }
        requires running { IfSome (running_on (state_of self.old) core) (λ r. r < length self.old.tables.threads) }
        ensures state { state_of self.new ≡ with_slice_used (state_of self.old) (running_on (state_of self.old) core) }
        ensures limits { limits_of self.new.tables ≡ limits_of self.old.tables }
        ensures threads { length self.new.tables.threads ≡ length self.old.tables.threads }
        ensures cores { self.new.cores ≡ self.old.cores }
        ensures armed { self.new.armed ≡ self.old.armed }
    {
        if let Some(t) = self.cores.running(core) {
            self.tables.fall(t);
        }
    }

    // The moment grows by one tick, and the slices of the threads that run on so many cores fall.
    pub fn begin_tick(&mut self, cores: u8)
        requires moment { self.old.armed.moment < 1099511627775 }
        requires ahead { All (λ row. self.old.armed.moment + 1 ≤ row.due) self.old.armed.rows }
        requires cores { length self.old.cores.running ≡ cores }
        requires running { (core r : ℕ) → running_on (state_of self.old) core ≡ Some r → r < length self.old.tables.threads }
        ensures state { state_of self.new ≡ next_tick_state (state_of self.old) }
        ensures limits { limits_of self.new.tables ≡ limits_of self.old.tables }
    {
        self.armed.advance(1);
        for core in 0..cores {
            self.use_slice(CoreNo(core));
        }
    }

    // The moment grows by so many ticks at once, where no core runs a thread and no row is due before the last of them.
    pub fn skip(&mut self, n: u32)
        requires moment { self.old.armed.moment + n ≤ 1099511627775 }
        requires ahead { All (λ row. self.old.armed.moment + n ≤ row.due) self.old.armed.rows }
        ensures state { let s = state_of self.old in state_of self.new ≡ record s { moment = s.moment + n } }
        ensures tables { self.new.tables ≡ self.old.tables }
    {
        self.armed.advance(n);
    }

    // Takes the row that fires next at this moment, if one is due.
    pub fn take_due<L: Ledger>(&mut self, steps: &mut Steps<L>) -> Option<TimerNo>
        ensures first { first_alarm (due (state_of self.old)) ≡ option_map (alarm_of (names_of self.old.armed.timers)) result }
        ensures there { IfSome result (λ no. no < 256 + length self.old.armed.timers) }
        ensures state { state_of self.new ≡ taken (state_of self.old) (option_map (alarm_of (names_of self.old.armed.timers)) result) }
        ensures limits { limits_of self.new.tables ≡ limits_of self.old.tables }
        ensures count { steps.new ≡ steps.old + 1 }
    {
        self.armed.take_due(steps)
    }

    // The row of a thread fires: the thread leaves its wait.
    pub fn fire(&mut self, t: ThreadNo, out: &mut Lines)
        requires there { t < length self.old.tables.threads }
        requires waits { is_waiting (row_at self.old.tables.threads t).stage ≡ true }
        requires free { HasNoMutex (state_of self.old) }
        requires lines { length out.old.items + 2 ≤ out.old.room }
        ensures acts { Acts self.old self.new out.old out.new 2 (timeout_effect t (state_of self.old)) }
        ensures numbers { self.new.numbers ≡ self.old.numbers }
    {
        let code = self.tables.timeout_code(t);
        out.push(Line::Timeout(self.tables.name(t)));
        self.tables.know_waits();
        self.wake(t, code, out);
    }
}
