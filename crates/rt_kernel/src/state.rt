ghost use Rattle.std.specs.Prelude.{◌≡◌, ◌+◌, ◌<◌, ◌≤◌, ◌^◌, ◌++◌, ◌∷◌, [], All, length, Some, None, true, false, ◌==◌};
ghost use Rattle.rt_plain.specs.declared.line.Line.TheVariants.{Wake as WakeLine};
ghost use Rattle.rt_plain.specs.declared.line.Woke.TheVariants.{Code as WokeCode};
ghost use Rattle.rt_plain.specs.kernel.Priority.{awaited_mutex, mutex_of_call};
ghost use Rattle.rt_plain.specs.kernel.Sound.{is_active, is_waiting};
ghost use Rattle.rt_plain.specs.kernel.State.{InCall, is_closed, is_initial};
ghost use Rattle.rt_plain.specs.kernel.Effects.{name_of, without_core, waiting_state, active_state, wake_effect};
ghost use Rattle.rt_plain.specs.kernel.ThreadCalls.{start_effect, suspended_state};
ghost use Rattle.rt_plain.specs.kernel.Owners.{close_effect, withdrawn_state};
ghost use Rattle.rt_kernel.specs.Wake.{followed};
ghost use Rattle.rt_kernel.specs.Does.{Acts};
ghost use Rattle.rt_kernel.specs.Limits.{limits_of};
ghost use Rattle.rt_kernel.specs.MayWait.{MayWait};
ghost use Rattle.rt_kernel.specs.Caller.{IsOnCore};
ghost use Rattle.rt_kernel.specs.Mutexes.{HasNoMutex};
ghost use Rattle.mutex_tables.specs.Known.{knows};
ghost use Rattle.kernel_tables.specs.Threads.{row_at};
ghost use Rattle.rt_kernel.specs.View.{state_of};

use crate::told::Told;
use kernel_cores::Cores;
use kernel_devices::Devices;
use kernel_pools::Pools;
use kernel_tables::{ThreadList, WokenThreads};
use kernel_timers::Alarms;
use mutex_tables::MutexTables;
use pm_core::Votes;
use rt_base::{Code, Name, RunMode, Steps, ThreadNo};
use rt_plain::{Call, Line, Lines, Woke};
use std::sync::ledger::Ledger;

/// The kernel's state.
#[derive(Drop)]
pub struct State {
    pub numbers: u64,
    pub tables: MutexTables,
    /// Who runs where, and the lock over all cores.
    pub cores: Cores,
    /// The moment, the timers and what is armed.
    pub armed: Alarms,
    /// The devices, and what is still to arrive at them.
    pub devices: Devices,
    /// Who holds which block of the memory pools.
    pub pools: Pools,
    /// The votes for sleep modes.
    pub votes: Votes,
    pub run_mode: RunMode,
    pub waited: ThreadList,
    pub woken: WokenThreads,
    pub told: Told,
}

impl State {
    // The name of a thread.
    pub fn name_of(&self, t: ThreadNo) -> Name
        requires { t < length self.now.tables.threads }
        ensures { result ≡ name_of (state_of self.now) t }
    {
        self.tables.name(t)
    }

    // The thread leaves its core, if one runs it.
    pub fn leave_core(&mut self, t: ThreadNo)
        ensures state { state_of self.new ≡ without_core (state_of self.old) t }
        ensures tables { self.new.tables ≡ self.old.tables }
        ensures armed { self.new.armed ≡ self.old.armed }
        ensures numbers { self.new.numbers ≡ self.old.numbers }
    {
        self.cores.leave(t);
    }

    // The thread is active again, without an armed row, at the end of the ready list.
    pub fn activate(&mut self, t: ThreadNo)
        requires there { t < length self.old.tables.threads }
        requires idle { is_active (row_at self.old.tables.threads t).stage ≡ false }
        requires live { is_closed (row_at self.old.tables.threads t).stage ≡ false }
        requires apart { awaited_mutex (row_at self.old.tables.threads t).stage ≡ None }
        ensures state { state_of self.new ≡ active_state (state_of self.old) t }
        ensures limits { limits_of self.new.tables ≡ limits_of self.old.tables }
    {
        self.tables.activate(t);
        // There are at most 256 threads.
        let _ = self.tables.thread_count();
        self.armed.disarm_wait(t);
    }

    // An initial thread becomes ready.
    pub fn start(&mut self, t: ThreadNo, out: &mut Lines)
        requires there { t < length self.old.tables.threads }
        requires initial { is_initial (row_at self.old.tables.threads t).stage ≡ true }
        requires lines { length out.old.items < out.old.room }
        ensures { Acts self.old self.new out.old out.new 1 (start_effect t (state_of self.old)) }
    {
        out.push(Line::Wake(self.tables.name(t), Woke::Start));
        self.activate(t);
    }

    // The waiting thread wakes with a code.
    pub fn wake(&mut self, t: ThreadNo, code: Code, out: &mut Lines)
        requires there { t < length self.old.tables.threads }
        requires waits { is_waiting (row_at self.old.tables.threads t).stage ≡ true }
        requires apart { awaited_mutex (row_at self.old.tables.threads t).stage ≡ None }
        requires lines { length out.old.items < out.old.room }
        ensures { Acts self.old self.new out.old out.new 1 (wake_effect code t (state_of self.old)) }
    {
        out.push(Line::Wake(self.tables.name(t), Woke::Code(code)));
        self.tables.set_code(t, code);
        self.activate(t);
    }

    // The tables have woken the thread: this is shown, and it is without an armed row.
    pub fn follow(&mut self, t: ThreadNo, code: Code, out: &mut Lines)
        requires there { t < length self.old.tables.threads }
        requires lines { length out.old.items < out.old.room }
        ensures state { state_of self.new ≡ followed (state_of self.old) t }
        ensures lines { out.new.items ≡ out.old.items ++ WakeLine (name_of (state_of self.old) t) (WokeCode code) ∷ [] }
        ensures tables { self.new.tables ≡ self.old.tables }
        ensures waited { self.new.waited ≡ self.old.waited }
        ensures woken { self.new.woken ≡ self.old.woken }
        ensures numbers { self.new.numbers ≡ self.old.numbers }
        ensures moment { self.new.armed.moment ≡ self.old.armed.moment }
        ensures out_room { out.new.room ≡ out.old.room }
    {
        out.push(Line::Wake(self.tables.name(t), Woke::Code(code)));
        // There are at most 256 threads.
        let _ = self.tables.thread_count();
        self.armed.disarm_wait(t);
    }

    // The thread waits in a call, until a moment if one is given.
    pub fn wait(&mut self, t: ThreadNo, call: Call, due: Option<u64>)
        requires runs { IsOnCore self.old.tables t }
        requires may { MayWait self.old.armed t due }
        requires latest { All (λ row. row.number < self.old.numbers) self.old.armed.rows }
        requires number { self.old.numbers + 2 < 2 ^ 64 }
        requires known { knows self.old.tables call ≡ true }
        requires other { mutex_of_call call ≡ None }
        ensures state { state_of self.new ≡ waiting_state (state_of self.old) t (InCall call) due }
        ensures limits { limits_of self.new.tables ≡ limits_of self.old.tables }
    {
        // There are at most 256 threads.
        let _ = self.tables.thread_count();
        self.leave_core(t);
        self.tables.wait(t, call, self.numbers);
        self.numbers += 1;
        if let Some(due) = due {
            self.armed.arm_wait(t, due, self.numbers);
            self.numbers += 1;
        }
    }

    // The thread leaves its core or the ready list and is suspended.
    pub fn suspend(&mut self, t: ThreadNo)
        requires there { t < length self.old.tables.threads }
        requires active { is_active (row_at self.old.tables.threads t).stage ≡ true }
        ensures state { state_of self.new ≡ suspended_state (state_of self.old) t }
        ensures limits { limits_of self.new.tables ≡ limits_of self.old.tables }
    {
        self.tables.suspend(t);
        self.leave_core(t);
    }

    // The thread ends: it leaves its core, which gives up the lock over all cores, the ready list and its wait.
    pub fn withdraw<L: Ledger>(&mut self, t: ThreadNo, steps: &mut Steps<L>)
        requires there { t < length self.old.tables.threads }
        requires live { is_closed (row_at self.old.tables.threads t).stage ≡ false }
        requires free { HasNoMutex (state_of self.old) }
        ensures state { state_of self.new ≡ withdrawn_state (state_of self.old) t }
        ensures limits { limits_of self.new.tables ≡ limits_of self.old.tables }
    {
        self.told.close(&mut self.tables, t, steps);
        self.cores.end(t);
        // There are at most 256 threads.
        let _ = self.tables.thread_count();
        self.armed.disarm_wait(t);
    }

    // The thread ends, which is shown.
    pub fn close<L: Ledger>(&mut self, t: ThreadNo, out: &mut Lines, steps: &mut Steps<L>)
        requires there { t < length self.old.tables.threads }
        requires live { is_closed (row_at self.old.tables.threads t).stage ≡ false }
        requires free { HasNoMutex (state_of self.old) }
        requires lines { length out.old.items < out.old.room }
        ensures acts { Acts self.old self.new out.old out.new 1 (close_effect t (state_of self.old)) }
        ensures numbers { self.new.numbers ≡ self.old.numbers }
    {
        out.push(Line::Close(self.tables.name(t)));
        self.withdraw(t, steps);
    }
}
