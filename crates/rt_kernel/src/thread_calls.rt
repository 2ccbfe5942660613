ghost use Rattle.std.specs.Prelude.{◌≡◌, ◌+◌, ◌<◌, ◌≤◌, true, false, Some, IfSome, length};
ghost use Rattle.rt_plain.specs.kernel.State.{find_thread, is_closed};
ghost use Rattle.kernel_tables.specs.Threads.{row_at};
ghost use Rattle.rt_plain.specs.kernel.Sound.{is_levelled_call};
ghost use Rattle.rt_plain.specs.kernel.ThreadCalls.{delay, yield as yield_call, startup, suspend as suspend_call, resume, kill, set_prio, sched_lock, sched_unlock, lock, unlock, may_suspend};
ghost use Rattle.rt_plain.specs.kernel.TimerKinds.{is_timer_call};
ghost use Rattle.rt_kernel.specs.declared.built.Subject.TheVariants.{Thread as OnThreads};
ghost use Rattle.rt_kernel.specs.Built.{subject_of};
ghost use Rattle.rt_kernel.specs.Caller.{plain_by, plain_attempt, IsThere};
ghost use Rattle.rt_kernel.specs.Does.{Does};
ghost use Rattle.rt_kernel.specs.HasRoom.{HasRoom};
ghost use Rattle.rt_kernel.specs.Mutexes.{AreActive};
ghost use Rattle.rt_kernel.specs.MayWait.{IsFree, MayMake};
ghost use Rattle.rt_kernel.specs.Settles.{settled, settled_outcome};
ghost use Rattle.rt_kernel.specs.View.{state_of};

use crate::answer::Answer;
use crate::caller::{Attempt, Caller};
use crate::state::State;
use crate::telling::tell;
use rt_base::{Code, Name, Prio, Steps, ThreadNo};
use rt_plain::{Board, Call, Line, Lines, Woke};
use std::sync::ledger::Ledger;

impl State {
    // A call on threads, on the scheduler lock of the one that makes it, or on the lock over all cores.
    pub fn thread_call<L: Ledger>(
        &mut self,
        board: &Board,
        by: Caller,
        attempt: Attempt,
        call: &Call,
        out: &mut Lines,
        steps: &mut Steps<L>,
    ) -> Answer
        requires subject { subject_of call.now ≡ Some OnThreads }
        requires level { is_levelled_call self.old.tables.levels call.now ≡ true }
        requires may { MayMake self.old.armed by call.now }
        requires there { IsThere by self.old.tables }
        requires room { HasRoom self.old out.old (1 + length self.old.tables.threads) }
        ensures does { Does self.old self.new out.old out.new result (1 + length self.old.tables.threads) (settled_outcome board.now call.now (state_of self.old) (plain_by (state_of self.old) by) (plain_attempt attempt)) }
        ensures count { is_timer_call call.now ≡ true → steps.new ≡ steps.old }
    {
        self.tables.know_waits();
        match call {
            Call::Delay(ticks) => self.delay(by, *ticks, out),
            Call::Yield => self.yield_now(by, out),
            Call::Startup(name) => self.startup(name, out),
            Call::Suspend(name) => self.suspend_named(by, name, out),
            Call::Resume(name) => self.resume(name, out),
            Call::Kill(name) => self.kill(name, out, steps),
            Call::SetPrio(name, prio) => self.set_prio(board, name, *prio, out, steps),
            Call::SchedLock => self.sched_lock(by, out),
            Call::SchedUnlock => self.sched_unlock(by, out),
            Call::Lock => self.lock(by, out),
            Call::Unlock => self.unlock(by, out),
            _ => unreachable!(),
        }
    }

    // The thread of this name which hasn't ended.
    pub fn find_thread(&self, name: &Name) -> Option<ThreadNo>
        ensures found { result ≡ find_thread (state_of self.now) name.now }
        ensures there { IfSome result (λ u. u < length self.now.tables.threads) }
        ensures live { IfSome result (λ u. is_closed (row_at self.now.tables.threads u).stage ≡ false) }
    {
        self.tables.find(name)
    }

    // A delay of so many ticks.
    fn delay(&mut self, by: Caller, ticks: u32, out: &mut Lines) -> Answer
        requires free { IsFree self.old.armed by }
        requires some { 0 < ticks }
        requires near { ticks ≤ 2147483647 }
        requires there { IsThere by self.old.tables }
        requires room { HasRoom self.old out.old 0 }
        ensures { Does self.old self.new out.old out.new result 0 (delay ticks (state_of self.old) (plain_by (state_of self.old) by)) }
    {
        let Caller::Thread(t, core) = by else {
            return Answer::Code(Code::Error);
        };
        let due = self.armed.moment() + ticks as u64;
        self.try_wait(t, core, Call::Delay(ticks), Some(due))
    }

    // A whole slice again, and the mark.
    fn yield_now(&mut self, by: Caller, out: &mut Lines) -> Answer
        requires there { IsThere by self.old.tables }
        ensures { Does self.old self.new out.old out.new result 0 (yield_call (state_of self.old) (plain_by (state_of self.old) by)) }
    {
        let Caller::Thread(t, _) = by else {
            return Answer::Code(Code::Error);
        };
        let mut vars = self.tables.vars(t);
        vars.left = vars.slice;
        vars.marked = true;
        self.tables.set_vars(t, vars);
        Answer::Code(Code::Ok)
    }

    // An initial thread of this name becomes ready.
    fn startup(&mut self, name: &Name, out: &mut Lines) -> Answer
        requires room { HasRoom self.old out.old 1 }
        ensures { Does self.old self.new out.old out.new result 1 (startup name.now (state_of self.old)) }
    {
        let Some(u) = self.find_thread(name) else {
            return Answer::Code(Code::Inval);
        };
        if !self.tables.is_initial(u) {
            return Answer::Code(Code::Error);
        }
        self.start(u, out);
        Answer::Code(Code::Ok)
    }

    // Whether the caller may suspend a thread: itself where it may wait, another one where it is ready.
    fn may_suspend(&self, by: Caller, u: ThreadNo) -> bool
        requires by { IsThere by self.now.tables }
        requires there { u < length self.now.tables.threads }
        ensures { result ≡ may_suspend (state_of self.now) (plain_by (state_of self.now) by) u }
    {
        if let Caller::Thread(t, core) = by {
            if t.0 == u.0 {
                return !self.may_not_wait(t, core);
            }
        }
        self.tables.is_ready(u)
    }

    // The thread of this name is suspended.
    fn suspend_named(&mut self, by: Caller, name: &Name, out: &mut Lines) -> Answer
        requires there { IsThere by self.old.tables }
        requires active { AreActive self.old.tables }
        ensures { Does self.old self.new out.old out.new result 0 (suspend_call name.now (state_of self.old) (plain_by (state_of self.old) by)) }
    {
        let Some(u) = self.find_thread(name) else {
            return Answer::Code(Code::Inval);
        };
        if !self.may_suspend(by, u) {
            return Answer::Code(Code::Error);
        }
        self.suspend(u);
        Answer::Code(Code::Ok)
    }

    // The suspended or waiting thread of this name becomes ready.
    #[tactic(auto, using(crate::proofs::StageLemmas::suspended_idle, crate::proofs::StageLemmas::suspended_open, crate::proofs::StageLemmas::suspended_apart))]
    fn resume(&mut self, name: &Name, out: &mut Lines) -> Answer
        requires room { HasRoom self.old out.old 1 }
        ensures { Does self.old self.new out.old out.new result 1 (resume name.now (state_of self.old)) }
    {
        let Some(u) = self.find_thread(name) else {
            return Answer::Code(Code::Inval);
        };
        if self.tables.is_suspended(u) {
            out.push(Line::Wake(self.name_of(u), Woke::Code(Code::Ok)));
            self.activate(u);
        } else if self.tables.is_waiting(u) {
            self.tables.know_waits();
            self.wake(u, Code::Intr, out);
        } else {
            return Answer::Code(Code::Error);
        }
        Answer::Code(Code::Ok)
    }

    // The thread of this name ends.
    fn kill<L: Ledger>(&mut self, name: &Name, out: &mut Lines, steps: &mut Steps<L>) -> Answer
        requires room { HasRoom self.old out.old 1 }
        ensures { Does self.old self.new out.old out.new result 1 (kill name.now (state_of self.old)) }
    {
        let Some(u) = self.find_thread(name) else {
            return Answer::Code(Code::Inval);
        };
        self.close(u, out, steps);
        Answer::Code(Code::Ok)
    }

    // The thread of this name has another base priority, with the lines of all current priorities that follow.
    fn set_prio<L: Ledger>(
        &mut self,
        board: &Board,
        name: &Name,
        prio: Prio,
        out: &mut Lines,
        steps: &mut Steps<L>,
    ) -> Answer
        requires level { prio < self.old.tables.levels }
        requires room { HasRoom self.old out.old (length self.old.tables.threads) }
        ensures { Does self.old self.new out.old out.new result (length self.old.tables.threads) (settled board.now (state_of self.old) (set_prio name.now prio (state_of self.old))) }
    {
        let _board = board;
        let Some(u) = self.find_thread(name) else {
            return Answer::Code(Code::Inval);
        };
        self.told.set_base(&mut self.tables, u, prio, steps);
        tell(&self.tables, self.told.changes(), out);
        Answer::Code(Code::Ok)
    }

    // One scheduler lock of the thread more, up to 255.
    fn sched_lock(&mut self, by: Caller, out: &mut Lines) -> Answer
        requires there { IsThere by self.old.tables }
        ensures { Does self.old self.new out.old out.new result 0 (sched_lock (state_of self.old) (plain_by (state_of self.old) by)) }
    {
        let Caller::Thread(t, _) = by else {
            return Answer::Code(Code::Error);
        };
        let mut vars = self.tables.vars(t);
        if vars.locks == u8::MAX {
            return Answer::Code(Code::Full);
        }
        vars.locks += 1;
        self.tables.set_vars(t, vars);
        Answer::Code(Code::Ok)
    }

    // One scheduler lock of the thread less.
    fn sched_unlock(&mut self, by: Caller, out: &mut Lines) -> Answer
        requires there { IsThere by self.old.tables }
        ensures { Does self.old self.new out.old out.new result 0 (sched_unlock (state_of self.old) (plain_by (state_of self.old) by)) }
    {
        let Caller::Thread(t, _) = by else {
            return Answer::Code(Code::Error);
        };
        let mut vars = self.tables.vars(t);
        if vars.locks == 0 {
            return Answer::Code(Code::Error);
        }
        vars.locks -= 1;
        self.tables.set_vars(t, vars);
        Answer::Code(Code::Ok)
    }
    // The core of the thread holds the lock over all cores, one deeper, up to 255.
    fn lock(&mut self, by: Caller, out: &mut Lines) -> Answer
        ensures { Does self.old self.new out.old out.new result 0 (lock (state_of self.old) (plain_by (state_of self.old) by)) }
    {
        let Caller::Thread(t, core) = by else {
            return Answer::Code(Code::Error);
        };
        Answer::Code(self.cores.enter(core))
    }

    // The core of the thread holds the lock over all cores one less deep.
    fn unlock(&mut self, by: Caller, out: &mut Lines) -> Answer
        ensures { Does self.old self.new out.old out.new result 0 (unlock (state_of self.old) (plain_by (state_of self.old) by)) }
    {
        let Caller::Thread(t, core) = by else {
            return Answer::Code(Code::Error);
        };
        Answer::Code(self.cores.exit(core))
    }
}
