ghost use Rattle.std.specs.Prelude.{◌≡◌, ◌<◌, ◌++◌, ◌∷◌, ◌==◌, [], filter, length, not, true, false, unwrap_or, None};
ghost use Rattle.rt_plain.specs.kernel.Sound.{is_active};
ghost use Rattle.rt_plain.specs.kernel.State.{Active, Closed, InCall, Suspended, Waiting, is_among};
ghost use Rattle.rt_plain.specs.kernel.Ticks.{thread_after_slice};
ghost use Rattle.kernel_tables.specs.Awaiting.{awaited_of};
ghost use Rattle.kernel_tables.specs.Repeated.{is_in_call, is_repeated};
ghost use Rattle.kernel_tables.specs.Tabled.{knows, rebased};
ghost use Rattle.kernel_tables.specs.Threads.{row_at, with_row, with_vars, retried_row};

use crate::awaited::Awaited;
use crate::lists::Lists;
use crate::ready::rebase;
use crate::retry::Retry;
use crate::stage::Stage;
use crate::threads::Threads;
use crate::vars::Vars;
use ready_list::ReadyList;
use rt_base::{Code, Prio, Text, ThreadNo};
use rt_plain::Call;
use std::marker::Model;

/// The threads, which of them are ready, and the objects that they wait for. Contracts see the plain threads, the plain
/// ready list and the plain objects. What it keeps: the wait list of each object holds exactly the threads that wait for
/// it, and the ready list has active threads alone, each with its priority and its binding.
#[derive(Drop)]
pub struct Tables {
    pub(crate) threads: Threads,
    pub(crate) lists: Lists,
    pub(crate) ready: ReadyList,
}

impl Model for Tables {
    ghost use Rattle.kernel_tables.specs.Tabled.{Tabled};
    ghost use Rattle.kernel_tables.specs.Tied.{tabled};
    ghost use Rattle.kernel_tables.specs.Ready.{AreTables, with_ready};

    ghost Value = { Tabled };

    ghost view = { λ k. with_ready (tabled k.threads k.lists) k.ready };

    ghost invariant = { λ k. AreTables k.threads k.lists k.ready };
}

impl Tables {
    /// The threads by number.
    pub fn threads(&self) -> &Threads
        ensures { result.now ≡ self.now.threads }
    {
        &self.threads
    }

    /// The thread is active, at the end of the ready list. It leaves its wait.
    pub fn activate(&mut self, t: ThreadNo)
        requires there { t < length self.old.threads }
        requires idle { is_active (row_at self.old.threads t).stage ≡ false }
        ensures { self.new ≡ record self.old { threads = with_row self.old.threads t (λ row. record row { stage = Active }); ready = self.old.ready ++ t ∷ [] } }
    {
        self.lists.leave_at(t, self.threads.stage(t));
        self.threads.stand(t, Stage::Active);
        self.ready
            .add_tail(t, self.threads.base(t), self.threads.core(t));
    }

    /// The thread, which waits in a call on a mailbox or a message queue, for the console or for a work, is active, at the
    /// end of the ready list, and has to go for that again. It leaves its wait, which was due at a moment, if at any.
    pub fn activate_to_retry(&mut self, t: ThreadNo, due: Option<u64>)
        requires there { t < length self.old.threads }
        requires waits { is_repeated (row_at self.old.threads t).stage ≡ true }
        ensures { self.new ≡ record self.old { threads = with_row self.old.threads t (retried_row due); ready = self.old.ready ++ t ∷ [] } }
    {
        self.lists.leave_at(t, self.threads.stage(t));
        self.threads.retry(t, due);
        self.ready
            .add_tail(t, self.threads.base(t), self.threads.core(t));
    }

    /// What the thread has to make again, which it then has no more: `None` exactly where there is nothing.
    pub fn take_retry(&mut self, t: ThreadNo) -> Option<Retry>
        requires { t < length self.old.threads }
        ensures retry { result ≡ (row_at self.old.threads t).retry }
        ensures state { self.new ≡ record self.old { threads = with_row self.old.threads t (λ row. record row { retry = None }) } }
    {
        self.threads.take_retry(t)
    }

    /// The thread is suspended: it leaves the ready list and its wait.
    pub fn suspend(&mut self, t: ThreadNo)
        requires { t < length self.old.threads }
        ensures { self.new ≡ record self.old { threads = with_row self.old.threads t (λ row. record row { stage = Suspended }); ready = filter (λ u. not (u == t)) self.old.ready } }
    {
        self.lists.leave_at(t, self.threads.stage(t));
        self.threads.stand(t, Stage::Suspended);
        self.ready.remove(t);
    }

    /// The thread has ended, and has nothing to do again. It leaves the ready list and its wait.
    pub fn close(&mut self, t: ThreadNo)
        requires { t < length self.old.threads }
        ensures { self.new ≡ record self.old { threads = with_row self.old.threads t (λ row. record row { stage = Closed; retry = None }); ready = filter (λ u. not (u == t)) self.old.ready } }
    {
        self.lists.leave_at(t, self.threads.stage(t));
        self.threads.close(t);
        self.ready.remove(t);
    }

    /// The thread, which isn't ready, waits in a call, whose object is there, with its arrival number.
    pub fn wait(&mut self, t: ThreadNo, call: Call, at: u64)
        requires there { t < length self.old.threads }
        requires unready { is_among self.old.ready t ≡ false }
        requires known { knows self.old call ≡ true }
        ensures { self.new ≡ record self.old { threads = with_row self.old.threads t (λ row. record row { stage = Waiting (InCall call) at }) } }
    {
        self.lists.leave_at(t, self.threads.stage(t));
        self.lists.join(t, &call, self.threads.base(t), at);
        self.threads
            .stand(t, Stage::Waiting(Awaited::Call(call), at));
    }

    /// The thread, which isn't ready, waits for the console or for a work, with its arrival number.
    pub fn wait_apart(&mut self, t: ThreadNo, what: Awaited, at: u64)
        requires there { t < length self.old.threads }
        requires unready { is_among self.old.ready t ≡ false }
        requires apart { is_in_call (awaited_of what) ≡ false }
        ensures { self.new ≡ record self.old { threads = with_row self.old.threads t (λ row. record row { stage = Waiting (awaited_of what) at }) } }
    {
        self.lists.leave_at(t, self.threads.stage(t));
        self.threads.stand(t, Stage::Waiting(what, at));
    }

    /// The thread has another base priority, also where it waits. Where the base is new, a ready thread goes to the end.
    pub fn set_base(&mut self, t: ThreadNo, base: Prio)
        requires there { t < length self.old.threads }
        requires level { base < self.old.levels }
        ensures { self.new ≡ record self.old { threads = with_row self.old.threads t (λ row. record row { base = base }); ready = rebased self.old t base } }
    {
        self.lists.reprio_at(t, self.threads.stage(t), base);
        rebase(&mut self.ready, t, self.threads.base(t), base);
        self.threads.set_base(t, base);
    }

    /// The thread has these variables.
    pub fn set_vars(&mut self, t: ThreadNo, vars: Vars)
        requires { t < length self.old.threads }
        ensures { self.new ≡ record self.old { threads = with_row self.old.threads t (with_vars vars) } }
    {
        self.threads.set_vars(t, vars);
    }

    /// The thread has this last text, an empty one where none is given.
    pub fn set_text(&mut self, t: ThreadNo, text: Option<Text>)
        requires { t < length self.old.threads }
        ensures { self.new ≡ record self.old { threads = with_row self.old.threads t (λ row. record row { text = unwrap_or text [] }) } }
    {
        self.threads.set_text(t, text);
    }

    /// The thread does this statement next.
    pub fn set_next(&mut self, t: ThreadNo, next: u16)
        requires { t < length self.old.threads }
        ensures { self.new ≡ record self.old { threads = with_row self.old.threads t (λ row. record row { next = next }) } }
    {
        let mut vars = self.threads.vars(t);
        vars.next = next;
        self.set_vars(t, vars);
    }

    /// The thread has this last code.
    pub fn set_code(&mut self, t: ThreadNo, code: Code)
        requires { t < length self.old.threads }
        ensures { self.new ≡ record self.old { threads = with_row self.old.threads t (λ row. record row { code = code }) } }
    {
        let mut vars = self.threads.vars(t);
        vars.code = code;
        self.set_vars(t, vars);
    }

    /// The mark of the thread is gone.
    pub fn unmark(&mut self, t: ThreadNo)
        requires { t < length self.old.threads }
        ensures { self.new ≡ record self.old { threads = with_row self.old.threads t (λ row. record row { marked = false }) } }
    {
        let mut vars = self.threads.vars(t);
        vars.marked = false;
        self.set_vars(t, vars);
    }

    /// One tick less of the slice of a thread. A slice that is used up begins anew, and the thread gets the mark.
    pub fn fall(&mut self, t: ThreadNo)
        requires { t < length self.old.threads }
        ensures { self.new ≡ record self.old { threads = with_row self.old.threads t thread_after_slice } }
    {
        let mut vars = self.threads.vars(t);
        vars.fall();
        self.set_vars(t, vars);
    }
}
