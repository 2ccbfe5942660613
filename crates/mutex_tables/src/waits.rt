ghost use Rattle.std.specs.Prelude.{◌≡◌, ◌≢◌, ◌<◌, ◌≤◌, ◌++◌, ◌∷◌, ◌==◌, [], None, filter, length, not, true, false};
ghost use Rattle.rt_plain.specs.kernel.Priority.{awaited_mutex, mutex_of_call};
ghost use Rattle.rt_plain.specs.kernel.Sound.{is_active};
ghost use Rattle.rt_plain.specs.kernel.State.{Active, InCall, Suspended, Waiting, is_among, is_closed};
ghost use Rattle.kernel_tables.specs.Awaiting.{awaited_of};
ghost use Rattle.kernel_tables.specs.Repeated.{is_in_call, is_repeated};
ghost use Rattle.kernel_tables.specs.Tabled.{woken_row};
ghost use Rattle.kernel_tables.specs.Threads.{retried_row, row_at, with_row};
ghost use Rattle.mutex_tie.specs.Changes.{new_curs};
ghost use Rattle.mutex_tables.specs.MutexTabled.{plain_state};
ghost use Rattle.mutex_tables.specs.Moved.{MovesOne, moved_behind};
ghost use Rattle.mutex_tables.specs.Mutexes.{AreOut};
ghost use Rattle.mutex_tables.specs.Known.{knows};

use crate::renew::{renew, rouse};
use crate::tables::MutexTables;
use kernel_tables::Awaited;
use mutex_chain::Changes;
use rt_base::{Code, Steps, ThreadNo};
use rt_plain::Call;
use std::sync::ledger::Ledger;

impl MutexTables {
    /// A thread that hasn't ended and waits for no mutex is active, at the end of the ready list. It leaves its wait.
    pub fn activate(&mut self, t: ThreadNo)
        requires there { t < length self.old.threads }
        requires idle { is_active (row_at self.old.threads t).stage ≡ false }
        requires live { is_closed (row_at self.old.threads t).stage ≡ false }
        requires apart { awaited_mutex (row_at self.old.threads t).stage ≡ None }
        ensures { self.new ≡ record self.old { threads = with_row self.old.threads t (λ row. record row { stage = Active }); ready = self.old.ready ++ t ∷ [] } }
    {
        self.tables.activate(t);
    }

    /// A thread that waits in a call on a mailbox or a message queue, for the console or for a work is active, at the end of
    /// the ready list, and has to go for that again. It leaves its wait, which was due at a moment, if at any.
    pub fn activate_to_retry(&mut self, t: ThreadNo, due: Option<u64>)
        requires there { t < length self.old.threads }
        requires waits { is_repeated (row_at self.old.threads t).stage ≡ true }
        ensures { self.new ≡ record self.old { threads = with_row self.old.threads t (retried_row due); ready = self.old.ready ++ t ∷ [] } }
    {
        self.tables.activate_to_retry(t, due);
    }

    /// A thread that hasn't ended and waits for no mutex is suspended: it leaves the ready list and its wait.
    pub fn suspend(&mut self, t: ThreadNo)
        requires there { t < length self.old.threads }
        requires live { is_closed (row_at self.old.threads t).stage ≡ false }
        requires apart { awaited_mutex (row_at self.old.threads t).stage ≡ None }
        ensures { self.new ≡ record self.old { threads = with_row self.old.threads t (λ row. record row { stage = Suspended }); ready = filter (λ u. not (u == t)) self.old.ready } }
    {
        self.tables.suspend(t);
    }

    /// A thread that hasn't ended, waits for no mutex and isn't ready waits in a call that takes no mutex, whose object is
    /// there, with its arrival number.
    pub fn wait(&mut self, t: ThreadNo, call: Call, at: u64)
        requires there { t < length self.old.threads }
        requires unready { is_among self.old.ready t ≡ false }
        requires live { is_closed (row_at self.old.threads t).stage ≡ false }
        requires apart { awaited_mutex (row_at self.old.threads t).stage ≡ None }
        requires known { knows self.old call ≡ true }
        requires other { mutex_of_call call ≡ None }
        ensures { self.new ≡ record self.old { threads = with_row self.old.threads t (λ row. record row { stage = Waiting (InCall call) at }) } }
    {
        self.tables.wait(t, call, at);
    }

    /// A thread that hasn't ended, waits for no mutex and isn't ready waits for the console or for a work, with its arrival
    /// number.
    pub fn wait_apart(&mut self, t: ThreadNo, what: Awaited, at: u64)
        requires there { t < length self.old.threads }
        requires unready { is_among self.old.ready t ≡ false }
        requires live { is_closed (row_at self.old.threads t).stage ≡ false }
        requires idle { awaited_mutex (row_at self.old.threads t).stage ≡ None }
        requires apart { is_in_call (awaited_of what) ≡ false }
        ensures { self.new ≡ record self.old { threads = with_row self.old.threads t (λ row. record row { stage = Waiting (awaited_of what) at }) } }
    {
        self.tables.wait_apart(t, what, at);
    }

    /// A thread that waits for a mutex wakes with a code, as at its due moment: it is active, at the end of the ready list.
    /// `out` gets the current priorities that changed, in thread order; the ready threads among them go to the end of the
    /// ready list behind it, one after the other.
    pub fn stop_waiting<L: Ledger>(
        &mut self,
        t: ThreadNo,
        code: Code,
        out: &mut Changes,
        steps: &mut Steps<L>,
    )
        requires there { t < length self.old.threads }
        requires waits { awaited_mutex (row_at self.old.threads t).stage ≢ None }
        requires unready { is_among self.old.ready t ≡ false }
        requires room { length self.old.threads ≤ out.old.threads }
        ensures changes { out.new ≡ record out.old { changes = new_curs (plain_state self.old) (plain_state self.new) } }
        ensures state { self.new ≡ record self.old { threads = with_row self.old.threads t (woken_row code); ready = moved_behind self.old.ready out.new.changes (self.old.ready ++ t ∷ []) } }
        ensures one { AreOut self.old → MovesOne self.old.ready out.new.changes }
    {
        self.graph.leave(t, out, steps);
        rouse(&mut self.tables, t, code, self.graph.cur(t));
        renew(&mut self.tables, out.as_slice());
    }
}
