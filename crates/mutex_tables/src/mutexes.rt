ghost use Rattle.std.specs.Prelude.{◌≡◌, ◌<◌, ◌≤◌, IfSome, is_some, length, true, false, None, Some};
ghost use Rattle.std.specs.Option.{option_map};
ghost use Rattle.rt_base.specs.declared.codes.WaitOrder.{WaitOrder};
ghost use Rattle.rt_plain.specs.kernel.MutexCalls.{mutex_release, with_mutex};
ghost use Rattle.rt_plain.specs.kernel.Outcome.{ByThread};
ghost use Rattle.rt_plain.specs.kernel.Waiting.{first_waiter, takes_mutex};
ghost use Rattle.rt_plain.specs.kernel.Priority.{awaited_mutex, holding_of, owner_of};
ghost use Rattle.rt_plain.specs.kernel.State.{InCall, Waiting, is_among, is_closed};
ghost use Rattle.rt_plain.specs.declared.stmt.Call.TheVariants.{MutexTake as TakesMutex};
ghost use Rattle.kernel_tables.specs.Threads.{row_at, with_row};
ghost use Rattle.mutex_chain.specs.Graph.{IsOther};
ghost use Rattle.mutex_tie.specs.Changes.{new_curs};
ghost use Rattle.object_box.specs.Objects.{number_of};
ghost use Rattle.mutex_tables.specs.Created.{found_mutex};
ghost use Rattle.mutex_tables.specs.Moved.{MovesOne, moved_behind};
ghost use Rattle.mutex_tables.specs.Mutexes.{AreOut, MayWake, followed, passed_to, released_by, taken_state, took_by, woken_next};
ghost use Rattle.mutex_tables.specs.MutexTabled.{plain_state};

use crate::renew::{renew, rouse};
use crate::tables::MutexTables;
use kernel_tables::Tables;
use mutex_chain::{Changes, MutexGraph, Released, Took};
use object_box::Objects;
use rt_base::{Class, Code, Name, ObjNo, Prio, Steps, ThreadNo};
use rt_plain::Call;
use std::sync::ledger::Ledger;

// The number of the mutex of a name, which is there.
pub fn number_in(names: &Objects, name: &Name) -> ObjNo
    requires { is_some (number_of names.now.mutex.objects name.now) ≡ true }
    ensures { number_of names.now.mutex.objects name.now ≡ Some result }
{
    let Some(no) = names.find(Class::Mutex, name) else {
        unreachable!();
    };
    no
}

// Whom a released mutex passed to wakes with 0, by its new current priority.
fn wake_next(tables: &mut Tables, graph: &MutexGraph, released: &Released)
    requires { IfSome (passed_to released.now) (MayWake tables.old graph.now) }
    ensures { tables.new ≡ woken_next tables.old graph.now (passed_to released.now) }
{
    if let Released::Passed(w) = released {
        rouse(tables, *w, Code::Ok, graph.cur(*w));
    }
}

impl MutexTables {
    /// Whether there is a mutex of a name. Where there is none, nobody owns one of that name.
    pub fn has_mutex(&self, name: &Name) -> bool
        ensures there { result ≡ is_some (found_mutex self.now.mutexes name.now) }
        ensures free { result ≡ false → holding_of (plain_state self.now) name.now ≡ None }
    {
        self.names.find(Class::Mutex, name).is_some()
    }

    /// A thread that hasn't ended and waits for no mutex takes the mutex of a name, which is there: it gets one that nobody
    /// owns, and takes its own once more, up to 255 times; nothing changes where another thread owns it. `out` gets the
    /// current priorities that changed, in thread order; the ready threads among them go to the end of the ready list, one
    /// after the other.
    pub fn take_mutex<L: Ledger>(
        &mut self,
        t: ThreadNo,
        name: &Name,
        out: &mut Changes,
        steps: &mut Steps<L>,
    ) -> Took
        requires there { t < length self.old.threads }
        requires live { is_closed (row_at self.old.threads t).stage ≡ false }
        requires idle { awaited_mutex (row_at self.old.threads t).stage ≡ None }
        requires known { is_some (found_mutex self.old.mutexes name.now) ≡ true }
        requires room { length self.old.threads ≤ out.old.threads }
        ensures answer { result ≡ took_by t (holding_of (plain_state self.old) name.now) }
        ensures changes { out.new ≡ record out.old { changes = new_curs (plain_state self.old) (plain_state self.new) } }
        ensures state { self.new ≡ followed self.old (taken_state name.now t (holding_of (plain_state self.old) name.now) (plain_state self.old)) out.new.changes }
        ensures one { AreOut self.old → MovesOne self.old.ready out.new.changes }
    {
        let no = number_in(&self.names, name);
        let took = self.graph.take(t, no, out, steps);
        renew(&mut self.tables, out.as_slice());
        took
    }

    /// A thread that hasn't ended, isn't ready and waits for no mutex waits for the mutex of a name, which another thread
    /// owns, with its arrival number. `out` gets the current priorities that changed, in thread order; the ready threads
    /// among them go to the end of the ready list, one after the other.
    pub fn wait_mutex<L: Ledger>(
        &mut self,
        t: ThreadNo,
        name: &Name,
        timeout: Option<u32>,
        at: u64,
        out: &mut Changes,
        steps: &mut Steps<L>,
    )
        requires there { t < length self.old.threads }
        requires live { is_closed (row_at self.old.threads t).stage ≡ false }
        requires idle { awaited_mutex (row_at self.old.threads t).stage ≡ None }
        requires unready { is_among self.old.ready t ≡ false }
        requires known { is_some (found_mutex self.old.mutexes name.now) ≡ true }
        requires owned { IsOther t (owner_of (plain_state self.old) name.now) }
        requires room { length self.old.threads ≤ out.old.threads }
        ensures changes { out.new ≡ record out.old { changes = new_curs (plain_state self.old) (plain_state self.new) } }
        ensures state { self.new ≡ record self.old { threads = with_row self.old.threads t (λ row. record row { stage = Waiting (InCall (TakesMutex name.now timeout)) at }); ready = moved_behind self.old.ready out.new.changes self.old.ready } }
        ensures one { AreOut self.old → MovesOne self.old.ready out.new.changes }
    {
        let no = number_in(&self.names, name);
        self.graph.wait(t, no, at, out, steps);
        self.tables
            .wait(t, Call::MutexTake(name.copy(), timeout), at);
        renew(&mut self.tables, out.as_slice());
    }

    /// A thread that hasn't ended releases the mutex of a name, which is there: its owner holds it once less, and at the
    /// last time it passes to its first waiter, who wakes with 0, or nobody owns it; nothing changes for another thread.
    /// Threads that wait for a mutex aren't ready. `out` gets the current priorities that changed, in thread order; the
    /// ready threads among them go to the end of the ready list behind the woken one, one after the other.
    pub fn release_mutex<L: Ledger>(
        &mut self,
        t: ThreadNo,
        name: &Name,
        out: &mut Changes,
        steps: &mut Steps<L>,
    ) -> Released
        requires there { t < length self.old.threads }
        requires live { is_closed (row_at self.old.threads t).stage ≡ false }
        requires known { is_some (found_mutex self.old.mutexes name.now) ≡ true }
        requires apart { AreOut self.old }
        requires room { length self.old.threads ≤ out.old.threads }
        ensures answer { result ≡ released_by t (holding_of (plain_state self.old) name.now) (first_waiter (plain_state self.old) WaitOrder.Prio (takes_mutex name.now)) }
        ensures changes { out.new ≡ record out.old { changes = new_curs (plain_state self.old) (plain_state self.new) } }
        ensures state { self.new ≡ followed self.old (mutex_release name.now (plain_state self.old) (ByThread t 0)).effect.state out.new.changes }
        ensures one { awaited_mutex (row_at self.old.threads t).stage ≡ None → MovesOne self.old.ready out.new.changes }
    {
        let no = number_in(&self.names, name);
        let released = self.graph.release(t, no, out, steps);
        wake_next(&mut self.tables, &self.graph, &released);
        renew(&mut self.tables, out.as_slice());
        released
    }

    /// Gives the mutex of a name, which is there, another ceiling. The answer is the old one. `out` gets the current
    /// priorities that changed, in thread order; the ready threads among them go to the end of the ready list, one after
    /// the other.
    pub fn set_ceiling<L: Ledger>(
        &mut self,
        name: &Name,
        ceiling: Prio,
        out: &mut Changes,
        steps: &mut Steps<L>,
    ) -> Prio
        requires known { is_some (found_mutex self.old.mutexes name.now) ≡ true }
        requires room { length self.old.threads ≤ out.old.threads }
        ensures answer { option_map (λ mutex. mutex.ceiling) (found_mutex self.old.mutexes name.now) ≡ Some result }
        ensures changes { out.new ≡ record out.old { changes = new_curs (plain_state self.old) (plain_state self.new) } }
        ensures state { self.new ≡ followed self.old (with_mutex (plain_state self.old) (record { name = name.now; ceiling = ceiling })) out.new.changes }
        ensures one { AreOut self.old → MovesOne self.old.ready out.new.changes }
    {
        let no = number_in(&self.names, name);
        let old = self.graph.set_ceiling(no, ceiling, out, steps);
        renew(&mut self.tables, out.as_slice());
        old
    }
}
