ghost use Rattle.std.specs.Prelude.{◌≡◌, ◌≤◌, is_some, length, true};
ghost use Rattle.rt_base.specs.declared.codes.WaitOrder.{WaitOrder};
ghost use Rattle.rt_plain.specs.kernel.DeleteCall.{mutex_deletion};
ghost use Rattle.rt_plain.specs.kernel.Waiting.{takes_mutex, waiters};
ghost use Rattle.mutex_tie.specs.Changes.{new_curs};
ghost use Rattle.mutex_tables.specs.Created.{found_mutex};
ghost use Rattle.mutex_tables.specs.Moved.{MovesOne};
ghost use Rattle.mutex_tables.specs.Mutexes.{AreOut, MayWakeAll, followed, roused_all};
ghost use Rattle.mutex_tables.specs.MutexTabled.{plain_state};

use crate::mutexes::number_in;
use crate::renew::{renew, rouse};
use crate::tables::MutexTables;
use kernel_tables::Tables;
use mutex_chain::{Changes, MutexGraph, Woken};
use rt_base::{Class, Code, Name, Steps, ThreadNo};
use std::sync::ledger::Ledger;

// These threads wake with a code, one after the other, each by its new current priority.
fn wake_all(tables: &mut Tables, graph: &MutexGraph, code: Code, ts: &[ThreadNo])
    requires { MayWakeAll tables.old graph.now ts.now }
    ensures { tables.new ≡ roused_all tables.old graph.now code ts.now }
{
    for i in 0..ts.len() {
        let t = ts[i];
        rouse(tables, t, code, graph.cur(t));
    }
}

impl MutexTables {
    /// Drops the mutex of a name, which is there: nobody owns it, and all its waiters wake with -1. `woken` gets them in
    /// the order in which they stood. Threads that wait for a mutex aren't ready. `out` gets the current priorities that
    /// changed, in thread order; the ready threads among them go to the end of the ready list behind the woken ones, one
    /// after the other.
    pub fn delete_mutex<L: Ledger>(
        &mut self,
        name: &Name,
        woken: &mut Woken,
        out: &mut Changes,
        steps: &mut Steps<L>,
    )
        requires known { is_some (found_mutex self.old.mutexes name.now) ≡ true }
        requires apart { AreOut self.old }
        requires woken { length self.old.threads ≤ woken.old.threads }
        requires room { length self.old.threads ≤ out.old.threads }
        ensures woken { woken.new ≡ record woken.old { woken = waiters (plain_state self.old) WaitOrder.Prio (takes_mutex name.now) } }
        ensures changes { out.new ≡ record out.old { changes = new_curs (plain_state self.old) (plain_state self.new) } }
        ensures state { self.new ≡ followed self.old (mutex_deletion name.now (plain_state self.old)).effect.state out.new.changes }
        ensures one { MovesOne self.old.ready out.new.changes }
    {
        let no = number_in(&self.names, name);
        self.graph.know_owners();
        self.graph.kill_mutex(no, woken, out, steps);
        self.names.remove(Class::Mutex, no);
        wake_all(&mut self.tables, &self.graph, Code::Error, woken.as_slice());
        renew(&mut self.tables, out.as_slice());
    }
}
