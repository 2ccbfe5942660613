ghost use Rattle.std.specs.Prelude.{◌≡◌, ◌<◌, ◌≤◌, false, length, map};
ghost use Rattle.rt_base.specs.declared.codes.Code.{Code};
ghost use Rattle.rt_plain.specs.kernel.Owners.{close_effect};
ghost use Rattle.rt_plain.specs.kernel.State.{is_closed};
ghost use Rattle.kernel_tables.specs.Threads.{row_at};
ghost use Rattle.mutex_tie.specs.Changes.{new_curs};
ghost use Rattle.mutex_tables.specs.Moved.{MovesOne};
ghost use Rattle.mutex_tables.specs.Mutexes.{AreOut, MayWakeAll, followed, roused_all};
ghost use Rattle.mutex_tables.specs.MutexTabled.{plain_state};
ghost use Rattle.mutex_tables.specs.Passed.{passed_at_end};

use crate::passed::{PassedMutexes, name_all};
use crate::renew::{renew, rouse};
use crate::tables::MutexTables;
use kernel_tables::Tables;
use mutex_chain::{Changes, MutexGraph};
use rt_base::{Code, ObjNo, Steps, ThreadNo};
use std::sync::ledger::Ledger;

// Those whom mutexes passed to wake with 0, one after the other, each by its new current priority.
fn wake_passed(tables: &mut Tables, graph: &MutexGraph, passes: &[(ObjNo, ThreadNo)])
    requires { MayWakeAll tables.old graph.now (map (λ p. p.1) passes.now) }
    ensures { tables.new ≡ roused_all tables.old graph.now Code.Ok (map (λ p. p.1) passes.now) }
{
    for i in 0..passes.len() {
        let t = passes[i].1;
        rouse(tables, t, Code::Ok, graph.cur(t));
    }
}

impl MutexTables {
    /// A thread that hasn't ended ends, and has nothing to do again: it leaves the ready list and its wait, and gives back
    /// its mutexes, the last got first, each to its first waiter, who wakes with 0, or to nobody. Threads that wait for a
    /// mutex aren't ready. `passed` gets the mutexes that passed to a waiter. `out` gets the current priorities that
    /// changed, in thread order; the ready threads among them go to the end of the ready list behind the woken ones, one
    /// after the other.
    pub fn close<L: Ledger>(
        &mut self,
        t: ThreadNo,
        passed: &mut PassedMutexes,
        out: &mut Changes,
        steps: &mut Steps<L>,
    )
        requires there { t < length self.old.threads }
        requires live { is_closed (row_at self.old.threads t).stage ≡ false }
        requires apart { AreOut self.old }
        requires passed { length self.old.threads ≤ passed.old.threads }
        requires room { length self.old.threads ≤ out.old.threads }
        ensures passed { passed.new ≡ record passed.old { passed = passed_at_end t (plain_state self.old) } }
        ensures changes { out.new ≡ record out.old { changes = new_curs (plain_state self.old) (plain_state self.new) } }
        ensures state { self.new ≡ followed self.old (close_effect t (plain_state self.old)).state out.new.changes }
        ensures one { MovesOne self.old.ready out.new.changes }
    {
        self.graph.kill_thread(t, &mut passed.passes, out, steps);
        self.tables.close(t);
        wake_passed(&mut self.tables, &self.graph, passed.passes.as_slice());
        name_all(&self.names, passed.passes.as_slice(), &mut passed.named);
        renew(&mut self.tables, out.as_slice());
    }
}
