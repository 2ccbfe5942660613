ghost use Rattle.std.specs.Prelude.{◌≡◌, ◌<◌, ◌≤◌, false, length};
ghost use Rattle.rt_plain.specs.kernel.Sound.{is_active};
ghost use Rattle.rt_plain.specs.kernel.State.{is_among, is_closed};
ghost use Rattle.kernel_tables.specs.Threads.{row_at, with_row};
ghost use Rattle.mutex_tie.specs.Changes.{new_curs};
ghost use Rattle.mutex_tables.specs.Moved.{AreWithin, MovesOne, moved_behind, renewed, roused};
ghost use Rattle.mutex_tables.specs.Mutexes.{AreOut};
ghost use Rattle.mutex_tables.specs.MutexTabled.{plain_state};

use crate::tables::MutexTables;
use kernel_tables::Tables;
use mutex_chain::{Change, Changes};
use rt_base::{Code, Prio, Steps, ThreadNo};
use std::sync::ledger::Ledger;

// The changed threads have their new priorities in all lists.
pub fn renew(tables: &mut Tables, changes: &[Change])
    requires { AreWithin tables.old changes.now }
    ensures { tables.new ≡ renewed tables.old changes.now }
{
    for change in changes {
        tables.set_base(change.thread, change.new);
    }
}

// A thread that is neither active nor ready wakes with a code: it is active, at the end of the ready list, with this
// priority.
pub fn rouse(tables: &mut Tables, t: ThreadNo, code: Code, prio: Prio)
    requires there { t < length tables.old.threads }
    requires idle { is_active (row_at tables.old.threads t).stage ≡ false }
    requires unready { is_among tables.old.ready t ≡ false }
    requires level { prio < tables.old.levels }
    ensures { tables.new ≡ roused tables.old t code prio }
{
    tables.set_base(t, prio);
    tables.set_code(t, code);
    tables.activate(t);
}

impl MutexTables {
    /// A thread that hasn't ended has another base priority. `out` gets the current priorities that changed, in thread
    /// order; the ready threads among them go to the end of the ready list, one after the other.
    pub fn set_base<L: Ledger>(
        &mut self,
        t: ThreadNo,
        base: Prio,
        out: &mut Changes,
        steps: &mut Steps<L>,
    )
        requires there { t < length self.old.threads }
        requires live { is_closed (row_at self.old.threads t).stage ≡ false }
        requires level { base < self.old.levels }
        requires room { length self.old.threads ≤ out.old.threads }
        ensures changes { out.new ≡ record out.old { changes = new_curs (plain_state self.old) (plain_state self.new) } }
        ensures state { self.new ≡ record self.old { threads = with_row self.old.threads t (λ row. record row { base = base }); ready = moved_behind self.old.ready out.new.changes self.old.ready } }
        ensures one { AreOut self.old → MovesOne self.old.ready out.new.changes }
    {
        self.graph.set_base(t, base, out, steps);
        self.bases[t.0 as usize] = base;
        renew(&mut self.tables, out.as_slice());
    }
}
