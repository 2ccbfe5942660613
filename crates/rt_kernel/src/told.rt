ghost use Rattle.std.specs.Prelude.{◌≡◌, ◌<◌, false, length, [], None, IfOk, filter, not, ◌==◌};
ghost use Rattle.rt_plain.specs.kernel.State.{Closed, is_closed};
ghost use Rattle.kernel_tables.specs.Threads.{row_at, with_row};
ghost use Rattle.mutex_tables.specs.Moved.{MovesOne, moved_behind};
ghost use Rattle.mutex_tables.specs.Mutexes.{AreOut};
ghost use Rattle.mutex_tables.specs.MutexTabled.{plain_state};
ghost use Rattle.mutex_tie.specs.Changes.{new_curs};
ghost use Rattle.rt_kernel.specs.Mutexes.{HasNoMutex};

use mutex_chain::{Change, Changes};
use mutex_tables::{MutexTables, PassedMutexes};
use rt_base::{Prio, Steps, ThreadNo};
use std::alloc::{AllocError, Global};
use std::marker::Model;
use std::sync::ledger::Ledger;

/// What the last action on mutexes tells: the current priorities that it changed, and the mutexes that passed. It has room
/// for all threads.
#[derive(Drop)]
pub struct Told {
    pub(crate) changes: Changes,
    pub(crate) passed: PassedMutexes,
}

impl Model for Told {
    ghost use Rattle.std.specs.Prelude.{◌≤◌};
    ghost use Rattle.rt_kernel.specs.Told.{PlainTold};

    ghost Value = { PlainTold };

    ghost view = { λ t. record { changes = t.changes.changes; passed = t.passed.passed } };

    ghost invariant = { λ t. (256 ≤ t.changes.threads) × (256 ≤ t.passed.threads) };
}

impl Told {
    // The current priorities that the last action changed.
    pub fn changes(&self) -> &[Change]
        ensures { result.now ≡ self.now.changes }
    {
        self.changes.as_slice()
    }

    // Nothing, with room for all threads.
    pub fn new(alloc: Global) -> Result<Told, AllocError>
        ensures { IfOk result (λ t. t ≡ record { changes = []; passed = [] }) }
    {
        let changes = Changes::new(alloc, 256)?;
        let passed = PassedMutexes::new(alloc, 256)?;
        Ok(Told { changes, passed })
    }

    // A thread that hasn't ended has another base priority: the current priorities that changed are noted, and the ready
    // threads among them go to the end of the ready list, one after the other.
    pub fn set_base<L: Ledger>(
        &mut self,
        tables: &mut MutexTables,
        t: ThreadNo,
        base: Prio,
        steps: &mut Steps<L>,
    )
        requires there { t < length tables.old.threads }
        requires live { is_closed (row_at tables.old.threads t).stage ≡ false }
        requires level { base < tables.old.levels }
        ensures changes { self.new.changes ≡ new_curs (plain_state tables.old) (plain_state tables.new) }
        ensures state { tables.new ≡ record tables.old { threads = with_row tables.old.threads t (λ row. record row { base = base }); ready = moved_behind tables.old.ready self.new.changes tables.old.ready } }
        ensures one { AreOut tables.old → MovesOne tables.old.ready self.new.changes }
    {
        // There are at most 256 threads.
        let _ = tables.thread_count();
        tables.set_base(t, base, &mut self.changes, steps);
    }

    // A thread that hasn't ended ends, where there is no mutex: it leaves the ready list and its wait.
    pub fn close<L: Ledger>(&mut self, tables: &mut MutexTables, t: ThreadNo, steps: &mut Steps<L>)
        requires there { t < length tables.old.threads }
        requires live { is_closed (row_at tables.old.threads t).stage ≡ false }
        requires free { HasNoMutex (plain_state tables.old) }
        ensures { tables.new ≡ record tables.old { threads = with_row tables.old.threads t (λ row. record row { stage = Closed; retry = None }); ready = filter (λ u. not (u == t)) tables.old.ready } }
    {
        // There are at most 256 threads.
        let _ = tables.thread_count();
        tables.know_waits();
        tables.close(t, &mut self.passed, &mut self.changes, steps);
    }
}
