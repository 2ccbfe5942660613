ghost use Rattle.std.specs.Prelude.{◌≡◌, ◌+◌, ◌<◌, ◌≤◌, ◌++◌, ◌∷◌, ◌==◌, [], IfSome, filter, length, not, true, false};
ghost use Rattle.rt_plain.specs.kernel.Pick.{pick};
ghost use Rattle.rt_plain.specs.kernel.Sleeps.{is_empty};
ghost use Rattle.rt_plain.specs.kernel.Sound.{is_active};
ghost use Rattle.rt_plain.specs.kernel.State.{is_among};
ghost use Rattle.kernel_tables.specs.Threads.{row_at};
ghost use Rattle.mutex_tie.specs.Changes.{AreLive};
ghost use Rattle.mutex_tables.specs.MutexTabled.{plain_state};

use crate::tables::MutexTables;
use rt_base::{CoreNo, Steps, ThreadNo};
use std::sync::ledger::Ledger;

impl MutexTables {
    /// Whether a thread is ready.
    pub fn is_ready(&self, t: ThreadNo) -> bool
        requires { t < length self.now.threads }
        ensures { result ≡ is_among self.now.ready t }
    {
        self.tables.is_ready(t)
    }

    /// Whether no thread is ready.
    pub fn is_idle(&self) -> bool
        ensures { result ≡ is_empty self.now.ready }
    {
        self.tables.is_idle()
    }

    /// The thread that a core takes next, where no ready thread has ended: of the ready threads that are unbound or bound
    /// to it, one of the most urgent current priority, of these a bound one before an unbound one, and then the one that
    /// stands first. None exactly where no ready thread may run there. It reads at most eight words, however many levels
    /// and threads there are.
    pub fn pick<L: Ledger>(&self, core: CoreNo, steps: &mut Steps<L>) -> Option<ThreadNo>
        requires core { core < self.now.cores }
        requires live { AreLive (plain_state self.now) }
        ensures thread { result ≡ pick (plain_state self.now) core }
        ensures there { IfSome result (λ t. (t < length self.now.threads) × (is_among self.now.ready t ≡ true)) }
        ensures cost { steps.new ≤ steps.old + 8 }
    {
        self.tables.pick(core, steps)
    }

    /// The thread is no longer ready, as one that a core takes.
    pub fn leave_ready(&mut self, t: ThreadNo)
        requires { t < length self.old.threads }
        ensures { self.new ≡ record self.old { ready = filter (λ u. not (u == t)) self.old.ready } }
    {
        self.tables.leave_ready(t);
    }

    /// An active thread that isn't ready goes to the end of the ready list, as one whose slice is used up.
    pub fn enter_last(&mut self, t: ThreadNo)
        requires there { t < length self.old.threads }
        requires active { is_active (row_at self.old.threads t).stage ≡ true }
        requires unready { is_among self.old.ready t ≡ false }
        ensures { self.new ≡ record self.old { ready = self.old.ready ++ t ∷ [] } }
    {
        self.tables.enter_last(t);
    }

    /// An active thread that isn't ready goes to the front of the ready list, as one that gives way to a more urgent one.
    pub fn enter_first(&mut self, t: ThreadNo)
        requires there { t < length self.old.threads }
        requires active { is_active (row_at self.old.threads t).stage ≡ true }
        requires unready { is_among self.old.ready t ≡ false }
        ensures { self.new ≡ record self.old { ready = t ∷ self.old.ready } }
    {
        self.tables.enter_first(t);
    }
}
