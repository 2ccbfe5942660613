ghost use Rattle.std.specs.Prelude.{◌≡◌, ◌+◌, ◌<◌, ◌≤◌, ◌++◌, ◌∷◌, ◌==◌, [], IfSome, if◌then◌else◌, filter, length, map, not, true, false};
ghost use Rattle.rt_plain.specs.kernel.Pick.{pick_among};
ghost use Rattle.rt_plain.specs.kernel.Sleeps.{is_empty};
ghost use Rattle.rt_plain.specs.kernel.Sound.{is_active};
ghost use Rattle.rt_plain.specs.kernel.State.{is_among};
ghost use Rattle.ready_list.specs.Ordered.{rows_moved, with_rows};
ghost use Rattle.kernel_tables.specs.Ready.{MayEnter, row_for};
ghost use Rattle.kernel_tables.specs.Threads.{row_at};

use crate::tables::Tables;
use crate::thread_list::ThreadList;
use crate::threads::Threads;
use crate::woken::WokenThreads;
use ready_list::ReadyList;
use rt_base::{CoreNo, Prio, Steps, ThreadNo};
use std::sync::ledger::Ledger;

// A thread has another priority. Where it is new, a ready thread goes to the end.
pub fn rebase(ready: &mut ReadyList, t: ThreadNo, old: Prio, new: Prio)
    requires there { t < ready.old.threads }
    requires level { new < ready.old.levels }
    ensures { ready.new ≡ (if old == new then ready.old else with_rows ready.old (rows_moved ready.old.rows t new)) }
{
    if old.0 != new.0 {
        ready.reprio(t, new);
    }
}

// Threads that have woken go to the end of the ready list, one after the other.
pub fn enter_all(ready: &mut ReadyList, threads: &Threads, woken: &ThreadList)
    requires { MayEnter threads.now ready.old woken.now }
    ensures { ready.new ≡ with_rows ready.old (ready.old.rows ++ map (row_for threads.now) woken.now) }
{
    for i in 0..woken.len() {
        let t = woken.at(i);
        ready.add_tail(t, threads.base(t), threads.core(t));
    }
}

// Threads that have got flags go to the end of the ready list, one after the other.
pub fn enter_given(ready: &mut ReadyList, threads: &Threads, woken: &WokenThreads)
    requires { MayEnter threads.now ready.old (map (λ w. w.0) woken.now) }
    ensures { ready.new ≡ with_rows ready.old (ready.old.rows ++ map (row_for threads.now) (map (λ w. w.0) woken.now)) }
{
    for i in 0..woken.len() {
        let (t, _flags) = woken.at(i);
        ready.add_tail(t, threads.base(t), threads.core(t));
    }
}

impl Tables {
    /// Whether a thread is ready.
    pub fn is_ready(&self, t: ThreadNo) -> bool
        requires { t < length self.now.threads }
        ensures { result ≡ is_among self.now.ready t }
    {
        self.ready.holds(t)
    }

    /// Whether no thread is ready.
    pub fn is_idle(&self) -> bool
        ensures { result ≡ is_empty self.now.ready }
    {
        self.ready.is_empty()
    }

    /// The thread that a core takes next: of the ready threads that are unbound or bound to it, one of the least base
    /// priority, of these a bound one before an unbound one, and then the one that stands first. None exactly where no
    /// ready thread may run there. It reads at most eight words, however many levels and threads there are.
    pub fn pick<L: Ledger>(&self, core: CoreNo, steps: &mut Steps<L>) -> Option<ThreadNo>
        requires { core < self.now.cores }
        ensures thread { result ≡ pick_among (map (row_for self.now.threads) self.now.ready) core }
        ensures there { IfSome result (λ t. (t < length self.now.threads) × (is_among self.now.ready t ≡ true)) }
        ensures cost { steps.new ≤ steps.old + 8 }
    {
        self.ready.pick(core, steps)
    }

    /// The thread is no longer ready, as one that a core takes.
    pub fn leave_ready(&mut self, t: ThreadNo)
        requires { t < length self.old.threads }
        ensures { self.new ≡ record self.old { ready = filter (λ u. not (u == t)) self.old.ready } }
    {
        self.ready.remove(t);
    }

    /// An active thread that isn't ready goes to the end of the ready list, as one whose slice is used up.
    pub fn enter_last(&mut self, t: ThreadNo)
        requires there { t < length self.old.threads }
        requires active { is_active (row_at self.old.threads t).stage ≡ true }
        requires unready { is_among self.old.ready t ≡ false }
        ensures { self.new ≡ record self.old { ready = self.old.ready ++ t ∷ [] } }
    {
        self.ready
            .add_tail(t, self.threads.base(t), self.threads.core(t));
    }

    /// An active thread that isn't ready goes to the front of the ready list, as one that gives way to a more urgent one.
    pub fn enter_first(&mut self, t: ThreadNo)
        requires there { t < length self.old.threads }
        requires active { is_active (row_at self.old.threads t).stage ≡ true }
        requires unready { is_among self.old.ready t ≡ false }
        ensures { self.new ≡ record self.old { ready = t ∷ self.old.ready } }
    {
        self.ready
            .add_head(t, self.threads.base(t), self.threads.core(t));
    }
}
