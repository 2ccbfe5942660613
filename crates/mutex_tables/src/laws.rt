//! Laws of the tables: each is the contract of a function that does nothing.
ghost use Rattle.std.specs.Prelude.{ℕ, ◌≡◌};
ghost use Rattle.rt_plain.specs.PlainBoard.{PlainBoard};
ghost use Rattle.rt_plain.specs.kernel.Calls.{settled_effect};
ghost use Rattle.rt_plain.specs.kernel.Effects.{Effect};
ghost use Rattle.rt_plain.specs.kernel.Owners.{close_effect};
ghost use Rattle.rt_plain.specs.kernel.State.{State};
ghost use Rattle.mutex_tie.specs.Changes.{AreLive, new_curs};
ghost use Rattle.mutex_tables.specs.MutexTabled.{MutexTabled, plain_state};
ghost use Rattle.mutex_tables.specs.Moved.{AreOnce, MovesOne, settled_by};
ghost use Rattle.mutex_tables.specs.Passed.{ended_by, passed_at_end};

/// Where no ready thread has ended, each is ready once, and at most one of those whose current priority changed was ready
/// before, what follows from an action is as the tables have it.
pub fn what_follows_is_as_the_tables_have_it()
    ensures { (b : PlainBoard) (before : State) (e : Effect) → AreLive e.state → AreOnce e.state.ready →
        MovesOne before.ready (new_curs before e.state) →
        settled_effect b before e ≡ settled_by b before (new_curs before e.state) e }
{}

/// What the end of a thread does to a state, and whom its mutexes pass to, is by its tables alone: its line comes first,
/// then each mutex has its line, and after it who got it wakes, without an armed row.
pub fn the_end_of_a_thread_is_as_the_tables_have_it()
    ensures { (s : State) (v : MutexTabled) (t : ℕ) → s.threads ≡ v.threads → s.mutexes ≡ v.mutexes →
        s.holdings ≡ v.holdings → s.ready ≡ v.ready →
        close_effect t s ≡ ended_by s t (close_effect t (plain_state v)).state (passed_at_end t (plain_state v)) }
{}
