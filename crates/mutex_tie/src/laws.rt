//! Laws of the tie: each is the contract of a function that does nothing.
ghost use Rattle.std.specs.Prelude.{ℕ, ◌≡◌, ◌<◌, ◌≤◌, List, [], ◌∷◌, Option, Some, None, true, false, length, slice_index_or, slice_set};
ghost use Rattle.rt_base.specs.declared.codes.Code.{Code};
ghost use Rattle.rt_base.specs.declared.codes.WaitOrder.{WaitOrder};
ghost use Rattle.rt_plain.specs.declared.line.Line.{Line};
ghost use Rattle.rt_plain.specs.declared.stmt.Call.{Call};
ghost use Rattle.rt_plain.specs.PlainBoard.{PlainBoard};
ghost use Rattle.rt_plain.specs.kernel.State.{State, Thread, InCall, no_thread, thread_at, is_closed};
ghost use Rattle.rt_plain.specs.kernel.Priority.{cur};
ghost use Rattle.rt_plain.specs.kernel.Waiting.{waiters, first_waiter, takes_mutex};
ghost use Rattle.rt_plain.specs.kernel.Effects.{Effect, waiting_state, wake_effect};
ghost use Rattle.rt_plain.specs.kernel.Owners.{with_owner, without_owner, give_back_effect, close_effect};
ghost use Rattle.rt_plain.specs.kernel.Outcome.{By, Outcome, ByThread};
ghost use Rattle.rt_plain.specs.kernel.MutexCalls.{with_mutex, with_hold, mutex_ceiling, mutex_release, mutex_take};
ghost use Rattle.rt_plain.specs.kernel.DeleteCall.{mutex_deletion};
ghost use Rattle.rt_plain.specs.kernel.Statements.{call_effect};
ghost use Rattle.rt_plain.specs.kernel.Calls.{settled_effect};
ghost use Rattle.rt_plain.specs.kernel.Ownership.{Ownership, Taken, base_edit, ceiling_edit, changes, cur_in, first_in, kill_mutex_edit, kill_thread_edit, leave_edit, pass_edit, release_edit, take_edit, taken_of, wait_edit, waiters_in, with_mutex_free, with_mutex_got, with_taken_times};
ghost use Rattle.object_box.specs.Objects.{ClassObjects, IsLeastFree, number_of, removed};
ghost use Rattle.mutex_chain.specs.Graph.{hold_of};
ghost use Rattle.mutex_chain.specs.Owners.{AreOwned};
ghost use Rattle.mutex_tie.specs.Changes.{AreLive, CameFrom, followed_effect, new_curs};
ghost use Rattle.mutex_tie.specs.Tie.{IsGraphOf, StandsFor, graph_of_threads, is_own_or_free, knows_mutex, plain_holding};

/// A thread that hasn't ended has the current priority that the graph has for it.
pub fn current_priorities_are_those_of_the_graph()
    ensures { (s : State) (c : ClassObjects) (o : Ownership) (t : ℕ) → StandsFor s c o →
        t < length s.threads → is_closed (thread_at s t).stage ≡ false → cur s t ≡ cur_in o t }
{}

/// The threads that wait on a mutex stand in the order of the graph.
pub fn waiters_are_those_of_the_graph()
    ensures waiters { (s : State) (c : ClassObjects) (o : Ownership) (name : List ℕ) (i : ℕ) →
        StandsFor s c o → number_of c.objects name ≡ Some i →
        waiters s WaitOrder.Prio (takes_mutex name) ≡ waiters_in o i }
    ensures first { (s : State) (c : ClassObjects) (o : Ownership) (name : List ℕ) (i : ℕ) →
        StandsFor s c o → number_of c.objects name ≡ Some i →
        first_waiter s WaitOrder.Prio (takes_mutex name) ≡ first_in o i }
{}

/// Where there is no mutex and nobody waits for one, the graph is one of threads alone.
pub fn graphs_begin_with_threads_alone()
    ensures { (threads : List Thread) (limit : ℕ) →
        ((t : ℕ) → knows_mutex [] (slice_index_or threads t no_thread).stage ≡ true) →
        IsGraphOf threads (record { limit = limit; objects = [] }) (graph_of_threads threads limit) }
{}

/// What is done with a mutex is an edit of the graph: it is made, gets another ceiling, is got, taken so
/// many times, set free, given back by its owner, released or taken by a thread, or deleted.
pub fn edits_of_mutexes_are_edits_of_the_graph()
    ensures made { (s : State) (c : ClassObjects) (o : Ownership) (name : List ℕ) (i ceiling : ℕ) →
        StandsFor s c o → number_of c.objects name ≡ None → length c.objects < c.limit →
        IsLeastFree c.objects i → i < c.limit →
        StandsFor (record s { mutexes = record { name = name; ceiling = ceiling } ∷ s.mutexes })
        (record c { objects = record { no = i; name = name } ∷ c.objects }) (ceiling_edit i ceiling o) }
    ensures ceiling { (s : State) (c : ClassObjects) (o : Ownership) (name : List ℕ) (i ceiling : ℕ) →
        StandsFor s c o → number_of c.objects name ≡ Some i →
        StandsFor (with_mutex s (record { name = name; ceiling = ceiling })) c (ceiling_edit i ceiling o) }
    ensures got { (s : State) (c : ClassObjects) (o : Ownership) (name : List ℕ) (i t : ℕ) →
        StandsFor s c o → number_of c.objects name ≡ Some i →
        StandsFor (with_owner s name t) c (with_mutex_got i t o) }
    ensures held { (s : State) (c : ClassObjects) (o : Ownership) (i hold : ℕ) (k : Taken) →
        StandsFor s c o → taken_of o i ≡ Some k →
        StandsFor (with_hold s (plain_holding c.objects k) hold) c (with_taken_times i hold o) }
    ensures free { (s : State) (c : ClassObjects) (o : Ownership) (name : List ℕ) (i : ℕ) →
        StandsFor s c o → number_of c.objects name ≡ Some i →
        StandsFor (without_owner s name) c (with_mutex_free i o) }
    ensures given_back { (s : State) (c : ClassObjects) (o : Ownership) (name : List ℕ) (i : ℕ) →
        StandsFor s c o → number_of c.objects name ≡ Some i →
        StandsFor (give_back_effect name s).state c (pass_edit i o) }
    ensures released { (s : State) (c : ClassObjects) (o : Ownership) (name : List ℕ) (i t core : ℕ) →
        StandsFor s c o → number_of c.objects name ≡ Some i →
        StandsFor (mutex_release name s (ByThread t core)).effect.state c (release_edit t i o) }
    ensures taken { (s : State) (c : ClassObjects) (o : Ownership) (name : List ℕ) (i t core : ℕ) (timeout : Option ℕ) →
        StandsFor s c o → number_of c.objects name ≡ Some i → hold_of (taken_of o i) ≤ 255 →
        is_own_or_free t (taken_of o i) ≡ true →
        StandsFor (mutex_take name timeout s (ByThread t core)).effect.state c (take_edit t i o) }
    ensures ceiled { (s : State) (c : ClassObjects) (o : Ownership) (name : List ℕ) (i ceiling : ℕ) (by : By) →
        StandsFor s c o → number_of c.objects name ≡ Some i →
        StandsFor (mutex_ceiling name ceiling s by).effect.state c (ceiling_edit i ceiling o) }
    ensures deleted { (s : State) (c : ClassObjects) (o : Ownership) (name : List ℕ) (i : ℕ) →
        StandsFor s c o → AreOwned o → number_of c.objects name ≡ Some i →
        StandsFor (mutex_deletion name s).effect.state (removed c i) (kill_mutex_edit i o) }
{}

/// What is done with a thread that hasn't ended is an edit of the graph: it waits on a mutex, wakes, gets
/// another base, or ends.
pub fn edits_of_threads_are_edits_of_the_graph()
    ensures waits { (s : State) (c : ClassObjects) (o : Ownership) (name : List ℕ) (i t : ℕ) (timeout due : Option ℕ) →
        StandsFor s c o → number_of c.objects name ≡ Some i → is_closed (thread_at s t).stage ≡ false →
        StandsFor (waiting_state s t (InCall (Call.MutexTake name timeout)) due) c (wait_edit t i s.numbers o) }
    ensures woken { (s : State) (c : ClassObjects) (o : Ownership) (t : ℕ) (code : Code) →
        StandsFor s c o → is_closed (thread_at s t).stage ≡ false →
        StandsFor (wake_effect code t s).state c (leave_edit t o) }
    ensures based { (s after : State) (c : ClassObjects) (o : Ownership) (t prio : ℕ) →
        StandsFor s c o → is_closed (thread_at s t).stage ≡ false →
        after.threads ≡ slice_set s.threads t (record (thread_at s t) { base = prio }) →
        after.mutexes ≡ s.mutexes → after.holdings ≡ s.holdings → StandsFor after c (base_edit t prio o) }
    ensures closed { (s : State) (c : ClassObjects) (o : Ownership) (t : ℕ) →
        StandsFor s c o → StandsFor (close_effect t s).state c (kill_thread_edit t o) }
    ensures unseen { (s after : State) (c : ClassObjects) (o : Ownership) (t : ℕ) (row : Thread) →
        StandsFor s c o → row.base ≡ (thread_at s t).base → row.stage ≡ (thread_at s t).stage →
        after.threads ≡ slice_set s.threads t row →
        after.mutexes ≡ s.mutexes → after.holdings ≡ s.holdings → StandsFor after c o }
{}

/// What follows from an action is by the changes between the graphs before and after it: a line for each, and
/// the moves of those that were ready before and after it. An action that leaves the graph and the votes has
/// nothing that follows. The changes are by the two states alone.
pub fn what_follows_is_by_the_changes()
    ensures settled { (b : PlainBoard) (before : State) (e : Effect) (c d : ClassObjects) (o p : Ownership) →
        StandsFor before c o → StandsFor e.state d p → CameFrom before e.state → AreLive e.state →
        settled_effect b before e ≡ followed_effect b before (changes o p) e }
    ensures quiet { (b : PlainBoard) (before : State) (e : Effect) (c d : ClassObjects) (o : Ownership) →
        StandsFor before c o → StandsFor e.state d o → CameFrom before e.state → AreLive e.state →
        before.votes ≡ e.state.votes → settled_effect b before e ≡ e }
    ensures call { (b : PlainBoard) (s : State) (c d : ClassObjects) (o p : Ownership) (t : ℕ) (line : Option Code → Line) (x : Outcome) →
        StandsFor s c o → StandsFor x.effect.state d p → CameFrom s x.effect.state → AreLive (call_effect t line x).state →
        settled_effect b s (call_effect t line x) ≡ followed_effect b s (changes o p) (call_effect t line x) }
    ensures states { (before after : State) (c d : ClassObjects) (o p : Ownership) →
        StandsFor before c o → StandsFor after d p → CameFrom before after → changes o p ≡ new_curs before after }
{}
