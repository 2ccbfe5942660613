//! Laws of current priorities: each is the contract of a function that does nothing.
ghost use Rattle.std.specs.Prelude.{ℕ, ◌≡◌, ◌≢◌, ◌<◌, ◌≤◌, List, [], ◌∷◌, Some, true, length};
ghost use Rattle.rt_plain.specs.kernel.State.{is_among};
ghost use Rattle.rt_plain.specs.kernel.Priority.{Graph, blocker_of, urgency_of, reach, cur_of};
ghost use Rattle.rt_plain.specs.kernel.Ownership.{Ownership, base_edit, ceiling_edit, cur_in, graph_in, kill_mutex_edit, kill_thread_edit, leave_edit, release_edit, take_edit, wait_edit};
ghost use Rattle.rt_plain.specs.kernel.Weight.{ceiling_touches, end_touches, mutex_end_touches, release_touches};
ghost use Rattle.mutex_chain.specs.Equations.{IsSolution, SameBut, IsAway, IsOnce, Touches};

/// A thread that nobody waits for has its own urgency.
pub fn unreached_threads_have_their_own_urgency()
    ensures { (g : Graph) (t : ℕ) → t < length g.blockers → ((x : ℕ) → blocker_of g x ≢ Some t) →
        cur_of g t ≡ urgency_of g t }
{}

/// The current priorities solve the equations of owners and waiters: each is the least of the thread's
/// own urgency and the current priorities of those that wait for it. No other solution is less urgent
/// anywhere.
pub fn current_priorities_are_the_least_urgent_solution()
    ensures solution { (g : Graph) → IsSolution g (cur_of g) }
    ensures least_urgent { (g : Graph) (f : ℕ → ℕ) → IsSolution g f →
        (t : ℕ) → t < length g.blockers → f t ≤ cur_of g t }
{}

/// Threads that are in the reach of each other, as all those of a cycle are, have one current priority.
pub fn threads_of_a_cycle_have_one_priority()
    ensures { (g : Graph) (t u : ℕ) → t < length g.blockers → u < length g.blockers →
        is_among (reach g t) u ≡ true → is_among (reach g u) t ≡ true → cur_of g t ≡ cur_of g u }
{}

/// Where two graphs differ at some threads alone, a thread that no chain of these leads to has the same
/// current priority in both. A thread that waits for one of these may wait for another one of them, or for
/// nobody.
pub fn current_priorities_change_along_chains()
    ensures { (touched : List ℕ) (g h : Graph) (t : ℕ) → SameBut touched g h → t < length g.blockers →
        IsAway touched g t → IsAway touched h t → cur_of g t ≡ cur_of h t }
{}

/// An edit changes current priorities only along chains of owners from the threads that it touches: the
/// thread that it names, those that it passes a mutex to, the owner of a mutex whose ceiling changes, and
/// the owner and the waiters of a mutex that ends.
pub fn edits_change_priorities_along_chains()
    ensures kept { (touched : List ℕ) (before after : Ownership) (t : ℕ) → Touches touched before after →
        t < length before.members → IsAway touched (graph_in before) t → IsAway touched (graph_in after) t →
        cur_in before t ≡ cur_in after t }
    ensures set_base { (t base : ℕ) (o : Ownership) → Touches (t ∷ []) o (base_edit t base o) }
    ensures take { (t mutex : ℕ) (o : Ownership) → Touches (t ∷ []) o (take_edit t mutex o) }
    ensures wait { (t mutex at : ℕ) (o : Ownership) → Touches (t ∷ []) o (wait_edit t mutex at o) }
    ensures leave { (t : ℕ) (o : Ownership) → Touches (t ∷ []) o (leave_edit t o) }
    ensures release { (t mutex : ℕ) (o : Ownership) → IsOnce o →
        Touches (release_touches o t mutex) o (release_edit t mutex o) }
    ensures set_ceiling { (mutex ceiling : ℕ) (o : Ownership) → IsOnce o →
        Touches (ceiling_touches o mutex) o (ceiling_edit mutex ceiling o) }
    ensures kill_mutex { (mutex : ℕ) (o : Ownership) → IsOnce o →
        Touches (mutex_end_touches o mutex) o (kill_mutex_edit mutex o) }
    ensures kill_thread { (t : ℕ) (o : Ownership) → IsOnce o →
        Touches (end_touches o t) o (kill_thread_edit t o) }
{}
