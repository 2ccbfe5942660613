ghost use Rattle.std.specs.Prelude.{ℕ, ◌≡◌, ◌+◌, ◌*◌, ◌<◌, ◌≤◌, List, [], Some, false, length, map, All, IfSome};
ghost use Rattle.std.specs.List.{filter_map};
ghost use Rattle.rt_plain.specs.kernel.Ownership.{first_in, kill_thread_edit, leave_edit, leave_edits, owned_in, owner_in, pass_edit_to, pass_edits, passes_from, passes_of, waiters_in};
ghost use Rattle.mutex_chain.specs.Graph.{pair_of};
ghost use Rattle.mutex_chain.specs.Lines.{lines_of};
ghost use Rattle.susp_list.specs.Rows.{line};
ghost use Rattle.rt_plain.specs.kernel.Weight.{edit_size, end_touches, weight_of};
ghost use Rattle.mutex_chain.specs.Ending.{AreBut, passed_sum};
ghost use Rattle.mutex_chain.specs.Costs.{chain_sum, first_weight};
ghost use Rattle.mutex_chain.specs.Owners.{IsSound, blocker_in, has_thread};
ghost use Rattle.mutex_chain.specs.Renewing.{AreAside};
ghost use Rattle.mutex_chain.specs.Walks.{curs_of};
ghost use Rattle.mutex_chain.specs.Noting.{AreNotes, AreSmall, HasSmallNotes};

use crate::changes::Changes;
use crate::lone::{pass_on, renew_lone};
use crate::owners::Owners;
use crate::passes::Passes;
use crate::renewing::renew_chain;
use crate::stored::Stored;
use crate::woken::Woken;
use rt_base::{ObjNo, Steps, ThreadNo};
use std::sync::ledger::Ledger;
use susp_list::SuspList;

// Lists the waiters of a mutex in their order, as its wait list has them. It counts two calls, and one for each waiter.
pub fn list_waiters<L: Ledger>(
    owners: &Owners,
    curs: &Stored,
    mutex: ObjNo,
    woken: &mut Woken,
    steps: &mut Steps<L>,
)
    requires mutex { mutex < length owners.now.ceilings }
    requires curs { curs.now.numbers.items ≡ curs_of owners.now }
    requires lines { curs.now.lines.items ≡ lines_of owners.now curs.now.numbers.items }
    requires room { length owners.now.members ≤ woken.old.threads }
    ensures waiters { woken.new ≡ record woken.old { woken = waiters_in owners.now mutex } }
    ensures within { All (λ t. t < length owners.now.members) woken.new.woken }
    ensures count { steps.new ≤ steps.old + (length (waiters_in owners.now mutex) + 2) }
{
    owners.know_sound();
    woken.clear();
    list_line(&curs.lines[mutex.0 as usize], woken, steps);
}

// Lists the threads of a wait list in their order.
fn list_line<L: Ledger>(list: &SuspList, woken: &mut Woken, steps: &mut Steps<L>)
    requires none { woken.old.woken ≡ [] }
    requires room { length list.now.rows ≤ woken.old.threads }
    ensures woken { woken.new ≡ record woken.old { woken = line list.now } }
    ensures count { steps.new ≤ steps.old + (length (line list.now) + 2) }
{
    steps.tick();
    let mut next = list.first();
    steps.tick();
    for _ in 0..list.len() {
        let Some(thread) = next else {
            return;
        };
        woken.push(thread);
        steps.tick();
        next = list.after(thread);
    }
}

// Lets all these threads wait no more. It counts two for each: its row, and the call on its wait list.
pub fn leave_all<L: Ledger>(
    owners: &mut Owners,
    curs: &mut Stored,
    threads: &[ThreadNo],
    steps: &mut Steps<L>,
)
    requires within { All (λ t. t < length owners.old.members) threads.now }
    requires lines { curs.old.lines.items ≡ lines_of owners.old curs.old.numbers.items }
    ensures edits { owners.new ≡ leave_edits threads.now owners.old }
    ensures places { length owners.new.members ≡ length owners.old.members }
    ensures mutexes { owners.new.ceilings ≡ owners.old.ceilings }
    ensures numbers { curs.new.numbers.items ≡ curs.old.numbers.items }
    ensures lines { curs.new.lines.items ≡ lines_of owners.new curs.new.numbers.items }
    ensures count { steps.new ≡ steps.old + 2 * length threads.now }
{
    for i in 0..threads.len() {
        steps.tick();
        steps.tick();
        curs.leave(owners, threads[i]);
        owners.set_wait(threads[i], None);
    }
}

// A thread waits no more. The answer is whom it waited for: the numbers are right but along the chain of that one. It counts
// the two rows and the call on the wait list.
pub fn end_wait<L: Ledger>(
    owners: &mut Owners,
    curs: &mut Stored,
    thread: ThreadNo,
    steps: &mut Steps<L>,
) -> Option<ThreadNo>
    requires thread { thread < length owners.old.members }
    requires lines { curs.old.lines.items ≡ lines_of owners.old curs.old.numbers.items }
    ensures answer { result ≡ blocker_in owners.old thread }
    ensures count { steps.new ≤ steps.old + 3 }
    ensures owners { owners.new ≡ leave_edit thread owners.old }
    ensures sound { IsSound owners.new }
    ensures places { length owners.new.members ≡ length owners.old.members }
    ensures mutexes { length owners.new.ceilings ≡ length owners.old.ceilings }
    ensures aside { (numbers : List ℕ) → numbers ≡ curs_of owners.old → AreAside owners.new numbers result }
    ensures numbers { curs.new.numbers.items ≡ curs.old.numbers.items }
    ensures lines { curs.new.lines.items ≡ lines_of owners.new curs.new.numbers.items }
{
    owners.know_sound();
    let owner = owners.counted_blocker(thread, steps);
    // The call on the wait list.
    steps.tick();
    curs.leave(owners, thread);
    owners.set_wait(thread, None);
    owners.know_sound();
    owner
}

// A mutex passes from its owner to this waiter, or to nobody. The chain of the owner is computed anew, and then
// the number of the waiter.
pub fn hand_on<L: Ledger>(
    owners: &mut Owners,
    curs: &mut Stored,
    thread: ThreadNo,
    mutex: ObjNo,
    first: &Option<ThreadNo>,
    out: &mut Changes,
    steps: &mut Steps<L>,
)
    requires notes { HasSmallNotes (length owners.old.members) curs.old.numbers.items out.old.changes }
    requires curs { curs.old.numbers.items ≡ curs_of owners.old }
    requires lines { curs.old.lines.items ≡ lines_of owners.old curs.old.numbers.items }
    requires mutex { mutex < length owners.old.ceilings }
    requires owner { owner_in owners.old mutex ≡ Some thread }
    requires first { first.now ≡ first_in owners.old mutex }
    requires within { IfSome first.now (λ t. t < length owners.old.members) }
    requires room { length owners.old.members ≤ out.old.threads }
    ensures owners { owners.new ≡ pass_edit_to mutex first.now owners.old }
    ensures sound { IsSound owners.new }
    ensures places { length owners.new.members ≡ length owners.old.members }
    ensures mutexes { length owners.new.ceilings ≡ length owners.old.ceilings }
    ensures curs { curs.new.numbers.items ≡ curs_of owners.new }
    ensures lines { curs.new.lines.items ≡ lines_of owners.new curs.new.numbers.items }
    ensures numbers { length curs.new.numbers.items ≡ length owners.new.members }
    ensures room { out.new.threads ≡ out.old.threads }
    ensures notes { (olds : List ℕ) → AreSmall olds → AreNotes olds curs.old.numbers.items out.old.changes →
        AreNotes olds curs.new.numbers.items out.new.changes }
    ensures cost { thread < length owners.old.members →
        steps.new ≤ steps.old + (6 * chain_sum (weight_of owners.old) owners.old thread + 6 * first_weight owners.new first.now + 7) }
{
    owners.know_sound();
    steps.tick();
    owners.free(mutex);
    owners.know_sound();
    renew_chain(owners, curs, &Some(thread), out, steps);
    if let Some(waiter) = first {
        // The call on the wait list, and the waiter's row.
        steps.tick();
        steps.tick();
        curs.leave(owners, *waiter);
        owners.pass(mutex, Some(*waiter));
        owners.know_sound();
        renew_chain(owners, curs, &Some(*waiter), out, steps);
    }
}

// A thread ends: it waits no more, and gives back its mutexes.
pub fn end_thread<L: Ledger>(
    owners: &mut Owners,
    curs: &mut Stored,
    thread: ThreadNo,
    passes: &mut Passes,
    out: &mut Changes,
    steps: &mut Steps<L>,
)
    requires notes { HasSmallNotes (length owners.old.members) curs.old.numbers.items out.old.changes }
    requires thread { thread < length owners.old.members }
    requires curs { curs.old.numbers.items ≡ curs_of owners.old }
    requires lines { curs.old.lines.items ≡ lines_of owners.old curs.old.numbers.items }
    requires room { length owners.old.members ≤ passes.old.threads }
    requires changes { length owners.old.members ≤ out.old.threads }
    ensures owners { owners.new ≡ kill_thread_edit thread owners.old }
    ensures sound { IsSound owners.new }
    ensures places { length owners.new.members ≡ length owners.old.members }
    ensures mutexes { length owners.new.ceilings ≡ length owners.old.ceilings }
    ensures curs { curs.new.numbers.items ≡ curs_of owners.new }
    ensures lines { curs.new.lines.items ≡ lines_of owners.new curs.new.numbers.items }
    ensures numbers { length curs.new.numbers.items ≡ length owners.new.members }
    ensures room { out.new.threads ≡ out.old.threads }
    ensures notes { (olds : List ℕ) → AreSmall olds → AreNotes olds curs.old.numbers.items out.old.changes →
        AreNotes olds curs.new.numbers.items out.new.changes }
    ensures passes { passes.new ≡ record passes.old { passes = map pair_of (passes_of thread owners.old) } }
    ensures cost { steps.new + 1 ≤ steps.old + 8 * edit_size owners.old owners.new (end_touches owners.old thread) }
{
    owners.know_sound();
    let owner = end_wait(owners, curs, thread, steps);
    renew_chain(owners, curs, &owner, out, steps);
    owners.set_member(thread, None);
    owners.know_sound();
    give_back(owners, curs, thread, passes, out, steps);
}

// Gives back the mutexes of a thread that is gone, the last got first, each to who is the first waiter then. The number of
// the gone thread is made right at the end.
fn give_back<L: Ledger>(
    owners: &mut Owners,
    curs: &mut Stored,
    thread: ThreadNo,
    passes: &mut Passes,
    out: &mut Changes,
    steps: &mut Steps<L>,
)
    requires notes { HasSmallNotes (length owners.old.members) curs.old.numbers.items out.old.changes }
    requires thread { thread < length owners.old.members }
    requires gone { has_thread owners.old thread ≡ false }
    requires but { AreBut owners.old curs.old.numbers.items thread }
    requires lines { curs.old.lines.items ≡ lines_of owners.old curs.old.numbers.items }
    requires sound { IsSound owners.old }
    requires room { length owners.old.members ≤ passes.old.threads }
    requires changes { length owners.old.members ≤ out.old.threads }
    ensures owners { owners.new ≡ pass_edits (owned_in owners.old thread) owners.old }
    ensures sound { IsSound owners.new }
    ensures places { length owners.new.members ≡ length owners.old.members }
    ensures mutexes { length owners.new.ceilings ≡ length owners.old.ceilings }
    ensures curs { curs.new.numbers.items ≡ curs_of owners.new }
    ensures lines { curs.new.lines.items ≡ lines_of owners.new curs.new.numbers.items }
    ensures room { out.new.threads ≡ out.old.threads }
    ensures notes { (olds : List ℕ) → AreNotes olds curs.old.numbers.items out.old.changes →
        AreNotes olds curs.new.numbers.items out.new.changes }
    ensures passes { passes.new ≡ record passes.old {
      passes =
          map pair_of (filter_map (λ p. p) (passes_from (owned_in owners.old thread) owners.old));
    } }
    ensures cost { steps.new ≤ steps.old + (2 * length (owned_in owners.old thread) + 4 * passed_sum owners.new passes.new.passes + 2) }
{
    passes.clear();
    while let Some(mutex) = owners.first_owned(thread) {
        // The row of the mutex, and the call on its wait list.
        steps.tick();
        steps.tick();
        let first = curs.first(owners, mutex);
        passes.push(mutex, &first);
        pass_on(owners, curs, thread, mutex, &first, out, steps);
    }
    renew_lone(owners, curs, thread, out, steps);
}
