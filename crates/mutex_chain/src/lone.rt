ghost use Rattle.std.specs.Prelude.{ℕ, ◌≡◌, ◌+◌, ◌*◌, ◌<◌, ◌≤◌, List, None, Some, false, length, slice_index, slice_set, IfSome};
ghost use Rattle.rt_plain.specs.kernel.Ownership.{awaited_in, cur_in, first_in, owned_in, owner_in, pass_edit_to};
ghost use Rattle.mutex_chain.specs.Owners.{IsSound, blocker_in, has_thread};
ghost use Rattle.mutex_chain.specs.Lines.{lines_of};
ghost use Rattle.mutex_chain.specs.Ending.{AreBut, pass_cost};
ghost use Rattle.mutex_chain.specs.Noting.{AreNotes, HasSmallNotes};

use crate::changes::Changes;
use crate::owners::Owners;
use crate::renewing::least_number;
use crate::stored::Stored;
use rt_base::{ObjNo, Steps, ThreadNo};
use std::sync::ledger::Ledger;

// Gives a thread that waits on no mutex its number anew, where those of the threads that wait for it are right. It counts
// its number, its row, and four for each of its mutexes.
pub fn renew_lone<L: Ledger>(
    owners: &Owners,
    curs: &mut Stored,
    thread: ThreadNo,
    out: &mut Changes,
    steps: &mut Steps<L>,
)
    requires thread { thread < length owners.now.members }
    requires idle { awaited_in owners.now thread ≡ None }
    requires sound { IsSound owners.now }
    requires places { length curs.old.numbers.items ≡ length owners.now.members }
    requires lines { curs.old.lines.items ≡ lines_of owners.now curs.old.numbers.items }
    requires right { (x : ℕ) → blocker_in owners.now x ≡ Some thread → slice_index curs.old.numbers.items x ≡ cur_in owners.now x }
    requires room { length owners.now.members ≤ out.old.threads }
    requires notes { HasSmallNotes (length owners.now.members) curs.old.numbers.items out.old.changes }
    ensures numbers { curs.new.numbers.items ≡ slice_set curs.old.numbers.items thread (cur_in owners.now thread) }
    ensures lines { curs.new.lines.items ≡ lines_of owners.now curs.new.numbers.items }
    ensures room { out.new.threads ≡ out.old.threads }
    ensures notes { (olds : List ℕ) → AreNotes olds curs.old.numbers.items out.old.changes →
        AreNotes olds curs.new.numbers.items out.new.changes }
    ensures cost { steps.new ≡ steps.old + (2 + 4 * length (owned_in owners.now thread)) }
{
    let place = thread.0 as usize;
    steps.tick();
    let old = curs.numbers[place];
    let number = least_number(owners, curs, thread, steps);
    out.note(thread, old);
    curs.counted_set(owners, thread, number, steps);
}

// A mutex of a thread that is gone passes to this waiter, or to nobody. The waiter gets its number anew, and that of the gone
// thread stays: nobody's number depends on it.
pub fn pass_on<L: Ledger>(
    owners: &mut Owners,
    curs: &mut Stored,
    thread: ThreadNo,
    mutex: ObjNo,
    first: &Option<ThreadNo>,
    out: &mut Changes,
    steps: &mut Steps<L>,
)
    requires thread { thread < length owners.old.members }
    requires gone { has_thread owners.old thread ≡ false }
    requires but { AreBut owners.old curs.old.numbers.items thread }
    requires sound { IsSound owners.old }
    requires lines { curs.old.lines.items ≡ lines_of owners.old curs.old.numbers.items }
    requires mutex { mutex < length owners.old.ceilings }
    requires owner { owner_in owners.old mutex ≡ Some thread }
    requires first { first.now ≡ first_in owners.old mutex }
    requires within { IfSome first.now (λ t. t < length owners.old.members) }
    requires room { length owners.old.members ≤ out.old.threads }
    requires notes { HasSmallNotes (length owners.old.members) curs.old.numbers.items out.old.changes }
    ensures owners { owners.new ≡ pass_edit_to mutex first.now owners.old }
    ensures sound { IsSound owners.new }
    ensures places { length owners.new.members ≡ length owners.old.members }
    ensures mutexes { length owners.new.ceilings ≡ length owners.old.ceilings }
    ensures but { AreBut owners.new curs.new.numbers.items thread }
    ensures lines { curs.new.lines.items ≡ lines_of owners.new curs.new.numbers.items }
    ensures room { out.new.threads ≡ out.old.threads }
    ensures notes { (olds : List ℕ) → AreNotes olds curs.old.numbers.items out.old.changes →
        AreNotes olds curs.new.numbers.items out.new.changes }
    ensures cost { steps.new ≤ steps.old + pass_cost owners.new first.now }
{
    let Some(waiter) = first else {
        owners.free(mutex);
        owners.know_sound();
        return;
    };
    // The call on the wait list, and the waiter's row.
    steps.tick();
    steps.tick();
    curs.leave(owners, *waiter);
    owners.pass(mutex, Some(*waiter));
    owners.know_sound();
    renew_lone(owners, curs, *waiter, out, steps);
}
