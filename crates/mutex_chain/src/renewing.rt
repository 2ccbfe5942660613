ghost use Rattle.std.specs.Prelude.{ℕ, ◌≡◌, ◌⊎◌, ◌+◌, ◌*◌, ◌<◌, ◌≤◌, List, None, Some, length, slice_index};
ghost use Rattle.rt_plain.specs.kernel.Ownership.{cur_in, member_urgency, owned_in};
ghost use Rattle.rt_plain.specs.kernel.Weight.{weight_of};
ghost use Rattle.mutex_chain.specs.Costs.{chain_sum, renew_cost, step_cost, walk_sum};
ghost use Rattle.mutex_chain.specs.Raising.{LeadsTo};
ghost use Rattle.mutex_chain.specs.Owners.{IsSound, blocker_in};
ghost use Rattle.mutex_chain.specs.Renewing.{AreAside, IsLeast, IsRenewing};
ghost use Rattle.mutex_chain.specs.Walks.{curs_of};
ghost use Rattle.mutex_chain.specs.Lines.{lines_of};
ghost use Rattle.mutex_chain.specs.Noting.{AreNotes, AreSmall, HasNotes, HasSmallNotes};

use crate::changes::Changes;
use crate::owners::Owners;
use crate::raising::carry_round;
use crate::stored::Stored;
use rt_base::{Steps, ThreadNo};
use std::sync::ledger::Ledger;

// What stands for a number at the threads that a walk has met: less urgent than every number.
const MARK: u16 = 257;

// Computes the numbers along a thread's chain of owners anew, where all others are right. A first walk marks
// the chain, round its ring if it ends in one. A second takes the least number of each thread, at which a
// marked waiter doesn't count. So round a ring the last one has the least of all, and a third walk carries
// it on. The numbers before of all marked threads are noted.
pub fn renew_chain<L: Ledger>(
    owners: &Owners,
    curs: &mut Stored,
    from: &Option<ThreadNo>,
    out: &mut Changes,
    steps: &mut Steps<L>,
)
    requires aside { AreAside owners.now curs.old.numbers.items from.now }
    requires sound { IsSound owners.now }
    requires lines { curs.old.lines.items ≡ lines_of owners.now curs.old.numbers.items }
    requires room { length owners.now.members ≤ out.old.threads }
    requires notes { HasSmallNotes (length owners.now.members) curs.old.numbers.items out.old.changes }
    ensures curs { curs.new.numbers.items ≡ curs_of owners.now }
    ensures places { length curs.new.numbers.items ≡ length owners.now.members }
    ensures lines { curs.new.lines.items ≡ lines_of owners.now curs.new.numbers.items }
    ensures room { out.new.threads ≡ out.old.threads }
    ensures notes { (olds : List ℕ) → AreSmall olds → AreNotes olds curs.old.numbers.items out.old.changes →
        AreNotes olds curs.new.numbers.items out.new.changes }
    ensures nobody { from.now ≡ None → steps.new ≡ steps.old }
    ensures cost { (u : ℕ) → u < length owners.now.members → LeadsTo owners.now u from.now →
        steps.new ≤ steps.old + (6 * chain_sum (weight_of owners.now) owners.now u + 2) }
{
    let count = mark_chain(owners, curs, from, out, steps);
    renew_marked(owners, curs, from, count, steps);
}

// Marks the threads along a chain, and notes their numbers before. The answer is how many they are.
fn mark_chain<L: Ledger>(
    owners: &Owners,
    curs: &mut Stored,
    from: &Option<ThreadNo>,
    out: &mut Changes,
    steps: &mut Steps<L>,
) -> u16
    requires aside { AreAside owners.now curs.old.numbers.items from.now }
    requires sound { IsSound owners.now }
    requires lines { curs.old.lines.items ≡ lines_of owners.now curs.old.numbers.items }
    requires room { length owners.now.members ≤ out.old.threads }
    requires notes { HasNotes (length owners.now.members) curs.old.numbers.items out.old.changes }
    ensures renewing { IsRenewing owners.now curs.new.numbers.items result from.now 257 }
    ensures lines { curs.new.lines.items ≡ lines_of owners.now curs.new.numbers.items }
    ensures room { out.new.threads ≡ out.old.threads }
    ensures notes { (olds : List ℕ) → AreNotes olds curs.old.numbers.items out.old.changes →
        AreNotes olds curs.new.numbers.items out.new.changes }
    ensures rest { (t : ℕ) → t < length owners.now.members →
        (slice_index curs.new.numbers.items t ≡ 257) ⊎ (slice_index curs.new.numbers.items t ≡ cur_in owners.now t) }
    ensures nobody { from.now ≡ None → (result ≡ 0) × (steps.new ≡ steps.old) }
    ensures cost { steps.new ≤ steps.old + (walk_sum (step_cost owners.now) owners.now result from.now + 1) }
    ensures once { (f : ℕ → ℕ) (u : ℕ) → u < length owners.now.members → LeadsTo owners.now u from.now →
        walk_sum f owners.now result from.now ≤ chain_sum f owners.now u }
{
    let mut count = 0;
    let mut at = *from;
    while let Some(thread) = at {
        let place = thread.0 as usize;
        steps.tick();
        let old = curs.numbers[place];
        if old == MARK {
            break;
        }
        out.note(thread, old);
        curs.counted_set(owners, thread, MARK, steps);
        count += 1;
        at = owners.counted_blocker(thread, steps);
    }
    count
}

// Gives so many threads along a chain their least numbers, and carries the last one on to who comes next.
fn renew_marked<L: Ledger>(
    owners: &Owners,
    curs: &mut Stored,
    from: &Option<ThreadNo>,
    count: u16,
    steps: &mut Steps<L>,
)
    requires renewing { IsRenewing owners.now curs.old.numbers.items count from.now 257 }
    requires sound { IsSound owners.now }
    requires lines { curs.old.lines.items ≡ lines_of owners.now curs.old.numbers.items }
    ensures curs { curs.new.numbers.items ≡ curs_of owners.now }
    ensures places { length curs.new.numbers.items ≡ length owners.now.members }
    ensures lines { curs.new.lines.items ≡ lines_of owners.now curs.new.numbers.items }
    ensures nobody { from.now ≡ None → steps.new ≡ steps.old }
    ensures cost { (u : ℕ) → u < length owners.now.members → LeadsTo owners.now u from.now →
        steps.new ≤ steps.old + (walk_sum (renew_cost owners.now) owners.now count from.now + (chain_sum (step_cost owners.now) owners.now u + 1)) }
{
    let mut left = count;
    let mut at = *from;
    let mut number = MARK;
    while left > 0 {
        let Some(thread) = at else {
            break;
        };
        left -= 1;
        number = least_number(owners, curs, thread, steps);
        curs.counted_set(owners, thread, number, steps);
        at = owners.counted_blocker(thread, steps);
    }
    carry_round(owners, curs, at, number, steps);
}

// The least of a thread's own urgency and the numbers of those that wait for it, of which the first waiters
// of its mutexes have the least.
pub fn least_number<L: Ledger>(
    owners: &Owners,
    curs: &Stored,
    thread: ThreadNo,
    steps: &mut Steps<L>,
) -> u16
    requires thread { thread < length owners.now.members }
    requires sound { IsSound owners.now }
    requires places { length curs.now.numbers.items ≡ length owners.now.members }
    requires lines { curs.now.lines.items ≡ lines_of owners.now curs.now.numbers.items }
    requires fits { (member_urgency owners.now thread ≤ 255)
        ⊎ ((x : ℕ) → blocker_in owners.now x ≡ Some thread → slice_index curs.now.numbers.items x ≤ 255) }
    ensures least { IsLeast owners.now curs.now.numbers.items thread result }
    ensures count { steps.new ≡ steps.old + (1 + 4 * length (owned_in owners.now thread)) }
{
    let own = owners.urgency(thread, steps);
    curs.least_first(owners, thread, own, steps)
}
