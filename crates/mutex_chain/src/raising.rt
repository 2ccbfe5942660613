ghost use Rattle.std.specs.Prelude.{ℕ, ◌≡◌, ◌+◌, ◌*◌, ◌<◌, ◌≤◌, List, None, true, length};
ghost use Rattle.rt_plain.specs.kernel.State.{is_among};
ghost use Rattle.rt_plain.specs.kernel.Weight.{moment_weight};
ghost use Rattle.rt_plain.specs.kernel.Ownership.{Ownership, changes};
ghost use Rattle.mutex_chain.specs.Graph.{Keeps};
ghost use Rattle.mutex_chain.specs.Owners.{IsSound};
ghost use Rattle.mutex_chain.specs.Raising.{IsRaising, LeadsTo};
ghost use Rattle.mutex_chain.specs.Costs.{chain_sum, step_cost};
ghost use Rattle.mutex_chain.specs.Walks.{curs_of};
ghost use Rattle.mutex_chain.specs.Lines.{lines_of};
ghost use Rattle.mutex_chain.specs.Noting.{AreNotes, HasNotes};

use crate::changes::Changes;
use crate::owners::Owners;
use crate::stored::Stored;
use rt_base::{Steps, ThreadNo};
use std::marker::Brand;
use std::sync::ledger::{Blank, Ledger};

// Carries a number from a thread along its chain of owners, up to the first that is as urgent already, and
// lists those that it made more urgent. It counts four reads for each of these, a call on a wait list among them,
// and one where it stops.
pub fn strengthen<L: Ledger>(
    owners: &Owners,
    curs: &mut Stored,
    from: Option<ThreadNo>,
    number: u16,
    out: &mut Changes,
    steps: &mut Steps<L>,
)
    requires raising { IsRaising owners.now curs.old.numbers.items from number }
    requires sound { IsSound owners.now }
    requires lines { curs.old.lines.items ≡ lines_of owners.now curs.old.numbers.items }
    requires room { length owners.now.members ≤ out.old.threads }
    ensures curs { curs.new.numbers.items ≡ curs_of owners.now }
    ensures places { length curs.new.numbers.items ≡ length owners.now.members }
    ensures lines { curs.new.lines.items ≡ lines_of owners.now curs.new.numbers.items }
    ensures changes { (o : Ownership) → IsSound o → curs.old.numbers.items ≡ curs_of o → Keeps o owners.now →
        out.new ≡ record out.old { changes = changes o owners.now } }
    ensures room { out.new.threads ≡ out.old.threads }
    ensures nobody { from ≡ None → steps.new ≡ steps.old }
    ensures cost { (touched : List ℕ) (u : ℕ) → is_among touched u ≡ true → u < length owners.now.members →
        LeadsTo owners.now u from → steps.new ≤ steps.old + (4 * moment_weight owners.now touched + 1) }
{
    out.clear();
    raise(owners, curs, from, number, out, steps);
    out.settle(owners, &curs.numbers);
}

// The same with notes of the numbers before.
fn raise<L: Ledger>(
    owners: &Owners,
    curs: &mut Stored,
    from: Option<ThreadNo>,
    number: u16,
    out: &mut Changes,
    steps: &mut Steps<L>,
)
    requires raising { IsRaising owners.now curs.old.numbers.items from number }
    requires sound { IsSound owners.now }
    requires lines { curs.old.lines.items ≡ lines_of owners.now curs.old.numbers.items }
    requires room { length owners.now.members ≤ out.old.threads }
    requires notes { HasNotes (length owners.now.members) curs.old.numbers.items out.old.changes }
    ensures curs { curs.new.numbers.items ≡ curs_of owners.now }
    ensures places { length curs.new.numbers.items ≡ length owners.now.members }
    ensures lines { curs.new.lines.items ≡ lines_of owners.now curs.new.numbers.items }
    ensures room { out.new.threads ≡ out.old.threads }
    ensures notes { (olds : List ℕ) → AreNotes olds curs.old.numbers.items out.old.changes →
        AreNotes olds curs.new.numbers.items out.new.changes }
    ensures nobody { from ≡ None → steps.new ≡ steps.old }
    ensures cost { (touched : List ℕ) (u : ℕ) → is_among touched u ≡ true → u < length owners.now.members →
        LeadsTo owners.now u from → steps.new ≤ steps.old + (4 * moment_weight owners.now touched + 1) }
{
    let mut at = from;
    while let Some(thread) = at {
        let place = thread.0 as usize;
        steps.tick();
        let old = curs.numbers[place];
        if old <= number {
            break;
        }
        // The call on the wait list in which the thread stands.
        steps.tick();
        out.note(thread, old);
        curs.set(owners, thread, number);
        at = owners.counted_blocker(thread, steps);
    }
}

// The same without notes, where all that become more urgent have one.
pub fn carry_round<L: Ledger>(
    owners: &Owners,
    curs: &mut Stored,
    from: Option<ThreadNo>,
    number: u16,
    steps: &mut Steps<L>,
)
    requires raising { IsRaising owners.now curs.old.numbers.items from number }
    requires sound { IsSound owners.now }
    requires lines { curs.old.lines.items ≡ lines_of owners.now curs.old.numbers.items }
    ensures curs { curs.new.numbers.items ≡ curs_of owners.now }
    ensures places { length curs.new.numbers.items ≡ length owners.now.members }
    ensures lines { curs.new.lines.items ≡ lines_of owners.now curs.new.numbers.items }
    ensures nobody { from ≡ None → steps.new ≡ steps.old }
    ensures cost { (u : ℕ) → u < length owners.now.members → LeadsTo owners.now u from →
        steps.new ≤ steps.old + (chain_sum (step_cost owners.now) owners.now u + 1) }
{
    let mut at = from;
    while let Some(thread) = at {
        let place = thread.0 as usize;
        steps.tick();
        let old = curs.numbers[place];
        if old <= number {
            break;
        }
        curs.counted_set(owners, thread, number, steps);
        at = owners.counted_blocker(thread, steps);
    }
}

// The same where nothing is counted.
pub fn carry_uncounted(owners: &Owners, curs: &mut Stored, from: Option<ThreadNo>, number: u16)
    requires raising { IsRaising owners.now curs.old.numbers.items from number }
    requires sound { IsSound owners.now }
    requires lines { curs.old.lines.items ≡ lines_of owners.now curs.old.numbers.items }
    ensures curs { curs.new.numbers.items ≡ curs_of owners.now }
    ensures places { length curs.new.numbers.items ≡ length owners.now.members }
    ensures lines { curs.new.lines.items ≡ lines_of owners.now curs.new.numbers.items }
{
    carry_blank::<Brand>(owners, curs, from, number, Blank::new(1));
}

// The same with a counter in a blank ledger.
fn carry_blank<L: Ledger>(
    owners: &Owners,
    curs: &mut Stored,
    from: Option<ThreadNo>,
    number: u16,
    blank: Blank,
)
    requires name { blank.name ≡ L.name }
    requires parts { blank.parts ≡ L.parts }
    requires one { L.parts ≡ 1 }
    requires raising { IsRaising owners.now curs.old.numbers.items from number }
    requires sound { IsSound owners.now }
    requires lines { curs.old.lines.items ≡ lines_of owners.now curs.old.numbers.items }
    ensures curs { curs.new.numbers.items ≡ curs_of owners.now }
    ensures places { length curs.new.numbers.items ≡ length owners.now.members }
    ensures lines { curs.new.lines.items ≡ lines_of owners.now curs.new.numbers.items }
{
    let mut steps: Steps<L> = Steps::new(blank);
    carry_round(owners, curs, from, number, &mut steps);
}
