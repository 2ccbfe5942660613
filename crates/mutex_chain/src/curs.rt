ghost use Rattle.std.specs.Prelude.{ℕ, ◌≡◌, ◌+◌, ◌*◌, ◌<◌, ◌≤◌, None, length};
ghost use Rattle.rt_plain.specs.kernel.Ownership.{Ownership, changes};
ghost use Rattle.rt_plain.specs.kernel.Weight.{weight_of};
ghost use Rattle.mutex_chain.specs.Costs.{chain_sum};
ghost use Rattle.mutex_chain.specs.Graph.{Keeps};
ghost use Rattle.mutex_chain.specs.Owners.{IsSound};
ghost use Rattle.mutex_chain.specs.Lines.{lines_of};
ghost use Rattle.mutex_chain.specs.Raising.{LeadsTo};
ghost use Rattle.mutex_chain.specs.Renewing.{AreAside};
ghost use Rattle.mutex_chain.specs.Walks.{curs_of};

use crate::changes::Changes;
use crate::owners::Owners;
use crate::renewing::renew_chain;
use crate::stored::Stored;
use rt_base::{Steps, ThreadNo};
use std::sync::ledger::Ledger;

// Computes the current priorities along the chain of a thread anew, where all others are right, and lists
// those that are not what they were.
pub fn renew<L: Ledger>(
    owners: &Owners,
    curs: &mut Stored,
    from: Option<ThreadNo>,
    out: &mut Changes,
    steps: &mut Steps<L>,
)
    requires aside { AreAside owners.now curs.old.numbers.items from }
    requires sound { IsSound owners.now }
    requires lines { curs.old.lines.items ≡ lines_of owners.now curs.old.numbers.items }
    requires room { length owners.now.members ≤ out.old.threads }
    ensures curs { curs.new.numbers.items ≡ curs_of owners.now }
    ensures places { length curs.new.numbers.items ≡ length owners.now.members }
    ensures lines { curs.new.lines.items ≡ lines_of owners.now curs.new.numbers.items }
    ensures changes { (o : Ownership) → IsSound o → curs.old.numbers.items ≡ curs_of o → Keeps o owners.now →
        out.new ≡ record out.old { changes = changes o owners.now } }
    ensures nobody { from ≡ None → steps.new ≡ steps.old }
    ensures cost { (u : ℕ) → u < length owners.now.members → LeadsTo owners.now u from →
        steps.new ≤ steps.old + (6 * chain_sum (weight_of owners.now) owners.now u + 2) }
{
    out.clear();
    renew_chain(owners, curs, &from, out, steps);
    out.settle(owners, &curs.numbers);
}
