ghost use Rattle.std.specs.Prelude.{◌≡◌, ◌+◌, ◌<◌, ◌≤◌, ◌++◌, length, map};
ghost use Rattle.std.specs.List.{AllByRecursion};
ghost use Rattle.mutex_tables.specs.MutexTabled.{plain_state};
ghost use Rattle.mutex_tie.specs.Changes.{change_line};

use mutex_chain::Change;
use mutex_tables::MutexTables;
use rt_plain::{Line, Lines};

// The lines of changed current priorities, in their order.
pub fn tell(tables: &MutexTables, changes: &[Change], out: &mut Lines)
    requires there { AllByRecursion (λ c. c.thread < length tables.now.threads) changes.now }
    requires lines { length out.old.items + length changes.now ≤ out.old.room }
    ensures lines { out.new.items ≡ out.old.items ++ map (change_line (plain_state tables.now)) changes.now }
    ensures out_room { out.new.room ≡ out.old.room }
{
    for change in changes {
        out.push(Line::Cur(tables.name(change.thread), change.old, change.new));
    }
}
