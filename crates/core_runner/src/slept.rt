ghost use Rattle.std.specs.Prelude.{◌≡◌, ◌∷◌, []};
ghost use Rattle.rt_plain.specs.runs.Schedules.{is_sleep};
ghost use Rattle.core_runner.specs.Sleeps.{TellsSleep, TellsSleepOf};

use journal::Journal;
use kernel_step::Did;
use rt_plain::Line;

fn is_sleep(line: &Line) -> bool
    ensures { result ≡ is_sleep (line.now ∷ []) }
{
    match line {
        Line::Sleep(_, _) => true,
        _ => false,
    }
}

// Whether the last entry of a journal is a sleep.
fn ends_in_sleep(journal: &Journal) -> bool
    ensures { TellsSleep journal.now.entries result }
{
    let entries = journal.entries();
    if entries == 0 {
        return false;
    }
    let (_, _, first, count) = journal.entry(entries - 1);
    if count == 0 {
        return false;
    }
    is_sleep(journal.line(first))
}

/// Whether an event that answered so, and left this journal, made a sleep.
pub(crate) fn has_slept(did: Did, journal: &Journal) -> bool
    ensures { TellsSleepOf did journal.now.entries result }
{
    match did {
        Did::Entry => ends_in_sleep(journal),
        Did::Same | Did::Halted(_) => false,
    }
}
