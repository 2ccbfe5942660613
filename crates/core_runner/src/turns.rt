ghost use Rattle.std.specs.Prelude.{◌≡◌, ◌<◌, ◌≤◌, ◌+◌, ◌*◌, ◌^◌, [], None, OnOk, false, length};
ghost use Rattle.rt_plain.specs.kernel.Sound.{IsProper};
ghost use Rattle.rt_plain.specs.runs.Runs.{is_over, opened};
ghost use Rattle.rt_plain.specs.runs.Schedules.{IsDriveable, is_stopped, listed_of, most_turns, moved, scheduled_course};
ghost use Rattle.core_runner.specs.Places.{stands};
ghost use Rattle.core_runner.specs.Limits.{over_by};

use crate::place::Place;
use crate::slept::has_slept;
use kernel_step::Machine;
use rt_base::Steps;
use rt_plain::laws::valid_boards_can_be_run;
use rt_plain::{Board, Schedule};
use std::alloc::AllocError;
use std::sync::ledger::Ledger;

/// Limits of a run beside those of its board: so many entries, or more than so many lines.
#[derive(Clone, Copy, Debug, PartialEq, Eq)]
pub(crate) struct Within {
    pub(crate) entries: u32,
    pub(crate) lines: u32,
}

/// What each board has that runs ask for.
pub(crate) fn know_board(board: &Board)
    ensures driveable { IsDriveable board.now }
    ensures proper { IsProper board.now }
    ensures cores { board.now.cores ≤ 8 }
    ensures some_core { 1 ≤ board.now.cores }
    ensures begins { is_over board.now [] ≡ false }
{
    valid_boards_can_be_run();
    board.is_valid();
}

// Whether the journal meets a limit.
fn is_over(machine: &Machine, within: Option<Within>) -> bool
    ensures { result ≡ over_by within machine.now.board machine.now.course.journal }
{
    let Some(within) = within else {
        return machine.is_over();
    };
    let journal = machine.journal();
    (machine.is_over() || journal.entries() == within.entries) || journal.lines() > within.lines
}

// Whether no further event is made: the machine has halted, or meets a limit.
fn has_stopped(machine: &Machine, within: Option<Within>) -> bool
    ensures { result ≡ is_stopped (over_by within machine.now.board) machine.now.course }
{
    machine.halt().is_some() || is_over(machine, within)
}

// How many events a schedule lists.
fn listed_count(schedule: &Schedule) -> usize
    ensures count { result ≡ length (listed_of schedule.now) }
    ensures few { result < 2 ^ 63 }
{
    match schedule {
        Schedule::Order(events) => events.as_slice().len(),
        Schedule::Round | Schedule::Seed(_) => 0,
    }
}

// A period for each entry that there may be and one more, and the listed events.
fn turns_for(entries: u32, cores: u8, listed: usize) -> u64
    requires { listed < 2 ^ 63 }
    ensures { result ≡ (entries + 1) * (9 * cores + 1) + listed }
{
    (entries as u64 + 1) * (9 * cores as u64 + 1) + listed as u64
}

// No run makes more events, since each period makes an entry, as does each further round under the lock over all cores.
fn most_turns(board: &Board) -> u64
    ensures { result ≡ most_turns board.now (listed_of board.now.schedule) }
{
    turns_for(board.entries, board.cores, listed_count(&board.schedule))
}

// One event of the schedule.
fn turn<L: Ledger>(
    machine: &mut Machine,
    place: &mut Place,
    steps: &mut Steps<L>,
) -> Result<(), AllocError>
    requires live { machine.old.course.halt ≡ None }
    ensures turned { OnOk result (moved machine.old.board machine.old.board.schedule (stands machine.old.board machine.old.course place.old) ≡ stands machine.old.board machine.new.course place.new) }
    ensures board { machine.new.board ≡ machine.old.board }
{
    know_board(machine.board());
    machine.reserve()?;
    let (event, coming) = place.next(machine.board(), machine.is_nested());
    let did = machine.event(event, steps);
    let slept = has_slept(did, machine.journal());
    place.settle(machine.board(), machine.run_mode(), coming, slept);
    Ok(())
}

/// Drives a machine from its opening up to its halt or a limit, by its board's schedule. The one refusal is want of
/// memory.
pub(crate) fn drive<L: Ledger>(
    machine: &mut Machine,
    within: Option<Within>,
    steps: &mut Steps<L>,
) -> Result<(), AllocError>
    requires opened { machine.old.course ≡ opened machine.old.board }
    ensures board { machine.new.board ≡ machine.old.board }
    ensures run { OnOk result (machine.new.course ≡ scheduled_course (over_by within machine.old.board) machine.old.board) }
{
    know_board(machine.board());
    let mut place = Place::opened(machine.board(), machine.run_mode());
    let mut turns = most_turns(machine.board());
    while turns > 0 {
        if has_stopped(machine, within) {
            return Ok(());
        }
        turn(machine, &mut place, steps)?;
        turns -= 1;
    }
    Ok(())
}
