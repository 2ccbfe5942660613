ghost use Rattle.std.specs.Prelude.{◌≡◌, ◌↔◌, List, Bool, IfOk, IfErr, IsErrOf, IsSome, true, false};
ghost use Rattle.rt_plain.specs.declared.entry.Entry.{Entry};
ghost use Rattle.rt_plain.specs.runs.Runs.{is_over, is_over_in, opened};
ghost use Rattle.rt_plain.specs.runs.Schedules.{scheduled_course};
ghost use Rattle.rt_plain.specs.runs.Ends.{run_of};
ghost use Rattle.kernel_step.specs.Built.{is_built};
ghost use Rattle.core_runner.specs.Limits.{over_by, HasCompleted, MeetsLimit};

use crate::RunFault;
use crate::turns::{Within, drive, know_board};
use kernel_step::{Machine, StartFault};
use rt_base::Steps;
use rt_plain::Board;
use rt_plain::laws::{scheduled_runs_are_complete, scheduled_runs_stop};
use std::alloc::Global;
use std::marker::Brand;
use std::sync::ledger::{Blank, Ledger};

// The machine at the opening of a board.
fn open(alloc: Global, board: Board) -> Result<Machine, RunFault>
    ensures board { IfOk result (λ m. m.board ≡ board) }
    ensures course { IfOk result (λ m. m.course ≡ opened board) }
    ensures built { IfOk result (λ m. is_built board ≡ true) }
    ensures later { IsErrOf result RunFault.Later ↔ (is_built board ≡ false) }
    ensures limit { (over : List Entry → Bool) → IfErr result (MeetsLimit over board) }
{
    match Machine::open(alloc, board) {
        Ok(machine) => Ok(machine),
        Err(StartFault::Later) => Err(RunFault::Later),
        Err(StartFault::Memory) => Err(RunFault::Memory),
    }
}

// The limit that a machine met whose run has stopped: where it met none, the run is complete.
fn limit_met(machine: &Machine, within: Option<Within>) -> Result<(), RunFault>
    requires run { machine.now.course ≡ scheduled_course (over_by within machine.now.board) machine.now.board }
    ensures halted { IfOk result (λ _. IsSome machine.now.course.halt) }
    ensures complete { IfOk result (λ _. HasCompleted (over_by within machine.now.board) machine.now.board machine.now.course) }
    ensures limit { IfErr result (MeetsLimit (over_by within machine.now.board) machine.now.board) }
    ensures known { IsErrOf result RunFault.Later → ⊥ }
{
    know_board(machine.board());
    scheduled_runs_are_complete();
    scheduled_runs_stop();
    if machine.halt().is_some() {
        return Ok(());
    }
    let entries = machine.journal().entries();
    let lines = machine.journal().lines();
    Err(RunFault::Limit { entries, lines })
}

// Makes the run of an opened machine's board.
fn make_run<L: Ledger>(
    machine: &mut Machine,
    within: Option<Within>,
    steps: &mut Steps<L>,
) -> Result<(), RunFault>
    requires opened { machine.old.course ≡ opened machine.old.board }
    ensures board { machine.new.board ≡ machine.old.board }
    ensures run { IfOk result (λ _. machine.new.course ≡ scheduled_course (over_by within machine.old.board) machine.old.board) }
    ensures halted { IfOk result (λ _. IsSome machine.new.course.halt) }
    ensures complete { IfOk result (λ _. HasCompleted (over_by within machine.old.board) machine.old.board machine.new.course) }
    ensures limit { IfErr result (MeetsLimit (over_by within machine.old.board) machine.old.board) }
    ensures known { IsErrOf result RunFault.Later → ⊥ }
{
    drive(machine, within, steps)?;
    limit_met(machine, within)
}

// The run by the board's schedule, counted.
fn run_counted<L: Ledger>(
    alloc: Global,
    board: Board,
    within: Option<Within>,
    steps: &mut Steps<L>,
) -> Result<Machine, RunFault>
    ensures board { IfOk result (λ m. m.board ≡ board) }
    ensures run { IfOk result (λ m. m.course ≡ scheduled_course (over_by within board) board) }
    ensures halted { IfOk result (λ m. IsSome m.course.halt) }
    ensures complete { IfOk result (λ m. HasCompleted (over_by within board) board m.course) }
    ensures built { IfOk result (λ m. is_built board ≡ true) }
    ensures later { IsErrOf result RunFault.Later ↔ (is_built board ≡ false) }
    ensures limit { IfErr result (MeetsLimit (over_by within board) board) }
{
    let mut machine = open(alloc, board)?;
    make_run(&mut machine, within, steps)?;
    Ok(machine)
}

// The same with a counter of its own.
fn run_blank<L: Ledger>(
    alloc: Global,
    board: Board,
    within: Option<Within>,
    blank: Blank,
) -> Result<Machine, RunFault>
    requires name { blank.name ≡ L.name }
    requires parts { blank.parts ≡ L.parts }
    requires some { L.parts ≡ 1 }
    ensures board { IfOk result (λ m. m.board ≡ board) }
    ensures run { IfOk result (λ m. m.course ≡ scheduled_course (over_by within board) board) }
    ensures halted { IfOk result (λ m. IsSome m.course.halt) }
    ensures complete { IfOk result (λ m. HasCompleted (over_by within board) board m.course) }
    ensures built { IfOk result (λ m. is_built board ≡ true) }
    ensures later { IsErrOf result RunFault.Later ↔ (is_built board ≡ false) }
    ensures limit { IfErr result (MeetsLimit (over_by within board) board) }
{
    let mut steps: Steps<L> = Steps::new(blank);
    run_counted(alloc, board, within, &mut steps)
}

/// The machine after the run of a board by its schedule, which has halted and is complete. `Later` comes exactly where
/// the board has something that isn't built yet; `Limit` exactly where the run meets a limit before it halts, with its
/// numbers of entries and lines. A limit is tested before each event.
pub fn run(alloc: Global, board: Board) -> Result<Machine, RunFault>
    ensures board { IfOk result (λ m. m.board ≡ board) }
    ensures run { IfOk result (λ m. m.course ≡ run_of board) }
    ensures halted { IfOk result (λ m. IsSome m.course.halt) }
    ensures complete { IfOk result (λ m. HasCompleted (is_over board) board m.course) }
    ensures built { IfOk result (λ m. is_built board ≡ true) }
    ensures later { IsErrOf result RunFault.Later ↔ (is_built board ≡ false) }
    ensures limit { IfErr result (MeetsLimit (is_over board) board) }
{
    run_blank::<Brand>(alloc, board, None, Blank::new(1))
}

/// The same within further limits: one is also met at `entries` entries, or at more than `lines` lines.
pub fn run_within(
    alloc: Global,
    board: Board,
    entries: u32,
    lines: u32,
) -> Result<Machine, RunFault>
    ensures board { IfOk result (λ m. m.board ≡ board) }
    ensures run { IfOk result (λ m. m.course ≡ scheduled_course (is_over_in entries lines board) board) }
    ensures halted { IfOk result (λ m. IsSome m.course.halt) }
    ensures complete { IfOk result (λ m. HasCompleted (is_over_in entries lines board) board m.course) }
    ensures built { IfOk result (λ m. is_built board ≡ true) }
    ensures later { IsErrOf result RunFault.Later ↔ (is_built board ≡ false) }
    ensures limit { IfErr result (MeetsLimit (is_over_in entries lines board) board) }
{
    run_blank::<Brand>(alloc, board, Some(Within { entries, lines }), Blank::new(1))
}
