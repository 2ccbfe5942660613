ghost use Rattle.std.specs.Prelude.{◌≡◌, ◌↔◌, ◌<◌, ◌≤◌, ◌+◌, ◌≢◌, List, ℕ, [], IfOk, IfErr, OnOk, IsErrOf, length, false, true};
ghost use Rattle.rt_plain.specs.runs.Agreement.{reader as first_place};
ghost use Rattle.rt_plain.specs.runs.Runs.{opened};
ghost use Rattle.kernel_step.specs.Built.{is_built};
ghost use Rattle.core_runner.specs.Replaying.{IsAt};
ghost use Rattle.core_runner.specs.Replays.{IsTraceOf, TellsLine};

use crate::ReplayFault;
use crate::trace_lines::line_end;
use crate::trace_reader::{Next, TraceReader};
use crate::turns::know_board;
use kernel_step::{Machine, StartFault};
use rt_base::Steps;
use rt_plain::laws::{one_pass_finds_the_agreement, one_pass_tells_good_traces};
use rt_plain::{Board, Cut};
use std::alloc::Global;
use std::marker::Brand;
use std::sync::ledger::{Blank, Ledger};

// The machine at the opening of a board.
fn open(alloc: Global, board: Board) -> Result<Machine, ReplayFault>
    ensures board { IfOk result (λ m. m.board ≡ board) }
    ensures course { IfOk result (λ m. m.course ≡ opened board) }
    ensures built { IfOk result (λ m. is_built board ≡ true) }
    ensures later { IsErrOf result ReplayFault.Later ↔ (is_built board ≡ false) }
    ensures line { (text : List ℕ) → IfErr result (TellsLine board text) }
{
    match Machine::open(alloc, board) {
        Ok(machine) => Ok(machine),
        Err(StartFault::Later) => Err(ReplayFault::Later),
        Err(StartFault::Memory) => Err(ReplayFault::Memory),
    }
}

// What comes of an end line: nothing may stand behind it.
fn ended(no: u32, rest: &[u8]) -> Result<(), ReplayFault>
    requires { no < 4294967295 }
    ensures ok { OnOk result (rest.now ≡ []) }
    ensures err { IfErr result (λ fault. (fault ≡ ReplayFault.Line (no + 1)) × (rest.now ≢ [])) }
{
    if rest.is_empty() {
        return Ok(());
    }
    Err(ReplayFault::Line { no: no + 1 })
}

// Reads a trace, line by line.
fn read_trace<L: Ledger>(
    reader: &mut TraceReader,
    alloc: Global,
    trace: &[u8],
    steps: &mut Steps<L>,
) -> Result<(), ReplayFault>
    requires begins { IsAt reader.old.machine.board [] reader.old (first_place reader.old.machine.board) }
    requires few { length trace.now ≤ 268435456 }
    ensures board { reader.new.machine.board ≡ reader.old.machine.board }
    ensures good { OnOk result (IsTraceOf reader.old.machine.board trace.now reader.new.machine.course reader.new.cut) }
    ensures line { IfErr result (TellsLine reader.old.machine.board trace.now) }
    ensures known { IsErrOf result ReplayFault.Later → ⊥ }
{
    know_board(reader.machine.board());
    one_pass_finds_the_agreement();
    one_pass_tells_good_traces();
    let mut rest = trace;
    let mut no: u32 = 1;
    while let Some(end) = line_end(rest) {
        let next = reader.read_line(alloc, &rest[..end], steps)?;
        rest = &rest[end + 1..];
        match next {
            Next::Stop => return Err(ReplayFault::Line { no }),
            Next::End => return ended(no, rest),
            Next::On => no += 1,
        }
    }
    Err(ReplayFault::Line { no })
}

// Replays a trace on a machine at its opening.
fn replay_on<L: Ledger>(
    alloc: Global,
    machine: Machine,
    trace: &[u8],
    steps: &mut Steps<L>,
) -> Result<(Machine, Option<Cut>), ReplayFault>
    requires opened { machine.course ≡ opened machine.board }
    requires few { length trace.now ≤ 268435456 }
    ensures board { IfOk result (λ r. r.0.board ≡ machine.board) }
    ensures good { IfOk result (λ r. IsTraceOf machine.board trace.now r.0.course r.1) }
    ensures line { IfErr result (TellsLine machine.board trace.now) }
    ensures known { IsErrOf result ReplayFault.Later → ⊥ }
{
    let mut reader = TraceReader::new(alloc, machine);
    match read_trace(&mut reader, alloc, trace, steps) {
        Ok(()) => Ok(reader.into_run()),
        Err(fault) => {
            reader.let_go();
            Err(fault)
        }
    }
}

// The same with a counter of its own.
fn replay_blank<L: Ledger>(
    alloc: Global,
    board: Board,
    trace: &[u8],
    blank: Blank,
) -> Result<(Machine, Option<Cut>), ReplayFault>
    requires few { length trace.now ≤ 268435456 }
    requires name { blank.name ≡ L.name }
    requires parts { blank.parts ≡ L.parts }
    requires some { L.parts ≡ 1 }
    ensures board { IfOk result (λ r. r.0.board ≡ board) }
    ensures good { IfOk result (λ r. IsTraceOf board trace.now r.0.course r.1) }
    ensures built { IfOk result (λ r. is_built board ≡ true) }
    ensures later { IsErrOf result ReplayFault.Later ↔ (is_built board ≡ false) }
    ensures line { IfErr result (TellsLine board trace.now) }
{
    let machine = open(alloc, board)?;
    let mut steps: Steps<L> = Steps::new(blank);
    replay_on(alloc, machine, trace, &mut steps)
}

/// Makes the run of a board that a trace tells, in one pass over its lines, and compares each with the line of the run.
/// The trace has at most 268,435,456 bytes. Ok exactly where it is the text of a run of the board within its limits that
/// has halted, with the machine after that run and the cut of the trace's `cut` line, where it has one. `Later` comes
/// exactly where the board has something that isn't built yet; else `Line` exactly where the trace is no such text:
/// one more than the greatest number of its lines that begin the text of a run. What stands behind the last newline is
/// no line. This project's own.
pub fn replay(
    alloc: Global,
    board: Board,
    trace: &[u8],
) -> Result<(Machine, Option<Cut>), ReplayFault>
    requires { length trace.now ≤ 268435456 }
    ensures board { IfOk result (λ r. r.0.board ≡ board) }
    ensures good { IfOk result (λ r. IsTraceOf board trace.now r.0.course r.1) }
    ensures built { IfOk result (λ r. is_built board ≡ true) }
    ensures later { IsErrOf result ReplayFault.Later ↔ (is_built board ≡ false) }
    ensures line { IfErr result (TellsLine board trace.now) }
{
    replay_blank::<Brand>(alloc, board, trace, Blank::new(1))
}
