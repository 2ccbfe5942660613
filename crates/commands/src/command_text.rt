ghost use Rattle.std.specs.Prelude.{◌≡◌, ◌≤◌, List, ℕ, [], ◌∷◌, IfOk, IfErr, OnOk, None, length, true};
ghost use Rattle.rt_plain.specs.runs.Commands.{run_text, console_text};
ghost use Rattle.rt_plain.specs.runs.Ends.{end_of};
ghost use Rattle.rt_plain.specs.runs.Replays.{IsGood};
ghost use Rattle.rt_plain.specs.text.Texts.{trace_text, console_of};
ghost use Rattle.kernel_step.specs.Built.{is_built};
ghost use Rattle.journal.specs.Ending.{ending};
ghost use Rattle.commands.specs.Command.{written};
ghost use Rattle.commands.specs.Boards.{IsBoardFile, IsBuiltFile, HasRun, IsRunText, IsShown, IsText, IsCauseOf, IsNoBoard, IsNoRun, IsUnready, IsUnlikeOf};

use crate::args::Output;
use crate::ending::Ending;
use board_show::show;
use board_text::{BoardFault, parse};
use core_runner::{ReplayFault, RunFault, replay, run};
use journal::{console, text};
use kernel_step::{Machine, is_built};
use rt_base::{Halt, List};
use rt_plain::Board;
use std::alloc::{AllocError, Global};

// How the run ended, if it has halted, and the tick that was shown then.
fn end_of(machine: &Machine) -> Option<(Halt, u32)>
    ensures { ending result ≡ end_of machine.now.board machine.now.course }
{
    match machine.halt() {
        Some(halt) => Some((halt, machine.tick())),
        None => None,
    }
}

// The board that the bytes spell.
fn board_of(alloc: Global, bytes: &[u8]) -> Result<Board, Ending>
    requires { length bytes.now ≤ 1048576 }
    ensures board { IfOk result (IsBoardFile bytes.now) }
    ensures cause { IfErr result (IsNoBoard bytes.now) }
{
    match parse(alloc, bytes) {
        Ok(board) => Ok(board),
        Err(BoardFault::Line { no, why }) => Err(Ending::BadLine { no, why }),
        Err(BoardFault::Memory) => Err(Ending::Memory),
        Err(BoardFault::TooLong { .. }) => unreachable!(),
    }
}

// The machine after the run of the board that the bytes spell.
fn run_board(alloc: Global, bytes: &[u8]) -> Result<Machine, Ending>
    requires { length bytes.now ≤ 1048576 }
    ensures run { IfOk result (λ machine. HasRun bytes.now machine.board machine.course) }
    ensures cause { IfErr result (IsNoRun bytes.now) }
{
    let board = board_of(alloc, bytes)?;
    match run(alloc, board) {
        Ok(machine) => Ok(machine),
        Err(RunFault::Later) => Err(Ending::NotBuilt),
        Err(RunFault::Limit { entries, lines }) => Err(Ending::Limited { entries, lines }),
        Err(RunFault::Memory) => Err(Ending::Memory),
    }
}

// The trace of the run that a machine has made.
fn trace_of(alloc: Global, machine: &Machine) -> Result<List<u8>, AllocError>
    ensures { IfOk result (λ text. text ≡ trace_text machine.now.course.journal None (end_of machine.now.board machine.now.course)) }
{
    text(alloc, machine.journal(), None, end_of(machine))
}

// The trace of the run of the board that the bytes spell.
fn trace_board(alloc: Global, bytes: &[u8]) -> Result<List<u8>, Ending>
    requires { length bytes.now ≤ 1048576 }
    ensures text { IfOk result (IsRunText run_text bytes.now) }
    ensures cause { IfErr result (IsNoRun bytes.now) }
{
    let machine = run_board(alloc, bytes)?;
    let text = trace_of(alloc, &machine);
    machine.let_go();
    match text {
        Ok(text) => Ok(text),
        Err(AllocError) => Err(Ending::Memory),
    }
}

// What a machine's threads have printed.
fn console_of(alloc: Global, machine: &Machine) -> Result<List<u8>, AllocError>
    ensures { IfOk result (λ text. text ≡ console_of machine.now.course.journal) }
{
    console(alloc, machine.journal())
}

// The console of the run of the board that the bytes spell.
fn print_board(alloc: Global, bytes: &[u8]) -> Result<List<u8>, Ending>
    requires { length bytes.now ≤ 1048576 }
    ensures text { IfOk result (IsRunText console_text bytes.now) }
    ensures cause { IfErr result (IsNoRun bytes.now) }
{
    let machine = run_board(alloc, bytes)?;
    let text = console_of(alloc, &machine);
    machine.let_go();
    match text {
        Ok(text) => Ok(text),
        Err(AllocError) => Err(Ending::Memory),
    }
}

// The canonical text of the board that the bytes spell.
fn show_board(alloc: Global, bytes: &[u8]) -> Result<List<u8>, Ending>
    requires { length bytes.now ≤ 1048576 }
    ensures text { IfOk result (IsShown bytes.now) }
    ensures cause { IfErr result (IsNoBoard bytes.now) }
{
    let board = board_of(alloc, bytes)?;
    match show(alloc, &board) {
        Ok(text) => Ok(text),
        Err(AllocError) => Err(Ending::Memory),
    }
}

/// The board that the bytes spell, of which the machine can make a run.
pub(crate) fn built_board(alloc: Global, bytes: &[u8]) -> Result<Board, Ending>
    requires { length bytes.now ≤ 1048576 }
    ensures board { IfOk result (IsBuiltFile bytes.now) }
    ensures cause { IfErr result (IsUnready bytes.now) }
{
    let board = board_of(alloc, bytes)?;
    if !is_built(&board) {
        return Err(Ending::NotBuilt);
    }
    Ok(board)
}

/// Makes the run of a board that a trace tells. `TraceLine` comes exactly where it is no trace of a run that has halted.
pub(crate) fn check_trace(alloc: Global, board: Board, trace: &[u8]) -> Result<(), Ending>
    requires built { is_built board ≡ true }
    requires few { length trace.now ≤ 268435456 }
    ensures good { OnOk result (IsGood board trace.now) }
    ensures cause { IfErr result (IsUnlikeOf board trace.now) }
{
    match replay(alloc, board, trace) {
        Ok((machine, _)) => {
            machine.let_go();
            Ok(())
        }
        Err(ReplayFault::Later) => Err(Ending::NotBuilt),
        Err(ReplayFault::Line { no }) => Err(Ending::TraceLine { no }),
        Err(ReplayFault::Memory) => Err(Ending::Memory),
    }
}

/// What is written of the board that the bytes of its file spell. Each refusal but `Memory` comes for its cause alone:
/// `BadLine` where a line breaks the rules of boards, and of an output that makes a run, `NotBuilt` where the board has
/// what isn't built yet, and `Limited` where its run meets a limit before it halts.
pub(crate) fn text_of(alloc: Global, output: Output, bytes: &[u8]) -> Result<List<u8>, Ending>
    requires { length bytes.now ≤ 1048576 }
    ensures text { (file : List ℕ) → IfOk result (IsText (written output file) (bytes.now ∷ [])) }
    ensures cause { (file : List ℕ) → IfErr result (IsCauseOf (written output file) (bytes.now ∷ [])) }
{
    match output {
        Output::Trace => trace_board(alloc, bytes),
        Output::Console => print_board(alloc, bytes),
        Output::Board => show_board(alloc, bytes),
    }
}
