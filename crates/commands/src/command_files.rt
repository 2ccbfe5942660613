ghost use Rattle.std.specs.Prelude.{◌≡◌, ◌+◌, ◌≤◌, List, ℕ, [], ◌∷◌, IfOk, IfErr, length};
ghost use Rattle.rt_plain.specs.runs.Commands.{Command as Asked};
ghost use Rattle.std.specs.Option.{option_map};
ghost use Rattle.commands.specs.Held.{IfAllHeld, IfHeld, IsTraceRead};
ghost use Rattle.commands.specs.Command.{written};
ghost use Rattle.commands.specs.Boards.{IsText};
ghost use Rattle.commands.specs.Asked.{HasFailed, IsBoardFault, IsTraceFault};

use crate::args::{Output, Wanted};
use crate::command_text::{built_board, check_trace, text_of};
use crate::ending::Ending;
use crate::reading::{ReadFault, read_file};
use rt_base::List;
use rt_edge::Files;
use std::alloc::Global;

// The most bytes of a board file.
const BOARD_SIZE: u32 = 1_048_576;

// The most bytes of a trace.
const TRACE_SIZE: u32 = 268_435_456;

// What the file of a board holds.
fn read_board<F: Files>(alloc: Global, name: &str, files: &mut F) -> Result<Vec<u8>, Ending>
    ensures whole { IfOk result (λ text. IfHeld (F.held files.old) name.now (λ bytes. bytes ≡ text.items)) }
    ensures short { IfOk result (λ text. length text.items ≤ 1048576) }
    ensures fault { IfErr result (IsBoardFault (F.held files.old) name.now (F.missing files.old) (F.missing files.new) (F.faults files.old) (F.faults files.new)) }
    ensures taken { F.taken files.new ≤ F.taken files.old + 1048577 }
{
    match read_file(alloc, files, name, BOARD_SIZE) {
        Ok(bytes) => Ok(bytes),
        Err(ReadFault::Missing) => Err(Ending::Missing(Wanted::Board)),
        Err(ReadFault::Failed) => Err(Ending::Unreadable),
        Err(ReadFault::TooLong) => Err(Ending::TooLong),
        Err(ReadFault::Memory) => Err(Ending::Memory),
    }
}

// What the file of a trace holds, none where it is too long.
fn read_trace<F: Files>(alloc: Global, name: &str, files: &mut F) -> Result<Option<Vec<u8>>, Ending>
    ensures whole { IfOk result (λ told. IsTraceRead (F.held files.old) name.now (option_map (λ text. text.items) told)) }
    ensures fault { IfErr result (IsTraceFault (F.held files.old) name.now (F.missing files.old) (F.missing files.new) (F.faults files.old) (F.faults files.new)) }
    ensures missing { F.missing files.old ≤ F.missing files.new }
    ensures faults { F.faults files.old ≤ F.faults files.new }
    ensures held { F.held files.new ≡ F.held files.old }
    ensures taken { F.taken files.new ≤ F.taken files.old + 268435457 }
{
    match read_file(alloc, files, name, TRACE_SIZE) {
        Ok(bytes) => Ok(Some(bytes)),
        Err(ReadFault::TooLong) => Ok(None),
        Err(ReadFault::Missing) => Err(Ending::Missing(Wanted::Trace)),
        Err(ReadFault::Failed) => Err(Ending::Unreadable),
        Err(ReadFault::Memory) => Err(Ending::Memory),
    }
}

/// What is written of the board in a file. An ending comes for its cause alone.
pub(crate) fn text_of_file<F: Files>(
    alloc: Global,
    output: Output,
    file: &str,
    files: &mut F,
) -> Result<List<u8>, Ending>
    ensures text { IfOk result (λ text. IfAllHeld (F.held files.old) (file.now ∷ []) (λ contents. IsText (written output file.now) contents text)) }
    ensures failed { IfErr result (HasFailed (written output file.now) (F.held files.old) (F.missing files.old) (F.missing files.new) (F.faults files.old) (F.faults files.new)) }
    ensures taken { F.taken files.new ≤ F.taken files.old + 1048577 }
{
    let bytes = read_board(alloc, file, files)?;
    text_of(alloc, output, &bytes)
}

/// The trace in a file, where it is that of a run of another file's board that has halted. The trace is read first, and
/// the board is judged first. An ending comes for its cause alone.
pub(crate) fn replay_files<F: Files>(
    alloc: Global,
    trace: &str,
    file: &str,
    files: &mut F,
) -> Result<Vec<u8>, Ending>
    ensures text { IfOk result (λ text. IfAllHeld (F.held files.old) (trace.now ∷ file.now ∷ []) (λ contents. IsText (Asked.Replay trace.now file.now) contents text.items)) }
    ensures failed { IfErr result (HasFailed (Asked.Replay trace.now file.now) (F.held files.old) (F.missing files.old) (F.missing files.new) (F.faults files.old) (F.faults files.new)) }
    ensures taken { F.taken files.new ≤ F.taken files.old + (268435457 + 1048577) }
{
    let told = read_trace(alloc, trace, files)?;
    let bytes = read_board(alloc, file, files)?;
    let board = built_board(alloc, &bytes)?;
    let text = match told {
        Some(text) => text,
        None => return Err(Ending::TraceTooLong),
    };
    check_trace(alloc, board, &text)?;
    Ok(text)
}
