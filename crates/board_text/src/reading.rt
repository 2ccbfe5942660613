//! Reading a board, line by line.
ghost use Rattle.std.specs.Prelude.{◌≡◌, ◌≤◌, ◌<◌, ◌+◌, ◌∷◌, length, take, drop, OnOk, IfOk, IfErr, IsTrue, not, Ok, Err, Some};
ghost use Rattle.rt_plain.specs.PlainBoard.{PlainBoard};
ghost use Rattle.rt_plain.specs.text.Splits.{lines_of};
ghost use Rattle.rt_plain.specs.text.BoardText.{judged, after, is_skipped, IsBoard, Bad, first_bad, reading};
ghost use Rattle.rt_plain.specs.declared.board_line.BoardLine.{BoardLine as LineSaid};
ghost use Rattle.board_text.specs.Gives.{Fails};
ghost use Rattle.board_text.specs.Drafts.{so_far};
ghost use Rattle.board_text.specs.Steps.{Passes, Stops};
ghost use Rattle.board_text.specs.Faults.{Answers, IsOrMemory, IsCause, longest};

use crate::draft::Draft;
use crate::fault::{BoardFault, Refusal};
use crate::lines::judged;
use rt_plain::{Board, Why};
use std::alloc::Global;

/// The most bytes of a board's text.
pub const LONGEST: usize = 1048576;

fn is_skipped(line: &[u8]) -> bool
    ensures { result ≡ is_skipped line.now }
{
    match line {
        [] => true,
        [b, ..] => *b == b'#',
    }
}

/// Where the first line ends.
#[tactic(auto, using(rt_plain::proofs::text::SplitLemmas::line_at, rt_plain::proofs::text::SplitLemmas::last_line, rt_plain::proofs::text::SplitLemmas::unbroken_more))]
fn line_end(rest: &[u8]) -> usize
    requires { 0 < length rest.now }
    ensures within { result ≤ length rest.now }
    ensures line { lines_of rest.now ≡ take result rest.now ∷ lines_of (drop (result + 1) rest.now) }
{
    for (i, b) in rest.iter().enumerate() {
        if *b == b'\n' {
            return i;
        }
    }
    rest.len()
}

/// What is behind a line that ends there.
fn after_line(rest: &[u8], end: usize) -> &[u8]
    ensures { result.now ≡ drop (end + 1) rest.now }
{
    if end < rest.len() {
        &rest[end + 1..]
    } else {
        b""
    }
}

/// One line that isn't skipped.
fn take_line(alloc: Global, draft: &mut Draft, line: &[u8]) -> Result<(), Refusal>
    requires low { 2 ≤ draft.old.levels }
    requires high { draft.old.levels ≤ 256 }
    requires clock { 1 ≤ draft.old.lp_h }
    ensures ok { OnOk result ((l : LineSaid) × (judged (so_far draft.old) line.now ≡ Ok l) × (so_far draft.new ≡ after (so_far draft.old) l)) }
    ensures err { IfErr result (λ e. Fails e (judged (so_far draft.old) line.now)) }
{
    let said = judged(alloc, draft, line)?;
    draft.add(alloc, said)?;
    Ok(())
}

/// One line.
fn step(alloc: Global, draft: &mut Draft, line: &[u8]) -> Result<(), Refusal>
    requires low { 2 ≤ draft.old.levels }
    requires high { draft.old.levels ≤ 256 }
    requires clock { 1 ≤ draft.old.lp_h }
    ensures ok { OnOk result (Passes (so_far draft.old) line.now (so_far draft.new)) }
    ensures err { IfErr result (λ e. Stops (so_far draft.old) line.now e) }
{
    if is_skipped(line) {
        return Ok(());
    }
    take_line(alloc, draft, line)
}

#[tactic(auto, using(crate::proofs::StepLemmas::next_is, crate::proofs::StepLemmas::stop_is))]
fn read_all(alloc: Global, text: &[u8]) -> Result<Board, BoardFault>
    requires { length text.now ≤ longest }
    ensures { Answers result (reading text.now) }
{
    let mut draft = Draft::new(alloc);
    let mut rest = text;
    let mut no: u32 = 1;
    while !rest.is_empty() {
        let end = line_end(rest);
        match step(alloc, &mut draft, &rest[..end]) {
            Ok(()) => {}
            Err(Refusal::Memory) => return Err(BoardFault::Memory),
            Err(Refusal::Line(why)) => return Err(BoardFault::Line { no, why }),
        }
        rest = after_line(rest, end);
        no += 1;
    }
    if draft.rank == 0 {
        return Err(BoardFault::Line { no, why: Why::Head });
    }
    Ok(draft.finish())
}

#[tactic(auto, using(crate::proofs::StepLemmas::is_found, crate::proofs::StepLemmas::is_every))]
/// The board that a text is, or the first line that breaks the rules of board texts.
///
/// `TooLong` comes exactly where the text has more than `LONGEST` bytes, and tells their number. Else `Line` comes
/// exactly where some line breaks the rules, with the number of the first such line, from 1, and with the first of
/// the reasons that holds for it. Skipped lines count. `Memory` may come at any text that isn't too long.
pub fn parse(alloc: Global, text: &[u8]) -> Result<Board, BoardFault>
    // What comes out is a board of the text.
    ensures found { IfOk result (λ b. (length text.now ≤ longest) × IsBoard text.now b) }
    // A board of the text comes out.
    ensures every { (b : PlainBoard) → length text.now ≤ longest → IsBoard text.now b → IsOrMemory result (Ok b) }
    // Each fault has its cause.
    ensures cause { IfErr result (λ fault. IsCause text.now fault) }
    // A text that is too long is told so, even without memory.
    ensures too_long { longest < length text.now → result ≡ Err (BoardFault.TooLong (length text.now)) }
    // The first bad line is told.
    ensures bad { (bad : Bad) → length text.now ≤ longest → first_bad text.now ≡ Some bad → IsOrMemory result (Err (BoardFault.Line bad.line bad.reason)) }
{
    if text.len() > LONGEST {
        return Err(BoardFault::TooLong { bytes: text.len() });
    }
    read_all(alloc, text)
}
