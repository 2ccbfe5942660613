ghost use Rattle.std.specs.Prelude.{◌≡◌, ◌+◌, ◌<◌, [], length, drop, MatchOption, IfOk, IsTrue, if◌then◌else◌, Some, None};
ghost use Rattle.rt_base.specs.declared.codes.Event.{Event as Occurrence};
ghost use Rattle.rt_plain.specs.text.Splits.{word_at, words_of};
ghost use Rattle.rt_plain.specs.text.Texts.{with_newline};
ghost use Rattle.rt_plain.specs.text.TraceRows.{whole_lines_of, number_behind};
ghost use Rattle.rt_plain.specs.runs.Agreement.{behind_front, event_named};
ghost use Rattle.core_runner.specs.Parts.{IsLine, event_on};

use rt_base::{CoreNo, Event};
use rt_plain::fields::word_at;
use rt_plain::numbers::number_of;
use rt_plain::words::words_of;
use rt_plain::{Board, Why};
use std::alloc::{AllocError, Global};

/// Where the first line ends, if a newline ends it.
#[tactic(auto, using(rt_plain::proofs::text::TraceLemmas::whole_line_at, rt_plain::proofs::text::TraceLemmas::no_whole_line, rt_plain::proofs::text::SplitLemmas::unbroken_more))]
pub(crate) fn line_end(rest: &[u8]) -> Option<usize>
    ensures { MatchOption result (whole_lines_of rest.now ≡ []) (IsLine rest.now) }
{
    for (i, b) in rest.iter().enumerate() {
        if *b == b'\n' {
            return Some(i);
        }
    }
    None
}

/// Whether the line, with its newline, stands in front of bytes.
pub(crate) fn stands_first(line: &[u8], bytes: &[u8]) -> bool
    ensures front { behind_front (with_newline line.now) bytes.now ≡ (if result then Some (drop (length line.now + 1) bytes.now) else None) }
    ensures fits { IsTrue result → length line.now < length bytes.now }
{
    if line.len() >= bytes.len() {
        return false;
    }
    line == &bytes[..line.len()] && bytes[line.len()] == b'\n'
}

// The step of a core, where the board has it.
fn step_of(core: u8, board: &Board) -> Option<Event>
    ensures { result ≡ event_on board.now (Some (Occurrence.Step core)) }
{
    if core < board.cores {
        Some(Event::Step(CoreNo(core)))
    } else {
        None
    }
}

// The core that a word names behind a `c`.
#[tactic(auto, using(rt_plain::proofs::text::TraceLemmas::behind_byte, rt_plain::proofs::text::TraceLemmas::behind_other))]
fn core_named(word: &[u8]) -> Result<u32, Why>
    ensures { result ≡ number_behind 99 255 word.now }
{
    if word.is_empty() || word[0] != b'c' {
        return Err(Why::Choice);
    }
    number_of(&word[1..], 0, 255)
}

// The event of the board that a word names.
fn event_of_word(word: &[u8], board: &Board) -> Option<Event>
    ensures { result ≡ event_on board.now (event_named word.now) }
{
    if word == b"tick".as_slice() {
        return Some(Event::Tick);
    }
    match core_named(word) {
        Ok(core) => step_of(core as u8, board),
        Err(_) => None,
    }
}

/// The event that the second word of a line names, a tick or a step of one of the board's cores. The one refusal is want
/// of memory.
pub(crate) fn event_of_line(
    alloc: Global,
    line: &[u8],
    board: &Board,
) -> Result<Option<Event>, AllocError>
    ensures { IfOk result (λ event. event ≡ event_on board.now (event_named (word_at (words_of line.now) 1))) }
{
    let words = words_of(alloc, line)?;
    Ok(event_of_word(word_at(&words, 1), board))
}
