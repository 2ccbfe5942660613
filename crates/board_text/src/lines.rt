//! One line, judged by the 14 reasons in their order.
ghost use Rattle.std.specs.Prelude.{◌≡◌, ◌≤◌, length, map};
ghost use Rattle.std.specs.List.{list_any};
ghost use Rattle.rt_plain.specs.text.Splits.{is_empty};
ghost use Rattle.rt_plain.specs.text.LineTable.{row};
ghost use Rattle.rt_plain.specs.text.BoardText.{has_count, of_kind, of_words, judged};
ghost use Rattle.board_text.specs.Gives.{Gives};
ghost use Rattle.board_text.specs.Drafts.{so_far};

use crate::draft::Draft;
use crate::fault::Refusal;
use crate::places::{is_limit_passed, is_out_of_order, placed};
use crate::table::{field_count, kind_named, read_said, tail_of};
use crate::tails::is_counted;
use rt_plain::fields::word_at;
use rt_plain::words::{are_printable, behind, behind_indent, is_indented, words_of};
use rt_plain::{BoardLine, Kind, Why};
use std::alloc::Global;

/// Whether there are as many words as the form says.
fn has_count(kind: Kind, words: &[&[u8]]) -> bool
    ensures { result ≡ has_count (row kind) (map (λ w. w.now) words.now) }
{
    let first = 1 + field_count(kind);
    first <= words.len() && is_counted(tail_of(kind), behind(words, first))
}

/// Reasons 5 to 14.
fn of_kind(alloc: Global, draft: &Draft, words: &[&[u8]], kind: Kind) -> Result<BoardLine, Refusal>
    requires low { 2 ≤ draft.now.levels }
    requires high { draft.now.levels ≤ 256 }
    requires clock { 1 ≤ draft.now.lp_h }
    ensures { Gives result (of_kind (so_far draft.now) (map (λ w. w.now) words.now) kind) }
{
    if is_out_of_order(draft, kind)
        || is_limit_passed(draft.limited, tail_of(kind), word_at(words, 1))
    {
        return Err(Refusal::Line(Why::Order));
    }
    if !has_count(kind, words) {
        return Err(Refusal::Line(Why::Words));
    }
    let line = read_said(alloc, kind, words, draft.levels)?;
    match placed(draft, line) {
        Ok(line) => Ok(line),
        Err(why) => Err(Refusal::Line(why)),
    }
}

#[tactic(auto, using(rt_plain::proofs::text::SplitLemmas::any_here, rt_plain::proofs::text::SplitLemmas::any_more, rt_plain::proofs::text::SplitLemmas::any_none))]
fn has_empty(words: &[&[u8]]) -> bool
    ensures { result ≡ list_any is_empty (map (λ w. w.now) words.now) }
{
    for word in words {
        if word.is_empty() {
            return true;
        }
    }
    false
}

/// Reasons 3 to 14.
#[tactic(auto, unfolding(rt_plain::specs::text::BoardText::of_words))]
fn of_words(
    alloc: Global,
    draft: &Draft,
    indented: bool,
    words: &[&[u8]],
) -> Result<BoardLine, Refusal>
    requires low { 2 ≤ draft.now.levels }
    requires high { draft.now.levels ≤ 256 }
    requires clock { 1 ≤ draft.now.lp_h }
    ensures { Gives result (of_words (so_far draft.now) indented (map (λ w. w.now) words.now)) }
{
    if has_empty(words) {
        return Err(Refusal::Line(Why::Space));
    }
    match kind_named(indented, word_at(words, 0)) {
        Some(kind) => of_kind(alloc, draft, words, kind),
        None => Err(Refusal::Line(Why::Kind)),
    }
}

/// What a line says, or the first reason that holds.
#[tactic(auto, unfolding(rt_plain::specs::text::BoardText::judged))]
pub(crate) fn judged(alloc: Global, draft: &Draft, line: &[u8]) -> Result<BoardLine, Refusal>
    requires low { 2 ≤ draft.now.levels }
    requires high { draft.now.levels ≤ 256 }
    requires clock { 1 ≤ draft.now.lp_h }
    ensures { Gives result (judged (so_far draft.now) line.now) }
{
    if draft.rank == 0 && line != b"board 1".as_slice() {
        return Err(Refusal::Line(Why::Head));
    }
    if !are_printable(line) {
        return Err(Refusal::Line(Why::Byte));
    }
    let words = words_of(alloc, behind_indent(line))?;
    of_words(alloc, draft, is_indented(line), &words)
}
