//! The events of a trace, read back from its text.
ghost use Rattle.std.specs.Prelude.{◌≡◌, ◌<◌, ◌+◌, [], ◌∷◌, length, take, drop, map, MatchOption, IfOk};
ghost use Rattle.rt_plain.specs.text.Fields.{result_map};
ghost use Rattle.rt_plain.specs.text.TraceRows.{Counted, are_counts, counts_in, end_in, events_told, halt_in, header_in, moment_of, number_behind, outer_said, row_of_words, told_by, told_of_row, whole_lines_of};

use crate::rows::shown;
use rt_base::{CoreNo, Event, Halt, List};
use rt_plain::Why;
use rt_plain::fields::word_at;
use rt_plain::numbers::number_of;
use rt_plain::words::{are_printable, behind, behind_indent, is_indented, words_of};
use std::alloc::{AllocError, Global};

// A number behind a byte.
#[tactic(auto, using(rt_plain::proofs::text::TraceLemmas::behind_byte, rt_plain::proofs::text::TraceLemmas::behind_other))]
fn number_behind(byte: u8, high: u32, word: &[u8]) -> Result<u32, Why>
    ensures { result ≡ number_behind byte high word.now }
{
    if word.is_empty() || word[0] != byte {
        return Err(Why::Choice);
    }
    number_of(&word[1..], 0, high)
}

fn halt_of(word: &[u8]) -> Result<Halt, Why>
    ensures { result ≡ halt_in word.now }
{
    if word == b"quiet".as_slice() {
        Ok(Halt::Quiet)
    } else if word == b"until".as_slice() {
        Ok(Halt::Until)
    } else if word == b"standby".as_slice() {
        Ok(Halt::Standby)
    } else if word == b"shutdown".as_slice() {
        Ok(Halt::Shutdown)
    } else {
        Err(Why::Choice)
    }
}

// A header's event and tick.
fn moment_of(what: &[u8], moment: &[u8]) -> Result<(Event, u32), Why>
    ensures { result ≡ moment_of what.now moment.now }
{
    if what == b"tick".as_slice() {
        let tick = number_of(moment, 0, 4294967295)?;
        return Ok((Event::Tick, tick));
    }
    let core = number_behind(b'c', 255, what)?;
    let tick = number_behind(b'@', 4294967295, moment)?;
    Ok((Event::Step(CoreNo(core as u8)), tick))
}

fn header_in(words: &[&[u8]]) -> Result<(u32, (Event, u32)), Why>
    ensures { result ≡ header_in (map (λ w. w.now) words.now) }
{
    if words.len() != 3 {
        return Err(Why::Words);
    }
    let number = number_of(word_at(words, 0), 0, 4294967295)?;
    let (event, tick) = moment_of(word_at(words, 1), word_at(words, 2))?;
    Ok((number, (event, tick)))
}

fn end_in(words: &[&[u8]]) -> Result<(Halt, u32), Why>
    ensures { result ≡ end_in (map (λ w. w.now) words.now) }
{
    if words.len() != 3 {
        return Err(Why::Words);
    }
    let halt = halt_of(word_at(words, 1))?;
    let tick = number_behind(b'@', 4294967295, word_at(words, 2))?;
    Ok((halt, tick))
}

// Whether all words are numbers.
fn counts_in(words: &[&[u8]]) -> Result<(), Why>
    ensures { result ≡ are_counts (counts_in (map (λ w. w.now) words.now)) }
{
    for word in words {
        number_of(word, 0, 4294967295)?;
    }
    Ok(())
}

// What a `cut` line tells: nothing, where it has a number for each of 1 to 8 cores.
#[tactic(auto, using(rt_plain::proofs::text::TraceLemmas::cut_no_number, rt_plain::proofs::text::TraceLemmas::cut_with_cores, rt_plain::proofs::text::TraceLemmas::cut_without_cores))]
fn read_cut(words: &[&[u8]]) -> Result<Option<Event>, Why>
    ensures { result ≡ told_of_row (result_map (λ counts. Counted counts) (counts_in (drop 1 (map (λ w. w.now) words.now)))) }
{
    let counts = behind(words, 1);
    counts_in(counts)?;
    if counts.is_empty() || counts.len() > 8 {
        return Err(Why::Words);
    }
    Ok(None)
}

// What a line without an indent tells.
fn read_outer(words: &[&[u8]]) -> Result<Option<Event>, Why>
    ensures { result ≡ told_of_row (outer_said (map (λ w. w.now) words.now)) }
{
    let first = word_at(words, 0);
    if first == b"cut".as_slice() {
        return read_cut(words);
    }
    if first == b"end".as_slice() {
        end_in(words)?;
        return Ok(None);
    }
    let (_, (event, _)) = header_in(words)?;
    Ok(Some(event))
}

// What words tell, behind an indent or not.
fn read_words(indented: bool, words: &[&[u8]]) -> Result<Option<Event>, Why>
    ensures { result ≡ told_of_row (row_of_words indented (map (λ w. w.now) words.now)) }
{
    if indented {
        shown(words)?;
        return Ok(None);
    }
    read_outer(words)
}

// The event of a header, nothing of another line that has a form, and a reason of one that has none.
fn read_event(alloc: Global, line: &[u8]) -> Result<Result<Option<Event>, Why>, AllocError>
    ensures { IfOk result (λ told. told ≡ told_by line.now) }
{
    if !are_printable(line) {
        return Ok(Err(Why::Byte));
    }
    let words = words_of(alloc, behind_indent(line))?;
    Ok(read_words(is_indented(line), &words))
}

// Where the first line ends, if a newline ends it.
#[tactic(auto, using(rt_plain::proofs::text::TraceLemmas::whole_line_at, rt_plain::proofs::text::TraceLemmas::no_whole_line, rt_plain::proofs::text::SplitLemmas::unbroken_more))]
fn line_end(rest: &[u8]) -> Option<usize>
    ensures { MatchOption result (whole_lines_of rest.now ≡ []) (λ i. (i < length rest.now) × (whole_lines_of rest.now ≡ take i rest.now ∷ whole_lines_of (drop (i + 1) rest.now))) }
{
    for (i, b) in rest.iter().enumerate() {
        if *b == b'\n' {
            return Some(i);
        }
    }
    None
}

/// The events of the header lines of a trace's text, in order, up to the first line that has no form of a trace. A
/// number of a line has a form where its type has room for it. What stands behind the last newline is no line. The one
/// refusal is want of memory.
#[tactic(auto, using(rt_plain::proofs::text::TraceLemmas::events_more, rt_plain::proofs::text::TraceLemmas::events_same, rt_plain::proofs::text::TraceLemmas::events_stop, rt_plain::proofs::text::TraceLemmas::events_end))]
pub fn read_events(alloc: Global, text: &[u8]) -> Result<List<Event>, AllocError>
    ensures { IfOk result (λ events. events ≡ events_told text.now) }
{
    let mut events = List::new(alloc);
    let mut rest = text;
    while let Some(end) = line_end(rest) {
        match read_event(alloc, &rest[..end])? {
            Ok(Some(event)) => {
                if events.push(event).is_err() {
                    return Err(AllocError);
                }
            }
            Ok(None) => {}
            Err(_) => return Ok(events),
        }
        rest = &rest[end + 1..];
    }
    Ok(events)
}
