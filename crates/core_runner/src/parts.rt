ghost use Rattle.std.specs.Prelude.{◌≡◌, ◌+◌, ◌<◌, ◌≤◌, ◌++◌, [], ◌∷◌, List, ℕ, Some, IfOk, length, take, drop, slice_get, decimal, bytes_eq};
ghost use Rattle.rt_plain.specs.declared.entry.Entry.{Entry};
ghost use Rattle.rt_plain.specs.runs.Runs.{events_of, line_count};
ghost use Rattle.rt_plain.specs.runs.Live.{owner, owner_counts};
ghost use Rattle.rt_plain.specs.text.Texts.{entry_text, with_newline};
ghost use Rattle.rt_plain.specs.text.TraceRows.{Ended, row_text};
ghost use Rattle.journal.specs.JournalSeen.{lines_of};
ghost use Rattle.core_runner.specs.Parts.{SaysCut, SaysEnd, owned_by};

use arrayvec::ArrayVec;
use journal::{Journal, text};
use rt_base::{Event, Halt, List};
use rt_plain::Cut;
use std::alloc::{AllocError, Global};

/// The text of the entry at a place, from 0 on, with its number. The one refusal is want of memory.
pub(crate) fn text_of_entry(
    alloc: Global,
    journal: &Journal,
    place: u32,
) -> Result<List<u8>, AllocError>
    requires { place < length journal.now.entries }
    ensures { IfOk result (λ text. (e : Entry) → slice_get journal.now.entries place ≡ Some e → text ≡ entry_text (place + 1) e) }
{
    let mut out = List::new(alloc);
    journal.put_entry(place, &mut out)?;
    Ok(out)
}

// The bytes in front of the newline at the end.
fn without_newline(text: &[u8]) -> &[u8]
    requires { 0 < length text.now }
    ensures { (line : List ℕ) → text.now ≡ with_newline line → result.now ≡ line }
{
    &text[..text.len() - 1]
}

// The core whose runner makes an event.
fn owner(event: Event) -> u8
    ensures { result ≡ owner event }
{
    match event {
        Event::Step(core) => core.0,
        Event::Tick => 0,
    }
}

// How many of the first entries a core's runner made.
fn count_of(journal: &Journal, entries: u32, core: u8) -> u32
    requires { entries ≤ length journal.now.entries }
    ensures { result ≡ owned_by core (events_of (take entries journal.now.entries)) }
{
    let mut count = 0;
    for i in 0..entries {
        let (event, _, _, _) = journal.entry(i);
        if owner(event) == core {
            count += 1;
        }
    }
    count
}

// How many of the first entries each core's runner made.
fn counts_of(journal: &Journal, entries: u32, cores: u8) -> ArrayVec<u32, 8>
    requires entries { entries ≤ length journal.now.entries }
    requires cores { cores ≤ 8 }
    ensures { result.items ≡ owner_counts cores (events_of (take entries journal.now.entries)) }
{
    let mut counts = ArrayVec::new();
    for core in 0..cores {
        counts.push(count_of(journal, entries, core));
    }
    counts
}

// The cut behind the first entries, where the line is that of it.
fn cut_said(
    alloc: Global,
    line: &[u8],
    journal: &Journal,
    entries: u32,
    cores: u8,
) -> Result<Option<Cut>, AllocError>
    requires entries { entries ≤ length journal.now.entries }
    requires cores { cores ≤ 8 }
    ensures { IfOk result (SaysCut line.now entries (owner_counts cores (events_of (take entries journal.now.entries)))) }
{
    let first = Cut {
        at: 0,
        counts: counts_of(journal, entries, cores),
    };
    let none = Journal::new(alloc);
    let cut_line = text(alloc, &none, Some(&first), None)?;
    if line != without_newline(cut_line.as_slice()) {
        return Ok(None);
    }
    Ok(Some(Cut {
        at: entries,
        counts: first.counts,
    }))
}

/// The cut behind so many entries of a journal, where the line is the `cut` line of it. The one refusal is want of
/// memory.
pub(crate) fn cut_of_line(
    alloc: Global,
    line: &[u8],
    journal: &Journal,
    entries: u32,
    cores: u8,
) -> Result<Option<Cut>, AllocError>
    requires entries { entries ≤ length journal.now.entries }
    requires cores { cores ≤ 8 }
    ensures { IfOk result (SaysCut line.now entries (owner_counts cores (events_of (take entries journal.now.entries)))) }
{
    if line.is_empty() || line[0] != b'c' {
        return Ok(None);
    }
    cut_said(alloc, line, journal, entries, cores)
}

/// Whether the line is the end line of this halt and tick. The one refusal is want of memory.
pub(crate) fn is_end(alloc: Global, line: &[u8], halt: Halt, tick: u32) -> Result<bool, AllocError>
    ensures { IfOk result (λ same. same ≡ bytes_eq line.now (row_text (Ended halt tick))) }
{
    let none = Journal::new(alloc);
    let end = text(alloc, &none, None, Some((halt, tick)))?;
    Ok(line == without_newline(end.as_slice()))
}

/// Whether the line is the end line of any halt at this tick. The one refusal is want of memory.
pub(crate) fn says_end(alloc: Global, line: &[u8], tick: u32) -> Result<bool, AllocError>
    ensures { IfOk result (SaysEnd line.now tick) }
{
    if line.is_empty() || line[0] != b'e' {
        return Ok(false);
    }
    let quiet = is_end(alloc, line, Halt::Quiet, tick)?;
    let until = is_end(alloc, line, Halt::Until, tick)?;
    let standby = is_end(alloc, line, Halt::Standby, tick)?;
    let shutdown = is_end(alloc, line, Halt::Shutdown, tick)?;
    Ok((quiet || until) || (standby || shutdown))
}
