ghost use Rattle.std.specs.Prelude.{◌≡◌, ◌+◌, ◌<◌, ◌≤◌, ◌++◌, [], ◌∷◌, length, take, drop, slice_get, Some, OnOk, OnErr};
ghost use Rattle.rt_plain.specs.declared.entry.Entry.{Entry};
ghost use Rattle.rt_plain.specs.runs.Runs.{line_count};
ghost use Rattle.rt_plain.specs.text.Texts.{body_text, console_of, entry_text};
ghost use Rattle.rt_plain.specs.text.TraceRows.{CanBeWritten, StandsIn};
ghost use Rattle.journal.specs.Ending.{cut_of};
ghost use Rattle.journal.specs.JournalSeen.{IsEntryAt, lines_of};

use crate::consoles::put_printed;
use crate::header::Header;
use crate::traces::{put_body, put_one};
use rt_base::{Event, List};
use rt_plain::shown::know_event;
use rt_plain::{Cut, Line, Lines};
use std::alloc::{AllocError, Global};
use std::marker::Model;

// The most entries and the most lines of a journal, which are counted in 32 bits.
const MOST: usize = 4_294_967_295;

/// What happened in a run: a list of entries, each an event with its tick and its lines. All lines stand in one
/// list. Room is made before an event (`reserve`), so that `push` takes no memory. It holds at most 4,294,967,295
/// entries and as many lines. This project's own.
#[derive(Drop)]
pub struct Journal {
    headers: Vec<Header>,
    lines: Vec<Line>,
}

impl Model for Journal {
    ghost use Rattle.std.specs.Prelude.{◌≡◌, ◌≤◌, length, vec_len, vec_capacity};
    ghost use Rattle.journal.specs.JournalSeen.{JournalSeen};

    ghost Value = { JournalSeen };

    ghost use Rattle.std.specs.Prelude.{All};
    ghost use Rattle.rt_plain.specs.text.TraceRows.{CanShow};
    ghost use Rattle.journal.specs.Headers.{entries_of, lines_in, StandFrom, CanHead, room_left};

    ghost view = { λ j. record {
      entries = entries_of j.headers.items j.lines.items;
      spare_entries = room_left (vec_capacity j.headers) (vec_len j.headers);
      spare_lines = room_left (vec_capacity j.lines) (vec_len j.lines);
    } };

    ghost invariant = { λ j.
        (lines_in j.headers.items ≡ length j.lines.items)
        × StandFrom 0 j.headers.items
        × (vec_len j.headers ≤ 4294967295)
        × (vec_len j.lines ≤ 4294967295)
        × All CanHead j.headers.items
        × All CanShow j.lines.items };
}

// So many lines from a place on.
fn lines_from(lines: &[Line], first: usize, count: usize) -> &[Line]
    requires { first + count ≤ length lines.now }
    ensures { result.now ≡ take count (drop first lines.now) }
{
    &lines[first..first + count]
}

impl Journal {
    /// No entries, and no room for any. It takes no memory.
    pub fn new(alloc: Global) -> Journal
        ensures { result.entries ≡ [] }
    {
        Journal {
            headers: Vec::new(alloc),
            lines: Vec::new(alloc),
        }
    }

    /// Makes room for this many further entries and lines, and changes nothing else. A refusal is want of memory,
    /// or of numbers beyond the journal's bound; it lowers nothing.
    pub fn reserve(&mut self, entries: usize, lines: usize) -> Result<(), AllocError>
        ensures same { self.new.entries ≡ self.old.entries }
        ensures entries { OnOk result (entries ≤ self.new.spare_entries) }
        ensures lines { OnOk result (lines ≤ self.new.spare_lines) }
        ensures no_fewer_entries { self.old.spare_entries ≤ self.new.spare_entries }
        ensures no_fewer_lines { self.old.spare_lines ≤ self.new.spare_lines }
    {
        if entries > MOST - self.headers.len() {
            return Err(AllocError);
        }
        if lines > MOST - self.lines.len() {
            return Err(AllocError);
        }
        self.headers.reserve(entries)?;
        self.lines.reserve(lines)
    }

    /// For how many further entries and lines there is room.
    pub fn spare(&self) -> (usize, usize)
        ensures entries { result.0 ≡ self.now.spare_entries }
        ensures lines { result.1 ≡ self.now.spare_lines }
    {
        (
            self.headers.capacity().min(MOST) - self.headers.len(),
            self.lines.capacity().min(MOST) - self.lines.len(),
        )
    }

    /// How many entries there are. The type keeps that they can be written.
    #[tactic(auto, using(crate::proofs::HeaderLemmas::counts, crate::proofs::HeaderLemmas::can_be_written))]
    pub fn entries(&self) -> u32
        ensures count { result ≡ length self.now.entries }
        ensures written { CanBeWritten self.now.entries }
    {
        self.headers.len() as u32
    }

    /// How many lines all entries have together.
    #[tactic(auto, using(crate::proofs::HeaderLemmas::counts))]
    pub fn lines(&self) -> u32
        ensures { result ≡ line_count self.now.entries }
    {
        self.lines.len() as u32
    }

    /// Adds an entry with these lines, for which there is room, and empties them. It takes no memory.
    pub fn push(&mut self, event: Event, tick: u32, lines: &mut Lines)
        requires entry { 0 < self.old.spare_entries }
        requires lines { length lines.old.items ≤ self.old.spare_lines }
        ensures entries { self.new.entries ≡ self.old.entries ++ (record { event = event; tick = tick; lines = lines.old.items }) ∷ [] }
        ensures spare_entries { self.old.spare_entries ≤ self.new.spare_entries + 1 }
        ensures spare_lines { self.old.spare_lines ≤ self.new.spare_lines + length lines.old.items }
        ensures empty { lines.new.items ≡ [] }
        ensures room { lines.new.room ≡ lines.old.room }
    {
        know_event(&event);
        let first = self.lines.len() as u32;
        let count = lines.len() as u32;
        lines.move_to(&mut self.lines);
        self.headers.push_reserved(Header {
            event,
            tick,
            first,
            count,
        });
    }

    /// The entry at a place, from 0 on: its event, its tick, the place of its first line, and how many lines it has.
    pub fn entry(&self, at: u32) -> (Event, u32, u32, u32)
        requires { at < length self.now.entries }
        ensures { IsEntryAt self.now.entries at result.0 result.1 result.2 result.3 }
    {
        let header = &self.headers[at as usize];
        (header.event, header.tick, header.first, header.count)
    }

    /// The line at a place among all lines, from 0 on.
    pub fn line(&self, at: u32) -> &Line
        requires { at < line_count self.now.entries }
        ensures { slice_get (lines_of self.now.entries) at ≡ Some result.now }
    {
        &self.lines[at as usize]
    }

    /// Adds the text of the entry at a place, from 0 on, at the end: its header with its number, and its lines. The one
    /// refusal is want of memory.
    pub fn put_entry(&self, at: u32, out: &mut List<u8>) -> Result<(), AllocError>
        requires { at < length self.now.entries }
        ensures { OnOk result ((e : Entry) → slice_get self.now.entries at ≡ Some e → out.new ≡ out.old ++ entry_text (at + 1) e) }
    {
        let (event, tick, first, count) = self.entry(at);
        let lines = lines_from(&self.lines, first as usize, count as usize);
        put_one(out, at as usize + 1, &event, tick, lines)
    }

    // Adds the text of the entries at the end, with the `cut` line where it stands.
    pub(crate) fn put_entries(
        &self,
        out: &mut List<u8>,
        cut: Option<&Cut>,
    ) -> Result<(), AllocError>
        requires { StandsIn self.now.entries (cut_of cut) }
        ensures { OnOk result (out.new ≡ out.old ++ body_text self.now.entries (cut_of cut.entry)) }
    {
        put_body(out, &self.headers, &self.lines, cut)
    }

    // Adds the bytes of the `print` lines at the end.
    pub(crate) fn put_console(&self, out: &mut List<u8>) -> Result<(), AllocError>
        ensures { OnOk result (out.new ≡ out.old ++ console_of self.now.entries) }
    {
        put_printed(out, &self.lines)
    }
}
