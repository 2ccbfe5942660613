ghost use Rattle.std.specs.Prelude.{◌≡◌, ◌+◌, ◌^◌, ◌≤◌, ◌<◌, ◌++◌, ◌∷◌, [], length, take, flat_map, decimal, Some, IfOk, OnOk};
ghost use Rattle.rt_plain.specs.text.Words.{halt_text};
ghost use Rattle.rt_plain.specs.text.Texts.{header, with_newline, cut_text, body_text, end_text, entry_text, entries_text, trace_text};
ghost use Rattle.rt_plain.specs.text.TraceRows.{StandsIn};
ghost use Rattle.journal.specs.Headers.{entries_of, lines_in, StandFrom};
ghost use Rattle.journal.specs.Ending.{cut_of, ending};
ghost use Rattle.journal.specs.Signs.{event_sign};

use crate::Journal;
use crate::backward::Backward;
use crate::header::Header;
use crate::writing::{put, put_lines, put_number};
use rt_base::{Event, Halt, List};
use rt_plain::{Cut, Line};
use std::alloc::{AllocError, Global};

// Puts the core of a step, or the word for a tick, in front of the digits of the tick.
fn put_event(line: &mut Backward, event: &Event)
    requires { length line.old ≤ 24 }
    ensures text { line.new ≡ event_sign event.now ++ line.old }
    ensures short { length line.new ≤ 48 }
{
    match event {
        Event::Step(core) => {
            line.put(b" @");
            line.put_number(core.0 as u64);
            line.put(b" c");
        }
        Event::Tick => line.put(b" tick "),
    }
}

// Adds the header line of the entry with this number.
fn put_header(out: &mut List<u8>, n: usize, event: &Event, tick: u32) -> Result<(), AllocError>
    ensures { OnOk result (out.new ≡ out.old ++ with_newline (header n event.now tick)) }
{
    let mut line = Backward::new();
    line.put(b"\n");
    line.put_number(tick as u64);
    put_event(&mut line, event);
    line.put_number(n as u64);
    put(out, line.as_slice())
}

// Adds the text of an entry with this number.
pub(crate) fn put_one(
    out: &mut List<u8>,
    number: usize,
    event: &Event,
    tick: u32,
    lines: &[Line],
) -> Result<(), AllocError>
    ensures { OnOk result (out.new ≡ out.old ++ entry_text number (record { event = event.now; tick = tick; lines = lines.now })) }
{
    put_header(out, number, event, tick)?;
    put_lines(out, lines)
}

// Adds the text of the entries of these headers and lines, of which the first has this number.
fn put_all(
    out: &mut List<u8>,
    number: usize,
    headers: &[Header],
    lines: &[Line],
) -> Result<(), AllocError>
    requires total { lines_in headers.now ≡ length lines.now }
    requires few { number + length headers.now ≤ 2 ^ 32 }
    ensures { OnOk result (out.new ≡ out.old ++ entries_text number (entries_of headers.now lines.now)) }
{
    let mut at = 0;
    for (i, h) in headers.iter().enumerate() {
        let end = at + h.count as usize;
        put_header(out, number + i, &h.event, h.tick)?;
        put_lines(out, &lines[at..end])?;
        at = end;
    }
    Ok(())
}

// How many of the lines belong to the first headers, up to a place.
fn lines_before(headers: &[Header], lines: &[Line], place: usize) -> usize
    requires total { lines_in headers.now ≡ length lines.now }
    requires stand { StandFrom 0 headers.now }
    requires within { place ≤ length headers.now }
    ensures { result ≡ lines_in (take place headers.now) }
{
    if place < headers.len() {
        headers[place].first as usize
    } else {
        lines.len()
    }
}

fn put_counts(out: &mut List<u8>, counts: &[u32]) -> Result<(), AllocError>
    ensures { OnOk result (out.new ≡ out.old ++ flat_map (λ n. 32 ∷ decimal n) counts.now) }
{
    for n in counts {
        put(out, b" ")?;
        put_number(out, *n as u64)?;
    }
    Ok(())
}

// Adds the `cut` line.
#[tactic(auto, using(crate::proofs::CutLemmas::cut_line))]
fn put_cut(out: &mut List<u8>, cut: &Cut) -> Result<(), AllocError>
    ensures { OnOk result (out.new ≡ out.old ++ cut_text cut.now) }
{
    put(out, b"cut")?;
    put_counts(out, cut.counts.as_slice())?;
    put(out, b"\n")
}

// Adds the text of the entries of these headers and lines, with the `cut` line behind as many as it says.
fn put_split(
    out: &mut List<u8>,
    headers: &[Header],
    lines: &[Line],
    cut: &Cut,
) -> Result<(), AllocError>
    requires total { lines_in headers.now ≡ length lines.now }
    requires stand { StandFrom 0 headers.now }
    requires few { length headers.now < 2 ^ 32 }
    requires within { cut.now.at ≤ length headers.now }
    ensures { OnOk result (out.new ≡ out.old ++ body_text (entries_of headers.now lines.now) (Some cut.now)) }
{
    let place = cut.at as usize;
    let before = lines_before(headers, lines, place);
    put_all(out, 1, &headers[..place], &lines[..before])?;
    put_cut(out, cut)?;
    put_all(out, place + 1, &headers[place..], &lines[before..])
}

// Adds the text of the entries of these headers and lines, with the `cut` line where there is one.
pub(crate) fn put_body(
    out: &mut List<u8>,
    headers: &[Header],
    lines: &[Line],
    cut: Option<&Cut>,
) -> Result<(), AllocError>
    requires total { lines_in headers.now ≡ length lines.now }
    requires stand { StandFrom 0 headers.now }
    requires few { length headers.now < 2 ^ 32 }
    requires stands { StandsIn (entries_of headers.now lines.now) (cut_of cut) }
    ensures { OnOk result (out.new ≡ out.old ++ body_text (entries_of headers.now lines.now) (cut_of cut.entry)) }
{
    match cut {
        None => put_all(out, 1, headers, lines),
        Some(cut) => put_split(out, headers, lines, cut),
    }
}

fn put_halt(out: &mut List<u8>, halt: Halt) -> Result<(), AllocError>
    ensures { OnOk result (out.new ≡ out.old ++ halt_text halt) }
{
    match halt {
        Halt::Quiet => put(out, b"quiet"),
        Halt::Until => put(out, b"until"),
        Halt::Standby => put(out, b"standby"),
        Halt::Shutdown => put(out, b"shutdown"),
    }
}

fn put_end(out: &mut List<u8>, end: Option<(Halt, u32)>) -> Result<(), AllocError>
    ensures { OnOk result (out.new ≡ out.old ++ end_text (ending end)) }
{
    if let Some((halt, tick)) = end {
        put(out, b"end ")?;
        put_halt(out, halt)?;
        put(out, b" @")?;
        put_number(out, tick as u64)?;
        put(out, b"\n")?;
    }
    Ok(())
}

/// The text of the trace: the entries, the `cut` line behind as many of them as the cut says, where one is given, and
/// the end line where an end is given (how the run has halted, and at which tick). The one refusal is want of memory.
pub fn text(
    alloc: Global,
    journal: &Journal,
    cut: Option<&Cut>,
    end: Option<(Halt, u32)>,
) -> Result<List<u8>, AllocError>
    requires { StandsIn journal.now.entries (cut_of cut) }
    ensures { IfOk result (λ text. text ≡ trace_text journal.now.entries (cut_of cut.entry) (ending end)) }
{
    let mut out = List::new(alloc);
    journal.put_entries(&mut out, cut)?;
    put_end(&mut out, end)?;
    Ok(out)
}
