use arrayvec::ArrayVec;
use journal::{Cut, Journal, console, read_events, text};
use rt_base::{CoreNo, Event, Halt, Name, Text};
use rt_plain::{Line, Lines};
use std::alloc::Global;
use std::test::Fail;

// A step of core 0 at tick 7 that prints two pieces, and a tick without lines.
fn two_entries(alloc: Global) -> Result<Journal, Fail> {
    let mut journal = Journal::new(alloc);
    let mut lines = Lines::new(alloc, 3)?;
    lines.push(Line::Run(Name::read(b"A").ok_or("name")?));
    lines.push(Line::Print(Text::read(b"x\n").ok_or("text")?));
    lines.push(Line::Print(Text::read(b"y").ok_or("text")?));
    journal.reserve(2, 3)?;
    journal.push(Event::Step(CoreNo(0)), 7, &mut lines);
    journal.push(Event::Tick, 8, &mut lines);
    Ok(journal)
}

// The trace of these entries, with these texts before them, between them and behind them.
fn trace_with(
    alloc: Global,
    before: &[u8],
    between: &[u8],
    behind: &[u8],
) -> Result<Vec<u8>, Fail> {
    let mut trace = Vec::from_slice(alloc, before)?;
    trace.extend_from_slice(b"1 c0 @7\n  run A\n  print \"x\\n\"\n  print \"y\"\n")?;
    trace.extend_from_slice(between)?;
    trace.extend_from_slice(b"2 tick 8\n")?;
    trace.extend_from_slice(behind)?;
    Ok(trace)
}

#[test]
fn a_journal_is_written(rt: HostRuntime) -> Result<(), Fail> {
    let journal = two_entries(rt.alloc())?;
    let trace = text(rt.alloc(), &journal, None, Some((Halt::Until, 8)))?;
    assert!(rt;
        trace.as_slice() == trace_with(rt.alloc(), b"", b"", b"end until @8\n")?.as_slice()
    );
    let printed = console(rt.alloc(), &journal)?;
    assert!(rt; printed.as_slice() == b"x\ny".as_slice());
    Ok(())
}

#[test]
fn a_journal_is_read_by_places(rt: HostRuntime) -> Result<(), Fail> {
    let journal = two_entries(rt.alloc())?;
    assert_eq!(rt; journal.entries(), 2);
    assert_eq!(rt; journal.lines(), 3);
    if journal.entries() == 2 {
        let (event, tick, first, count) = journal.entry(1);
        assert!(rt; event == Event::Tick);
        assert_eq!(rt; (tick, first, count), (8, 3, 0));
    }
    if journal.lines() == 3 {
        assert!(rt; matches!(journal.line(0), Line::Run(name) if name.bytes() == b"A".as_slice()));
    }
    Ok(())
}

// Whether a cut behind so many entries, with these counts of two cores, is written as wanted and read over.
fn is_cut_as(rt: &HostRuntime, at: u32, counts: &[u32], wanted: &[u8]) -> Result<bool, Fail> {
    let journal = two_entries(rt.alloc())?;
    let mut cut = Cut {
        at,
        counts: ArrayVec::new(),
    };
    let _ = cut.counts.try_extend_from_slice(counts);
    if cut.at > journal.entries() {
        return Ok(false);
    }
    let trace = text(rt.alloc(), &journal, Some(&cut), None)?;
    let events = read_events(rt.alloc(), trace.as_slice())?;
    let both: &[Event] = &[Event::Step(CoreNo(0)), Event::Tick];
    Ok(trace.as_slice() == wanted && events.as_slice() == both)
}

#[test]
fn the_cut_line_stands_behind_its_entries(rt: HostRuntime) -> Result<(), Fail> {
    let before = trace_with(rt.alloc(), b"cut 0 0\n", b"", b"")?;
    assert!(rt; is_cut_as(&rt, 0, &[0, 0], &before)?);
    let between = trace_with(rt.alloc(), b"", b"cut 1 0\n", b"")?;
    assert!(rt; is_cut_as(&rt, 1, &[1, 0], &between)?);
    let behind = trace_with(rt.alloc(), b"", b"", b"cut 2 0\n")?;
    assert!(rt; is_cut_as(&rt, 2, &[2, 0], &behind)?);
    Ok(())
}

#[test]
fn events_are_those_before_the_first_line_without_a_form(rt: HostRuntime) -> Result<(), Fail> {
    let trace = b"1 c0 @0\n  run A\ncut 1 0\n2 tick 1\n3 c7 @1\n4 c0 @01\n5 tick 2\n";
    let events = read_events(rt.alloc(), trace)?;
    let wanted: &[Event] = &[Event::Step(CoreNo(0)), Event::Tick, Event::Step(CoreNo(7))];
    assert!(rt; events.as_slice() == wanted);
    let unfinished = read_events(rt.alloc(), b"1 c0 @0\n2 tick 1")?;
    let first: &[Event] = &[Event::Step(CoreNo(0))];
    assert!(rt; unfinished.as_slice() == first);
    Ok(())
}
