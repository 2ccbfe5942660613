//! What stands behind the fields of a line: a limit, a schedule, a timer's call.
ghost use Rattle.std.specs.Prelude.{◌≡◌, ◌≤◌, length, map, drop, decimal};
ghost use Rattle.rt_plain.specs.text.Fields.{result_map};
ghost use Rattle.rt_plain.specs.text.FieldLists.{both};
ghost use Rattle.rt_plain.specs.text.Tails.{limit_named, limit_top, limit_of, event_in, events_in, schedule_in, timer_call_in, is_counted_schedule, is_counted_statement, is_counted_call, is_counted};
ghost use Rattle.rt_plain.specs.text.LineTable.{line_in};
ghost use Rattle.rt_plain.specs.declared.kind.LineKind.TheVariants as line;
ghost use Rattle.board_text.specs.Gives.{Gives};

use crate::fault::Refusal;
use crate::table::{read_statement, statement_count, statement_named};
use rt_base::{CoreNo, Event, List, Name};
use rt_plain::fields::{armed, both, name, number, timer_kind, word_at};
use rt_plain::numbers::{is_number, number_of};
use rt_plain::words::behind;
use rt_plain::{
    BoardLine, LimitClass, Schedule, StatementKind, Stmt, Tail, TimerDef, TimerKind, Why,
};
use std::alloc::Global;

// ---- the number of words

fn is_counted_schedule(words: &[&[u8]]) -> bool
    ensures { result ≡ is_counted_schedule (map (λ w. w.now) words.now) }
{
    let word = word_at(words, 0);
    if word == b"round".as_slice() {
        words.len() == 1
    } else if word == b"seed".as_slice() {
        words.len() == 2
    } else if word == b"order".as_slice() {
        2 <= words.len() && words.len() <= 1001
    } else {
        1 <= words.len()
    }
}

fn is_counted_statement(kind: Option<StatementKind>, count: usize) -> bool
    ensures { result ≡ is_counted_statement kind count }
{
    match kind {
        Some(kind) => count == 1 + statement_count(kind),
        None => 1 <= count,
    }
}

fn is_counted_call(words: &[&[u8]]) -> bool
    ensures { result ≡ is_counted_call (map (λ w. w.now) words.now) }
{
    let word = word_at(words, 0);
    if word == b"-".as_slice() {
        words.len() == 1
    } else {
        is_counted_statement(statement_named(word), words.len())
    }
}

/// Whether there are as many words behind the fields as there should be.
pub(crate) fn is_counted(tail: Tail, words: &[&[u8]]) -> bool
    ensures { result ≡ is_counted tail (map (λ w. w.now) words.now) }
{
    match tail {
        Tail::Ends => words.is_empty(),
        Tail::SetsLimit => words.len() == 2,
        Tail::SetsSchedule => is_counted_schedule(words),
        Tail::MakesCall => is_counted_call(words),
    }
}

// ---- limits

/// The class that a word names.
pub(crate) fn limit_named(word: &[u8]) -> Option<LimitClass>
    ensures { result ≡ limit_named word.now }
{
    if word == b"sem".as_slice() {
        Some(LimitClass::Sem)
    } else if word == b"event".as_slice() {
        Some(LimitClass::Event)
    } else if word == b"mutex".as_slice() {
        Some(LimitClass::Mutex)
    } else {
        None
    }
}

fn limit_top(class: LimitClass) -> u16
    ensures top { result ≡ limit_top class }
    ensures few { result ≤ 256 }
{
    match class {
        LimitClass::Sem => 64,
        LimitClass::Event => 64,
        LimitClass::Mutex => 256,
    }
}

fn limit_of(class: Option<LimitClass>, word: &[u8]) -> Result<(LimitClass, u16), Why>
    ensures { result ≡ limit_of class word.now }
{
    match class {
        Some(class) => match number_of(word, 0, u32::from(limit_top(class))) {
            Ok(n) => Ok((class, n as u16)),
            Err(why) => Err(why),
        },
        None => {
            if is_number(word) {
                Err(Why::Choice)
            } else {
                Err(Why::Number)
            }
        }
    }
}

/// The line of a limit.
#[tactic(auto, unfolding(rt_plain::specs::text::LineTable::line_in))]
pub(crate) fn read_limit(words: &[&[u8]]) -> Result<BoardLine, Refusal>
    ensures { Gives result (line_in 0 (map (λ w. w.now) words.now) line.Limit) }
{
    match limit_of(limit_named(word_at(words, 1)), word_at(words, 2)) {
        Ok((class, n)) => Ok(BoardLine::Limit(class, n)),
        Err(why) => Err(Refusal::Line(why)),
    }
}

// ---- schedules

fn event_of(word: &[u8]) -> Result<Event, Why>
    ensures { result ≡ event_in word.now }
{
    match word {
        [b] => {
            if *b == b't' {
                Ok(Event::Tick)
            } else {
                Err(Why::Choice)
            }
        }
        [b, d] => {
            if *b == b'c' && (*d >= b'0' && *d <= b'9') {
                Ok(Event::Step(CoreNo(*d - b'0')))
            } else {
                Err(Why::Choice)
            }
        }
        _ => Err(Why::Choice),
    }
}

#[tactic(auto, using(rt_plain::proofs::text::TailLemmas::events_on, rt_plain::proofs::text::TailLemmas::events_stop, rt_plain::proofs::text::TailLemmas::events_end, rt_plain::proofs::text::TailLemmas::fronted_none))]
fn read_events(alloc: Global, words: &[&[u8]]) -> Result<List<Event>, Refusal>
    ensures { Gives result (events_in (map (λ w. w.now) words.now)) }
{
    let mut events = List::new(alloc);
    for word in words {
        match event_of(word) {
            Ok(event) => events.push(event)?,
            Err(why) => return Err(Refusal::Line(why)),
        }
    }
    Ok(events)
}

fn schedule_of(alloc: Global, words: &[&[u8]]) -> Result<Schedule, Refusal>
    ensures { Gives result (schedule_in (map (λ w. w.now) words.now)) }
{
    let word = word_at(words, 0);
    if word == b"round".as_slice() {
        Ok(Schedule::Round)
    } else if word == b"seed".as_slice() {
        match number(words, 1, 0, 4294967295) {
            Ok(seed) => Ok(Schedule::Seed(seed)),
            Err(why) => Err(Refusal::Line(why)),
        }
    } else if word == b"order".as_slice() {
        match read_events(alloc, behind(words, 1)) {
            Ok(events) => Ok(Schedule::Order(events)),
            Err(refusal) => Err(refusal),
        }
    } else {
        Err(Refusal::Line(Why::Choice))
    }
}

/// The line of the schedule.
#[tactic(auto, unfolding(rt_plain::specs::text::LineTable::line_in))]
pub(crate) fn read_schedule(alloc: Global, words: &[&[u8]]) -> Result<BoardLine, Refusal>
    ensures { Gives result (line_in 0 (map (λ w. w.now) words.now) line.Schedule) }
{
    match schedule_of(alloc, behind(words, 1)) {
        Ok(schedule) => Ok(BoardLine::Schedule(schedule)),
        Err(refusal) => Err(refusal),
    }
}

// ---- a timer's call

fn read_call(words: &[&[u8]], levels: u16) -> Result<Option<Stmt>, Why>
    requires levels_low { 2 ≤ levels }
    requires levels_high { levels ≤ 256 }
    ensures { result ≡ timer_call_in levels (map (λ w. w.now) words.now) }
{
    let word = word_at(words, 0);
    if word == b"-".as_slice() {
        return Ok(None);
    }
    match statement_named(word) {
        Some(kind) => match read_statement(kind, words, levels) {
            Ok(statement) => Ok(Some(statement)),
            Err(why) => Err(why),
        },
        None => Err(Why::Choice),
    }
}

/// The values of a timer, or the reason of least number.
fn timer_values(
    name: Result<Name, Why>,
    kind: Result<TimerKind, Why>,
    time: Result<u32, Why>,
    started: Result<bool, Why>,
    call: Result<Option<Stmt>, Why>,
) -> Result<(Name, (TimerKind, (u32, (bool, Option<Stmt>)))), Why>
    ensures { result ≡ both name (both kind (both time (both started call))) }
{
    both(name, both(kind, both(time, both(started, call))))
}

/// The line of a timer.
#[tactic(auto, unfolding(rt_plain::specs::text::LineTable::line_in))]
pub(crate) fn read_timer(words: &[&[u8]], levels: u16) -> Result<BoardLine, Refusal>
    requires levels_low { 2 ≤ levels }
    requires levels_high { levels ≤ 256 }
    ensures { Gives result (line_in levels (map (λ w. w.now) words.now) line.Timer) }
{
    let call = read_call(behind(words, 5), levels);
    let values = timer_values(
        name(words, 1),
        timer_kind(words, 2),
        number(words, 3, 1, 2147483647),
        armed(words, 4),
        call,
    );
    match values {
        Ok((name, (kind, (time, (started, call))))) => Ok(BoardLine::Timer(TimerDef {
            name,
            kind,
            time,
            started,
            call,
        })),
        Err(why) => Err(Refusal::Line(why)),
    }
}
