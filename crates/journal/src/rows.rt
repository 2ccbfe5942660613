//! The lines of a trace's entries, read by a table.
ghost use Rattle.std.specs.Prelude.{◌≡◌, ◌≤◌, bytes_eq, length, map};
ghost use Rattle.rt_plain.specs.text.TraceRows.{trace_form, trace_word, trace_count, trace_named, all_trace_kinds, line_made, line_in, shown_in};
ghost use Rattle.rt_plain.specs.text.FieldLists.{values_in, ended};
ghost use Rattle.rt_plain.specs.declared.kind.TraceKind.{TraceKind as Lines};
ghost use Rattle.rt_plain.specs.text.BoardText.{first_of};

use crate::table::trace_rows;
use rt_base::{Code, Name};
use rt_plain::fields::{
    acted, all1, all2, all3, answered, changed, half, mode, name, number, placed, received, text,
    woken, word_at,
};
use rt_plain::{Line, TraceKind, Why};

macro_rules! nested {
    () => { () };
    ($first:tt $($rest:tt)*) => { ($first, nested!($($rest)*)) };
}

macro_rules! read_line {
    ($kind:ident $words:ident;
        plain {$($row:ident $word:literal $all:ident ($($line:tt)*) {$($place:literal $field:tt : $reader:ident($($arg:expr),*))*})*}
        stated {$($statement:ident $statement_word:literal $made:ident)*}) => {
        match $kind {
            $(TraceKind::$row => match $all($($reader($words, $place $(, $arg)*)),*) {
                Ok(nested!($($field)*)) => Ok($($line)*),
                Err(why) => Err(why),
            })*
            $(TraceKind::$statement => match read_stated($words) {
                Ok(values) => Ok($made(values)),
                Err(why) => Err(why),
            })*
        }
    };
}

// A thread, the number of its statement, and its code or `None` for `wait`.
type Stated = (Name, (u16, (Option<Code>, ())));

// What the words of a line of a statement say.
fn read_stated(words: &[&[u8]]) -> Result<Stated, Why>
    ensures { result ≡ values_in ended (trace_form Lines.Done).fields 1 (map (λ w. w.now) words.now) }
{
    all3(name(words, 1), half(words, 2, 0, 65535), answered(words, 3))
}

fn make_done(values: Stated) -> Line
    ensures { result ≡ line_made Lines.Done values }
{
    let (thread, (k, (answer, ()))) = values;
    Line::Done(thread, k, answer)
}

fn make_again(values: Stated) -> Line
    ensures { result ≡ line_made Lines.Again values }
{
    let (thread, (k, (answer, ()))) = values;
    Line::Again(thread, k, answer)
}

// What the words of a line of a kind say.
#[tactic(auto, unfolding(rt_plain::specs::text::TraceRows::line_in))]
fn read_line(kind: TraceKind, words: &[&[u8]]) -> Result<Line, Why>
    ensures { result ≡ line_in (map (λ w. w.now) words.now) kind }
{
    trace_rows!(read_line kind words)
}

macro_rules! trace_word {
    ($kind:ident;
        plain {$($row:ident $word:literal $all:ident ($($line:tt)*) {$($field:tt)*})*}
        stated {$($statement:ident $statement_word:literal $made:ident)*}) => {
        match $kind {
            $(TraceKind::$row => $word,)*
            $(TraceKind::$statement => $statement_word,)*
        }
    };
}

#[tactic(auto, unfolding(rt_plain::specs::text::TraceRows::trace_word))]
fn trace_word(kind: TraceKind) -> &'static [u8]
    ensures { result.now ≡ trace_word kind }
{
    trace_rows!(trace_word kind)
}

macro_rules! trace_count {
    ($kind:ident;
        plain {$($row:ident $word:literal $all:ident ($($line:tt)*) {$($place:literal $field:tt : $reader:ident($($arg:expr),*))*})*}
        stated {$($statement:ident $statement_word:literal $made:ident)*}) => {
        match $kind {
            $(TraceKind::$row => {
                let places: &[usize] = &[$($place),*];
                places.len()
            })*
            $(TraceKind::$statement => 3,)*
        }
    };
}

// How many fields a line has.
#[tactic(auto, unfolding(rt_plain::specs::text::TraceRows::trace_count))]
fn trace_count(kind: TraceKind) -> usize
    ensures count { result ≡ trace_count kind }
    ensures few { result ≤ 3 }
{
    trace_rows!(trace_count kind)
}

#[tactic(auto, unfolding(rt_plain::specs::text::TraceRows::all_trace_kinds))]
fn every_kind() -> [TraceKind; 20]
    ensures { result ≡ all_trace_kinds }
{
    [
        TraceKind::Run,
        TraceKind::Out,
        TraceKind::Done,
        TraceKind::Again,
        TraceKind::Wake,
        TraceKind::Cur,
        TraceKind::Fire,
        TraceKind::Timeout,
        TraceKind::Rx,
        TraceKind::Tx,
        TraceKind::Sleep,
        TraceKind::Suspend,
        TraceKind::Resume,
        TraceKind::Tick,
        TraceKind::Print,
        TraceKind::Close,
        TraceKind::Own,
        TraceKind::Mode,
        TraceKind::Work,
        TraceKind::Unwork,
    ]
}

fn is_word(word: &[u8], given: &[u8]) -> bool
    ensures { result ≡ bytes_eq word.now given.now }
{
    word == given
}

// The kind of line that a word names.
fn trace_named(given: &[u8]) -> Option<TraceKind>
    ensures { result ≡ trace_named given.now }
{
    let kinds = every_kind();
    for kind in &kinds {
        if is_word(trace_word(*kind), given) {
            return Some(*kind);
        }
    }
    None
}

// The line of an entry that words say.
pub(crate) fn shown(words: &[&[u8]]) -> Result<Line, Why>
    ensures { result ≡ shown_in (map (λ w. w.now) words.now) (trace_named (first_of (map (λ w. w.now) words.now))) }
{
    let Some(kind) = trace_named(word_at(words, 0)) else {
        return Err(Why::Kind);
    };
    if words.len() != 1 + trace_count(kind) {
        return Err(Why::Words);
    }
    read_line(kind, words)
}
