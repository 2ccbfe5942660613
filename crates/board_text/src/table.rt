//! The table of statements and lines, and reading by it.
ghost use Rattle.std.specs.Prelude.{◌≡◌, ◌≤◌, ◌-◌, bytes_eq, length, map};
ghost use Rattle.rt_plain.specs.text.StatementTable.{statement_word, statement_count, statement_named, statement_in, all_statements};
ghost use Rattle.rt_plain.specs.text.LineTable.{row, all_lines, line_named, kind_named, line_in, said_in};
ghost use Rattle.rt_plain.specs.declared.kind.Kind.{Kind as AnyKind};
ghost use Rattle.board_text.specs.Gives.{Gives};

use crate::fault::Refusal;
use crate::tails::{read_limit, read_schedule, read_timer};
use rt_plain::fields::{
    all0, all1, all2, all3, all4, all5, all6, armed, both, byte, class, code, core, half, how,
    indicated, keep, levels, mode, moment, name, number, on_off, order, power, prio, run, started,
    text, timer_kind, wait, what, word_at,
};
use rt_plain::{
    Arrival, BoardLine, Call, DeviceDef, EventDef, Kind, LineKind, MailboxDef, MutexDef, PoolDef,
    QueueDef, SemDef, StatementKind, Stmt, Tail, ThreadLine, Why,
};
use std::alloc::Global;

/// A statement line has the rank of threads.
pub(crate) const STATEMENT_RANK: u8 = 24;

/// All statements. A row has the kind, the word, the value, and the fields with their places.
#[macro_export]
macro_rules! statement_rows {
    ($then:ident $levels:tt $($rest:tt)*) => {
        $then! {
            $($rest)*;
            plain {
                Print b"print" all1 (Stmt::Print(t)) {1 t: text()}
                Say b"say" all1 (Stmt::Say(w)) {1 w: what()}
                Goto b"goto" all1 (Stmt::Goto(k)) {1 k: half(1, 512)}
                IfCode b"ifcode" all2 (Stmt::IfCode(c, k)) {1 c: code() 2 k: half(1, 512)}
                Count b"count" all1 (Stmt::Count(n)) {1 n: half(0, 65535)}
                Next b"next" all1 (Stmt::Next(k)) {1 k: half(1, 512)}
                Exit b"exit" all0 (Stmt::Exit) {}
            }
            calls {
                Delay b"delay" all1 (Call::Delay(n)) {1 n: number(1, 2147483647)}
                Yield b"yield" all0 (Call::Yield) {}
                Startup b"startup" all1 (Call::Startup(o)) {1 o: name()}
                Suspend b"suspend" all1 (Call::Suspend(o)) {1 o: name()}
                Resume b"resume" all1 (Call::Resume(o)) {1 o: name()}
                Kill b"kill" all1 (Call::Kill(o)) {1 o: name()}
                SetPrio b"setprio" all2 (Call::SetPrio(o, p)) {1 o: name() 2 p: prio(0, below_idle($levels))}
                Lock b"lock" all0 (Call::Lock) {}
                Unlock b"unlock" all0 (Call::Unlock) {}
                SchedLock b"sched_lock" all0 (Call::SchedLock) {}
                SchedUnlock b"sched_unlock" all0 (Call::SchedUnlock) {}
                SemCreate b"sem_create" all3 (Call::SemCreate(o, v, q)) {1 o: name() 2 v: half(0, 65535) 3 q: order()}
                SemTake b"sem_take" all2 (Call::SemTake(o, w)) {1 o: name() 2 w: wait()}
                SemRelease b"sem_release" all1 (Call::SemRelease(o)) {1 o: name()}
                EventCreate b"event_create" all2 (Call::EventCreate(o, q)) {1 o: name() 2 q: order()}
                EventSend b"event_send" all2 (Call::EventSend(o, m)) {1 o: name() 2 m: number(1, 4294967295)}
                EventRecv b"event_recv" all5 (Call::EventRecv(o, m, h, k, w)) {1 o: name() 2 m: number(1, 4294967295) 3 h: how() 4 k: keep() 5 w: wait()}
                MutexCreate b"mutex_create" all2 (Call::MutexCreate(o, p)) {1 o: name() 2 p: prio(0, idle($levels))}
                MutexTake b"mutex_take" all2 (Call::MutexTake(o, w)) {1 o: name() 2 w: wait()}
                MutexRelease b"mutex_release" all1 (Call::MutexRelease(o)) {1 o: name()}
                MutexCeiling b"mutex_ceiling" all2 (Call::MutexCeiling(o, p)) {1 o: name() 2 p: prio(0, idle($levels))}
                MbSend b"mb_send" all3 (Call::MbSend(o, v, w)) {1 o: name() 2 v: number(0, 4294967295) 3 w: wait()}
                MbUrgent b"mb_urgent" all2 (Call::MbUrgent(o, v)) {1 o: name() 2 v: number(0, 4294967295)}
                MbRecv b"mb_recv" all2 (Call::MbRecv(o, w)) {1 o: name() 2 w: wait()}
                MqSend b"mq_send" all3 (Call::MqSend(o, w, t)) {1 o: name() 2 w: wait() 3 t: text()}
                MqUrgent b"mq_urgent" all2 (Call::MqUrgent(o, t)) {1 o: name() 2 t: text()}
                MqRecv b"mq_recv" all2 (Call::MqRecv(o, w)) {1 o: name() 2 w: wait()}
                Delete b"delete" all2 (Call::Delete(c, o)) {1 c: class() 2 o: name()}
                TimerStart b"timer_start" all1 (Call::TimerStart(o)) {1 o: name()}
                TimerStop b"timer_stop" all1 (Call::TimerStop(o)) {1 o: name()}
                TimerSet b"timer_set" all2 (Call::TimerSet(o, n)) {1 o: name() 2 n: number(1, 2147483647)}
                DevOpen b"dev_open" all1 (Call::DevOpen(o)) {1 o: name()}
                DevClose b"dev_close" all1 (Call::DevClose(o)) {1 o: name()}
                DevRead b"dev_read" all2 (Call::DevRead(o, n)) {1 o: name() 2 n: byte(1, 64)}
                DevWrite b"dev_write" all2 (Call::DevWrite(o, t)) {1 o: name() 2 t: text()}
                DevCtl b"dev_ctl" all2 (Call::DevCtl(o, n)) {1 o: name() 2 n: byte(1, 64)}
                PmRequest b"pm_request" all1 (Call::PmRequest(m)) {1 m: mode()}
                PmRelease b"pm_release" all1 (Call::PmRelease(m)) {1 m: mode()}
                PmRun b"pm_run" all1 (Call::PmRun(r)) {1 r: run()}
                MpAlloc b"mp_alloc" all2 (Call::MpAlloc(o, w)) {1 o: name() 2 w: wait()}
                MpFree b"mp_free" all1 (Call::MpFree(o)) {1 o: name()}
            }
        }
    };
}

/// All other lines. A row has the rank before the word; those with a tail have it and the number of fields before it.
macro_rules! line_rows {
    ($then:ident $levels:tt $($rest:tt)*) => {
        $then! {
            $($rest)*;
            fields {
                Board 1 b"board" all1 (BoardLine::Version(n)) {1 n: byte(1, 1)}
                Cores 2 b"cores" all1 (BoardLine::Cores(n)) {1 n: byte(1, 8)}
                Levels 3 b"levels" all1 (BoardLine::Levels(n)) {1 n: levels()}
                Tickless 4 b"tickless" all1 (BoardLine::Tickless(b)) {1 b: on_off()}
                Tick0 5 b"tick0" all1 (BoardLine::Tick0(n)) {1 n: number(0, 4294967295)}
                Until 6 b"until" all1 (BoardLine::Until(n)) {1 n: moment()}
                Entries 7 b"entries" all1 (BoardLine::Entries(n)) {1 n: number(1, 1000000)}
                LpMax 8 b"lpmax" all1 (BoardLine::LpMax(n)) {1 n: number(1, 2147483647)}
                Thresh 9 b"thresh" all1 (BoardLine::Thresh(n)) {1 n: number(1, 2147483647)}
                LpClock 10 b"lpclock" all2 (BoardLine::LpClock(h, q)) {1 h: number(1, 1000000) 2 q: number(1, 1000)}
                DefaultMode 11 b"default" all1 (BoardLine::DefaultMode(m)) {1 m: mode()}
                Shell 13 b"shell" all1 (BoardLine::Shell(p)) {1 p: prio(0, below_idle($levels))}
                Soft 14 b"soft" all1 (BoardLine::Soft(p)) {1 p: prio(0, below_idle($levels))}
                Sem 16 b"sem" all3 (BoardLine::Sem(SemDef { name: n, value: v, order: o })) {1 n: name() 2 v: half(0, 65535) 3 o: order()}
                Event 17 b"event" all2 (BoardLine::Event(EventDef { name: n, order: o })) {1 n: name() 2 o: order()}
                Mutex 18 b"mutex" all2 (BoardLine::Mutex(MutexDef { name: n, ceiling: c })) {1 n: name() 2 c: prio(0, idle($levels))}
                Mailbox 19 b"mailbox" all3 (BoardLine::Mailbox(MailboxDef { name: n, size: s, order: o })) {1 n: name() 2 s: byte(1, 64) 3 o: order()}
                Queue 20 b"msgqueue" all4 (BoardLine::Queue(QueueDef { name: n, max: m, size: s, order: o })) {1 n: name() 2 m: byte(1, 64) 3 s: byte(1, 64) 4 o: order()}
                Pool 21 b"mempool" all4 (BoardLine::Pool(PoolDef { name: n, blocks: b, size: s, order: o })) {1 n: name() 2 b: byte(1, 64) 3 s: half(1, 65535) 4 o: order()}
                Device 22 b"device" all6 (BoardLine::Device(DeviceDef { name: n, rx: r, tx: t, rate: k, pm: p, ind: i })) {1 n: name() 2 r: byte(1, 64) 3 t: byte(1, 64) 4 k: byte(1, 64) 5 p: power() 6 i: indicated()}
                Thread 24 b"thread" all5 (BoardLine::Thread(ThreadLine { name: n, prio: p, slice: s, core: c, started: b })) {1 n: name() 2 p: prio(0, below_idle($levels)) 3 s: byte(1, 255) 4 c: core() 5 b: started()}
                Arrive 25 b"arrive" all3 (BoardLine::Arrive(Arrival { count: n, device: d, text: t })) {1 n: number(1, 4294967295) 2 d: name() 3 t: text()}
            }
            tails {
                Schedule 12 b"schedule" SetsSchedule 0
                Limit 15 b"limit" SetsLimit 0
                Timer 23 b"timer" MakesCall 4
            }
        }
    };
}

macro_rules! nested {
    () => { () };
    ($first:ident $($rest:ident)*) => { ($first, nested!($($rest)*)) };
}

macro_rules! read_statement {
    ($kind:ident $words:ident;
        plain {$($plain:ident $plain_word:literal $plain_all:ident ($($plain_value:tt)*) {$($plain_place:literal $plain_field:ident : $plain_reader:ident($($plain_arg:expr),*))*})*}
        calls {$($call:ident $word:literal $all:ident ($($value:tt)*) {$($place:literal $field:ident : $reader:ident($($arg:expr),*))*})*}) => {
        match $kind {
            $(StatementKind::$plain => match $plain_all($($plain_reader($words, $plain_place $(, $plain_arg)*)),*) {
                Ok(nested!($($plain_field)*)) => Ok($($plain_value)*),
                Err(why) => Err(why),
            })*
            $(StatementKind::$call => match $all($($reader($words, $place $(, $arg)*)),*) {
                Ok(nested!($($field)*)) => Ok(Stmt::Do($($value)*)),
                Err(why) => Err(why),
            })*
        }
    };
}

/// What the words of a statement of a kind say.
#[tactic(auto, unfolding(rt_plain::specs::text::StatementTable::statement_in))]
pub(crate) fn read_statement(
    kind: StatementKind,
    words: &[&[u8]],
    board_levels: u16,
) -> Result<Stmt, Why>
    requires levels_low { 2 ≤ board_levels }
    requires levels_high { board_levels ≤ 256 }
    ensures { result ≡ statement_in board_levels (map (λ w. w.now) words.now) kind }
{
    statement_rows!(read_statement board_levels kind words)
}

macro_rules! read_line {
    ($alloc:ident $kind:ident $words:ident $board_levels:ident;
        fields {$($line:ident $rank:literal $word:literal $all:ident ($($value:tt)*) {$($place:literal $field:ident : $reader:ident($($arg:expr),*))*})*}
        tails {$($tailed:ident $tailed_rank:literal $tailed_word:literal $tail:ident $count:literal)*}) => {
        match $kind {
            $(LineKind::$line => match $all($($reader($words, $place $(, $arg)*)),*) {
                Ok(nested!($($field)*)) => Ok($($value)*),
                Err(why) => Err(Refusal::Line(why)),
            })*
            LineKind::Schedule => read_schedule($alloc, $words),
            LineKind::Limit => read_limit($words),
            LineKind::Timer => read_timer($words, $board_levels),
        }
    };
}

/// What the words of another line of a kind say.
#[tactic(auto, unfolding(rt_plain::specs::text::LineTable::line_in))]
fn read_line(
    alloc: Global,
    kind: LineKind,
    words: &[&[u8]],
    board_levels: u16,
) -> Result<BoardLine, Refusal>
    requires levels_low { 2 ≤ board_levels }
    requires levels_high { board_levels ≤ 256 }
    ensures { Gives result (line_in board_levels (map (λ w. w.now) words.now) kind) }
{
    line_rows!(read_line board_levels alloc kind words board_levels)
}

/// What the words of a line or a statement line of a kind say.
#[tactic(auto, unfolding(rt_plain::specs::text::LineTable::said_in))]
pub(crate) fn read_said(
    alloc: Global,
    kind: Kind,
    words: &[&[u8]],
    board_levels: u16,
) -> Result<BoardLine, Refusal>
    requires levels_low { 2 ≤ board_levels }
    requires levels_high { board_levels ≤ 256 }
    ensures { Gives result (said_in board_levels (map (λ w. w.now) words.now) kind) }
{
    match kind {
        Kind::Line(k) => read_line(alloc, k, words, board_levels),
        Kind::Statement(k) => match read_statement(k, words, board_levels) {
            Ok(s) => Ok(BoardLine::Statement(s)),
            Err(why) => Err(Refusal::Line(why)),
        },
    }
}

/// The greatest priority of a thread, above that of an idle core.
fn below_idle(levels: u16) -> u8
    requires low { 2 ≤ levels }
    requires high { levels ≤ 256 }
    ensures { result ≡ levels - 2 }
{
    (levels - 2) as u8
}

/// The greatest priority of a ceiling.
fn idle(levels: u16) -> u8
    requires low { 2 ≤ levels }
    requires high { levels ≤ 256 }
    ensures { result ≡ levels - 1 }
{
    (levels - 1) as u8
}

macro_rules! statement_word {
    ($kind:ident;
        plain {$($plain:ident $plain_word:literal $plain_all:ident ($($plain_value:tt)*) {$($plain_field:tt)*})*}
        calls {$($call:ident $word:literal $all:ident ($($value:tt)*) {$($field:tt)*})*}) => {
        match $kind {
            $(StatementKind::$plain => $plain_word,)*
            $(StatementKind::$call => $word,)*
        }
    };
}

/// The word of a statement.
#[tactic(auto, unfolding(rt_plain::specs::text::StatementTable::statement_word))]
fn statement_word(kind: StatementKind) -> &'static [u8]
    ensures { result.now ≡ statement_word kind }
{
    statement_rows!(statement_word 0 kind)
}

macro_rules! line_word {
    ($kind:ident;
        fields {$($line:ident $rank:literal $word:literal $all:ident ($($value:tt)*) {$($place:literal $field:ident : $reader:ident($($arg:expr),*))*})*}
        tails {$($tailed:ident $tailed_rank:literal $tailed_word:literal $tail:ident $tailed_count:literal)*}) => {
        match $kind {
            $(LineKind::$line => $word,)*
            $(LineKind::$tailed => $tailed_word,)*
        }
    };
}

/// The first word of a line.
#[tactic(auto, unfolding(rt_plain::specs::text::LineTable::row))]
fn line_word(kind: LineKind) -> &'static [u8]
    ensures { result.now ≡ (row (AnyKind.Line kind)).word }
{
    line_rows!(line_word 0 kind)
}

macro_rules! line_rank {
    ($kind:ident;
        fields {$($line:ident $rank:literal $word:literal $all:ident ($($value:tt)*) {$($place:literal $field:ident : $reader:ident($($arg:expr),*))*})*}
        tails {$($tailed:ident $tailed_rank:literal $tailed_word:literal $tail:ident $tailed_count:literal)*}) => {
        match $kind {
            $(LineKind::$line => $rank,)*
            $(LineKind::$tailed => $tailed_rank,)*
        }
    };
}

/// The rank of a line.
#[tactic(auto, unfolding(rt_plain::specs::text::LineTable::row))]
pub(crate) fn line_rank(kind: LineKind) -> u8
    ensures { result ≡ (row (AnyKind.Line kind)).rank }
{
    line_rows!(line_rank 0 kind)
}

/// The rank of a line or a statement line.
#[tactic(auto, unfolding(rt_plain::specs::text::LineTable::row))]
pub(crate) fn rank_of(kind: Kind) -> u8
    ensures { result ≡ (row kind).rank }
{
    match kind {
        Kind::Line(k) => line_rank(k),
        Kind::Statement(_) => STATEMENT_RANK,
    }
}

/// Whether it is a statement line.
#[tactic(auto, unfolding(rt_plain::specs::text::LineTable::row))]
pub(crate) fn is_statement(kind: Kind) -> bool
    ensures { result ≡ (row kind).indented }
{
    match kind {
        Kind::Line(_) => false,
        Kind::Statement(_) => true,
    }
}

macro_rules! line_tail {
    ($kind:ident;
        fields {$($line:ident $rank:literal $word:literal $all:ident ($($value:tt)*) {$($place:literal $field:ident : $reader:ident($($arg:expr),*))*})*}
        tails {$($tailed:ident $tailed_rank:literal $tailed_word:literal $tail:ident $tailed_count:literal)*}) => {
        match $kind {
            $(LineKind::$line => Tail::Ends,)*
            $(LineKind::$tailed => Tail::$tail,)*
        }
    };
}

#[tactic(auto, unfolding(rt_plain::specs::text::LineTable::row))]
fn line_tail(kind: LineKind) -> Tail
    ensures { result ≡ (row (AnyKind.Line kind)).tail }
{
    line_rows!(line_tail 0 kind)
}

/// What stands behind the fields of a line or a statement line.
#[tactic(auto, unfolding(rt_plain::specs::text::LineTable::row))]
pub(crate) fn tail_of(kind: Kind) -> Tail
    ensures { result ≡ (row kind).tail }
{
    match kind {
        Kind::Line(k) => line_tail(k),
        Kind::Statement(_) => Tail::Ends,
    }
}

macro_rules! statement_count {
    ($kind:ident;
        plain {$($plain:ident $plain_word:literal $plain_all:ident ($($plain_value:tt)*) {$($plain_place:literal $plain_field:ident : $plain_reader:ident($($plain_arg:expr),*))*})*}
        calls {$($call:ident $word:literal $all:ident ($($value:tt)*) {$($place:literal $field:ident : $reader:ident($($arg:expr),*))*})*}) => {
        match $kind {
            $(StatementKind::$plain => {
                let places: &[usize] = &[$($plain_place),*];
                places.len()
            })*
            $(StatementKind::$call => {
                let places: &[usize] = &[$($place),*];
                places.len()
            })*
        }
    };
}

/// How many fields a statement has.
#[tactic(auto, unfolding(rt_plain::specs::text::StatementTable::statement_count))]
pub(crate) fn statement_count(kind: StatementKind) -> usize
    ensures count { result ≡ statement_count kind }
    ensures few { result ≤ 6 }
{
    statement_rows!(statement_count 0 kind)
}

macro_rules! line_count {
    ($kind:ident;
        fields {$($line:ident $rank:literal $word:literal $all:ident ($($value:tt)*) {$($place:literal $field:ident : $reader:ident($($arg:expr),*))*})*}
        tails {$($tailed:ident $tailed_rank:literal $tailed_word:literal $tail:ident $tailed_count:literal)*}) => {
        match $kind {
            $(LineKind::$line => {
                let places: &[usize] = &[$($place),*];
                places.len()
            })*
            $(LineKind::$tailed => $tailed_count,)*
        }
    };
}

#[tactic(auto, unfolding(rt_plain::specs::text::LineTable::row))]
fn line_count(kind: LineKind) -> usize
    ensures count { result ≡ length (row (AnyKind.Line kind)).fields }
    ensures few { result ≤ 6 }
{
    line_rows!(line_count 0 kind)
}

/// How many fields a line or a statement line has.
#[tactic(auto, unfolding(rt_plain::specs::text::LineTable::row, rt_plain::specs::text::StatementTable::statement_count))]
pub(crate) fn field_count(kind: Kind) -> usize
    ensures count { result ≡ length (row kind).fields }
    ensures few { result ≤ 6 }
{
    match kind {
        Kind::Line(k) => line_count(k),
        Kind::Statement(k) => statement_count(k),
    }
}

macro_rules! every_statement {
    (;
        plain {$($plain:ident $plain_word:literal $plain_all:ident ($($plain_value:tt)*) {$($plain_field:tt)*})*}
        calls {$($call:ident $word:literal $all:ident ($($value:tt)*) {$($field:tt)*})*}) => {
        [$(StatementKind::$plain,)* $(StatementKind::$call),*]
    };
}

#[tactic(auto, unfolding(rt_plain::specs::text::StatementTable::all_statements))]
fn every_statement() -> [StatementKind; 48]
    ensures { result ≡ all_statements }
{
    statement_rows!(every_statement 0)
}

fn is_word(word: &[u8], given: &[u8]) -> bool
    ensures { result ≡ bytes_eq word.now given.now }
{
    word == given
}

/// The statement that a word names.
pub(crate) fn statement_named(given: &[u8]) -> Option<StatementKind>
    ensures { result ≡ statement_named given.now }
{
    let kinds = every_statement();
    for kind in &kinds {
        if is_word(statement_word(*kind), given) {
            return Some(*kind);
        }
    }
    None
}

#[tactic(auto, unfolding(rt_plain::specs::text::LineTable::all_lines))]
fn every_line() -> [LineKind; 25]
    ensures { result ≡ all_lines }
{
    [
        LineKind::Board,
        LineKind::Cores,
        LineKind::Levels,
        LineKind::Tickless,
        LineKind::Tick0,
        LineKind::Until,
        LineKind::Entries,
        LineKind::LpMax,
        LineKind::Thresh,
        LineKind::LpClock,
        LineKind::DefaultMode,
        LineKind::Schedule,
        LineKind::Shell,
        LineKind::Soft,
        LineKind::Limit,
        LineKind::Sem,
        LineKind::Event,
        LineKind::Mutex,
        LineKind::Mailbox,
        LineKind::Queue,
        LineKind::Pool,
        LineKind::Device,
        LineKind::Timer,
        LineKind::Thread,
        LineKind::Arrive,
    ]
}

/// The line that a word begins.
fn line_named(given: &[u8]) -> Option<LineKind>
    ensures { result ≡ line_named given.now }
{
    let kinds = every_line();
    for kind in &kinds {
        if is_word(line_word(*kind), given) {
            return Some(*kind);
        }
    }
    None
}

/// The kind of a line, by its indent and its first word.
#[tactic(auto, unfolding(rt_plain::specs::text::LineTable::kind_named))]
pub(crate) fn kind_named(indented: bool, given: &[u8]) -> Option<Kind>
    ensures { result ≡ kind_named indented given.now }
{
    if indented {
        match statement_named(given) {
            Some(k) => Some(Kind::Statement(k)),
            None => None,
        }
    } else {
        match line_named(given) {
            Some(k) => Some(Kind::Line(k)),
            None => None,
        }
    }
}
