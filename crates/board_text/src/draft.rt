//! A board that is being read.
ghost use Rattle.std.specs.Prelude.{◌≡◌, OnOk, IfErr};
ghost use Rattle.rt_plain.specs.text.BoardText.{start, added, after, limited_after, scripted, unscripted, with_limit};
ghost use Rattle.rt_plain.specs.text.LineTable.{row, kind_of};
ghost use Rattle.rt_plain.specs.text.Canon.{IsValid};
ghost use Rattle.board_text.specs.Drafts.{so_far, board_of};

use crate::fault::Refusal;
use crate::places::limit_place;
use crate::table::{STATEMENT_RANK, line_rank};
use rt_base::{List, Prio, Sleep};
use rt_plain::{
    Arrival, Board, BoardLine, DeviceDef, EventDef, LimitClass, Limits, LineKind, MailboxDef,
    MutexDef, PoolDef, QueueDef, Schedule, SemDef, Stmt, ThreadDef, ThreadLine, TimerDef,
};
use std::alloc::Global;

/// What the lines so far said: the rank of the last one, the place of the last limit, and the parts of the board.
#[derive(Drop)]
pub(crate) struct Draft {
    pub rank: u8,
    pub limited: u8,
    pub cores: u8,
    pub levels: u16,
    pub tickless: bool,
    pub tick0: u32,
    pub until: u64,
    pub entries: u32,
    pub lpmax: u32,
    pub thresh: u32,
    pub lp_h: u32,
    pub lp_q: u32,
    pub default_mode: Sleep,
    pub schedule: Schedule,
    pub shell: Option<Prio>,
    pub soft: Option<Prio>,
    pub limits: Limits,
    pub sems: List<SemDef>,
    pub events: List<EventDef>,
    pub mutexes: List<MutexDef>,
    pub mailboxes: List<MailboxDef>,
    pub queues: List<QueueDef>,
    pub pools: List<PoolDef>,
    pub devices: List<DeviceDef>,
    pub timers: List<TimerDef>,
    pub threads: List<ThreadDef>,
    pub arrivals: List<Arrival>,
}

/// Adds a statement to the last script. After an `Err` the last thread may be gone.
#[tactic(auto, using(rt_plain::proofs::text::BoardLemmas::scripted_last))]
fn add_statement(threads: &mut List<ThreadDef>, s: Stmt) -> Result<(), Refusal>
    ensures ok { OnOk result (threads.new ≡ scripted threads.old s) }
    ensures err { IfErr result (λ e. e ≡ Refusal.Memory) }
{
    if let Some(mut last) = threads.pop() {
        last.script.push(s)?;
        threads.push(last)?;
    }
    Ok(())
}

fn unscripted(alloc: Global, t: ThreadLine) -> ThreadDef
    ensures { result ≡ unscripted t }
{
    ThreadDef {
        name: t.name,
        prio: t.prio,
        slice: t.slice,
        core: t.core,
        started: t.started,
        script: List::new(alloc),
    }
}

fn with_limit(limits: Limits, class: LimitClass, n: u16) -> Limits
    ensures { result ≡ with_limit limits class n }
{
    match class {
        LimitClass::Sem => Limits { sem: n, ..limits },
        LimitClass::Event => Limits { event: n, ..limits },
        LimitClass::Mutex => Limits { mutex: n, ..limits },
    }
}

/// Adds what a line says to the board.
fn add_part(alloc: Global, draft: &mut Draft, line: BoardLine) -> Result<(), Refusal>
    ensures ok { OnOk result (so_far draft.new ≡ record (so_far draft.old) { board = added (board_of draft.old) line }) }
    ensures err { IfErr result (λ e. e ≡ Refusal.Memory) }
{
    match line {
        BoardLine::Version(_) => {}
        BoardLine::Cores(n) => draft.cores = n,
        BoardLine::Levels(n) => draft.levels = n,
        BoardLine::Tickless(b) => draft.tickless = b,
        BoardLine::Tick0(n) => draft.tick0 = n,
        BoardLine::Until(n) => draft.until = n,
        BoardLine::Entries(n) => draft.entries = n,
        BoardLine::LpMax(n) => draft.lpmax = n,
        BoardLine::Thresh(n) => draft.thresh = n,
        BoardLine::LpClock(h, q) => {
            draft.lp_h = h;
            draft.lp_q = q;
        }
        BoardLine::DefaultMode(mode) => draft.default_mode = mode,
        BoardLine::Schedule(schedule) => draft.schedule = schedule,
        BoardLine::Shell(prio) => draft.shell = Some(prio),
        BoardLine::Soft(prio) => draft.soft = Some(prio),
        BoardLine::Limit(class, n) => draft.limits = with_limit(draft.limits, class, n),
        BoardLine::Sem(def) => draft.sems.push(def)?,
        BoardLine::Event(def) => draft.events.push(def)?,
        BoardLine::Mutex(def) => draft.mutexes.push(def)?,
        BoardLine::Mailbox(def) => draft.mailboxes.push(def)?,
        BoardLine::Queue(def) => draft.queues.push(def)?,
        BoardLine::Pool(def) => draft.pools.push(def)?,
        BoardLine::Device(def) => draft.devices.push(def)?,
        BoardLine::Timer(def) => draft.timers.push(def)?,
        BoardLine::Thread(thread) => draft.threads.push(unscripted(alloc, thread))?,
        BoardLine::Arrive(arrival) => draft.arrivals.push(arrival)?,
        BoardLine::Statement(statement) => add_statement(&mut draft.threads, statement)?,
    }
    Ok(())
}

#[tactic(auto, unfolding(rt_plain::specs::text::LineTable::row))]
fn rank_of_line(line: &BoardLine) -> u8
    ensures { result ≡ (row (kind_of line.now)).rank }
{
    match line {
        BoardLine::Version(_) => line_rank(LineKind::Board),
        BoardLine::Cores(_) => line_rank(LineKind::Cores),
        BoardLine::Levels(_) => line_rank(LineKind::Levels),
        BoardLine::Tickless(_) => line_rank(LineKind::Tickless),
        BoardLine::Tick0(_) => line_rank(LineKind::Tick0),
        BoardLine::Until(_) => line_rank(LineKind::Until),
        BoardLine::Entries(_) => line_rank(LineKind::Entries),
        BoardLine::LpMax(_) => line_rank(LineKind::LpMax),
        BoardLine::Thresh(_) => line_rank(LineKind::Thresh),
        BoardLine::LpClock(_, _) => line_rank(LineKind::LpClock),
        BoardLine::DefaultMode(_) => line_rank(LineKind::DefaultMode),
        BoardLine::Schedule(_) => line_rank(LineKind::Schedule),
        BoardLine::Shell(_) => line_rank(LineKind::Shell),
        BoardLine::Soft(_) => line_rank(LineKind::Soft),
        BoardLine::Limit(_, _) => line_rank(LineKind::Limit),
        BoardLine::Sem(_) => line_rank(LineKind::Sem),
        BoardLine::Event(_) => line_rank(LineKind::Event),
        BoardLine::Mutex(_) => line_rank(LineKind::Mutex),
        BoardLine::Mailbox(_) => line_rank(LineKind::Mailbox),
        BoardLine::Queue(_) => line_rank(LineKind::Queue),
        BoardLine::Pool(_) => line_rank(LineKind::Pool),
        BoardLine::Device(_) => line_rank(LineKind::Device),
        BoardLine::Timer(_) => line_rank(LineKind::Timer),
        BoardLine::Thread(_) => line_rank(LineKind::Thread),
        BoardLine::Arrive(_) => line_rank(LineKind::Arrive),
        BoardLine::Statement(_) => STATEMENT_RANK,
    }
}

fn limited_after(limited: u8, line: &BoardLine) -> u8
    ensures { result ≡ limited_after limited line.now }
{
    match line {
        BoardLine::Limit(class, _) => limit_place(*class),
        _ => limited,
    }
}

impl Draft {
    /// Before the first line.
    pub(crate) fn new(alloc: Global) -> Draft
        ensures { so_far result ≡ start }
    {
        Draft {
            rank: 0,
            limited: 0,
            cores: 1,
            levels: 32,
            tickless: true,
            tick0: 0,
            until: 4294967295,
            entries: 1000000,
            lpmax: 2147483647,
            thresh: 2,
            lp_h: 1,
            lp_q: 1,
            default_mode: Sleep::NoSleep,
            schedule: Schedule::Round,
            shell: None,
            soft: None,
            limits: Limits {
                sem: 64,
                event: 64,
                mutex: 256,
            },
            sems: List::new(alloc),
            events: List::new(alloc),
            mutexes: List::new(alloc),
            mailboxes: List::new(alloc),
            queues: List::new(alloc),
            pools: List::new(alloc),
            devices: List::new(alloc),
            timers: List::new(alloc),
            threads: List::new(alloc),
            arrivals: List::new(alloc),
        }
    }

    /// Adds a line. After an `Err` the draft may lack its last thread.
    pub(crate) fn add(&mut self, alloc: Global, line: BoardLine) -> Result<(), Refusal>
        ensures ok { OnOk result (so_far self.new ≡ after (so_far self.old) line) }
        ensures err { IfErr result (λ e. e ≡ Refusal.Memory) }
    {
        let rank = rank_of_line(&line);
        let limited = limited_after(self.limited, &line);
        add_part(alloc, self, line)?;
        self.rank = rank;
        self.limited = limited;
        Ok(())
    }

    /// The board, once all lines are read.
    pub(crate) fn finish(self) -> Board
        requires { IsValid (board_of self) }
        ensures { result ≡ board_of self }
    {
        Board {
            cores: self.cores,
            levels: self.levels,
            tickless: self.tickless,
            tick0: self.tick0,
            until: self.until,
            entries: self.entries,
            lpmax: self.lpmax,
            thresh: self.thresh,
            lp_h: self.lp_h,
            lp_q: self.lp_q,
            default_mode: self.default_mode,
            schedule: self.schedule,
            shell: self.shell,
            soft: self.soft,
            limits: self.limits,
            sems: self.sems,
            events: self.events,
            mutexes: self.mutexes,
            mailboxes: self.mailboxes,
            queues: self.queues,
            pools: self.pools,
            devices: self.devices,
            timers: self.timers,
            threads: self.threads,
            arrivals: self.arrivals,
        }
    }
}
