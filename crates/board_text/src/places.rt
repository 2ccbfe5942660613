//! What may stand where.
ghost use Rattle.std.specs.Prelude.{◌≡◌, ◌≤◌, ◌==◌, ◌&&◌, length, bytes_eq};
ghost use Rattle.std.specs.List.{list_any};
ghost use Rattle.rt_plain.specs.text.LineTable.{row};
ghost use Rattle.rt_plain.specs.kernel.LpClock.{moment_after_counts};
ghost use Rattle.rt_plain.specs.kernel.Opening.{arrival_moment};
ghost use Rattle.rt_plain.specs.kernel.TimerKinds.{is_soft, is_timer_call, is_timer_statement};
ghost use Rattle.rt_plain.specs.text.BoardText.{is_out_of_order, limit_place, is_class_passed, is_limit_passed, is_twice, last_length, thread_limit, is_full, last_count, is_beyond, is_event_beyond, is_schedule_beyond, is_barred, has_device, is_astray, placed, shell_name, soft_name, console_name};
ghost use Rattle.board_text.specs.Drafts.{so_far, board_of};

use crate::draft::Draft;
use crate::table::{STATEMENT_RANK, is_statement, rank_of};
use crate::tails::limit_named;
use rt_base::{CoreNo, Event, Name};
use rt_plain::{
    Arrival, BoardLine, Call, DeviceDef, EventDef, Kind, LimitClass, MailboxDef, MutexDef, PoolDef,
    QueueDef, Schedule, SemDef, Stmt, Tail, ThreadDef, TimerDef, TimerKind, Why,
};

// ---- order

/// Ranks never fall, those of the settings come once, and a statement stands below a thread.
pub(crate) fn is_out_of_order(draft: &Draft, kind: Kind) -> bool
    ensures { result ≡ is_out_of_order (so_far draft.now) (row kind) }
{
    let rank = rank_of(kind);
    if is_statement(kind) {
        draft.rank != STATEMENT_RANK
    } else {
        rank < draft.rank || (rank <= 14 && rank == draft.rank)
    }
}

/// The place of a class among the limits.
pub(crate) fn limit_place(class: LimitClass) -> u8
    ensures { result ≡ limit_place class }
{
    match class {
        LimitClass::Sem => 1,
        LimitClass::Event => 2,
        LimitClass::Mutex => 3,
    }
}

fn is_class_passed(limited: u8, class: Option<LimitClass>) -> bool
    ensures { result ≡ is_class_passed limited class }
{
    match class {
        Some(class) => limit_place(class) <= limited,
        None => false,
    }
}

/// The second word names a class whose limit has passed.
pub(crate) fn is_limit_passed(limited: u8, tail: Tail, word: &[u8]) -> bool
    ensures { result ≡ is_limit_passed limited tail word.now }
{
    match tail {
        Tail::SetsLimit => is_class_passed(limited, limit_named(word)),
        _ => false,
    }
}

// ---- names

fn has_sem(sems: &[SemDef], name: &Name) -> bool
    ensures { result ≡ list_any (λ o. bytes_eq o.name name.now) sems.now }
{
    sems.iter().any(|o| o.name.bytes() == name.bytes())
}

fn has_event(events: &[EventDef], name: &Name) -> bool
    ensures { result ≡ list_any (λ o. bytes_eq o.name name.now) events.now }
{
    events.iter().any(|o| o.name.bytes() == name.bytes())
}

fn has_mutex(mutexes: &[MutexDef], name: &Name) -> bool
    ensures { result ≡ list_any (λ o. bytes_eq o.name name.now) mutexes.now }
{
    mutexes.iter().any(|o| o.name.bytes() == name.bytes())
}

fn has_mailbox(mailboxes: &[MailboxDef], name: &Name) -> bool
    ensures { result ≡ list_any (λ o. bytes_eq o.name name.now) mailboxes.now }
{
    mailboxes.iter().any(|o| o.name.bytes() == name.bytes())
}

fn has_queue(queues: &[QueueDef], name: &Name) -> bool
    ensures { result ≡ list_any (λ o. bytes_eq o.name name.now) queues.now }
{
    queues.iter().any(|o| o.name.bytes() == name.bytes())
}

fn has_pool(pools: &[PoolDef], name: &Name) -> bool
    ensures { result ≡ list_any (λ o. bytes_eq o.name name.now) pools.now }
{
    pools.iter().any(|o| o.name.bytes() == name.bytes())
}

fn has_device(devices: &[DeviceDef], name: &Name) -> bool
    ensures { result ≡ list_any (λ o. bytes_eq o.name name.now) devices.now }
{
    devices.iter().any(|o| o.name.bytes() == name.bytes())
}

fn has_timer(timers: &[TimerDef], name: &Name) -> bool
    ensures { result ≡ list_any (λ o. bytes_eq o.name name.now) timers.now }
{
    timers.iter().any(|o| o.name.bytes() == name.bytes())
}

fn has_thread(threads: &[ThreadDef], name: &Name) -> bool
    ensures { result ≡ list_any (λ o. bytes_eq o.name name.now) threads.now }
{
    threads.iter().any(|o| o.name.bytes() == name.bytes())
}

/// The first moment at which the low-power clock has made so many counts.
fn moment_after_counts(h: u32, q: u32, count: u32) -> u64
    requires { 1 ≤ h }
    ensures { result ≡ moment_after_counts h q count }
{
    (u64::from(count) * u64::from(q) + u64::from(h - 1)) / u64::from(h)
}

fn arrival_moment(draft: &Draft, a: &Arrival) -> u64
    requires { 1 ≤ draft.now.lp_h }
    ensures { result ≡ arrival_moment (board_of draft.now) a.now }
{
    moment_after_counts(draft.lp_h, draft.lp_q, a.count)
}

fn has_arrival(draft: &Draft, a: &Arrival) -> bool
    requires { 1 ≤ draft.now.lp_h }
    ensures { result ≡ list_any (λ o. arrival_moment (board_of draft.now) o == arrival_moment (board_of draft.now) a.now && bytes_eq o.device a.now.device) draft.now.arrivals }
{
    let moment = arrival_moment(draft, a);
    let arrivals = draft.arrivals.as_slice();
    arrivals.iter().any(|o| arrival_moment(draft, o) == moment
        && o.device.bytes() == a.device.bytes())
}

fn is_console(name: &Name) -> bool
    ensures { result ≡ bytes_eq console_name name.now }
{
    b"console".as_slice() == name.bytes()
}

fn is_shell(name: &Name) -> bool
    ensures { result ≡ bytes_eq shell_name name.now }
{
    b"tshell".as_slice() == name.bytes()
}

fn is_soft_thread(name: &Name) -> bool
    ensures { result ≡ bytes_eq soft_name name.now }
{
    b"tsoft".as_slice() == name.bytes()
}

fn is_twice(draft: &Draft, line: &BoardLine) -> bool
    requires { 1 ≤ draft.now.lp_h }
    ensures { result ≡ is_twice (board_of draft.now) line.now }
{
    match line {
        BoardLine::Sem(d) => has_sem(draft.sems.as_slice(), &d.name),
        BoardLine::Event(d) => has_event(draft.events.as_slice(), &d.name),
        BoardLine::Mutex(d) => has_mutex(draft.mutexes.as_slice(), &d.name),
        BoardLine::Mailbox(d) => has_mailbox(draft.mailboxes.as_slice(), &d.name),
        BoardLine::Queue(d) => has_queue(draft.queues.as_slice(), &d.name),
        BoardLine::Pool(d) => has_pool(draft.pools.as_slice(), &d.name),
        BoardLine::Device(d) => {
            is_console(&d.name) || has_device(draft.devices.as_slice(), &d.name)
        }
        BoardLine::Timer(d) => has_timer(draft.timers.as_slice(), &d.name),
        BoardLine::Thread(t) => {
            (draft.shell.is_some() && is_shell(&t.name))
                || (draft.soft.is_some() && is_soft_thread(&t.name))
                || has_thread(draft.threads.as_slice(), &t.name)
        }
        BoardLine::Arrive(a) => has_arrival(draft, a),
        _ => false,
    }
}

// ---- room

#[tactic(auto, using(rt_plain::proofs::text::BoardLemmas::last_script))]
fn last_length(threads: &[ThreadDef]) -> usize
    ensures { result ≡ last_length threads.now }
{
    if threads.is_empty() {
        return 0;
    }
    threads[threads.len() - 1].script.len()
}

fn thread_limit(draft: &Draft) -> usize
    ensures { result ≡ thread_limit (board_of draft.now) }
{
    256 - usize::from(draft.shell.is_some()) - usize::from(draft.soft.is_some())
}

fn is_full(draft: &Draft, line: &BoardLine) -> bool
    ensures { result ≡ is_full (board_of draft.now) line.now }
{
    match line {
        BoardLine::Sem(_) => usize::from(draft.limits.sem) <= draft.sems.len(),
        BoardLine::Event(_) => usize::from(draft.limits.event) <= draft.events.len(),
        BoardLine::Mutex(_) => usize::from(draft.limits.mutex) <= draft.mutexes.len(),
        BoardLine::Mailbox(_) => 64 <= draft.mailboxes.len(),
        BoardLine::Queue(_) => 64 <= draft.queues.len(),
        BoardLine::Pool(_) => 64 <= draft.pools.len(),
        BoardLine::Device(_) => 15 <= draft.devices.len(),
        BoardLine::Timer(_) => 64 <= draft.timers.len(),
        BoardLine::Thread(_) => thread_limit(draft) <= draft.threads.len(),
        BoardLine::Statement(_) => 512 <= last_length(draft.threads.as_slice()),
        BoardLine::Arrive(_) => 4096 <= draft.arrivals.len(),
        _ => false,
    }
}

// ---- references

#[tactic(auto, using(rt_plain::proofs::text::BoardLemmas::last_arrival))]
fn last_count(arrivals: &[Arrival]) -> u32
    ensures { result ≡ last_count arrivals.now }
{
    if arrivals.is_empty() {
        return 0;
    }
    arrivals[arrivals.len() - 1].count
}

fn is_beyond(cores: u8, core: Option<CoreNo>) -> bool
    ensures { result ≡ is_beyond cores core }
{
    match core {
        Some(CoreNo(n)) => cores <= n,
        None => false,
    }
}

fn is_event_beyond(cores: u8, event: &Event) -> bool
    ensures { result ≡ is_event_beyond cores event.now }
{
    match event {
        Event::Step(CoreNo(n)) => cores <= *n,
        Event::Tick => false,
    }
}

fn has_event_beyond(cores: u8, events: &[Event]) -> bool
    ensures { result ≡ list_any (is_event_beyond cores) events.now }
{
    events.iter().any(|event| is_event_beyond(cores, event))
}

fn is_schedule_beyond(cores: u8, schedule: &Schedule) -> bool
    ensures { result ≡ is_schedule_beyond cores schedule.now }
{
    match schedule {
        Schedule::Order(events) => has_event_beyond(cores, events.as_slice()),
        _ => false,
    }
}

fn is_timer_call(call: &Call) -> bool
    ensures { result ≡ is_timer_call call.now }
{
    match call {
        Call::Startup(_) => true,
        Call::Resume(_) => true,
        Call::SemRelease(_) => true,
        Call::EventSend(_, _) => true,
        Call::MbUrgent(_, _) => true,
        Call::MqUrgent(_, _) => true,
        Call::TimerStart(_) => true,
        Call::TimerStop(_) => true,
        Call::TimerSet(_, _) => true,
        Call::PmRequest(_) => true,
        Call::PmRelease(_) => true,
        Call::PmRun(_) => true,
        _ => false,
    }
}

/// Whether a timer may do the statement.
fn is_timer_statement(statement: &Stmt) -> bool
    ensures { result ≡ is_timer_statement statement.now }
{
    match statement {
        Stmt::Print(_) => true,
        Stmt::Do(call) => is_timer_call(call),
        _ => false,
    }
}

fn is_barred(call: &Option<Stmt>) -> bool
    ensures { result ≡ is_barred call.now }
{
    match call {
        Some(statement) => !is_timer_statement(statement),
        None => false,
    }
}

fn is_soft(kind: TimerKind) -> bool
    ensures { result ≡ is_soft kind }
{
    match kind {
        TimerKind::OneShot => false,
        TimerKind::Periodic => false,
        TimerKind::SoftOne => true,
        TimerKind::SoftPer => true,
    }
}

fn is_astray(draft: &Draft, line: &BoardLine) -> bool
    ensures { result ≡ is_astray (board_of draft.now) line.now }
{
    match line {
        BoardLine::Schedule(schedule) => is_schedule_beyond(draft.cores, schedule),
        BoardLine::Timer(d) => is_barred(&d.call) || (is_soft(d.kind) && draft.soft.is_none()),
        BoardLine::Thread(t) => is_beyond(draft.cores, t.core),
        BoardLine::Arrive(a) => {
            a.count < last_count(draft.arrivals.as_slice())
                || !(is_console(&a.device) || has_device(draft.devices.as_slice(), &a.device))
        }
        _ => false,
    }
}

/// The line, where it stands rightly.
pub(crate) fn placed(draft: &Draft, line: BoardLine) -> Result<BoardLine, Why>
    requires { 1 ≤ draft.now.lp_h }
    ensures { result ≡ placed (board_of draft.now) line }
{
    if is_twice(draft, &line) {
        return Err(Why::Twice);
    }
    if is_full(draft, &line) {
        return Err(Why::Full);
    }
    if is_astray(draft, &line) {
        return Err(Why::Refer);
    }
    Ok(line)
}
