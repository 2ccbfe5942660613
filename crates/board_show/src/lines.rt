//! Writing whole lines.
ghost use Rattle.std.specs.Prelude.{◌≡◌, ◌++◌, ◌∷◌, OnOk};
ghost use Rattle.std.specs.List.{flat_map};
ghost use Rattle.rt_plain.specs.text.Tails.{event_text, limit_word};
ghost use Rattle.rt_plain.specs.text.Canon.{line_of_thread, thread_lines};
ghost use Rattle.rt_plain.specs.declared.board_line.BoardLine.TheVariants as said;
ghost use Rattle.board_show.specs.Writing.{order_line, shown, timer_call_text, timer_fields, whole_line, whole_lines};

use crate::fields::{
    armed, byte, core, half, indicated, name, number, order, power, prio, started, text, timer_kind,
};
use crate::shown::Shown;
use crate::statements::put_statement;
use crate::writing::{put, put_line, put_number, put_words};
use rt_base::{Event, List};
use rt_plain::{
    Arrival, DeviceDef, EventDef, LimitClass, MailboxDef, MutexDef, PoolDef, QueueDef, Schedule,
    SemDef, Stmt, ThreadDef, TimerDef,
};
use std::alloc::AllocError;

#[tactic(auto, unfolding(crate::specs::Writing::whole_line))]
fn put_sem(out: &mut List<u8>, def: &SemDef) -> Result<(), AllocError>
    ensures { OnOk result (out.new ≡ out.old ++ whole_line (said.Sem def.now)) }
{
    put_line(
        out,
        b"sem",
        &[name(&def.name), half(&def.value), order(&def.order)],
    )
}

pub(crate) fn put_sems(out: &mut List<u8>, defs: &[SemDef]) -> Result<(), AllocError>
    ensures { OnOk result (out.new ≡ out.old ++ flat_map (λ def. whole_line (said.Sem def)) defs.now) }
{
    for def in defs {
        put_sem(out, def)?;
    }
    Ok(())
}

#[tactic(auto, unfolding(crate::specs::Writing::whole_line))]
fn put_event(out: &mut List<u8>, def: &EventDef) -> Result<(), AllocError>
    ensures { OnOk result (out.new ≡ out.old ++ whole_line (said.Event def.now)) }
{
    put_line(out, b"event", &[name(&def.name), order(&def.order)])
}

pub(crate) fn put_events(out: &mut List<u8>, defs: &[EventDef]) -> Result<(), AllocError>
    ensures { OnOk result (out.new ≡ out.old ++ flat_map (λ def. whole_line (said.Event def)) defs.now) }
{
    for def in defs {
        put_event(out, def)?;
    }
    Ok(())
}

#[tactic(auto, unfolding(crate::specs::Writing::whole_line))]
fn put_mutex(out: &mut List<u8>, def: &MutexDef) -> Result<(), AllocError>
    ensures { OnOk result (out.new ≡ out.old ++ whole_line (said.Mutex def.now)) }
{
    put_line(out, b"mutex", &[name(&def.name), prio(&def.ceiling)])
}

pub(crate) fn put_mutexes(out: &mut List<u8>, defs: &[MutexDef]) -> Result<(), AllocError>
    ensures { OnOk result (out.new ≡ out.old ++ flat_map (λ def. whole_line (said.Mutex def)) defs.now) }
{
    for def in defs {
        put_mutex(out, def)?;
    }
    Ok(())
}

#[tactic(auto, unfolding(crate::specs::Writing::whole_line))]
fn put_mailbox(out: &mut List<u8>, def: &MailboxDef) -> Result<(), AllocError>
    ensures { OnOk result (out.new ≡ out.old ++ whole_line (said.Mailbox def.now)) }
{
    put_line(
        out,
        b"mailbox",
        &[name(&def.name), byte(&def.size), order(&def.order)],
    )
}

pub(crate) fn put_mailboxes(out: &mut List<u8>, defs: &[MailboxDef]) -> Result<(), AllocError>
    ensures { OnOk result (out.new ≡ out.old ++ flat_map (λ def. whole_line (said.Mailbox def)) defs.now) }
{
    for def in defs {
        put_mailbox(out, def)?;
    }
    Ok(())
}

#[tactic(auto, unfolding(crate::specs::Writing::whole_line))]
fn put_queue(out: &mut List<u8>, def: &QueueDef) -> Result<(), AllocError>
    ensures { OnOk result (out.new ≡ out.old ++ whole_line (said.Queue def.now)) }
{
    put_line(
        out,
        b"msgqueue",
        &[
            name(&def.name),
            byte(&def.max),
            byte(&def.size),
            order(&def.order),
        ],
    )
}

pub(crate) fn put_queues(out: &mut List<u8>, defs: &[QueueDef]) -> Result<(), AllocError>
    ensures { OnOk result (out.new ≡ out.old ++ flat_map (λ def. whole_line (said.Queue def)) defs.now) }
{
    for def in defs {
        put_queue(out, def)?;
    }
    Ok(())
}

#[tactic(auto, unfolding(crate::specs::Writing::whole_line))]
fn put_pool(out: &mut List<u8>, def: &PoolDef) -> Result<(), AllocError>
    ensures { OnOk result (out.new ≡ out.old ++ whole_line (said.Pool def.now)) }
{
    put_line(
        out,
        b"mempool",
        &[
            name(&def.name),
            byte(&def.blocks),
            half(&def.size),
            order(&def.order),
        ],
    )
}

pub(crate) fn put_pools(out: &mut List<u8>, defs: &[PoolDef]) -> Result<(), AllocError>
    ensures { OnOk result (out.new ≡ out.old ++ flat_map (λ def. whole_line (said.Pool def)) defs.now) }
{
    for def in defs {
        put_pool(out, def)?;
    }
    Ok(())
}

#[tactic(auto, unfolding(crate::specs::Writing::whole_line))]
fn put_device(out: &mut List<u8>, def: &DeviceDef) -> Result<(), AllocError>
    ensures { OnOk result (out.new ≡ out.old ++ whole_line (said.Device def.now)) }
{
    put_line(
        out,
        b"device",
        &[
            name(&def.name),
            byte(&def.rx),
            byte(&def.tx),
            byte(&def.rate),
            power(&def.pm),
            indicated(&def.ind),
        ],
    )
}

pub(crate) fn put_devices(out: &mut List<u8>, defs: &[DeviceDef]) -> Result<(), AllocError>
    ensures { OnOk result (out.new ≡ out.old ++ flat_map (λ def. whole_line (said.Device def)) defs.now) }
{
    for def in defs {
        put_device(out, def)?;
    }
    Ok(())
}

#[tactic(auto, unfolding(crate::specs::Writing::whole_line))]
fn put_arrival(out: &mut List<u8>, def: &Arrival) -> Result<(), AllocError>
    ensures { OnOk result (out.new ≡ out.old ++ whole_line (said.Arrive def.now)) }
{
    put_line(
        out,
        b"arrive",
        &[number(&def.count), name(&def.device), text(&def.text)],
    )
}

pub(crate) fn put_arrivals(out: &mut List<u8>, defs: &[Arrival]) -> Result<(), AllocError>
    ensures { OnOk result (out.new ≡ out.old ++ flat_map (λ def. whole_line (said.Arrive def)) defs.now) }
{
    for def in defs {
        put_arrival(out, def)?;
    }
    Ok(())
}

fn limit_class(class: LimitClass) -> Shown<'static>
    ensures { shown result ≡ limit_word class }
{
    match class {
        LimitClass::Sem => Shown::Word(b"sem"),
        LimitClass::Event => Shown::Word(b"event"),
        LimitClass::Mutex => Shown::Word(b"mutex"),
    }
}

#[tactic(auto, unfolding(crate::specs::Writing::whole_line))]
pub(crate) fn put_limit(out: &mut List<u8>, class: LimitClass, n: &u16) -> Result<(), AllocError>
    ensures { OnOk result (out.new ≡ out.old ++ whole_line (said.Limit class n.now)) }
{
    put_line(out, b"limit", &[limit_class(class), half(n)])
}

fn put_event_word(out: &mut List<u8>, event: Event) -> Result<(), AllocError>
    ensures { OnOk result (out.new ≡ out.old ++ 32 ∷ event_text event) }
{
    match event {
        Event::Step(core) => {
            put(out, b" c")?;
            put_number(out, u64::from(core.0))
        }
        Event::Tick => put(out, b" t"),
    }
}

fn put_event_words(out: &mut List<u8>, events: &[Event]) -> Result<(), AllocError>
    ensures { OnOk result (out.new ≡ out.old ++ flat_map (λ event. 32 ∷ event_text event) events.now) }
{
    for event in events {
        put_event_word(out, *event)?;
    }
    Ok(())
}

#[tactic(auto, using(crate::proofs::Joins::order_is))]
fn put_order(out: &mut List<u8>, events: &[Event]) -> Result<(), AllocError>
    ensures { OnOk result (out.new ≡ out.old ++ order_line events.now) }
{
    put(out, b"schedule order")?;
    put_event_words(out, events)?;
    put(out, b"\n")
}

#[tactic(auto, unfolding(crate::specs::Writing::whole_line))]
pub(crate) fn put_schedule(out: &mut List<u8>, schedule: &Schedule) -> Result<(), AllocError>
    ensures { OnOk result (out.new ≡ out.old ++ whole_line (said.Schedule schedule.now)) }
{
    match schedule {
        Schedule::Round => put_line(out, b"schedule", &[Shown::Word(b"round")]),
        Schedule::Seed(seed) => put_line(out, b"schedule", &[Shown::Word(b"seed"), number(seed)]),
        Schedule::Order(events) => put_order(out, events.as_slice()),
    }
}

#[tactic(auto, unfolding(crate::specs::Writing::timer_call_text, crate::specs::Writing::statement_text))]
fn put_timer_call(out: &mut List<u8>, call: &Option<Stmt>) -> Result<(), AllocError>
    ensures { OnOk result (out.new ≡ out.old ++ timer_call_text call.now) }
{
    match call {
        None => put(out, b"-"),
        Some(statement) => put_statement(out, statement),
    }
}

fn put_timer_fields(out: &mut List<u8>, def: &TimerDef) -> Result<(), AllocError>
    ensures { OnOk result (out.new ≡ out.old ++ timer_fields def.now) }
{
    put_words(
        out,
        b"timer",
        &[
            name(&def.name),
            timer_kind(&def.kind),
            number(&def.time),
            armed(&def.started),
        ],
    )
}

#[tactic(auto, using(crate::proofs::Joins::timer_is))]
fn put_timer(out: &mut List<u8>, def: &TimerDef) -> Result<(), AllocError>
    ensures { OnOk result (out.new ≡ out.old ++ whole_line (said.Timer def.now)) }
{
    put_timer_fields(out, def)?;
    put(out, b" ")?;
    put_timer_call(out, &def.call)?;
    put(out, b"\n")
}

pub(crate) fn put_timers(out: &mut List<u8>, defs: &[TimerDef]) -> Result<(), AllocError>
    ensures { OnOk result (out.new ≡ out.old ++ flat_map (λ def. whole_line (said.Timer def)) defs.now) }
{
    for def in defs {
        put_timer(out, def)?;
    }
    Ok(())
}

#[tactic(auto, using(crate::proofs::Joins::statement_is))]
fn put_statement_line(out: &mut List<u8>, statement: &Stmt) -> Result<(), AllocError>
    ensures { OnOk result (out.new ≡ out.old ++ whole_line (said.Statement statement.now)) }
{
    put(out, b"  ")?;
    put_statement(out, statement)?;
    put(out, b"\n")
}

fn put_script(out: &mut List<u8>, script: &[Stmt]) -> Result<(), AllocError>
    ensures { OnOk result (out.new ≡ out.old ++ flat_map (λ statement. whole_line (said.Statement statement)) script.now) }
{
    for statement in script {
        put_statement_line(out, statement)?;
    }
    Ok(())
}

#[tactic(auto, unfolding(crate::specs::Writing::whole_line))]
fn put_thread_line(out: &mut List<u8>, def: &ThreadDef) -> Result<(), AllocError>
    ensures { OnOk result (out.new ≡ out.old ++ whole_line (said.Thread (line_of_thread def.now))) }
{
    put_line(
        out,
        b"thread",
        &[
            name(&def.name),
            prio(&def.prio),
            byte(&def.slice),
            core(&def.core),
            started(&def.started),
        ],
    )
}

#[tactic(auto, using(crate::proofs::Joins::thread_is))]
fn put_thread(out: &mut List<u8>, def: &ThreadDef) -> Result<(), AllocError>
    ensures { OnOk result (out.new ≡ out.old ++ whole_lines (thread_lines def.now)) }
{
    put_thread_line(out, def)?;
    put_script(out, def.script.as_slice())
}

pub(crate) fn put_threads(out: &mut List<u8>, defs: &[ThreadDef]) -> Result<(), AllocError>
    ensures { OnOk result (out.new ≡ out.old ++ flat_map (λ def. whole_lines (thread_lines def)) defs.now) }
{
    for def in defs {
        put_thread(out, def)?;
    }
    Ok(())
}
