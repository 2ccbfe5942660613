ghost use Rattle.std.specs.Prelude.{◌≡◌, ◌<◌, ℕ, [], reverse, length, map, IfOk, OnOk, if◌then◌else◌};
ghost use Rattle.rt_plain.specs.kernel.State.{Active, Initial};
ghost use Rattle.rt_plain.specs.kernel.Opening.{new_script_thread, new_sem, new_event, new_mailbox, new_queue};
ghost use Rattle.kernel_tables.specs.Opened.{empty_waits, AreFreeSems, AreFreeEvents, AreEmpty, MayCreateSems, MayCreateEvents, MayCreateMailboxes, MayCreateQueues, MayOpen, HasFittingObjects, bare_tables, first_tables};
ghost use Rattle.ready_list.specs.Ordered.{with_rows};
ghost use Rattle.kernel_tables.specs.Ready.{IsWithin, row_for, started};
ghost use Rattle.kernel_tables.specs.Threads.{plain_thread, row_at, stage_of};

use crate::lists::Lists;
use crate::stage::Stage;
use crate::tables::Tables;
use crate::threads::{Thread, Threads};
use crate::vars::Vars;
use ipc_counts::{EventObj, Sem};
use ipc_queues::{Channels, Mailbox, MsgQueue};
use object_box::{ClassLimits, Objects};
use ready_list::ReadyList;
use rt_base::{Class, Code, ThreadNo, WaitOrder};
use rt_plain::{Board, EventDef, MailboxDef, QueueDef, SemDef, ThreadDef};
use std::alloc::{AllocError, Global};

// Where a thread stands before its first statement.
fn first_stage(is_started: bool) -> Stage
    ensures { stage_of result ≡ (if is_started then Active else Initial) }
{
    if is_started {
        Stage::Active
    } else {
        Stage::Initial
    }
}

// A thread of the board before its first statement.
fn thread_of(def: &ThreadDef) -> Thread
    ensures { plain_thread result ≡ new_script_thread def.now }
{
    Thread {
        name: def.name.copy(),
        base: def.prio,
        core: def.core,
        stage: first_stage(def.started),
        retry: None,
        text: None,
        vars: Vars {
            slice: def.slice,
            left: def.slice,
            next: 1,
            code: Code::Ok,
            value: 0,
            counter: 0,
            locks: 0,
            marked: false,
        },
    }
}

// The threads of the board before their first statements.
fn threads_of(alloc: Global, defs: &[ThreadDef]) -> Result<Vec<Thread>, AllocError>
    ensures { IfOk result (λ threads. map plain_thread threads.items ≡ map new_script_thread defs.now) }
{
    let mut threads = Vec::with_capacity(alloc, defs.len())?;
    for def in defs {
        threads.push_reserved(thread_of(def));
    }
    Ok(threads)
}

impl Threads {
    // The started threads go to the end of the ready list, in thread order. Nobody is ready before.
    fn start(&self, ready: &mut ReadyList)
        requires none { ready.old.rows ≡ [] }
        requires count { ready.old.threads ≡ length self.now }
        requires within { (t : ℕ) → t < length self.now → IsWithin ready.old (row_at self.now t) }
        ensures { ready.new ≡ with_rows ready.old (map (row_for self.now) (started self.now (length self.now))) }
    {
        for i in 0..self.len() {
            let t = ThreadNo(i as u16);
            if !self.is_initial(t) {
                ready.add_tail(t, self.base(t), self.core(t));
            }
        }
    }
}

// A semaphore that nobody waits for, with room for the threads below a number.
fn free_sem(alloc: Global, threads: u16) -> Result<Sem, AllocError>
    ensures { IfOk result (λ sem. sem.waiters ≡ empty_waits threads) }
{
    Sem::new(alloc, 0, WaitOrder::Fifo, threads)
}

// So many semaphores that nobody waits for, with room for the threads below a number.
fn free_sems(alloc: Global, count: u16, threads: u16) -> Result<Vec<Sem>, AllocError>
    ensures { IfOk result (λ sems. AreFreeSems sems.items count threads) }
{
    let mut sems = Vec::with_capacity(alloc, count as usize)?;
    for _ in 0..count {
        sems.push_reserved(free_sem(alloc, threads)?);
    }
    Ok(sems)
}

// So many event objects that nobody waits for, with room for the threads below a number.
fn free_events(alloc: Global, count: u16, threads: u16) -> Result<Vec<EventObj>, AllocError>
    ensures { IfOk result (λ events. AreFreeEvents events.items count threads) }
{
    let mut events = Vec::with_capacity(alloc, count as usize)?;
    for _ in 0..count {
        events.push_reserved(EventObj::new(alloc, WaitOrder::Fifo, threads)?);
    }
    Ok(events)
}

// For how many objects of each class there is room, and for the threads below which number.
#[derive(Clone, Copy)]
struct Room {
    sems: u16,
    events: u16,
    mailboxes: u16,
    queues: u16,
    threads: u16,
}

impl Lists {
    // No objects, with room for so many of each class, and for the threads below a number in each wait list.
    fn new(alloc: Global, room: &Room) -> Result<Lists, AllocError>
        ensures { IfOk result (λ l. AreEmpty l room.now.sems room.now.events room.now.mailboxes room.now.queues room.now.threads) }
    {
        let limits = ClassLimits {
            thread: 0,
            sem: room.sems,
            event: room.events,
            mutex: 0,
            mailbox: room.mailboxes,
            msgqueue: room.queues,
            timer: 0,
            device: 0,
        };
        let sems = free_sems(alloc, room.sems, room.threads)?;
        let events = free_events(alloc, room.events, room.threads)?;
        let channels = Channels::new(alloc, room.mailboxes, room.queues, room.threads)?;
        let objects = Objects::new(alloc, limits)?;
        let _ = objects.count(Class::Sem);
        let _ = objects.count(Class::Event);
        let _ = objects.count(Class::Mailbox);
        let _ = objects.count(Class::MsgQueue);
        Ok(Lists {
            objects,
            sems,
            events,
            channels,
        })
    }
}

impl Tables {
    // The semaphores of the board, in its order.
    fn create_sems(&mut self, defs: &[SemDef])
        requires { MayCreateSems self.old defs.now }
        ensures { self.new ≡ record self.old { sems = reverse (map new_sem defs.now) } }
    {
        for def in defs {
            let _ = self.create_sem(def.name.copy(), def.value, def.order);
        }
    }

    // The event objects of the board, in its order.
    fn create_events(&mut self, defs: &[EventDef])
        requires { MayCreateEvents self.old defs.now }
        ensures { self.new ≡ record self.old { events = reverse (map new_event defs.now) } }
    {
        for def in defs {
            let _ = self.create_event(def.name.copy(), def.order);
        }
    }

    // The mailboxes of the board, in its order.
    fn create_mailboxes(&mut self, alloc: Global, defs: &[MailboxDef]) -> Result<(), AllocError>
        requires { MayCreateMailboxes self.old defs.now }
        ensures { OnOk result (self.new ≡ record self.old { mailboxes = reverse (map new_mailbox defs.now) }) }
    {
        for def in defs {
            let mailbox = Mailbox::new(alloc, def.size)?;
            let _ = self.create_mailbox(def.name.copy(), mailbox, def.order);
        }
        Ok(())
    }

    // The message queues of the board, in its order.
    fn create_queues(&mut self, alloc: Global, defs: &[QueueDef]) -> Result<(), AllocError>
        requires { MayCreateQueues self.old defs.now }
        ensures { OnOk result (self.new ≡ record self.old { queues = reverse (map new_queue defs.now) }) }
    {
        for def in defs {
            let queue = MsgQueue::new(alloc, def.max, def.size)?;
            let _ = self.create_queue(def.name.copy(), queue, def.order);
        }
        Ok(())
    }

    // The objects of a board, where there are none yet.
    fn create_objects(&mut self, alloc: Global, board: &Board) -> Result<(), AllocError>
        requires bare { self.old ≡ bare_tables board.now }
        requires fitting { HasFittingObjects board.now }
        ensures { OnOk result (self.new ≡ first_tables board.now) }
    {
        self.create_sems(board.sems.as_slice());
        self.create_events(board.events.as_slice());
        self.create_mailboxes(alloc, board.mailboxes.as_slice())?;
        self.create_queues(alloc, board.queues.as_slice())
    }

    /// The threads and the objects of a board as it opens, with room for as many objects of each class as it says. No
    /// other call takes memory. The one refusal is want of memory.
    pub fn open(alloc: Global, board: &Board) -> Result<Tables, AllocError>
        requires { MayOpen board.now }
        ensures { IfOk result (λ k. k ≡ first_tables board.now) }
    {
        let threads = Threads::new(threads_of(alloc, board.threads.as_slice())?);
        let count = threads.len() as u16;
        let room = Room {
            sems: board.limits.sem,
            events: board.limits.event,
            mailboxes: board.mailboxes.as_slice().len() as u16,
            queues: board.queues.as_slice().len() as u16,
            threads: count,
        };
        let lists = Lists::new(alloc, &room)?;
        let mut ready = ReadyList::new(alloc, count, board.cores, board.levels)?;
        threads.start(&mut ready);
        let mut tables = Tables {
            threads,
            lists,
            ready,
        };
        tables.create_objects(alloc, board)?;
        Ok(tables)
    }
}
