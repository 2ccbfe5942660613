ghost use Rattle.std.specs.Prelude.{◌≡◌, ◌-◌, ◌<◌, ◌≤◌, ◌&&◌, [], length, map, true, false, is_some, unwrap_or, IfSome, None};
ghost use Rattle.std.specs.List.{position_from};
ghost use Rattle.rt_plain.specs.kernel.State.{is_closed, is_initial, is_suspended, Closed};
ghost use Rattle.rt_plain.specs.kernel.Sound.{is_waiting};
ghost use Rattle.rt_plain.specs.kernel.DeviceCalls.{waits_at_console};
ghost use Rattle.rt_plain.specs.kernel.Due.{timeout_code};
ghost use Rattle.rt_plain.specs.kernel.Rows.{state_at};
ghost use Rattle.kernel_tables.specs.Repeated.{has_call, is_repeated};
ghost use Rattle.kernel_tables.specs.Tabled.{woken_row, given_row};
ghost use Rattle.kernel_tables.specs.Threads.{stage_of, plain_thread, with_row, row_at, vars_of, with_vars, is_found, retried_row};

use crate::retry::Retry;
use crate::stage::Stage;
use crate::vars::Vars;
use rt_base::{Code, CoreNo, Name, Prio, Text, ThreadNo};
use rt_plain::ThreadState;
use std::marker::Model;
use std::mem;

/// A thread: its priority, the core that it is bound to, where it stands, what it has to make again, its last text, and the rest.
#[derive(Drop)]
pub struct Thread {
    pub name: Name,
    pub base: Prio,
    pub core: Option<CoreNo>,
    pub stage: Stage,
    pub retry: Option<Retry>,
    pub text: Option<Text>,
    pub vars: Vars,
}

impl Thread {
    // Whether it is the row of a thread of this name that hasn't ended.
    fn is_found(&self, name: &[u8]) -> bool
        ensures { result ≡ is_found name.now (plain_thread self.now) }
    {
        !self.stage.is_closed() && self.name.bytes() == name
    }
}

// Where the row of a thread of this name stands that hasn't ended.
fn position(threads: &[Thread], name: &[u8]) -> Option<usize>
    ensures found { result ≡ position_from (λ row. is_found name.now (plain_thread row)) 0 threads.now }
    ensures within { IfSome result (λ place. place < length threads.now) }
{
    threads.iter().position(|row| row.is_found(name))
}

// Where the row of a thread stands that waits for bytes of the console.
fn console_place(threads: &[Thread]) -> Option<usize>
    ensures found { result ≡ position_from (λ row. waits_at_console (plain_thread row).stage) 0 threads.now }
    ensures within { IfSome result (λ place. place < length threads.now) }
{
    threads.iter().position(|row| row.stage.waits_at_console())
}

/// The threads by number. Contracts see them as the plain threads.
#[derive(Drop)]
pub struct Threads {
    items: Vec<Thread>,
}

impl Model for Threads {
    ghost use Rattle.std.specs.Prelude.{List, map, length, ◌≤◌};
    ghost use Rattle.rt_plain.specs.kernel.State.{Thread as PlainThread};
    ghost use Rattle.kernel_tables.specs.Threads.{plain_thread};

    ghost Value = { List PlainThread };

    ghost view = { λ r. map plain_thread r.items.items };

    ghost invariant = { λ r. length r.items.items ≤ 256 };
}

impl Threads {
    // The threads by number, at most 256.
    pub(crate) fn new(items: Vec<Thread>) -> Threads
        requires { length items.items ≤ 256 }
        ensures { result ≡ map plain_thread items.items }
    {
        Threads { items }
    }

    /// How many threads there are.
    pub fn len(&self) -> usize
        ensures len { result ≡ length self.now }
        ensures few { result ≤ 256 }
    {
        self.items.len()
    }

    /// The thread of this name which hasn't ended.
    pub fn find(&self, name: &Name) -> Option<ThreadNo>
        ensures found { result ≡ position_from (is_found name.now) 0 self.now }
        ensures there { IfSome result (λ t. t < length self.now) }
    {
        let place = position(&self.items, name.bytes())?;
        Some(ThreadNo(place as u16))
    }

    /// The thread that waits for bytes of the console: `None` exactly where none does.
    pub fn console_waiter(&self) -> Option<ThreadNo>
        ensures found { result ≡ position_from (λ row. waits_at_console row.stage) 0 self.now }
        ensures there { IfSome result (λ t. t < length self.now) }
    {
        let place = console_place(&self.items)?;
        Some(ThreadNo(place as u16))
    }

    /// The name of a thread.
    pub fn name(&self, t: ThreadNo) -> Name
        requires { t < length self.now }
        ensures { result ≡ (row_at self.now t).name }
    {
        self.items[t.0 as usize].name.copy()
    }

    /// The base priority of a thread.
    pub fn base(&self, t: ThreadNo) -> Prio
        requires { t < length self.now }
        ensures { result ≡ (row_at self.now t).base }
    {
        self.items[t.0 as usize].base
    }

    /// The core that a thread is bound to, if any.
    pub fn core(&self, t: ThreadNo) -> Option<CoreNo>
        requires { t < length self.now }
        ensures { result ≡ (row_at self.now t).core }
    {
        self.items[t.0 as usize].core
    }

    /// The ticks left of the slice of a thread.
    pub fn left(&self, t: ThreadNo) -> u8
        requires { t < length self.now }
        ensures { result ≡ (row_at self.now t).left }
    {
        self.items[t.0 as usize].vars.left
    }

    /// The number of the statement that a thread does next.
    pub fn next(&self, t: ThreadNo) -> u16
        requires { t < length self.now }
        ensures { result ≡ (row_at self.now t).next }
    {
        self.items[t.0 as usize].vars.next
    }

    /// The last code of a thread.
    pub fn code(&self, t: ThreadNo) -> Code
        requires { t < length self.now }
        ensures { result ≡ (row_at self.now t).code }
    {
        self.items[t.0 as usize].vars.code
    }

    /// The last value of a thread.
    pub fn value(&self, t: ThreadNo) -> u32
        requires { t < length self.now }
        ensures { result ≡ (row_at self.now t).value }
    {
        self.items[t.0 as usize].vars.value
    }

    /// The last text of a thread, at most 64 bytes.
    pub fn text(&self, t: ThreadNo) -> &[u8]
        requires { t < length self.now }
        ensures text { result.now ≡ (row_at self.now t).text }
        ensures short { length result.now ≤ 64 }
    {
        match &self.items[t.0 as usize].text {
            Some(text) => text.bytes(),
            None => b"",
        }
    }

    /// Whether a thread has something to go for again.
    pub fn retries(&self, t: ThreadNo) -> bool
        requires { t < length self.now }
        ensures { result ≡ is_some (row_at self.now t).retry }
    {
        self.items[t.0 as usize].retry.is_some()
    }

    /// Whether a thread has a call to make again.
    pub fn has_call(&self, t: ThreadNo) -> bool
        requires { t < length self.now }
        ensures { result ≡ has_call (row_at self.now t).retry }
    {
        match &self.items[t.0 as usize].retry {
            Some(retry) => retry.is_call(),
            None => false,
        }
    }

    /// How many scheduler locks a thread has.
    pub fn locks(&self, t: ThreadNo) -> u8
        requires { t < length self.now }
        ensures { result ≡ (row_at self.now t).locks }
    {
        self.items[t.0 as usize].vars.locks
    }

    /// Whether a thread has the mark.
    pub fn is_marked(&self, t: ThreadNo) -> bool
        requires { t < length self.now }
        ensures { result ≡ (row_at self.now t).marked }
    {
        self.items[t.0 as usize].vars.marked
    }

    /// The variables of a thread.
    pub fn vars(&self, t: ThreadNo) -> Vars
        requires { t < length self.now }
        ensures { result ≡ vars_of (row_at self.now t) }
    {
        self.items[t.0 as usize].vars
    }

    /// Whether a thread has ended.
    pub fn is_closed(&self, t: ThreadNo) -> bool
        requires { t < length self.now }
        ensures { result ≡ is_closed (row_at self.now t).stage }
    {
        self.items[t.0 as usize].stage.is_closed()
    }

    /// Whether a thread isn't started.
    pub fn is_initial(&self, t: ThreadNo) -> bool
        requires { t < length self.now }
        ensures { result ≡ is_initial (row_at self.now t).stage }
    {
        self.items[t.0 as usize].stage.is_initial()
    }

    /// Whether a thread is suspended.
    pub fn is_suspended(&self, t: ThreadNo) -> bool
        requires { t < length self.now }
        ensures { result ≡ is_suspended (row_at self.now t).stage }
    {
        self.items[t.0 as usize].stage.is_suspended()
    }

    /// The code with which the wait of a thread ends at its due moment.
    pub fn timeout_code(&self, t: ThreadNo) -> Code
        requires { t < length self.now }
        ensures { result ≡ timeout_code (row_at self.now t).stage }
    {
        self.items[t.0 as usize].stage.timeout_code()
    }

    /// Whether a thread waits.
    pub fn is_waiting(&self, t: ThreadNo) -> bool
        requires { t < length self.now }
        ensures { result ≡ is_waiting (row_at self.now t).stage }
    {
        self.items[t.0 as usize].stage.is_waiting()
    }

    // Where a thread stands.
    pub(crate) fn stage(&self, t: ThreadNo) -> &Stage
        requires { t < length self.now }
        ensures { stage_of result.now ≡ (row_at self.now t).stage }
    {
        &self.items[t.0 as usize].stage
    }

    /// What the table of threads says of a thread, with whether it runs.
    pub fn state(&self, t: ThreadNo, running: bool) -> ThreadState
        requires { t < length self.now }
        ensures { result ≡ state_at running (row_at self.now t).stage }
    {
        self.items[t.0 as usize].stage.state(running)
    }

    // The thread stands somewhere else.
    pub(crate) fn stand(&mut self, t: ThreadNo, stage: Stage)
        requires { t < length self.old }
        ensures { self.new ≡ with_row self.old t (λ row. record row { stage = stage_of stage }) }
    {
        let row = &mut self.items[t.0 as usize];
        row.stage = stage;
    }

    // The thread has ended, and has nothing to do again.
    pub(crate) fn close(&mut self, t: ThreadNo)
        requires { t < length self.old }
        ensures { self.new ≡ with_row self.old t (λ row. record row { stage = Closed; retry = None }) }
    {
        let row = &mut self.items[t.0 as usize];
        row.stage = Stage::Closed;
        row.retry = None;
    }

    // The thread has these variables.
    pub(crate) fn set_vars(&mut self, t: ThreadNo, vars: Vars)
        requires { t < length self.old }
        ensures { self.new ≡ with_row self.old t (with_vars vars) }
    {
        let row = &mut self.items[t.0 as usize];
        row.vars = vars;
    }

    // The thread has this last text, an empty one where none is given.
    pub(crate) fn set_text(&mut self, t: ThreadNo, text: Option<Text>)
        requires { t < length self.old }
        ensures { self.new ≡ with_row self.old t (λ row. record row { text = unwrap_or text [] }) }
    {
        let row = &mut self.items[t.0 as usize];
        row.text = text;
    }

    // What the thread has to make again, which it then has no more.
    pub(crate) fn take_retry(&mut self, t: ThreadNo) -> Option<Retry>
        requires { t < length self.old }
        ensures retry { result ≡ (row_at self.old t).retry }
        ensures threads { self.new ≡ with_row self.old t (λ row. record row { retry = None }) }
    {
        let row = &mut self.items[t.0 as usize];
        row.retry.take()
    }

    // The thread, which waits in a call on a mailbox or a message queue, for the console or for a work, wakes to go for
    // that again. Its wait was due at a moment, if at any.
    pub(crate) fn retry(&mut self, t: ThreadNo, due: Option<u64>)
        requires there { t < length self.old }
        requires waits { is_repeated (row_at self.old t).stage ≡ true }
        ensures { self.new ≡ with_row self.old t (retried_row due) }
    {
        let row = &mut self.items[t.0 as usize];
        let stage = mem::replace(&mut row.stage, Stage::Active);
        row.retry = stage.retry(due);
    }

    // The thread has another base priority.
    pub(crate) fn set_base(&mut self, t: ThreadNo, base: Prio)
        requires { t < length self.old }
        ensures { self.new ≡ with_row self.old t (λ row. record row { base = base }) }
    {
        let row = &mut self.items[t.0 as usize];
        row.base = base;
    }

    // The thread wakes with a code.
    pub(crate) fn wake(&mut self, t: ThreadNo, code: Code)
        requires { t < length self.old }
        ensures { self.new ≡ with_row self.old t (woken_row code) }
    {
        let row = &mut self.items[t.0 as usize];
        row.vars.code = code;
        row.stage = Stage::Active;
    }

    // The thread wakes with the flags that it got.
    pub(crate) fn give(&mut self, t: ThreadNo, flags: u32)
        requires { t < length self.old }
        ensures { self.new ≡ with_row self.old t (given_row flags) }
    {
        let row = &mut self.items[t.0 as usize];
        row.vars.value = flags;
        row.vars.code = Code::Ok;
        row.stage = Stage::Active;
    }
}
