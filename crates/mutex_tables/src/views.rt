ghost use Rattle.std.specs.Prelude.{◌≡◌, ◌<◌, ◌≤◌, IfSome, Some, false, is_some, length, slice_get};
ghost use Rattle.std.specs.List.{position_from};
ghost use Rattle.rt_plain.specs.kernel.DeviceCalls.{waits_at_console};
ghost use Rattle.rt_plain.specs.kernel.Due.{timeout_code};
ghost use Rattle.rt_plain.specs.kernel.Priority.{awaited_mutex};
ghost use Rattle.rt_plain.specs.kernel.Rows.{state_at};
ghost use Rattle.rt_plain.specs.kernel.Sound.{is_waiting};
ghost use Rattle.rt_plain.specs.kernel.State.{find_thread, is_closed, is_initial, is_suspended};
ghost use Rattle.kernel_tables.specs.Shown.{shown};
ghost use Rattle.kernel_tables.specs.Repeated.{has_call};
ghost use Rattle.kernel_tables.specs.Threads.{row_at};
ghost use Rattle.mutex_tables.specs.MutexTabled.{plain_state};

use crate::tables::MutexTables;
use rt_base::{Code, CoreNo, Name, ThreadNo};
use rt_plain::ThreadState;

impl MutexTables {
    /// The thread of this name which hasn't ended.
    pub fn find(&self, name: &Name) -> Option<ThreadNo>
        ensures found { result ≡ find_thread (plain_state self.now) name.now }
        ensures there { IfSome result (λ t. t < length self.now.threads) }
    {
        self.tables.threads().find(name)
    }

    /// The thread that waits for bytes of the console: `None` exactly where none does.
    pub fn console_waiter(&self) -> Option<ThreadNo>
        ensures found { result ≡ position_from (λ row. waits_at_console row.stage) 0 self.now.threads }
        ensures there { IfSome result (λ t. t < length self.now.threads) }
    {
        self.tables.threads().console_waiter()
    }

    /// The core that a thread is bound to, if any.
    pub fn core(&self, t: ThreadNo) -> Option<CoreNo>
        requires { t < length self.now.threads }
        ensures { result ≡ (row_at self.now.threads t).core }
    {
        self.tables.threads().core(t)
    }

    /// The ticks left of the slice of a thread.
    pub fn left(&self, t: ThreadNo) -> u8
        requires { t < length self.now.threads }
        ensures { result ≡ (row_at self.now.threads t).left }
    {
        self.tables.threads().left(t)
    }

    /// The number of the statement that a thread does next.
    pub fn next(&self, t: ThreadNo) -> u16
        requires { t < length self.now.threads }
        ensures { result ≡ (row_at self.now.threads t).next }
    {
        self.tables.threads().next(t)
    }

    /// The last code of a thread.
    pub fn code(&self, t: ThreadNo) -> Code
        requires { t < length self.now.threads }
        ensures { result ≡ (row_at self.now.threads t).code }
    {
        self.tables.threads().code(t)
    }

    /// The last value of a thread.
    pub fn value(&self, t: ThreadNo) -> u32
        requires { t < length self.now.threads }
        ensures { result ≡ (row_at self.now.threads t).value }
    {
        self.tables.threads().value(t)
    }

    /// The last text of a thread, an empty one where it has none.
    pub fn text(&self, t: ThreadNo) -> &[u8]
        requires { t < length self.now.threads }
        ensures text { result.now ≡ (row_at self.now.threads t).text }
        ensures short { length result.now ≤ 64 }
    {
        self.tables.threads().text(t)
    }

    /// Whether a thread has a call to make again.
    pub fn retries(&self, t: ThreadNo) -> bool
        requires { t < length self.now.threads }
        ensures { result ≡ is_some (row_at self.now.threads t).retry }
    {
        self.tables.threads().retries(t)
    }

    /// Whether a thread has a call to make again.
    pub fn has_call(&self, t: ThreadNo) -> bool
        requires { t < length self.now.threads }
        ensures { result ≡ has_call (row_at self.now.threads t).retry }
    {
        self.tables.threads().has_call(t)
    }

    /// How many scheduler locks a thread has.
    pub fn locks(&self, t: ThreadNo) -> u8
        requires { t < length self.now.threads }
        ensures { result ≡ (row_at self.now.threads t).locks }
    {
        self.tables.threads().locks(t)
    }

    /// Whether a thread has the mark.
    pub fn is_marked(&self, t: ThreadNo) -> bool
        requires { t < length self.now.threads }
        ensures { result ≡ (row_at self.now.threads t).marked }
    {
        self.tables.threads().is_marked(t)
    }

    /// Whether a thread has ended.
    pub fn is_closed(&self, t: ThreadNo) -> bool
        requires { t < length self.now.threads }
        ensures { result ≡ is_closed (row_at self.now.threads t).stage }
    {
        self.tables.threads().is_closed(t)
    }

    /// Whether a thread isn't started.
    pub fn is_initial(&self, t: ThreadNo) -> bool
        requires { t < length self.now.threads }
        ensures { result ≡ is_initial (row_at self.now.threads t).stage }
    {
        self.tables.threads().is_initial(t)
    }

    /// Whether a thread is suspended.
    pub fn is_suspended(&self, t: ThreadNo) -> bool
        requires { t < length self.now.threads }
        ensures { result ≡ is_suspended (row_at self.now.threads t).stage }
    {
        self.tables.threads().is_suspended(t)
    }

    /// Whether a thread waits.
    pub fn is_waiting(&self, t: ThreadNo) -> bool
        requires { t < length self.now.threads }
        ensures { result ≡ is_waiting (row_at self.now.threads t).stage }
    {
        self.tables.threads().is_waiting(t)
    }

    /// The code with which the wait of a thread ends at its due moment.
    pub fn timeout_code(&self, t: ThreadNo) -> Code
        requires { t < length self.now.threads }
        ensures { result ≡ timeout_code (row_at self.now.threads t).stage }
    {
        self.tables.threads().timeout_code(t)
    }

    /// What the table of threads says of a thread, with whether it runs.
    pub fn state(&self, t: ThreadNo, running: bool) -> ThreadState
        requires { t < length self.now.threads }
        ensures { result ≡ state_at running (row_at self.now.threads t).stage }
    {
        self.tables.threads().state(t, running)
    }

    /// How many threads haven't ended.
    pub fn shown_count(&self) -> usize
        ensures count { result ≡ length (shown self.now.threads) }
        ensures few { result ≤ 256 }
    {
        self.tables.threads().shown_count()
    }

    /// The thread at a place among those that haven't ended, counted from the newest one.
    pub fn shown_at(&self, place: usize) -> ThreadNo
        requires { place < length (shown self.now.threads) }
        ensures is { slice_get (shown self.now.threads) place ≡ Some result }
        ensures there { result < length self.now.threads }
    {
        self.tables.threads().shown_at(place)
    }

    /// Whether a thread that hasn't ended waits for a mutex.
    pub fn awaits_mutex(&self, t: ThreadNo) -> bool
        requires there { t < length self.now.threads }
        requires live { is_closed (row_at self.now.threads t).stage ≡ false }
        ensures { result ≡ is_some (awaited_mutex (row_at self.now.threads t).stage) }
    {
        self.graph.waits(t).is_some()
    }
}
