ghost use Rattle.std.specs.Prelude.{◌≡◌, ◌<◌, [], None, false, length, unwrap_or};
ghost use Rattle.rt_plain.specs.kernel.Ticks.{thread_after_slice};
ghost use Rattle.kernel_tables.specs.Threads.{row_at, with_row};

use crate::tables::MutexTables;
use kernel_tables::Retry;
use rt_base::{Code, Text, ThreadNo};

impl MutexTables {
    /// The thread does this statement next.
    pub fn set_next(&mut self, t: ThreadNo, next: u16)
        requires { t < length self.old.threads }
        ensures { self.new ≡ record self.old { threads = with_row self.old.threads t (λ row. record row { next = next }) } }
    {
        self.tables.set_next(t, next);
    }

    /// The thread has this last code.
    pub fn set_code(&mut self, t: ThreadNo, code: Code)
        requires { t < length self.old.threads }
        ensures { self.new ≡ record self.old { threads = with_row self.old.threads t (λ row. record row { code = code }) } }
    {
        self.tables.set_code(t, code);
    }

    /// The mark of the thread is gone.
    pub fn unmark(&mut self, t: ThreadNo)
        requires { t < length self.old.threads }
        ensures { self.new ≡ record self.old { threads = with_row self.old.threads t (λ row. record row { marked = false }) } }
    {
        self.tables.unmark(t);
    }

    /// One tick less of the slice of a thread. A slice that is used up begins anew, and the thread gets the mark.
    pub fn fall(&mut self, t: ThreadNo)
        requires { t < length self.old.threads }
        ensures { self.new ≡ record self.old { threads = with_row self.old.threads t thread_after_slice } }
    {
        self.tables.fall(t);
    }

    /// The thread has this last text, an empty one where none is given.
    pub fn set_text(&mut self, t: ThreadNo, text: Option<Text>)
        requires { t < length self.old.threads }
        ensures { self.new ≡ record self.old { threads = with_row self.old.threads t (λ row. record row { text = unwrap_or text [] }) } }
    {
        self.tables.set_text(t, text);
    }

    /// What the thread has to make again, which it then has no more: `None` exactly where there is nothing.
    pub fn take_retry(&mut self, t: ThreadNo) -> Option<Retry>
        requires { t < length self.old.threads }
        ensures retry { result ≡ (row_at self.old.threads t).retry }
        ensures state { self.new ≡ record self.old { threads = with_row self.old.threads t (λ row. record row { retry = None }) } }
    {
        self.tables.take_retry(t)
    }
}
