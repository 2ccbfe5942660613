ghost use Rattle.std.specs.Prelude.{◌≡◌, ◌<◌, ◌≤◌, false, length};
ghost use Rattle.rt_plain.specs.kernel.Priority.{cur};
ghost use Rattle.rt_plain.specs.kernel.State.{is_closed};
ghost use Rattle.kernel_tables.specs.Threads.{row_at, vars_of, with_row, with_vars};
ghost use Rattle.mutex_tables.specs.MutexTabled.{plain_state};

use crate::tables::MutexTables;
use kernel_tables::Vars;
use rt_base::{Name, Prio, ThreadNo};

impl MutexTables {
    /// How many threads there are.
    pub fn thread_count(&self) -> usize
        ensures len { result ≡ length self.now.threads }
        ensures few { result ≤ 256 }
    {
        self.tables.threads().len()
    }

    /// The name of a thread.
    pub fn name(&self, t: ThreadNo) -> Name
        requires { t < length self.now.threads }
        ensures { result ≡ (row_at self.now.threads t).name }
    {
        self.tables.threads().name(t)
    }

    /// The base priority of a thread.
    pub fn base(&self, t: ThreadNo) -> Prio
        requires { t < length self.now.threads }
        ensures { result ≡ (row_at self.now.threads t).base }
    {
        self.bases[t.0 as usize]
    }

    /// The current priority of a thread that hasn't ended.
    pub fn cur(&self, t: ThreadNo) -> Prio
        requires there { t < length self.now.threads }
        requires live { is_closed (row_at self.now.threads t).stage ≡ false }
        ensures { result ≡ cur (plain_state self.now) t }
    {
        self.tables.threads().base(t)
    }

    /// The variables of a thread.
    pub fn vars(&self, t: ThreadNo) -> Vars
        requires { t < length self.now.threads }
        ensures { result ≡ vars_of (row_at self.now.threads t) }
    {
        self.tables.threads().vars(t)
    }

    /// The thread has these variables.
    pub fn set_vars(&mut self, t: ThreadNo, vars: Vars)
        requires { t < length self.old.threads }
        ensures { self.new ≡ record self.old { threads = with_row self.old.threads t (with_vars vars) } }
    {
        self.tables.set_vars(t, vars);
    }
}
