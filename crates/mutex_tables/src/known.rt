ghost use Rattle.std.specs.Prelude.{ℕ, ◌≡◌, [], None};
ghost use Rattle.rt_plain.specs.kernel.Priority.{awaited_mutex};
ghost use Rattle.kernel_tables.specs.Threads.{row_at};

use crate::tables::MutexTables;

impl MutexTables {
    /// Where there is no mutex, nobody waits for one.
    pub fn know_waits(&self)
        requires { self.now.mutexes ≡ [] }
        ensures { (t : ℕ) → awaited_mutex (row_at self.now.threads t).stage ≡ None }
    {
        let _tables = &self.tables;
    }
}
