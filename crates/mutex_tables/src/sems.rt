ghost use Rattle.std.specs.Prelude.{◌≡◌, ◌≤◌, is_some, length, nat_lt, Some};
ghost use Rattle.std.specs.Bool.{OnFalse, OnTrue};
ghost use Rattle.std.specs.Option.{option_map};
ghost use Rattle.rt_plain.specs.kernel.State.{Sem as PlainSem};
ghost use Rattle.kernel_tables.specs.Tabled.{found_sem, sems_taken};
ghost use Rattle.mutex_tables.specs.Woken.{CreatesSem, Releases, sem_waiters, without_sem};

use crate::tables::MutexTables;
use ipc_counts::SemReleased;
use kernel_tables::ThreadList;
use object_box::Make;
use rt_base::{Name, WaitOrder};

impl MutexTables {
    /// Lowers the value of the semaphore of a name: `None` exactly where there is none, and false exactly where its value
    /// is 0, which it then stays.
    pub fn take_sem(&mut self, name: &Name) -> Option<bool>
        ensures answer { result ≡ option_map (λ sem. nat_lt 0 sem.value) (found_sem self.old.sems name.now) }
        ensures state { self.new ≡ record self.old { sems = sems_taken self.old.sems (found_sem self.old.sems name.now) } }
    {
        self.tables.take_sem(name)
    }

    /// Wakes the first waiter of the semaphore of a name with 0, or raises its value by one where nobody waits: `None`
    /// exactly where there is no such semaphore.
    pub fn release_sem(&mut self, name: &Name) -> Option<SemReleased>
        ensures { Releases self.old self.new name.now result }
    {
        self.tables.release_sem(name)
    }

    /// Makes a semaphore of a name, a value and an order.
    pub fn create_sem(&mut self, name: Name, value: u16, order: WaitOrder) -> Result<(), Make>
        ensures { let sem : PlainSem = record { name = name; value = value; order = order } in CreatesSem self.old self.new sem result }
    {
        self.tables.create_sem(name, value, order)
    }

    /// Drops the semaphore of a name, and wakes all its waiters with -1: false exactly where there is none. `woken` gets
    /// them in the order of their list.
    pub fn delete_sem(&mut self, name: &Name, woken: &mut ThreadList) -> bool
        ensures answer { result ≡ is_some (found_sem self.old.sems name.now) }
        ensures missing { OnFalse result (self.new ≡ self.old) }
        ensures woken { (sem : PlainSem) → found_sem self.old.sems name.now ≡ Some sem → woken.new ≡ sem_waiters self.old sem }
        ensures state { OnTrue result (self.new ≡ without_sem self.old name.now woken.new) }
        ensures few { length woken.new ≤ length self.old.threads }
    {
        self.tables.delete_sem(name, woken)
    }
}
