ghost use Rattle.std.specs.Prelude.{◌≡◌, ◌≤◌, length, is_some, nat_lt, Some};
ghost use Rattle.std.specs.Bool.{OnTrue, OnFalse};
ghost use Rattle.std.specs.Option.{option_map};
ghost use Rattle.rt_plain.specs.kernel.State.{Sem as PlainSem};
ghost use Rattle.kernel_tables.specs.Tabled.{found_sem, sems_taken, Releases, CreatesSem, sem_line, without_sem};

use crate::ready::enter_all;
use crate::tables::Tables;
use crate::thread_list::ThreadList;
use crate::wait_list::WaitList;
use crate::waking::wake_all;
use ipc_counts::SemReleased;
use object_box::Make;
use rt_base::{Class, Code, Name, WaitOrder};

impl Tables {
    /// Lowers the value of the semaphore of a name: `None` exactly where there is none, and false exactly where its value
    /// is 0, which it then stays.
    pub fn take_sem(&mut self, name: &Name) -> Option<bool>
        ensures answer { result ≡ option_map (λ sem. nat_lt 0 sem.value) (found_sem self.old.sems name.now) }
        ensures state { self.new ≡ record self.old { sems = sems_taken self.old.sems (found_sem self.old.sems name.now) } }
    {
        let no = self.lists.objects.find(Class::Sem, name)?;
        Some(self.lists.sems[no.0 as usize].try_take())
    }

    /// Wakes the first waiter of the semaphore of a name with 0, or raises its value by one where nobody waits: `None`
    /// exactly where there is no such semaphore.
    pub fn release_sem(&mut self, name: &Name) -> Option<SemReleased>
        ensures { Releases self.old self.new name.now result }
    {
        let no = self.lists.objects.find(Class::Sem, name)?;
        let answer = self.lists.sems[no.0 as usize].release();
        if let SemReleased::Woke(t) = answer {
            self.threads.wake(t, Code::Ok);
            self.ready
                .add_tail(t, self.threads.base(t), self.threads.core(t));
        }
        Some(answer)
    }

    /// Makes a semaphore of a name, a value and an order.
    pub fn create_sem(&mut self, name: Name, value: u16, order: WaitOrder) -> Result<(), Make>
        ensures { let sem : PlainSem = record { name = name; value = value; order = order } in CreatesSem self.old self.new sem result }
    {
        let no = self.lists.objects.make(Class::Sem, name)?;
        self.lists.sems[no.0 as usize].reset(value, order);
        // Their numbers and names are still distinct.
        let _ = self.lists.objects.count(Class::Sem);
        Ok(())
    }

    /// Drops the semaphore of a name, and wakes all its waiters with -1: false exactly where there is none. `woken` gets
    /// them in the order of their list.
    pub fn delete_sem(&mut self, name: &Name, woken: &mut ThreadList) -> bool
        ensures answer { result ≡ is_some (found_sem self.old.sems name.now) }
        ensures missing { OnFalse result (self.new ≡ self.old) }
        ensures woken { (sem : PlainSem) → found_sem self.old.sems name.now ≡ Some sem → woken.new ≡ sem_line self.old.threads sem }
        ensures state { OnTrue result (self.new ≡ without_sem self.old name.now woken.new) }
        ensures few { length woken.new ≤ length self.old.threads }
    {
        let Some(no) = self.lists.objects.find(Class::Sem, name) else {
            woken.clear();
            return false;
        };
        wake_all(
            &mut self.threads,
            &mut self.lists,
            WaitList::Sem,
            no,
            Code::Error,
            woken,
        );
        enter_all(&mut self.ready, &self.threads, woken);
        self.lists.objects.remove(Class::Sem, no);
        // Their numbers and names are still distinct.
        let _ = self.lists.objects.count(Class::Sem);
        true
    }
}
