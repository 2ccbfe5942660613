ghost use Rattle.std.specs.Prelude.{ℕ, ◌≡◌, ◌+◌, ◌*◌, ◌<◌, ◌≤◌, None, length, fold, min, replicate, slice_set, IfOk, IfSome, IsTrue};
ghost use Rattle.std.specs.List.{filter_map};
ghost use Rattle.rt_base.specs.declared.codes.WaitOrder.{WaitOrder};
ghost use Rattle.rt_plain.specs.kernel.Ownership.{awaited_in, first_in, leave_edit, owned_in, wait_edit, waiters_in};
ghost use Rattle.mutex_chain.specs.Costs.{one_wait, least_of};
ghost use Rattle.mutex_chain.specs.Lines.{first_number, lines_of};
ghost use Rattle.mutex_chain.specs.Owners.{IsSound, has_thread};
ghost use Rattle.mutex_chain.specs.Walks.{curs_of};

use crate::changes::number;
use crate::owners::Owners;
use rt_base::{ObjNo, Steps, ThreadNo, WaitOrder};
use std::alloc::{AllocError, Global};
use std::sync::ledger::Ledger;
use susp_list::SuspList;

// The number that is stored for each thread, and the wait list of each mutex, in which each waiter stands
// by its number.
#[derive(Drop)]
pub struct Stored {
    pub numbers: Vec<u16>,
    pub lines: Vec<SuspList>,
}

impl Stored {
    // The number of a thread that isn't there for all, and lists in which nobody waits.
    pub fn new(alloc: Global, threads: u16, mutexes: u16) -> Result<Stored, AllocError>
        ensures numbers { IfOk result (λ s. s.numbers.items ≡ replicate threads 256) }
        ensures lines { IfOk result (λ s. s.lines.items ≡ replicate mutexes (record { order = WaitOrder.Prio; rows = replicate threads None })) }
    {
        let numbers = vec![in alloc; 256; threads as usize]?;
        let mut lines = Vec::with_capacity(alloc, mutexes as usize)?;
        for _ in 0..mutexes {
            lines.push_reserved(SuspList::new(alloc, WaitOrder::Prio, threads)?);
        }
        Ok(Stored { numbers, lines })
    }

    // Gives a thread another number, and the place in its wait list that goes with it.
    pub fn set(&mut self, owners: &Owners, thread: ThreadNo, cur: u16)
        requires thread { thread < length owners.now.members }
        requires places { length self.old.numbers.items ≡ length owners.now.members }
        requires lines { self.old.lines.items ≡ lines_of owners.now self.old.numbers.items }
        ensures numbers { self.new.numbers.items ≡ slice_set self.old.numbers.items thread cur }
        ensures lines { self.new.lines.items ≡ lines_of owners.now self.new.numbers.items }
    {
        self.numbers[thread.0 as usize] = cur;
        let Some(wait) = owners.wait(thread) else {
            return;
        };
        let line = wait.mutex.0 as usize;
        if line < self.lines.len() {
            self.lines[line].reprio(thread, number(cur));
        }
    }

    // The same with the call on the wait list counted, if the thread stands in one.
    pub fn counted_set<L: Ledger>(
        &mut self,
        owners: &Owners,
        thread: ThreadNo,
        cur: u16,
        steps: &mut Steps<L>,
    )
        requires thread { thread < length owners.now.members }
        requires places { length self.old.numbers.items ≡ length owners.now.members }
        requires lines { self.old.lines.items ≡ lines_of owners.now self.old.numbers.items }
        ensures numbers { self.new.numbers.items ≡ slice_set self.old.numbers.items thread cur }
        ensures lines { self.new.lines.items ≡ lines_of owners.now self.new.numbers.items }
        ensures count { steps.new ≡ steps.old + one_wait (awaited_in owners.now thread) }
    {
        if owners.wait(thread).is_some() {
            steps.tick();
        }
        self.set(owners, thread, cur);
    }

    // A thread that waits goes out of its wait list.
    pub fn leave(&mut self, owners: &Owners, thread: ThreadNo)
        requires thread { thread < length owners.now.members }
        requires lines { self.old.lines.items ≡ lines_of owners.now self.old.numbers.items }
        ensures numbers { self.new.numbers.items ≡ self.old.numbers.items }
        ensures lines { self.new.lines.items ≡ lines_of (leave_edit thread owners.now) self.new.numbers.items }
    {
        let Some(wait) = owners.wait(thread) else {
            return;
        };
        let line = wait.mutex.0 as usize;
        if line < self.lines.len() {
            self.lines[line].leave(thread);
        }
    }

    // A thread that waits on no mutex goes into the wait list of one.
    pub fn join(&mut self, owners: &Owners, thread: ThreadNo, mutex: ObjNo, at: u64)
        requires thread { IsTrue (has_thread owners.now thread) }
        requires mutex { mutex < length owners.now.ceilings }
        requires idle { awaited_in owners.now thread ≡ None }
        requires places { length self.old.numbers.items ≡ length owners.now.members }
        requires lines { self.old.lines.items ≡ lines_of owners.now self.old.numbers.items }
        ensures numbers { self.new.numbers.items ≡ self.old.numbers.items }
        ensures lines { self.new.lines.items ≡ lines_of (wait_edit thread mutex at owners.now) self.new.numbers.items }
    {
        let cur = self.numbers[thread.0 as usize];
        self.lines[mutex.0 as usize].join(thread, number(cur), at);
    }

    // The first waiter of a mutex.
    pub fn first(&self, owners: &Owners, mutex: ObjNo) -> Option<ThreadNo>
        requires mutex { mutex < length owners.now.ceilings }
        requires lines { self.now.lines.items ≡ lines_of owners.now (curs_of owners.now) }
        ensures first { result ≡ first_in owners.now mutex }
        ensures within { IfSome result (λ t. t < length owners.now.members) }
    {
        owners.know_sound();
        self.lines[mutex.0 as usize].first()
    }

    // The number of the first waiter of a mutex, where somebody waits. A mark counts as the least urgent.
    fn first_number(&self, owners: &Owners, mutex: ObjNo) -> Option<u16>
        requires mutex { mutex < length owners.now.ceilings }
        requires places { length self.now.numbers.items ≡ length owners.now.members }
        requires lines { self.now.lines.items ≡ lines_of owners.now self.now.numbers.items }
        ensures { result ≡ first_number owners.now self.now.numbers.items mutex }
    {
        let Some(thread) = self.lines[mutex.0 as usize].first() else {
            return None;
        };
        Some(self.numbers[thread.0 as usize].min(255))
    }

    // The least of a number and those of the first waiters of the mutexes that a thread owns. Of each mutex it counts the row,
    // the call on the wait list and the number.
    pub fn least_first<L: Ledger>(
        &self,
        owners: &Owners,
        thread: ThreadNo,
        own: u16,
        steps: &mut Steps<L>,
    ) -> u16
        requires sound { IsSound owners.now }
        requires places { length self.now.numbers.items ≡ length owners.now.members }
        requires lines { self.now.lines.items ≡ lines_of owners.now self.now.numbers.items }
        ensures least { result ≡ fold min own (filter_map (first_number owners.now self.now.numbers.items) (owned_in owners.now thread)) }
        ensures count { steps.new ≡ steps.old + 3 * length (owned_in owners.now thread) }
    {
        let mut least = own;
        for row in owners.rows() {
            if row.owner.0 == thread.0 {
                steps.tick();
                least = self.least_with(owners, least, row.mutex, steps);
            }
        }
        least
    }

    // The least of a number and that of the first waiter of a mutex, where somebody waits. It counts the call and the number.
    fn least_with<L: Ledger>(
        &self,
        owners: &Owners,
        least: u16,
        mutex: ObjNo,
        steps: &mut Steps<L>,
    ) -> u16
        requires mutex { mutex < length owners.now.ceilings }
        requires places { length self.now.numbers.items ≡ length owners.now.members }
        requires lines { self.now.lines.items ≡ lines_of owners.now self.now.numbers.items }
        ensures least { result ≡ least_of least (first_number owners.now self.now.numbers.items mutex) }
        ensures count { steps.new ≡ steps.old + 2 }
    {
        steps.tick();
        steps.tick();
        match self.first_number(owners, mutex) {
            None => least,
            Some(number) => least.min(number),
        }
    }

    // How many threads wait on a mutex.
    pub fn waiters(&self, owners: &Owners, mutex: ObjNo) -> u16
        requires mutex { mutex < length owners.now.ceilings }
        requires curs { self.now.numbers.items ≡ curs_of owners.now }
        requires lines { self.now.lines.items ≡ lines_of owners.now self.now.numbers.items }
        ensures { result ≡ length (waiters_in owners.now mutex) }
    {
        owners.know_sound();
        self.lines[mutex.0 as usize].len()
    }
}
