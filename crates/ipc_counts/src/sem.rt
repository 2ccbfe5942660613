ghost use Rattle.std.specs.Prelude.{◌≡◌, ◌-◌, ◌<◌, None, length, replicate, nat_lt, IfOk};
ghost use Rattle.std.specs.Bool.{OnTrue, OnFalse};
ghost use Rattle.std.specs.Borrow.{sem};
ghost use Rattle.susp_list.specs.Rows.{line};
ghost use Rattle.ipc_counts.specs.Released.{Releases};
ghost use Rattle.ipc_counts.specs.LendsWaiters.{LendsWaiters};

use rt_base::{ThreadNo, WaitOrder};
use std::alloc::{AllocError, Global};
use std::marker::Model;
use susp_list::SuspList;

/// What a release did.
#[derive(Clone, Copy, Debug, PartialEq, Eq)]
pub enum SemReleased {
    /// The first waiter has left the semaphore, whose value stays.
    Woke(ThreadNo),
    /// Nobody waited, and the value is one more.
    Raised,
    /// Nobody waited, and the value is 65535 and stays.
    Full,
}

/// A semaphore: a value of at most 65535, and the threads that wait for it. Contracts see both.
#[derive(Drop)]
pub struct Sem {
    value: u16,
    waiters: SuspList,
}

impl Model for Sem {
    ghost use Rattle.ipc_counts.specs.Counted.{Counted};

    ghost Value = { Counted };

    ghost view = { λ s. record { value = s.value; waiters = s.waiters } };
}

impl Sem {
    /// A semaphore of a value that nobody waits for, with room for the threads below a number.
    pub fn new(alloc: Global, value: u16, order: WaitOrder, threads: u16) -> Result<Sem, AllocError>
        ensures { IfOk result (λ s.
            s ≡ record { value = value; waiters = record { order = order; rows = replicate threads None } }) }
    {
        let waiters = SuspList::new(alloc, order, threads)?;
        Ok(Sem { value, waiters })
    }

    /// Lowers the value by one: false exactly where it is 0, which it then stays.
    pub fn try_take(&mut self) -> bool
        ensures exactly { result ≡ nat_lt 0 self.old.value }
        ensures taken { OnTrue result (self.new ≡ record self.old { value = self.old.value - 1 }) }
        ensures empty { OnFalse result (self.new ≡ self.old) }
    {
        if self.value == 0 {
            return false;
        }
        self.value -= 1;
        true
    }

    /// Wakes the first waiter, or raises the value by one where nobody waits.
    pub fn release(&mut self) -> SemReleased
        ensures { Releases self.old self.new result }
    {
        if let Some(thread) = self.waiters.first() {
            self.waiters.leave(thread);
            return SemReleased::Woke(thread);
        }
        if self.value == u16::MAX {
            return SemReleased::Full;
        }
        self.value += 1;
        SemReleased::Raised
    }

    /// The threads that wait for it.
    pub fn waiters(&mut self) -> &mut SuspList
        ensures* lent { sem 𝓛 (LendsWaiters self.entry result) }
        ensures value { result.now ≡ self.old.waiters }
    {
        &mut self.waiters
    }

    /// Makes it a new semaphore that nobody waits for, of a value and an order.
    pub fn reset(&mut self, value: u16, order: WaitOrder)
        requires { length (line self.old.waiters) ≡ 0 }
        ensures { let waiters = record self.old.waiters { order = order } in
            self.new ≡ record { value = value; waiters = waiters } }
    {
        self.waiters.reset(order);
        self.value = value;
    }

    /// The value.
    pub fn value(&self) -> u16
        ensures { result ≡ self.now.value }
    {
        self.value
    }

    /// The number of waiters.
    pub fn len(&self) -> u16
        ensures { result ≡ length (line self.now.waiters) }
    {
        self.waiters.len()
    }
}
