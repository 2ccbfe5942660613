ghost use Rattle.std.specs.Prelude.{ℕ, ◌≡◌, ◌≢◌, ◌<◌, ◌≤◌, ◌==◌, false, Some, None, List, ◌∷◌, ◌++◌, length, replicate, slice_get, slice_set, IfOk, IfSome, IsTrue, if◌then◌else◌};
ghost use Rattle.rt_plain.specs.kernel.Waiting.{Waiter, first_of, second_of, head_of, stands_before};
ghost use Rattle.susp_list.specs.Rows.{waiters, line, holds, waiter, waiter_of, with_prio};
ghost use Rattle.susp_list.specs.Links.{IsPlace};
ghost use Rattle.susp_list.specs.declared.row.Row.{Row};

use crate::ring::Ring;
use crate::row::Row;
use rt_base::{Prio, ThreadNo, WaitOrder};
use std::alloc::{AllocError, Global};
use std::marker::Model;

/// The threads that wait on an object, in the order in which they will be woken: first come, first
/// served, or by priority and then by arrival, as RT-Thread's two flags for wait lists say. Of equal
/// rows the lower thread number stands first. Contracts see the order and, for each thread number,
/// the row of the thread if it waits. The threads are linked by number in tables that `new` makes: no
/// other call takes memory, and of these only `join` and `reprio` look through the list.
#[derive(Drop)]
pub struct SuspList {
    order: WaitOrder,
    rows: Vec<Option<Row>>,
    ring: Ring,
    root: u16,
    len: u16,
}

impl Model for SuspList {
    ghost use Rattle.susp_list.specs.Rows.{Waits};
    ghost use Rattle.susp_list.specs.Links.{IsRing};

    ghost Value = { Waits };

    ghost view = { λ l. record { order = l.order; rows = l.rows.items } };

    ghost invariant = { λ l. IsRing (record { order = l.order; rows = l.rows.items })
        l.ring.next.items l.ring.prev.items l.root l.len };
}

impl SuspList {
    /// An empty list, with room for the threads below a number.
    pub fn new(alloc: Global, order: WaitOrder, threads: u16) -> Result<SuspList, AllocError>
        ensures { IfOk result (λ l. l ≡ record { order = order; rows = replicate threads None }) }
    {
        let rows = vec![in alloc; None; threads as usize]?;
        let ring = Ring::new(alloc, threads)?;
        Ok(SuspList {
            order,
            rows,
            ring,
            root: threads,
            len: 0,
        })
    }

    /// Gives an empty list another order.
    pub fn reset(&mut self, order: WaitOrder)
        requires { length (line self.old) ≡ 0 }
        ensures { self.new ≡ record self.old { order = order } }
    {
        self.order = order;
    }

    /// Whether a thread below the number of threads waits here.
    pub fn holds(&self, thread: ThreadNo) -> bool
        requires { thread < length self.now.rows }
        ensures { result ≡ holds self.now thread }
    {
        self.rows[thread.0 as usize].is_some()
    }

    /// The number of threads that wait here.
    pub fn len(&self) -> u16
        ensures len { result ≡ length (line self.now) }
        ensures within { result ≤ length self.now.rows }
    {
        self.len
    }

    /// The first waiter: `None` exactly where nobody waits.
    pub fn first(&self) -> Option<ThreadNo>
        ensures first { result ≡ first_of self.now.order (waiters self.now) }
        ensures held { IfSome result (λ t. IsTrue (holds self.now t)) }
    {
        self.waiter_at(self.ring.next[self.root as usize])
    }

    /// The second waiter: `None` exactly where fewer than two wait.
    pub fn second(&self) -> Option<ThreadNo>
        ensures { result ≡ second_of self.now.order (waiters self.now) }
    {
        let first = self.ring.next[self.root as usize];
        self.waiter_at(self.ring.next[first as usize])
    }

    /// The waiter behind one: `None` exactly where it is the last.
    pub fn after(&self, thread: ThreadNo) -> Option<ThreadNo>
        requires { IsTrue (holds self.now thread) }
        ensures behind { (front rest : List ℕ) → line self.now ≡ front ++ thread ∷ rest
            → result ≡ head_of rest }
        ensures held { IfSome result (λ t. IsTrue (holds self.now t)) }
        ensures other { IfSome result (λ t. t ≢ thread) }
    {
        self.waiter_at(self.ring.next[thread.0 as usize])
    }

    /// Puts a thread into the list, with its priority and its arrival number. It looks from the end on
    /// for its place, so who comes last in order of arrival is put there at once.
    pub fn join(&mut self, thread: ThreadNo, prio: Prio, at: u64)
        requires there { thread < length self.old.rows }
        requires free { holds self.old thread ≡ false }
        ensures { let row : Row = record { prio = prio; at = at } in
            self.new ≡ record self.old { rows = slice_set self.old.rows thread (Some row) } }
    {
        let row = Row { prio, at };
        let before = self.place_of(thread, &row);
        self.ring.insert(thread.0, before);
        self.rows[thread.0 as usize] = Some(row);
        self.len += 1;
    }

    /// Takes a thread out of the list.
    pub fn leave(&mut self, thread: ThreadNo)
        requires { IsTrue (holds self.old thread) }
        ensures row { self.new ≡ record self.old { rows = slice_set self.old.rows thread None } }
        // The others stay where they stand.
        ensures line { (front rest : List ℕ) → line self.old ≡ front ++ thread ∷ rest
            → line self.new ≡ front ++ rest }
    {
        self.ring.remove(thread.0);
        self.rows[thread.0 as usize] = None;
        self.len -= 1;
    }

    /// Gives a waiter another priority. It keeps its arrival number.
    pub fn reprio(&mut self, thread: ThreadNo, prio: Prio)
        requires { IsTrue (holds self.old thread) }
        ensures { let row = with_prio (slice_get self.old.rows thread) prio in
            self.new ≡ record self.old { rows = slice_set self.old.rows thread row } }
    {
        let Some(row) = self.rows[thread.0 as usize] else {
            return;
        };
        self.leave(thread);
        self.join(thread, prio, row.at);
    }

    // The thread of a number, or nobody where it is the root.
    fn waiter_at(&self, number: u16) -> Option<ThreadNo>
        ensures { result ≡ (if number == length self.now.rows then None else Some number) }
    {
        if number == self.root {
            None
        } else {
            Some(ThreadNo(number))
        }
    }

    // Behind which number a new waiter belongs: from the end on, behind the first that it doesn't stand before.
    fn place_of(&self, thread: ThreadNo, row: &Row) -> u16
        ensures { IsPlace self.now (waiter thread row.now) result }
    {
        let mut before = self.ring.prev[self.root as usize];
        for _ in 0..self.len {
            if !self.goes_before(thread, row, before) {
                return before;
            }
            before = self.ring.prev[before as usize];
        }
        before
    }

    // Whether a new waiter stands before the one of a number.
    fn goes_before(&self, thread: ThreadNo, row: &Row, other: u16) -> bool
        requires { other < length self.now.rows }
        ensures { (w : Waiter) → waiter_of other (slice_get self.now.rows other) ≡ Some w
            → result ≡ stands_before self.now.order (waiter thread row.now) w }
    {
        match &self.rows[other as usize] {
            None => false,
            Some(there) => stands_before(self.order, thread, row, ThreadNo(other), there),
        }
    }
}

// Whether one waiter stands before another.
fn stands_before(order: WaitOrder, one: ThreadNo, row: &Row, other: ThreadNo, there: &Row) -> bool
    ensures { result ≡ stands_before order (waiter one row.now) (waiter other there.now) }
{
    let comes_before = row.at < there.at || (row.at == there.at && one.0 < other.0);
    match order {
        WaitOrder::Fifo => comes_before,
        WaitOrder::Prio => {
            row.prio.0 < there.prio.0 || (row.prio.0 == there.prio.0 && comes_before)
        }
    }
}
