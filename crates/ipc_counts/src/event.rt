ghost use Rattle.std.specs.Prelude.{ℕ, ◌≡◌, ◌<◌, ◌≤◌, None, false, List, ◌∷◌, ◌++◌, length, replicate, bit_and, bit_or, is_some, slice_get, slice_set, IfOk, IfSome, IfNone, IsTrue};
ghost use Rattle.rt_plain.specs.kernel.Waiting.{first_of};
ghost use Rattle.rt_plain.specs.kernel.EventCalls.{is_satisfied, flags_after};
ghost use Rattle.susp_list.specs.Rows.{waiters, line, holds, with_prio};
ghost use Rattle.susp_list.specs.declared.row.Row.{Row};
ghost use Rattle.ipc_counts.specs.Released.{without};
ghost use Rattle.ipc_counts.specs.Flags.{plain_want};
ghost use Rattle.ipc_counts.specs.Sent.{wanting, woken_by, sent};

use crate::want::Want;
use crate::woken::WokenFlags;
use rt_base::{Prio, ThreadNo, WaitOrder};
use std::alloc::{AllocError, Global};
use std::marker::Model;
use susp_list::SuspList;

/// An event object: 32 flags, and the threads that wait for some of them. Contracts see the flags,
/// the waiters, and for each thread number what that thread wanted when it last waited.
#[derive(Drop)]
pub struct EventObj {
    flags: u32,
    waiters: SuspList,
    wants: Vec<Want>,
}

impl Model for EventObj {
    ghost use Rattle.std.specs.Prelude.{◌≡◌, length};
    ghost use Rattle.ipc_counts.specs.Flags.{Flagged};

    ghost Value = { Flagged };

    ghost view = { λ e. record { flags = e.flags; waiters = e.waiters; wants = e.wants.items } };

    ghost invariant = { λ e. length e.wants.items ≡ length e.waiters.rows };
}

impl EventObj {
    /// An event object without flags that nobody waits for, with room for the threads below a number.
    /// No other call takes memory.
    pub fn new(alloc: Global, order: WaitOrder, threads: u16) -> Result<EventObj, AllocError>
        ensures flags { IfOk result (λ e. e.flags ≡ 0) }
        ensures waiters { IfOk result (λ e.
            e.waiters ≡ record { order = order; rows = replicate threads None }) }
    {
        let waiters = SuspList::new(alloc, order, threads)?;
        let nothing = Want {
            mask: 0,
            all: true,
            clear: false,
        };
        let wants = vec![in alloc; nothing; threads as usize]?;
        Ok(EventObj {
            flags: 0,
            waiters,
            wants,
        })
    }

    /// Receives flags without waiting: the flags that are set and wanted, or `None` exactly where the
    /// flags don't satisfy the receiver.
    pub fn try_recv(&mut self, want: Want) -> Option<u32>
        ensures exactly { is_some result ≡ is_satisfied self.old.flags (plain_want want) }
        ensures value { IfSome result (λ got. got ≡ bit_and self.old.flags want.mask) }
        ensures cleared { IfSome result (λ _.
            self.new ≡ record self.old { flags = flags_after self.old.flags (plain_want want) }) }
        ensures none { IfNone result (self.new ≡ self.old) }
    {
        if !want.is_satisfied(self.flags) {
            return None;
        }
        let got = self.flags & want.mask;
        self.flags = want.flags_after(self.flags);
        Some(got)
    }

    /// Lets a thread wait for flags, with its priority and its arrival number.
    pub fn wait(&mut self, thread: ThreadNo, want: Want, prio: Prio, at: u64)
        requires there { thread < length self.old.waiters.rows }
        requires free { holds self.old.waiters thread ≡ false }
        ensures state { let row : Row = record { prio = prio; at = at } in
            self.new ≡ record self.old {
              waiters = record self.old.waiters { rows = slice_set self.old.waiters.rows thread (Some row) };
              wants = slice_set self.old.wants thread want;
            } }
        ensures wanted { slice_get self.new.wants thread ≡ Some want }
    {
        self.waiters.join(thread, prio, at);
        self.wants[thread.0 as usize] = want;
    }

    /// Ends the wait of a thread.
    pub fn leave(&mut self, thread: ThreadNo)
        requires { IsTrue (holds self.old.waiters thread) }
        ensures state { self.new ≡ record self.old { waiters = without self.old.waiters thread } }
        // The others stay where they stand.
        ensures line { (front rest : List ℕ) → line self.old.waiters ≡ front ++ thread ∷ rest
            → line self.new.waiters ≡ front ++ rest }
    {
        self.waiters.leave(thread);
    }

    /// Gives a waiter another priority. It keeps its arrival number.
    pub fn reprio(&mut self, thread: ThreadNo, prio: Prio)
        requires { IsTrue (holds self.old.waiters thread) }
        ensures { let row = with_prio (slice_get self.old.waiters.rows thread) prio in
            let rows = slice_set self.old.waiters.rows thread row in
            self.new ≡ record self.old { waiters = record self.old.waiters { rows = rows } } }
    {
        self.waiters.reprio(thread, prio);
    }

    /// Makes it a new event object without flags that nobody waits for, of another order.
    pub fn reset(&mut self, order: WaitOrder)
        requires { length (line self.old.waiters) ≡ 0 }
        ensures { let waiters = record self.old.waiters { order = order } in
            self.new ≡ record self.old { flags = 0; waiters = waiters } }
    {
        self.waiters.reset(order);
        self.flags = 0;
    }

    /// The flags.
    pub fn flags(&self) -> u32
        ensures { result ≡ self.now.flags }
    {
        self.flags
    }

    /// The number of waiters.
    pub fn len(&self) -> u16
        ensures { result ≡ length (line self.now.waiters) }
    {
        self.waiters.len()
    }

    /// Whether a thread below the number of threads waits for flags.
    pub fn holds(&self, thread: ThreadNo) -> bool
        requires { thread < length self.now.waiters.rows }
        ensures { result ≡ holds self.now.waiters thread }
    {
        self.waiters.holds(thread)
    }

    /// The first waiter: `None` exactly where nobody waits.
    pub fn first(&self) -> Option<ThreadNo>
        ensures first { result ≡ first_of self.now.waiters.order (waiters self.now.waiters) }
        ensures held { IfSome result (λ t. IsTrue (holds self.now.waiters t)) }
    {
        self.waiters.first()
    }

    /// Sets the flags of a mask, and ends the wait of each thread that the flags now satisfy. All are
    /// judged against these flags, in the order of the list; what the woken ones clear is cleared
    /// afterwards. `woken` gets the woken threads in that order, in place of what it held.
    pub fn send(&mut self, mask: u32, woken: &mut WokenFlags)
        requires { length self.old.waiters.rows ≤ woken.old.threads }
        ensures state { self.new ≡ sent self.old mask }
        ensures room { length self.new.waiters.rows ≡ length self.old.waiters.rows }
        ensures woken { let flags = bit_or self.old.flags mask in
            woken.new ≡ record woken.old { woken = woken_by flags (wanting self.old) } }
    {
        let flags = self.flags | mask;
        let mut left = flags;
        woken.clear();
        let mut next = self.waiters.first();
        for _ in 0..self.waiters.len() {
            let Some(thread) = next else { break };
            next = self.waiters.after(thread);
            let want = self.wants[thread.0 as usize];
            if want.is_satisfied(flags) {
                woken.push(thread, flags & want.mask);
                left = want.flags_after(left);
                self.waiters.leave(thread);
            }
        }
        self.flags = left;
    }
}
