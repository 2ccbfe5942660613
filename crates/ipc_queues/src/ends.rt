ghost use Rattle.std.specs.Prelude.{◌≡◌, ◌<◌, ◌≤◌, false, length, slice_get, slice_set, replicate, None, Some, IfOk, IfSome, IsTrue};
ghost use Rattle.rt_plain.specs.kernel.Waiting.{head_of};
ghost use Rattle.susp_list.specs.Rows.{Waits, line, holds, with_prio};
ghost use Rattle.susp_list.specs.declared.row.Row.{Row};
ghost use Rattle.ipc_queues.specs.Ends.{end_waits, with_end, empty_ends};

use rt_base::{Prio, ThreadNo, WaitOrder};
use std::alloc::{AllocError, Global};
use std::marker::Model;
use susp_list::SuspList;

/// One of the two ends of a mailbox or a message queue.
#[derive(Clone, Copy, Debug, PartialEq, Eq)]
pub enum End {
    /// Those who wait to receive.
    Receivers,
    /// Those who wait to send.
    Senders,
}

/// Who waits at the two ends of a mailbox or a message queue, both in one order. Contracts see the order and, for each
/// end, the row of each thread that waits there.
#[derive(Drop)]
pub struct Ends {
    receivers: SuspList,
    senders: SuspList,
}

impl Model for Ends {
    ghost use Rattle.std.specs.Prelude.{◌≡◌};
    ghost use Rattle.ipc_queues.specs.Ends.{PlainEnds};

    ghost Value = { PlainEnds };

    ghost view = { λ e. record { order = e.receivers.order; receivers = e.receivers.rows; senders = e.senders.rows } };

    ghost invariant = { λ e. e.senders.order ≡ e.receivers.order };
}

impl Ends {
    /// Nobody waits at either end, and there is room for the threads below a number. No other call takes memory.
    pub fn new(alloc: Global, threads: u16) -> Result<Ends, AllocError>
        ensures { IfOk result (λ ends. ends ≡ empty_ends threads) }
    {
        let receivers = SuspList::new(alloc, WaitOrder::Fifo, threads)?;
        let senders = SuspList::new(alloc, WaitOrder::Fifo, threads)?;
        Ok(Ends { receivers, senders })
    }

    /// Gives two empty ends another order.
    pub fn reset(&mut self, order: WaitOrder)
        requires receivers { length (line (end_waits self.old End.Receivers)) ≡ 0 }
        requires senders { length (line (end_waits self.old End.Senders)) ≡ 0 }
        ensures { self.new ≡ record self.old { order = order } }
    {
        self.receivers.reset(order);
        self.senders.reset(order);
    }

    /// How many threads wait at an end.
    pub fn len(&self, end: End) -> u16
        ensures { result ≡ length (line (end_waits self.now end)) }
    {
        self.list(end).len()
    }

    /// The first who waits at an end: `None` exactly where nobody does.
    pub fn first(&self, end: End) -> Option<ThreadNo>
        ensures first { result ≡ head_of (line (end_waits self.now end)) }
        ensures held { IfSome result (λ t. IsTrue (holds (end_waits self.now end) t)) }
    {
        self.list(end).first()
    }

    /// A thread leaves an end.
    pub fn leave(&mut self, end: End, t: ThreadNo)
        requires { IsTrue (holds (end_waits self.old end) t) }
        ensures { self.new ≡ with_end self.old end (slice_set (end_waits self.old end).rows t None) }
    {
        match end {
            End::Receivers => self.receivers.leave(t),
            End::Senders => self.senders.leave(t),
        }
    }

    /// A thread waits at an end, with its priority and its arrival number.
    pub fn join(&mut self, end: End, t: ThreadNo, prio: Prio, at: u64)
        requires there { t < length (end_waits self.old end).rows }
        requires free { holds (end_waits self.old end) t ≡ false }
        ensures { let row : Row = record { prio = prio; at = at } in
            self.new ≡ with_end self.old end (slice_set (end_waits self.old end).rows t (Some row)) }
    {
        match end {
            End::Receivers => self.receivers.join(t, prio, at),
            End::Senders => self.senders.join(t, prio, at),
        }
    }

    /// A thread that waits at an end has another priority there. It keeps its arrival number.
    pub fn reprio(&mut self, end: End, t: ThreadNo, prio: Prio)
        requires { IsTrue (holds (end_waits self.old end) t) }
        ensures { let row = with_prio (slice_get (end_waits self.old end).rows t) prio in
            self.new ≡ with_end self.old end (slice_set (end_waits self.old end).rows t row) }
    {
        match end {
            End::Receivers => self.receivers.reprio(t, prio),
            End::Senders => self.senders.reprio(t, prio),
        }
    }

    // Who waits at an end.
    fn list(&self, end: End) -> &SuspList
        ensures { result.now ≡ end_waits self.now end }
    {
        match end {
            End::Receivers => &self.receivers,
            End::Senders => &self.senders,
        }
    }
}
