ghost use Rattle.std.specs.Prelude.{◌≡◌, ◌<◌, length};
ghost use Rattle.rt_plain.specs.kernel.Waiting.{head_of, number_in, stands_before, takes_block};
ghost use Rattle.kernel_tables.specs.Foremost.{foremost, nearer};
ghost use Rattle.kernel_tables.specs.Tabled.{base_waiter, line_of};
ghost use Rattle.kernel_tables.specs.Threads.{stage_of};

use crate::awaited::Awaited;
use crate::stage::Stage;
use crate::threads::Threads;
use rt_base::{Name, Prio, ThreadNo, WaitOrder};
use rt_plain::Call;
use std::marker::Model;

// A thread that waits for a block of a memory pool, with what its place among those who do depends on.
#[derive(Drop)]
struct Waiter {
    thread: ThreadNo,
    prio: Prio,
    number: u64,
}

impl Model for Waiter {
    ghost use Rattle.rt_plain.specs.kernel.Waiting.{Waiter as PlainWaiter};

    ghost Value = { PlainWaiter };

    ghost view = { λ w. record { thread = w.thread; prio = w.prio; number = w.number } };
}

// The arrival number of a thread at this stage, if it waits for a block of the pool of a name.
fn block_number(stage: &Stage, pool: &[u8]) -> Option<u64>
    ensures { result ≡ number_in (takes_block pool.now) (stage_of stage.now) }
{
    match stage {
        Stage::Waiting(Awaited::Call(Call::MpAlloc(name, _)), at) => {
            if name.bytes() == pool {
                Some(*at)
            } else {
                None
            }
        }
        _ => None,
    }
}

// Whether one waiter stands before another.
fn stands_before(order: WaitOrder, one: &Waiter, other: &Waiter) -> bool
    ensures { result ≡ stands_before order one.now other.now }
{
    let comes_before = one.number < other.number
        || (one.number == other.number && one.thread.0 < other.thread.0);
    match order {
        WaitOrder::Fifo => comes_before,
        WaitOrder::Prio => {
            one.prio.0 < other.prio.0 || (one.prio.0 == other.prio.0 && comes_before)
        }
    }
}

// The one that stands before the other, if there is another.
fn foremost(order: WaitOrder, one: Waiter, other: Option<Waiter>) -> Waiter
    ensures { result ≡ foremost order one other }
{
    match other {
        None => one,
        Some(other) => {
            if stands_before(order, &one, &other) {
                one
            } else {
                other
            }
        }
    }
}

// The same where there may be neither.
fn nearer(order: WaitOrder, one: Option<Waiter>, other: Option<Waiter>) -> Option<Waiter>
    ensures { result ≡ nearer order one other }
{
    match one {
        None => other,
        Some(one) => Some(foremost(order, one, other)),
    }
}

impl Threads {
    // The waiter that a thread is, if it waits for a block of the pool of a name.
    fn block_waiter(&self, t: ThreadNo, pool: &Name) -> Option<Waiter>
        requires { t < length self.now }
        ensures { result ≡ base_waiter self.now (takes_block pool.now) t }
    {
        let number = block_number(self.stage(t), pool.bytes())?;
        Some(Waiter {
            thread: t,
            prio: self.base(t),
            number,
        })
    }

    /// The thread that stands first among those that wait for a block of the memory pool of a name, in an order: `None`
    /// exactly where nobody does. They stand in no list: it looks at each thread.
    pub fn first_for_block(&self, pool: &Name, order: WaitOrder) -> Option<ThreadNo>
        ensures { result ≡ head_of (line_of self.now order (takes_block pool.now)) }
    {
        let count = self.len();
        let mut first = None;
        for i in 0..count {
            let t = ThreadNo((count - 1 - i) as u16);
            first = nearer(order, self.block_waiter(t, pool), first);
        }
        Some(first?.thread)
    }
}
