ghost use Rattle.std.specs.Prelude.{◌≡◌, ◌+◌, ◌<◌, None, Some, is_some, length, true};
ghost use Rattle.rt_plain.specs.kernel.Calls.{outcome_of};
ghost use Rattle.rt_plain.specs.kernel.Effects.{wake_effect};
ghost use Rattle.rt_plain.specs.kernel.PoolCalls.{free_block, mp_alloc, mp_free};
ghost use Rattle.kernel_pools.specs.Pooled.{pool_at};
ghost use Rattle.rt_plain.specs.kernel.Sound.{is_timeout, is_waiting};
ghost use Rattle.rt_plain.specs.kernel.Priority.{awaited_mutex};
ghost use Rattle.rt_kernel.specs.declared.built.Subject.TheVariants.{Pool as OnPools};
ghost use Rattle.kernel_tables.specs.Threads.{row_at};
ghost use Rattle.rt_kernel.specs.Built.{subject_of};
ghost use Rattle.rt_kernel.specs.Caller.{plain_by, plain_attempt, IsThere};
ghost use Rattle.rt_kernel.specs.Does.{Does, Acts};
ghost use Rattle.rt_kernel.specs.HasRoom.{HasRoom};
ghost use Rattle.rt_kernel.specs.MayWait.{IsFree, MayMake};
ghost use Rattle.rt_kernel.specs.Blocks.{block_refusal, valued};
ghost use Rattle.rt_kernel.specs.View.{state_of};

use crate::answer::Answer;
use crate::caller::{Attempt, Caller};
use crate::state::State;
use mem_pool::Freed;
use rt_base::{Code, Name, ObjNo, ThreadNo};
use rt_plain::{Board, Call, Lines};

impl State {
    // A call on memory pools.
    pub fn pool_call(
        &mut self,
        board: &Board,
        by: Caller,
        attempt: Attempt,
        call: &Call,
        out: &mut Lines,
    ) -> Answer
        requires subject { subject_of call.now ≡ Some OnPools }
        requires may { MayMake self.old.armed by call.now }
        requires there { IsThere by self.old.tables }
        requires room { HasRoom self.old out.old 1 }
        ensures { Does self.old self.new out.old out.new result 1 (outcome_of board.now call.now (state_of self.old) (plain_by (state_of self.old) by) (plain_attempt attempt)) }
    {
        match call {
            Call::MpAlloc(name, timeout) => self.mp_alloc(by, name, *timeout, out),
            Call::MpFree(name) => self.mp_free(by, name, out),
            _ => unreachable!(),
        }
    }

    // The caller gets the free block of the least number, or waits for one.
    fn mp_alloc(&mut self, by: Caller, name: &Name, timeout: Option<u32>, out: &mut Lines) -> Answer
        requires free { IsFree self.old.armed by }
        requires span { is_timeout timeout ≡ true }
        requires there { IsThere by self.old.tables }
        requires room { HasRoom self.old out.old 0 }
        ensures { Does self.old self.new out.old out.new result 0 (mp_alloc name.now timeout (state_of self.old) (plain_by (state_of self.old) by)) }
    {
        let Some(o) = self.pools.find(name) else {
            return Answer::Code(Code::Inval);
        };
        let Caller::Thread(t, _) = by else {
            return self.no_thread_for_block(o);
        };
        match self.pools.give(o, t) {
            Some(place) => {
                self.take_value(by, place);
                Answer::Code(Code::Ok)
            }
            None => {
                let call = Call::MpAlloc(name.copy(), timeout);
                self.wait_for(by, call, timeout, Code::Timeout)
            }
        }
    }

    // What a timer is answered that asks for a block.
    fn no_thread_for_block(&self, o: ObjNo) -> Answer
        requires { o < length self.now.pools }
        ensures { result ≡ block_refusal (is_some (free_block (pool_at self.now.pools o))) }
    {
        if self.pools.has_free(o) {
            Answer::Code(Code::Error)
        } else {
            Answer::Code(Code::Timeout)
        }
    }

    // The block that the caller got last goes to the first waiter, which wakes with the block's place, or is free.
    fn mp_free(&mut self, by: Caller, name: &Name, out: &mut Lines) -> Answer
        requires there { IsThere by self.old.tables }
        requires room { HasRoom self.old out.old 1 }
        ensures { Does self.old self.new out.old out.new result 1 (mp_free name.now (state_of self.old) (plain_by (state_of self.old) by)) }
    {
        let Some(o) = self.pools.find(name) else {
            return Answer::Code(Code::Inval);
        };
        let Caller::Thread(t, _) = by else {
            return Answer::Code(Code::Error);
        };
        let first = self.tables.first_for_block(name, self.pools.order(o));
        match self.pools.give_back(o, t, first) {
            Freed::NotHeld => Answer::Code(Code::Error),
            Freed::Back(_) => Answer::Code(Code::Ok),
            Freed::Passed(waiter, place) => {
                self.hand_block(waiter, place, out);
                Answer::Code(Code::Ok)
            }
        }
    }

    // A waiting thread has got a block: the block's place is its last value, and it wakes.
    fn hand_block(&mut self, t: ThreadNo, place: u32, out: &mut Lines)
        requires there { t < length self.old.tables.threads }
        requires waits { is_waiting (row_at self.old.tables.threads t).stage ≡ true }
        requires apart { awaited_mutex (row_at self.old.tables.threads t).stage ≡ None }
        requires lines { length out.old.items < out.old.room }
        ensures { Acts self.old self.new out.old out.new 1 (wake_effect Code.Ok t (valued (state_of self.old) t place)) }
    {
        let mut vars = self.tables.vars(t);
        vars.value = place;
        self.tables.set_vars(t, vars);
        self.wake(t, Code::Ok, out);
    }
}
