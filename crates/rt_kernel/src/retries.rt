ghost use Rattle.std.specs.Prelude.{◌≡◌, ◌+◌, ◌<◌, ◌≤◌, ◌^◌, [], All, length, true, false, is_some, IfSome, None};
ghost use Rattle.rt_plain.specs.kernel.Priority.{mutex_of_call};
ghost use Rattle.rt_plain.specs.kernel.State.{State as PlainState, OfThread};
ghost use Rattle.rt_plain.specs.kernel.Effects.{retry_wake_effect, effect_for};
ghost use Rattle.rt_plain.specs.kernel.Kept.{IsNear, IsFineRetry};
ghost use Rattle.rt_plain.specs.kernel.Outcome.{missing_outcome, refusal, repeated_wait_outcome, wait_or_refusal};
ghost use Rattle.rt_plain.specs.kernel.Sound.{is_timeout};
ghost use Rattle.mutex_tables.specs.Known.{knows};
ghost use Rattle.kernel_tables.specs.Repeated.{has_call, is_repeated};
ghost use Rattle.kernel_tables.specs.Threads.{row_at};
ghost use Rattle.kernel_timers.specs.Alarmed.{is_armed};
ghost use Rattle.rt_kernel.specs.Again.{IsNearAttempt, MakesAgain};
ghost use Rattle.rt_kernel.specs.Answer.{plain_answer};
ghost use Rattle.rt_kernel.specs.Caller.{plain_by, plain_attempt, IsOnCore, IsThere};
ghost use Rattle.rt_kernel.specs.declared.caller.Caller.TheVariants.{Thread as CallerOn};
ghost use Rattle.rt_kernel.specs.Does.{Acts};
ghost use Rattle.rt_kernel.specs.HasRoom.{HasRoom};
ghost use Rattle.rt_kernel.specs.Limits.{limits_of, board_limits};
ghost use Rattle.rt_kernel.specs.MayWait.{IsFree};
ghost use Rattle.rt_kernel.specs.View.{state_of};

use crate::answer::Answer;
use crate::caller::{Attempt, Caller};
use crate::state::State;
use rt_base::{Code, CoreNo, Steps, ThreadNo};
use rt_plain::{Board, Call, Line, Lines, Woke};
use std::sync::ledger::Ledger;

impl Attempt {
    // The code of a call whose object isn't there.
    pub(crate) fn missing(self) -> Code
        ensures { (s : PlainState) → missing_outcome s (plain_attempt self) ≡ refusal s result }
    {
        match self {
            Attempt::First => Code::Inval,
            Attempt::Again(_) => Code::Error,
        }
    }
}

impl State {
    // The thread, which waits at a mailbox or a message queue, wakes to make its call again.
    pub fn wake_to_retry(&mut self, t: ThreadNo, out: &mut Lines)
        requires there { t < length self.old.tables.threads }
        requires waits { is_repeated (row_at self.old.tables.threads t).stage ≡ true }
        requires moment { self.old.armed.moment ≤ 1099511627775 }
        requires lines { length out.old.items < out.old.room }
        ensures acts { Acts self.old self.new out.old out.new 1 (retry_wake_effect t (state_of self.old)) }
        ensures numbers { self.new.numbers ≡ self.old.numbers }
    {
        // There are at most 256 threads.
        let _ = self.tables.thread_count();
        out.push(Line::Wake(self.tables.name(t), Woke::Retry));
        self.tables.activate_to_retry(t, self.armed.wait_due(t));
        self.armed.disarm_wait(t);
    }

    // The first of those who wait at an end of a mailbox or a message queue wakes to make its call again, if there is one.
    pub fn wake_first(&mut self, first: Option<ThreadNo>, out: &mut Lines)
        requires there { IfSome first (λ t. t < length self.old.tables.threads) }
        requires waits { IfSome first (λ t. is_repeated (row_at self.old.tables.threads t).stage ≡ true) }
        requires moment { self.old.armed.moment ≤ 1099511627775 }
        requires lines { length out.old.items < out.old.room }
        ensures acts { Acts self.old self.new out.old out.new 1 (effect_for retry_wake_effect first (state_of self.old)) }
        ensures numbers { self.new.numbers ≡ self.old.numbers }
    {
        if let Some(t) = first {
            self.wake_to_retry(t, out);
        }
    }

    // A call that is made again and still can't be done: it times out where its first wait was due, and else waits until
    // that moment, if there is one.
    fn wait_more(&mut self, t: ThreadNo, core: CoreNo, call: Call, due: Option<u64>) -> Answer
        requires runs { IsOnCore self.old.tables t }
        requires free { is_armed (OfThread t) self.old.armed.rows ≡ false }
        requires near { IsNear self.old.armed.moment due }
        requires latest { All (λ row. row.number < self.old.numbers) self.old.armed.rows }
        requires number { self.old.numbers + 2 < 2 ^ 64 }
        requires known { knows self.old.tables call ≡ true }
        requires other { mutex_of_call call ≡ None }
        ensures state { state_of self.new ≡ (repeated_wait_outcome (state_of self.old) t core call due).effect.state }
        ensures answer { plain_answer result ≡ (repeated_wait_outcome (state_of self.old) t core call due).answer }
        ensures silent { (repeated_wait_outcome (state_of self.old) t core call due).effect.lines ≡ [] }
        ensures limits { limits_of self.new.tables ≡ limits_of self.old.tables }
        ensures threads { length self.new.tables.threads ≡ length self.old.tables.threads }
        ensures numbers { self.new.numbers ≤ self.old.numbers + 2 }
    {
        if let Some(due) = due {
            if due <= self.armed.moment() {
                return Answer::Code(Code::Timeout);
            }
        }
        self.try_wait(t, core, call, due)
    }

    // A call on a mailbox or a message queue that can't be done now. Where a timer makes it, or for the first time with a
    // timeout of 0, it is refused with this code.
    pub fn wait_turn(
        &mut self,
        by: Caller,
        attempt: Attempt,
        call: Call,
        timeout: Option<u32>,
        code: Code,
    ) -> Answer
        requires there { IsThere by self.old.tables }
        requires free { IsFree self.old.armed by }
        requires span { is_timeout timeout ≡ true }
        requires near { IsNearAttempt self.old.armed.moment attempt }
        requires latest { All (λ row. row.number < self.old.numbers) self.old.armed.rows }
        requires moment { self.old.armed.moment ≤ 1099511627775 }
        requires number { self.old.numbers + 2 < 2 ^ 64 }
        requires known { knows self.old.tables call ≡ true }
        requires other { mutex_of_call call ≡ None }
        ensures state { state_of self.new ≡ (wait_or_refusal (state_of self.old) (plain_by (state_of self.old) by) (plain_attempt attempt) call timeout code).effect.state }
        ensures answer { plain_answer result ≡ (wait_or_refusal (state_of self.old) (plain_by (state_of self.old) by) (plain_attempt attempt) call timeout code).answer }
        ensures silent { (wait_or_refusal (state_of self.old) (plain_by (state_of self.old) by) (plain_attempt attempt) call timeout code).effect.lines ≡ [] }
        ensures limits { limits_of self.new.tables ≡ limits_of self.old.tables }
        ensures threads { length self.new.tables.threads ≡ length self.old.tables.threads }
        ensures numbers { self.new.numbers ≤ self.old.numbers + 2 }
    {
        match (by, attempt) {
            (_, Attempt::First) => self.wait_for(by, call, timeout, code),
            (Caller::Thread(t, core), Attempt::Again(due)) => self.wait_more(t, core, call, due),
            (Caller::Timer(_), Attempt::Again(_)) => Answer::Code(code),
        }
    }

    // The call that a woken thread has to make again, with its line. Nothing follows from it.
    pub fn again<L: Ledger>(
        &mut self,
        board: &Board,
        t: ThreadNo,
        core: CoreNo,
        out: &mut Lines,
        steps: &mut Steps<L>,
    ) -> Answer
        requires free { is_armed (OfThread t) self.old.armed.rows ≡ false }
        requires limits { limits_of self.old.tables ≡ board_limits board.now }
        requires there { IsThere (CallerOn t core) self.old.tables }
        requires retries { has_call (row_at self.old.tables.threads t).retry ≡ true }
        requires fine { IsFineRetry self.old.armed.moment (row_at self.old.tables.threads t).retry }
        requires room { HasRoom self.old out.old (2 + length self.old.tables.threads) }
        ensures { MakesAgain board.now t core self.old self.new out.old out.new result (2 + length self.old.tables.threads) }
    {
        let Some(retry) = self.tables.take_retry(t) else {
            unreachable!();
        };
        let k = self.tables.next(t).saturating_sub(1);
        self.again_call(board, t, core, k, retry.due(), retry.call(), out, steps)
    }
}
