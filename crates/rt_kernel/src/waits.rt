ghost use Rattle.std.specs.Prelude.{◌≡◌, ◌+◌, ◌<◌, ◌≤◌, ◌^◌, ◌++◌, [], All, None, true, false, length};
ghost use Rattle.std.specs.List.{AllByRecursion};
ghost use Rattle.rt_plain.specs.kernel.Priority.{mutex_of_call};
ghost use Rattle.rt_plain.specs.kernel.State.{InCall};
ghost use Rattle.rt_plain.specs.kernel.Outcome.{First, may_not_wait, wait_outcome, wait_or_refusal};
ghost use Rattle.rt_plain.specs.kernel.Effects.{each_effect};
ghost use Rattle.rt_kernel.specs.Answer.{plain_answer};
ghost use Rattle.rt_kernel.specs.Caller.{plain_by, IsOnCore, IsThere};
ghost use Rattle.rt_kernel.specs.Limits.{limits_of};
ghost use Rattle.rt_kernel.specs.MayWait.{IsFree, MayWait};
ghost use Rattle.rt_plain.specs.kernel.Sound.{is_timeout};
ghost use Rattle.mutex_tables.specs.Known.{knows};
ghost use Rattle.rt_kernel.specs.View.{state_of};
ghost use Rattle.rt_kernel.specs.Wake.{follow_effect};

use crate::answer::Answer;
use crate::caller::Caller;
use crate::state::State;
use rt_base::{Code, CoreNo, ThreadNo};
use rt_plain::{Call, Lines};

impl State {
    // Whether a thread may not wait on its core: it has a scheduler lock, or the core the lock over all cores.
    pub fn may_not_wait(&self, t: ThreadNo, core: CoreNo) -> bool
        requires { t < length self.now.tables.threads }
        ensures { result ≡ may_not_wait (state_of self.now) t core }
    {
        0 < self.tables.locks(t) || self.cores.holds(core)
    }

    // The thread waits in a call until a moment, if one is given, where it may wait.
    pub fn try_wait(&mut self, t: ThreadNo, core: CoreNo, call: Call, due: Option<u64>) -> Answer
        requires runs { IsOnCore self.old.tables t }
        requires may { MayWait self.old.armed t due }
        requires latest { All (λ row. row.number < self.old.numbers) self.old.armed.rows }
        requires number { self.old.numbers + 2 < 2 ^ 64 }
        requires known { knows self.old.tables call ≡ true }
        requires other { mutex_of_call call ≡ None }
        ensures state { state_of self.new ≡ (wait_outcome (state_of self.old) t core (InCall call) due).effect.state }
        ensures answer { plain_answer result ≡ (wait_outcome (state_of self.old) t core (InCall call) due).answer }
        ensures limits { limits_of self.new.tables ≡ limits_of self.old.tables }
        ensures threads { length self.new.tables.threads ≡ length self.old.tables.threads }
        ensures numbers { self.new.numbers ≤ self.old.numbers + 2 }
    {
        if self.may_not_wait(t, core) {
            return Answer::Code(Code::Error);
        }
        self.wait(t, call, due);
        Answer::Waits
    }

    // A call that can't be done now: it is refused with this code where a timer makes it or its timeout is 0, and else waits.
    pub fn wait_for(&mut self, by: Caller, call: Call, timeout: Option<u32>, code: Code) -> Answer
        requires there { IsThere by self.old.tables }
        requires free { IsFree self.old.armed by }
        requires span { is_timeout timeout ≡ true }
        requires latest { All (λ row. row.number < self.old.numbers) self.old.armed.rows }
        requires moment { self.old.armed.moment ≤ 1099511627775 }
        requires number { self.old.numbers + 2 < 2 ^ 64 }
        requires known { knows self.old.tables call ≡ true }
        requires other { mutex_of_call call ≡ None }
        ensures state { state_of self.new ≡ (wait_or_refusal (state_of self.old) (plain_by (state_of self.old) by) First call timeout code).effect.state }
        ensures answer { plain_answer result ≡ (wait_or_refusal (state_of self.old) (plain_by (state_of self.old) by) First call timeout code).answer }
        ensures silent { (wait_or_refusal (state_of self.old) (plain_by (state_of self.old) by) First call timeout code).effect.lines ≡ [] }
        ensures limits { limits_of self.new.tables ≡ limits_of self.old.tables }
        ensures threads { length self.new.tables.threads ≡ length self.old.tables.threads }
        ensures numbers { self.new.numbers ≤ self.old.numbers + 2 }
    {
        let Caller::Thread(t, core) = by else {
            return Answer::Code(code);
        };
        if let Some(0) = timeout {
            return Answer::Code(code);
        }
        let due = timeout.map(|ticks| self.armed.moment() + ticks as u64);
        self.try_wait(t, core, call, due)
    }

    // All the threads that a deletion has woken follow.
    pub fn follow_waited(&mut self, out: &mut Lines)
        requires there { AllByRecursion (λ t. t < length self.old.tables.threads) self.old.waited }
        requires lines { length out.old.items + length self.old.waited ≤ out.old.room }
        ensures state { state_of self.new ≡ (each_effect (follow_effect Code.Error) self.old.waited (state_of self.old)).state }
        ensures lines { out.new.items ≡ out.old.items ++ (each_effect (follow_effect Code.Error) self.old.waited (state_of self.old)).lines }
        ensures tables { self.new.tables ≡ self.old.tables }
        ensures numbers { self.new.numbers ≡ self.old.numbers }
        ensures longer { length out.new.items ≡ length out.old.items + length self.old.waited }
        ensures out_room { out.new.room ≡ out.old.room }
    {
        for i in 0..self.waited.len() {
            let t = self.waited.at(i);
            self.follow(t, Code::Error, out);
        }
    }

    // All the threads that flags have woken follow.
    pub fn follow_woken(&mut self, out: &mut Lines)
        requires there { AllByRecursion (λ w. w.0 < length self.old.tables.threads) self.old.woken }
        requires lines { length out.old.items + length self.old.woken ≤ out.old.room }
        ensures state { state_of self.new ≡ (each_effect (λ w. follow_effect Code.Ok w.0) self.old.woken (state_of self.old)).state }
        ensures lines { out.new.items ≡ out.old.items ++ (each_effect (λ w. follow_effect Code.Ok w.0) self.old.woken (state_of self.old)).lines }
        ensures tables { self.new.tables ≡ self.old.tables }
        ensures numbers { self.new.numbers ≡ self.old.numbers }
        ensures longer { length out.new.items ≡ length out.old.items + length self.old.woken }
        ensures out_room { out.new.room ≡ out.old.room }
    {
        for i in 0..self.woken.len() {
            let (t, _) = self.woken.at(i);
            self.follow(t, Code::Ok, out);
        }
    }
}
