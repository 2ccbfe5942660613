ghost use Rattle.std.specs.Prelude.{◌≡◌, ◌+◌, ◌<◌, ◌≤◌, ◌^◌, All, Some, true, length};
ghost use Rattle.rt_plain.specs.kernel.Calls.{outcome_of};
ghost use Rattle.rt_plain.specs.kernel.TimerCalls.{timer_start, timer_stop, timer_set, with_timer_armed};
ghost use Rattle.rt_plain.specs.kernel.Sound.{is_timed_call, is_span};
ghost use Rattle.rt_kernel.specs.declared.built.Subject.TheVariants.{Timer as OnTimers};
ghost use Rattle.kernel_timers.specs.Alarmed.{timer_at};
ghost use Rattle.rt_kernel.specs.Built.{subject_of};
ghost use Rattle.rt_kernel.specs.Caller.{plain_by, plain_attempt};
ghost use Rattle.rt_kernel.specs.Does.{Does};
ghost use Rattle.rt_kernel.specs.HasRoom.{HasRoom};
ghost use Rattle.rt_kernel.specs.View.{state_of};

use crate::answer::Answer;
use crate::caller::{Attempt, Caller};
use crate::state::State;
use rt_base::{Code, Name, ObjNo};
use rt_plain::{Board, Call, Lines};

impl State {
    // A call on timers.
    pub fn timer_call(
        &mut self,
        board: &Board,
        by: Caller,
        attempt: Attempt,
        call: &Call,
        out: &mut Lines,
    ) -> Answer
        requires subject { subject_of call.now ≡ Some OnTimers }
        requires timed { is_timed_call call.now ≡ true }
        requires room { HasRoom self.old out.old 0 }
        ensures { Does self.old self.new out.old out.new result 0 (outcome_of board.now call.now (state_of self.old) (plain_by (state_of self.old) by) (plain_attempt attempt)) }
    {
        match call {
            Call::TimerStart(name) => self.timer_start(name, out),
            Call::TimerStop(name) => self.timer_stop(name, out),
            Call::TimerSet(name, time) => self.timer_set(name, *time, out),
            _ => unreachable!(),
        }
    }

    // The timer is armed anew, with the next start number.
    pub fn arm_timer(&mut self, o: ObjNo)
        requires there { o < length self.old.armed.timers }
        requires latest { All (λ row. row.number < self.old.numbers) self.old.armed.rows }
        requires number { self.old.numbers + 1 < 2 ^ 64 }
        ensures state { state_of self.new ≡ with_timer_armed (state_of self.old) (timer_at self.old.armed.timers o) }
        ensures tables { self.new.tables ≡ self.old.tables }
        ensures numbers { self.new.numbers ≡ self.old.numbers + 1 }
    {
        self.armed.arm_timer(o, self.numbers);
        self.numbers += 1;
    }

    // The timer is armed, its time from now, and an earlier row of it is dropped.
    fn timer_start(&mut self, name: &Name, out: &mut Lines) -> Answer
        requires room { HasRoom self.old out.old 0 }
        ensures { Does self.old self.new out.old out.new result 0 (timer_start name.now (state_of self.old)) }
    {
        let Some(o) = self.armed.find(name) else {
            return Answer::Code(Code::Inval);
        };
        self.arm_timer(o);
        Answer::Code(Code::Ok)
    }

    // The timer is armed no more.
    fn timer_stop(&mut self, name: &Name, out: &mut Lines) -> Answer
        ensures { Does self.old self.new out.old out.new result 0 (timer_stop name.now (state_of self.old)) }
    {
        let Some(o) = self.armed.find(name) else {
            return Answer::Code(Code::Inval);
        };
        if !self.armed.disarm_timer(o) {
            return Answer::Code(Code::Error);
        }
        Answer::Code(Code::Ok)
    }

    // The timer has another time from its next start or period on.
    fn timer_set(&mut self, name: &Name, time: u32, out: &mut Lines) -> Answer
        requires some { 1 ≤ time }
        requires near { is_span time ≡ true }
        ensures { Does self.old self.new out.old out.new result 0 (timer_set name.now time (state_of self.old)) }
    {
        let Some(o) = self.armed.find(name) else {
            return Answer::Code(Code::Inval);
        };
        self.armed.set_time(o, time);
        Answer::Code(Code::Ok)
    }
}
