ghost use Rattle.std.specs.Prelude.{◌≡◌, ◌+◌, Some, true, length};
ghost use Rattle.rt_plain.specs.kernel.Calls.{outcome_of};
ghost use Rattle.rt_plain.specs.kernel.Outcome.{with_value};
ghost use Rattle.rt_plain.specs.kernel.EventCalls.{event_create, event_send, event_recv};
ghost use Rattle.rt_plain.specs.kernel.DeleteCall.{event_deletion};
ghost use Rattle.ipc_counts.specs.Flags.{plain_want};
ghost use Rattle.rt_kernel.specs.declared.built.Subject.TheVariants.{Event as OnEvents};
ghost use Rattle.rt_kernel.specs.Built.{subject_of};
ghost use Rattle.rt_kernel.specs.Caller.{plain_by, plain_attempt, IsThere};
ghost use Rattle.rt_kernel.specs.Does.{Does};
ghost use Rattle.rt_kernel.specs.HasRoom.{HasRoom};
ghost use Rattle.rt_kernel.specs.Limits.{limits_of, board_limits};
ghost use Rattle.rt_kernel.specs.MayWait.{IsFree, MayMake};
ghost use Rattle.rt_plain.specs.kernel.Sound.{is_timeout};
ghost use Rattle.rt_kernel.specs.View.{state_of};

use crate::answer::Answer;
use crate::caller::{Attempt, Caller};
use crate::state::State;
use ipc_counts::Want;
use object_box::Make;
use rt_base::{Class, Code, Name, WaitOrder};
use rt_plain::{Board, Call, Lines};

impl State {
    // A call on event objects.
    pub fn event_call(
        &mut self,
        board: &Board,
        by: Caller,
        attempt: Attempt,
        call: &Call,
        out: &mut Lines,
    ) -> Answer
        requires limits { limits_of self.old.tables ≡ board_limits board.now }
        requires subject { subject_of call.now ≡ Some OnEvents }
        requires may { MayMake self.old.armed by call.now }
        requires there { IsThere by self.old.tables }
        requires room { HasRoom self.old out.old (1 + length self.old.tables.threads) }
        ensures { Does self.old self.new out.old out.new result (1 + length self.old.tables.threads) (outcome_of board.now call.now (state_of self.old) (plain_by (state_of self.old) by) (plain_attempt attempt)) }
    {
        match call {
            Call::EventCreate(name, order) => self.event_create(board, name, *order, out),
            Call::EventSend(name, mask) => self.event_send(name, *mask, out),
            Call::EventRecv(name, mask, all, clear, timeout) => {
                let want = Want {
                    mask: *mask,
                    all: *all,
                    clear: *clear,
                };
                self.event_recv(by, name, want, *timeout, out)
            }
            Call::Delete(Class::Event, name) => self.event_delete(name, out),
            _ => unreachable!(),
        }
    }

    // A new event object.
    fn event_create(
        &mut self,
        board: &Board,
        name: &Name,
        order: WaitOrder,
        out: &mut Lines,
    ) -> Answer
        requires limits { limits_of self.old.tables ≡ board_limits board.now }
        ensures { Does self.old self.new out.old out.new result 0 (event_create board.now name.now order (state_of self.old)) }
    {
        let _board = board;
        match self.tables.create_event(name.copy(), order) {
            Ok(()) => Answer::Code(Code::Ok),
            Err(Make::Taken(_)) => Answer::Code(Code::Busy),
            Err(Make::ClassFull(_)) => Answer::Code(Code::NoMem),
        }
    }

    // What a receiver got is the last value of the thread that makes the call.
    pub fn take_value(&mut self, by: Caller, value: u32)
        requires { IsThere by self.old.tables }
        ensures state { state_of self.new ≡ with_value (state_of self.old) (plain_by (state_of self.old) by) value }
        ensures limits { limits_of self.new.tables ≡ limits_of self.old.tables }
        ensures threads { length self.new.tables.threads ≡ length self.old.tables.threads }
        ensures numbers { self.new.numbers ≡ self.old.numbers }
    {
        if let Caller::Thread(t, _) = by {
            let mut vars = self.tables.vars(t);
            vars.value = value;
            self.tables.set_vars(t, vars);
        }
    }

    // The thread gets the flags of the event object that it wants, or waits for them.
    fn event_recv(
        &mut self,
        by: Caller,
        name: &Name,
        want: Want,
        timeout: Option<u32>,
        out: &mut Lines,
    ) -> Answer
        requires free { IsFree self.old.armed by }
        requires span { is_timeout timeout ≡ true }
        requires there { IsThere by self.old.tables }
        requires room { HasRoom self.old out.old 0 }
        ensures { Does self.old self.new out.old out.new result 0 (event_recv name.now (plain_want want) timeout (state_of self.old) (plain_by (state_of self.old) by)) }
    {
        match self.tables.receive(name, want) {
            None => Answer::Code(Code::Inval),
            Some(Some(flags)) => {
                self.take_value(by, flags);
                Answer::Code(Code::Ok)
            }
            Some(None) => {
                let call = Call::EventRecv(name.copy(), want.mask, want.all, want.clear, timeout);
                self.wait_for(by, call, timeout, Code::Timeout)
            }
        }
    }

    // The event object gets flags, and all whom they satisfy wake.
    fn event_send(&mut self, name: &Name, mask: u32, out: &mut Lines) -> Answer
        requires room { HasRoom self.old out.old (length self.old.tables.threads) }
        ensures { Does self.old self.new out.old out.new result (length self.old.tables.threads) (event_send name.now mask (state_of self.old)) }
    {
        // There are at most 256 threads, so the ready list has room for all of them.
        let _ = self.tables.thread_count();
        if !self.tables.send(name, mask, &mut self.woken) {
            return Answer::Code(Code::Inval);
        }
        self.follow_woken(out);
        Answer::Code(Code::Ok)
    }

    // The event object of this name is gone, and its waiters wake with an error.
    fn event_delete(&mut self, name: &Name, out: &mut Lines) -> Answer
        requires room { HasRoom self.old out.old (length self.old.tables.threads) }
        ensures { Does self.old self.new out.old out.new result (length self.old.tables.threads) (event_deletion name.now (state_of self.old)) }
    {
        // There are at most 256 threads, so the ready list has room for all of them.
        let _ = self.tables.thread_count();
        if !self.tables.delete_event(name, &mut self.waited) {
            return Answer::Code(Code::Inval);
        }
        self.follow_waited(out);
        Answer::Code(Code::Ok)
    }
}
