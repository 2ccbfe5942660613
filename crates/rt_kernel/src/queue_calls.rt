ghost use Rattle.std.specs.Prelude.{◌≡◌, ◌+◌, Some, true, length};
ghost use Rattle.rt_plain.specs.kernel.Calls.{outcome_of};
ghost use Rattle.rt_plain.specs.kernel.Outcome.{with_text, with_value};
ghost use Rattle.rt_plain.specs.kernel.QueueCalls.{mq_send, mq_urgent, mq_recv};
ghost use Rattle.rt_plain.specs.kernel.DeleteCall.{queue_deletion};
ghost use Rattle.rt_plain.specs.kernel.Sound.{is_timeout};
ghost use Rattle.rt_kernel.specs.declared.built.Subject.TheVariants.{Queue as OnQueues};
ghost use Rattle.rt_kernel.specs.Again.{IsNearAttempt};
ghost use Rattle.rt_kernel.specs.Built.{subject_of};
ghost use Rattle.rt_kernel.specs.Caller.{plain_by, plain_attempt, IsThere};
ghost use Rattle.rt_kernel.specs.Does.{Does};
ghost use Rattle.rt_kernel.specs.HasRoom.{HasRoom};
ghost use Rattle.rt_kernel.specs.Limits.{limits_of};
ghost use Rattle.rt_kernel.specs.MayWait.{IsFree, MayMake};
ghost use Rattle.rt_kernel.specs.View.{state_of};

use crate::answer::Answer;
use crate::caller::{Attempt, Caller};
use crate::state::State;
use ipc_queues::{End, PutFault};
use rt_base::{Class, Code, Name, Text};
use rt_plain::{Board, Call, Lines};

impl State {
    // A call on message queues.
    pub fn queue_call(
        &mut self,
        board: &Board,
        by: Caller,
        attempt: Attempt,
        call: &Call,
        out: &mut Lines,
    ) -> Answer
        requires subject { subject_of call.now ≡ Some OnQueues }
        requires may { MayMake self.old.armed by call.now }
        requires near { IsNearAttempt self.old.armed.moment attempt }
        requires there { IsThere by self.old.tables }
        requires room { HasRoom self.old out.old (1 + length self.old.tables.threads) }
        ensures { Does self.old self.new out.old out.new result (1 + length self.old.tables.threads) (outcome_of board.now call.now (state_of self.old) (plain_by (state_of self.old) by) (plain_attempt attempt)) }
    {
        let _board = board;
        match call {
            Call::MqSend(name, timeout, text) => {
                self.mq_send(by, attempt, name, text, *timeout, out)
            }
            Call::MqUrgent(name, text) => self.mq_urgent(name, text, out),
            Call::MqRecv(name, timeout) => self.mq_recv(by, attempt, name, *timeout, out),
            Call::Delete(Class::MsgQueue, name) => self.queue_delete(name, out),
            _ => unreachable!(),
        }
    }

    // The message goes to the end of the message queue, and the first receiver wakes. A full one is waited for.
    fn mq_send(
        &mut self,
        by: Caller,
        attempt: Attempt,
        name: &Name,
        text: &Text,
        timeout: Option<u32>,
        out: &mut Lines,
    ) -> Answer
        requires free { IsFree self.old.armed by }
        requires span { is_timeout timeout ≡ true }
        requires near { IsNearAttempt self.old.armed.moment attempt }
        requires there { IsThere by self.old.tables }
        requires room { HasRoom self.old out.old 1 }
        ensures { Does self.old self.new out.old out.new result 1 (mq_send name.now text.now timeout (state_of self.old) (plain_by (state_of self.old) by) (plain_attempt attempt)) }
    {
        let first = self.tables.first_at_queue(name, End::Receivers);
        match self.tables.send_message(name, text) {
            None => Answer::Code(attempt.missing()),
            Some(Ok(())) => {
                self.wake_first(first, out);
                Answer::Code(Code::Ok)
            }
            Some(Err(PutFault::TooLong { .. })) => Answer::Code(Code::Error),
            Some(Err(PutFault::Full)) => {
                let call = Call::MqSend(name.copy(), timeout, text.copy());
                self.wait_turn(by, attempt, call, timeout, Code::Full)
            }
        }
    }

    // The message goes to the front of the message queue, and the first receiver wakes. A full one is refused.
    fn mq_urgent(&mut self, name: &Name, text: &Text, out: &mut Lines) -> Answer
        requires room { HasRoom self.old out.old 1 }
        ensures { Does self.old self.new out.old out.new result 1 (mq_urgent name.now text.now (state_of self.old)) }
    {
        let first = self.tables.first_at_queue(name, End::Receivers);
        match self.tables.urgent_message(name, text) {
            None => Answer::Code(Code::Inval),
            Some(Ok(())) => {
                self.wake_first(first, out);
                Answer::Code(Code::Ok)
            }
            Some(Err(PutFault::TooLong { .. })) => Answer::Code(Code::Error),
            Some(Err(PutFault::Full)) => Answer::Code(Code::Full),
        }
    }

    // What a receiver got is the last text of the thread that makes the call, and its length the last value.
    fn take_text(&mut self, by: Caller, text: Text)
        requires { IsThere by self.old.tables }
        ensures state { let s = state_of self.old in let by = plain_by s by in state_of self.new ≡ with_value (with_text s by text) by (length text) }
        ensures limits { limits_of self.new.tables ≡ limits_of self.old.tables }
        ensures threads { length self.new.tables.threads ≡ length self.old.tables.threads }
        ensures numbers { self.new.numbers ≡ self.old.numbers }
    {
        let Caller::Thread(t, _) = by else {
            return;
        };
        let len = text.bytes().len() as u32;
        self.tables.set_text(t, Some(text));
        self.take_value(by, len);
    }

    // The thread gets what stands at the front of the message queue, and the first sender wakes. An empty one is waited for.
    fn mq_recv(
        &mut self,
        by: Caller,
        attempt: Attempt,
        name: &Name,
        timeout: Option<u32>,
        out: &mut Lines,
    ) -> Answer
        requires free { IsFree self.old.armed by }
        requires span { is_timeout timeout ≡ true }
        requires near { IsNearAttempt self.old.armed.moment attempt }
        requires there { IsThere by self.old.tables }
        requires room { HasRoom self.old out.old 1 }
        ensures { Does self.old self.new out.old out.new result 1 (mq_recv name.now timeout (state_of self.old) (plain_by (state_of self.old) by) (plain_attempt attempt)) }
    {
        let first = self.tables.first_at_queue(name, End::Senders);
        match self.tables.receive_message(name) {
            None => Answer::Code(attempt.missing()),
            Some(Some(text)) => {
                self.take_text(by, text);
                self.wake_first(first, out);
                Answer::Code(Code::Ok)
            }
            Some(None) => {
                let call = Call::MqRecv(name.copy(), timeout);
                self.wait_turn(by, attempt, call, timeout, Code::Timeout)
            }
        }
    }

    // The message queue of this name is gone, and its waiters wake with an error, receivers before senders.
    fn queue_delete(&mut self, name: &Name, out: &mut Lines) -> Answer
        requires room { HasRoom self.old out.old (length self.old.tables.threads) }
        ensures { Does self.old self.new out.old out.new result (length self.old.tables.threads) (queue_deletion name.now (state_of self.old)) }
    {
        // There are at most 256 threads, so the ready list has room for all of them.
        let _ = self.tables.thread_count();
        if !self.tables.delete_queue(name, &mut self.waited) {
            return Answer::Code(Code::Inval);
        }
        self.follow_waited(out);
        Answer::Code(Code::Ok)
    }
}
