ghost use Rattle.std.specs.Prelude.{◌≡◌, ◌+◌, Some, true, length};
ghost use Rattle.rt_plain.specs.kernel.Calls.{outcome_of};
ghost use Rattle.rt_plain.specs.kernel.MailboxCalls.{mb_send, mb_urgent, mb_recv};
ghost use Rattle.rt_plain.specs.kernel.DeleteCall.{mailbox_deletion};
ghost use Rattle.rt_plain.specs.kernel.Sound.{is_timeout};
ghost use Rattle.rt_kernel.specs.declared.built.Subject.TheVariants.{Mailbox as OnMailboxes};
ghost use Rattle.rt_kernel.specs.Again.{IsNearAttempt};
ghost use Rattle.rt_kernel.specs.Built.{subject_of};
ghost use Rattle.rt_kernel.specs.Caller.{plain_by, plain_attempt, IsThere};
ghost use Rattle.rt_kernel.specs.Does.{Does};
ghost use Rattle.rt_kernel.specs.HasRoom.{HasRoom};
ghost use Rattle.rt_kernel.specs.MayWait.{IsFree, MayMake};
ghost use Rattle.rt_kernel.specs.View.{state_of};

use crate::answer::Answer;
use crate::caller::{Attempt, Caller};
use crate::state::State;
use ipc_queues::End;
use rt_base::{Class, Code, Name};
use rt_plain::{Board, Call, Lines};

impl State {
    // A call on mailboxes.
    pub fn mailbox_call(
        &mut self,
        board: &Board,
        by: Caller,
        attempt: Attempt,
        call: &Call,
        out: &mut Lines,
    ) -> Answer
        requires subject { subject_of call.now ≡ Some OnMailboxes }
        requires may { MayMake self.old.armed by call.now }
        requires near { IsNearAttempt self.old.armed.moment attempt }
        requires there { IsThere by self.old.tables }
        requires room { HasRoom self.old out.old (1 + length self.old.tables.threads) }
        ensures { Does self.old self.new out.old out.new result (1 + length self.old.tables.threads) (outcome_of board.now call.now (state_of self.old) (plain_by (state_of self.old) by) (plain_attempt attempt)) }
    {
        let _board = board;
        match call {
            Call::MbSend(name, word, timeout) => {
                self.mb_send(by, attempt, name, *word, *timeout, out)
            }
            Call::MbUrgent(name, word) => self.mb_urgent(name, *word, out),
            Call::MbRecv(name, timeout) => self.mb_recv(by, attempt, name, *timeout, out),
            Call::Delete(Class::Mailbox, name) => self.mailbox_delete(name, out),
            _ => unreachable!(),
        }
    }

    // The word goes to the end of the mailbox, and the first receiver wakes. A full one is waited for.
    fn mb_send(
        &mut self,
        by: Caller,
        attempt: Attempt,
        name: &Name,
        word: u32,
        timeout: Option<u32>,
        out: &mut Lines,
    ) -> Answer
        requires free { IsFree self.old.armed by }
        requires span { is_timeout timeout ≡ true }
        requires near { IsNearAttempt self.old.armed.moment attempt }
        requires there { IsThere by self.old.tables }
        requires room { HasRoom self.old out.old 1 }
        ensures { Does self.old self.new out.old out.new result 1 (mb_send name.now word timeout (state_of self.old) (plain_by (state_of self.old) by) (plain_attempt attempt)) }
    {
        let first = self.tables.first_at_mailbox(name, End::Receivers);
        match self.tables.send_mail(name, word) {
            None => Answer::Code(attempt.missing()),
            Some(true) => {
                self.wake_first(first, out);
                Answer::Code(Code::Ok)
            }
            Some(false) => {
                let call = Call::MbSend(name.copy(), word, timeout);
                self.wait_turn(by, attempt, call, timeout, Code::Full)
            }
        }
    }

    // The word goes to the front of the mailbox, and the first receiver wakes. A full one is refused.
    fn mb_urgent(&mut self, name: &Name, word: u32, out: &mut Lines) -> Answer
        requires room { HasRoom self.old out.old 1 }
        ensures { Does self.old self.new out.old out.new result 1 (mb_urgent name.now word (state_of self.old)) }
    {
        let first = self.tables.first_at_mailbox(name, End::Receivers);
        match self.tables.urgent_mail(name, word) {
            None => Answer::Code(Code::Inval),
            Some(false) => Answer::Code(Code::Full),
            Some(true) => {
                self.wake_first(first, out);
                Answer::Code(Code::Ok)
            }
        }
    }

    // The thread gets what stands at the front of the mailbox, and the first sender wakes. An empty one is waited for.
    fn mb_recv(
        &mut self,
        by: Caller,
        attempt: Attempt,
        name: &Name,
        timeout: Option<u32>,
        out: &mut Lines,
    ) -> Answer
        requires free { IsFree self.old.armed by }
        requires span { is_timeout timeout ≡ true }
        requires near { IsNearAttempt self.old.armed.moment attempt }
        requires there { IsThere by self.old.tables }
        requires room { HasRoom self.old out.old 1 }
        ensures { Does self.old self.new out.old out.new result 1 (mb_recv name.now timeout (state_of self.old) (plain_by (state_of self.old) by) (plain_attempt attempt)) }
    {
        let first = self.tables.first_at_mailbox(name, End::Senders);
        match self.tables.receive_mail(name) {
            None => Answer::Code(attempt.missing()),
            Some(Some(word)) => {
                self.take_value(by, word);
                self.wake_first(first, out);
                Answer::Code(Code::Ok)
            }
            Some(None) => {
                let call = Call::MbRecv(name.copy(), timeout);
                self.wait_turn(by, attempt, call, timeout, Code::Timeout)
            }
        }
    }

    // The mailbox of this name is gone, and its waiters wake with an error, receivers before senders.
    fn mailbox_delete(&mut self, name: &Name, out: &mut Lines) -> Answer
        requires room { HasRoom self.old out.old (length self.old.tables.threads) }
        ensures { Does self.old self.new out.old out.new result (length self.old.tables.threads) (mailbox_deletion name.now (state_of self.old)) }
    {
        // There are at most 256 threads, so the ready list has room for all of them.
        let _ = self.tables.thread_count();
        if !self.tables.delete_mailbox(name, &mut self.waited) {
            return Answer::Code(Code::Inval);
        }
        self.follow_waited(out);
        Answer::Code(Code::Ok)
    }
}
