ghost use Rattle.std.specs.Prelude.{◌≡◌, ◌+◌, ◌<◌, Some, true, length};
ghost use Rattle.rt_plain.specs.kernel.Calls.{outcome_of};
ghost use Rattle.rt_plain.specs.kernel.SemCalls.{sem_create, sem_take, sem_release};
ghost use Rattle.rt_plain.specs.kernel.DeleteCall.{sem_deletion};
ghost use Rattle.rt_kernel.specs.declared.built.Subject.TheVariants.{Sem as OnSems};
ghost use Rattle.rt_kernel.specs.Built.{subject_of};
ghost use Rattle.rt_kernel.specs.Caller.{plain_by, plain_attempt, IsThere};
ghost use Rattle.rt_kernel.specs.Does.{Does};
ghost use Rattle.rt_kernel.specs.HasRoom.{HasRoom};
ghost use Rattle.rt_kernel.specs.Limits.{limits_of, board_limits};
ghost use Rattle.rt_kernel.specs.MayWait.{IsFree, MayMake};
ghost use Rattle.rt_plain.specs.kernel.Sound.{is_timeout};
ghost use Rattle.rt_kernel.specs.View.{state_of};

use crate::answer::Answer;
use crate::caller::{Attempt, Caller};
use crate::state::State;
use ipc_counts::SemReleased;
use object_box::Make;
use rt_base::{Class, Code, Name, WaitOrder};
use rt_plain::{Board, Call, Lines};

impl State {
    // A call on semaphores.
    pub fn sem_call(
        &mut self,
        board: &Board,
        by: Caller,
        attempt: Attempt,
        call: &Call,
        out: &mut Lines,
    ) -> Answer
        requires limits { limits_of self.old.tables ≡ board_limits board.now }
        requires subject { subject_of call.now ≡ Some OnSems }
        requires may { MayMake self.old.armed by call.now }
        requires there { IsThere by self.old.tables }
        requires room { HasRoom self.old out.old (1 + length self.old.tables.threads) }
        ensures { Does self.old self.new out.old out.new result (1 + length self.old.tables.threads) (outcome_of board.now call.now (state_of self.old) (plain_by (state_of self.old) by) (plain_attempt attempt)) }
    {
        match call {
            Call::SemCreate(name, value, order) => self.sem_create(
                board, name, *value, *order, out,
            ),
            Call::SemTake(name, timeout) => self.sem_take(by, name, *timeout, out),
            Call::SemRelease(name) => self.sem_release(name, out),
            Call::Delete(Class::Sem, name) => self.sem_delete(name, out),
            _ => unreachable!(),
        }
    }

    // A new semaphore.
    fn sem_create(
        &mut self,
        board: &Board,
        name: &Name,
        value: u16,
        order: WaitOrder,
        out: &mut Lines,
    ) -> Answer
        requires limits { limits_of self.old.tables ≡ board_limits board.now }
        ensures { Does self.old self.new out.old out.new result 0 (sem_create board.now name.now value order (state_of self.old)) }
    {
        let _board = board;
        match self.tables.create_sem(name.copy(), value, order) {
            Ok(()) => Answer::Code(Code::Ok),
            Err(Make::Taken(_)) => Answer::Code(Code::Busy),
            Err(Make::ClassFull(_)) => Answer::Code(Code::NoMem),
        }
    }

    // The semaphore's value is one less, or the thread waits.
    fn sem_take(&mut self, by: Caller, name: &Name, timeout: Option<u32>, out: &mut Lines) -> Answer
        requires free { IsFree self.old.armed by }
        requires span { is_timeout timeout ≡ true }
        requires there { IsThere by self.old.tables }
        requires room { HasRoom self.old out.old 0 }
        ensures { Does self.old self.new out.old out.new result 0 (sem_take name.now timeout (state_of self.old) (plain_by (state_of self.old) by)) }
    {
        match self.tables.take_sem(name) {
            None => Answer::Code(Code::Inval),
            Some(true) => Answer::Code(Code::Ok),
            Some(false) => {
                let call = Call::SemTake(name.copy(), timeout);
                self.wait_for(by, call, timeout, Code::Timeout)
            }
        }
    }

    // The first waiter of the semaphore wakes, or its value is one more.
    pub fn sem_release(&mut self, name: &Name, out: &mut Lines) -> Answer
        requires lines { length out.old.items < out.old.room }
        ensures { Does self.old self.new out.old out.new result 1 (sem_release name.now (state_of self.old)) }
    {
        let Some(released) = self.tables.release_sem(name) else {
            return Answer::Code(Code::Inval);
        };
        match released {
            SemReleased::Full => Answer::Code(Code::Full),
            SemReleased::Raised => Answer::Code(Code::Ok),
            SemReleased::Woke(u) => {
                self.follow(u, Code::Ok, out);
                Answer::Code(Code::Ok)
            }
        }
    }

    // The semaphore of this name is gone, and its waiters wake with an error.
    fn sem_delete(&mut self, name: &Name, out: &mut Lines) -> Answer
        requires room { HasRoom self.old out.old (length self.old.tables.threads) }
        ensures { Does self.old self.new out.old out.new result (length self.old.tables.threads) (sem_deletion name.now (state_of self.old)) }
    {
        // There are at most 256 threads, so the ready list has room for all of them.
        let _ = self.tables.thread_count();
        if !self.tables.delete_sem(name, &mut self.waited) {
            return Answer::Code(Code::Inval);
        }
        self.follow_waited(out);
        Answer::Code(Code::Ok)
    }
}
