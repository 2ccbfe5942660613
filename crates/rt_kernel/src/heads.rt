ghost use Rattle.std.specs.Prelude.{◌≡◌, ◌+◌, ◌<◌, true, false, length};
ghost use Rattle.rt_plain.specs.declared.line.Line.TheVariants.{Done as DoneLine, Again as AgainLine, Fire as FireLine};
ghost use Rattle.rt_plain.specs.kernel.Effects.{name_of};
ghost use Rattle.rt_plain.specs.kernel.Outcome.{ByThread, ByTimer, First, Again};
ghost use Rattle.rt_plain.specs.kernel.Sound.{is_levelled_call};
ghost use Rattle.rt_plain.specs.kernel.Statements.{with_answer};
ghost use Rattle.rt_plain.specs.kernel.TimerKinds.{is_timer_call};
ghost use Rattle.rt_plain.specs.kernel.Due.{timer_call_effect};
ghost use Rattle.rt_plain.specs.kernel.Kept.{IsNear};
ghost use Rattle.rt_kernel.specs.Again.{IsNearAttempt};
ghost use Rattle.rt_kernel.specs.Answer.{plain_answer};
ghost use Rattle.rt_kernel.specs.Built.{is_built_call};
ghost use Rattle.rt_kernel.specs.Caller.{plain_by, plain_attempt, timer_name, IsThere};
ghost use Rattle.rt_kernel.specs.Does.{Does, Acts, headed};
ghost use Rattle.rt_kernel.specs.declared.caller.Caller.TheVariants.{Thread as CallerOn};
ghost use Rattle.rt_kernel.specs.HasRoom.{HasRoom};
ghost use Rattle.rt_kernel.specs.Settles.{settled_outcome};
ghost use Rattle.rt_kernel.specs.Limits.{limits_of, board_limits};
ghost use Rattle.rt_kernel.specs.MayWait.{IsFree, MayMake};
ghost use Rattle.rt_plain.specs.kernel.Sound.{is_timed_call};
ghost use Rattle.rt_plain.specs.kernel.State.{OfThread};
ghost use Rattle.kernel_timers.specs.Alarmed.{is_armed};
ghost use Rattle.rt_kernel.specs.View.{state_of};

use crate::answer::Answer;
use crate::built::{Subject, subject_of};
use crate::caller::{Attempt, Caller};
use crate::state::State;
use rt_base::{CoreNo, Name, ObjNo, Steps, ThreadNo};
use rt_plain::{Board, Call, Line, Lines};
use std::sync::ledger::Ledger;

impl State {
    // What a call does, without its line.
    pub fn act<L: Ledger>(
        &mut self,
        board: &Board,
        by: Caller,
        attempt: Attempt,
        call: &Call,
        out: &mut Lines,
        steps: &mut Steps<L>,
    ) -> Answer
        requires built { is_built_call call.now ≡ true }
        requires level { is_levelled_call self.old.tables.levels call.now ≡ true }
        requires limits { limits_of self.old.tables ≡ board_limits board.now }
        requires may { MayMake self.old.armed by call.now }
        requires near { IsNearAttempt self.old.armed.moment attempt }
        requires there { IsThere by self.old.tables }
        requires room { HasRoom self.old out.old (1 + length self.old.tables.threads) }
        ensures does { Does self.old self.new out.old out.new result (1 + length self.old.tables.threads) (settled_outcome board.now call.now (state_of self.old) (plain_by (state_of self.old) by) (plain_attempt attempt)) }
        ensures count { is_timer_call call.now ≡ true → steps.new ≡ steps.old }
    {
        let Some(subject) = subject_of(call) else {
            unreachable!();
        };
        match subject {
            Subject::Thread => self.thread_call(board, by, attempt, call, out, steps),
            Subject::Sem => self.sem_call(board, by, attempt, call, out),
            Subject::Event => self.event_call(board, by, attempt, call, out),
            Subject::Mailbox => self.mailbox_call(board, by, attempt, call, out),
            Subject::Queue => self.queue_call(board, by, attempt, call, out),
            Subject::Timer => self.timer_call(board, by, attempt, call, out),
            Subject::Device => self.device_call(board, by, attempt, call, out),
            Subject::Pool => self.pool_call(board, by, attempt, call, out),
        }
    }

    // The answer becomes the thread's last code.
    fn take_answer(&mut self, t: ThreadNo, answer: Answer)
        requires { t < length self.old.tables.threads }
        ensures state { state_of self.new ≡ with_answer t (plain_answer answer) (state_of self.old) }
        ensures limits { limits_of self.new.tables ≡ limits_of self.old.tables }
        ensures threads { length self.new.tables.threads ≡ length self.old.tables.threads }
        ensures numbers { self.new.numbers ≡ self.old.numbers }
    {
        if let Answer::Code(code) = answer {
            self.tables.set_code(t, code);
        }
    }

    // Statement k of a thread, a call: its line, and then what it does.
    #[tactic(auto, using(crate::proofs::HeadLemmas::put_between))]
    pub fn do_call<L: Ledger>(
        &mut self,
        board: &Board,
        t: ThreadNo,
        core: CoreNo,
        k: u16,
        call: &Call,
        out: &mut Lines,
        steps: &mut Steps<L>,
    ) -> Answer
        requires built { is_built_call call.now ≡ true }
        requires level { is_levelled_call self.old.tables.levels call.now ≡ true }
        requires limits { limits_of self.old.tables ≡ board_limits board.now }
        requires free { is_armed (OfThread t) self.old.armed.rows ≡ false }
        requires timed { is_timed_call call.now ≡ true }
        requires there { IsThere (CallerOn t core) self.old.tables }
        requires room { HasRoom self.old out.old (2 + length self.old.tables.threads) }
        ensures { Does self.old self.new out.old out.new result (2 + length self.old.tables.threads) (headed t (DoneLine (name_of (state_of self.old) t) k) (settled_outcome board.now call.now (state_of self.old) (ByThread t core) First)) }
    {
        let name = self.name_of(t);
        let place = out.len();
        let answer = self.act(
            board,
            Caller::Thread(t, core),
            Attempt::First,
            call,
            out,
            steps,
        );
        out.insert(place, Line::Done(name, k, answer.code()));
        self.take_answer(t, answer);
        answer
    }

    // The call of statement k, which a woken thread makes again: its line, and then what it does. Its first wait was due at
    // a moment, if at any.
    #[tactic(auto, using(crate::proofs::HeadLemmas::put_between))]
    pub fn again_call<L: Ledger>(
        &mut self,
        board: &Board,
        t: ThreadNo,
        core: CoreNo,
        k: u16,
        due: Option<u64>,
        call: &Call,
        out: &mut Lines,
        steps: &mut Steps<L>,
    ) -> Answer
        requires built { is_built_call call.now ≡ true }
        requires level { is_levelled_call self.old.tables.levels call.now ≡ true }
        requires limits { limits_of self.old.tables ≡ board_limits board.now }
        requires free { is_armed (OfThread t) self.old.armed.rows ≡ false }
        requires timed { is_timed_call call.now ≡ true }
        requires near { IsNear self.old.armed.moment due }
        requires there { IsThere (CallerOn t core) self.old.tables }
        requires room { HasRoom self.old out.old (2 + length self.old.tables.threads) }
        ensures { Does self.old self.new out.old out.new result (2 + length self.old.tables.threads) (headed t (AgainLine (name_of (state_of self.old) t) k) (settled_outcome board.now call.now (state_of self.old) (ByThread t core) (Again due))) }
    {
        let name = self.name_of(t);
        let place = out.len();
        let answer = self.act(
            board,
            Caller::Thread(t, core),
            Attempt::Again(due),
            call,
            out,
            steps,
        );
        out.insert(place, Line::Again(name, k, answer.code()));
        self.take_answer(t, answer);
        answer
    }

    // The call of a fired timer of this name: its line, and then what it does.
    #[tactic(auto, using(crate::proofs::HeadLemmas::put_between))]
    pub fn fire_call<L: Ledger>(
        &mut self,
        board: &Board,
        timer: ObjNo,
        name: &Name,
        call: &Call,
        out: &mut Lines,
        steps: &mut Steps<L>,
    )
        requires built { is_built_call call.now ≡ true }
        requires level { is_levelled_call self.old.tables.levels call.now ≡ true }
        requires limits { limits_of self.old.tables ≡ board_limits board.now }
        requires timed { is_timed_call call.now ≡ true }
        requires timer { is_timer_call call.now ≡ true }
        requires room { HasRoom self.old out.old (2 + length self.old.tables.threads) }
        ensures acts { Acts self.old self.new out.old out.new (2 + length self.old.tables.threads) (timer_call_effect (FireLine name.now) (settled_outcome board.now call.now (state_of self.old) (ByTimer (timer_name (state_of self.old) timer)) First)) }
        ensures count { steps.new ≡ steps.old }
    {
        let place = out.len();
        let answer = self.act(
            board,
            Caller::Timer(timer),
            Attempt::First,
            call,
            out,
            steps,
        );
        out.insert(place, Line::Fire(name.copy(), answer.fired()));
    }
}
