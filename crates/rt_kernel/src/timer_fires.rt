ghost use Rattle.std.specs.Prelude.{◌≡◌, ◌+◌, ◌-◌, ◌<◌, ◌≤◌, ◌^◌, All, true, length};
ghost use Rattle.rt_plain.specs.declared.line.Line.TheVariants.{Fire as FireLine};
ghost use Rattle.rt_plain.specs.kernel.Calls.{settled_effect};
ghost use Rattle.rt_plain.specs.kernel.Due.{with_period, alarm_effect, timer_effect, timer_action_effect};
ghost use Rattle.rt_plain.specs.kernel.Sound.{IsSized, is_timed_call, is_waiting};
ghost use Rattle.rt_plain.specs.kernel.TimerKinds.{is_timer_call};
ghost use Rattle.kernel_tables.specs.Threads.{row_at};
ghost use Rattle.kernel_timers.specs.Alarmed.{timer_at, alarm_of, names_of};
ghost use Rattle.rt_kernel.specs.Actions.{MayAct, timer_call};
ghost use Rattle.rt_kernel.specs.Built.{is_built_call};
ghost use Rattle.rt_kernel.specs.Does.{Does, Acts};
ghost use Rattle.rt_kernel.specs.HasRoom.{HasRoom};
ghost use Rattle.rt_kernel.specs.Limits.{limits_of, board_limits};
ghost use Rattle.rt_kernel.specs.View.{state_of};

use crate::answer::Answer;
use crate::caller::{Attempt, Caller};
use crate::state::State;
use rt_base::{Code, ObjNo, Steps, ThreadNo, TimerNo};
use rt_plain::{Board, Call, Fired, Line, Lines, Stmt, TimerKind};
use std::sync::ledger::Ledger;

impl State {
    // The call of a timer, with what follows from it.
    #[tactic(auto, using(crate::proofs::TimerFireLemmas::timer_levelled))]
    pub fn call_by_timer<L: Ledger>(
        &mut self,
        board: &Board,
        o: ObjNo,
        call: &Call,
        out: &mut Lines,
        steps: &mut Steps<L>,
    ) -> Answer
        requires allowed { is_timer_call call.now ≡ true }
        requires built { is_built_call call.now ≡ true }
        requires timed { is_timed_call call.now ≡ true }
        requires limits { limits_of self.old.tables ≡ board_limits board.now }
        requires room { HasRoom self.old out.old (1 + length self.old.tables.threads) }
        ensures { Does self.old self.new out.old out.new result (1 + length self.old.tables.threads) (timer_call board.now o call.now (state_of self.old)) }
    {
        self.act(board, Caller::Timer(o), Attempt::First, call, out, steps)
    }

    // A timer that fires is armed again where it is periodic.
    fn arm_period(&mut self, o: ObjNo)
        requires there { o < length self.old.armed.timers }
        requires latest { All (λ row. row.number < self.old.numbers) self.old.armed.rows }
        requires number { self.old.numbers + 1 < 2 ^ 64 }
        ensures state { state_of self.new ≡ with_period (timer_at self.old.armed.timers o).kind (timer_at self.old.armed.timers o) (state_of self.old) }
        ensures tables { self.new.tables ≡ self.old.tables }
        ensures latest { All (λ row. row.number < self.new.numbers) self.new.armed.rows }
        ensures moment { self.new.armed.moment ≡ self.old.armed.moment }
        ensures timers { self.new.armed.timers ≡ self.old.armed.timers }
        ensures numbers { self.new.numbers ≤ self.old.numbers + 1 }
    {
        match self.armed.kind(o) {
            TimerKind::Periodic | TimerKind::SoftPer => self.arm_timer(o),
            TimerKind::OneShot | TimerKind::SoftOne => {}
        }
    }

    // What a timer does: nothing, a text, or a call, with its line in front, and with what follows from it.
    #[tactic(auto, using(crate::proofs::TimerFireLemmas::timer_levelled))]
    fn act_as_timer<L: Ledger>(
        &mut self,
        board: &Board,
        o: ObjNo,
        out: &mut Lines,
        steps: &mut Steps<L>,
    )
        requires there { o < length self.old.armed.timers }
        requires may { MayAct (timer_at self.old.armed.timers o) }
        requires limits { limits_of self.old.tables ≡ board_limits board.now }
        requires room { HasRoom self.old out.old (2 + length self.old.tables.threads) }
        ensures acts { Acts self.old self.new out.old out.new (2 + length self.old.tables.threads) (settled_effect board.now (state_of self.old) (timer_effect board.now (FireLine (timer_at self.old.armed.timers o).name) (timer_at self.old.armed.timers o).name (timer_at self.old.armed.timers o).call (state_of self.old))) }
        ensures count { steps.new ≡ steps.old }
    {
        self.tables.know_waits();
        let name = self.armed.name(o);
        match self.armed.action(o) {
            Some(Stmt::Do(call)) => self.fire_call(board, o, &name, &call, out, steps),
            Some(Stmt::Print(text)) => {
                out.push(Line::Fire(name, Fired::Code(Code::Ok)));
                out.push(Line::Print(text));
            }
            _ => out.push(Line::Fire(name, Fired::Nothing)),
        }
    }

    // A timer fires: it is armed again if it is periodic, and then does what it does, with what follows from it.
    fn fire_timer<L: Ledger>(
        &mut self,
        board: &Board,
        o: ObjNo,
        out: &mut Lines,
        steps: &mut Steps<L>,
    )
        requires there { o < length self.old.armed.timers }
        requires may { MayAct (timer_at self.old.armed.timers o) }
        requires sized { IsSized board.now }
        requires limits { limits_of self.old.tables ≡ board_limits board.now }
        requires number { self.old.numbers + 3 < 2 ^ 64 }
        requires room { HasRoom self.old out.old (2 + length self.old.tables.threads) }
        ensures acts { Acts self.old self.new out.old out.new (2 + length self.old.tables.threads) (settled_effect board.now (state_of self.old) (timer_action_effect board.now (FireLine (timer_at self.old.armed.timers o).name) (timer_at self.old.armed.timers o) (state_of self.old))) }
        ensures count { steps.new ≡ steps.old }
    {
        self.arm_period(o);
        self.act_as_timer(board, o, out, steps);
    }

    // What was armed under a number fires, its row being gone: the wait of a thread ends, or a timer does what it does. This
    // with what follows from it.
    pub fn fire_row<L: Ledger>(
        &mut self,
        board: &Board,
        no: TimerNo,
        out: &mut Lines,
        steps: &mut Steps<L>,
    )
        requires there { no < 256 + length self.old.armed.timers }
        requires thread { no < 256 → no < length self.old.tables.threads }
        requires waits { no < 256 → is_waiting (row_at self.old.tables.threads no).stage ≡ true }
        requires timer { 256 ≤ no → MayAct (timer_at self.old.armed.timers (no - 256)) }
        requires sized { IsSized board.now }
        requires limits { limits_of self.old.tables ≡ board_limits board.now }
        requires number { self.old.numbers + 3 < 2 ^ 64 }
        requires room { HasRoom self.old out.old (2 + length self.old.tables.threads) }
        ensures acts { Acts self.old self.new out.old out.new (2 + length self.old.tables.threads) (settled_effect board.now (state_of self.old) (alarm_effect board.now (alarm_of (names_of self.old.armed.timers) no) (state_of self.old))) }
        ensures count { steps.new ≡ steps.old }
    {
        self.armed.know_timers();
        self.tables.know_waits();
        if no.0 < 256 {
            self.fire(ThreadNo(no.0), out);
        } else {
            self.fire_timer(board, ObjNo(no.0 - 256), out, steps);
        }
    }
}
