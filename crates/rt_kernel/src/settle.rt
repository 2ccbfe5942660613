ghost use Rattle.std.specs.Prelude.{◌≡◌, ◌+◌, ◌<◌, ◌^◌, ◌-◌, true, false, length};
ghost use Rattle.rt_plain.specs.kernel.Sound.{is_levelled_call};
ghost use Rattle.rt_kernel.specs.Caller.{IsOnCore};
ghost use Rattle.rt_kernel.specs.Built.{is_built_call};
ghost use Rattle.rt_kernel.specs.Does.{Does};
ghost use Rattle.rt_kernel.specs.HasRoom.{HasRoom};
ghost use Rattle.rt_kernel.specs.Limits.{limits_of, board_limits};
ghost use Rattle.rt_kernel.specs.NextCall.{settled_call};
ghost use Rattle.kernel_tables.specs.Threads.{row_at};
ghost use Rattle.rt_plain.specs.kernel.Sound.{is_timed_call};
ghost use Rattle.rt_plain.specs.kernel.State.{OfThread};
ghost use Rattle.kernel_timers.specs.Alarmed.{is_armed};
ghost use Rattle.rt_kernel.specs.View.{state_of};

use crate::answer::Answer;
use crate::state::State;
use rt_base::{CoreNo, Steps, ThreadNo};
use rt_plain::{Board, Call, Lines};
use std::sync::ledger::Ledger;

impl State {
    // The call that a thread makes next, with what follows from it.
    pub fn call<L: Ledger>(
        &mut self,
        board: &Board,
        t: ThreadNo,
        core: CoreNo,
        call: &Call,
        out: &mut Lines,
        steps: &mut Steps<L>,
    ) -> Answer
        requires built { is_built_call call.now ≡ true }
        requires free { is_armed (OfThread t) self.old.armed.rows ≡ false }
        requires timed { is_timed_call call.now ≡ true }
        requires limits { limits_of self.old.tables ≡ board_limits board.now }
        requires runs { IsOnCore self.old.tables t }
        requires level { is_levelled_call self.old.tables.levels call.now ≡ true }
        requires next { (row_at self.old.tables.threads t).next < 2 ^ 16 - 1 }
        requires room { HasRoom self.old out.old (2 + length self.old.tables.threads) }
        ensures { Does self.old self.new out.old out.new result (2 + length self.old.tables.threads) (settled_call board.now t core call.now (state_of self.old)) }
    {
        let k = self.tables.next(t);
        self.tables.set_next(t, k + 1);
        self.do_call(board, t, core, k, call, out, steps)
    }
}
