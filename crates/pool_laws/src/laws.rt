ghost use Rattle.std.specs.Prelude.{◌≡◌, ℕ, List, Option, None, Some};
ghost use Rattle.rt_plain.specs.declared.entry.Entry.{Entry};
ghost use Rattle.rt_plain.specs.declared.stmt.Call.{Call};
ghost use Rattle.rt_plain.specs.PlainBoard.{PlainBoard};
ghost use Rattle.rt_plain.specs.kernel.Opening.{open_state};
ghost use Rattle.rt_plain.specs.kernel.PoolCalls.{find_pool, free_block};
ghost use Rattle.rt_plain.specs.kernel.State.{State, InCall, Pool, Waiting, thread_at};
ghost use Rattle.rt_plain.specs.runs.Runs.{IsRun};

/// In every state that a run reaches, a thread waits for a block of a memory pool only where none of its blocks is free.
pub fn nobody_waits_for_a_free_block()
    ensures { (b : PlainBoard) (journal : List Entry) (s : State) (t number : ℕ) (name : List ℕ)
        (timeout : Option ℕ) (pool : Pool) → IsRun b (open_state b) journal s →
        (thread_at s t).stage ≡ Waiting (InCall (Call.MpAlloc name timeout)) number →
        find_pool s name ≡ Some pool → free_block pool ≡ None }
{}
