ghost use Rattle.std.specs.Prelude.{◌≡◌, ◌+◌, ◌<◌, ◌≤◌, length, true, false, Some, None, IfSome, is_some};
ghost use Rattle.rt_plain.specs.kernel.Pick.{pick};
ghost use Rattle.rt_plain.specs.kernel.Steps.{with_running, preempted_state, is_preemptible, takes_from};
ghost use Rattle.rt_plain.specs.kernel.Sound.{is_active};
ghost use Rattle.rt_plain.specs.kernel.State.{is_among, running_on};
ghost use Rattle.kernel_tables.specs.Threads.{row_at};
ghost use Rattle.rt_kernel.specs.Does.{Acts};
ghost use Rattle.rt_kernel.specs.Limits.{limits_of};
ghost use Rattle.rt_kernel.specs.Switched.{switched, effect_or, run_effect, preempt_effect};
ghost use Rattle.rt_kernel.specs.Caller.{IsOnCore};
ghost use Rattle.rt_kernel.specs.Mutexes.{AreActive};
ghost use Rattle.rt_kernel.specs.View.{state_of};

use crate::state::State;
use rt_base::{CoreNo, Steps, ThreadNo};
use rt_plain::{Line, Lines};
use std::sync::ledger::Ledger;

impl State {
    // The thread that a core takes next.
    #[tactic(auto, using(crate::proofs::PickLemmas::picks))]
    pub fn pick<L: Ledger>(&self, core: CoreNo, steps: &mut Steps<L>) -> Option<ThreadNo>
        requires core { core < self.now.tables.cores }
        requires active { AreActive self.now.tables }
        ensures is { result ≡ pick (state_of self.now) core }
        ensures there { IfSome result (λ u. (u < length self.now.tables.threads) × (is_among self.now.tables.ready u ≡ true)) }
        ensures cost { steps.new ≤ steps.old + 8 }
    {
        self.tables.pick(core, steps)
    }

    // Whether a running thread may be preempted on its core: it has no scheduler lock, and the core not the lock over all
    // cores.
    pub fn is_preemptible(&self, core: CoreNo, r: ThreadNo) -> bool
        requires { r < length self.now.tables.threads }
        ensures { result ≡ is_preemptible (state_of self.now) core r }
    {
        let locked = 0 < self.tables.locks(r);
        !locked && !self.cores.holds(core)
    }

    // Whether the thread p takes the core from the running thread r.
    fn takes_from(&self, p: ThreadNo, r: ThreadNo) -> bool
        requires p { p < length self.now.tables.threads }
        requires r { r < length self.now.tables.threads }
        requires p_active { is_active (row_at self.now.tables.threads p).stage ≡ true }
        requires r_active { is_active (row_at self.now.tables.threads r).stage ≡ true }
        ensures { result ≡ takes_from (state_of self.now) p r }
    {
        let urgency = self.tables.cur(p).0;
        let other = self.tables.cur(r).0;
        urgency < other || (urgency == other && self.tables.is_marked(r))
    }

    // The core runs the thread.
    fn run(&mut self, core: CoreNo, p: ThreadNo)
        requires there { p < length self.old.tables.threads }
        requires core { core < length self.old.cores.running }
        ensures state { state_of self.new ≡ with_running (state_of self.old) core p }
        ensures limits { limits_of self.new.tables ≡ limits_of self.old.tables }
    {
        self.tables.leave_ready(p);
        self.cores.run(core, p);
    }

    // The running thread leaves for the end of the ready list if it is marked, and else for its front.
    fn preempt(&mut self, r: ThreadNo)
        requires there { r < length self.old.tables.threads }
        requires active { is_active (row_at self.old.tables.threads r).stage ≡ true }
        requires unready { is_among self.old.tables.ready r ≡ false }
        ensures state { state_of self.new ≡ preempted_state (state_of self.old) r }
        ensures threads { length self.new.tables.threads ≡ length self.old.tables.threads }
        ensures limits { limits_of self.new.tables ≡ limits_of self.old.tables }
        ensures cores { self.new.cores ≡ self.old.cores }
    {
        let marked = self.tables.is_marked(r);
        self.tables.unmark(r);
        if marked {
            self.tables.enter_last(r);
        } else {
            self.tables.enter_first(r);
        }
    }

    // A free core takes a thread.
    fn run_free(&mut self, core: CoreNo, p: ThreadNo, out: &mut Lines)
        requires there { p < length self.old.tables.threads }
        requires core { core < length self.old.cores.running }
        requires lines { length out.old.items < out.old.room }
        ensures { Acts self.old self.new out.old out.new 1 (run_effect (state_of self.old) core p) }
    {
        out.push(Line::Run(self.tables.name(p)));
        self.run(core, p);
    }

    // A core takes a thread in place of its own.
    fn run_instead(&mut self, core: CoreNo, r: ThreadNo, p: ThreadNo, out: &mut Lines)
        requires p { p < length self.old.tables.threads }
        requires r { r < length self.old.tables.threads }
        requires active { is_active (row_at self.old.tables.threads r).stage ≡ true }
        requires unready { is_among self.old.tables.ready r ≡ false }
        requires core { core < length self.old.cores.running }
        requires lines { length out.old.items + 2 ≤ out.old.room }
        ensures { Acts self.old self.new out.old out.new 2 (preempt_effect (state_of self.old) core r p) }
    {
        out.push(Line::Out(self.tables.name(r), !self.tables.is_marked(r)));
        out.push(Line::Run(self.tables.name(p)));
        self.preempt(r);
        self.run(core, p);
    }

    // A core takes a thread, if one may run there: true where it did.
    pub fn switch<L: Ledger>(&mut self, core: CoreNo, out: &mut Lines, steps: &mut Steps<L>) -> bool
        requires core { core < self.old.tables.cores }
        requires place { core < length self.old.cores.running }
        requires running { IfSome (running_on (state_of self.old) core) (λ r. IsOnCore self.old.tables r) }
        requires active { AreActive self.old.tables }
        requires lines { length out.old.items + 2 ≤ out.old.room }
        ensures answer { result ≡ is_some (switched (state_of self.old) core) }
        ensures acts { Acts self.old self.new out.old out.new 2 (effect_or (state_of self.old) (switched (state_of self.old) core)) }
        ensures numbers { self.new.numbers ≡ self.old.numbers }
        ensures cost { steps.new ≤ steps.old + 8 }
    {
        let Some(p) = self.pick(core, steps) else {
            return false;
        };
        match self.cores.running(core) {
            None => {
                self.run_free(core, p, out);
                true
            }
            Some(r) => {
                if !(self.is_preemptible(core, r) && self.takes_from(p, r)) {
                    return false;
                }
                self.run_instead(core, r, p, out);
                true
            }
        }
    }
}
