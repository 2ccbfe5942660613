ghost use Rattle.std.specs.Prelude.{◌≡◌, ◌+◌, ◌*◌, ◌<◌, ◌≤◌, ◌^◌, ◌==◌, ◌++◌, [], All, length, true, Some, None, is_some, IfOk, IfSome, if◌then◌else◌};
ghost use Rattle.rt_base.specs.declared.codes.Event.TheVariants.{Step, Tick as TickEvent};
ghost use Rattle.rt_plain.specs.kernel.State.{running_on};
ghost use Rattle.rt_plain.specs.kernel.Due.{due};
ghost use Rattle.rt_plain.specs.kernel.Opening.{open_state};
ghost use Rattle.rt_plain.specs.kernel.Shown.{shown};
ghost use Rattle.rt_plain.specs.kernel.Statements.{statement_effect};
ghost use Rattle.rt_plain.specs.kernel.Steps.{happens, is_all_idle};
ghost use Rattle.rt_base.specs.declared.codes.Halt.TheVariants.{Until};
ghost use Rattle.rt_plain.specs.kernel.Ticks.{alarms_effect, deliveries, tick_effect};
ghost use Rattle.rt_plain.specs.runs.Runs.{is_event_of, room};
ghost use Rattle.rt_plain.specs.kernel.Sound.{IsProper, IsSized};
ghost use Rattle.kernel_step.specs.Built.{IsClocked, is_built};
ghost use Rattle.kernel_step.specs.Did.{FitsIn, Gives, idle_did};
ghost use Rattle.kernel_step.specs.Engine.{state_of, IsGoing, IsOnTime};
ghost use Rattle.kernel_step.specs.Fired.{event_rows, is_brief, row_cost, rows_now, tick_rows};

use crate::Did;
use kernel_devices::laws::deliveries_go_one_by_one;
use pm_core::LpClock;
use rt_base::{CoreNo, Event, Halt, RunMode, Steps, ThreadNo};
use rt_kernel::{Caller, Kernel};
use rt_plain::{Board, Lines, Stmt};
use std::alloc::{AllocError, Global};
use std::sync::ledger::Ledger;

/// The kernel, the low-power clock, and how the kernel's last tick has halted it.
#[derive(Drop)]
pub(crate) struct Engine {
    pub(crate) kernel: Kernel,
    /// It goes with the kernel's moment.
    pub(crate) clock: LpClock,
    pub(crate) halt: Option<Halt>,
}

// All rows that are due fire, the one that was armed first before the others. One row is looked up for each that fires,
// and then the next one, which isn't due.
fn fire_due<L: Ledger>(kernel: &mut Kernel, out: &mut Lines, steps: &mut Steps<L>)
    requires lines { length out.old.items + (2 + length kernel.old.board.threads) * length (due kernel.old.state) ≤ out.old.room }
    requires number { kernel.old.state.numbers + 2 * length (due kernel.old.state) + 1 < 2 ^ 64 }
    ensures board { kernel.new.board ≡ kernel.old.board }
    ensures state { kernel.new.state ≡ (alarms_effect kernel.old.board kernel.old.state).state }
    ensures lines { out.new.items ≡ out.old.items ++ (alarms_effect kernel.old.board kernel.old.state).lines }
    ensures out_room { out.new.room ≡ out.old.room }
    ensures moment { kernel.new.state.moment ≡ kernel.old.state.moment }
    ensures arrivals { kernel.new.state.arrivals ≡ kernel.old.state.arrivals }
    ensures count { steps.new ≤ steps.old + 1 + rows_now kernel.old.board kernel.old.state * row_cost kernel.old.board }
{
    while let Some(no) = kernel.take_due(steps) {
        kernel.fire(no, out, steps);
    }
}

// What arrives at this moment is delivered, in board order. One arrival is looked at for each that comes, and then the next
// one, which comes later.
fn deliver<L: Ledger>(kernel: &mut Kernel, out: &mut Lines, steps: &mut Steps<L>)
    requires ahead { All (λ a. kernel.old.state.moment ≤ a.moment) kernel.old.state.arrivals }
    requires lines { length out.old.items + length (deliveries kernel.old.state).lines + 2 ≤ out.old.room }
    ensures board { kernel.new.board ≡ kernel.old.board }
    ensures state { kernel.new.state ≡ (deliveries kernel.old.state).state }
    ensures lines { out.new.items ≡ out.old.items ++ (deliveries kernel.old.state).lines }
    ensures out_room { out.new.room ≡ out.old.room }
    ensures count { steps.new ≡ steps.old }
{
    deliveries_go_one_by_one();
    while let Some(arrival) = kernel.take_arrival() {
        kernel.arrive(&arrival.device, &arrival.text, out, steps);
    }
}

// The thread that a core runs goes on: with the call that it has to make again, or else with its next statement.
fn go_on<L: Ledger>(
    kernel: &mut Kernel,
    core: CoreNo,
    t: ThreadNo,
    out: &mut Lines,
    steps: &mut Steps<L>,
)
    requires runs { running_on kernel.old.state core ≡ Some t }
    requires core { core < kernel.old.board.cores }
    requires number { kernel.old.state.numbers + 2 < 2 ^ 64 }
    requires empty { out.old.items ≡ [] }
    requires room { length kernel.old.board.threads + 2 ≤ out.old.room }
    ensures board { kernel.new.board ≡ kernel.old.board }
    ensures state { kernel.new.state ≡ (statement_effect kernel.old.board t core kernel.old.state).state }
    ensures lines { out.new.items ≡ (statement_effect kernel.old.board t core kernel.old.state).lines }
    ensures moment { kernel.new.state.moment ≡ kernel.old.state.moment }
    ensures out_room { out.new.room ≡ out.old.room }
{
    kernel.know_kernel();
    if kernel.retries(t) {
        if kernel.has_call(t) {
            kernel.again(core, t, out, steps);
        }
        return;
    }
    match kernel.next_statement(t) {
        Stmt::Do(call) => {
            kernel.call(Caller::Thread(t, core), &call, out, steps);
        }
        statement => kernel.plain(core, &statement, out, steps),
    }
}

// One step of a core: it waits for the lock over all cores, or takes a thread, or its thread goes on. None where it has no
// thread and takes none, and then nothing changes.
fn thread_step<L: Ledger>(
    kernel: &mut Kernel,
    core: CoreNo,
    out: &mut Lines,
    steps: &mut Steps<L>,
) -> Option<Did>
    requires core { core < kernel.old.board.cores }
    requires empty { out.old.items ≡ [] }
    requires room { length kernel.old.board.threads + 2 ≤ out.old.room }
    requires number { kernel.old.state.numbers + 2 < 2 ^ 64 }
    ensures gives { IfSome result (λ did. Gives (happens kernel.old.board kernel.old.state (Step core)) did kernel.old.state kernel.new.state out.new.items) }
    ensures rests { result ≡ None → happens kernel.old.board kernel.old.state (Step core) ≡ idle_did kernel.old.board kernel.old.state core }
    ensures still { result ≡ None → (kernel.new.state ≡ kernel.old.state) × (out.new.items ≡ []) }
    ensures board { kernel.new.board ≡ kernel.old.board }
    ensures moment { kernel.new.state.moment ≡ kernel.old.state.moment }
    ensures cost { is_all_idle kernel.old.state ≡ true → steps.new ≤ steps.old + 8 }
    ensures out_room { out.new.room ≡ out.old.room }
{
    kernel.know_kernel();
    if kernel.must_wait(core) {
        return Some(Did::Same);
    }
    if kernel.switch(core, out, steps) {
        return Some(Did::Entry);
    }
    match kernel.running(core) {
        Some(t) => {
            kernel.unmark(core);
            go_on(kernel, core, t, out, steps);
            Some(Did::Entry)
        }
        None => None,
    }
}

// The machine halts at the board's last moment.
fn halt_at_end(kernel: &Kernel) -> Option<Halt>
    ensures { result ≡ (if kernel.now.state.moment == kernel.now.board.until then Some Until else None) }
{
    if kernel.moment() == kernel.board().until {
        Some(Halt::Until)
    } else {
        None
    }
}

impl Engine {
    /// The kernel as the board opens. The one refusal is want of memory.
    pub(crate) fn open(alloc: Global, board: Board) -> Result<Engine, AllocError>
        requires built { is_built board ≡ true }
        requires clocked { IsClocked board }
        ensures board { IfOk result (λ k. k.kernel.board ≡ board) }
        ensures state { IfOk result (λ k. state_of k ≡ open_state board) }
        ensures clock { IfOk result IsOnTime }
    {
        let clock = LpClock::new(board.lp_h, board.lp_q);
        let kernel = Kernel::open(alloc, board)?;
        kernel.know_kernel();
        Ok(Engine {
            kernel,
            clock,
            halt: None,
        })
    }

    // A core that has no thread and takes none waits. The first one follows the sleep rule where no core has one.
    fn at_rest<L: Ledger>(&mut self, core: CoreNo, out: &mut Lines, steps: &mut Steps<L>) -> Did
        requires going { IsGoing self.old }
        requires fits { FitsIn (idle_did self.old.kernel.board self.old.kernel.state core) out.old.room }
        requires empty { out.old.items ≡ [] }
        requires room { room self.old.kernel.board ≤ out.old.room }
        ensures gives { Gives (idle_did self.old.kernel.board self.old.kernel.state core) result (state_of self.old) (state_of self.new) out.new.items }
        ensures board { self.new.kernel.board ≡ self.old.kernel.board }
        ensures clock { IsOnTime self.new }
        ensures count { steps.new ≤ steps.old + 1 + event_rows self.old.kernel.board self.old.kernel.state (Step core) * row_cost self.old.kernel.board }
        ensures out_room { out.new.room ≡ out.old.room }
    {
        if core.0 == 0 && self.kernel.all_idle() {
            self.rest(out, steps)
        } else {
            Did::Same
        }
    }

    // One step of a core.
    fn step<L: Ledger>(&mut self, core: CoreNo, out: &mut Lines, steps: &mut Steps<L>) -> Did
        requires going { IsGoing self.old }
        requires core { core < self.old.kernel.board.cores }
        requires fits { FitsIn (happens self.old.kernel.board (state_of self.old) (Step core)) out.old.room }
        requires empty { out.old.items ≡ [] }
        requires room { room self.old.kernel.board ≤ out.old.room }
        ensures gives { Gives (happens self.old.kernel.board (state_of self.old) (Step core)) result (state_of self.old) (state_of self.new) out.new.items }
        ensures board { self.new.kernel.board ≡ self.old.kernel.board }
        ensures clock { IsOnTime self.new }
        ensures count { is_all_idle self.old.kernel.state ≡ true → steps.new ≤ steps.old + 9 + event_rows self.old.kernel.board self.old.kernel.state (Step core) * row_cost self.old.kernel.board }
        ensures out_room { out.new.room ≡ out.old.room }
    {
        self.kernel.know_kernel();
        match thread_step(&mut self.kernel, core, out, steps) {
            Some(did) => {
                self.kernel.know_kernel();
                did
            }
            None => self.at_rest(core, out, steps),
        }
    }

    // A tick passes, where no core holds the lock over all cores. Lines may be shown already.
    pub(crate) fn pass_tick<L: Ledger>(&mut self, out: &mut Lines, steps: &mut Steps<L>)
        requires live { self.old.halt ≡ None }
        requires clock { IsOnTime self.old }
        requires none { due self.old.kernel.state ≡ [] }
        requires ahead { All (λ a. self.old.kernel.state.moment < a.moment) self.old.kernel.state.arrivals }
        requires moment { self.old.kernel.state.moment < 1099511627775 }
        requires fits { length out.old.items + length (tick_effect self.old.kernel.board self.old.kernel.state).lines + 16 ≤ out.old.room }
        requires room { length out.old.items + (2 + length self.old.kernel.board.threads) * (length self.old.kernel.board.threads + length self.old.kernel.board.timers) ≤ out.old.room }
        requires number { self.old.kernel.state.numbers + 2 * (length self.old.kernel.board.threads + length self.old.kernel.board.timers) + 1 < 2 ^ 64 }
        ensures state { state_of self.new ≡ (tick_effect self.old.kernel.board self.old.kernel.state).state }
        ensures lines { out.new.items ≡ out.old.items ++ (tick_effect self.old.kernel.board self.old.kernel.state).lines }
        ensures moment { self.new.kernel.state.moment ≡ self.old.kernel.state.moment + 1 }
        ensures board { self.new.kernel.board ≡ self.old.kernel.board }
        ensures clock { IsOnTime self.new }
        ensures count { steps.new ≤ steps.old + 1 + tick_rows self.old.kernel.board self.old.kernel.state * row_cost self.old.kernel.board }
        ensures out_room { out.new.room ≡ out.old.room }
    {
        self.kernel.know_kernel();
        self.kernel.begin_tick();
        self.clock.advance(1);
        self.kernel.know_kernel();
        fire_due(&mut self.kernel, out, steps);
        deliver(&mut self.kernel, out, steps);
        self.kernel.know_kernel();
        self.kernel.drain(out);
        self.kernel.know_kernel();
        self.halt = halt_at_end(&self.kernel);
    }

    // One tick. None passes while a core holds the lock over all cores.
    fn tick_step<L: Ledger>(&mut self, out: &mut Lines, steps: &mut Steps<L>) -> Did
        requires going { IsGoing self.old }
        requires fits { FitsIn (happens self.old.kernel.board (state_of self.old) TickEvent) out.old.room }
        requires empty { out.old.items ≡ [] }
        requires room { room self.old.kernel.board ≤ out.old.room }
        ensures gives { Gives (happens self.old.kernel.board (state_of self.old) TickEvent) result (state_of self.old) (state_of self.new) out.new.items }
        ensures board { self.new.kernel.board ≡ self.old.kernel.board }
        ensures clock { IsOnTime self.new }
        ensures count { steps.new ≤ steps.old + 1 + tick_rows self.old.kernel.board self.old.kernel.state * row_cost self.old.kernel.board }
        ensures out_room { out.new.room ≡ out.old.room }
    {
        self.kernel.know_kernel();
        if self.kernel.is_nested() {
            return Did::Same;
        }
        self.pass_tick(out, steps);
        Did::Entry
    }

    /// One event: a step of a core, or a tick.
    #[tactic(auto, unfolding(crate::specs::Engine::state_of))]
    pub(crate) fn event<L: Ledger>(
        &mut self,
        event: &Event,
        out: &mut Lines,
        steps: &mut Steps<L>,
    ) -> Did
        requires going { IsGoing self.old }
        requires core { is_event_of self.old.kernel.board event.now ≡ true }
        requires fits { FitsIn (happens self.old.kernel.board (state_of self.old) event.now) out.old.room }
        requires empty { out.old.items ≡ [] }
        requires room { room self.old.kernel.board ≤ out.old.room }
        ensures gives { Gives (happens self.old.kernel.board (state_of self.old) event.now) result (state_of self.old) (state_of self.new) out.new.items }
        ensures board { self.new.kernel.board ≡ self.old.kernel.board }
        ensures clock { IsOnTime self.new }
        ensures count { is_brief (state_of self.old) event.now ≡ true → steps.new ≤ steps.old + 9 + event_rows self.old.kernel.board (state_of self.old) event.now * row_cost self.old.kernel.board }
        ensures out_room { out.new.room ≡ out.old.room }
    {
        self.kernel.know_kernel();
        match event {
            Event::Step(core) => self.step(*core, out, steps),
            Event::Tick => self.tick_step(out, steps),
        }
    }

    /// The board.
    pub(crate) fn board(&self) -> &Board
        ensures { result.now ≡ self.now.kernel.board }
    {
        self.kernel.board()
    }

    /// The moment of now: how many ticks have passed since opening.
    #[tactic(auto, unfolding(crate::specs::Engine::state_of))]
    pub(crate) fn moment(&self) -> u64
        ensures { result ≡ (state_of self.now).moment }
    {
        self.kernel.moment()
    }

    /// The tick that is shown now.
    #[tactic(auto, unfolding(crate::specs::Engine::state_of))]
    pub(crate) fn tick(&self) -> u32
        ensures { result ≡ shown self.now.kernel.board (state_of self.now).moment }
    {
        self.kernel.tick()
    }

    /// How the last tick halted it.
    #[tactic(auto, unfolding(crate::specs::Engine::state_of))]
    pub(crate) fn halt(&self) -> Option<Halt>
        ensures { result ≡ (state_of self.now).halt }
    {
        self.halt
    }

    /// The run mode of now.
    #[tactic(auto, unfolding(crate::specs::Engine::state_of))]
    pub(crate) fn run_mode(&self) -> RunMode
        ensures { result ≡ (state_of self.now).run_mode }
    {
        self.kernel.run_mode()
    }

    /// Whether a core holds the lock over all cores.
    #[tactic(auto, unfolding(crate::specs::Engine::state_of))]
    pub(crate) fn is_nested(&self) -> bool
        ensures { result ≡ is_some (state_of self.now).nest }
    {
        self.kernel.is_nested()
    }

    /// What is so in every engine: the board is valid enough for the laws of the plain kernel.
    #[tactic(auto, unfolding(crate::specs::Engine::state_of))]
    pub(crate) fn know_engine(&self)
        ensures proper { IsProper self.now.kernel.board }
        ensures sized { IsSized self.now.kernel.board }
    {
        self.kernel.know_kernel();
    }
}
