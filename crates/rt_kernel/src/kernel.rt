ghost use Rattle.std.specs.Prelude.{◌≡◌, ◌+◌, ◌<◌, ◌≤◌, ◌^◌, ◌-◌, ◌==◌, ◌++◌, [], ℕ, All, true, false, length, filter, map, reverse, is_some, IsSome, Some, None, IfSome, IfOk, if◌then◌else◌};
ghost use Rattle.rt_plain.specs.kernel.Opening.{open_state};
ghost use Rattle.rt_plain.specs.kernel.Shown.{shown};
ghost use Rattle.std.specs.Option.{option_map, ForSome};
ghost use Rattle.rt_plain.specs.declared.stmt.Call.{Call as PlainCall};
ghost use Rattle.rt_plain.specs.declared.line.Line.TheVariants.{Suspend as SuspendLine, Resume as ResumeLine};
ghost use Rattle.rt_plain.specs.kernel.DeviceCalls.{arrival_effect_at, find_device, is_busy};
ghost use Rattle.rt_plain.specs.kernel.Effects.{no_effect};
ghost use Rattle.rt_plain.specs.kernel.State.{InCall, Nest, OfThread, Retry, thread_at, running_on, is_closed, is_nest_of_other};
ghost use Rattle.rt_plain.specs.kernel.Owners.{close_effect};
ghost use Rattle.rt_plain.specs.kernel.Statements.{script_of, statement_at, statement_effect};
ghost use Rattle.rt_plain.specs.kernel.Outcome.{ByThread, First, Again};
ghost use Rattle.rt_plain.specs.kernel.Calls.{outcome_of, settled_effect};
ghost use Rattle.rt_plain.specs.kernel.Due.{due, alarm_effect};
ghost use Rattle.rt_plain.specs.kernel.Ticks.{next_tick_state, transmissions};
ghost use Rattle.rt_plain.specs.kernel.Sleeps.{is_empty, powered_devices};
ghost use Rattle.rt_plain.specs.kernel.Sound.{IsProper, IsSized};
ghost use Rattle.rt_plain.specs.kernel.Steps.{is_all_idle, is_preemptible, without_mark};
ghost use Rattle.rt_plain.specs.kernel.Kept.{Kept};
ghost use Rattle.rt_kernel.specs.Built.{IsBuilt, is_built};
ghost use Rattle.rt_kernel.specs.declared.caller.Caller.TheVariants.{Thread as CallerOn, Timer as CallerAs};
ghost use Rattle.rt_kernel.specs.Again.{resumed};
ghost use Rattle.rt_kernel.specs.Answer.{plain_answer};
ghost use Rattle.kernel_timers.specs.Alarmed.{alarm_of, first_alarm, is_armed, names_of};
ghost use Rattle.rt_kernel.specs.Actions.{MayFire, timer_call};
ghost use Rattle.rt_kernel.specs.Due.{taken};
ghost use Rattle.rt_kernel.specs.IsKernel.{frame_of, IsInOrder};
ghost use Rattle.rt_kernel.specs.NextCall.{begun};
ghost use Rattle.rt_kernel.specs.Plain.{is_plain};
ghost use Rattle.rt_kernel.specs.PlainKernel.{DoesNext, MayCall, IsAlone};
ghost use Rattle.rt_kernel.specs.Switched.{switched, effect_or};
ghost use Rattle.rt_kernel.specs.Caller.{IsOnCore};
ghost use Rattle.rt_kernel.specs.Mutexes.{AreActive, HasNoMutex, NobodyWaits};
ghost use Rattle.kernel_devices.specs.Deviced.{next_moment};
ghost use Rattle.pm_core.specs.Moments.{IsLeastAhead};
ghost use Rattle.rt_kernel.specs.Notice.{TakesArrival};
ghost use Rattle.kernel_tables.specs.Repeated.{has_call};
ghost use Rattle.kernel_tables.specs.Threads.{row_at};
ghost use Rattle.rt_kernel.specs.View.{state_of};

use crate::answer::Answer;
use crate::built::know_built;
use crate::caller::Caller;
use crate::state::State;
use kernel_devices::Incoming;
use kernel_devices::laws::transmissions_are_drained;
use rt_base::{CoreNo, Name, RunMode, Steps, Text, ThreadNo, TimerNo};
use rt_plain::{Board, Call, Lines, Stmt};
use std::alloc::{AllocError, Global};
use std::marker::Model;
use std::sync::ledger::Ledger;

/// The kernel of a board: its threads, the objects that they wait for, the ready list, who runs, and what is armed.
/// Contracts see the board and the plain state. All its memory is taken when it is opened, and no later call takes
/// any.
#[derive(Drop)]
pub struct Kernel {
    pub(crate) board: Board,
    pub(crate) state: State,
}

impl Model for Kernel {
    ghost use Rattle.rt_kernel.specs.PlainKernel.{PlainKernel};

    ghost Value = { PlainKernel };

    ghost use Rattle.rt_kernel.specs.View.{state_of};
    ghost use Rattle.rt_kernel.specs.IsKernel.{IsKernel};

    ghost view = { λ k. record { board = k.board; state = state_of k.state } };

    ghost invariant = { IsKernel };
}

// What the kernel keeps of its state.
fn know_state(board: &Board, state: &State)
    requires built { IsBuilt board.now }
    requires kept { Kept (frame_of board.now (state_of state.now)) (state_of state.now) }
    requires mutexes { HasNoMutex (state_of state.now) }
    ensures nobody { NobodyWaits (state_of state.now) }
    ensures count { length state.now.tables.threads ≡ length board.now.threads }
    ensures latest { All (λ row. row.number < state.now.numbers) state.now.armed.rows }
    ensures cores { length state.now.cores.running ≡ board.now.cores }
    ensures free { (core r : ℕ) → running_on (state_of state.now) core ≡ Some r → is_armed (OfThread r) state.now.armed.rows ≡ false }
    ensures moment { state.now.armed.moment ≤ 1099511627775 }
    ensures active { AreActive state.now.tables }
    ensures once { (u : ℕ) → length (filter (λ v. v == u) state.now.tables.ready) ≤ 1 }
    ensures running { (core r : ℕ) → running_on (state_of state.now) core ≡ Some r → IsOnCore state.now.tables r }
    ensures next { (core r : ℕ) → running_on (state_of state.now) core ≡ Some r → (row_at state.now.tables.threads r).next < 2 ^ 16 - 1 }
{
    let _board = board;
    state.tables.know_waits();
}

// How many cores a board has.
fn cores_of(board: &Board) -> u8
    ensures { result ≡ board.now.cores }
{
    board.cores
}

// The script of a thread: the threads have the numbers of their definitions in the board.
#[tactic(auto, using(crate::proofs::NameLemmas::script_here))]
fn script_of<'a>(board: &'a Board, state: &State, t: ThreadNo) -> &'a [Stmt]
    requires built { IsBuilt board.now }
    requires order { IsInOrder board.now (state_of state.now) }
    requires there { t < length board.now.threads }
    ensures { result.now ≡ script_of board.now (row_at state.now.tables.threads t).name }
{
    let _state = state;
    board.threads.as_slice()[t.0 as usize].script.as_slice()
}

impl Kernel {
    /// The kernel as the board opens: all memory is taken, timers are armed, and the started threads are ready. The one
    /// refusal is want of memory.
    pub fn open(alloc: Global, board: Board) -> Result<Kernel, AllocError>
        requires built { is_built board ≡ true }
        ensures board { IfOk result (λ k. k.board ≡ board) }
        ensures state { IfOk result (λ k. k.state ≡ open_state board) }
    {
        know_built(&board);
        let state = State::open(alloc, &board)?;
        Ok(Kernel { board, state })
    }

    /// What is so in every kernel: the board is built, what isn't built yet is constant in the state, a thread that runs has
    /// not ended, and a core that holds the lock over all cores runs a thread.
    pub fn know_kernel(&self)
        ensures proper { IsProper self.now.board }
        ensures sized { IsSized self.now.board }
        ensures built { IsBuilt self.now.board }
        ensures devices { length self.now.state.devices ≤ 16 }
        ensures alone { IsAlone self.now.state }
        ensures kept { Kept (frame_of self.now.board self.now.state) self.now.state }
        ensures threads { length self.now.state.threads ≡ length self.now.board.threads }
        ensures due { length (due self.now.state) ≤ length self.now.board.threads + length self.now.board.timers }
        ensures there { (core t : ℕ) → running_on self.now.state core ≡ Some t → t < length self.now.state.threads }
        ensures active { (core t : ℕ) → running_on self.now.state core ≡ Some t → is_closed (thread_at self.now.state t).stage ≡ false }
        ensures held { (n : Nest) → self.now.state.nest ≡ Some n → (t : ℕ) × (running_on self.now.state n.core ≡ Some t) }
    {
        let _ = self.state.devices.count();
    }

    /// The board for which it was opened.
    pub fn board(&self) -> &Board
        ensures { result.now ≡ self.now.board }
    {
        &self.board
    }

    /// The moment of now: how many ticks have passed since opening, at most 1099511627775.
    pub fn moment(&self) -> u64
        ensures moment { result ≡ self.now.state.moment }
        ensures early { result ≤ 1099511627775 }
    {
        know_state(&self.board, &self.state);
        self.state.armed.moment()
    }

    /// The tick that is shown now: the board's first one and the moment, modulo 4294967296.
    pub fn tick(&self) -> u32
        ensures { result ≡ shown self.now.board self.now.state.moment }
    {
        let tick = self.board.tick0 as u64 + self.moment();
        (tick % 4_294_967_296) as u32
    }

    /// The next start or arrival number.
    pub fn numbers(&self) -> u64
        ensures { result ≡ self.now.state.numbers }
    {
        self.state.numbers
    }

    /// The run mode.
    pub fn run_mode(&self) -> RunMode
        ensures { result ≡ self.now.state.run_mode }
    {
        self.state.run_mode
    }

    /// The thread that a core runs: `None` exactly where it runs nobody.
    pub fn running(&self, core: CoreNo) -> Option<ThreadNo>
        requires { core < self.now.board.cores }
        ensures { result ≡ running_on self.now.state core }
    {
        know_state(&self.board, &self.state);
        self.state.cores.running(core)
    }

    /// Whether a core holds the lock over all cores.
    pub fn is_nested(&self) -> bool
        ensures { result ≡ is_some self.now.state.nest }
    {
        self.state.cores.is_held()
    }

    /// Whether a core must wait: another one holds the lock over all cores.
    pub fn must_wait(&self, core: CoreNo) -> bool
        ensures { result ≡ is_nest_of_other core self.now.state.nest }
    {
        self.state.cores.is_held_by_other(core)
    }

    /// Whether no core runs a thread and none is ready.
    pub fn all_idle(&self) -> bool
        ensures { result ≡ is_all_idle self.now.state }
    {
        self.state.tables.is_idle() && !self.state.cores.is_busy()
    }

    /// Whether nothing is armed.
    pub fn nothing_armed(&self) -> bool
        ensures { result ≡ is_empty self.now.state.armed }
    {
        self.state.armed.is_empty()
    }

    /// The number of the statement that a thread does next, from 1 on.
    pub fn next(&self, thread: ThreadNo) -> u16
        requires { thread < length self.now.state.threads }
        ensures { result ≡ (thread_at self.now.state thread).next }
    {
        self.state.tables.next(thread)
    }

    /// Case 3 or 4 of a step: a free core takes a thread, or a core one in place of its own. False exactly where neither
    /// applies, and then nothing changes. It adds at most 2 lines, and counts at most 8 reads.
    pub fn switch<L: Ledger>(&mut self, core: CoreNo, out: &mut Lines, steps: &mut Steps<L>) -> bool
        requires core { core < self.old.board.cores }
        requires lines { length out.old.items + 2 ≤ out.old.room }
        ensures board { self.new.board ≡ self.old.board }
        ensures answer { result ≡ is_some (switched self.old.state core) }
        ensures state { self.new.state ≡ (effect_or self.old.state (switched self.old.state core)).state }
        ensures lines { out.new.items ≡ out.old.items ++ (effect_or self.old.state (switched self.old.state core)).lines }
        ensures numbers { self.new.state.numbers ≡ self.old.state.numbers }
        ensures cost { steps.new ≤ steps.old + 8 }
        ensures few { length out.new.items ≤ length out.old.items + 2 }
        ensures out_room { out.new.room ≡ out.old.room }
    {
        know_state(&self.board, &self.state);
        self.state.switch(core, out, steps)
    }

    /// The mark of a core's thread, as before each of its statements: it goes, unless the thread has a scheduler lock or the
    /// core the lock over all cores.
    pub fn unmark(&mut self, core: CoreNo)
        requires core { core < self.old.board.cores }
        requires runs { IsSome (running_on self.old.state core) }
        ensures board { self.new.board ≡ self.old.board }
        ensures state { (t : ℕ) → running_on self.old.state core ≡ Some t
            → self.new.state ≡ (if is_preemptible self.old.state core t then without_mark self.old.state t else self.old.state) }
    {
        know_state(&self.board, &self.state);
        if let Some(t) = self.state.cores.running(core) {
            if self.state.is_preemptible(core, t) {
                self.state.tables.unmark(t);
            }
        }
    }

    /// The statement that a thread does next, `exit` behind its script.
    pub fn next_statement(&self, thread: ThreadNo) -> Stmt
        requires { thread < length self.now.state.threads }
        ensures { result ≡ statement_at (script_of self.now.board (thread_at self.now.state thread).name) (thread_at self.now.state thread).next }
    {
        know_state(&self.board, &self.state);
        let k = self.state.tables.next(thread) as usize;
        match script_of(&self.board, &self.state, thread).get(k.saturating_sub(1)) {
            Some(statement) => statement.copy(),
            None => Stmt::Exit,
        }
    }

    /// The next statement of a core's thread, which is no call: its line, and what it does. It adds at most 2 lines.
    pub fn plain<L: Ledger>(
        &mut self,
        core: CoreNo,
        stmt: &Stmt,
        out: &mut Lines,
        steps: &mut Steps<L>,
    )
        requires core { core < self.old.board.cores }
        requires next { (t : ℕ) × DoesNext self.old t core stmt.now }
        requires plain { is_plain stmt.now ≡ true }
        requires lines { length out.old.items + 2 ≤ out.old.room }
        ensures board { self.new.board ≡ self.old.board }
        ensures state { (t : ℕ) → running_on self.old.state core ≡ Some t → self.new.state ≡ (statement_effect self.old.board t core self.old.state).state }
        ensures lines { (t : ℕ) → running_on self.old.state core ≡ Some t → out.new.items ≡ out.old.items ++ (statement_effect self.old.board t core self.old.state).lines }
        ensures numbers { self.new.state.numbers ≡ self.old.state.numbers }
        ensures few { length out.new.items ≤ length out.old.items + 2 }
        ensures out_room { out.new.room ≡ out.old.room }
    {
        know_state(&self.board, &self.state);
        if let Some(t) = self.state.cores.running(core) {
            let script = script_of(&self.board, &self.state, t);
            self.state.plain(t, script, stmt, out, steps);
        }
    }

    /// The call of a thread, which is its next statement, with its line and what follows from it. It answers `Waits`
    /// exactly where the statement table says so, and else the code. It takes at most 2 numbers, and adds at most 2
    /// lines and one for each thread. A timer makes a call that it may make, without a line of its own.
    pub fn call<L: Ledger>(
        &mut self,
        by: Caller,
        call: &Call,
        out: &mut Lines,
        steps: &mut Steps<L>,
    ) -> Answer
        requires by { MayCall self.old by call.now }
        requires number { self.old.state.numbers + 2 < 2 ^ 64 }
        requires lines { length out.old.items + 2 + length self.old.state.threads ≤ out.old.room }
        ensures board { self.new.board ≡ self.old.board }
        ensures state { (t core : ℕ) → by ≡ CallerOn t core → self.new.state ≡ (statement_effect self.old.board t core self.old.state).state }
        ensures lines { (t core : ℕ) → by ≡ CallerOn t core → out.new.items ≡ out.old.items ++ (statement_effect self.old.board t core self.old.state).lines }
        ensures answer { (t core : ℕ) → by ≡ CallerOn t core → plain_answer result ≡ (outcome_of self.old.board call.now (begun self.old.state t) (ByThread t core) First).answer }
        ensures timer_state { (o : ℕ) → by ≡ CallerAs o → self.new.state ≡ (timer_call self.old.board o call.now self.old.state).effect.state }
        ensures timer_lines { (o : ℕ) → by ≡ CallerAs o → out.new.items ≡ out.old.items ++ (timer_call self.old.board o call.now self.old.state).effect.lines }
        ensures timer_answer { (o : ℕ) → by ≡ CallerAs o → plain_answer result ≡ (timer_call self.old.board o call.now self.old.state).answer }
        ensures numbers { self.new.state.numbers ≤ self.old.state.numbers + 2 }
        ensures few { length out.new.items ≤ length out.old.items + 2 + length self.old.state.threads }
        ensures out_room { out.new.room ≡ out.old.room }
    {
        know_state(&self.board, &self.state);
        match by {
            Caller::Thread(t, core) => self.state.call(&self.board, t, core, call, out, steps),
            Caller::Timer(o) => self.state.call_by_timer(&self.board, o, call, out, steps),
        }
    }

    /// Whether a thread was woken from a wait that it has to go for again: a call on a mailbox or a message queue, the bytes
    /// of the console, a work.
    pub fn retries(&self, thread: ThreadNo) -> bool
        requires { thread < length self.now.state.threads }
        ensures { result ≡ is_some (thread_at self.now.state thread).retry }
    {
        self.state.tables.retries(thread)
    }

    /// Whether what a thread has to go for again is a call. Where it is none, a thread with a script does nothing.
    pub fn has_call(&self, thread: ThreadNo) -> bool
        requires { thread < length self.now.state.threads }
        ensures answer { result ≡ has_call (thread_at self.now.state thread).retry }
        ensures nothing { (core : ℕ) → is_some (thread_at self.now.state thread).retry ≡ true → result ≡ false → statement_effect self.now.board thread core self.now.state ≡ no_effect self.now.state }
    {
        self.state.tables.has_call(thread)
    }

    /// The call that a thread, which a core runs, makes again, with its line. Where it still can't be done, the thread waits
    /// again until its first due moment, with a new arrival number and a new start number, or the answer is -2 once that
    /// moment has come; where the object is gone it is -1. It takes at most 2 numbers, and adds at most 2 lines and one for
    /// each thread.
    pub fn again<L: Ledger>(
        &mut self,
        core: CoreNo,
        thread: ThreadNo,
        out: &mut Lines,
        steps: &mut Steps<L>,
    ) -> Answer
        requires runs { running_on self.old.state core ≡ Some thread }
        requires retries { has_call (thread_at self.old.state thread).retry ≡ true }
        requires number { self.old.state.numbers + 2 < 2 ^ 64 }
        requires lines { length out.old.items + 2 + length self.old.state.threads ≤ out.old.room }
        ensures board { self.new.board ≡ self.old.board }
        ensures state { self.new.state ≡ (statement_effect self.old.board thread core self.old.state).state }
        ensures lines { out.new.items ≡ out.old.items ++ (statement_effect self.old.board thread core self.old.state).lines }
        ensures answer { (retry : Retry) (call : PlainCall) → (thread_at self.old.state thread).retry ≡ Some retry → retry.what ≡ InCall call
            → plain_answer result ≡ (outcome_of self.old.board call (resumed self.old.state thread) (ByThread thread core) (Again retry.due)).answer }
        ensures numbers { self.new.state.numbers ≤ self.old.state.numbers + 2 }
        ensures few { length out.new.items ≤ length out.old.items + 2 + length self.old.state.threads }
        ensures out_room { out.new.room ≡ out.old.room }
    {
        know_state(&self.board, &self.state);
        self.state.again(&self.board, thread, core, out, steps)
    }

    /// The begin of a tick, where no row is due any more: the moment grows by one, to 1099511627775 at most, and the
    /// slices of running threads fall.
    pub fn begin_tick(&mut self)
        requires moment { self.old.state.moment < 1099511627775 }
        requires none { due self.old.state ≡ [] }
        ensures board { self.new.board ≡ self.old.board }
        ensures state { self.new.state ≡ next_tick_state self.old.state }
    {
        know_state(&self.board, &self.state);
        let cores = cores_of(&self.board);
        self.state.begin_tick(cores);
    }

    /// So many ticks pass at once, while no core runs a thread: the moment grows by them, to 1099511627775 at most, and no row
    /// is due up to there. It touches no row, however many ticks they are.
    pub fn skip(&mut self, n: u32)
        requires moment { self.old.state.moment + n ≤ 1099511627775 }
        requires ahead { All (λ row. self.old.state.moment + n < row.due) self.old.state.armed }
        ensures board { self.new.board ≡ self.old.board }
        ensures state { let s = self.old.state in self.new.state ≡ record s { moment = s.moment + n } }
    {
        know_state(&self.board, &self.state);
        self.state.skip(n);
    }

    /// How many ticks are left until a row is due: `None` exactly where nothing is armed. It is at least 1 where no row is due
    /// now. It looks at one row.
    pub fn next_due(&self) -> Option<u32>
        ensures least { IsLeastAhead self.now.state.moment (map (λ row. row.due) self.now.state.armed) result }
        ensures ahead { due self.now.state ≡ [] → ForSome result (λ ticks. 1 ≤ ticks) }
    {
        self.state.armed.next_due()
    }

    /// Takes the row that fires first of those due at the moment: `None` exactly where none is due. It counts one read, of
    /// the row that fires next.
    pub fn take_due<L: Ledger>(&mut self, steps: &mut Steps<L>) -> Option<TimerNo>
        ensures board { self.new.board ≡ self.old.board }
        ensures first { first_alarm (due self.old.state) ≡ option_map (alarm_of (names_of self.old.state.timers)) result }
        ensures state { self.new.state ≡ taken self.old.state (option_map (alarm_of (names_of self.old.state.timers)) result) }
        ensures fires { IfSome result (λ no. MayFire self.new.state no) }
        ensures fewer { IfSome result (λ t. length (due self.new.state) < length (due self.old.state)) }
        ensures none { result ≡ None → due self.new.state ≡ [] }
        ensures count { steps.new ≡ steps.old + 1 }
    {
        know_state(&self.board, &self.state);
        self.state.take_due(steps)
    }

    /// What was armed under a number fires, and its row is gone already. A thread leaves its wait, with 0 where it was in
    /// `delay`, and else with -2. A timer is armed again, if it is periodic, and then does what it does. It takes at most 2
    /// numbers, and adds at most 2 lines and one for each thread.
    pub fn fire<L: Ledger>(&mut self, no: TimerNo, out: &mut Lines, steps: &mut Steps<L>)
        requires fires { MayFire self.old.state no }
        requires number { self.old.state.numbers + 3 < 2 ^ 64 }
        requires lines { length out.old.items + 2 + length self.old.board.threads ≤ out.old.room }
        ensures board { self.new.board ≡ self.old.board }
        ensures state { self.new.state ≡ (settled_effect self.old.board self.old.state (alarm_effect self.old.board (alarm_of (names_of self.old.state.timers) no) self.old.state)).state }
        ensures lines { out.new.items ≡ out.old.items ++ (settled_effect self.old.board self.old.state (alarm_effect self.old.board (alarm_of (names_of self.old.state.timers) no) self.old.state)).lines }
        ensures due { length (due self.new.state) ≤ length (due self.old.state) }
        ensures moment { self.new.state.moment ≡ self.old.state.moment }
        ensures arrivals { self.new.state.arrivals ≡ self.old.state.arrivals }
        ensures few { length out.new.items ≤ length out.old.items + 2 + length self.old.board.threads }
        ensures numbers { self.new.state.numbers ≤ self.old.state.numbers + 2 }
        ensures count { steps.new ≡ steps.old }
        ensures out_room { out.new.room ≡ out.old.room }
    {
        know_state(&self.board, &self.state);
        self.state.armed.know_timers();
        self.state.fire_row(&self.board, no, out, steps);
    }

    /// Whether some device has bytes to send.
    pub fn busy(&self) -> bool
        ensures { result ≡ is_busy self.now.state }
    {
        self.state.devices.busy()
    }

    /// The moment at which something arrives next: `None` exactly where nothing is left to arrive. It looks at one arrival,
    /// however many are left.
    pub fn next_arrival(&self) -> Option<u64>
        ensures moment { result ≡ next_moment self.now.state.arrivals }
        ensures earliest { IfSome result (λ moment. All (λ a. moment ≤ a.moment) self.now.state.arrivals) }
    {
        self.state.devices.next_arrival()
    }

    /// Takes the first of what arrives at this moment, before which nothing is left to arrive: `None` exactly where nothing
    /// arrives now. It looks at one arrival.
    pub fn take_arrival(&mut self) -> Option<Incoming>
        requires { All (λ a. self.old.state.moment ≤ a.moment) self.old.state.arrivals }
        ensures board { self.new.board ≡ self.old.board }
        ensures taken { TakesArrival self.old.state self.new.state result }
    {
        self.state.devices.take_arrival(self.state.armed.moment())
    }

    /// A text arrives at the device of a name, as RT-Thread's receive interrupt: it goes into the receive ring, pushes out the
    /// oldest bytes beyond its size, and is lost at a closed device; then the thread that waits for the console wakes, or the
    /// semaphore that the device names is released. Nothing happens where there is no such device. It adds at most 2 lines.
    pub fn arrive<L: Ledger>(
        &mut self,
        device: &Name,
        text: &Text,
        out: &mut Lines,
        steps: &mut Steps<L>,
    )
        requires lines { length out.old.items + 2 ≤ out.old.room }
        ensures board { self.new.board ≡ self.old.board }
        ensures state { self.new.state ≡ (arrival_effect_at (find_device self.old.state device.now) text.now self.old.state).state }
        ensures lines { out.new.items ≡ out.old.items ++ (arrival_effect_at (find_device self.old.state device.now) text.now self.old.state).lines }
        ensures numbers { self.new.state.numbers ≡ self.old.state.numbers }
        ensures few { length out.new.items ≤ length out.old.items + 2 }
        ensures count { steps.new ≡ steps.old }
        ensures out_room { out.new.room ≡ out.old.room }
    {
        know_state(&self.board, &self.state);
        self.state.arrive(device, text, out);
    }

    /// What the devices send in a tick, in the order of registration: each as many bytes of its transmit ring as its rate
    /// allows. It adds at most a line for each device.
    pub fn drain(&mut self, out: &mut Lines)
        requires lines { length out.old.items + length self.old.state.devices ≤ out.old.room }
        ensures board { self.new.board ≡ self.old.board }
        ensures state { self.new.state ≡ (transmissions self.old.state).state }
        ensures lines { out.new.items ≡ out.old.items ++ (transmissions self.old.state).lines }
        ensures out_room { out.new.room ≡ out.old.room }
    {
        transmissions_are_drained();
        self.state.devices.drain(out);
    }

    /// The devices with power management are suspended for a sleep, in the order of registration: a `suspend` line each.
    pub fn power_down(&self, out: &mut Lines)
        requires lines { length out.old.items + length self.now.state.devices ≤ out.old.room }
        ensures lines { out.new.items ≡ out.old.items ++ map (λ d. SuspendLine d.name) (powered_devices self.now.state) }
        ensures out_room { out.new.room ≡ out.old.room }
    {
        self.state.devices.power_down(out);
    }

    /// The devices with power management are resumed after a sleep, the one registered last first: a `resume` line each.
    pub fn power_up(&self, out: &mut Lines)
        requires lines { length out.old.items + length self.now.state.devices ≤ out.old.room }
        ensures lines { out.new.items ≡ out.old.items ++ map (λ d. ResumeLine d.name) (reverse (powered_devices self.now.state)) }
        ensures out_room { out.new.room ≡ out.old.room }
    {
        self.state.devices.power_up(out);
    }

    /// Ends a thread that hasn't ended, with what follows from it. It adds at most 1 line.
    pub fn close<L: Ledger>(&mut self, thread: ThreadNo, out: &mut Lines, steps: &mut Steps<L>)
        requires there { is_closed (thread_at self.old.state thread).stage ≡ false }
        requires lines { length out.old.items < out.old.room }
        ensures board { self.new.board ≡ self.old.board }
        ensures state { self.new.state ≡ (settled_effect self.old.board self.old.state (close_effect thread self.old.state)).state }
        ensures lines { out.new.items ≡ out.old.items ++ (settled_effect self.old.board self.old.state (close_effect thread self.old.state)).lines }
        ensures numbers { self.new.state.numbers ≡ self.old.state.numbers }
        ensures few { length out.new.items ≤ length out.old.items + 1 }
        ensures out_room { out.new.room ≡ out.old.room }
    {
        know_state(&self.board, &self.state);
        self.state.close(thread, out, steps);
    }
}
