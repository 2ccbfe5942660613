ghost use Rattle.std.specs.Prelude.{◌≡◌, ◌↔◌, ◌+◌, ◌*◌, ◌<◌, ◌≤◌, ◌^◌, ◌-◌, [], All, IfOk, OnOk, OnErr, IsErrOf, None, List, false, true, length, is_some};
ghost use Rattle.rt_plain.specs.runs.Runs.{IsReached, opened, after, room, is_event_of, line_count};
ghost use Rattle.rt_plain.specs.runs.Runs.{is_over};
ghost use Rattle.rt_base.specs.declared.codes.Event.{Event as Occurrence};
ghost use Rattle.rt_plain.specs.declared.line.Line.{Line};
ghost use Rattle.rt_plain.specs.kernel.State.{State};
ghost use Rattle.rt_plain.specs.kernel.Shown.{shown};
ghost use Rattle.rt_plain.specs.kernel.Sleeps.{Made};
ghost use Rattle.rt_plain.specs.kernel.Sound.{IsSound};
ghost use Rattle.rt_plain.specs.kernel.Steps.{happens};
ghost use Rattle.kernel_step.specs.Built.{IsBuilt, is_built};
ghost use Rattle.kernel_step.specs.Did.{did_by};
ghost use Rattle.kernel_step.specs.Fired.{event_rows, is_brief, row_cost};
ghost use Rattle.kernel_step.specs.MachineSeen.{limit_of, picked_tick};
ghost use Rattle.kernel_step.specs.declared.machine.StartFault.TheVariants.{Memory};

use crate::built::know_clock;
use crate::engine::Engine;
use crate::{Did, is_built};
use journal::Journal;
use rt_base::{Event, Halt, RunMode, Steps};
use rt_kernel::know_built;
use rt_plain::laws::{
    arrivals_are_ahead, lines_fit_the_room, numbers_stay_small, reached_states_are_sound,
};
use rt_plain::{Board, Lines};
use std::alloc::{AllocError, Global};
use std::marker::Model;
use std::sync::ledger::Ledger;

/// Why there is no machine for a board.
#[derive(Clone, Copy, Debug, PartialEq, Eq)]
pub enum StartFault {
    /// The board has something that isn't built yet.
    Later,
    /// There was no memory.
    Memory,
}

impl From<AllocError> for StartFault {
    ghost from_gives = { λ _ fault. fault ≡ Memory };

    fn from(_: AllocError) -> Self {
        StartFault::Memory
    }
}

/// A board on its way: what it is, what has happened, and how it has halted. Contracts see the board, the course
/// (state, journal, halt) and for how many lines there is room. Its state is always that of the run of its journal.
/// This project's own.
#[derive(Drop)]
pub struct Machine {
    engine: Engine,
    journal: Journal,
    halt: Option<Halt>,
    lines: Lines,
}

impl Model for Machine {
    ghost use Rattle.kernel_step.specs.MachineSeen.{MachineSeen, spare_of};

    ghost Value = { MachineSeen };

    ghost use Rattle.kernel_step.specs.IsMachine.{IsMachine};
    ghost use Rattle.kernel_step.specs.Engine.{state_of};

    ghost view = { λ m. record {
      board = m.engine.kernel.board;
      course = record { state = state_of m.engine; journal = m.journal.entries; halt = m.halt };
      spare = spare_of m.journal.spare_entries m.journal.spare_lines;
    } };

    ghost invariant = { IsMachine };
}

// What the test of a built board says.
fn know_board(board: &Board)
    requires { is_built board.now ≡ true }
    ensures { IsBuilt board.now }
{
    know_built(board);
    know_clock(board);
}

// Room for what arrives and is sent in a tick, and for the devices that a sleep suspends.
fn device_room(board: &Board) -> usize
    requires { IsBuilt board.now }
    ensures value { result ≡ 5 * (1 + length board.now.devices) }
    ensures few { result ≤ 80 }
{
    5 * (1 + board.devices.len())
}

// Room for the lines of any one event.
#[tactic(auto, using(crate::proofs::BuiltLemmas::built_room))]
fn room_for(board: &Board) -> usize
    requires { IsBuilt board.now }
    ensures value { result ≡ room board.now }
{
    let threads = board.threads.len();
    (threads + board.timers.len() + 1) * (2 * threads + 4) + device_room(board) + 300
}

// The tick that an entry shows: that before a step, and that after a tick.
fn tick_for(event: &Event, before: u32, now: u32) -> u32
    ensures { result ≡ picked_tick event.now before now }
{
    match event {
        Event::Step(_) => before,
        Event::Tick => now,
    }
}

impl Machine {
    /// A machine that stands at the board's opening, with no entries. `Later` comes exactly where the board has
    /// something that isn't built yet.
    pub fn open(alloc: Global, board: Board) -> Result<Machine, StartFault>
        ensures board { IfOk result (λ m. m.board ≡ board) }
        ensures course { IfOk result (λ m. m.course ≡ opened board) }
        ensures built { IfOk result (λ m. is_built board ≡ true) }
        ensures later { IsErrOf result StartFault.Later ↔ (is_built board ≡ false) }
    {
        if !is_built(&board) {
            return Err(StartFault::Later);
        }
        Ok(Machine::open_built(alloc, board)?)
    }

    // A machine at the opening of a board that is built.
    fn open_built(alloc: Global, board: Board) -> Result<Machine, AllocError>
        requires { is_built board ≡ true }
        ensures board { IfOk result (λ m. m.board ≡ board) }
        ensures course { IfOk result (λ m. m.course ≡ opened board) }
    {
        know_board(&board);
        let lines = Lines::new(alloc, room_for(&board) + 16)?;
        let engine = Engine::open(alloc, board)?;
        Ok(Machine {
            engine,
            journal: Journal::new(alloc),
            halt: None,
            lines,
        })
    }

    /// The most lines that one event adds.
    pub fn room(&self) -> usize
        ensures { result ≡ room self.now.board }
    {
        room_for(self.engine.board())
    }

    /// For how many lines there is room, 0 where no entry has room.
    pub fn spare(&self) -> usize
        ensures { result ≡ self.now.spare }
    {
        let (entries, lines) = self.journal.spare();
        if entries > 0 { lines } else { 0 }
    }

    /// Makes room for the lines of one event, and changes nothing else. A refusal is want of memory, and lowers
    /// nothing.
    pub fn reserve(&mut self) -> Result<(), AllocError>
        ensures course { self.new.course ≡ self.old.course }
        ensures board { self.new.board ≡ self.old.board }
        ensures ok { OnOk result (room self.old.board ≤ self.new.spare) }
        ensures no_less { self.old.spare ≤ self.new.spare }
    {
        let room = self.room();
        self.journal.reserve(1, room)
    }

    // What the run so far says of the next event: armed rows, all that is left to arrive and the last moment are ahead, numbers
    // are small, and its lines fit.
    #[tactic(auto, using(crate::proofs::MachineLemmas::on_way))]
    fn know_on_way(&self)
        requires live { self.now.course.halt ≡ None }
        ensures rows { All (λ row. self.now.course.state.moment < row.due) self.now.course.state.armed }
        ensures ahead { All (λ a. self.now.course.state.moment < a.moment) self.now.course.state.arrivals }
        ensures early { self.now.course.state.moment < self.now.board.until }
        ensures number { self.now.course.state.numbers + 1026 < 2 ^ 64 }
        ensures lines { (event : Occurrence) (new : State) (lines : List Line) → happens self.now.board self.now.course.state event ≡ Made new lines → length lines ≤ room self.now.board }
    {
        reached_states_are_sound();
        arrivals_are_ahead();
        lines_fit_the_room();
        numbers_stay_small();
        self.engine.know_engine();
        let _until = self.engine.board().until;
        let _entries = self.journal.entries();
    }

    /// One event, for whose lines there is room: a step of one of the board's cores, or a tick. `Entry` where it
    /// made an entry, which stands at the journal's end with at most `room()` lines; `Same` where it changed
    /// nothing; `Halted` where the machine had halted before, or a step of core 0 found that it has. It takes no
    /// memory. A tick, and a sleep of any length, counts at most 9 reads, and so many for each row that fires in it as a
    /// board of its threads and mutexes may need.
    pub fn event<L: Ledger>(&mut self, event: Event, steps: &mut Steps<L>) -> Did
        requires room { room self.old.board ≤ self.old.spare }
        requires core { is_event_of self.old.board event ≡ true }
        ensures course { self.new.course ≡ after self.old.board self.old.course event }
        ensures board { self.new.board ≡ self.old.board }
        ensures did { result ≡ did_by self.old.board self.old.course event }
        ensures lines { line_count self.new.course.journal ≤ line_count self.old.course.journal + room self.old.board }
        ensures count { is_brief self.old.course.state event ≡ true → steps.new ≤ steps.old + 9 + event_rows self.old.board self.old.course.state event * row_cost self.old.board }
    {
        if let Some(halt) = self.halt {
            return Did::Halted(halt);
        }
        self.know_on_way();
        let before = self.engine.tick();
        let did = self.engine.event(&event, &mut self.lines, steps);
        match did {
            Did::Entry => {
                let tick = tick_for(&event, before, self.engine.tick());
                self.journal.push(event, tick, &mut self.lines);
                self.halt = self.engine.halt();
            }
            Did::Same => {}
            Did::Halted(halt) => self.halt = Some(halt),
        }
        did
    }

    /// Lets the machine go. A function that ends with this call has none of the machine's parts in its proof.
    pub fn let_go(self) {}

    /// The board.
    pub fn board(&self) -> &Board
        ensures { result.now ≡ self.now.board }
    {
        self.engine.board()
    }

    /// What has happened. The machine's state is that of the run of these entries.
    pub fn journal(&self) -> &Journal
        ensures entries { result.now.entries ≡ self.now.course.journal }
        ensures run { IsReached self.now.board self.now.course }
    {
        &self.journal
    }

    /// The machine's state is sound: each thread stands in one place, no armed row is due, a core that holds the lock
    /// over all cores runs a thread. It does nothing when it runs.
    pub fn know_sound(&self)
        ensures { IsSound self.now.board self.now.course.state }
    {
        reached_states_are_sound();
        self.engine.know_engine();
    }

    /// How the machine has halted, none where it hasn't.
    pub fn halt(&self) -> Option<Halt>
        ensures { result ≡ self.now.course.halt }
    {
        self.halt
    }

    /// The moment of now: how many ticks have passed since opening, at most 1099511627775.
    pub fn moment(&self) -> u64
        ensures { result ≡ self.now.course.state.moment }
    {
        self.engine.moment()
    }

    /// The tick that is shown now: the board's first one and the moment, modulo 4294967296.
    pub fn tick(&self) -> u32
        ensures { result ≡ shown self.now.board self.now.course.state.moment }
    {
        self.engine.tick()
    }

    /// The numbers of entries and lines, where the machine hasn't halted and meets a limit: its entries are the
    /// board's `entries`, or its lines and `room()` more than 4,000,000.
    pub fn limit(&self) -> Option<(u32, u32)>
        ensures { result ≡ limit_of self.now.board self.now.course }
    {
        if self.halt.is_some() || !self.is_over() {
            return None;
        }
        Some((self.journal.entries(), self.journal.lines()))
    }

    /// Whether the journal meets a limit of the board: it has the board's `entries`, or its lines and `room()` are more
    /// than 4,000,000.
    pub fn is_over(&self) -> bool
        ensures { result ≡ is_over self.now.board self.now.course.journal }
    {
        let lines = self.journal.lines() as u64 + room_for(self.engine.board()) as u64;
        self.journal.entries() == self.engine.board().entries || lines > 4_000_000
    }

    /// The run mode of now, which says how many rounds a period has.
    pub fn run_mode(&self) -> RunMode
        ensures { result ≡ self.now.course.state.run_mode }
    {
        self.engine.run_mode()
    }

    /// Whether a core holds the lock over all cores.
    pub fn is_nested(&self) -> bool
        ensures { result ≡ is_some self.now.course.state.nest }
    {
        self.engine.is_nested()
    }
}
