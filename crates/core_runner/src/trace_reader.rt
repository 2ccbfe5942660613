ghost use Rattle.std.specs.Prelude.{◌≡◌, ◌<◌, ◌≤◌, List, ℕ, [], IfOk, length, take, bytes_eq, true, false};
ghost use Rattle.rt_plain.specs.declared.entry.Entry.{Entry};
ghost use Rattle.rt_plain.specs.kernel.Shown.{shown};
ghost use Rattle.rt_plain.specs.runs.Runs.{opened, events_of};
ghost use Rattle.rt_plain.specs.runs.Live.{owner_counts};
ghost use Rattle.rt_plain.specs.runs.Agreement.{Reader, cut_now, event_named, read_cut, read_entry, read_event, read_line, read_outer, reader};
ghost use Rattle.rt_plain.specs.text.Splits.{word_at, words_of};
ghost use Rattle.core_runner.specs.Parts.{IsCutLine, SaysCut, SaysEnd};
ghost use Rattle.core_runner.specs.Replaying.{IsAt, HasMade, Follows, Closes};

use crate::parts::{cut_of_line, is_end, says_end, text_of_entry};
use crate::trace_lines::{event_of_line, stands_first};
use crate::turns::know_board;
use kernel_step::{Did, Machine};
use rt_base::{CoreNo, Event, List, Steps};
use rt_plain::Cut;
use std::alloc::{AllocError, Global};
use std::sync::ledger::Ledger;

/// Where the reading of a trace is: the machine that made its first entries, how many these are, its `cut` line, where
/// it came, and the text of the last entry with how many bytes of it were read. It is closed where the journal met a
/// limit and hasn't halted: then no entry and no end line follows, and the machine may have made an entry more.
#[derive(Drop)]
pub(crate) struct TraceReader {
    pub(crate) machine: Machine,
    pub(crate) entries: u32,
    pub(crate) is_closed: bool,
    pub(crate) cut: Option<Cut>,
    pub(crate) due: List<u8>,
    pub(crate) at: usize,
}

/// What a line of a trace tells.
#[derive(Clone, Copy, Debug, PartialEq, Eq)]
pub(crate) enum Next {
    /// No run goes on so.
    Stop,
    /// The run ends so.
    End,
    /// A run may go on.
    On,
}

/// How a machine stands behind an entry.
#[derive(Clone, Copy, Debug, PartialEq, Eq)]
pub(crate) enum Closing {
    /// It met no limit, or has halted at the last tick.
    Open,
    /// It met a limit, and goes on.
    Closed,
    /// It met a limit before the step that finds it halted.
    Late,
}

// Tells how a machine stands. Where it met a limit, its next step is tried.
fn close<L: Ledger>(machine: &mut Machine, steps: &mut Steps<L>) -> Result<Closing, AllocError>
    requires { machine.old.course.halt ≡ machine.old.course.state.halt }
    ensures board { machine.new.board ≡ machine.old.board }
    ensures closing { IfOk result (Closes machine.old machine.new) }
{
    know_board(machine.board());
    machine.journal();
    if machine.halt().is_some() || !machine.is_over() {
        return Ok(Closing::Open);
    }
    machine.reserve()?;
    match machine.event(Event::Step(CoreNo(0)), steps) {
        Did::Halted(_) => Ok(Closing::Late),
        Did::Entry | Did::Same => Ok(Closing::Closed),
    }
}

impl TraceReader {
    /// Before the first line.
    pub(crate) fn new(alloc: Global, machine: Machine) -> TraceReader
        requires { machine.course ≡ opened machine.board }
        ensures at { IsAt machine.board [] result (reader machine.board) }
        ensures machine { result.machine ≡ machine }
    {
        machine.journal();
        TraceReader {
            machine,
            entries: 0,
            is_closed: false,
            cut: None,
            due: List::new(alloc),
            at: 0,
        }
    }

    // A line of the last entry.
    fn read_due(&mut self, line: &[u8]) -> Next
        requires { self.old.at < length self.old.due }
        ensures board { self.new.machine.board ≡ self.old.machine.board }
        ensures read { (front : List ℕ) (r : Reader) → IsAt self.old.machine.board front self.old r → Follows self.old.machine.board front line.now r (read_line self.old.machine.board r line.now r.due) result self.new }
    {
        let due = &self.due.as_slice()[self.at..];
        if !stands_first(line, due) {
            return Next::Stop;
        }
        self.at += line.len() + 1;
        Next::On
    }

    // The cut that stands here, where the line is its `cut` line.
    fn cut_here(&self, alloc: Global, line: &[u8]) -> Result<Option<Cut>, AllocError>
        requires { self.now.entries ≤ length self.now.machine.course.journal }
        ensures { IfOk result (SaysCut line.now self.now.entries (owner_counts self.now.machine.board.cores (events_of (take self.now.entries self.now.machine.course.journal)))) }
    {
        know_board(self.machine.board());
        let cores = self.machine.board().cores;
        cut_of_line(alloc, line, self.machine.journal(), self.entries, cores)
    }

    // One `cut` line may stand here.
    fn take_cut(&mut self, cut: Cut) -> Next
        ensures board { self.new.machine.board ≡ self.old.machine.board }
        ensures read { (front line : List ℕ) (r : Reader) → IsAt self.old.machine.board front self.old r → r.due ≡ [] → IsCutLine line self.old.entries (owner_counts self.old.machine.board.cores (events_of (take self.old.entries self.old.machine.course.journal))) cut → Follows self.old.machine.board front line r (read_cut r) result self.new }
    {
        if self.cut.is_some() {
            return Next::Stop;
        }
        self.cut = Some(cut);
        Next::On
    }

    // An end line at this tick: the run ends so where it has halted so.
    fn read_end<L: Ledger>(
        &mut self,
        alloc: Global,
        line: &[u8],
        steps: &mut Steps<L>,
    ) -> Result<Next, AllocError>
        requires open { self.old.is_closed ≡ false }
        requires end { SaysEnd line.now (shown self.old.machine.board self.old.machine.course.state.moment) true }
        ensures board { self.new.machine.board ≡ self.old.machine.board }
        ensures read { (front : List ℕ) (r : Reader) → IsAt self.old.machine.board front self.old r → r.due ≡ [] → bytes_eq line.now (cut_now self.old.machine.board r.done) ≡ false → IfOk result (λ next. Follows self.old.machine.board front line.now r (read_outer self.old.machine.board r line.now) next self.new) }
    {
        know_board(self.machine.board());
        self.machine.journal();
        let tick = self.machine.tick();
        self.machine.reserve()?;
        let did = self.machine.event(Event::Step(CoreNo(0)), steps);
        let Did::Halted(halt) = did else {
            return Ok(Next::Stop);
        };
        if is_end(alloc, line, halt, tick)? {
            Ok(Next::End)
        } else {
            Ok(Next::Stop)
        }
    }

    // The header of the entry that the machine has made. Behind it the entry's lines are due.
    fn begin_entry<L: Ledger>(
        &mut self,
        alloc: Global,
        line: &[u8],
        steps: &mut Steps<L>,
    ) -> Result<Next, AllocError>
        requires made { self.old.entries < length self.old.machine.course.journal }
        requires halt { self.old.machine.course.halt ≡ self.old.machine.course.state.halt }
        ensures board { self.new.machine.board ≡ self.old.machine.board }
        ensures read { (front : List ℕ) (r : Reader) (e : Entry) → HasMade self.old.machine.board front self.old r e → IfOk result (λ next. Follows self.old.machine.board front line.now r (read_entry self.old.machine.board r line.now e self.old.machine.course.state) next self.new) }
    {
        self.due = text_of_entry(alloc, self.machine.journal(), self.entries)?;
        if !stands_first(line, self.due.as_slice()) {
            return Ok(Next::Stop);
        }
        self.at = line.len() + 1;
        self.entries = self.machine.journal().entries();
        match close(&mut self.machine, steps)? {
            Closing::Late => return Ok(Next::Stop),
            Closing::Closed => self.is_closed = true,
            Closing::Open => {}
        }
        Ok(Next::On)
    }

    // The header of a further entry.
    fn read_event<L: Ledger>(
        &mut self,
        alloc: Global,
        line: &[u8],
        steps: &mut Steps<L>,
    ) -> Result<Next, AllocError>
        requires open { self.old.is_closed ≡ false }
        requires some { self.old.entries ≤ length self.old.machine.course.journal }
        ensures board { self.new.machine.board ≡ self.old.machine.board }
        ensures read { (front : List ℕ) (r : Reader) → IsAt self.old.machine.board front self.old r → r.due ≡ [] → IfOk result (λ next. Follows self.old.machine.board front line.now r (read_event self.old.machine.board r line.now (event_named (word_at (words_of line.now) 1))) next self.new) }
    {
        if self.machine.is_over() {
            return Ok(Next::Stop);
        }
        self.machine.reserve()?;
        let Some(event) = event_of_line(alloc, line, self.machine.board())? else {
            return Ok(Next::Stop);
        };
        match self.machine.event(event, steps) {
            Did::Entry => self.begin_entry(alloc, line, steps),
            Did::Same => Ok(Next::Stop),
            Did::Halted(_) => Ok(Next::Stop),
        }
    }

    // A line that is no `cut` line, where no line of an entry is due.
    fn read_other<L: Ledger>(
        &mut self,
        alloc: Global,
        line: &[u8],
        steps: &mut Steps<L>,
    ) -> Result<Next, AllocError>
        requires { self.old.entries ≤ length self.old.machine.course.journal }
        ensures board { self.new.machine.board ≡ self.old.machine.board }
        ensures read { (front : List ℕ) (r : Reader) → IsAt self.old.machine.board front self.old r → r.due ≡ [] → bytes_eq line.now (cut_now self.old.machine.board r.done) ≡ false → IfOk result (λ next. Follows self.old.machine.board front line.now r (read_outer self.old.machine.board r line.now) next self.new) }
    {
        if self.is_closed {
            return Ok(Next::Stop);
        }
        if says_end(alloc, line, self.machine.tick())? {
            return self.read_end(alloc, line, steps);
        }
        self.read_event(alloc, line, steps)
    }

    // A line where no line of an entry is due.
    fn read_outer<L: Ledger>(
        &mut self,
        alloc: Global,
        line: &[u8],
        steps: &mut Steps<L>,
    ) -> Result<Next, AllocError>
        requires { self.old.entries ≤ length self.old.machine.course.journal }
        ensures board { self.new.machine.board ≡ self.old.machine.board }
        ensures read { (front : List ℕ) (r : Reader) → IsAt self.old.machine.board front self.old r → r.due ≡ [] → IfOk result (λ next. Follows self.old.machine.board front line.now r (read_outer self.old.machine.board r line.now) next self.new) }
    {
        match self.cut_here(alloc, line)? {
            Some(cut) => Ok(self.take_cut(cut)),
            None => self.read_other(alloc, line, steps),
        }
    }

    /// Reads the next line, without its newline. The one refusal is want of memory.
    pub(crate) fn read_line<L: Ledger>(
        &mut self,
        alloc: Global,
        line: &[u8],
        steps: &mut Steps<L>,
    ) -> Result<Next, AllocError>
        requires { self.old.entries ≤ length self.old.machine.course.journal }
        ensures board { self.new.machine.board ≡ self.old.machine.board }
        ensures read { (front : List ℕ) (r : Reader) → IsAt self.old.machine.board front self.old r → IfOk result (λ next. Follows self.old.machine.board front line.now r (read_line self.old.machine.board r line.now r.due) next self.new) }
    {
        if self.at < self.due.len() {
            return Ok(self.read_due(line));
        }
        self.read_outer(alloc, line, steps)
    }

    /// Lets the reader go.
    pub(crate) fn let_go(self) {
        self.machine.let_go();
    }

    /// The machine and the `cut` line.
    pub(crate) fn into_run(self) -> (Machine, Option<Cut>)
        ensures machine { result.0 ≡ self.machine }
        ensures cut { result.1 ≡ self.cut }
    {
        (self.machine, self.cut)
    }
}
