ghost use Rattle.std.specs.Prelude.{◌≡◌, ◌<◌, ◌≤◌, ◌+◌, ◌*◌, ◌^◌, [], Bool, Some, IfSome, drop, slice_get};
ghost use Rattle.rt_base.specs.declared.codes.Event.{Event as Occurrence};
ghost use Rattle.rt_plain.specs.kernel.State.{State};
ghost use Rattle.rt_plain.specs.runs.Schedules.{IsDriveable, listed_of, listed_place, period_place, round_count, words_of};
ghost use Rattle.core_runner.specs.Places.{core_before, plain_place};
ghost use Rattle.core_runner.specs.Moves.{drawn_steps, turn_steps, with_coming, IsMove};
ghost use Rattle.core_runner.specs.declared.place.Coming.TheVariants.{Later};

use pm_core::rounds;
use rand_core::SeedableRng;
use rand_core::utils::NextWord;
use rand_pcg::Pcg32;
use rt_base::{CoreNo, Event, RunMode};
use rt_plain::{Board, Schedule};

/// Where a schedule stands: how many of its listed events were made, and, behind them, how many steps of drawn cores and
/// how many of cores in turn are left of the period.
#[derive(Drop)]
pub(crate) struct Place {
    pub(crate) made: usize,
    pub(crate) draws: u8,
    pub(crate) left: u8,
    pub(crate) words: Pcg32,
}

/// When the next period begins.
#[derive(Clone, Copy, Debug, PartialEq, Eq)]
pub(crate) enum Coming {
    /// Behind the event.
    Now,
    /// Behind the event, if it is a sleep.
    IfSlept,
    /// Behind a further listed event.
    Later,
}

// The event that the schedule lists at a place.
fn listed_event(board: &Board, at: usize) -> Option<Event>
    ensures event { result ≡ slice_get (listed_of board.now.schedule) at }
    ensures few { IfSome result (λ _. at + 1 < 2 ^ 64) }
{
    match &board.schedule {
        Schedule::Order(events) => events.as_slice().get(at).copied(),
        Schedule::Round | Schedule::Seed(_) => None,
    }
}

// The words of a schedule: only a seeded one draws any.
fn words_for(schedule: &Schedule) -> Pcg32
    ensures { result ≡ words_of schedule.now }
{
    match schedule {
        Schedule::Seed(seed) => Pcg32::seed_from_u64(*seed as u64),
        Schedule::Round | Schedule::Order(_) => Pcg32::seed_from_u64(0),
    }
}

// How many steps of drawn cores, and how many of cores in turn, a period has.
fn period_steps(board: &Board, mode: RunMode) -> (u8, u8)
    requires { board.now.cores ≤ 8 }
    ensures drawn { result.0 ≡ drawn_steps board.now.schedule (round_count mode * board.now.cores) }
    ensures in_turn { result.1 ≡ turn_steps board.now.schedule (round_count mode * board.now.cores) }
{
    let steps = rounds(mode) * board.cores;
    match &board.schedule {
        Schedule::Seed(_) => (steps, 0),
        Schedule::Round | Schedule::Order(_) => (0, steps),
    }
}

// The core whose turn it is, where so many steps come behind its own in whole rounds.
fn core_before(cores: u8, behind: u8) -> CoreNo
    requires { 0 < cores }
    ensures { result ≡ core_before cores behind }
{
    CoreNo(cores - 1 - behind % cores)
}

impl Place {
    /// Where the board's schedule begins, at this run mode.
    pub(crate) fn opened(board: &Board, mode: RunMode) -> Place
        requires { board.now.cores ≤ 8 }
        ensures { (s : State) → s.run_mode ≡ mode → plain_place board.now result ≡ listed_place board.now board.now.schedule (listed_of board.now.schedule) s (words_of board.now.schedule) }
    {
        let mut place = Place {
            made: 0,
            draws: 0,
            left: 0,
            words: words_for(&board.schedule),
        };
        match listed_event(board, 0) {
            Some(_) => place,
            None => {
                place.begin_period(board, mode);
                place
            }
        }
    }

    /// Begins a period, at this run mode.
    pub(crate) fn begin_period(&mut self, board: &Board, mode: RunMode)
        requires cores { board.now.cores ≤ 8 }
        requires spent { drop self.old.made (listed_of board.now.schedule) ≡ [] }
        ensures { (s : State) → s.run_mode ≡ mode → plain_place board.now self.new ≡ period_place board.now board.now.schedule s self.old.words }
    {
        let (draws, left) = period_steps(board, mode);
        self.draws = draws;
        self.left = left;
    }

    // Takes the listed event.
    fn make_listed(&mut self, board: &Board) -> Coming
        requires few { self.old.made + 1 < 2 ^ 64 }
        requires driveable { IsDriveable board.now }
        ensures { (nested : Bool) (event : Occurrence) → slice_get (listed_of board.now.schedule) self.old.made ≡ Some event → IsMove board.now nested self.old self.new event result }
    {
        self.made += 1;
        self.draws = 0;
        self.left = 0;
        match listed_event(board, self.made) {
            Some(_) => Coming::Later,
            None => Coming::Now,
        }
    }

    // Draws the core of a step.
    fn draw(&mut self, board: &Board) -> Event
        requires some { 0 < self.old.draws }
        requires spent { drop self.old.made (listed_of board.now.schedule) ≡ [] }
        requires cores { 1 ≤ board.now.cores }
        ensures { (nested : Bool) → IsMove board.now nested self.old self.new result Coming.IfSlept }
    {
        self.draws -= 1;
        let core = self.words.next_word() % board.cores as u32;
        Event::Step(CoreNo(core as u8))
    }

    // Makes the step of the core whose turn it is.
    fn turn(&mut self, board: &Board) -> Event
        requires none { self.old.draws ≡ 0 }
        requires some { 0 < self.old.left }
        requires spent { drop self.old.made (listed_of board.now.schedule) ≡ [] }
        requires cores { 1 ≤ board.now.cores }
        ensures { (nested : Bool) → IsMove board.now nested self.old self.new result Coming.IfSlept }
    {
        self.left -= 1;
        Event::Step(core_before(board.cores, self.left))
    }

    // Ends a period with a tick. While the lock over all cores is held, a further round comes first.
    fn close(&mut self, board: &Board, nested: bool) -> (Event, Coming)
        requires no_draws { self.old.draws ≡ 0 }
        requires none { self.old.left ≡ 0 }
        requires spent { drop self.old.made (listed_of board.now.schedule) ≡ [] }
        requires cores { 1 ≤ board.now.cores }
        ensures { IsMove board.now nested self.old self.new result.0 result.1 }
    {
        if nested {
            self.left = board.cores - 1;
            (Event::Step(CoreNo(0)), Coming::IfSlept)
        } else {
            (Event::Tick, Coming::Now)
        }
    }

    // The next event of a period.
    fn next_in_period(&mut self, board: &Board, nested: bool) -> (Event, Coming)
        requires spent { drop self.old.made (listed_of board.now.schedule) ≡ [] }
        requires cores { 1 ≤ board.now.cores }
        ensures { IsMove board.now nested self.old self.new result.0 result.1 }
    {
        if self.draws > 0 {
            return (self.draw(board), Coming::IfSlept);
        }
        if self.left > 0 {
            return (self.turn(board), Coming::IfSlept);
        }
        self.close(board, nested)
    }

    /// The next event, which is behind the place then, and when a period begins. `nested` tells whether the lock over
    /// all cores is held.
    pub(crate) fn next(&mut self, board: &Board, nested: bool) -> (Event, Coming)
        requires driveable { IsDriveable board.now }
        ensures { IsMove board.now nested self.old self.new result.0 result.1 }
    {
        match listed_event(board, self.made) {
            Some(event) => {
                let coming = self.make_listed(board);
                (event, coming)
            }
            None => self.next_in_period(board, nested),
        }
    }

    /// Begins a period where one comes behind an event.
    pub(crate) fn settle(&mut self, board: &Board, mode: RunMode, coming: Coming, slept: bool)
        requires cores { board.now.cores ≤ 8 }
        requires spent { (coming ≡ Later → ⊥) → drop self.old.made (listed_of board.now.schedule) ≡ [] }
        ensures { (s : State) → s.run_mode ≡ mode → plain_place board.now self.new ≡ with_coming board.now s coming slept (plain_place board.now self.old) }
    {
        match coming {
            Coming::Now => self.begin_period(board, mode),
            Coming::IfSlept => {
                if slept {
                    self.begin_period(board, mode);
                }
            }
            Coming::Later => {}
        }
    }
}
