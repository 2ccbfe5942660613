ghost use Rattle.std.specs.Prelude.{◌≡◌, ◌+◌, ◌<◌, ◌≤◌, ◌∷◌, ◌++◌, [], All, map, false, is_some, IfOk, IfSome, MatchOption};
ghost use Rattle.timer_skip.specs.Armed.{is_armed, left_of, due_of, due_rows, without, after_ticks, IsLeastLeft};

use crate::rows::Rows;
use rt_base::{Steps, TimerNo};
use std::alloc::{AllocError, Global};
use std::marker::Model;
use std::sync::ledger::Ledger;

/// The armed rows at a tick, in a skip list of `L` levels, as RT-Thread keeps its timers. The tick has 32
/// bits and wraps; a row is due at most 2,147,483,647 ticks later. Contracts see the tick, and the rows in
/// the order of their start numbers, each with the ticks that are left until it is due. Their room is made
/// by `new`, so no other call takes memory.
#[derive(Drop)]
pub struct Timers<const L: usize> {
    rows: Rows<L>,
}

impl<const L: usize> Model for Timers<L> {
    ghost use Rattle.timer_skip.specs.Armed.{Armed};

    ghost Value = { Armed };

    ghost use Rattle.timer_skip.specs.Armed.{by_number};
    ghost use Rattle.timer_skip.specs.Links.{IsLinked, line, count};

    ghost view = { λ t. record { tick = t.rows.tick; count = count t.rows; rows = by_number (line t.rows) } };

    ghost invariant = { λ t. IsLinked t.rows };
}

impl<const L: usize> Timers<L> {
    /// Nothing armed at the tick `now`, with room for the timer numbers below a count. `L` is at least 1.
    /// The answer other than `Ok` is for want of memory alone.
    pub fn new(alloc: Global, count: u16, now: u32) -> Result<Timers<L>, AllocError>
        requires { 0 < L }
        ensures { IfOk result (λ timers. timers ≡ record { tick = now; count = count; rows = [] }) }
    {
        let rows = Rows::new(alloc, count, now)?;
        Ok(Timers { rows })
    }

    /// Arms a timer that isn't armed: it is due so many ticks later, from 1 to 2,147,483,647, and its start
    /// number is above those of all armed rows.
    pub fn start(&mut self, no: TimerNo, after: u32, at: u64)
        requires below { no < self.old.count }
        requires free { is_armed no self.old.rows ≡ false }
        requires some { 1 ≤ after }
        requires near { after ≤ 2147483647 }
        requires latest { All (λ row. row.number < at) self.old.rows }
        ensures { self.new ≡ record self.old {
          rows = self.old.rows ++ (record { left = after; number = at; timer = no }) ∷ [];
        } }
    {
        self.rows.insert(no, after, at);
    }

    /// Disarms a timer: false exactly where it isn't armed.
    pub fn stop(&mut self, no: TimerNo) -> bool
        ensures armed { result ≡ is_armed no self.old.rows }
        ensures rows { self.new ≡ record self.old { rows = without no self.old.rows } }
    {
        self.rows.remove(no)
    }

    /// So many ticks pass, as many at most as are left of each row. It touches no row.
    pub fn advance(&mut self, n: u32)
        requires { All (λ row. n ≤ row.left) self.old.rows }
        ensures { self.new ≡ after_ticks n self.old }
    {
        self.rows.advance(n);
    }

    /// The ticks that are left of a timer: `None` exactly where it isn't armed.
    pub fn left(&self, no: TimerNo) -> Option<u32>
        ensures { result ≡ left_of no self.now.rows }
    {
        self.rows.left_of(no)
    }

    /// The tick at which a timer is due, in 32 bits: `None` exactly where it isn't armed.
    pub fn due(&self, no: TimerNo) -> Option<u32>
        ensures due { result ≡ due_of no self.now }
        ensures armed { is_some result ≡ is_armed no self.now.rows }
    {
        self.rows.due(no)
    }

    /// The least number of ticks that are left of a row, at most 2,147,483,647: `None` exactly where nothing
    /// is armed.
    pub fn next_due(&self) -> Option<u32>
        ensures near { IfSome result (λ left. left ≤ 2147483647) }
        ensures least { MatchOption result (self.now.rows ≡ []) (λ left. IsLeastLeft left self.now.rows) }
    {
        self.rows.next_due()
    }

    /// Takes out the row that is due, the one that was started first: `None` exactly where no row is due.
    /// It counts one read, of the row that fires next.
    pub fn take_due<L2: Ledger>(&mut self, steps: &mut Steps<L2>) -> Option<TimerNo>
        ensures due { let numbers = map (λ row. row.timer) in
            MatchOption result (due_rows self.old.rows ≡ []) (λ no.
            numbers (due_rows self.old.rows) ≡ no ∷ numbers (due_rows self.new.rows)) }
        ensures rows { MatchOption result (self.new ≡ self.old) (λ no.
            self.new ≡ record self.old { rows = without no self.old.rows }) }
        ensures count { steps.new ≡ steps.old + 1 }
    {
        let row = self.rows.first(steps)?;
        if self.rows.left(&row) > 0 {
            return None;
        }
        self.rows.remove(row.no);
        Some(row.no)
    }
}

// A further field doesn't compile: all rows stand where only a reader that counts gives them out.
fn fields(timers: &Timers<4>) {
    let Timers { rows } = timers;
    let _: &Rows<4> = rows;
}
