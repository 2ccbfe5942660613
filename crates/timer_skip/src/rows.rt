ghost use Rattle.std.specs.Prelude.{ℕ, ◌≡◌, ◌≢◌, ◌+◌, ◌<◌, ◌≤◌, [], map, length, true, Some, slice_get, IfOk, MatchOption};
ghost use Rattle.std.specs.List.{list_any, AllByRecursion};
ghost use Rattle.std.specs.Option.{option_map};
ghost use Rattle.slab.specs.Slab.{get};
ghost use Rattle.timer_skip.specs.declared.node.Node.{Node};
ghost use Rattle.timer_skip.specs.Armed.{ArmedRow, is_row_of, left_of, row_after, tick_after};
ghost use Rattle.timer_skip.specs.Firing.{armed_row, sooner, put_row, take_out, IsAnew};
ghost use Rattle.timer_skip.specs.Links.{IsLinked, line, count, slot_at, link_on, is_before, IsFrom, IsStop, IsEnd, AreStops, AreLinks, entries, key_of, SameLevel, SameRest, IsRelinked, AreRelinked};

use crate::node::Node;
use crate::row::Row;
use rand_core::SeedableRng;
use rand_core::utils::NextWord;
use rand_pcg::Pcg32;
use rt_base::{Steps, TimerNo};
use slab::Slab;
use std::alloc::{AllocError, Global};
use std::sync::ledger::Ledger;

/// The armed rows in a skip list: nodes in a slab, with a link on each level that they are on, and the
/// key of each timer's node. Each node is on the lowest level, and on the next one with a chance of one
/// in four. Only `first` gives out a row, and it counts the read.
#[derive(Drop)]
pub struct Rows<const L: usize> {
    nodes: Slab<Node<L>>,
    heads: [Option<usize>; L],
    places: Vec<Option<usize>>,
    tick: u32,
    draws: Pcg32,
}

impl<const L: usize> Rows<L> {
    /// No row at a tick, and room for as many as are told.
    pub fn new(alloc: Global, count: u16, now: u32) -> Result<Rows<L>, AllocError>
        requires { 0 < L }
        ensures line { IfOk result (λ rows. line rows ≡ []) }
        ensures count { IfOk result (λ rows. length rows.places.items ≡ count) }
        ensures tick { IfOk result (λ rows. rows.tick ≡ now) }
        ensures linked { IfOk result (λ rows. IsLinked rows) }
    {
        let nodes = Slab::with_capacity(alloc, count as usize)?;
        let places = vec![in alloc; None; count as usize]?;
        Ok(Rows {
            nodes,
            heads: [None; L],
            places,
            tick: now,
            draws: Pcg32::seed_from_u64(0),
        })
    }

    /// The row that fires first: `None` exactly where there is no row.
    pub fn first<M: Ledger>(&self, steps: &mut Steps<M>) -> Option<Row>
        requires { IsLinked self.now }
        ensures row { option_map (armed_row self.now.tick) result ≡ slice_get (line self.now) 0 }
        ensures count { steps.new ≡ steps.old + 1 }
    {
        steps.tick();
        let node = self.nodes.get(self.heads[0]?)?;
        Some(node.row)
    }

    /// The ticks left until the row that fires first is due: `None` exactly where there is no row.
    pub fn next_due(&self) -> Option<u32>
        requires { IsLinked self.now }
        ensures { result ≡ option_map (λ row. row.left) (slice_get (line self.now) 0) }
    {
        let soonest = self.nodes.get(self.heads[0]?)?;
        Some(self.left(&soonest.row))
    }

    /// The ticks left until the row of a timer is due: `None` exactly where it has no row.
    pub fn left_of(&self, no: TimerNo) -> Option<u32>
        requires { IsLinked self.now }
        ensures { result ≡ left_of no (line self.now) }
    {
        let node = self.nodes.get(self.key_of(no)?)?;
        Some(self.left(&node.row))
    }

    /// The tick at which a timer is due: `None` exactly where it has no row.
    pub fn due(&self, no: TimerNo) -> Option<u32>
        requires { IsLinked self.now }
        ensures { result ≡ option_map (tick_after self.now.tick) (left_of no (line self.now)) }
    {
        let left = self.left_of(no)?;
        Some(self.tick.wrapping_add(left))
    }

    /// The ticks left until a row is due.
    pub fn left(&self, row: &Row) -> u32
        requires { self.now.tick < 4294967296 }
        ensures { result ≡ (armed_row self.now.tick row.now).left }
    {
        row.due.wrapping_sub(self.tick)
    }

    /// So many ticks pass, as many at most as are left of each row. No row is touched.
    pub fn advance(&mut self, n: u32)
        requires linked { IsLinked self.old }
        requires ahead { AllByRecursion (λ (row : ArmedRow). n ≤ row.left) (line self.old) }
        ensures linked { IsLinked self.new }
        ensures line { line self.new ≡ map (row_after n) (line self.old) }
        ensures count { count self.new ≡ count self.old }
        ensures tick { self.new.tick ≡ tick_after self.old.tick n }
    {
        self.tick = self.tick.wrapping_add(n);
    }

    /// Puts in a row that is started after all others, of a timer that has none, due so many ticks later.
    pub fn insert(&mut self, no: TimerNo, after: u32, at: u64)
        requires linked { IsLinked self.old }
        requires below { no < count self.old }
        requires near { after ≤ 2147483647 }
        requires anew { AllByRecursion (IsAnew (record { left = after; number = at; timer = no })) (line self.old) }
        ensures linked { IsLinked self.new }
        ensures line { line self.new ≡ put_row (record { left = after; number = at; timer = no }) (line self.old) }
        ensures count { count self.new ≡ count self.old }
        ensures tick { self.new.tick ≡ self.old.tick }
    {
        let due = self.tick.wrapping_add(after);
        let row = Row { due, at, no };
        let top = (self.draws.next_word().trailing_zeros() / 2) as usize;
        let before = self.before(&row);
        let links = self.links(&before);
        let key = self.nodes.insert_reserved(Node { row, top, links });
        self.relink(&before, top, &[Some(key); L]);
        self.places[no.0 as usize] = Some(key);
    }

    /// Takes out the row of a timer: false exactly where it has none.
    pub fn remove(&mut self, no: TimerNo) -> bool
        requires { IsLinked self.old }
        ensures answer { result ≡ list_any (is_row_of no) (line self.old) }
        ensures linked { IsLinked self.new }
        ensures line { line self.new ≡ take_out no (line self.old) }
        ensures count { count self.new ≡ count self.old }
        ensures tick { self.new.tick ≡ self.old.tick }
    {
        let Some(key) = self.key_of(no) else {
            return false;
        };
        let Some(node) = self.nodes.get(key) else {
            return false;
        };
        let before = self.before(&node.row);
        let node = self.nodes.remove(key);
        self.relink(&before, node.top, &node.links);
        self.places[no.0 as usize] = None;
        true
    }

    // The key of a timer's node: `None` exactly where it has no row.
    fn key_of(&self, no: TimerNo) -> Option<usize>
        requires { IsLinked self.now }
        ensures { result ≡ key_of no (entries self.now) }
    {
        *self.places.get(no.0 as usize)?
    }

    // On each level, the last node there that fires before a row.
    fn before(&self, row: &Row) -> [Option<usize>; L]
        requires { IsLinked self.now }
        ensures { AreStops self.now (armed_row self.now.tick row.now) result }
    {
        let mut before = [None; L];
        let mut from = None;
        let mut level = L;
        while level > 0 {
            level -= 1;
            from = self.walk(from, level, row);
            before[level] = from;
        }
        before
    }

    // From a node on along a level, the last one there that fires before a row. No level has more
    // nodes than there are timer numbers.
    fn walk(&self, from: Option<usize>, level: usize, row: &Row) -> Option<usize>
        requires linked { IsLinked self.now }
        requires level { level < L }
        requires from { IsFrom self.now level (armed_row self.now.tick row.now) from }
        ensures { IsStop self.now level (armed_row self.now.tick row.now) result }
    {
        let mut last = from;
        for _ in 0..self.places.len() {
            let Some(next) = self.step(last, level, row) else {
                return last;
            };
            last = Some(next);
        }
        last
    }

    // The node behind another one on a level, where it fires before a row.
    fn step(&self, from: Option<usize>, level: usize, row: &Row) -> Option<usize>
        requires tick { self.now.tick < 4294967296 }
        requires level { level < L }
        ensures goes { MatchOption result (IsEnd self.now level (armed_row self.now.tick row.now) from) (λ key.
            link_on self.now level from ≡ Some key) }
        ensures before { (key : ℕ) → result ≡ Some key →
            is_before (armed_row self.now.tick row.now) (slot_at self.now level key) }
    {
        let next = self.link(from, level)?;
        if self.is_before(next, row) {
            Some(next)
        } else {
            None
        }
    }

    // The links behind some nodes, one of each level.
    fn links(&self, lasts: &[Option<usize>; L]) -> [Option<usize>; L]
        ensures { AreLinks self.now lasts.now result }
    {
        let mut links = [None; L];
        for level in 0..L {
            links[level] = self.link(lasts[level], level);
        }
        links
    }

    // Sets the links behind some nodes, one of each level up to the top.
    fn relink(&mut self, lasts: &[Option<usize>; L], top: usize, links: &[Option<usize>; L])
        ensures { AreRelinked self.old self.new top lasts.now links.now }
    {
        for level in 0..L {
            if level <= top {
                self.set_link(lasts[level], level, links[level]);
            }
        }
    }

    // The link of a node on a level, or where there is no node the first one there.
    fn link(&self, from: Option<usize>, level: usize) -> Option<usize>
        requires { level < L }
        ensures { result ≡ link_on self.now level from }
    {
        match from {
            None => self.heads[level],
            Some(key) => self.nodes.get(key)?.links[level],
        }
    }

    // Sets the link of a node on a level, or where there is no node the first one there.
    fn set_link(&mut self, from: Option<usize>, level: usize, to: Option<usize>)
        requires { level < L }
        ensures link { IsRelinked self.old self.new level from to }
        ensures levels { (other : ℕ) → other ≢ level → SameLevel self.old self.new other }
        ensures rest { SameRest self.old self.new }
    {
        match from {
            None => self.heads[level] = to,
            Some(key) => {
                if let Some(node) = self.nodes.get_mut(key) {
                    node.links[level] = to;
                }
            }
        }
    }

    // Whether a node fires before a row.
    fn is_before(&self, key: usize, row: &Row) -> bool
        requires { self.now.tick < 4294967296 }
        ensures yes { result ≡ true → (level : ℕ) → is_before (armed_row self.now.tick row.now) (slot_at self.now level key) }
        ensures no { (d : Node L) → get self.now.nodes key ≡ Some d →
            result ≡ sooner (armed_row self.now.tick d.row) (armed_row self.now.tick row.now) }
    {
        match self.nodes.get(key) {
            None => false,
            Some(node) => self.is_sooner(&node.row, row),
        }
    }

    // Whether one row fires before another.
    fn is_sooner(&self, one: &Row, other: &Row) -> bool
        requires { self.now.tick < 4294967296 }
        ensures { result ≡ sooner (armed_row self.now.tick one.now) (armed_row self.now.tick other.now) }
    {
        let (left, others) = (self.left(one), self.left(other));
        left < others || (left == others && one.at < other.at)
    }
}
