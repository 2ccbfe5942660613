ghost use Rattle.std.specs.Prelude.{ℕ, ◌≡◌, ◌+◌, ◌<◌, ◌≤◌, [], All, IsTrue};

use rand_core::SeedableRng;
use rand_core::utils::NextWord;
use rand_pcg::Pcg32;
use rt_base::{Steps, TimerNo};
use std::alloc::Global;
use std::marker::Brand;
use std::process::Abort;
use std::sync::ledger::{Blank, Ledger};
use std::test::Fail;
use timer_skip::Timers;

// The last tick of 32 bits but one.
const NEAR_THE_END: u32 = 4294967294;

// A hundred ticks before the wrap.
const BEFORE_THE_WRAP: u32 = 4294967196;

// Arms a timer that isn't armed.
fn arm<const L: usize>(rt: &impl Abort, timers: &mut Timers<L>, no: u16, after: u32, at: u64)
    requires below { no < timers.old.count }
    requires some { 1 ≤ after }
    requires near { after ≤ 2147483647 }
    requires latest { All (λ row. row.number < at) timers.old.rows }
    ensures count { timers.new.count ≡ timers.old.count }
    ensures latest { All (λ row. row.number < at + 1) timers.new.rows }
{
    assert!(rt; timers.due(TimerNo(no)).is_none());
    timers.start(TimerNo(no), after, at);
}

// Whether so many ticks at least are left of each row.
fn is_ahead<const L: usize>(timers: &Timers<L>, n: u32) -> bool
    ensures { IsTrue result → All (λ row. n ≤ row.left) timers.now.rows }
{
    match timers.next_due() {
        None => true,
        Some(left) => n <= left,
    }
}

// So many ticks pass.
fn pass<const L: usize>(rt: &impl Abort, timers: &mut Timers<L>, n: u32)
    ensures count { timers.new.count ≡ timers.old.count }
    ensures latest { (at : ℕ) → All (λ row. row.number < at) timers.old.rows
        → All (λ row. row.number < at) timers.new.rows }
{
    assert!(rt; is_ahead(timers, n));
    timers.advance(n);
}

// Two rows that are due together behind the wrap, and one that is due later.
fn across_the_wrap<const L: usize, M: Ledger>(
    rt: &impl Abort,
    timers: &mut Timers<L>,
    steps: &mut Steps<M>,
)
    requires count { timers.old.count ≡ 8 }
    requires none { timers.old.rows ≡ [] }
{
    assert_eq!(rt; timers.next_due(), None);
    arm(rt, timers, 7, 5, 1);
    arm(rt, timers, 3, 5, 2);
    arm(rt, timers, 1, 6, 3);
    assert_eq!(rt; timers.next_due(), Some(5));
    assert_eq!(rt; timers.due(TimerNo(7)), Some(3));
    assert_eq!(rt; timers.take_due(steps), None);
    pass(rt, timers, 5);
    assert_eq!(rt; timers.take_due(steps), Some(TimerNo(7)));
    assert_eq!(rt; timers.take_due(steps), Some(TimerNo(3)));
    assert_eq!(rt; timers.take_due(steps), None);
    assert_eq!(rt; timers.due(TimerNo(1)), Some(4));
    assert!(rt; timers.stop(TimerNo(1)));
    assert!(rt; !timers.stop(TimerNo(1)));
    assert!(rt; !timers.stop(TimerNo(99)));
    assert_eq!(rt; timers.next_due(), None);
}

fn wraps<M: Ledger>(rt: &impl Abort, alloc: Global, blank: Blank) -> Result<(), Fail>
    requires name { blank.name ≡ M.name }
    requires parts { blank.parts ≡ M.parts }
    requires some { M.parts ≡ 1 }
{
    let mut steps = Steps::<M>::new(blank);
    let mut one = Timers::<1>::new(alloc, 8, NEAR_THE_END)?;
    across_the_wrap(rt, &mut one, &mut steps);
    let mut four = Timers::<4>::new(alloc, 8, NEAR_THE_END)?;
    across_the_wrap(rt, &mut four, &mut steps);
    let mut eight = Timers::<8>::new(alloc, 8, NEAR_THE_END)?;
    across_the_wrap(rt, &mut eight, &mut steps);
    Ok(())
}

#[test]
fn rows_due_together_behind_the_wrap_fire_in_the_order_of_their_starts(
    rt: HostRuntime,
) -> Result<(), Fail> {
    wraps::<Brand>(&rt, rt.alloc(), Blank::new(1))
}

// The plain body: for each timer the moment at which it is due, counted without a wrap, and its start
// number, where it is armed.
type Plain = [Option<(u32, u64)>; 8];

// The row that is due at a moment and was started first.
fn first_due(plain: &Plain, moment: u32) -> Option<TimerNo> {
    let mut first = None;
    for no in 0..8u16 {
        let Some((due, at)) = plain[no as usize] else {
            continue;
        };
        let is_earlier = match first {
            None => true,
            Some((_, earliest)) => at < earliest,
        };
        if due == moment && is_earlier {
            first = Some((no, at));
        }
    }
    let (no, _) = first?;
    Some(TimerNo(no))
}

// The ticks from a moment to the least one at which a row is due.
fn least_left(plain: &Plain, moment: u32) -> Option<u32> {
    let mut least = None;
    for row in plain {
        let Some((due, _)) = row else { continue };
        least = match least {
            Some(other) if other <= *due => least,
            _ => Some(*due),
        };
    }
    Some(least?.wrapping_sub(moment))
}

// The tick at which a timer is due, where moment 0 has a tick.
fn due_tick(plain: &Plain, no: u16, start: u32) -> Option<u32> {
    let (due, _) = (*plain.get(no as usize)?)?;
    Some(start.wrapping_add(due))
}

// Stops a timer where it is armed, and else arms it.
fn switch<const L: usize>(
    rt: &impl Abort,
    timers: &mut Timers<L>,
    plain: &mut Plain,
    no: u16,
    after: u32,
    moment: u32,
)
    requires count { timers.old.count ≡ 8 }
    requires some { 1 ≤ after }
    requires near { after ≤ 2147483647 }
    requires latest { All (λ row. row.number < moment) timers.old.rows }
    ensures count { timers.new.count ≡ 8 }
    ensures latest { All (λ row. row.number < moment + 1) timers.new.rows }
{
    assert!(rt; no < 8);
    if timers.stop(TimerNo(no)) {
        assert!(rt; plain[no as usize].is_some());
        plain[no as usize] = None;
    } else {
        arm(rt, timers, no, after, moment as u64);
        plain[no as usize] = Some((moment.wrapping_add(after), moment as u64));
    }
}

// Fires all rows that are due at a moment, in the order of the plain body.
fn drain<const L: usize, M: Ledger>(
    rt: &impl Abort,
    timers: &mut Timers<L>,
    plain: &mut Plain,
    moment: u32,
    steps: &mut Steps<M>,
)
    requires { timers.old.count ≡ 8 }
    ensures count { timers.new.count ≡ 8 }
    ensures latest { (at : ℕ) → All (λ row. row.number < at) timers.old.rows
        → All (λ row. row.number < at) timers.new.rows }
{
    for _ in 0..9 {
        assert_eq!(rt; timers.next_due(), least_left(plain, moment));
        let first = first_due(plain, moment);
        assert_eq!(rt; fire(timers, steps), first);
        let Some(no) = first else { break };
        assert!(rt; no.0 < 8);
        plain[no.0 as usize] = None;
    }
}

// Takes out the first row that is due.
fn fire<const L: usize, M: Ledger>(timers: &mut Timers<L>, steps: &mut Steps<M>) -> Option<TimerNo>
    ensures count { timers.new.count ≡ timers.old.count }
    ensures latest { (at : ℕ) → All (λ row. row.number < at) timers.old.rows
        → All (λ row. row.number < at) timers.new.rows }
{
    timers.take_due(steps)
}

// Random calls, side by side with the plain body.
fn random_calls<const L: usize, M: Ledger>(
    rt: &impl Abort,
    timers: &mut Timers<L>,
    start: u32,
    seed: u64,
    steps: &mut Steps<M>,
)
    requires count { timers.old.count ≡ 8 }
    requires none { timers.old.rows ≡ [] }
{
    let mut plain = [None; 8];
    let mut words = Pcg32::seed_from_u64(seed);
    for moment in 0..300u32 {
        let no = (words.next_word() % 8) as u16;
        let after = 1 + words.next_word() % 6;
        switch(rt, timers, &mut plain, no, after, moment);
        assert_eq!(rt; timers.due(TimerNo(no)), due_tick(&plain, no, start));
        pass(rt, timers, 1);
        drain(rt, timers, &mut plain, moment + 1, steps);
    }
}

fn side_by_side<M: Ledger>(rt: &impl Abort, alloc: Global, blank: Blank) -> Result<(), Fail>
    requires name { blank.name ≡ M.name }
    requires parts { blank.parts ≡ M.parts }
    requires some { M.parts ≡ 1 }
{
    let mut steps = Steps::<M>::new(blank);
    for seed in 0..20u64 {
        let mut one = Timers::<1>::new(alloc, 8, BEFORE_THE_WRAP)?;
        random_calls(rt, &mut one, BEFORE_THE_WRAP, seed, &mut steps);
        let mut four = Timers::<4>::new(alloc, 8, BEFORE_THE_WRAP)?;
        random_calls(rt, &mut four, BEFORE_THE_WRAP, seed, &mut steps);
        let mut eight = Timers::<8>::new(alloc, 8, BEFORE_THE_WRAP)?;
        random_calls(rt, &mut eight, BEFORE_THE_WRAP, seed, &mut steps);
    }
    Ok(())
}

#[test]
fn calls_across_the_wrap_agree_with_a_scan_of_the_rows(rt: HostRuntime) -> Result<(), Fail> {
    side_by_side::<Brand>(&rt, rt.alloc(), Blank::new(1))
}

// As many rows as there may be, all due at one tick.
fn all_at_once<const L: usize, M: Ledger>(
    rt: &impl Abort,
    timers: &mut Timers<L>,
    steps: &mut Steps<M>,
)
    requires count { timers.old.count ≡ 512 }
    requires none { timers.old.rows ≡ [] }
{
    for no in 0..512u16 {
        arm(rt, timers, no, 9, no as u64);
    }
    pass(rt, timers, 9);
    for no in 0..512u16 {
        assert_eq!(rt; fire(timers, steps), Some(TimerNo(no)));
    }
    assert_eq!(rt; fire(timers, steps), None);
}

fn crowds<M: Ledger>(rt: &impl Abort, alloc: Global, blank: Blank) -> Result<(), Fail>
    requires name { blank.name ≡ M.name }
    requires parts { blank.parts ≡ M.parts }
    requires some { M.parts ≡ 1 }
{
    let mut steps = Steps::<M>::new(blank);
    let mut one = Timers::<1>::new(alloc, 512, BEFORE_THE_WRAP)?;
    all_at_once(rt, &mut one, &mut steps);
    let mut eight = Timers::<8>::new(alloc, 512, BEFORE_THE_WRAP)?;
    all_at_once(rt, &mut eight, &mut steps);
    Ok(())
}

#[test]
fn five_hundred_rows_fire_at_one_tick(rt: HostRuntime) -> Result<(), Fail> {
    crowds::<Brand>(&rt, rt.alloc(), Blank::new(1))
}
