ghost use Rattle.std.specs.Prelude.{◌≡◌};

use crate::bench::Bench;
use mutex_chain::{Change, Released, Took};
use rt_base::{Prio, Steps, ThreadNo};
use std::alloc::Global;
use std::marker::Brand;
use std::process::Abort;
use std::sync::ledger::{Blank, Ledger};
use std::test::Fail;

// An edit of a graph, with what it answers, or what is seen after it.
#[derive(Clone, Copy)]
enum Act {
    Take(u16, u16, Took),
    Wait(u16, u16),
    Leave(u16),
    Release(u16, u16, Released),
    // A mutex goes.
    Kill(u16),
    // A mutex comes, with its ceiling.
    Come(u16, u8),
    Unchanged,
    Changed(Change),
    BothChanged(Change, Change),
    Woken([u16; 3]),
}

const fn change(thread: u16, old: u8, new: u8) -> Change {
    Change {
        thread: ThreadNo(thread),
        old: Prio(old),
        new: Prio(new),
    }
}

// Threads of these bases, numbered from 0, and mutexes with the least urgent ceiling.
fn bench_of(rt: &impl Abort, alloc: Global, bases: &[u8], mutexes: u16) -> Result<Bench, Fail> {
    let mut bench = Bench::new(alloc)?;
    let mut thread = 0;
    for base in bases {
        bench.add_thread(rt, thread, *base);
        assert!(rt; thread < 256);
        thread += 1;
    }
    for mutex in 0..mutexes {
        bench.add_mutex(rt, mutex, 255);
    }
    Ok(bench)
}

// The changes of the last edit are these.
fn changed(rt: &impl Abort, bench: &Bench, wanted: &[Change]) {
    assert_eq!(rt; bench.out.as_slice(), wanted);
}

fn woken(rt: &impl Abort, bench: &Bench, wanted: &[u16; 3]) {
    let [first, second, third] = *wanted;
    let threads = [ThreadNo(first), ThreadNo(second), ThreadNo(third)];
    assert_eq!(rt; bench.woken.as_slice(), threads.as_slice());
}

fn perform<L: Ledger>(rt: &impl Abort, bench: &mut Bench, act: &Act, steps: &mut Steps<L>) {
    match act {
        Act::Take(thread, mutex, wanted) => {
            let took = bench.take(rt, *thread, *mutex, steps);
            assert_eq!(rt; took, *wanted);
        }
        Act::Wait(thread, mutex) => bench.wait(rt, *thread, *mutex, *thread as u64, steps),
        Act::Leave(thread) => bench.leave(rt, *thread, steps),
        Act::Release(thread, mutex, wanted) => {
            let released = bench.release(rt, *thread, *mutex, steps);
            assert_eq!(rt; released, *wanted);
        }
        Act::Kill(mutex) => bench.kill_mutex(rt, *mutex, steps),
        Act::Come(mutex, ceiling) => bench.add_mutex(rt, *mutex, *ceiling),
        Act::Unchanged => changed(rt, bench, &[]),
        Act::Changed(one) => changed(rt, bench, &[*one]),
        Act::BothChanged(one, other) => changed(rt, bench, &[*one, *other]),
        Act::Woken(threads) => woken(rt, bench, threads),
    }
}

fn chain() -> [Act; 8] {
    [
        Act::Take(0, 0, Took::Free),
        Act::Take(1, 1, Took::Free),
        Act::Wait(1, 0),
        Act::Changed(change(0, 20, 15)),
        Act::Wait(2, 1),
        Act::BothChanged(change(0, 15, 5), change(1, 15, 5)),
        Act::Leave(2),
        Act::BothChanged(change(0, 5, 15), change(1, 5, 15)),
    ]
}

fn two_mutexes() -> [Act; 7] {
    [
        Act::Take(0, 0, Took::Free),
        Act::Take(0, 1, Took::Free),
        Act::Wait(1, 0),
        Act::Wait(2, 1),
        Act::Changed(change(0, 10, 5)),
        Act::Release(0, 1, Released::Passed(ThreadNo(2))),
        Act::Changed(change(0, 5, 10)),
    ]
}

fn deadlock() -> [Act; 12] {
    [
        Act::Take(0, 0, Took::Free),
        Act::Take(1, 1, Took::Free),
        Act::Wait(0, 1),
        Act::Changed(change(1, 12, 10)),
        Act::Wait(1, 0),
        Act::Unchanged,
        Act::Wait(2, 0),
        Act::BothChanged(change(0, 10, 3), change(1, 10, 3)),
        Act::Leave(2),
        Act::BothChanged(change(0, 3, 10), change(1, 3, 10)),
        Act::Leave(0),
        Act::Changed(change(1, 10, 12)),
    ]
}

fn deletion() -> [Act; 7] {
    [
        Act::Take(0, 0, Took::Free),
        Act::Wait(1, 0),
        Act::Wait(2, 0),
        Act::Wait(3, 0),
        Act::Kill(0),
        Act::Woken([2, 1, 3]),
        Act::Changed(change(0, 10, 20)),
    ]
}

fn ceiling() -> [Act; 7] {
    [
        Act::Release(1, 0, Released::NotOwner(None)),
        Act::Take(0, 0, Took::Free),
        Act::Release(1, 0, Released::NotOwner(Some(ThreadNo(0)))),
        Act::Kill(0),
        Act::Come(0, 4),
        Act::Take(0, 0, Took::Free),
        Act::Changed(change(0, 20, 4)),
    ]
}

fn perform_all<L: Ledger>(
    rt: &impl Abort,
    alloc: Global,
    bases: &[u8],
    acts: &[Act],
    steps: &mut Steps<L>,
) -> Result<(), Fail> {
    let mut bench = bench_of(rt, alloc, bases, 2)?;
    for act in acts {
        perform(rt, &mut bench, act, steps);
    }
    Ok(())
}

// A thread takes a mutex as often as it may, and releases it as often.
fn holds<L: Ledger>(rt: &impl Abort, alloc: Global, steps: &mut Steps<L>) -> Result<(), Fail> {
    let mut bench = bench_of(rt, alloc, &[20], 1)?;
    for hold in 0..256u16 {
        let wanted = match hold {
            0 => Took::Free,
            255 => Took::HoldFull,
            _ => Took::Again,
        };
        assert_eq!(rt; bench.take(rt, 0, 0, steps), wanted);
    }
    for left in (0..255u8).rev() {
        let wanted = match left {
            0 => Released::Free,
            _ => Released::Held(left),
        };
        assert_eq!(rt; bench.release(rt, 0, 0, steps), wanted);
    }
    Ok(())
}

// A thread for each of the 256 numbers waits for the next one, and the last one for the first.
fn ring<L: Ledger>(rt: &impl Abort, alloc: Global, steps: &mut Steps<L>) -> Result<(), Fail> {
    let mut bench = Bench::new(alloc)?;
    for t in 0..256u16 {
        bench.add_thread(rt, t, (255 - t) as u8);
        bench.add_mutex(rt, t, 255);
        assert_eq!(rt; bench.take(rt, t, t, steps), Took::Free);
    }
    for t in 0..255u16 {
        bench.wait(rt, t, t + 1, t as u64, steps);
        changed(rt, &bench, &[]);
    }
    let mut urgent = Vec::new(alloc);
    let mut back = Vec::new(alloc);
    for t in 0..255u16 {
        urgent.push(change(t, (255 - t) as u8, 0))?;
        back.push(change(t, 0, (255 - t) as u8))?;
    }
    bench.wait(rt, 255, 0, 255, steps);
    changed(rt, &bench, &urgent);
    bench.leave(rt, 255, steps);
    changed(rt, &bench, &back);
    Ok(())
}

fn worked_rows<L: Ledger>(rt: &impl Abort, alloc: Global, blank: Blank) -> Result<(), Fail>
    requires name { blank.name ≡ L.name }
    requires parts { blank.parts ≡ L.parts }
    requires one { L.parts ≡ 1 }
{
    let mut steps: Steps<L> = Steps::new(blank);
    perform_all(rt, alloc, &[20, 15, 5], &chain(), &mut steps)?;
    perform_all(rt, alloc, &[20, 10, 5], &two_mutexes(), &mut steps)?;
    perform_all(rt, alloc, &[10, 12, 3], &deadlock(), &mut steps)?;
    perform_all(rt, alloc, &[20, 15, 10, 15], &deletion(), &mut steps)?;
    perform_all(rt, alloc, &[20, 20], &ceiling(), &mut steps)?;
    holds(rt, alloc, &mut steps)?;
    ring(rt, alloc, &mut steps)
}

#[test]
fn the_worked_rows_change_as_written(rt: HostRuntime) -> Result<(), Fail> {
    worked_rows::<Brand>(&rt, rt.alloc(), Blank::new(1))
}
