ghost use Rattle.std.specs.Prelude.{◌≡◌, ◌*◌, ◌≤◌};

use rand_core::SeedableRng;
use rand_core::utils::NextWord;
use rand_pcg::Pcg32;
use ready_set::ReadySet;
use rt_base::{CoreNo, Prio, Steps, ThreadNo};
use std::alloc::Global;
use std::marker::Brand;
use std::process::Abort;
use std::sync::ledger::{Blank, Ledger};
use std::test::Fail;

#[derive(Clone, Copy)]
struct Row {
    thread: u16,
    prio: u8,
    core: Option<u8>,
}

const fn row_with(thread: u16, prio: u8, core: Option<u8>) -> Row {
    Row { thread, prio, core }
}

#[derive(Clone, Copy)]
enum Act {
    Tail(Row),
    Head(Row),
    Remove(u16),
    Picks(u8, Option<u16>),
}

// One call of a set for 256 threads and two cores, or one pick with the answer that it must give.
fn make<const G: usize, L: Ledger>(
    rt: &impl Abort,
    set: &mut ReadySet<G>,
    act: Act,
    steps: &mut Steps<L>,
)
    requires threads { set.old.threads ≡ 256 }
    requires cores { set.old.cores ≡ 2 }
    requires levels { set.old.levels ≡ 8 * G }
    ensures threads { set.new.threads ≡ 256 }
    ensures cores { set.new.cores ≡ 2 }
    ensures levels { set.new.levels ≡ 8 * G }
{
    match act {
        Act::Tail(row) => add(rt, set, row, false),
        Act::Head(row) => add(rt, set, row, true),
        Act::Remove(thread) => {
            assert!(rt; thread < 256);
            assert!(rt; set.holds(ThreadNo(thread)));
            set.remove(ThreadNo(thread));
        }
        Act::Picks(core, wanted) => {
            assert!(rt; core < 2);
            assert!(rt; set.pick(CoreNo(core), steps).map(|thread| thread.0) == wanted);
        }
    }
}

fn add<const G: usize>(rt: &impl Abort, set: &mut ReadySet<G>, row: Row, at_head: bool)
    requires threads { set.old.threads ≡ 256 }
    requires cores { set.old.cores ≡ 2 }
    requires levels { set.old.levels ≡ 8 * G }
    ensures threads { set.new.threads ≡ 256 }
    ensures cores { set.new.cores ≡ 2 }
    ensures levels { set.new.levels ≡ 8 * G }
{
    let Row { thread, prio, core } = row;
    assert!(rt; thread < 256);
    assert!(rt; G <= 32);
    assert!(rt; (prio as usize) < 8 * G);
    assert!(rt; !set.holds(ThreadNo(thread)));
    let core = match core {
        None => None,
        Some(core) => {
            assert!(rt; core < 2);
            Some(CoreNo(core))
        }
    };
    if at_head {
        set.add_head(ThreadNo(thread), Prio(prio), core);
    } else {
        set.add_tail(ThreadNo(thread), Prio(prio), core);
    }
}

fn make_all<const G: usize, L: Ledger>(
    rt: &impl Abort,
    alloc: Global,
    acts: &[Act],
    steps: &mut Steps<L>,
) -> Result<(), Fail>
    requires { G ≤ 32 }
{
    let mut set = ReadySet::<G>::new(alloc, 256, 2)?;
    for act in acts {
        make(rt, &mut set, *act, steps);
    }
    Ok(())
}

fn worked_rows<L: Ledger>(rt: &impl Abort, alloc: Global, blank: Blank) -> Result<(), Fail>
    requires name { blank.name ≡ L.name }
    requires parts { blank.parts ≡ L.parts }
    requires one { L.parts ≡ 1 }
{
    let mut steps: Steps<L> = Steps::new(blank);
    let bound_first = [
        Act::Picks(0, None),
        Act::Picks(1, None),
        Act::Tail(row_with(0, 10, None)),
        Act::Tail(row_with(1, 10, Some(0))),
        Act::Picks(0, Some(1)),
        Act::Picks(1, Some(0)),
        Act::Head(row_with(2, 10, None)),
        Act::Picks(1, Some(2)),
        Act::Picks(0, Some(1)),
        Act::Remove(1),
        Act::Picks(0, Some(2)),
        Act::Remove(2),
        Act::Remove(0),
        Act::Picks(0, None),
    ];
    make_all::<4, L>(rt, alloc, &bound_first, &mut steps)?;
    let far_apart = [
        Act::Tail(row_with(0, 255, None)),
        Act::Tail(row_with(1, 0, Some(1))),
        Act::Picks(0, Some(0)),
        Act::Picks(1, Some(1)),
    ];
    make_all::<32, L>(rt, alloc, &far_apart, &mut steps)?;
    let one_group = [Act::Tail(row_with(0, 7, None)), Act::Picks(0, Some(0))];
    make_all::<1, L>(rt, alloc, &one_group, &mut steps)
}

#[test]
fn the_worked_rows_pick_as_written(rt: HostRuntime) -> Result<(), Fail> {
    worked_rows::<Brand>(&rt, rt.alloc(), Blank::new(1))
}

fn full_level<L: Ledger>(rt: &impl Abort, alloc: Global, blank: Blank) -> Result<(), Fail>
    requires name { blank.name ≡ L.name }
    requires parts { blank.parts ≡ L.parts }
    requires one { L.parts ≡ 1 }
{
    let mut steps: Steps<L> = Steps::new(blank);
    let mut set = ReadySet::<4>::new(alloc, 256, 2)?;
    for thread in 0..256u16 {
        make(
            rt,
            &mut set,
            Act::Tail(row_with(thread, 31, None)),
            &mut steps,
        );
    }
    for thread in 0..256u16 {
        make(rt, &mut set, Act::Picks(1, Some(thread)), &mut steps);
        make(rt, &mut set, Act::Remove(thread), &mut steps);
    }
    make(rt, &mut set, Act::Picks(1, None), &mut steps);
    Ok(())
}

#[test]
fn a_full_level_is_picked_in_order(rt: HostRuntime) -> Result<(), Fail> {
    full_level::<Brand>(&rt, rt.alloc(), Blank::new(1))
}

// The first of the rows for a core that no other goes before, by one scan.
fn scanned(rows: &[Row], core: u8) -> Option<u16> {
    let mut best: Option<Row> = None;
    for row in rows {
        if row.core.is_none() || row.core == Some(core) {
            best = match best {
                Some(other)
                    if (other.prio, other.core.is_none()) <= (row.prio, row.core.is_none()) => Some(
                    other,
                ),
                _ => Some(*row),
            };
        }
    }
    best.map(|row| row.thread)
}

// Calls by the words of a seed, each followed by a pick on both cores, against a list that is scanned.
fn seeded_calls<const G: usize, L: Ledger>(
    rt: &impl Abort,
    alloc: Global,
    seed: u64,
    steps: &mut Steps<L>,
) -> Result<(), Fail>
    requires one_group { 1 ≤ G }
    requires most { G ≤ 32 }
{
    let mut words = Pcg32::seed_from_u64(seed);
    let mut set = ReadySet::<G>::new(alloc, 256, 2)?;
    let mut rows: Vec<Row> = Vec::new(alloc);
    for _ in 0..60 {
        let word = words.next_word();
        let thread = (word % 12) as u16;
        if set.holds(ThreadNo(thread)) {
            make(rt, &mut set, Act::Remove(thread), steps);
            rows.retain(|row| row.thread != thread);
        } else {
            let levels = [0, 3, 8 * G / 2, 8 * G - 1];
            let prio = levels[(word >> 8) as usize % 4] as u8;
            let core = match (word >> 16) % 3 {
                0 => None,
                other => Some((other - 1) as u8),
            };
            let new = row_with(thread, prio, core);
            if word >> 31 == 0 {
                make(rt, &mut set, Act::Tail(new), steps);
                rows.push(new)?;
            } else {
                make(rt, &mut set, Act::Head(new), steps);
                rows.insert(0, new)?;
            }
        }
        for core in 0..2u8 {
            make(rt, &mut set, Act::Picks(core, scanned(&rows, core)), steps);
        }
    }
    Ok(())
}

fn all_seeds<L: Ledger>(rt: &impl Abort, alloc: Global, blank: Blank) -> Result<(), Fail>
    requires name { blank.name ≡ L.name }
    requires parts { blank.parts ≡ L.parts }
    requires one { L.parts ≡ 1 }
{
    let mut steps: Steps<L> = Steps::new(blank);
    for seed in 0..100u64 {
        seeded_calls::<1, L>(rt, alloc, seed, &mut steps)?;
        seeded_calls::<4, L>(rt, alloc, seed, &mut steps)?;
        seeded_calls::<32, L>(rt, alloc, seed, &mut steps)?;
    }
    Ok(())
}

#[test]
fn seeded_calls_pick_as_a_scan_does(rt: HostRuntime) -> Result<(), Fail> {
    all_seeds::<Brand>(&rt, rt.alloc(), Blank::new(1))
}
