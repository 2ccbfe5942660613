ghost use Rattle.std.specs.Prelude.{◌≡◌, ◌≤◌, true};
ghost use Rattle.ready_set.specs.ReadyLists.{IsBinding};
ghost use Rattle.ready_list.specs.Depths.{is_depth};

use ready_list::ReadyList;
use rt_base::{CoreNo, Prio, Steps, ThreadNo};
use std::alloc::Global;
use std::marker::Brand;
use std::process::Abort;
use std::sync::ledger::{Blank, Ledger};
use std::test::Fail;

// A call, or a question with the answer that it must give. What is taken is picked and leaves.
#[derive(Clone, Copy)]
enum Act {
    Tail(u16, u8, Option<u8>),
    Head(u16, u8, Option<u8>),
    Remove(u16),
    Reprio(u16, u8),
    Holds(u16, bool),
    IsEmpty(bool),
    Picks(u8, Option<u16>),
    Takes(u8, u16),
}

fn core_below_two(rt: &impl Abort, core: Option<u8>) -> Option<CoreNo>
    ensures { IsBinding 2 result }
{
    match core {
        None => None,
        Some(core) => {
            assert!(rt; core < 2);
            Some(CoreNo(core))
        }
    }
}

fn add(
    rt: &impl Abort,
    ready: &mut ReadyList,
    levels: u16,
    row: (u16, u8, Option<u8>),
    at_head: bool,
)
    requires threads { ready.old.threads ≡ 16 }
    requires cores { ready.old.cores ≡ 2 }
    requires levels { ready.old.levels ≡ levels }
    ensures threads { ready.new.threads ≡ 16 }
    ensures cores { ready.new.cores ≡ 2 }
    ensures levels { ready.new.levels ≡ levels }
{
    let (thread, prio, core) = row;
    assert!(rt; thread < 16 && (prio as u16) < levels);
    assert!(rt; !ready.holds(ThreadNo(thread)));
    let core = core_below_two(rt, core);
    if at_head {
        ready.add_head(ThreadNo(thread), Prio(prio), core);
    } else {
        ready.add_tail(ThreadNo(thread), Prio(prio), core);
    }
}

// Whether a core picks this thread, or nobody.
fn picks<L: Ledger>(
    rt: &impl Abort,
    ready: &ReadyList,
    core: u8,
    wanted: Option<u16>,
    steps: &mut Steps<L>,
)
    requires { ready.now.cores ≡ 2 }
{
    assert!(rt; core < 2);
    assert!(rt; ready.pick(CoreNo(core), steps).map(|thread| thread.0) == wanted);
}

fn remove(rt: &impl Abort, ready: &mut ReadyList, levels: u16, thread: u16)
    requires threads { ready.old.threads ≡ 16 }
    requires cores { ready.old.cores ≡ 2 }
    requires levels { ready.old.levels ≡ levels }
    ensures threads { ready.new.threads ≡ 16 }
    ensures cores { ready.new.cores ≡ 2 }
    ensures levels { ready.new.levels ≡ levels }
{
    assert!(rt; thread < 16);
    ready.remove(ThreadNo(thread));
}

// One act on a list for 16 threads, two cores and so many levels.
fn make<L: Ledger>(
    rt: &impl Abort,
    ready: &mut ReadyList,
    levels: u16,
    act: Act,
    steps: &mut Steps<L>,
)
    requires threads { ready.old.threads ≡ 16 }
    requires cores { ready.old.cores ≡ 2 }
    requires levels { ready.old.levels ≡ levels }
    ensures threads { ready.new.threads ≡ 16 }
    ensures cores { ready.new.cores ≡ 2 }
    ensures levels { ready.new.levels ≡ levels }
{
    match act {
        Act::Tail(thread, prio, core) => add(rt, ready, levels, (thread, prio, core), false),
        Act::Head(thread, prio, core) => add(rt, ready, levels, (thread, prio, core), true),
        Act::Remove(thread) => remove(rt, ready, levels, thread),
        Act::Reprio(thread, prio) => {
            assert!(rt; thread < 16 && (prio as u16) < levels);
            ready.reprio(ThreadNo(thread), Prio(prio));
        }
        Act::Holds(thread, wanted) => {
            assert!(rt; thread < 16);
            assert!(rt; ready.holds(ThreadNo(thread)) == wanted);
        }
        Act::IsEmpty(wanted) => assert!(rt; ready.is_empty() == wanted),
        Act::Picks(core, wanted) => picks(rt, ready, core, wanted, steps),
        Act::Takes(core, wanted) => {
            picks(rt, ready, core, Some(wanted), steps);
            remove(rt, ready, levels, wanted);
        }
    }
}

// Above each group of acts stands the list that they leave.
fn worked_acts<L: Ledger>(
    rt: &impl Abort,
    alloc: Global,
    levels: u16,
    steps: &mut Steps<L>,
) -> Result<(), Fail>
    requires depth { is_depth levels ≡ true }
    requires least { 8 ≤ levels }
    requires most { levels ≤ 256 }
{
    let last = (levels - 1) as u8;
    let acts = [
        Act::IsEmpty(true),
        Act::Picks(0, None),
        // 2, 0, 1
        Act::Tail(0, 3, None),
        Act::Tail(1, 3, None),
        Act::Head(2, 3, None),
        Act::IsEmpty(false),
        Act::Picks(0, Some(2)),
        Act::Picks(1, Some(2)),
        // 2, 1
        Act::Holds(0, true),
        Act::Remove(0),
        Act::Holds(0, false),
        Act::Remove(0),
        Act::Picks(0, Some(2)),
        // 2, 1, 3: core 1 takes its own thread before the unbound ones, and core 0 never takes it
        Act::Tail(3, 3, Some(1)),
        Act::Picks(0, Some(2)),
        Act::Picks(1, Some(3)),
        // 4, 2, 1, 3: a lesser level before both
        Act::Head(4, 2, None),
        Act::Picks(0, Some(4)),
        Act::Picks(1, Some(4)),
        // 4, 1, 3, 2: with the same level too the place is lost
        Act::Reprio(2, 3),
        // 1, 3, 2
        Act::Takes(0, 4),
        Act::Picks(0, Some(1)),
        // 1, 2, 3: more urgent
        Act::Reprio(3, 1),
        Act::Picks(1, Some(3)),
        Act::Picks(0, Some(1)),
        // 1, 2, 3: less urgent
        Act::Reprio(3, last),
        Act::Picks(1, Some(1)),
        // who isn't ready stays so
        Act::Reprio(5, 0),
        Act::Holds(5, false),
        Act::Picks(0, Some(1)),
        // 2, 3, 1
        Act::Reprio(1, 3),
        // 2, 3, 1, 0
        Act::Tail(0, 3, None),
        Act::Takes(0, 2),
        Act::Takes(1, 1),
        Act::Takes(1, 0),
        Act::Picks(0, None),
        Act::Takes(1, 3),
        Act::IsEmpty(true),
        Act::Picks(1, None),
    ];
    let mut ready = ReadyList::new(alloc, 16, 2, levels)?;
    for act in acts {
        make(rt, &mut ready, levels, act, steps);
    }
    Ok(())
}

fn all_depths<L: Ledger>(rt: &impl Abort, alloc: Global, blank: Blank) -> Result<(), Fail>
    requires name { blank.name ≡ L.name }
    requires parts { blank.parts ≡ L.parts }
    requires one { L.parts ≡ 1 }
{
    let mut steps: Steps<L> = Steps::new(blank);
    worked_acts(rt, alloc, 8, &mut steps)?;
    worked_acts(rt, alloc, 32, &mut steps)?;
    worked_acts(rt, alloc, 256, &mut steps)
}

#[test]
fn the_worked_acts_answer_as_written(rt: HostRuntime) -> Result<(), Fail> {
    all_depths::<Brand>(&rt, rt.alloc(), Blank::new(1))
}
