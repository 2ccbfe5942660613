ghost use Rattle.std.specs.Prelude.{◌≡◌, ◌<◌, ◌≤◌, length};

use ipc_counts::{EventObj, Sem, SemReleased, Want, WokenFlags};
use rand_core::SeedableRng;
use rand_core::utils::NextWord;
use rand_pcg::Pcg32;
use rt_base::{Prio, ThreadNo, WaitOrder};
use std::alloc::Global;
use std::process::Abort;
use std::test::Fail;

// Lets a thread wait for a semaphore of four threads.
fn enter(rt: &impl Abort, sem: &mut Sem, thread: u16, prio: u8, at: u64)
    requires { length sem.old.waiters.rows ≡ 4 }
    ensures { length sem.new.waiters.rows ≡ 4 }
{
    assert!(rt; thread < 4);
    let waiters = sem.waiters();
    assert!(rt; !waiters.holds(ThreadNo(thread)));
    waiters.join(ThreadNo(thread), Prio(prio), at);
}

#[test]
fn counts_up_to_65535_and_down_to_0(rt: HostRuntime) -> Result<(), Fail> {
    let mut full = Sem::new(rt.alloc(), 65535, WaitOrder::Fifo, 1)?;
    assert_eq!(rt; full.release(), SemReleased::Full);
    assert_eq!(rt; full.value(), 65535);
    assert!(rt; full.try_take());
    assert_eq!(rt; full.release(), SemReleased::Raised);
    let mut empty = Sem::new(rt.alloc(), 0, WaitOrder::Fifo, 1)?;
    assert!(rt; !empty.try_take());
    assert_eq!(rt; empty.value(), 0);
    Ok(())
}

#[test]
fn wakes_the_most_urgent_waiter(rt: HostRuntime) -> Result<(), Fail> {
    let mut sem = Sem::new(rt.alloc(), 0, WaitOrder::Prio, 4)?;
    enter(&rt, &mut sem, 0, 20, 1);
    enter(&rt, &mut sem, 3, 10, 2);
    assert_eq!(rt; sem.len(), 2);
    assert_eq!(rt; sem.release(), SemReleased::Woke(ThreadNo(3)));
    assert_eq!(rt; sem.release(), SemReleased::Woke(ThreadNo(0)));
    assert_eq!(rt; sem.value(), 0);
    assert_eq!(rt; sem.len(), 0);
    sem.reset(7, WaitOrder::Fifo);
    assert_eq!(rt; sem.value(), 7);
    Ok(())
}

// Lets a thread wait for flags of an event object of four threads.
fn wait(rt: &impl Abort, event: &mut EventObj, thread: u16, want: Want, at: u64)
    requires { length event.old.waiters.rows ≡ 4 }
    ensures { length event.new.waiters.rows ≡ 4 }
{
    assert!(rt; thread < 4);
    assert!(rt; !event.holds(ThreadNo(thread)));
    event.wait(ThreadNo(thread), want, Prio(10), at);
}

#[test]
fn sends_to_three_receivers(rt: HostRuntime) -> Result<(), Fail> {
    let mut event = EventObj::new(rt.alloc(), WaitOrder::Fifo, 4)?;
    let mut woken = WokenFlags::new(rt.alloc(), 4)?;
    let wants = [
        Want {
            mask: 3,
            all: true,
            clear: true,
        },
        Want {
            mask: 2,
            all: false,
            clear: false,
        },
        Want {
            mask: 4,
            all: true,
            clear: false,
        },
    ];
    wait(&rt, &mut event, 0, wants[0], 1);
    wait(&rt, &mut event, 1, wants[1], 2);
    wait(&rt, &mut event, 2, wants[2], 3);
    event.send(3, &mut woken);
    assert_eq!(rt;
        woken.as_slice(),
        [(ThreadNo(0), 3), (ThreadNo(1), 2)].as_slice()
    );
    assert_eq!(rt; event.flags(), 0);
    assert_eq!(rt; event.len(), 1);
    assert_eq!(rt; event.first(), Some(ThreadNo(2)));
    let any = Want {
        mask: 1,
        all: false,
        clear: false,
    };
    assert_eq!(rt; event.try_recv(any), None);
    Ok(())
}

// The threads of a plain list that the flags satisfy, with what they get, and the flags left.
fn judge(flags: u32, want: &Want) -> Option<u32> {
    let got = flags & want.mask;
    let is_satisfied = if want.all { got == want.mask } else { got != 0 };
    is_satisfied.then_some(got)
}

// A random want of the four low flags.
fn draw_want(words: &mut Pcg32) -> Want {
    Want {
        mask: words.next_word() % 15 + 1,
        all: words.next_word() % 2 == 0,
        clear: words.next_word() % 2 == 0,
    }
}

// Sends on an event object and on its waiters in the plain, which stand in order of arrival.
fn send(
    rt: &impl Abort,
    alloc: Global,
    event: &mut EventObj,
    woken: &mut WokenFlags,
    waiting: &mut Vec<(u16, Want)>,
    mask: u32,
) -> Result<(), Fail>
    requires { length event.old.waiters.rows ≤ woken.old.threads }
    ensures rows { length event.new.waiters.rows ≡ length event.old.waiters.rows }
    ensures room { woken.new.threads ≡ woken.old.threads }
{
    let flags = event.flags() | mask;
    let mut left = flags;
    let mut wanted = Vec::new(alloc);
    for (thread, want) in waiting.iter() {
        if let Some(got) = judge(flags, want) {
            wanted.push((ThreadNo(*thread), got))?;
            if want.clear {
                left &= !want.mask;
            }
        }
    }
    waiting.retain(|(_, want)| judge(flags, want).is_none());
    event.send(mask, woken);
    assert_eq!(rt; woken.as_slice(), wanted.as_slice());
    assert_eq!(rt; event.flags(), left);
    assert_eq!(rt; event.len() as usize, waiting.len());
    Ok(())
}

// Lets a thread wait, on an event object and in the plain, unless it waits already.
fn enter_both(
    event: &mut EventObj,
    waiting: &mut Vec<(u16, Want)>,
    words: &mut Pcg32,
    at: u64,
) -> Result<(), Fail>
    requires { length event.old.waiters.rows ≡ 4 }
    ensures { length event.new.waiters.rows ≡ 4 }
{
    let thread = (words.next_word() % 4) as u16;
    let want = draw_want(words);
    if !event.holds(ThreadNo(thread)) {
        event.wait(ThreadNo(thread), want, Prio(10), at);
        waiting.push((thread, want))?;
    }
    Ok(())
}

#[test]
fn agrees_with_a_plain_list_of_receivers(rt: HostRuntime) -> Result<(), Fail> {
    for seed in 0..200u64 {
        let mut event = EventObj::new(rt.alloc(), WaitOrder::Fifo, 4)?;
        let mut woken = WokenFlags::new(rt.alloc(), 4)?;
        let mut waiting = Vec::new(rt.alloc());
        let mut words = Pcg32::seed_from_u64(seed);
        for at in 0..40u64 {
            if words.next_word() % 3 == 0 {
                let mask = words.next_word() % 15 + 1;
                send(&rt, rt.alloc(), &mut event, &mut woken, &mut waiting, mask)?;
            } else {
                enter_both(&mut event, &mut waiting, &mut words, at)?;
            }
        }
    }
    Ok(())
}
