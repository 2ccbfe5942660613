ghost use Rattle.std.specs.Prelude.{◌≡◌, length};

use mem_pool::{Freed, MemPool};
use rand_core::SeedableRng;
use rand_core::utils::NextWord;
use rand_pcg::Pcg32;
use rt_base::{Prio, ThreadNo, WaitOrder};
use std::process::Abort;
use std::test::Fail;

// A call on a pool for four threads, with what it has to answer.
#[derive(Clone, Copy)]
enum Call {
    Alloc(u16, Option<u32>),
    Wait(u16, u8),
    Free(u16, Freed),
}

// Lets a thread wait for a block of a pool for four threads.
fn enter(rt: &impl Abort, pool: &mut MemPool, thread: u16, prio: u8, at: u64)
    requires { length pool.old.waiters.rows ≡ 4 }
    ensures { length pool.new.waiters.rows ≡ 4 }
{
    assert!(rt; thread < 4);
    let waiters = pool.waiters();
    assert!(rt; !waiters.holds(ThreadNo(thread)));
    waiters.join(ThreadNo(thread), Prio(prio), at);
}

// Makes one call after another.
fn make_all(rt: &impl Abort, pool: &mut MemPool, calls: &[Call])
    requires { length pool.old.waiters.rows ≡ 4 }
{
    for (at, call) in calls.iter().enumerate() {
        match *call {
            Call::Alloc(thread, wanted) => {
                assert_eq!(rt; pool.try_alloc(ThreadNo(thread)), wanted);
            }
            Call::Wait(thread, prio) => enter(rt, pool, thread, prio, at as u64),
            Call::Free(thread, wanted) => {
                assert_eq!(rt; pool.free(ThreadNo(thread)), wanted);
            }
        }
    }
}

#[test]
fn gives_the_least_block_and_takes_the_last_back(rt: HostRuntime) -> Result<(), Fail> {
    let mut pool = MemPool::new(rt.alloc(), 2, 32, WaitOrder::Fifo, 4)?;
    let calls = [
        Call::Alloc(0, Some(0)),
        Call::Alloc(0, Some(32)),
        Call::Alloc(0, None),
        Call::Free(0, Freed::Back(32)),
        Call::Alloc(0, Some(32)),
        Call::Free(1, Freed::NotHeld),
        Call::Free(0, Freed::Back(32)),
        Call::Free(0, Freed::Back(0)),
        Call::Free(0, Freed::NotHeld),
        Call::Alloc(1, Some(0)),
    ];
    make_all(&rt, &mut pool, &calls);
    assert_eq!(rt; pool.free_count(), 1);
    Ok(())
}

#[test]
fn a_freed_block_goes_to_the_first_waiter(rt: HostRuntime) -> Result<(), Fail> {
    let mut one = MemPool::new(rt.alloc(), 1, 32, WaitOrder::Fifo, 4)?;
    let calls = [
        Call::Alloc(0, Some(0)),
        Call::Alloc(1, None),
        Call::Wait(1, 11),
        Call::Free(0, Freed::Passed(ThreadNo(1), 0)),
        Call::Free(0, Freed::NotHeld),
        Call::Free(1, Freed::Back(0)),
    ];
    make_all(&rt, &mut one, &calls);
    let mut urgent = MemPool::new(rt.alloc(), 2, 65535, WaitOrder::Prio, 4)?;
    let calls = [
        Call::Alloc(0, Some(0)),
        Call::Alloc(3, Some(65535)),
        Call::Wait(2, 12),
        Call::Wait(3, 11),
        Call::Free(0, Freed::Passed(ThreadNo(3), 0)),
        Call::Free(3, Freed::Passed(ThreadNo(2), 0)),
        Call::Free(3, Freed::Back(65535)),
    ];
    make_all(&rt, &mut urgent, &calls);
    assert_eq!(rt; urgent.free_count(), 1);
    Ok(())
}

// A pool of three blocks of 16 bytes in the plain: who got which block, the last one at the end, and
// who waits.
#[derive(Drop)]
struct PlainPool {
    held: Vec<(u16, u8)>,
    waiting: Vec<u16>,
}

// The least block that nobody holds.
fn least_free(held: &[(u16, u8)]) -> Option<u8> {
    (0..3).find(|block| !held.iter().any(|pair| pair.1 == *block))
}

// The place of the block that a thread got last.
fn last_of(held: &[(u16, u8)], thread: u16) -> Option<usize> {
    let mut last = None;
    for (place, pair) in held.iter().enumerate() {
        if pair.0 == thread {
            last = Some(place);
        }
    }
    last
}

// A thread asks both pools for a block, and waits where there is none.
fn alloc_both(
    rt: &impl Abort,
    pool: &mut MemPool,
    plain: &mut PlainPool,
    thread: u16,
    at: u64,
) -> Result<(), Fail>
    requires { length pool.old.waiters.rows ≡ 4 }
    ensures { length pool.new.waiters.rows ≡ 4 }
{
    let wanted = least_free(&plain.held);
    let place = wanted.map(|block| block as u32 * 16);
    assert_eq!(rt; pool.try_alloc(ThreadNo(thread)), place);
    match wanted {
        Some(block) => plain.held.push((thread, block))?,
        None => {
            if !plain.waiting.contains(&thread) {
                enter(rt, pool, thread, 10, at);
                plain.waiting.push(thread)?;
            }
        }
    }
    Ok(())
}

// A thread gives a block back to both pools.
fn free_both(
    rt: &impl Abort,
    pool: &mut MemPool,
    plain: &mut PlainPool,
    thread: u16,
) -> Result<(), Fail>
    requires { length pool.old.waiters.rows ≡ 4 }
    ensures { length pool.new.waiters.rows ≡ 4 }
{
    let freed = pool.free(ThreadNo(thread));
    let Some(place) = last_of(&plain.held, thread) else {
        assert_eq!(rt; freed, Freed::NotHeld);
        return Ok(());
    };
    assert!(rt; place < plain.held.len());
    let (_, block) = plain.held.remove(place);
    if plain.waiting.is_empty() {
        assert_eq!(rt; freed, Freed::Back(block as u32 * 16));
        return Ok(());
    }
    let next = plain.waiting.remove(0);
    plain.held.push((next, block))?;
    assert_eq!(rt; freed, Freed::Passed(ThreadNo(next), block as u32 * 16));
    Ok(())
}

#[test]
fn seeded_calls_agree_with_plain_lists(rt: HostRuntime) -> Result<(), Fail> {
    for seed in 0..200u64 {
        let mut pool = MemPool::new(rt.alloc(), 3, 16, WaitOrder::Fifo, 4)?;
        let mut plain = PlainPool {
            held: Vec::new(rt.alloc()),
            waiting: Vec::new(rt.alloc()),
        };
        let mut words = Pcg32::seed_from_u64(seed);
        for at in 0..60u64 {
            let thread = (words.next_word() % 4) as u16;
            if words.next_word() % 2 == 0 {
                alloc_both(&rt, &mut pool, &mut plain, thread, at)?;
            } else {
                free_both(&rt, &mut pool, &mut plain, thread)?;
            }
            let free_count = 3usize.saturating_sub(plain.held.len());
            assert_eq!(rt; pool.free_count() as usize, free_count);
        }
    }
    Ok(())
}
