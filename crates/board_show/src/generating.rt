//! The board that a number stands for.
ghost use Rattle.std.specs.Prelude.{◌≡◌, ◌∷◌, ◌≤◌, [], IfOk, Some, codes, map, true};
ghost use Rattle.std.specs.List.{range_with_len};
ghost use Rattle.rt_base.specs.declared.codes.WaitOrder.{WaitOrder as Waiting};
ghost use Rattle.rt_plain.specs.text.Canon.{IsValid};
ghost use Rattle.rt_plain.specs.runs.Generated.{board_with, generated_board, numbered};

use crate::draws::{draw_below, draw_sems, draw_timers, named, numbered, push};
use crate::scripts::draw_threads;
use rand_core::SeedableRng;
use rand_pcg::Pcg32;
use rt_base::{List, Prio, Sleep, WaitOrder};
use rt_plain::laws::generated_boards_are_valid;
use rt_plain::{
    Board, DeviceDef, Limits, MailboxDef, MutexDef, Schedule, SemDef, ThreadDef, TimerDef,
};
use std::alloc::{AllocError, Global};

// The four mutexes.
fn mutexes(alloc: Global) -> Result<List<MutexDef>, AllocError>
    ensures { IfOk result (λ all. all ≡ map (λ i. record { name = numbered (codes "m") i; ceiling = 31 }) (range_with_len 0 4)) }
{
    let mut all = List::new(alloc);
    for i in 0..4 {
        push(
            &mut all,
            MutexDef {
                name: numbered(b'm', i),
                ceiling: Prio(31),
            },
        )?;
    }
    Ok(all)
}

// The two mailboxes.
fn mailboxes(alloc: Global) -> Result<List<MailboxDef>, AllocError>
    ensures { IfOk result (λ all. all ≡ map (λ i. record { name = numbered (codes "b") i; size = 4; order = Waiting.Fifo }) (range_with_len 0 2)) }
{
    let mut all = List::new(alloc);
    for i in 0..2 {
        push(
            &mut all,
            MailboxDef {
                name: numbered(b'b', i),
                size: 4,
                order: WaitOrder::Fifo,
            },
        )?;
    }
    Ok(all)
}

// The one device.
fn devices(alloc: Global) -> Result<List<DeviceDef>, AllocError>
    ensures { IfOk result (λ all. all ≡ (record { name = codes "uart1"; rx = 16; tx = 16; rate = 4; pm = true; ind = Some (codes "s0") }) ∷ []) }
{
    let mut all = List::new(alloc);
    push(
        &mut all,
        DeviceDef {
            name: named(b"uart1"),
            rx: 16,
            tx: 16,
            rate: 4,
            pm: true,
            ind: Some(named(b"s0")),
        },
    )?;
    Ok(all)
}

// The board of what was drawn.
fn board_with(
    alloc: Global,
    more_cores: u32,
    sems: List<SemDef>,
    timers: List<TimerDef>,
    threads: List<ThreadDef>,
) -> Result<Board, AllocError>
    requires cores { more_cores ≤ 3 }
    requires valid { IsValid (board_with more_cores sems timers threads) }
    ensures { IfOk result (λ board. board ≡ board_with more_cores sems timers threads) }
{
    let mutexes = mutexes(alloc)?;
    let mailboxes = mailboxes(alloc)?;
    let devices = devices(alloc)?;
    Ok(Board {
        cores: 1 + more_cores as u8,
        levels: 32,
        tickless: true,
        tick0: 0,
        until: 2000,
        entries: 1_000_000,
        lpmax: 2_147_483_647,
        thresh: 2,
        lp_h: 1,
        lp_q: 1,
        default_mode: Sleep::Light,
        schedule: Schedule::Round,
        shell: None,
        soft: None,
        limits: Limits {
            sem: 64,
            event: 64,
            mutex: 256,
        },
        sems,
        events: List::new(alloc),
        mutexes,
        mailboxes,
        queues: List::new(alloc),
        pools: List::new(alloc),
        devices,
        timers,
        threads,
        arrivals: List::new(alloc),
    })
}

/// The board of a number: up to four cores, four semaphores, four mutexes, two mailboxes, a device, two periodic timers,
/// and 8 to 15 threads that go on for 2000 ticks, with what the words of a generator of this seed say. Generated boards
/// are this project's own. `AllocError` is want of memory.
pub fn generate(alloc: Global, n: u32) -> Result<Board, AllocError>
    ensures { IfOk result (λ board. board ≡ generated_board n) }
{
    generated_boards_are_valid();
    let mut words = Pcg32::seed_from_u64(n as u64);
    let more_cores = draw_below(&mut words, 4);
    let sems = draw_sems(alloc, &mut words)?;
    let timers = draw_timers(alloc, &mut words)?;
    let more_threads = draw_below(&mut words, 8);
    let threads = draw_threads(alloc, 8 + more_threads, &mut words)?;
    board_with(alloc, more_cores, sems, timers, threads)
}
