use board_text::parse;
use core_runner::{ReplayFault, RunFault, replay, run, run_within};
use kernel_step::Machine;
use rt_base::Halt;
use rt_plain::{Board, Cut};
use std::alloc::Global;
use std::process::Abort;
use std::test::Fail;

// Its run has 16 entries and 11 lines.
const BOARD: &[u8] =
    b"board 1\nthread A 10 10 any start\n  print \"hi\"\n  delay 10\n  print \"bye\"\n";

// A board whose run has two ticks, and two traces of it: the second one has a cut.
const LAST_TICK: &[u8] = b"board 1\nuntil 2\n";

const TICKS: &[u8] = b"1 tick 1\n2 tick 2\nend until @2\n";

const CUT_TICKS: &[u8] = b"1 tick 1\ncut 1\n2 tick 2\nend until @2\n";

fn board_of(alloc: Global, text: &[u8]) -> Result<Board, Fail> {
    Ok(parse(alloc, text).ok().ok_or("no board")?)
}

// Whether this is the machine after the whole run of the board.
fn is_whole(machine: &Machine) -> bool {
    machine.halt() == Some(Halt::Quiet)
        && machine.journal().entries() == 16
        && machine.journal().lines() == 11
}

// Whether the run within limits is that of the whole board.
fn halts_within(alloc: Global, entries: u32, lines: u32) -> Result<bool, Fail> {
    match run_within(alloc, board_of(alloc, BOARD)?, entries, lines) {
        Ok(machine) => Ok(is_whole(&machine)),
        Err(_) => Ok(false),
    }
}

// The limit that the run within limits meets.
fn fault_within(alloc: Global, entries: u32, lines: u32) -> Result<Option<RunFault>, Fail> {
    match run_within(alloc, board_of(alloc, BOARD)?, entries, lines) {
        Ok(_) => Ok(None),
        Err(fault) => Ok(Some(fault)),
    }
}

#[test]
fn a_run_meets_the_first_of_its_limits(rt: HostRuntime) -> Result<(), Fail> {
    let alloc = rt.alloc();
    let early = Some(RunFault::Limit {
        entries: 3,
        lines: 4,
    });
    let late = Some(RunFault::Limit {
        entries: 16,
        lines: 11,
    });
    assert!(rt; halts_within(alloc, 20_000, 100_000)?);
    assert!(rt; fault_within(alloc, 3, 100_000)? == early);
    // The limit is tested before the step that would halt.
    assert!(rt; fault_within(alloc, 16, 100_000)? == late);
    assert!(rt; halts_within(alloc, 17, 100_000)?);
    assert!(rt; halts_within(alloc, 20_000, 11)?);
    assert!(rt; fault_within(alloc, 20_000, 10)? == late);
    Ok(())
}

#[test]
fn a_run_has_the_journal_of_its_board(rt: HostRuntime) -> Result<(), Fail> {
    match run(rt.alloc(), board_of(rt.alloc(), BOARD)?) {
        Ok(machine) => assert!(rt; is_whole(&machine)),
        Err(_) => assert!(rt; false),
    }
    Ok(())
}

// Where a cut stands, if there is one, and its first count.
fn told(cut: &Option<Cut>) -> Option<(u32, u32)> {
    match cut {
        None => None,
        Some(cut) => {
            let counts = cut.counts.as_slice();
            let first = if counts.len() > 0 { counts[0] } else { 0 };
            Some((cut.at, first))
        }
    }
}

// What a replay of a trace on the board of two ticks answers: its cut, as it is told.
fn replayed(alloc: Global, trace: &[u8]) -> Result<Result<Option<(u32, u32)>, ReplayFault>, Fail> {
    if trace.len() > 100 {
        return Ok(Ok(None));
    }
    let board = board_of(alloc, LAST_TICK)?;
    match replay(alloc, board, trace) {
        Ok(run) => Ok(Ok(told(&run.1))),
        Err(fault) => Ok(Err(fault)),
    }
}

#[test]
fn a_replay_tells_the_cut_of_its_trace(rt: HostRuntime) -> Result<(), Fail> {
    let alloc = rt.alloc();
    assert!(rt; replayed(alloc, TICKS)? == Ok(None));
    assert!(rt; replayed(alloc, CUT_TICKS)? == Ok(Some((1, 1))));
    assert!(rt; replayed(alloc, &TICKS[9..])? == Err(ReplayFault::Line { no: 1 }));
    assert!(rt; replayed(alloc, &TICKS[..18])? == Err(ReplayFault::Line { no: 3 }));
    Ok(())
}
