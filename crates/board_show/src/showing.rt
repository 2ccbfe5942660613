//! Writing a board, line by line.
ghost use Rattle.std.specs.Prelude.{◌≡◌, ◌++◌, OnOk, IfOk};
ghost use Rattle.rt_plain.specs.text.Canon.{canonical_text, object_lines, setting_lines, shell_lines, soft_lines};
ghost use Rattle.board_show.specs.Writing.{line_by_line, whole_line, whole_lines};
ghost use Rattle.rt_plain.specs.declared.board_line.BoardLine.TheVariants as said;
ghost use Rattle.rt_plain.specs.declared.board_line.LimitClass.TheVariants as limit;

use crate::fields::{byte, half, mode, moment, number, on_off, prio};
use crate::lines::{
    put_arrivals, put_devices, put_events, put_limit, put_mailboxes, put_mutexes, put_pools,
    put_queues, put_schedule, put_sems, put_threads, put_timers,
};
use crate::shown::Shown;
use crate::writing::put_line;
use rt_base::{List, Prio};
use rt_plain::{Board, LimitClass, Limits};
use std::alloc::{AllocError, Global};

// The head, and what the cores are.
#[tactic(auto, unfolding(crate::specs::Writing::whole_line))]
fn put_cores(out: &mut List<u8>, board: &Board) -> Result<(), AllocError>
    ensures { OnOk result (out.new ≡ (((out.old ++ whole_line (said.Version 1)) ++ whole_line (said.Cores board.now.cores)) ++ whole_line (said.Levels board.now.levels)) ++ whole_line (said.Tickless board.now.tickless)) }
{
    put_line(out, b"board", &[Shown::Number(1)])?;
    put_line(out, b"cores", &[byte(&board.cores)])?;
    put_line(out, b"levels", &[half(&board.levels)])?;
    put_line(out, b"tickless", &[on_off(&board.tickless)])
}

// The first tick, and how long a run may be.
#[tactic(auto, unfolding(crate::specs::Writing::whole_line))]
fn put_run(out: &mut List<u8>, board: &Board) -> Result<(), AllocError>
    ensures { OnOk result (out.new ≡ ((out.old ++ whole_line (said.Tick0 board.now.tick0)) ++ whole_line (said.Until board.now.until)) ++ whole_line (said.Entries board.now.entries)) }
{
    put_line(out, b"tick0", &[number(&board.tick0)])?;
    put_line(out, b"until", &[moment(&board.until)])?;
    put_line(out, b"entries", &[number(&board.entries)])
}

// How long a sleep may be, and by which clock.
#[tactic(auto, unfolding(crate::specs::Writing::whole_line))]
fn put_sleeps(out: &mut List<u8>, board: &Board) -> Result<(), AllocError>
    ensures { OnOk result (out.new ≡ ((out.old ++ whole_line (said.LpMax board.now.lpmax)) ++ whole_line (said.Thresh board.now.thresh)) ++ whole_line (said.LpClock board.now.lp_h board.now.lp_q)) }
{
    put_line(out, b"lpmax", &[number(&board.lpmax)])?;
    put_line(out, b"thresh", &[number(&board.thresh)])?;
    put_line(out, b"lpclock", &[number(&board.lp_h), number(&board.lp_q)])
}

#[tactic(auto, unfolding(crate::specs::Writing::whole_line))]
fn put_settings(out: &mut List<u8>, board: &Board) -> Result<(), AllocError>
    ensures { OnOk result (out.new ≡ line_by_line out.old (setting_lines board.now)) }
{
    put_cores(out, board)?;
    put_run(out, board)?;
    put_sleeps(out, board)?;
    put_line(out, b"default", &[mode(&board.default_mode)])?;
    put_schedule(out, &board.schedule)
}

#[tactic(auto, unfolding(crate::specs::Writing::whole_line))]
fn put_shell(out: &mut List<u8>, shell: &Option<Prio>) -> Result<(), AllocError>
    ensures { OnOk result (out.new ≡ line_by_line out.old (shell_lines shell.now)) }
{
    match shell {
        None => Ok(()),
        Some(priority) => put_line(out, b"shell", &[prio(priority)]),
    }
}

#[tactic(auto, unfolding(crate::specs::Writing::whole_line))]
fn put_soft(out: &mut List<u8>, soft: &Option<Prio>) -> Result<(), AllocError>
    ensures { OnOk result (out.new ≡ line_by_line out.old (soft_lines soft.now)) }
{
    match soft {
        None => Ok(()),
        Some(priority) => put_line(out, b"soft", &[prio(priority)]),
    }
}

fn put_limits(out: &mut List<u8>, limits: &Limits) -> Result<(), AllocError>
    ensures { OnOk result (out.new ≡ ((out.old ++ whole_line (said.Limit limit.Sem limits.now.sem)) ++ whole_line (said.Limit limit.Event limits.now.event)) ++ whole_line (said.Limit limit.Mutex limits.now.mutex)) }
{
    put_limit(out, LimitClass::Sem, &limits.sem)?;
    put_limit(out, LimitClass::Event, &limits.event)?;
    put_limit(out, LimitClass::Mutex, &limits.mutex)
}

#[tactic(auto, using(crate::proofs::Joins::objects_are))]
fn put_objects(out: &mut List<u8>, board: &Board) -> Result<(), AllocError>
    ensures { OnOk result (out.new ≡ out.old ++ whole_lines (object_lines board.now)) }
{
    put_sems(out, board.sems.as_slice())?;
    put_events(out, board.events.as_slice())?;
    put_mutexes(out, board.mutexes.as_slice())?;
    put_mailboxes(out, board.mailboxes.as_slice())?;
    put_queues(out, board.queues.as_slice())?;
    put_pools(out, board.pools.as_slice())?;
    put_devices(out, board.devices.as_slice())?;
    put_timers(out, board.timers.as_slice())?;
    put_threads(out, board.threads.as_slice())?;
    put_arrivals(out, board.arrivals.as_slice())
}

/// The canonical text of a board: all settings, the threads of the shell and of soft timers where there are any, the
/// three limits, then the objects, threads and arrivals in board order, each line with its newline. `AllocError` is
/// want of memory.
#[tactic(auto, using(crate::proofs::Joins::board_is))]
pub fn show(alloc: Global, board: &Board) -> Result<List<u8>, AllocError>
    ensures { IfOk result (λ text. text ≡ canonical_text board.now) }
{
    let mut text = List::new(alloc);
    put_settings(&mut text, board)?;
    put_shell(&mut text, &board.shell)?;
    put_soft(&mut text, &board.soft)?;
    put_limits(&mut text, &board.limits)?;
    put_objects(&mut text, board)?;
    Ok(text)
}
