ghost use Rattle.std.specs.Prelude.{◌≡◌};

use board_text::parse;
use rt_base::{Class, Code, CoreNo, RunMode, Sleep, Steps, ThreadNo};
use rt_kernel::{Answer, Caller, Kernel, is_built};
use rt_plain::{Line, Lines, Row, Stmt, ThreadState, View, Woke};
use std::alloc::Global;
use std::marker::Brand;
use std::process::Abort;
use std::sync::ledger::{Blank, Ledger};
use std::test::Fail;

// The first tick that is shown is the last one. The most urgent thread waits, another one isn't started, and a third one
// starts it.
const BOARD: &[u8] =
    b"board 1\ntick0 4294967295\ndefault light\nthread a 5 3 any start\n  print \"x\"\n  delay 1\nthread b 9 1 any init\nthread c 7 2 any start\n  startup b\n";

// Two semaphores and an event object, and a thread that sends flags and then waits.
const OBJECTS: &[u8] =
    b"board 1\nsem s 3 fifo\nsem t 0 prio\nevent e fifo\nthread a 5 10 any start\n  event_send e 6\n  sem_take t ever\n";

const CORE: CoreNo = CoreNo(0);

// What is done to a kernel: a step of its core with the answer of the call, if it makes one, or a tick.
#[derive(Clone, Copy)]
enum Act {
    Step(Option<Answer>),
    Tick,
}

// What is done, and then who runs, the moment, the next number, and how many lines were shown.
#[derive(Clone, Copy)]
struct Stage {
    act: Act,
    running: Option<ThreadNo>,
    moment: u64,
    numbers: u64,
    lines: usize,
}

fn after(act: Act, running: Option<u16>, moment: u64, numbers: u64, lines: usize) -> Stage {
    let running = match running {
        Some(t) => Some(ThreadNo(t)),
        None => None,
    };
    Stage {
        act,
        running,
        moment,
        numbers,
        lines,
    }
}

// `a` waits, and `c` runs until its wait is over.
fn begin_stages() -> [Stage; 5] {
    [
        after(Act::Step(None), Some(0), 0, 0, 1),
        after(Act::Step(None), Some(0), 0, 0, 2),
        after(Act::Step(Some(Answer::Waits)), None, 0, 2, 1),
        after(Act::Step(None), Some(2), 0, 2, 1),
        after(Act::Tick, Some(2), 1, 2, 2),
    ]
}

// `a` runs again and ends, and `c` starts `b`.
fn end_stages() -> [Stage; 4] {
    [
        after(Act::Step(None), Some(0), 1, 2, 2),
        after(Act::Step(None), None, 1, 2, 2),
        after(Act::Step(None), Some(2), 1, 2, 1),
        after(Act::Step(Some(Answer::Code(Code::Ok))), Some(2), 1, 2, 2),
    ]
}

// The core switches, where it may, and else does the next statement of its thread.
fn step<L: Ledger>(
    rt: &impl Abort,
    kernel: &mut Kernel,
    out: &mut Lines,
    steps: &mut Steps<L>,
) -> Option<Answer> {
    kernel.know_kernel();
    assert!(rt; out.spare() >= 2);
    if kernel.switch(CORE, out, steps) {
        return None;
    }
    kernel.know_kernel();
    let thread = kernel.running(CORE)?;
    kernel.unmark(CORE);
    kernel.know_kernel();
    assert!(rt; kernel.running(CORE) == Some(thread));
    assert!(rt; kernel.next(thread) > 0);
    assert!(rt; !kernel.retries(thread));
    assert!(rt; kernel.numbers() < 100);
    assert!(rt; out.spare() >= 2 + kernel.board().threads.len());
    match kernel.next_statement(thread) {
        Stmt::Do(call) => Some(kernel.call(Caller::Thread(thread, CORE), &call, out, steps)),
        stmt => {
            kernel.plain(CORE, &stmt, out, steps);
            None
        }
    }
}

// A tick at which at most one wait ends.
fn tick<L: Ledger>(rt: &impl Abort, kernel: &mut Kernel, out: &mut Lines, steps: &mut Steps<L>) {
    assert!(rt; kernel.take_due(steps).is_none());
    assert!(rt; kernel.moment() < 100);
    kernel.begin_tick();
    if let Some(no) = kernel.take_due(steps) {
        kernel.know_kernel();
        assert!(rt; kernel.numbers() < 100);
        assert!(rt; out.spare() >= 2 + kernel.board().threads.len());
        kernel.fire(no, out, steps);
    }
}

fn perform<L: Ledger>(
    rt: &impl Abort,
    kernel: &mut Kernel,
    stage: Stage,
    out: &mut Lines,
    steps: &mut Steps<L>,
) {
    out.clear();
    match stage.act {
        Act::Step(answer) => assert!(rt; step(rt, kernel, out, steps) == answer),
        Act::Tick => tick(rt, kernel, out, steps),
    }
    kernel.know_kernel();
    assert!(rt; kernel.running(CORE) == stage.running);
    assert_eq!(rt; kernel.moment(), stage.moment);
    assert_eq!(rt; kernel.numbers(), stage.numbers);
    assert_eq!(rt; out.len(), stage.lines);
}

// Ends the thread that the core runs.
fn end_running<L: Ledger>(
    rt: &impl Abort,
    kernel: &mut Kernel,
    out: &mut Lines,
    steps: &mut Steps<L>,
) {
    kernel.know_kernel();
    let Some(thread) = kernel.running(CORE) else {
        assert!(rt; false, "nobody runs");
        return;
    };
    out.clear();
    assert!(rt; out.spare() >= 1);
    kernel.close(thread, out, steps);
    assert_eq!(rt; out.len(), 1);
}

// Whether the table of threads shows this at a place.
fn shows(kernel: &Kernel, place: usize, name: &[u8], state: ThreadState, left: u8) -> bool {
    if place >= kernel.count(Class::Thread) {
        return false;
    }
    match kernel.row(Class::Thread, place) {
        Row::Thread {
            name: its,
            cur,
            base,
            state: now,
            core,
            left: ticks,
            code,
        } => {
            its.bytes() == name
                && cur == base
                && now == state
                && core.is_none()
                && ticks == left
                && code == Code::Ok
        }
        _ => false,
    }
}

// Whether the table of semaphores shows this at a place.
fn shows_sem(kernel: &Kernel, place: usize, name: &[u8], value: u16, waiters: u16) -> bool {
    if place >= kernel.count(Class::Sem) {
        return false;
    }
    match kernel.row(Class::Sem, place) {
        Row::Sem {
            name: its,
            value: now,
            waiters: there,
        } => its.bytes() == name && now == value && there == waiters,
        _ => false,
    }
}

// Whether the table of event objects shows this at a place.
fn shows_event(kernel: &Kernel, place: usize, name: &[u8], flags: u32, waiters: u16) -> bool {
    if place >= kernel.count(Class::Event) {
        return false;
    }
    match kernel.row(Class::Event, place) {
        Row::Event {
            name: its,
            flags: now,
            waiters: there,
        } => its.bytes() == name && now == flags && there == waiters,
        _ => false,
    }
}

// A kernel of the text's board, before its first step.
fn opened(rt: &impl Abort, alloc: Global, text: &[u8]) -> Result<Kernel, Fail> {
    let board = parse(alloc, text).ok().ok_or("board")?;
    assert!(rt; is_built(&board));
    Ok(Kernel::open(alloc, board)?)
}

fn look_at_opening(rt: &impl Abort, kernel: &Kernel) {
    assert!(rt; kernel.nothing_armed() && !kernel.all_idle());
    assert_eq!(rt; kernel.tick(), 4_294_967_295);
    assert!(rt; kernel.run_mode() == RunMode::Normal && kernel.mode() == Sleep::Light);
    assert_eq!(rt; kernel.votes(Sleep::Deep), 0);
    assert_eq!(rt; kernel.board().threads.len(), 3);
}

fn perform_all<L: Ledger>(
    rt: &impl Abort,
    kernel: &mut Kernel,
    stages: &[Stage],
    out: &mut Lines,
    steps: &mut Steps<L>,
) {
    for stage in stages {
        perform(rt, kernel, *stage, out, steps);
    }
}

fn run_threads<L: Ledger>(
    rt: &impl Abort,
    kernel: &mut Kernel,
    out: &mut Lines,
    steps: &mut Steps<L>,
) {
    look_at_opening(rt, kernel);
    perform_all(rt, kernel, &begin_stages(), out, steps);
    assert_eq!(rt; kernel.tick(), 0);
    assert!(rt; shows(kernel, 0, b"c", ThreadState::Running, 1));
    assert!(rt; shows(kernel, 1, b"b", ThreadState::Initial, 1));
    assert!(rt; shows(kernel, 2, b"a", ThreadState::Ready, 3));
    perform_all(rt, kernel, &end_stages(), out, steps);
    assert_eq!(rt; kernel.count(Class::Thread), 2);
    end_running(rt, kernel, out, steps);
    assert_eq!(rt; kernel.count(Class::Thread), 1);
}

fn use_objects<L: Ledger>(
    rt: &impl Abort,
    kernel: &mut Kernel,
    out: &mut Lines,
    steps: &mut Steps<L>,
) {
    assert!(rt; step(rt, kernel, out, steps).is_none());
    assert!(rt; step(rt, kernel, out, steps) == Some(Answer::Code(Code::Ok)));
    assert!(rt; step(rt, kernel, out, steps) == Some(Answer::Waits));
    assert!(rt; shows_sem(kernel, 0, b"t", 0, 1));
    assert!(rt; shows_sem(kernel, 1, b"s", 3, 0));
    assert!(rt; shows_event(kernel, 0, b"e", 6, 0));
}

// What is done with a kernel.
#[derive(Clone, Copy)]
enum Use {
    Threads,
    Objects,
}

// Opens a kernel and uses it. It is the one function that lets a kernel go, since that is long to prove.
fn use_kernel<L: Ledger>(
    rt: &impl Abort,
    alloc: Global,
    text: &[u8],
    kind: Use,
    blank: Blank,
) -> Result<(), Fail>
    requires name { blank.name ≡ L.name }
    requires parts { blank.parts ≡ L.parts }
    requires one { L.parts ≡ 1 }
{
    let mut steps: Steps<L> = Steps::new(blank);
    let mut out = Lines::new(alloc, 8)?;
    let mut kernel = opened(rt, alloc, text)?;
    match kind {
        Use::Threads => run_threads(rt, &mut kernel, &mut out, &mut steps),
        Use::Objects => use_objects(rt, &mut kernel, &mut out, &mut steps),
    }
    Ok(())
}

#[test]
fn a_kernel_runs_its_threads(rt: HostRuntime) -> Result<(), Fail> {
    use_kernel::<Brand>(&rt, rt.alloc(), BOARD, Use::Threads, Blank::new(1))
}

#[test]
fn a_kernel_shows_its_objects(rt: HostRuntime) -> Result<(), Fail> {
    use_kernel::<Brand>(&rt, rt.alloc(), OBJECTS, Use::Objects, Blank::new(1))
}
