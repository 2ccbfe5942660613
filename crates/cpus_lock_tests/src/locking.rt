ghost use Rattle.std.specs.Prelude.{◌≡◌};

use crate::diary::{Diary, Worker, hundred_turns, lock_of_two, value_back};
use cpus_lock::{CpusLock, Enter, Nest, Nested, Pass};
use rt_base::{Code, CoreNo, List};
use std::snapshot::Snapshot;
use std::sync::Wait;
use std::thread;
use std::thread::{Promise, Threads};

// How a try was answered, with the nest of the value that was held.
#[derive(Clone, Copy, PartialEq, Eq, Debug)]
enum Answer {
    Busy(CoreNo),
    Nested(Option<(CoreNo, u8)>),
    Held(Option<(CoreNo, u8)>),
}

// One try, and the pass after the hold if there was one.
fn visit(lock: &CpusLock<Diary>, pass: Pass) -> (Answer, Pass)
    requires { pass.lock ≡ lock.now }
    ensures { result.1.lock ≡ lock.now }
{
    match lock.try_enter(pass) {
        Enter::Busy(pass, core) => (Answer::Busy(core), pass),
        Enter::Nested(mut held) => (Answer::Nested(held.value().nest()), held.leave()),
        Enter::Held(mut held) => (Answer::Held(held.value().nest()), held.leave()),
    }
}

#[test]
fn a_nest_keeps_other_cores_from_stepping(rt: HostRuntime) {
    let mut nest = Nest::new();
    assert_eq!(rt; nest.enter(CoreNo(0)), Code::Ok);
    assert_eq!(rt; nest.enter(CoreNo(0)), Code::Ok);
    let diary = Diary {
        nest,
        marks: List::new(rt.alloc()),
    };
    let Some((lock, first, second)) = lock_of_two(rt.alloc(), diary) else {
        panic!(rt; "there is memory");
    };
    let (answer, second) = visit(&lock, second);
    assert_eq!(rt; answer, Answer::Nested(Some((CoreNo(0), 2))));
    match lock.try_enter(first) {
        Enter::Held(held) => {
            let (answer, _) = visit(&lock, second);
            assert_eq!(rt; answer, Answer::Busy(CoreNo(0)));
            let (answer, _) = visit(&lock, held.leave());
            assert_eq!(rt; answer, Answer::Held(Some((CoreNo(0), 2))));
        }
        Enter::Nested(held) => {
            held.leave();
            panic!(rt; "the nest is core 0's own");
        }
        Enter::Busy(_, _) => panic!(rt; "nobody holds the lock"),
    }
}

// The promise of a thread that its worker keeps its pass.
#[derive(Drop)]
struct KeepsPass(Snapshot<Worker>);

impl Promise<Worker> for KeepsPass {
    ghost kept_by = { λ p r. (r.pass.lock ≡ p.0.value.pass.lock) × (r.pass.known.core ≡ p.0.value.pass.known.core) };
}

// A hundred tries of each worker, each in a thread of its own.
fn work_in_threads<R: Threads + Wait>(
    rt: &R,
    lock: &CpusLock<Diary>,
    first: Worker,
    second: Worker,
) -> (Worker, Worker)
    requires first { first.pass.lock ≡ lock.now }
    requires second { second.pass.lock ≡ lock.now }
    ensures first { (result.0.pass.lock ≡ lock.now) × (result.0.pass.known.core ≡ first.pass.known.core) }
    ensures second { (result.1.pass.lock ≡ lock.now) × (result.1.pass.known.core ≡ second.pass.known.core) }
{
    thread::scope(
        thread::scope_env(),
        rt,
        move |scope| -> (Worker, Worker)
            requires { (first.pass.lock ≡ lock.now) × (second.pass.lock ≡ lock.now) }
            ensures first { (result.0.pass.lock ≡ lock.entry.now) × (result.0.pass.known.core ≡ first.pass.known.core) }
            ensures second { (result.1.pass.lock ≡ lock.entry.now) × (result.1.pass.known.core ≡ second.pass.known.core) }
        {
            let one = scope.spawn_with(KeepsPass(Snapshot::of(&first)), move || {
                hundred_turns(lock, first)
            });
            let other = scope.spawn_with(KeepsPass(Snapshot::of(&second)), move || {
                hundred_turns(lock, second)
            });
            let first = match one {
                Ok(child) => child.join(rt),
                Err(refused) => (refused.value)(),
            };
            let second = match other {
                Ok(child) => child.join(rt),
                Err(refused) => (refused.value)(),
            };
            (first, second)
        },
    )
}

#[test]
fn two_threads_share_a_value(rt: HostRuntime) {
    let diary = Diary {
        nest: Nest::new(),
        marks: List::new(rt.alloc()),
    };
    let Some((lock, first, second)) = lock_of_two(rt.alloc(), diary) else {
        panic!(rt; "there is memory");
    };
    let first = Worker {
        pass: first,
        marks: 0,
    };
    let second = Worker {
        pass: second,
        marks: 0,
    };
    let (first, second) = work_in_threads(&rt, &lock, first, second);
    let Some(diary) = value_back(rt.alloc(), lock, first.pass, second.pass) else {
        panic!(rt; "there is memory");
    };
    assert_eq!(rt; diary.marks_of(CoreNo(0)), Some(first.marks));
    assert_eq!(rt; diary.marks_of(CoreNo(1)), Some(second.marks));
    assert!(rt; diary.marks.len() > 0);
}
