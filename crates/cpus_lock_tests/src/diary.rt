ghost use Rattle.std.specs.Prelude.{◌≡◌, [], map, IfSome};
ghost use Rattle.rt_base.specs.declared.codes.Event.TheVariants.{Step};
ghost use Rattle.cpus_lock.specs.Depths.{holder_of};
ghost use Rattle.cpus_lock.specs.Passes.{GrowsBy, IsNestBelow};

use cpus_lock::{CpusLock, Enter, Nest, Nested, Pass};
use rt_base::{CoreNo, List};
use std::alloc::Global;

/// A mark that a core made, numbered from 0 on for each core.
#[derive(Clone, Copy, PartialEq, Eq, Debug)]
pub struct Mark {
    pub core: CoreNo,
    pub number: u32,
}

/// The value that is locked: a nest, and the marks of all cores.
#[derive(Drop)]
pub struct Diary {
    pub nest: Nest,
    pub marks: List<Mark>,
}

impl Nested for Diary {
    ghost nest = { λ d. holder_of d.nest };

    ghost root = { λ d. [] };

    ghost log = { λ d. map (λ mark. Step mark.core) d.marks };

    fn nest(&self) -> Option<(CoreNo, u8)> {
        self.nest.holder()
    }
}

impl Diary {
    /// One mark more. False is want of memory.
    pub fn mark(&mut self, core: CoreNo, number: u32) -> bool
        ensures log { GrowsBy core (map (λ mark. Step mark.core) self.old.marks) (map (λ mark. Step mark.core) self.new.marks) }
        ensures nest { self.new.nest ≡ self.old.nest }
    {
        self.marks.push(Mark { core, number }).is_ok()
    }

    /// How many marks are a core's. None where they aren't numbered in order.
    pub fn marks_of(&self, core: CoreNo) -> Option<u32> {
        let mut next = 0u32;
        for mark in self.marks.as_slice() {
            if mark.core == core {
                if mark.number != next {
                    return None;
                }
                next = next.saturating_add(1);
            }
        }
        Some(next)
    }
}

/// A core's pass, and how many marks it has made.
#[derive(Drop)]
pub struct Worker {
    pub pass: Pass,
    pub marks: u32,
}

/// A lock for two cores, and their passes.
pub fn lock_of_two(alloc: Global, value: Diary) -> Option<(CpusLock<Diary>, Pass, Pass)>
    requires nest { IsNestBelow 2 (holder_of value.nest) }
    requires marks { value.marks ≡ [] }
    ensures cores { IfSome result (λ made. made.0.cores ≡ 2) }
    ensures first { IfSome result (λ made. (made.1.lock ≡ made.0) × (made.1.known.core ≡ 0)) }
    ensures second { IfSome result (λ made. (made.2.lock ≡ made.0) × (made.2.known.core ≡ 1)) }
{
    let Ok((lock, passes)) = CpusLock::new(alloc, value, 2) else {
        return None;
    };
    let mut passes = passes;
    let second = passes.pop()?;
    let first = passes.pop()?;
    Some((lock, first, second))
}

/// The value back from both passes. None is want of memory.
pub fn value_back(alloc: Global, lock: CpusLock<Diary>, first: Pass, second: Pass) -> Option<Diary>
    requires cores { lock.cores ≡ 2 }
    requires first { (first.lock ≡ lock) × (first.known.core ≡ 0) }
    requires second { (second.lock ≡ lock) × (second.known.core ≡ 1) }
{
    let mut passes = List::new(alloc);
    passes.push(first).ok()?;
    passes.push(second).ok()?;
    Some(lock.into_inner(passes))
}

// One try, and one mark more where the lock is held and no other core holds the nest.
fn turn(lock: &CpusLock<Diary>, worker: Worker) -> Worker
    requires { worker.pass.lock ≡ lock.now }
    ensures { (result.pass.lock ≡ lock.now) × (result.pass.known.core ≡ worker.pass.known.core) }
{
    let Worker { pass, marks } = worker;
    let core = pass.core();
    match lock.try_enter(pass) {
        Enter::Busy(pass, _) => Worker { pass, marks },
        Enter::Nested(held) => Worker {
            pass: held.leave(),
            marks,
        },
        Enter::Held(mut held) => {
            let is_marked = held.value().mark(core, marks);
            Worker {
                pass: held.leave(),
                marks: marks.saturating_add(is_marked as u32),
            }
        }
    }
}

/// A hundred tries.
pub fn hundred_turns(lock: &CpusLock<Diary>, worker: Worker) -> Worker
    requires { worker.pass.lock ≡ lock.now }
    ensures { (result.pass.lock ≡ lock.now) × (result.pass.known.core ≡ worker.pass.known.core) }
{
    let mut worker = worker;
    for _ in 0..100u32 {
        worker = turn(lock, worker);
    }
    worker
}
