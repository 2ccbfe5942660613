ghost use Rattle.std.specs.Prelude.{◌≡◌, ◌≤◌, [], IfOk, length, map, true, vec_capacity};
ghost use Rattle.std.specs.List.{AllByRecursion};
ghost use Rattle.object_box.specs.Objects.{has_number};
ghost use Rattle.mutex_tie.specs.Tie.{name_at};
ghost use Rattle.mutex_tables.specs.Passed.{named_pass};

use mutex_chain::Passes;
use object_box::Objects;
use rt_base::{Class, Name, ObjNo, ThreadNo};
use std::alloc::{AllocError, Global};
use std::marker::Model;

/// A mutex, and the thread that it passed to.
#[derive(Drop)]
pub struct Passed {
    pub mutex: Name,
    pub thread: ThreadNo,
}

/// The mutexes that an ending thread gave to a waiter, in the order in which it gave them back, each with the thread that
/// got it. Contracts see them, and for how many threads there is room.
#[derive(Drop)]
pub struct PassedMutexes {
    pub(crate) passes: Passes,
    pub(crate) named: Vec<Passed>,
}

impl Model for PassedMutexes {
    ghost use Rattle.std.specs.Prelude.{◌≤◌, vec_capacity};
    ghost use Rattle.mutex_tables.specs.Passed.{PassedList};

    ghost Value = { PassedList };

    ghost view = { λ p. record { threads = p.passes.threads; passed = p.named.items } };

    ghost invariant = { λ p. p.passes.threads ≤ vec_capacity p.named };
}

impl PassedMutexes {
    /// No mutex, with room for a number of threads. No other call takes memory.
    pub fn new(alloc: Global, threads: u16) -> Result<PassedMutexes, AllocError>
        ensures { IfOk result (λ p. p ≡ record { threads = threads; passed = [] }) }
    {
        let passes = Passes::new(alloc, threads)?;
        let named = Vec::with_capacity(alloc, threads as usize)?;
        Ok(PassedMutexes { passes, named })
    }

    /// The mutexes that passed, each with the thread that got it.
    pub fn as_slice(&self) -> &[Passed]
        ensures { result.now ≡ self.now.passed }
    {
        self.named.as_slice()
    }
}

// The name of the mutex of a number, which is there.
pub fn name_of(names: &Objects, no: ObjNo) -> Name
    requires { has_number names.now.mutex.objects no ≡ true }
    ensures { result ≡ name_at names.now.mutex.objects no }
{
    for place in 0..names.count(Class::Mutex) {
        let (other, name) = names.at(Class::Mutex, place);
        if other.0 == no.0 {
            return name;
        }
    }
    unreachable!()
}

// These passes, with the names of the mutexes.
pub fn name_all(names: &Objects, passes: &[(ObjNo, ThreadNo)], named: &mut Vec<Passed>)
    requires there { AllByRecursion (λ p. has_number names.now.mutex.objects p.0 ≡ true) passes.now }
    requires room { length passes.now ≤ vec_capacity named.old }
    ensures named { named.new.items ≡ map (named_pass names.now.mutex.objects) passes.now }
    ensures room { vec_capacity named.new ≡ vec_capacity named.old }
{
    named.clear();
    for i in 0..passes.len() {
        let (no, thread) = passes[i];
        named.push_reserved(Passed {
            mutex: name_of(names, no),
            thread,
        });
    }
}
