ghost use Rattle.std.specs.Prelude.{◌≡◌, ◌<◌, IfOk, None, Some, is_some, length, slice_index_or, if◌then◌else◌};
ghost use Rattle.std.specs.List.{list_any};
ghost use Rattle.rt_plain.specs.kernel.State.{is_number, is_nest_of, is_nest_of_other};
ghost use Rattle.kernel_cores.specs.PlainCores.{idle_cores, with_thread_on, without_thread};
ghost use Rattle.kernel_cores.specs.Nests.{entered, entry_code, left_by, freed_by};

use cpus_lock::Nest;
use rt_base::{Code, CoreNo, ThreadNo};
use std::alloc::{AllocError, Global};
use std::marker::Model;

/// Which thread each core runs, and the lock over all cores. Contracts see the list of the threads, with a place for
/// each core, and the lock. All memory is taken when it is made.
#[derive(Drop)]
pub struct Cores {
    running: Vec<Option<ThreadNo>>,
    nest: Nest,
}

impl Model for Cores {
    ghost use Rattle.kernel_cores.specs.PlainCores.{PlainCores};

    ghost Value = { PlainCores };

    ghost view = { λ k. record { running = k.running.items; nest = k.nest } };
}

// Whether a core runs this thread.
fn is_thread(t: ThreadNo, r: Option<ThreadNo>) -> bool
    ensures { result ≡ is_number t r }
{
    match r {
        Some(u) => t.0 == u.0,
        None => false,
    }
}

// Whether a core runs a thread.
fn runs_one(r: Option<ThreadNo>) -> bool
    ensures { result ≡ is_some r }
{
    r.is_some()
}

// What a core runs without this thread.
fn without(t: ThreadNo, r: Option<ThreadNo>) -> Option<ThreadNo>
    ensures { result ≡ (if is_number t r then None else r) }
{
    match r {
        Some(u) if t.0 != u.0 => Some(u),
        _ => None,
    }
}

impl Cores {
    /// So many cores, which run nobody, and the lock is free. The one refusal is want of memory.
    pub fn new(alloc: Global, count: u8) -> Result<Cores, AllocError>
        ensures { IfOk result (λ k. k ≡ idle_cores count) }
    {
        let running = vec![in alloc; None; count as usize]?;
        Ok(Cores {
            running,
            nest: Nest::new(),
        })
    }

    /// The thread that a core runs, none where it runs nobody.
    pub fn running(&self, core: CoreNo) -> Option<ThreadNo>
        requires { core < length self.now.running }
        ensures { result ≡ slice_index_or self.now.running core None }
    {
        self.running[core.0 as usize]
    }

    /// Whether some core runs a thread.
    pub fn is_busy(&self) -> bool
        ensures { result ≡ list_any is_some self.now.running }
    {
        self.running.iter().any(|r| runs_one(*r))
    }

    /// Whether some core runs this thread.
    pub fn is_running(&self, t: ThreadNo) -> bool
        ensures { result ≡ list_any (is_number t) self.now.running }
    {
        self.running.iter().any(|r| is_thread(t, *r))
    }

    /// The core runs a thread from now on, in place of the one that it ran.
    pub fn run(&mut self, core: CoreNo, t: ThreadNo)
        requires { core < length self.old.running }
        ensures { self.new ≡ with_thread_on self.old core t }
    {
        self.running[core.0 as usize] = Some(t);
    }

    /// A thread leaves its core, if one runs it. The lock over all cores stays as it is.
    pub fn leave(&mut self, t: ThreadNo)
        ensures { self.new ≡ record self.old { running = without_thread t self.old.running } }
    {
        for r in self.running.iter_mut() {
            *r = without(t, *r);
        }
    }

    /// The thread ends: it leaves its core, and this core gives up the lock over all cores, however deep. The rule is
    /// this project's own.
    pub fn end(&mut self, t: ThreadNo)
        ensures { self.new ≡ record { running = without_thread t self.old.running; nest = freed_by self.old.running t self.old.nest } }
    {
        if let Some((holder, _)) = self.nest.holder() {
            if (holder.0 as usize) < self.running.len() && is_thread(t, self.running(holder)) {
                self.nest.drop_all(holder);
            }
        }
        self.leave(t);
    }

    /// The core that holds the lock over all cores holds it one deeper; where none does, this core holds it, as by
    /// RT-Thread's `rt_cpus_lock`. The answer is `Full` exactly where it is 255 deep, which then stays, and else `Ok`;
    /// that end is this project's own.
    pub fn enter(&mut self, core: CoreNo) -> Code
        ensures code { result ≡ entry_code self.old.nest }
        ensures cores { self.new ≡ record self.old { nest = entered core self.old.nest } }
    {
        let holder = match self.nest.holder() {
            Some((holder, _)) => holder,
            None => core,
        };
        self.nest.enter(holder)
    }

    /// The core holds the lock one less deep, and it is free at 0, as by RT-Thread's `rt_cpus_unlock`. The answer is
    /// `Error` exactly where this core doesn't hold it, and else `Ok`.
    pub fn exit(&mut self, core: CoreNo) -> Code
        ensures code { result ≡ (if is_nest_of core self.old.nest then Code.Ok else Code.Error) }
        ensures cores { self.new ≡ record self.old { nest = left_by core self.old.nest } }
    {
        self.nest.leave(core)
    }

    /// Whether a core holds the lock over all cores.
    pub fn is_held(&self) -> bool
        ensures { result ≡ is_some self.now.nest }
    {
        self.nest.holder().is_some()
    }

    /// Whether this core holds the lock over all cores.
    pub fn holds(&self, core: CoreNo) -> bool
        ensures { result ≡ is_nest_of core self.now.nest }
    {
        match self.nest.holder() {
            Some((holder, _)) => holder.0 == core.0,
            None => false,
        }
    }

    /// Whether another core than this one holds the lock over all cores.
    pub fn is_held_by_other(&self, core: CoreNo) -> bool
        ensures { result ≡ is_nest_of_other core self.now.nest }
    {
        match self.nest.holder() {
            Some((holder, _)) => holder.0 != core.0,
            None => false,
        }
    }
}
