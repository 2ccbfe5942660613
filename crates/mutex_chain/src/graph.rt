ghost use Rattle.std.specs.Prelude.{◌≡◌, ◌≢◌, ◌+◌, ◌*◌, ◌<◌, ◌≤◌, [], ◌∷◌, All, None, Some, false, length, map, replicate, slice_set, IfOk, IfSome, IsTrue};
ghost use Rattle.std.specs.Option.{option_map};
ghost use Rattle.rt_plain.specs.kernel.Ownership.{awaited_in, base_edit, base_of, ceiling_edit, changes, cur_in, first_in, kill_mutex_edit, kill_thread_edit, leave_edit, member_at, owner_in, passes_of, release_edit, take_edit, taken_of, wait_edit, waiters_in, with_member};
ghost use Rattle.rt_plain.specs.kernel.Weight.{ceiling_touches, edit_size, end_touches, mutex_end_touches, release_touches};
ghost use Rattle.mutex_chain.specs.Graph.{IsOther, is_last, took_of, released_of, hold_of, pair_of};
ghost use Rattle.mutex_chain.specs.Equations.{IsOnce};
ghost use Rattle.mutex_chain.specs.Owners.{AreOwned, has_thread, has_mutex, ceiling_at};

use crate::answers::{Released, Took};
use crate::changes::{Changes, number};
use crate::curs::renew;
use crate::ends::{end_thread, end_wait, hand_on, leave_all, list_waiters};
use crate::owners::Owners;
use crate::passes::Passes;
use crate::raising::{carry_uncounted, strengthen};
use crate::rows::{MemberRow, WaitRow};
use crate::stored::Stored;
use crate::woken::Woken;
use rt_base::{ObjNo, Prio, Steps, ThreadNo};
use std::alloc::{AllocError, Global};
use std::marker::Model;
use std::sync::ledger::Ledger;

/// The threads and the mutexes: who owns which mutex and how often it was taken, who waits on which,
/// and so how urgent each thread is now. As RT-Thread's priority inheritance has it, a thread is as
/// urgent as the most urgent among itself, the mutexes that it owns by their ceilings, and all threads
/// that wait for it, directly or through others; threads that wait for each other in a circle included.
///
/// Contracts see the threads with their bases and waits, the ceilings of the mutexes, and who owns
/// what, the last got first. A thread or a mutex is there from `add_thread` or `add_mutex` until
/// `kill_thread` or `kill_mutex`. Each edit lists the threads that were there before and are there
/// after it and whose current priority it changed, in thread order, with both numbers; what the list
/// held before is dropped. It has to have been made for at least as many threads as the graph.
///
/// Only `new` takes memory. Each edit raises `steps` by at most 8 times the size of the edit: the weights
/// of the chains of the threads that it touches, before and after it, and 1.
#[derive(Drop)]
pub struct MutexGraph {
    owners: Owners,
    curs: Stored,
}

impl Model for MutexGraph {
    ghost use Rattle.rt_plain.specs.kernel.Ownership.{Ownership};
    ghost use Rattle.mutex_chain.specs.Walks.{IsCurrent};

    ghost Value = { Ownership };

    ghost view = { λ g. g.owners };

    ghost invariant = { λ g. IsCurrent g.owners g.curs.numbers.items g.curs.lines.items };
}

impl MutexGraph {
    /// No thread and no mutex, with room for the numbers below two. Fails where there is no memory.
    pub fn new(alloc: Global, threads: u16, mutexes: u16) -> Result<MutexGraph, AllocError>
        ensures { IfOk result (λ g. g ≡ record { members = replicate threads None; ceilings = replicate mutexes None; taken = [] }) }
    {
        let owners = Owners::new(alloc, threads, mutexes)?;
        let curs = Stored::new(alloc, threads, mutexes)?;
        owners.know_sound();
        Ok(MutexGraph { owners, curs })
    }

    /// A thread that isn't there comes, with its base. It waits on no mutex.
    pub fn add_thread(&mut self, thread: ThreadNo, base: Prio)
        requires below { thread < length self.old.members }
        requires absent { has_thread self.old thread ≡ false }
        ensures { self.new ≡ with_member self.old thread (Some (record { base = base; wait = None })) }
    {
        let row = MemberRow { base, wait: None };
        self.owners.set_member(thread, Some(row));
        self.owners.know_sound();
        carry_uncounted(&self.owners, &mut self.curs, Some(thread), base.0 as u16);
    }

    /// A mutex that isn't there comes, with its ceiling. Nobody owns it.
    pub fn add_mutex(&mut self, mutex: ObjNo, ceiling: Prio)
        requires below { mutex < length self.old.ceilings }
        requires absent { has_mutex self.old mutex ≡ false }
        ensures { self.new ≡ ceiling_edit mutex ceiling self.old }
    {
        self.owners.set_ceiling(mutex, Some(ceiling));
        self.owners.know_sound();
        let owner = self.owners.holder(mutex);
        carry_uncounted(&self.owners, &mut self.curs, owner, ceiling.0 as u16);
    }

    /// Gives a thread another base.
    pub fn set_base<L: Ledger>(
        &mut self,
        thread: ThreadNo,
        base: Prio,
        out: &mut Changes,
        steps: &mut Steps<L>,
    )
        requires there { IsTrue (has_thread self.old thread) }
        requires room { length self.old.members ≤ out.old.threads }
        ensures graph { self.new ≡ base_edit thread base self.old }
        ensures threads { length self.new.members ≡ length self.old.members }
        ensures mutexes { length self.new.ceilings ≡ length self.old.ceilings }
        ensures changes { out.new ≡ record out.old { changes = changes self.old self.new } }
        ensures cost { steps.new ≤ steps.old + 8 * edit_size self.old self.new (thread ∷ []) }
    {
        steps.tick();
        let old = self.owners.base_of(thread);
        let number = base.0 as u16;
        self.owners.set_base(thread, base);
        self.owners.know_sound();
        if number > old {
            renew(&self.owners, &mut self.curs, Some(thread), out, steps);
            return;
        }
        strengthen(
            &self.owners,
            &mut self.curs,
            Some(thread),
            number,
            out,
            steps,
        );
    }

    /// Gives a mutex another ceiling. The answer is the old one.
    pub fn set_ceiling<L: Ledger>(
        &mut self,
        mutex: ObjNo,
        ceiling: Prio,
        out: &mut Changes,
        steps: &mut Steps<L>,
    ) -> Prio
        requires there { IsTrue (has_mutex self.old mutex) }
        requires room { length self.old.members ≤ out.old.threads }
        ensures answer { Some result ≡ ceiling_at self.old mutex }
        ensures graph { self.new ≡ ceiling_edit mutex ceiling self.old }
        ensures threads { length self.new.members ≡ length self.old.members }
        ensures mutexes { length self.new.ceilings ≡ length self.old.ceilings }
        ensures changes { out.new ≡ record out.old { changes = changes self.old self.new } }
        ensures cost { steps.new ≤ steps.old + 8 * edit_size self.old self.new (ceiling_touches self.old mutex) }
    {
        steps.tick();
        let old = self.ceiling(mutex);
        self.owners.set_ceiling(mutex, Some(ceiling));
        self.owners.know_sound();
        steps.tick();
        let owner = self.owners.holder(mutex);
        if ceiling.0 > old.0 {
            renew(&self.owners, &mut self.curs, owner, out, steps);
            return old;
        }
        strengthen(
            &self.owners,
            &mut self.curs,
            owner,
            ceiling.0 as u16,
            out,
            steps,
        );
        old
    }

    /// A thread that waits on no mutex takes a mutex: it gets one that nobody owns, and takes its own
    /// once more, up to 255 times.
    pub fn take<L: Ledger>(
        &mut self,
        thread: ThreadNo,
        mutex: ObjNo,
        out: &mut Changes,
        steps: &mut Steps<L>,
    ) -> Took
        requires thread { IsTrue (has_thread self.old thread) }
        requires mutex { IsTrue (has_mutex self.old mutex) }
        requires idle { awaited_in self.old thread ≡ None }
        requires room { length self.old.members ≤ out.old.threads }
        ensures answer { result ≡ took_of thread (taken_of self.old mutex) }
        ensures graph { self.new ≡ take_edit thread mutex self.old }
        ensures threads { length self.new.members ≡ length self.old.members }
        ensures mutexes { length self.new.ceilings ≡ length self.old.ceilings }
        ensures changes { out.new ≡ record out.old { changes = changes self.old self.new } }
        ensures cost { steps.new ≤ steps.old + 8 * edit_size self.old self.new (thread ∷ []) }
    {
        steps.tick();
        let number = self.ceiling(mutex).0 as u16;
        steps.tick();
        let is_free = self.owners.holder(mutex).is_none();
        steps.tick();
        let took = self.owners.take(thread, mutex);
        self.owners.know_sound();
        let from = is_free.then_some(thread);
        strengthen(&self.owners, &mut self.curs, from, number, out, steps);
        took
    }

    /// A thread that waits on no mutex waits on one that another thread owns, with an arrival number.
    pub fn wait<L: Ledger>(
        &mut self,
        thread: ThreadNo,
        mutex: ObjNo,
        at: u64,
        out: &mut Changes,
        steps: &mut Steps<L>,
    )
        requires thread { IsTrue (has_thread self.old thread) }
        requires mutex { IsTrue (has_mutex self.old mutex) }
        requires idle { awaited_in self.old thread ≡ None }
        requires owned { IsOther thread (owner_in self.old mutex) }
        requires room { length self.old.members ≤ out.old.threads }
        ensures graph { self.new ≡ wait_edit thread mutex at self.old }
        ensures threads { length self.new.members ≡ length self.old.members }
        ensures mutexes { length self.new.ceilings ≡ length self.old.ceilings }
        ensures changes { out.new ≡ record out.old { changes = changes self.old self.new } }
        ensures cost { steps.new ≤ steps.old + 8 * edit_size self.old self.new (thread ∷ []) }
    {
        steps.tick();
        let number = self.curs.numbers[thread.0 as usize];
        steps.tick();
        self.curs.join(&self.owners, thread, mutex, at);
        self.owners.set_wait(thread, Some(WaitRow { mutex, at }));
        self.owners.know_sound();
        steps.tick();
        let owner = self.owners.holder(mutex);
        strengthen(&self.owners, &mut self.curs, owner, number, out, steps);
    }

    /// A thread that waits on a mutex waits no more.
    pub fn leave<L: Ledger>(&mut self, thread: ThreadNo, out: &mut Changes, steps: &mut Steps<L>)
        requires thread { IsTrue (has_thread self.old thread) }
        requires waits { awaited_in self.old thread ≢ None }
        requires room { length self.old.members ≤ out.old.threads }
        ensures graph { self.new ≡ leave_edit thread self.old }
        ensures threads { length self.new.members ≡ length self.old.members }
        ensures mutexes { length self.new.ceilings ≡ length self.old.ceilings }
        ensures changes { out.new ≡ record out.old { changes = changes self.old self.new } }
        ensures cost { steps.new ≤ steps.old + 8 * edit_size self.old self.new (thread ∷ []) }
    {
        steps.tick();
        let owner = end_wait(&mut self.owners, &mut self.curs, thread, steps);
        renew(&self.owners, &mut self.curs, owner, out, steps);
    }

    /// A thread releases a mutex: its owner holds it once less, and at the last time it passes to the
    /// first waiter, who has then got it once, or nobody owns it.
    pub fn release<L: Ledger>(
        &mut self,
        thread: ThreadNo,
        mutex: ObjNo,
        out: &mut Changes,
        steps: &mut Steps<L>,
    ) -> Released
        requires thread { IsTrue (has_thread self.old thread) }
        requires mutex { IsTrue (has_mutex self.old mutex) }
        requires room { length self.old.members ≤ out.old.threads }
        ensures answer { result ≡ released_of thread (taken_of self.old mutex) (first_in self.old mutex) }
        ensures graph { self.new ≡ release_edit thread mutex self.old }
        ensures threads { length self.new.members ≡ length self.old.members }
        ensures mutexes { length self.new.ceilings ≡ length self.old.ceilings }
        ensures changes { out.new ≡ record out.old { changes = changes self.old self.new } }
        ensures cost { steps.new ≤ steps.old + 8 * edit_size self.old self.new (release_touches self.old thread mutex) }
    {
        steps.tick();
        if !self.owners.is_last_hold(thread, mutex) {
            steps.tick();
            let released = self.owners.release(thread, mutex);
            self.owners.know_sound();
            strengthen(&self.owners, &mut self.curs, None, 0, out, steps);
            return released;
        }
        out.clear();
        // The call on the wait list.
        steps.tick();
        let first = self.curs.first(&self.owners, mutex);
        hand_on(
            &mut self.owners,
            &mut self.curs,
            thread,
            mutex,
            &first,
            out,
            steps,
        );
        out.settle(&self.owners, &self.curs.numbers);
        match first {
            None => Released::Free,
            Some(waiter) => Released::Passed(waiter),
        }
    }

    /// A mutex ends. All its waiters wait no more: they are woken in the order in which they stood.
    pub fn kill_mutex<L: Ledger>(
        &mut self,
        mutex: ObjNo,
        woken: &mut Woken,
        out: &mut Changes,
        steps: &mut Steps<L>,
    )
        requires there { IsTrue (has_mutex self.old mutex) }
        requires woken { length self.old.members ≤ woken.old.threads }
        requires room { length self.old.members ≤ out.old.threads }
        ensures woken { woken.new ≡ record woken.old { woken = waiters_in self.old mutex } }
        ensures graph { self.new ≡ kill_mutex_edit mutex self.old }
        ensures threads { length self.new.members ≡ length self.old.members }
        ensures mutexes { length self.new.ceilings ≡ length self.old.ceilings }
        ensures changes { out.new ≡ record out.old { changes = changes self.old self.new } }
        ensures cost { steps.new ≤ steps.old + 8 * edit_size self.old self.new (mutex_end_touches self.old mutex) }
    {
        steps.tick();
        list_waiters(&self.owners, &self.curs, mutex, woken, steps);
        let owner = self.owners.holder(mutex);
        self.owners.free(mutex);
        leave_all(&mut self.owners, &mut self.curs, woken.as_slice(), steps);
        self.owners.set_ceiling(mutex, None);
        self.owners.know_sound();
        renew(&self.owners, &mut self.curs, owner, out, steps);
    }

    /// A thread ends: it leaves its wait, and then gives back its mutexes, the last got first, each to
    /// its first waiter or to nobody. Who is the first waiter is judged as the one before left it.
    pub fn kill_thread<L: Ledger>(
        &mut self,
        thread: ThreadNo,
        passes: &mut Passes,
        out: &mut Changes,
        steps: &mut Steps<L>,
    )
        requires there { IsTrue (has_thread self.old thread) }
        requires passes { length self.old.members ≤ passes.old.threads }
        requires room { length self.old.members ≤ out.old.threads }
        ensures passes { passes.new ≡ record passes.old { passes = map pair_of (passes_of thread self.old) } }
        ensures graph { self.new ≡ kill_thread_edit thread self.old }
        ensures threads { length self.new.members ≡ length self.old.members }
        ensures mutexes { length self.new.ceilings ≡ length self.old.ceilings }
        ensures changes { out.new ≡ record out.old { changes = changes self.old self.new } }
        ensures cost { steps.new ≤ steps.old + 8 * edit_size self.old self.new (end_touches self.old thread) }
    {
        steps.tick();
        out.clear();
        self.owners.know_sound();
        end_thread(&mut self.owners, &mut self.curs, thread, passes, out, steps);
        out.settle(&self.owners, &self.curs.numbers);
    }

    /// Whether a thread is there.
    pub fn has_thread(&self, thread: ThreadNo) -> bool
        requires { thread < length self.now.members }
        ensures { result ≡ has_thread self.now thread }
    {
        self.owners.has(thread)
    }

    /// Whether a mutex is there.
    pub fn has_mutex(&self, mutex: ObjNo) -> bool
        requires { mutex < length self.now.ceilings }
        ensures { result ≡ has_mutex self.now mutex }
    {
        self.owners.ceiling(mutex).is_some()
    }

    /// Each mutex is owned once, by a thread for which there is room, and each awaited mutex has an owner. It does nothing
    /// when it runs.
    pub fn know_owners(&self)
        ensures once { IsOnce self.now }
        ensures owned { AreOwned self.now }
        ensures owners { All (λ h. h.owner < length self.now.members) self.now.taken }
    {
        // Each field with its type: a further one doesn't compile before it is named here too.
        let MutexGraph { owners, curs } = self;
        let _: &Owners = owners;
        let _: &Stored = curs;
    }

    /// The current priority of a thread.
    pub fn cur(&self, thread: ThreadNo) -> Prio
        requires { IsTrue (has_thread self.now thread) }
        ensures { result ≡ cur_in self.now thread }
    {
        number(self.curs.numbers[thread.0 as usize])
    }

    /// The mutex that a thread waits on: `None` exactly where it waits on none.
    pub fn waits(&self, thread: ThreadNo) -> Option<ObjNo>
        requires { IsTrue (has_thread self.now thread) }
        ensures { result ≡ awaited_in self.now thread }
    {
        let wait = self.owners.member(thread)?.wait?;
        Some(wait.mutex)
    }

    /// The owner of a mutex: `None` exactly where nobody owns it.
    pub fn owner(&self, mutex: ObjNo) -> Option<ThreadNo>
        requires { IsTrue (has_mutex self.now mutex) }
        ensures { result ≡ owner_in self.now mutex }
    {
        let row = self.owners.taken(mutex)?;
        Some(row.owner)
    }

    /// The first waiter of a mutex: the most urgent now, of equals the one that came first. `None`
    /// exactly where nobody waits.
    pub fn first(&self, mutex: ObjNo) -> Option<ThreadNo>
        requires { IsTrue (has_mutex self.now mutex) }
        ensures { result ≡ first_in self.now mutex }
    {
        self.curs.first(&self.owners, mutex)
    }

    /// How often the owner of a mutex has taken it: 0 where nobody owns it.
    pub fn hold(&self, mutex: ObjNo) -> u8
        requires { IsTrue (has_mutex self.now mutex) }
        ensures { result ≡ hold_of (taken_of self.now mutex) }
    {
        match self.owners.taken(mutex) {
            None => 0,
            Some(row) => row.hold,
        }
    }

    /// The ceiling of a mutex.
    pub fn ceiling(&self, mutex: ObjNo) -> Prio
        requires { IsTrue (has_mutex self.now mutex) }
        ensures { Some result ≡ ceiling_at self.now mutex }
    {
        let Some(ceiling) = self.owners.ceiling(mutex) else {
            unreachable!();
        };
        ceiling
    }

    /// The number of threads that wait on a mutex.
    pub fn waiters(&self, mutex: ObjNo) -> u16
        requires { IsTrue (has_mutex self.now mutex) }
        ensures { result ≡ length (waiters_in self.now mutex) }
    {
        self.curs.waiters(&self.owners, mutex)
    }
}
