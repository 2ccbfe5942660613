ghost use Rattle.std.specs.Prelude.{ℕ, ◌≡◌, ◌+◌, ◌<◌, ◌≤◌, [], ◌∷◌, None, Some, false, length, map, not, ◌==◌, filter, if◌then◌else◌, replicate, slice_set, vec_capacity, IfOk, IfSome};
ghost use Rattle.std.specs.List.{find};
ghost use Rattle.std.specs.Option.{option_map};
ghost use Rattle.rt_plain.specs.kernel.Ownership.{awaited_in, base_of, member_at, taken_of, member_urgency, owned_in, owner_in, with_member, base_edit, member_edit, with_wait, with_mutex_free, with_mutex_got, with_taken_times, wait_of, take_edit, pass_edit_to, first_in, release_edit};
ghost use Rattle.rt_plain.specs.kernel.Waiting.{head_of};
ghost use Rattle.mutex_chain.specs.Graph.{is_last, took_of, released_of};
ghost use Rattle.mutex_chain.specs.Owners.{IsSound, has_thread, has_mutex, ceiling_at, blocker_in, with_hold};
ghost use Rattle.mutex_chain.specs.Costs.{one_wait, least_of};

use crate::answers::{Released, Took};
use crate::rows::{MemberRow, TakenRow, WaitRow};
use rt_base::{ObjNo, Prio, Steps, ThreadNo};
use std::alloc::{AllocError, Global};
use std::marker::Model;
use std::sync::ledger::Ledger;

// The threads and the mutexes that are there, by number, and who owns what, last got first. `holders` has
// the owner of each mutex once more, so that one look finds it.
#[derive(Drop)]
pub struct Owners {
    members: Vec<Option<MemberRow>>,
    ceilings: Vec<Option<Prio>>,
    taken: Vec<TakenRow>,
    holders: Vec<Option<ThreadNo>>,
}

impl Model for Owners {
    ghost use Rattle.std.specs.Prelude.{◌≤◌, length, vec_capacity};
    ghost use Rattle.rt_plain.specs.kernel.Ownership.{Ownership};
    ghost use Rattle.mutex_chain.specs.Owners.{IsSound, AreHolders};

    ghost Value = { Ownership };

    ghost view = { λ o. record { members = o.members.items; ceilings = o.ceilings.items; taken = o.taken.items } };

    ghost invariant = { λ o. (length o.ceilings.items ≤ vec_capacity o.taken)
        × (IsSound (record { members = o.members.items; ceilings = o.ceilings.items; taken = o.taken.items })
        × AreHolders o.taken.items (length o.ceilings.items) o.holders.items) };
}

impl Owners {
    // Nobody and no mutex, with room for the numbers below two.
    pub fn new(alloc: Global, threads: u16, mutexes: u16) -> Result<Owners, AllocError>
        ensures { IfOk result (λ o. o ≡ record { members = replicate threads None; ceilings = replicate mutexes None; taken = [] }) }
    {
        let members = vec![in alloc; None; threads as usize]?;
        let ceilings = vec![in alloc; None; mutexes as usize]?;
        let taken = Vec::with_capacity(alloc, mutexes as usize)?;
        let holders = vec![in alloc; None; mutexes as usize]?;
        Ok(Owners {
            members,
            ceilings,
            taken,
            holders,
        })
    }

    // Who owns what, last got first.
    pub fn rows(&self) -> &[TakenRow]
        ensures { result.now ≡ self.now.taken }
    {
        self.taken.as_slice()
    }

    // What the tables keep.
    pub fn know_sound(&self)
        ensures { IsSound self.now }
    {
        let _ = &self.members;
    }

    // The row of a thread, if it is there.
    pub fn member(&self, thread: ThreadNo) -> Option<MemberRow>
        requires { thread < length self.now.members }
        ensures { result ≡ member_at self.now thread }
    {
        self.members[thread.0 as usize]
    }

    // The wait of a thread, if it waits.
    pub fn wait(&self, thread: ThreadNo) -> Option<WaitRow>
        requires { thread < length self.now.members }
        ensures { result ≡ wait_of self.now thread }
    {
        self.member(thread)?.wait
    }

    // The base of a thread. One that isn't there has 256.
    pub fn base_of(&self, thread: ThreadNo) -> u16
        requires { thread < length self.now.members }
        ensures { result ≡ base_of (member_at self.now thread) }
    {
        match self.member(thread) {
            None => 256,
            Some(row) => row.base.0 as u16,
        }
    }

    // Whether a thread is there.
    pub fn has(&self, thread: ThreadNo) -> bool
        requires { thread < length self.now.members }
        ensures { result ≡ has_thread self.now thread }
    {
        self.members[thread.0 as usize].is_some()
    }

    // The ceiling of a mutex, if it is there.
    pub fn ceiling(&self, mutex: ObjNo) -> Option<Prio>
        requires { mutex < length self.now.ceilings }
        ensures { result ≡ ceiling_at self.now mutex }
    {
        self.ceilings[mutex.0 as usize]
    }

    // Who owns a mutex, and how often it was taken.
    pub fn taken(&self, mutex: ObjNo) -> Option<TakenRow>
        ensures row { result ≡ taken_of self.now mutex }
        ensures within { IfSome result (λ row. row.owner < length self.now.members) }
    {
        row_of(&self.taken, mutex)
    }

    // The owner of the mutex that a thread waits on.
    pub fn blocker(&self, thread: ThreadNo) -> Option<ThreadNo>
        requires { thread < length self.now.members }
        ensures owner { result ≡ blocker_in self.now thread }
        ensures within { IfSome result (λ owner. owner < length self.now.members) }
    {
        let wait = self.member(thread)?.wait?;
        self.holder(wait.mutex)
    }

    // The owner of the mutex that a thread waits on, with the reads counted: the thread's row, and that of the mutex where
    // there is one.
    pub fn counted_blocker<L: Ledger>(
        &self,
        thread: ThreadNo,
        steps: &mut Steps<L>,
    ) -> Option<ThreadNo>
        requires { thread < length self.now.members }
        ensures owner { result ≡ blocker_in self.now thread }
        ensures within { IfSome result (λ owner. owner < length self.now.members) }
        ensures count { steps.new ≡ steps.old + (1 + one_wait (awaited_in self.now thread)) }
    {
        steps.tick();
        let Some(wait) = self.wait(thread) else {
            return None;
        };
        steps.tick();
        self.holder(wait.mutex)
    }

    // The owner of a mutex.
    pub fn holder(&self, mutex: ObjNo) -> Option<ThreadNo>
        ensures owner { result ≡ owner_in self.now mutex }
        ensures within { IfSome result (λ owner. owner < length self.now.members) }
    {
        let place = mutex.0 as usize;
        if place >= self.holders.len() {
            return None;
        }
        self.holders[place]
    }

    // A thread's own urgency: the least of its base and the ceilings of the mutexes that it owns. It counts the thread's
    // row, and the row of each of its mutexes.
    pub fn urgency<L: Ledger>(&self, thread: ThreadNo, steps: &mut Steps<L>) -> u16
        requires { thread < length self.now.members }
        ensures urgency { result ≡ member_urgency self.now thread }
        ensures count { steps.new ≡ steps.old + (1 + length (owned_in self.now thread)) }
    {
        steps.tick();
        let mut least = self.base_of(thread);
        for row in &self.taken {
            if row.owner.0 == thread.0 {
                steps.tick();
                least = self.least_with(least, row.mutex);
            }
        }
        least
    }

    // The least of a number and the ceiling of a mutex, if it is there.
    fn least_with(&self, least: u16, mutex: ObjNo) -> u16
        requires { mutex < length self.now.ceilings }
        ensures { result ≡ least_of least (ceiling_at self.now mutex) }
    {
        match self.ceiling(mutex) {
            None => least,
            Some(ceiling) => least.min(ceiling.0 as u16),
        }
    }

    // The mutex that a thread got last of those that it owns.
    pub fn first_owned(&self, thread: ThreadNo) -> Option<ObjNo>
        ensures mutex { result ≡ head_of (owned_in self.now thread) }
        ensures within { IfSome result (λ mutex. mutex < length self.now.ceilings) }
        ensures sound { IsSound self.now }
    {
        first_owned_by(&self.taken, thread)
    }

    // Gives a number another row.
    pub fn set_member(&mut self, thread: ThreadNo, row: Option<MemberRow>)
        requires { thread < length self.old.members }
        ensures { self.new ≡ with_member self.old thread row }
    {
        self.members[thread.0 as usize] = row;
    }

    // Gives a number another ceiling, or none.
    pub fn set_ceiling(&mut self, mutex: ObjNo, ceiling: Option<Prio>)
        requires { mutex < length self.old.ceilings }
        ensures { self.new ≡ record self.old { ceilings = slice_set self.old.ceilings mutex ceiling } }
    {
        self.ceilings[mutex.0 as usize] = ceiling;
    }

    // Gives a thread another base.
    pub fn set_base(&mut self, thread: ThreadNo, base: Prio)
        requires { thread < length self.old.members }
        ensures { self.new ≡ base_edit thread base self.old }
    {
        let row = self.members[thread.0 as usize];
        self.members[thread.0 as usize] = row.map(|row| MemberRow {
            base,
            wait: row.wait,
        });
    }

    // Lets a thread wait, or wait no more.
    pub fn set_wait(&mut self, thread: ThreadNo, wait: Option<WaitRow>)
        requires { thread < length self.old.members }
        ensures { self.new ≡ member_edit (with_wait wait) thread self.old }
    {
        let row = self.members[thread.0 as usize];
        self.members[thread.0 as usize] = row.map(|row| MemberRow {
            base: row.base,
            wait,
        });
    }

    // Nobody owns the mutex.
    pub fn free(&mut self, mutex: ObjNo)
        requires { mutex < length self.old.ceilings }
        ensures { self.new ≡ with_mutex_free mutex self.old }
    {
        self.taken.retain(|row| !row.is_of(mutex));
        self.holders[mutex.0 as usize] = None;
    }

    // A thread owns the mutex, got last.
    pub fn get(&mut self, mutex: ObjNo, thread: ThreadNo)
        requires thread { thread < length self.old.members }
        requires mutex { mutex < length self.old.ceilings }
        ensures { self.new ≡ with_mutex_got mutex thread self.old }
    {
        self.free(mutex);
        let row = TakenRow {
            mutex,
            owner: thread,
            hold: 1,
        };
        let _ = self.taken.insert(0, row);
        self.holders[mutex.0 as usize] = Some(thread);
    }

    // A thread takes a mutex.
    pub fn take(&mut self, thread: ThreadNo, mutex: ObjNo) -> Took
        requires thread { thread < length self.old.members }
        requires mutex { mutex < length self.old.ceilings }
        ensures answer { result ≡ took_of thread (taken_of self.old mutex) }
        ensures edit { self.new ≡ take_edit thread mutex self.old }
        ensures threads { length self.new.members ≡ length self.old.members }
        ensures mutexes { length self.new.ceilings ≡ length self.old.ceilings }
    {
        let Some(row) = self.taken(mutex) else {
            self.get(mutex, thread);
            return Took::Free;
        };
        if row.owner.0 != thread.0 {
            return Took::Owned(row.owner);
        }
        if row.hold >= 255 {
            return Took::HoldFull;
        }
        self.set_hold(mutex, row.hold + 1);
        Took::Again
    }

    // The mutex passes to this waiter, or to nobody.
    pub fn pass(&mut self, mutex: ObjNo, first: Option<ThreadNo>)
        requires mutex { mutex < length self.old.ceilings }
        requires first { IfSome first (λ t. t < length self.old.members) }
        ensures edit { self.new ≡ pass_edit_to mutex first self.old }
        ensures threads { length self.new.members ≡ length self.old.members }
        ensures mutexes { length self.new.ceilings ≡ length self.old.ceilings }
    {
        match first {
            None => self.free(mutex),
            Some(thread) => {
                self.set_wait(thread, None);
                self.get(mutex, thread);
            }
        }
    }

    // Whether a thread owns a mutex and has taken it just once.
    pub fn is_last_hold(&self, thread: ThreadNo, mutex: ObjNo) -> bool
        ensures { result ≡ is_last thread (taken_of self.now mutex) }
    {
        match self.taken(mutex) {
            None => false,
            Some(row) => row.owner.0 == thread.0 && row.hold <= 1,
        }
    }

    // A thread releases a mutex that it doesn't hold for the last time.
    pub fn release(&mut self, thread: ThreadNo, mutex: ObjNo) -> Released
        requires again { is_last thread (taken_of self.old mutex) ≡ false }
        ensures answer { result ≡ released_of thread (taken_of self.old mutex) (first_in self.old mutex) }
        ensures edit { self.new ≡ release_edit thread mutex self.old }
        ensures threads { length self.new.members ≡ length self.old.members }
        ensures mutexes { length self.new.ceilings ≡ length self.old.ceilings }
    {
        let Some(row) = self.taken(mutex) else {
            return Released::NotOwner(None);
        };
        if row.owner.0 != thread.0 {
            return Released::NotOwner(Some(row.owner));
        }
        let left = row.hold.saturating_sub(1);
        self.set_hold(mutex, left);
        Released::Held(left)
    }

    // Its owner has taken the mutex so many times.
    pub fn set_hold(&mut self, mutex: ObjNo, hold: u8)
        ensures { self.new ≡ with_taken_times mutex hold self.old }
    {
        set_holds(&mut self.taken, mutex, hold);
    }
}

// The row of a mutex.
fn row_of(rows: &[TakenRow], mutex: ObjNo) -> Option<TakenRow>
    ensures { result ≡ find (λ h. h.mutex == mutex) rows.now }
{
    rows.iter().copied().find(|row| row.is_of(mutex))
}

// The mutex of the first row of an owner.
fn first_owned_by(rows: &[TakenRow], thread: ThreadNo) -> Option<ObjNo>
    ensures { result ≡ option_map (λ h. h.mutex) (find (λ h. h.owner == thread) rows.now) }
{
    let row = rows.iter().find(|row| row.owner.0 == thread.0)?;
    Some(row.mutex)
}

// Gives the row of a mutex another hold.
fn set_holds(rows: &mut Vec<TakenRow>, mutex: ObjNo, hold: u8)
    ensures rows { rows.new.items ≡ map (with_hold mutex hold) rows.old.items }
    ensures room { vec_capacity rows.new ≡ vec_capacity rows.old }
{
    for i in 0..rows.len() {
        let row = rows[i].with_hold(mutex, hold);
        rows[i] = row;
    }
}
