ghost use Rattle.std.specs.Prelude.{◌<◌};

use mutex_chain::{Change, Released, Took};
use rt_base::{ObjNo, Prio, ThreadNo};
use std::alloc::{AllocError, Global};

pub const THREADS: usize = 6;

pub const MUTEXES: usize = 4;

// A thread: its base, and the mutex that it waits on with its arrival number.
#[derive(Clone, Copy)]
pub struct Row {
    pub base: u8,
    pub wait: Option<(u16, u64)>,
}

// A mutex: its ceiling, its owner with the hold, and when it was got.
#[derive(Clone, Copy)]
pub struct Lock {
    pub ceiling: u8,
    pub owner: Option<(u16, u8)>,
    pub got: u64,
}

// Owners and waiters in the plain: current priorities come of marking all who are reached.
#[derive(Clone, Copy)]
pub struct Plain {
    pub rows: [Option<Row>; THREADS],
    pub locks: [Option<Lock>; MUTEXES],
    pub clock: u64,
}

impl Plain {
    pub fn new() -> Plain {
        Plain {
            rows: [None; THREADS],
            locks: [None; MUTEXES],
            clock: 0,
        }
    }

    // Whether a thread owns the mutex of a number.
    fn owns(&self, thread: usize, mutex: u16) -> bool {
        let mutex = mutex as usize;
        if mutex >= MUTEXES {
            return false;
        }
        match &self.locks[mutex] {
            Some(
                Lock {
                    owner: Some((owner, _)),
                    ..
                },
            ) => *owner as usize == thread,
            _ => false,
        }
    }

    // Marks all that wait for a marked thread, as often as there are threads.
    fn reach(&self, thread: usize) -> [bool; THREADS]
        requires { thread < 6 }
    {
        let mut marks = [false; THREADS];
        marks[thread] = true;
        for _ in 0..THREADS {
            for waiter in 0..THREADS {
                if let Some(
                    Row {
                        wait: Some((mutex, _)),
                        ..
                    },
                ) = self.rows[waiter]
                {
                    for owner in 0..THREADS {
                        if marks[owner] && self.owns(owner, mutex) {
                            marks[waiter] = true;
                        }
                    }
                }
            }
        }
        marks
    }

    // The current priority of a thread.
    pub fn cur(&self, thread: usize) -> u8
        requires { thread < 6 }
    {
        let marks = self.reach(thread);
        let mut cur = 255;
        for member in 0..THREADS {
            if !marks[member] {
                continue;
            }
            if let Some(row) = self.rows[member] {
                cur = cur.min(row.base);
            }
            for mutex in 0..MUTEXES {
                if let Some(lock) = self.locks[mutex]
                    && self.owns(member, mutex as u16)
                {
                    cur = cur.min(lock.ceiling);
                }
            }
        }
        cur
    }

    // The first waiter of a mutex.
    pub fn first(&self, mutex: u16) -> Option<u16> {
        let mut best: Option<(u8, u64, u16)> = None;
        for thread in 0..THREADS {
            let Some(
                Row {
                    wait: Some((awaited, at)),
                    ..
                },
            ) = self.rows[thread]
            else {
                continue
            };
            if awaited != mutex {
                continue;
            }
            let key = (self.cur(thread), at, thread as u16);
            best = match best {
                Some(other) if other <= key => Some(other),
                _ => Some(key),
            };
        }
        best.map(|key| key.2)
    }

    // How many threads wait on a mutex.
    pub fn waiters(&self, mutex: u16) -> usize {
        let mut count: usize = 0;
        for row in &self.rows {
            if let Some(
                Row {
                    wait: Some((awaited, _)),
                    ..
                },
            ) = row
                && *awaited == mutex
            {
                count = count.saturating_add(1);
            }
        }
        count
    }

    // Gives a mutex to a thread that nobody else owns.
    fn give(&mut self, thread: u16, mutex: usize)
        requires { mutex < 4 }
    {
        self.clock = self.clock.wrapping_add(1);
        if let Some(lock) = self.locks[mutex] {
            self.locks[mutex] = Some(Lock {
                owner: Some((thread, 1)),
                got: self.clock,
                ..lock
            });
        }
    }

    pub fn set_wait(&mut self, thread: usize, wait: Option<(u16, u64)>)
        requires { thread < 6 }
    {
        if let Some(row) = self.rows[thread] {
            self.rows[thread] = Some(Row { wait, ..row });
        }
    }

    // A mutex passes to its first waiter, or to nobody.
    fn pass(&mut self, mutex: usize) -> Option<u16>
        requires { mutex < 4 }
    {
        let first = self.first(mutex as u16);
        match first {
            Some(thread) if (thread as usize) < THREADS => {
                self.set_wait(thread as usize, None);
                self.give(thread, mutex);
            }
            _ => self.set_owner(mutex, None),
        }
        first
    }

    fn set_owner(&mut self, mutex: usize, owner: Option<(u16, u8)>)
        requires { mutex < 4 }
    {
        if let Some(lock) = self.locks[mutex] {
            self.locks[mutex] = Some(Lock { owner, ..lock });
        }
    }

    pub fn take(&mut self, thread: usize, mutex: usize) -> Took
        requires thread { thread < 6 }
        requires mutex { mutex < 4 }
    {
        let owner = match self.locks[mutex] {
            Some(lock) => lock.owner,
            None => None,
        };
        match owner {
            None => {
                self.give(thread as u16, mutex);
                Took::Free
            }
            Some((owner, _)) if owner as usize != thread => Took::Owned(ThreadNo(owner)),
            Some((_, 255)) => Took::HoldFull,
            Some((owner, hold)) => {
                self.set_owner(mutex, Some((owner, hold.saturating_add(1))));
                Took::Again
            }
        }
    }

    pub fn release(&mut self, thread: usize, mutex: usize) -> Released
        requires thread { thread < 6 }
        requires mutex { mutex < 4 }
    {
        let owner = match self.locks[mutex] {
            Some(lock) => lock.owner,
            None => None,
        };
        match owner {
            None => Released::NotOwner(None),
            Some((owner, _)) if owner as usize != thread => {
                Released::NotOwner(Some(ThreadNo(owner)))
            }
            Some((owner, hold)) if hold > 1 => {
                self.set_owner(mutex, Some((owner, hold - 1)));
                Released::Held(hold - 1)
            }
            Some(_) => match self.pass(mutex) {
                None => Released::Free,
                Some(next) => Released::Passed(ThreadNo(next)),
            },
        }
    }

    // A mutex ends. The answer is whom it woke.
    pub fn kill_mutex(&mut self, alloc: Global, mutex: usize) -> Result<Vec<ThreadNo>, AllocError>
        requires { mutex < 4 }
    {
        let before = *self;
        let mut woken = Vec::new(alloc);
        let mut left = before;
        for _ in 0..THREADS {
            let Some(thread) = left.first_as(&before, mutex as u16) else {
                break
            };
            woken.push(ThreadNo(thread))?;
            if (thread as usize) < THREADS {
                left.set_wait(thread as usize, None);
                self.set_wait(thread as usize, None);
            }
        }
        self.locks[mutex] = None;
        Ok(woken)
    }

    // The first waiter by the current priorities of another moment.
    fn first_as(&self, moment: &Plain, mutex: u16) -> Option<u16> {
        let mut best: Option<(u8, u64, u16)> = None;
        for thread in 0..THREADS {
            let Some(
                Row {
                    wait: Some((awaited, at)),
                    ..
                },
            ) = self.rows[thread]
            else {
                continue
            };
            if awaited != mutex {
                continue;
            }
            let key = (moment.cur(thread), at, thread as u16);
            best = match best {
                Some(other) if other <= key => Some(other),
                _ => Some(key),
            };
        }
        best.map(|key| key.2)
    }

    // The mutex that a thread got last.
    fn got_last(&self, thread: usize) -> Option<usize> {
        let mut last: Option<(u64, usize)> = None;
        for mutex in 0..MUTEXES {
            let Some(lock) = self.locks[mutex] else {
                continue
            };
            if !self.owns(thread, mutex as u16) {
                continue;
            }
            last = match last {
                Some(other) if other.0 > lock.got => Some(other),
                _ => Some((lock.got, mutex)),
            };
        }
        last.map(|key| key.1)
    }

    // A thread ends. The answer is which mutexes it passed to whom.
    pub fn kill_thread(
        &mut self,
        alloc: Global,
        thread: usize,
    ) -> Result<Vec<(ObjNo, ThreadNo)>, AllocError>
        requires { thread < 6 }
    {
        let mut passes = Vec::new(alloc);
        self.rows[thread] = None;
        for _ in 0..MUTEXES {
            let Some(mutex) = self.got_last(thread) else {
                break
            };
            if mutex >= MUTEXES {
                break;
            }
            if let Some(next) = self.pass(mutex) {
                passes.push((ObjNo(mutex as u16), ThreadNo(next)))?;
            }
        }
        Ok(passes)
    }

    // The threads there before and now whose current priorities differ.
    pub fn changes_since(&self, alloc: Global, before: &Plain) -> Result<Vec<Change>, AllocError> {
        let mut changes = Vec::new(alloc);
        for thread in 0..THREADS {
            if before.rows[thread].is_none() || self.rows[thread].is_none() {
                continue;
            }
            let old = before.cur(thread);
            let new = self.cur(thread);
            if old != new {
                changes.push(Change {
                    thread: ThreadNo(thread as u16),
                    old: Prio(old),
                    new: Prio(new),
                })?;
            }
        }
        Ok(changes)
    }
}
