ghost use Rattle.std.specs.Prelude.{◌≡◌, ◌<◌};

use crate::bench::Bench;
use crate::plain::{Lock, MUTEXES, Plain, Row, THREADS};
use rand_core::SeedableRng;
use rand_core::utils::NextWord;
use rand_pcg::Pcg32;
use rt_base::{Steps, ThreadNo};
use std::alloc::Global;
use std::marker::Brand;
use std::process::Abort;
use std::sync::ledger::{Blank, Ledger};
use std::test::Fail;

// A thread, a mutex and a priority by chance, and an arrival number.
#[derive(Drop)]
struct Draw {
    thread: usize,
    mutex: usize,
    prio: u8,
    at: u64,
    ghost threads: { thread < 6 },
    ghost mutexes: { mutex < 4 },
}

impl Draw {
    fn new(words: &mut Pcg32, at: u64) -> Draw {
        let thread = words.next_word() as usize % THREADS;
        let mutex = words.next_word() as usize % MUTEXES;
        let prio = (words.next_word() % 8) as u8;
        Draw {
            thread,
            mutex,
            prio,
            at,
        }
    }
}

// The graph and the plain, edited alike.
#[derive(Drop)]
struct Both {
    bench: Bench,
    plain: Plain,
}

impl Both {
    fn add_thread(&mut self, rt: &impl Abort, draw: &Draw) {
        self.bench.add_thread(rt, draw.thread as u16, draw.prio);
        self.plain.rows[draw.thread] = Some(Row {
            base: draw.prio,
            wait: None,
        });
    }

    fn add_mutex(&mut self, rt: &impl Abort, draw: &Draw) {
        self.bench.add_mutex(rt, draw.mutex as u16, draw.prio);
        self.plain.locks[draw.mutex] = Some(Lock {
            ceiling: draw.prio,
            owner: None,
            got: 0,
        });
    }

    fn set_base<L: Ledger>(
        &mut self,
        rt: &impl Abort,
        draw: &Draw,
        row: &Row,
        steps: &mut Steps<L>,
    ) {
        self.bench
            .set_base(rt, draw.thread as u16, draw.prio, steps);
        self.plain.rows[draw.thread] = Some(Row {
            base: draw.prio,
            ..*row
        });
    }

    fn set_ceiling<L: Ledger>(
        &mut self,
        rt: &impl Abort,
        draw: &Draw,
        lock: &Lock,
        steps: &mut Steps<L>,
    ) {
        let old = self
            .bench
            .set_ceiling(rt, draw.mutex as u16, draw.prio, steps);
        assert_eq!(rt; old, lock.ceiling);
        self.plain.locks[draw.mutex] = Some(Lock {
            ceiling: draw.prio,
            ..*lock
        });
    }

    fn kill_mutex<L: Ledger>(
        &mut self,
        rt: &impl Abort,
        alloc: Global,
        draw: &Draw,
        steps: &mut Steps<L>,
    ) -> Result<(), Fail> {
        self.bench.kill_mutex(rt, draw.mutex as u16, steps);
        let woken = self.plain.kill_mutex(alloc, draw.mutex)?;
        assert_eq!(rt; self.bench.woken.as_slice(), woken.as_slice());
        Ok(())
    }

    fn kill_thread<L: Ledger>(
        &mut self,
        rt: &impl Abort,
        alloc: Global,
        draw: &Draw,
        steps: &mut Steps<L>,
    ) -> Result<(), Fail> {
        self.bench.kill_thread(rt, draw.thread as u16, steps);
        let passes = self.plain.kill_thread(alloc, draw.thread)?;
        assert_eq!(rt; self.bench.passes.as_slice(), passes.as_slice());
        Ok(())
    }

    fn leave<L: Ledger>(&mut self, rt: &impl Abort, draw: &Draw, steps: &mut Steps<L>) {
        self.bench.leave(rt, draw.thread as u16, steps);
        self.plain.set_wait(draw.thread, None);
    }

    fn release<L: Ledger>(&mut self, rt: &impl Abort, draw: &Draw, steps: &mut Steps<L>) {
        let released = self
            .bench
            .release(rt, draw.thread as u16, draw.mutex as u16, steps);
        assert_eq!(rt; released, self.plain.release(draw.thread, draw.mutex));
    }

    // A thread that waits on no mutex waits on one that another thread owns, and takes any other one.
    fn get<L: Ledger>(&mut self, rt: &impl Abort, draw: &Draw, lock: &Lock, steps: &mut Steps<L>) {
        let thread = draw.thread as u16;
        let mutex = draw.mutex as u16;
        match lock.owner {
            Some((owner, _)) if owner != thread => {
                self.bench.wait(rt, thread, mutex, draw.at, steps);
                self.plain.set_wait(draw.thread, Some((mutex, draw.at)));
            }
            _ => {
                let took = self.bench.take(rt, thread, mutex, steps);
                assert_eq!(rt; took, self.plain.take(draw.thread, draw.mutex));
            }
        }
    }

    // A random edit, on the graph and in the plain: what they answer and list is the same.
    fn edit<L: Ledger>(
        &mut self,
        rt: &impl Abort,
        alloc: Global,
        words: &mut Pcg32,
        at: u64,
        steps: &mut Steps<L>,
    ) -> Result<(), Fail> {
        let draw = Draw::new(words, at);
        let Some(row) = self.plain.rows[draw.thread] else {
            self.add_thread(rt, &draw);
            return Ok(());
        };
        let Some(lock) = self.plain.locks[draw.mutex] else {
            self.add_mutex(rt, &draw);
            return Ok(());
        };
        let before = self.plain;
        match words.next_word() % 16 {
            0 => self.set_base(rt, &draw, &row, steps),
            1 => self.set_ceiling(rt, &draw, &lock, steps),
            2 => self.kill_mutex(rt, alloc, &draw, steps)?,
            3 => self.kill_thread(rt, alloc, &draw, steps)?,
            4..=7 if row.wait.is_some() => self.leave(rt, &draw, steps),
            8..=15 if row.wait.is_none() => self.get(rt, &draw, &lock, steps),
            _ => self.release(rt, &draw, steps),
        }
        let changes = self.plain.changes_since(alloc, &before)?;
        assert_eq!(rt; self.bench.out.as_slice(), changes.as_slice());
        Ok(())
    }

    // All that the graph shows is as in the plain.
    fn compare(&self, rt: &impl Abort) {
        for thread in 0..THREADS {
            if self.plain.rows[thread].is_some() {
                let cur = self.bench.cur(rt, thread as u16);
                assert_eq!(rt; cur, self.plain.cur(thread));
            }
        }
        for mutex in 0..MUTEXES {
            if let Some(lock) = self.plain.locks[mutex] {
                self.compare_mutex(rt, mutex as u16, &lock);
            }
        }
    }

    fn compare_mutex(&self, rt: &impl Abort, mutex: u16, lock: &Lock) {
        let (owner, hold, ceiling, first, waiters) = self.bench.look(rt, mutex);
        assert_eq!(rt; owner, lock.owner.map(|owner| ThreadNo(owner.0)));
        assert_eq!(rt; hold, lock.owner.map_or(0, |owner| owner.1));
        assert_eq!(rt; ceiling, lock.ceiling);
        assert_eq!(rt; first, self.plain.first(mutex).map(|first| ThreadNo(first)));
        assert_eq!(rt; waiters as usize, self.plain.waiters(mutex));
    }
}

fn random_edits<L: Ledger>(rt: &impl Abort, alloc: Global, blank: Blank) -> Result<(), Fail>
    requires name { blank.name ≡ L.name }
    requires parts { blank.parts ≡ L.parts }
    requires one { L.parts ≡ 1 }
{
    let mut steps: Steps<L> = Steps::new(blank);
    for seed in 0..200u64 {
        let mut both = Both {
            bench: Bench::new(alloc)?,
            plain: Plain::new(),
        };
        let mut words = Pcg32::seed_from_u64(seed);
        for at in 0..60u64 {
            both.edit(rt, alloc, &mut words, at, &mut steps)?;
            both.compare(rt);
        }
    }
    Ok(())
}

#[test]
fn random_edits_agree_with_marking(rt: HostRuntime) -> Result<(), Fail> {
    random_edits::<Brand>(&rt, rt.alloc(), Blank::new(1))
}
