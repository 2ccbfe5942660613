ghost use Rattle.std.specs.Prelude.{◌≡◌, reverse, IfOk};
ghost use Rattle.kernel_timers.specs.Arming.{MayOpen, opened, started};

use crate::alarms::Alarms;
use rt_base::ObjNo;
use rt_plain::TimerDef;
use std::alloc::{AllocError, Global};
use timer_skip::Timers;

// A timer of the board, once more.
fn timer_of(def: &TimerDef) -> TimerDef
    ensures { result ≡ def.now }
{
    TimerDef {
        name: def.name.copy(),
        kind: def.kind,
        time: def.time,
        started: def.started,
        call: match &def.call {
            Some(statement) => Some(statement.copy()),
            None => None,
        },
    }
}

// The timers of the board, the last one first.
fn timers_of(alloc: Global, defs: &[TimerDef]) -> Result<Vec<TimerDef>, AllocError>
    ensures { IfOk result (λ timers. timers.items ≡ reverse defs.now) }
{
    let mut timers = Vec::with_capacity(alloc, defs.len())?;
    for def in defs {
        timers.push_reserved(timer_of(def));
    }
    timers.reverse();
    Ok(timers)
}

impl Alarms {
    /// The timers of the board at moment 0, with nothing armed. The one refusal is want of memory.
    pub fn open(alloc: Global, defs: &[TimerDef]) -> Result<Alarms, AllocError>
        requires { MayOpen defs.now }
        ensures { IfOk result (λ a. a ≡ opened defs.now) }
    {
        let timers = timers_of(alloc, defs)?;
        let rows = Timers::new(alloc, 256 + timers.len() as u16, 0)?;
        Ok(Alarms {
            moment: 0,
            timers,
            rows,
        })
    }

    /// Arms the timers that start at opening, in board order, with the start numbers from 0 on, and gives the next one.
    pub fn start(&mut self, defs: &[TimerDef]) -> u64
        requires may { MayOpen defs.now }
        requires opened { self.old ≡ opened defs.now }
        ensures rows { self.new ≡ record self.old { rows = (started defs.now).rows } }
        ensures numbers { result ≡ (started defs.now).numbers }
    {
        let mut number = 0;
        for i in 0..defs.len() {
            if defs[i].started {
                self.arm_timer(ObjNo((defs.len() - 1 - i) as u16), number);
                number += 1;
            }
        }
        number
    }
}
