ghost use Rattle.std.specs.Prelude.{◌≡◌, ◌==◌};
ghost use Rattle.mutex_chain.specs.Owners.{with_hold};

use rt_base::{ObjNo, Prio, ThreadNo};
use std::marker::Model;

// A wait on a mutex, with its arrival number.
#[derive(Clone, Copy)]
pub struct WaitRow {
    pub mutex: ObjNo,
    pub at: u64,
}

impl Model for WaitRow {
    ghost use Rattle.rt_plain.specs.kernel.Ownership.{MutexWait};

    ghost Value = { MutexWait };

    ghost view = { λ w. record { mutex = w.mutex; number = w.at } };

    ghost inverse = { λ w. record { mutex = w.mutex; at = w.number } };
}

// A thread that is there: its base, and what it waits on.
#[derive(Clone, Copy)]
pub struct MemberRow {
    pub base: Prio,
    pub wait: Option<WaitRow>,
}

impl Model for MemberRow {
    ghost use Rattle.rt_plain.specs.kernel.Ownership.{Member};

    ghost Value = { Member };

    ghost view = { λ m. record { base = m.base; wait = m.wait } };

    ghost inverse = { λ m. record { base = m.base; wait = m.wait } };
}

// Who owns a mutex, and how often it was taken.
#[derive(Clone, Copy)]
pub struct TakenRow {
    pub mutex: ObjNo,
    pub owner: ThreadNo,
    pub hold: u8,
}

impl Model for TakenRow {
    ghost use Rattle.rt_plain.specs.kernel.Ownership.{Taken};

    ghost Value = { Taken };

    ghost view = { λ h. record { mutex = h.mutex; owner = h.owner; hold = h.hold } };

    ghost inverse = { λ h. record { mutex = h.mutex; owner = h.owner; hold = h.hold } };
}

impl TakenRow {
    // Whether it is the row of a mutex.
    pub fn is_of(&self, mutex: ObjNo) -> bool
        ensures { result ≡ (self.now.mutex == mutex) }
    {
        self.mutex.0 == mutex.0
    }

    // The row with another hold, where it is that of a mutex.
    pub fn with_hold(&self, mutex: ObjNo, hold: u8) -> TakenRow
        ensures { result ≡ with_hold mutex hold self.now }
    {
        if self.is_of(mutex) {
            TakenRow {
                mutex,
                owner: self.owner,
                hold,
            }
        } else {
            *self
        }
    }
}
