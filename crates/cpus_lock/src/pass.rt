ghost use Rattle.std.specs.Prelude.{◌≡◌, []};
ghost use Rattle.cpus_lock.specs.Seats.{IsIdle, pass_of};

use crate::knows::Knows;
use atomic_table::{Badge, Seat};
use rt_base::CoreNo;
use std::marker::Model;

/// A core's right to enter a lock, which one thread at a time has: whoever enters by it gets it back at the end
/// of the hold. It has no bytes but its core, and may go to any thread.
///
/// Contracts see which `lock` it is of, and what it has `known`: its core, the root of the lock's value, how often
/// it has tried, the word that its last try found (0, or the holding core plus 1), and the log that its last hold
/// left. That log is at first the one that the value had when the lock was made.
#[derive(Drop)]
pub struct Pass {
    core: CoreNo,
    badge: Badge<Knows>,
}

impl Model for Pass {
    ghost use Rattle.cpus_lock.specs.Passes.{LockPass};
    ghost use Rattle.cpus_lock.specs.Seats.{IsPass, view_in, pass_of};

    ghost Value = { LockPass };

    ghost view = { λ p. pass_of p.badge.table_id (view_in p.badge.views) };

    ghost invariant = { λ p. IsPass p.core p.badge.views };
}

impl Pass {
    /// The core that the pass is of.
    pub fn core(&self) -> CoreNo
        ensures { result ≡ self.now.known.core }
    {
        self.core
    }

    // The pass of a seat that doesn't hold.
    pub(crate) fn of_seat<K>(core: CoreNo, seat: Seat<Option<K>, Knows>) -> Pass
        requires idle { IsIdle core seat.me.0 }
        requires empty { seat.me.1 ≡ [] }
        ensures { result ≡ pass_of seat.table_id seat.me.0 }
    {
        Pass {
            core,
            badge: seat.into_badge(),
        }
    }

    // The seat of the pass.
    pub(crate) fn into_seat<K>(self) -> Seat<Option<K>, Knows>
        ensures pass { self ≡ pass_of result.table_id result.me.0 }
        ensures idle { IsIdle self.known.core result.me.0 }
        ensures empty { result.me.1 ≡ [] }
    {
        let Pass { core: _, badge } = self;
        badge.into_seat()
    }
}

fn is_send<T: Send>(_value: &T) {}

// A pass may go to another thread.
fn pass_is_send(pass: &Pass) {
    is_send(pass)
}
