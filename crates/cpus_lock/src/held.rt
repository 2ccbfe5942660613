ghost use Rattle.std.specs.Prelude.{◌≡◌};
ghost use Rattle.cpus_lock.specs.Passes.{GrowsBy, IsNestBelow, with_log};

use crate::knows::Knows;
use crate::nested::Nested;
use crate::pass::Pass;
use crate::table::LockTable;
use atomic_table::Seat;
use rt_base::CoreNo;
use std::marker::Model;

/// A hold of the lock: its value, until `leave` gives it back. There is no other end of a hold.
///
/// Contracts see the pass that it entered by, after the try, the `value`, and the log that the value had
/// when it was `entered`.
pub struct Held<'a, K: Nested> {
    pub(crate) table: &'a LockTable<K>,
    pub(crate) core: CoreNo,
    pub(crate) seat: Seat<Option<K>, Knows>,
    pub(crate) value: K,
}

impl<'a, K: Nested> Model for Held<'a, K> {
    ghost use Rattle.std.specs.Prelude.{◌≡◌};
    ghost use Rattle.cpus_lock.specs.Holds.{Hold};
    ghost use Rattle.cpus_lock.specs.Seats.{hold_of, IsHold};

    ghost Value = { Hold K };

    ghost view = { λ h. hold_of h.seat.table_id h.seat.me h.value };

    ghost invariant = { λ h. IsHold h.core h.seat.me × (h.seat.table_id ≡ h.table.now.table.shared.table_id) };
}

impl<'a, K: Nested> Held<'a, K> {
    /// Gives the value back, and frees the lock. The hold may have added one event to the log, of this core,
    /// and may have left the nest to a core of the lock. The pass then has the log of the value given back.
    pub fn leave(self) -> Pass
        requires root { K.root self.value ≡ self.pass.known.root }
        requires log { GrowsBy self.pass.known.core self.entered (K.log self.value) }
        requires nest { IsNestBelow self.pass.lock.cores (K.nest self.value) }
        ensures { result ≡ with_log self.entry.pass (K.log self.entry.value) }
    {
        let Held {
            table,
            core,
            mut seat,
            value,
        } = self;
        table.release(&mut seat, value);
        Pass::of_seat(core, seat)
    }
}
