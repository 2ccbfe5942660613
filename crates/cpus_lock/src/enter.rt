ghost use Rattle.std.specs.Prelude.{◌≡◌};
ghost use Rattle.cpus_lock.specs.Tries.{Answers};

use crate::held::Held;
use crate::lock::CpusLock;
use crate::nested::{Nested, is_nested};
use crate::pass::Pass;
use rt_base::CoreNo;

/// What a try to enter answers.
pub enum Enter<'a, K: Nested> {
    /// Another core, which is told, held the lock when this try looked. The pass comes back.
    Busy(Pass, CoreNo),
    /// The lock is held now, and the value's nest is another core's: no step of this core may be made.
    Nested(Held<'a, K>),
    /// The lock is held now, and the value's nest is no other core's.
    Held(Held<'a, K>),
}

impl<K: Nested> CpusLock<K> {
    /// Tries once to enter, by one compare and exchange, and never waits. The pass is one of this lock.
    ///
    /// Each try counts in the pass's `tries`, and `found` is then the word that it found. The answer is `Busy`
    /// exactly where that wasn't 0; else it is `Nested` exactly where the value's nest is another core's.
    pub fn try_enter(&self, pass: Pass) -> Enter<'_, K>
        requires { pass.lock ≡ self.now }
        ensures { Answers K.Nested pass result }
    {
        let core = pass.core();
        let mut seat = pass.into_seat::<K>();
        let found = self.table.take(&mut seat, core.0);
        if found > 0 {
            return Enter::Busy(Pass::of_seat(core, seat), CoreNo((found - 1) as u8));
        }
        let value = self.table.slot_out(&mut seat);
        let nested = is_nested(&value, core);
        let held = Held {
            table: &self.table,
            core,
            seat,
            value,
        };
        if nested {
            Enter::Nested(held)
        } else {
            Enter::Held(held)
        }
    }
}
