// The clause of `value` names the row of `Held`, which the file that declares it can't import.
ghost use Rattle.std.specs.Prelude.{◌≡◌};
ghost use Rattle.std.specs.Borrow.{sem};
ghost use Rattle.cpus_lock.specs.Lending.{lends_value};

use crate::held::Held;
use crate::nested::Nested;

impl<'a, K: Nested> Held<'a, K> {
    /// The value, to read and to change. The hold then has the value that the borrow leaves.
    pub fn value(&mut self) -> &mut K
        ensures* writes_back { sem 𝓛 (lends_value K.row K.Nested self.entry result) }
        ensures value { result.now ≡ self.old.value }
    {
        &mut self.value
    }
}
