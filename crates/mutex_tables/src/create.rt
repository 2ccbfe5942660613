ghost use Rattle.std.specs.Prelude.{◌≡◌};
ghost use Rattle.rt_plain.specs.kernel.State.{Mutex as PlainMutex};
ghost use Rattle.mutex_tables.specs.Created.{CreatesMutex};

use crate::tables::MutexTables;
use object_box::Make;
use rt_base::{Class, Name, Prio};

impl MutexTables {
    /// Makes a mutex of a name and a ceiling, which nobody owns.
    pub fn create_mutex(&mut self, name: Name, ceiling: Prio) -> Result<(), Make>
        ensures { let mutex : PlainMutex = record { name = name; ceiling = ceiling } in CreatesMutex self.old self.new mutex result }
    {
        let no = self.names.make(Class::Mutex, name)?;
        self.graph.add_mutex(no, ceiling);
        Ok(())
    }
}
