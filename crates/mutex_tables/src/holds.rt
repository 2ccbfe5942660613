ghost use Rattle.std.specs.Prelude.{◌≡◌};
ghost use Rattle.std.specs.Option.{option_map};
ghost use Rattle.rt_plain.specs.kernel.Priority.{holding_of};
ghost use Rattle.mutex_tables.specs.MutexTabled.{plain_state};

use crate::tables::MutexTables;
use rt_base::{Class, Name, ThreadNo};

impl MutexTables {
    /// Who owns the mutex of a name, and how often it was taken: `None` exactly where nobody owns it.
    pub fn holding(&self, name: &Name) -> Option<(ThreadNo, u8)>
        ensures { result ≡ option_map (λ h. (h.owner, h.hold)) (holding_of (plain_state self.now) name.now) }
    {
        let Some(no) = self.names.find(Class::Mutex, name) else {
            return None;
        };
        let Some(owner) = self.graph.owner(no) else {
            return None;
        };
        Some((owner, self.graph.hold(no)))
    }
}
