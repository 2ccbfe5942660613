ghost use Rattle.std.specs.Prelude.{◌≡◌, ◌≤◌, is_some, length, Some};
ghost use Rattle.std.specs.Bool.{OnFalse, OnTrue};
ghost use Rattle.std.specs.Option.{option_map};
ghost use Rattle.rt_plain.specs.kernel.State.{EventObj as PlainEvent};
ghost use Rattle.ipc_counts.specs.Flags.{plain_want};
ghost use Rattle.kernel_tables.specs.Tabled.{events_received, flags_got, found_event};
ghost use Rattle.mutex_tables.specs.Woken.{CreatesEvent, event_waiters, sent_to, without_event, woken_on};

use crate::tables::MutexTables;
use ipc_counts::Want;
use kernel_tables::{ThreadList, WokenThreads};
use object_box::Make;
use rt_base::{Name, WaitOrder};

impl MutexTables {
    /// Receives flags of the event object of a name without waiting: `None` exactly where there is none, and `Some(None)`
    /// exactly where its flags don't satisfy the receiver.
    pub fn receive(&mut self, name: &Name, want: Want) -> Option<Option<u32>>
        ensures answer { result ≡ option_map (flags_got (plain_want want)) (found_event self.old.events name.now) }
        ensures state { self.new ≡ record self.old { events = events_received self.old.events (plain_want want) (found_event self.old.events name.now) } }
    {
        self.tables.receive(name, want)
    }

    /// Sends flags to the event object of a name, and wakes all whom they satisfy with 0 and with the flags that each
    /// wanted: false exactly where there is none. `woken` gets them in the order of their list.
    pub fn send(&mut self, name: &Name, mask: u32, woken: &mut WokenThreads) -> bool
        ensures answer { result ≡ is_some (found_event self.old.events name.now) }
        ensures missing { OnFalse result (self.new ≡ self.old) }
        ensures woken { (event : PlainEvent) → found_event self.old.events name.now ≡ Some event → woken.new ≡ woken_on self.old event mask }
        ensures state { (event : PlainEvent) → found_event self.old.events name.now ≡ Some event → self.new ≡ sent_to self.old event mask }
        ensures few { (event : PlainEvent) → found_event self.old.events name.now ≡ Some event → length woken.new ≤ length self.old.threads }
    {
        self.tables.send(name, mask, woken)
    }

    /// Makes an event object of a name and an order, without flags.
    pub fn create_event(&mut self, name: Name, order: WaitOrder) -> Result<(), Make>
        ensures { let event : PlainEvent = record { name = name; flags = 0; order = order } in CreatesEvent self.old self.new event result }
    {
        self.tables.create_event(name, order)
    }

    /// Drops the event object of a name, and wakes all its waiters with -1: false exactly where there is none. `woken`
    /// gets them in the order of their list.
    pub fn delete_event(&mut self, name: &Name, woken: &mut ThreadList) -> bool
        ensures answer { result ≡ is_some (found_event self.old.events name.now) }
        ensures missing { OnFalse result (self.new ≡ self.old) }
        ensures woken { (event : PlainEvent) → found_event self.old.events name.now ≡ Some event → woken.new ≡ event_waiters self.old event }
        ensures state { OnTrue result (self.new ≡ without_event self.old name.now woken.new) }
        ensures few { length woken.new ≤ length self.old.threads }
    {
        self.tables.delete_event(name, woken)
    }
}
