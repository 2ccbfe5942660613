ghost use Rattle.std.specs.Prelude.{◌≡◌, ◌≤◌, length, is_some, Some};
ghost use Rattle.std.specs.Bool.{OnTrue, OnFalse};
ghost use Rattle.std.specs.Option.{option_map};
ghost use Rattle.rt_plain.specs.kernel.State.{EventObj as PlainEvent};
ghost use Rattle.ipc_counts.specs.Flags.{plain_want};
ghost use Rattle.kernel_tables.specs.Tabled.{found_event, flags_got, events_received, CreatesEvent, event_line, woken_on, sent_to, without_event};

use crate::ready::{enter_all, enter_given};
use crate::tables::Tables;
use crate::thread_list::ThreadList;
use crate::wait_list::WaitList;
use crate::waking::wake_all;
use crate::woken::WokenThreads;
use ipc_counts::Want;
use object_box::Make;
use rt_base::{Class, Code, Name, WaitOrder};

impl Tables {
    /// Receives flags of the event object of a name without waiting: `None` exactly where there is none, and `Some(None)`
    /// exactly where its flags don't satisfy the receiver.
    pub fn receive(&mut self, name: &Name, want: Want) -> Option<Option<u32>>
        ensures answer { result ≡ option_map (flags_got (plain_want want)) (found_event self.old.events name.now) }
        ensures state { self.new ≡ record self.old { events = events_received self.old.events (plain_want want) (found_event self.old.events name.now) } }
    {
        let no = self.lists.objects.find(Class::Event, name)?;
        Some(self.lists.events[no.0 as usize].try_recv(want))
    }

    /// Sets flags of the event object of a name, and wakes all whom they satisfy with 0 and with the flags that each
    /// wanted: false exactly where there is none. `woken` gets them in the order of their list.
    pub fn send(&mut self, name: &Name, mask: u32, woken: &mut WokenThreads) -> bool
        ensures answer { result ≡ is_some (found_event self.old.events name.now) }
        ensures missing { OnFalse result (self.new ≡ self.old) }
        ensures woken { (event : PlainEvent) → found_event self.old.events name.now ≡ Some event → woken.new ≡ woken_on self.old.threads event mask }
        ensures state { (event : PlainEvent) → found_event self.old.events name.now ≡ Some event → self.new ≡ sent_to self.old event mask }
        ensures few { (event : PlainEvent) → found_event self.old.events name.now ≡ Some event → length woken.new ≤ length self.old.threads }
    {
        let Some(no) = self.lists.objects.find(Class::Event, name) else {
            return false;
        };
        let _ = self.threads.len();
        woken.send(&mut self.lists.events[no.0 as usize], mask);
        for i in 0..woken.len() {
            let (t, flags) = woken.at(i);
            self.threads.give(t, flags);
        }
        enter_given(&mut self.ready, &self.threads, woken);
        true
    }

    /// Makes an event object of a name and an order, without flags.
    pub fn create_event(&mut self, name: Name, order: WaitOrder) -> Result<(), Make>
        ensures { let event : PlainEvent = record { name = name; flags = 0; order = order } in CreatesEvent self.old self.new event result }
    {
        let no = self.lists.objects.make(Class::Event, name)?;
        self.lists.events[no.0 as usize].reset(order);
        let _ = self.lists.objects.count(Class::Event);
        Ok(())
    }

    /// Drops the event object of a name, and wakes all its waiters with -1: false exactly where there is none. `woken`
    /// gets them in the order of their list.
    pub fn delete_event(&mut self, name: &Name, woken: &mut ThreadList) -> bool
        ensures answer { result ≡ is_some (found_event self.old.events name.now) }
        ensures missing { OnFalse result (self.new ≡ self.old) }
        ensures woken { (event : PlainEvent) → found_event self.old.events name.now ≡ Some event → woken.new ≡ event_line self.old.threads event }
        ensures state { OnTrue result (self.new ≡ without_event self.old name.now woken.new) }
        ensures few { length woken.new ≤ length self.old.threads }
    {
        let Some(no) = self.lists.objects.find(Class::Event, name) else {
            woken.clear();
            return false;
        };
        wake_all(
            &mut self.threads,
            &mut self.lists,
            WaitList::Event,
            no,
            Code::Error,
            woken,
        );
        enter_all(&mut self.ready, &self.threads, woken);
        self.lists.objects.remove(Class::Event, no);
        let _ = self.lists.objects.count(Class::Event);
        true
    }
}
