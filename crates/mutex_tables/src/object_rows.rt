ghost use Rattle.std.specs.Prelude.{◌≡◌, ◌<◌, ◌≤◌, Some, length, slice_get, true};
ghost use Rattle.std.specs.Option.{option_map};
ghost use Rattle.rt_plain.specs.kernel.Ownership.{taken_of};
ghost use Rattle.rt_plain.specs.kernel.Rows.{mutex_row as plain_row};
ghost use Rattle.kernel_tables.specs.Threads.{row_at};
ghost use Rattle.mutex_chain.specs.Owners.{has_mutex};
ghost use Rattle.mutex_tables.specs.MutexTabled.{plain_state};
ghost use Rattle.mutex_tables.specs.ObjectRows.{event_shown, mailbox_shown, queue_shown, sem_shown};

use crate::tables::MutexTables;
use kernel_tables::Tables;
use mutex_chain::MutexGraph;
use rt_base::{Class, Name, ObjNo};
use rt_plain::Row;

// The name of the owner of a mutex that is there.
fn owner_name(tables: &Tables, graph: &MutexGraph, mutex: ObjNo) -> Option<Name>
    requires mutex { has_mutex graph.now mutex ≡ true }
    requires members { length graph.now.members ≡ length tables.now.threads }
    ensures { result ≡ option_map (λ h. (row_at tables.now.threads h.owner).name) (taken_of graph.now mutex) }
{
    graph.know_owners();
    let owner = graph.owner(mutex)?;
    Some(tables.threads().name(owner))
}

impl MutexTables {
    /// How many semaphores there are.
    pub fn sem_count(&self) -> u16
        ensures count { result ≡ length self.now.sems }
        ensures few { result ≤ self.now.sem_limit }
    {
        self.tables.sem_count()
    }

    /// The row of the semaphore at a place, counted from the newest one.
    pub fn sem_row(&self, place: usize) -> Row
        requires { place < length self.now.sems }
        ensures { option_map (sem_shown self.now) (slice_get self.now.sems place) ≡ Some result }
    {
        self.tables.sem_row(place)
    }

    /// How many event objects there are.
    pub fn event_count(&self) -> u16
        ensures count { result ≡ length self.now.events }
        ensures few { result ≤ self.now.event_limit }
    {
        self.tables.event_count()
    }

    /// The row of the event object at a place, counted from the newest one.
    pub fn event_row(&self, place: usize) -> Row
        requires { place < length self.now.events }
        ensures { option_map (event_shown self.now) (slice_get self.now.events place) ≡ Some result }
    {
        self.tables.event_row(place)
    }

    /// How many mailboxes there are.
    pub fn mailbox_count(&self) -> u16
        ensures count { result ≡ length self.now.mailboxes }
        ensures few { result ≤ self.now.mailbox_limit }
    {
        self.tables.mailbox_count()
    }

    /// The row of the mailbox at a place, counted from the newest one.
    pub fn mailbox_row(&self, place: usize) -> Row
        requires { place < length self.now.mailboxes }
        ensures { option_map (mailbox_shown self.now) (slice_get self.now.mailboxes place) ≡ Some result }
    {
        self.tables.mailbox_row(place)
    }

    /// How many message queues there are.
    pub fn queue_count(&self) -> u16
        ensures count { result ≡ length self.now.queues }
        ensures few { result ≤ self.now.queue_limit }
    {
        self.tables.queue_count()
    }

    /// The row of the message queue at a place, counted from the newest one.
    pub fn queue_row(&self, place: usize) -> Row
        requires { place < length self.now.queues }
        ensures { option_map (queue_shown self.now) (slice_get self.now.queues place) ≡ Some result }
    {
        self.tables.queue_row(place)
    }

    /// How many mutexes there are.
    pub fn mutex_count(&self) -> u16
        ensures count { result ≡ length self.now.mutexes }
        ensures few { result ≤ self.now.mutex_limit }
    {
        self.names.count(Class::Mutex)
    }

    /// The row of the mutex at a place, counted from the newest one.
    pub fn mutex_row(&self, place: usize) -> Row
        requires { place < length self.now.mutexes }
        ensures { option_map (plain_row (plain_state self.now)) (slice_get self.now.mutexes place) ≡ Some result }
    {
        let _ = self.mutex_count();
        let (no, name) = self.names.at(Class::Mutex, place as u16);
        let owner = owner_name(&self.tables, &self.graph, no);
        let hold = self.graph.hold(no);
        let ceiling = self.graph.ceiling(no);
        let waiters = self.graph.waiters(no);
        Row::Mutex {
            name,
            owner,
            hold,
            ceiling,
            waiters,
        }
    }
}
