ghost use Rattle.std.specs.Prelude.{◌≡◌, ◌<◌, ◌≤◌, length, slice_get, Some};
ghost use Rattle.std.specs.Option.{option_map};
ghost use Rattle.kernel_tables.specs.ObjectRows.{sem_shown, event_shown, mailbox_shown, queue_shown};

use crate::tables::Tables;
use ipc_queues::{ChannelKind, End};
use rt_base::Class;
use rt_plain::Row;

impl Tables {
    /// How many semaphores there are.
    pub fn sem_count(&self) -> u16
        ensures count { result ≡ length self.now.sems }
        ensures few { result ≤ self.now.sem_limit }
    {
        self.lists.objects.count(Class::Sem)
    }

    /// The row of the semaphore at a place, counted from the newest one.
    pub fn sem_row(&self, place: usize) -> Row
        requires { place < length self.now.sems }
        ensures { option_map (sem_shown self.now.threads) (slice_get self.now.sems place) ≡ Some result }
    {
        let _ = self.sem_count();
        let (no, name) = self.lists.objects.at(Class::Sem, place as u16);
        let sem = &self.lists.sems[no.0 as usize];
        Row::Sem {
            name,
            value: sem.value(),
            waiters: sem.len(),
        }
    }

    /// How many event objects there are.
    pub fn event_count(&self) -> u16
        ensures count { result ≡ length self.now.events }
        ensures few { result ≤ self.now.event_limit }
    {
        self.lists.objects.count(Class::Event)
    }

    /// The row of the event object at a place, counted from the newest one.
    pub fn event_row(&self, place: usize) -> Row
        requires { place < length self.now.events }
        ensures { option_map (event_shown self.now.threads) (slice_get self.now.events place) ≡ Some result }
    {
        let _ = self.event_count();
        let (no, name) = self.lists.objects.at(Class::Event, place as u16);
        let event = &self.lists.events[no.0 as usize];
        Row::Event {
            name,
            flags: event.flags(),
            waiters: event.len(),
        }
    }

    /// How many mailboxes there are.
    pub fn mailbox_count(&self) -> u16
        ensures count { result ≡ length self.now.mailboxes }
        ensures few { result ≤ self.now.mailbox_limit }
    {
        self.lists.objects.count(Class::Mailbox)
    }

    /// The row of the mailbox at a place, counted from the newest one.
    pub fn mailbox_row(&self, place: usize) -> Row
        requires { place < length self.now.mailboxes }
        ensures { option_map (mailbox_shown self.now.threads) (slice_get self.now.mailboxes place) ≡ Some result }
    {
        let _ = self.mailbox_count();
        let (no, name) = self.lists.objects.at(Class::Mailbox, place as u16);
        let channels = &self.lists.channels;
        let mailbox = channels.mailbox(no);
        let used = mailbox.len();
        let size = mailbox.size();
        let receivers = channels.waiters(ChannelKind::Mailbox, End::Receivers, no);
        let senders = channels.waiters(ChannelKind::Mailbox, End::Senders, no);
        Row::Mailbox {
            name,
            used,
            size,
            receivers,
            senders,
        }
    }

    /// How many message queues there are.
    pub fn queue_count(&self) -> u16
        ensures count { result ≡ length self.now.queues }
        ensures few { result ≤ self.now.queue_limit }
    {
        self.lists.objects.count(Class::MsgQueue)
    }

    /// The row of the message queue at a place, counted from the newest one.
    pub fn queue_row(&self, place: usize) -> Row
        requires { place < length self.now.queues }
        ensures { option_map (queue_shown self.now.threads) (slice_get self.now.queues place) ≡ Some result }
    {
        let _ = self.queue_count();
        let (no, name) = self.lists.objects.at(Class::MsgQueue, place as u16);
        let channels = &self.lists.channels;
        let queue = channels.queue(no);
        let used = queue.len();
        let size = queue.size();
        let max = queue.max();
        let receivers = channels.waiters(ChannelKind::MsgQueue, End::Receivers, no);
        let senders = channels.waiters(ChannelKind::MsgQueue, End::Senders, no);
        Row::MsgQueue {
            name,
            used,
            size,
            max,
            receivers,
            senders,
        }
    }
}
