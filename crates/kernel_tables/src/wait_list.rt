ghost use Rattle.std.specs.Prelude.{◌≡◌};
ghost use Rattle.kernel_tables.specs.WaitLists.{class_of};

use ipc_queues::{ChannelKind, End};
use rt_base::Class;

/// A list in which threads wait for an object: one value for each list that a class has.
#[derive(Clone, Copy)]
pub enum WaitList {
    /// Those who take a semaphore.
    Sem,
    /// Those who receive flags of an event object.
    Event,
    /// Those at an end of a mailbox or a message queue.
    Channel(ChannelKind, End),
}

impl WaitList {
    // The class whose objects have the list.
    pub fn class(self) -> Class
        ensures { result ≡ class_of self }
    {
        match self {
            WaitList::Sem => Class::Sem,
            WaitList::Event => Class::Event,
            WaitList::Channel(ChannelKind::Mailbox, _) => Class::Mailbox,
            WaitList::Channel(ChannelKind::MsgQueue, _) => Class::MsgQueue,
        }
    }
}
