ghost use Rattle.std.specs.Prelude.{◌≡◌, ◌<◌, ◌≤◌, ◌∷◌, ◌++◌, [], length, true, is_some, slice_get, IfSome, Some};
ghost use Rattle.std.specs.Bool.{OnTrue, OnFalse};
ghost use Rattle.std.specs.Option.{option_map};
ghost use Rattle.rt_plain.specs.kernel.State.{MsgQueue as PlainQueue};
ghost use Rattle.rt_plain.specs.kernel.Waiting.{head_of};
ghost use Rattle.kernel_tables.specs.Repeated.{is_repeated};
ghost use Rattle.kernel_tables.specs.Tabled.{found_queue, message_answer, messages_put, messages_taken};
ghost use Rattle.kernel_tables.specs.Threads.{row_at};
ghost use Rattle.mutex_tables.specs.Woken.{message_waiters, without_queue};

use crate::tables::MutexTables;
use ipc_queues::{End, PutFault};
use kernel_tables::ThreadList;
use rt_base::{Name, Text, ThreadNo};

impl MutexTables {
    /// Puts a copy of a text at the end of the message queue of a name: `None` exactly where there is none. `TooLong` comes
    /// exactly where it has more bytes than the queue allows, and else `Full` exactly where the queue is full.
    pub fn send_message(&mut self, name: &Name, text: &Text) -> Option<Result<(), PutFault>>
        ensures answer { result ≡ option_map (message_answer text.now) (found_queue self.old.queues name.now) }
        ensures state { self.new ≡ record self.old { queues = messages_put self.old.queues text.now (λ messages. messages ++ text.now ∷ []) (found_queue self.old.queues name.now) } }
    {
        self.tables.send_message(name, text)
    }

    /// Puts a copy of a text at the front of the message queue of a name: `None` exactly where there is none. `TooLong` and
    /// `Full` come exactly where they come from `send_message`.
    pub fn urgent_message(&mut self, name: &Name, text: &Text) -> Option<Result<(), PutFault>>
        ensures answer { result ≡ option_map (message_answer text.now) (found_queue self.old.queues name.now) }
        ensures state { self.new ≡ record self.old { queues = messages_put self.old.queues text.now (λ messages. text.now ∷ messages) (found_queue self.old.queues name.now) } }
    {
        self.tables.urgent_message(name, text)
    }

    /// Takes the message at the front of the message queue of a name: `None` exactly where there is none, and `Some(None)` exactly
    /// where it is empty.
    pub fn receive_message(&mut self, name: &Name) -> Option<Option<Text>>
        ensures answer { result ≡ option_map (λ queue. slice_get queue.messages 0) (found_queue self.old.queues name.now) }
        ensures state { self.new ≡ record self.old { queues = messages_taken self.old.queues (found_queue self.old.queues name.now) } }
    {
        self.tables.receive_message(name)
    }

    /// The first who waits at an end of the message queue of a name: `None` where nobody does, or there is no such queue.
    pub fn first_at_queue(&self, name: &Name, end: End) -> Option<ThreadNo>
        ensures first { (queue : PlainQueue) → found_queue self.now.queues name.now ≡ Some queue → result ≡ head_of (message_waiters self.now queue end) }
        ensures there { IfSome result (λ t. t < length self.now.threads) }
        ensures waits { IfSome result (λ t. is_repeated (row_at self.now.threads t).stage ≡ true) }
    {
        self.tables.first_at_queue(name, end)
    }

    /// Drops the message queue of a name, and wakes all who wait at its ends with -1: false exactly where there is none. `woken`
    /// gets the receivers in the order of their list, and then the senders in that of theirs.
    pub fn delete_queue(&mut self, name: &Name, woken: &mut ThreadList) -> bool
        ensures answer { result ≡ is_some (found_queue self.old.queues name.now) }
        ensures missing { OnFalse result (self.new ≡ self.old) }
        ensures woken { (queue : PlainQueue) → found_queue self.old.queues name.now ≡ Some queue → woken.new ≡ message_waiters self.old queue End.Receivers ++ message_waiters self.old queue End.Senders }
        ensures state { OnTrue result (self.new ≡ without_queue self.old name.now woken.new) }
        ensures few { length woken.new ≤ length self.old.threads }
    {
        self.tables.delete_queue(name, woken)
    }
}
