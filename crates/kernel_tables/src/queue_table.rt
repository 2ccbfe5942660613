ghost use Rattle.std.specs.Prelude.{◌≡◌, ◌<◌, ◌≤◌, ◌∷◌, ◌++◌, [], length, true, is_some, slice_get, IfSome, Some};
ghost use Rattle.std.specs.Bool.{OnTrue, OnFalse};
ghost use Rattle.std.specs.Option.{option_map};
ghost use Rattle.rt_plain.specs.kernel.State.{MsgQueue as PlainQueue};
ghost use Rattle.rt_plain.specs.kernel.Waiting.{head_of};
ghost use Rattle.kernel_tables.specs.Tabled.{found_queue, message_answer, messages_put, messages_taken, message_line, CreatesQueue, without_queue};
ghost use Rattle.kernel_tables.specs.Repeated.{is_repeated};
ghost use Rattle.kernel_tables.specs.Threads.{row_at};

use crate::ready::enter_all;
use crate::tables::Tables;
use crate::thread_list::ThreadList;
use crate::waking::wake_ends;
use ipc_queues::{ChannelKind, End, MsgQueue, PutFault};
use object_box::Make;
use rt_base::{Class, Name, Text, ThreadNo, WaitOrder};

impl Tables {
    /// Puts a copy of a text at the end of the message queue of a name: `None` exactly where there is none. `TooLong` comes
    /// exactly where it has more bytes than the queue allows, and else `Full` exactly where the queue is full.
    pub fn send_message(&mut self, name: &Name, text: &Text) -> Option<Result<(), PutFault>>
        ensures answer { result ≡ option_map (message_answer text.now) (found_queue self.old.queues name.now) }
        ensures state { self.new ≡ record self.old { queues = messages_put self.old.queues text.now (λ messages. messages ++ text.now ∷ []) (found_queue self.old.queues name.now) } }
    {
        let no = self.lists.objects.find(Class::MsgQueue, name)?;
        Some(self.lists.channels.send_message(no, text))
    }

    /// Puts a copy of a text at the front of the message queue of a name: `None` exactly where there is none. `TooLong` and
    /// `Full` come exactly where they come from `send_message`.
    pub fn urgent_message(&mut self, name: &Name, text: &Text) -> Option<Result<(), PutFault>>
        ensures answer { result ≡ option_map (message_answer text.now) (found_queue self.old.queues name.now) }
        ensures state { self.new ≡ record self.old { queues = messages_put self.old.queues text.now (λ messages. text.now ∷ messages) (found_queue self.old.queues name.now) } }
    {
        let no = self.lists.objects.find(Class::MsgQueue, name)?;
        Some(self.lists.channels.urgent_message(no, text))
    }

    /// Takes the message at the front of the message queue of a name: `None` exactly where there is none, and `Some(None)` exactly
    /// where it is empty.
    pub fn receive_message(&mut self, name: &Name) -> Option<Option<Text>>
        ensures answer { result ≡ option_map (λ queue. slice_get queue.messages 0) (found_queue self.old.queues name.now) }
        ensures state { self.new ≡ record self.old { queues = messages_taken self.old.queues (found_queue self.old.queues name.now) } }
    {
        let no = self.lists.objects.find(Class::MsgQueue, name)?;
        Some(self.lists.channels.receive_message(no))
    }

    /// The first who waits at an end of the message queue of a name: `None` where nobody does, or there is no such queue.
    pub fn first_at_queue(&self, name: &Name, end: End) -> Option<ThreadNo>
        ensures first { (queue : PlainQueue) → found_queue self.now.queues name.now ≡ Some queue → result ≡ head_of (message_line self.now.threads queue end) }
        ensures there { IfSome result (λ t. t < length self.now.threads) }
        ensures waits { IfSome result (λ t. is_repeated (row_at self.now.threads t).stage ≡ true) }
    {
        let no = self.lists.objects.find(Class::MsgQueue, name)?;
        self.lists.channels.first(ChannelKind::MsgQueue, end, no)
    }

    /// Makes an empty message queue of a name and an order.
    pub(crate) fn create_queue(
        &mut self,
        name: Name,
        queue: MsgQueue,
        order: WaitOrder,
    ) -> Result<(), Make>
        requires { queue.messages ≡ [] }
        ensures { let made : PlainQueue = record { name = name; max = queue.max; size = queue.size; order = order; messages = [] } in CreatesQueue self.old self.new made result }
    {
        let no = self.lists.objects.make(Class::MsgQueue, name)?;
        self.lists.channels.put_queue(no, queue, order);
        // Their numbers and names are still distinct.
        let _ = self.lists.objects.count(Class::MsgQueue);
        Ok(())
    }

    /// Drops the message queue of a name, and wakes all who wait at its ends with -1: false exactly where there is none. `woken`
    /// gets the receivers in the order of their list, and then the senders in that of theirs.
    pub fn delete_queue(&mut self, name: &Name, woken: &mut ThreadList) -> bool
        ensures answer { result ≡ is_some (found_queue self.old.queues name.now) }
        ensures missing { OnFalse result (self.new ≡ self.old) }
        ensures woken { (queue : PlainQueue) → found_queue self.old.queues name.now ≡ Some queue → woken.new ≡ message_line self.old.threads queue End.Receivers ++ message_line self.old.threads queue End.Senders }
        ensures state { OnTrue result (self.new ≡ without_queue self.old name.now woken.new) }
        ensures few { length woken.new ≤ length self.old.threads }
    {
        let Some(no) = self.lists.objects.find(Class::MsgQueue, name) else {
            woken.clear();
            return false;
        };
        wake_ends(
            &mut self.threads,
            &mut self.lists,
            ChannelKind::MsgQueue,
            no,
            woken,
        );
        enter_all(&mut self.ready, &self.threads, woken);
        self.lists.objects.remove(Class::MsgQueue, no);
        // Their numbers and names are still distinct.
        let _ = self.lists.objects.count(Class::MsgQueue);
        true
    }
}
