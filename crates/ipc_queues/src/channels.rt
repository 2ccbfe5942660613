ghost use Rattle.std.specs.Prelude.{ℕ, ◌≡◌, ◌<◌, ◌≤◌, ◌∷◌, ◌++◌, false, [], length, All, drop, slice_get, slice_set, None, Some, IfOk, IfSome, IfNone, IsTrue, OnOk, OnErr};
ghost use Rattle.std.specs.Bool.{OnTrue, OnFalse};
ghost use Rattle.rt_plain.specs.kernel.Waiting.{head_of};
ghost use Rattle.susp_list.specs.Rows.{line, holds, with_prio};
ghost use Rattle.susp_list.specs.declared.row.Row.{Row};
ghost use Rattle.ipc_queues.specs.Channels.{mail_at, messages_at, slots_of, ends_at, waits_at, changed_at, with_mailbox, with_queue, has_room, put_answer};
ghost use Rattle.ipc_queues.specs.Ends.{empty_ends};

use crate::ends::{End, Ends};
use crate::fault::PutFault;
use crate::mailbox::Mailbox;
use crate::msg_queue::MsgQueue;
use rt_base::{ObjNo, Prio, Text, ThreadNo, WaitOrder};
use std::alloc::{AllocError, Global};
use std::marker::Model;

/// What has two ends.
#[derive(Clone, Copy, Debug, PartialEq, Eq)]
pub enum ChannelKind {
    Mailbox,
    MsgQueue,
}

/// A mailbox, and who waits at its ends.
#[derive(Drop)]
pub struct MailSlot {
    pub mailbox: Mailbox,
    pub ends: Ends,
}

/// A message queue, and who waits at its ends.
#[derive(Drop)]
pub struct MessageSlot {
    pub queue: MsgQueue,
    pub ends: Ends,
}

/// Mailboxes and message queues by number, with who waits at their ends. Contracts see the slots.
#[derive(Drop)]
pub struct Channels {
    mails: Vec<MailSlot>,
    messages: Vec<MessageSlot>,
}

impl Model for Channels {
    ghost use Rattle.ipc_queues.specs.Channels.{PlainChannels};

    ghost Value = { PlainChannels };

    ghost view = { λ c. record { mails = c.mails.items; messages = c.messages.items } };
}

// So many mailboxes for no word, with room for the threads below a number.
fn free_mails(alloc: Global, count: u16, threads: u16) -> Result<Vec<MailSlot>, AllocError>
    ensures len { IfOk result (λ mails. length mails.items ≡ count) }
    ensures free { IfOk result (λ mails. All (λ slot. slot.ends ≡ empty_ends threads) mails.items) }
{
    let mut mails = Vec::with_capacity(alloc, count as usize)?;
    for _ in 0..count {
        let mailbox = Mailbox::new(alloc, 0)?;
        let ends = Ends::new(alloc, threads)?;
        mails.push_reserved(MailSlot { mailbox, ends });
    }
    Ok(mails)
}

// So many message queues for no message, with room for the threads below a number.
fn free_messages(alloc: Global, count: u16, threads: u16) -> Result<Vec<MessageSlot>, AllocError>
    ensures len { IfOk result (λ messages. length messages.items ≡ count) }
    ensures free { IfOk result (λ messages. All (λ slot. slot.ends ≡ empty_ends threads) messages.items) }
{
    let mut messages = Vec::with_capacity(alloc, count as usize)?;
    for _ in 0..count {
        let queue = MsgQueue::new(alloc, 0, 0)?;
        let ends = Ends::new(alloc, threads)?;
        messages.push_reserved(MessageSlot { queue, ends });
    }
    Ok(messages)
}

impl Channels {
    /// So many mailboxes and queues, each for nothing yet, at whose ends nobody waits, with room for the threads below a
    /// number. No other call takes memory.
    pub fn new(
        alloc: Global,
        mailboxes: u16,
        queues: u16,
        threads: u16,
    ) -> Result<Channels, AllocError>
        ensures mailboxes { IfOk result (λ c. slots_of c ChannelKind.Mailbox ≡ mailboxes) }
        ensures queues { IfOk result (λ c. slots_of c ChannelKind.MsgQueue ≡ queues) }
        ensures free { IfOk result (λ c. (kind : ChannelKind) (i : ℕ) → i < slots_of c kind → ends_at c kind i ≡ empty_ends threads) }
    {
        let mails = free_mails(alloc, mailboxes, threads)?;
        let messages = free_messages(alloc, queues, threads)?;
        Ok(Channels { mails, messages })
    }

    // The two ends of one.
    fn ends(&self, kind: ChannelKind, no: ObjNo) -> &Ends
        requires { no < slots_of self.now kind }
        ensures { result.now ≡ ends_at self.now kind no }
    {
        match kind {
            ChannelKind::Mailbox => &self.mails[no.0 as usize].ends,
            ChannelKind::MsgQueue => &self.messages[no.0 as usize].ends,
        }
    }

    /// How many threads wait at an end.
    pub fn waiters(&self, kind: ChannelKind, end: End, no: ObjNo) -> u16
        requires { no < slots_of self.now kind }
        ensures { result ≡ length (line (waits_at self.now kind end no)) }
    {
        self.ends(kind, no).len(end)
    }

    /// The first who waits at an end: `None` exactly where nobody does.
    pub fn first(&self, kind: ChannelKind, end: End, no: ObjNo) -> Option<ThreadNo>
        requires { no < slots_of self.now kind }
        ensures first { result ≡ head_of (line (waits_at self.now kind end no)) }
        ensures held { IfSome result (λ t. IsTrue (holds (waits_at self.now kind end no) t)) }
    {
        self.ends(kind, no).first(end)
    }

    /// A thread leaves an end.
    pub fn leave(&mut self, kind: ChannelKind, end: End, no: ObjNo, t: ThreadNo)
        requires there { no < slots_of self.old kind }
        requires held { IsTrue (holds (waits_at self.old kind end no) t) }
        ensures { self.new ≡ changed_at self.old kind end no (λ w. record w { rows = slice_set w.rows t None }) }
    {
        match kind {
            ChannelKind::Mailbox => self.mails[no.0 as usize].ends.leave(end, t),
            ChannelKind::MsgQueue => self.messages[no.0 as usize].ends.leave(end, t),
        }
    }

    /// A thread waits at an end, with its priority and its arrival number.
    pub fn join(&mut self, kind: ChannelKind, end: End, no: ObjNo, t: ThreadNo, prio: Prio, at: u64)
        requires there { no < slots_of self.old kind }
        requires room { t < length (waits_at self.old kind end no).rows }
        requires free { holds (waits_at self.old kind end no) t ≡ false }
        ensures { let row : Row = record { prio = prio; at = at } in
            self.new ≡ changed_at self.old kind end no (λ w. record w { rows = slice_set w.rows t (Some row) }) }
    {
        match kind {
            ChannelKind::Mailbox => self.mails[no.0 as usize].ends.join(end, t, prio, at),
            ChannelKind::MsgQueue => self.messages[no.0 as usize].ends.join(end, t, prio, at),
        }
    }

    /// A thread that waits at an end has another priority there. It keeps its arrival number.
    pub fn reprio(&mut self, kind: ChannelKind, end: End, no: ObjNo, t: ThreadNo, prio: Prio)
        requires there { no < slots_of self.old kind }
        requires held { IsTrue (holds (waits_at self.old kind end no) t) }
        ensures { self.new ≡ changed_at self.old kind end no (λ w. record w { rows = slice_set w.rows t (with_prio (slice_get w.rows t) prio) }) }
    {
        match kind {
            ChannelKind::Mailbox => self.mails[no.0 as usize].ends.reprio(end, t, prio),
            ChannelKind::MsgQueue => self.messages[no.0 as usize].ends.reprio(end, t, prio),
        }
    }

    /// The mailbox of a number.
    pub fn mailbox(&self, no: ObjNo) -> &Mailbox
        requires { no < slots_of self.now ChannelKind.Mailbox }
        ensures { result.now ≡ (mail_at self.now.mails no).mailbox }
    {
        &self.mails[no.0 as usize].mailbox
    }

    /// The message queue of a number.
    pub fn queue(&self, no: ObjNo) -> &MsgQueue
        requires { no < slots_of self.now ChannelKind.MsgQueue }
        ensures { result.now ≡ (messages_at self.now.messages no).queue }
    {
        &self.messages[no.0 as usize].queue
    }

    /// Another mailbox gets the number, with an order for its ends, at which nobody waits.
    pub fn put_mailbox(&mut self, no: ObjNo, mailbox: Mailbox, order: WaitOrder)
        requires there { no < slots_of self.old ChannelKind.Mailbox }
        requires receivers { length (line (waits_at self.old ChannelKind.Mailbox End.Receivers no)) ≡ 0 }
        requires senders { length (line (waits_at self.old ChannelKind.Mailbox End.Senders no)) ≡ 0 }
        ensures { self.new ≡ record self.old { mails = slice_set self.old.mails no (record { mailbox = mailbox; ends = record (mail_at self.old.mails no).ends { order = order } }) } }
    {
        let slot = &mut self.mails[no.0 as usize];
        slot.mailbox = mailbox;
        slot.ends.reset(order);
    }

    /// Another message queue gets the number, with an order for its ends, at which nobody waits.
    pub fn put_queue(&mut self, no: ObjNo, queue: MsgQueue, order: WaitOrder)
        requires there { no < slots_of self.old ChannelKind.MsgQueue }
        requires receivers { length (line (waits_at self.old ChannelKind.MsgQueue End.Receivers no)) ≡ 0 }
        requires senders { length (line (waits_at self.old ChannelKind.MsgQueue End.Senders no)) ≡ 0 }
        ensures { self.new ≡ record self.old { messages = slice_set self.old.messages no (record { queue = queue; ends = record (messages_at self.old.messages no).ends { order = order } }) } }
    {
        let slot = &mut self.messages[no.0 as usize];
        slot.queue = queue;
        slot.ends.reset(order);
    }

    /// Puts a word at the end of a mailbox: false exactly where it is full, and stays so.
    pub fn send_mail(&mut self, no: ObjNo, word: u32) -> bool
        requires { no < slots_of self.old ChannelKind.Mailbox }
        ensures room { result ≡ has_room (mail_at self.old.mails no).mailbox }
        ensures sent { let mailbox = (mail_at self.old.mails no).mailbox in OnTrue result (self.new ≡ with_mailbox self.old no (record mailbox { words = mailbox.words ++ word ∷ [] })) }
        ensures full { OnFalse result (self.new ≡ self.old) }
    {
        self.mails[no.0 as usize].mailbox.try_send(word).is_ok()
    }

    /// Puts a word at the front of a mailbox: false exactly where it is full, and stays so.
    pub fn urgent_mail(&mut self, no: ObjNo, word: u32) -> bool
        requires { no < slots_of self.old ChannelKind.Mailbox }
        ensures room { result ≡ has_room (mail_at self.old.mails no).mailbox }
        ensures sent { let mailbox = (mail_at self.old.mails no).mailbox in OnTrue result (self.new ≡ with_mailbox self.old no (record mailbox { words = word ∷ mailbox.words })) }
        ensures full { OnFalse result (self.new ≡ self.old) }
    {
        self.mails[no.0 as usize].mailbox.try_urgent(word).is_ok()
    }

    /// Takes the word at the front of a mailbox: `None` exactly where it is empty.
    pub fn receive_mail(&mut self, no: ObjNo) -> Option<u32>
        requires { no < slots_of self.old ChannelKind.Mailbox }
        ensures word { result ≡ slice_get (mail_at self.old.mails no).mailbox.words 0 }
        ensures taken { let mailbox = (mail_at self.old.mails no).mailbox in IfSome result (λ _. self.new ≡ with_mailbox self.old no (record mailbox { words = drop 1 mailbox.words })) }
        ensures empty { IfNone result (self.new ≡ self.old) }
    {
        self.mails[no.0 as usize].mailbox.try_recv().ok()
    }

    /// Puts a copy of a text at the end of a message queue. `TooLong` and `Full` come exactly where they come from
    /// `MsgQueue::try_send`.
    pub fn send_message(&mut self, no: ObjNo, text: &Text) -> Result<(), PutFault>
        requires { no < slots_of self.old ChannelKind.MsgQueue }
        ensures answer { result ≡ put_answer (messages_at self.old.messages no).queue text.now }
        ensures sent { let queue = (messages_at self.old.messages no).queue in OnOk result (self.new ≡ with_queue self.old no (record queue { messages = queue.messages ++ text.now ∷ [] })) }
        ensures refused { OnErr result (self.new ≡ self.old) }
    {
        self.messages[no.0 as usize].queue.try_send(text)
    }

    /// Puts a copy of a text at the front of a message queue. `TooLong` and `Full` come exactly where they come from
    /// `MsgQueue::try_send`.
    pub fn urgent_message(&mut self, no: ObjNo, text: &Text) -> Result<(), PutFault>
        requires { no < slots_of self.old ChannelKind.MsgQueue }
        ensures answer { result ≡ put_answer (messages_at self.old.messages no).queue text.now }
        ensures sent { let queue = (messages_at self.old.messages no).queue in OnOk result (self.new ≡ with_queue self.old no (record queue { messages = text.now ∷ queue.messages })) }
        ensures refused { OnErr result (self.new ≡ self.old) }
    {
        self.messages[no.0 as usize].queue.try_urgent(text)
    }

    /// Takes the message at the front of a message queue: `None` exactly where it is empty.
    pub fn receive_message(&mut self, no: ObjNo) -> Option<Text>
        requires { no < slots_of self.old ChannelKind.MsgQueue }
        ensures message { result ≡ slice_get (messages_at self.old.messages no).queue.messages 0 }
        ensures taken { let queue = (messages_at self.old.messages no).queue in IfSome result (λ _. self.new ≡ with_queue self.old no (record queue { messages = drop 1 queue.messages })) }
        ensures empty { IfNone result (self.new ≡ self.old) }
    {
        self.messages[no.0 as usize].queue.try_recv().ok()
    }
}
