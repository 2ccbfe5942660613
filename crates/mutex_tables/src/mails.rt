ghost use Rattle.std.specs.Prelude.{◌≡◌, ◌<◌, ◌≤◌, ◌∷◌, ◌++◌, [], length, true, is_some, slice_get, IfSome, Some};
ghost use Rattle.std.specs.Bool.{OnTrue, OnFalse};
ghost use Rattle.std.specs.Option.{option_map};
ghost use Rattle.rt_plain.specs.kernel.State.{Mailbox as PlainMailbox};
ghost use Rattle.rt_plain.specs.kernel.MailboxCalls.{has_mail_room};
ghost use Rattle.rt_plain.specs.kernel.Waiting.{head_of};
ghost use Rattle.kernel_tables.specs.Repeated.{is_repeated};
ghost use Rattle.kernel_tables.specs.Tabled.{found_mailbox, mails_put, mails_taken};
ghost use Rattle.kernel_tables.specs.Threads.{row_at};
ghost use Rattle.mutex_tables.specs.Woken.{mail_waiters, without_mailbox};

use crate::tables::MutexTables;
use ipc_queues::End;
use kernel_tables::ThreadList;
use rt_base::{Name, ThreadNo};

impl MutexTables {
    /// Puts a word at the end of the mailbox of a name: `None` exactly where there is none, and false exactly where it is
    /// full, and stays so.
    pub fn send_mail(&mut self, name: &Name, word: u32) -> Option<bool>
        ensures answer { result ≡ option_map has_mail_room (found_mailbox self.old.mailboxes name.now) }
        ensures state { self.new ≡ record self.old { mailboxes = mails_put self.old.mailboxes (λ words. words ++ word ∷ []) (found_mailbox self.old.mailboxes name.now) } }
    {
        self.tables.send_mail(name, word)
    }

    /// Puts a word at the front of the mailbox of a name: `None` exactly where there is none, and false exactly where it
    /// is full, and stays so.
    pub fn urgent_mail(&mut self, name: &Name, word: u32) -> Option<bool>
        ensures answer { result ≡ option_map has_mail_room (found_mailbox self.old.mailboxes name.now) }
        ensures state { self.new ≡ record self.old { mailboxes = mails_put self.old.mailboxes (λ words. word ∷ words) (found_mailbox self.old.mailboxes name.now) } }
    {
        self.tables.urgent_mail(name, word)
    }

    /// Takes the word at the front of the mailbox of a name: `None` exactly where there is none, and `Some(None)` exactly
    /// where it is empty.
    pub fn receive_mail(&mut self, name: &Name) -> Option<Option<u32>>
        ensures answer { result ≡ option_map (λ mailbox. slice_get mailbox.words 0) (found_mailbox self.old.mailboxes name.now) }
        ensures state { self.new ≡ record self.old { mailboxes = mails_taken self.old.mailboxes (found_mailbox self.old.mailboxes name.now) } }
    {
        self.tables.receive_mail(name)
    }

    /// The first who waits at an end of the mailbox of a name: `None` where nobody does, or there is no such mailbox.
    pub fn first_at_mailbox(&self, name: &Name, end: End) -> Option<ThreadNo>
        ensures first { (mailbox : PlainMailbox) → found_mailbox self.now.mailboxes name.now ≡ Some mailbox → result ≡ head_of (mail_waiters self.now mailbox end) }
        ensures there { IfSome result (λ t. t < length self.now.threads) }
        ensures waits { IfSome result (λ t. is_repeated (row_at self.now.threads t).stage ≡ true) }
    {
        self.tables.first_at_mailbox(name, end)
    }

    /// Drops the mailbox of a name, and wakes all who wait at its ends with -1: false exactly where there is none. `woken`
    /// gets the receivers in the order of their list, and then the senders in that of theirs.
    pub fn delete_mailbox(&mut self, name: &Name, woken: &mut ThreadList) -> bool
        ensures answer { result ≡ is_some (found_mailbox self.old.mailboxes name.now) }
        ensures missing { OnFalse result (self.new ≡ self.old) }
        ensures woken { (mailbox : PlainMailbox) → found_mailbox self.old.mailboxes name.now ≡ Some mailbox → woken.new ≡ mail_waiters self.old mailbox End.Receivers ++ mail_waiters self.old mailbox End.Senders }
        ensures state { OnTrue result (self.new ≡ without_mailbox self.old name.now woken.new) }
        ensures few { length woken.new ≤ length self.old.threads }
    {
        self.tables.delete_mailbox(name, woken)
    }
}
