ghost use Rattle.std.specs.Prelude.{◌≡◌, ◌<◌, ◌≤◌, ◌∷◌, ◌++◌, [], length, true, is_some, slice_get, IfSome, Some};
ghost use Rattle.std.specs.Bool.{OnTrue, OnFalse};
ghost use Rattle.std.specs.Option.{option_map};
ghost use Rattle.rt_plain.specs.kernel.State.{Mailbox as PlainMailbox};
ghost use Rattle.rt_plain.specs.kernel.MailboxCalls.{has_mail_room};
ghost use Rattle.rt_plain.specs.kernel.Waiting.{head_of};
ghost use Rattle.kernel_tables.specs.Tabled.{found_mailbox, mails_put, mails_taken, mail_line, CreatesMailbox, without_mailbox};
ghost use Rattle.kernel_tables.specs.Repeated.{is_repeated};
ghost use Rattle.kernel_tables.specs.Threads.{row_at};

use crate::ready::enter_all;
use crate::tables::Tables;
use crate::thread_list::ThreadList;
use crate::waking::wake_ends;
use ipc_queues::{ChannelKind, End, Mailbox};
use object_box::Make;
use rt_base::{Class, Name, ThreadNo, WaitOrder};

impl Tables {
    /// Puts a word at the end of the mailbox of a name: `None` exactly where there is none, and false exactly where it is
    /// full, and stays so.
    pub fn send_mail(&mut self, name: &Name, word: u32) -> Option<bool>
        ensures answer { result ≡ option_map has_mail_room (found_mailbox self.old.mailboxes name.now) }
        ensures state { self.new ≡ record self.old { mailboxes = mails_put self.old.mailboxes (λ words. words ++ word ∷ []) (found_mailbox self.old.mailboxes name.now) } }
    {
        let no = self.lists.objects.find(Class::Mailbox, name)?;
        Some(self.lists.channels.send_mail(no, word))
    }

    /// Puts a word at the front of the mailbox of a name: `None` exactly where there is none, and false exactly where it
    /// is full, and stays so.
    pub fn urgent_mail(&mut self, name: &Name, word: u32) -> Option<bool>
        ensures answer { result ≡ option_map has_mail_room (found_mailbox self.old.mailboxes name.now) }
        ensures state { self.new ≡ record self.old { mailboxes = mails_put self.old.mailboxes (λ words. word ∷ words) (found_mailbox self.old.mailboxes name.now) } }
    {
        let no = self.lists.objects.find(Class::Mailbox, name)?;
        Some(self.lists.channels.urgent_mail(no, word))
    }

    /// Takes the word at the front of the mailbox of a name: `None` exactly where there is none, and `Some(None)` exactly
    /// where it is empty.
    pub fn receive_mail(&mut self, name: &Name) -> Option<Option<u32>>
        ensures answer { result ≡ option_map (λ mailbox. slice_get mailbox.words 0) (found_mailbox self.old.mailboxes name.now) }
        ensures state { self.new ≡ record self.old { mailboxes = mails_taken self.old.mailboxes (found_mailbox self.old.mailboxes name.now) } }
    {
        let no = self.lists.objects.find(Class::Mailbox, name)?;
        Some(self.lists.channels.receive_mail(no))
    }

    /// The first who waits at an end of the mailbox of a name: `None` where nobody does, or there is no such mailbox.
    pub fn first_at_mailbox(&self, name: &Name, end: End) -> Option<ThreadNo>
        ensures first { (mailbox : PlainMailbox) → found_mailbox self.now.mailboxes name.now ≡ Some mailbox → result ≡ head_of (mail_line self.now.threads mailbox end) }
        ensures there { IfSome result (λ t. t < length self.now.threads) }
        ensures waits { IfSome result (λ t. is_repeated (row_at self.now.threads t).stage ≡ true) }
    {
        let no = self.lists.objects.find(Class::Mailbox, name)?;
        self.lists.channels.first(ChannelKind::Mailbox, end, no)
    }

    /// Makes an empty mailbox of a name and an order.
    pub(crate) fn create_mailbox(
        &mut self,
        name: Name,
        mailbox: Mailbox,
        order: WaitOrder,
    ) -> Result<(), Make>
        requires { mailbox.words ≡ [] }
        ensures { let made : PlainMailbox = record { name = name; size = mailbox.size; order = order; words = [] } in CreatesMailbox self.old self.new made result }
    {
        let no = self.lists.objects.make(Class::Mailbox, name)?;
        self.lists.channels.put_mailbox(no, mailbox, order);
        // Their numbers and names are still distinct.
        let _ = self.lists.objects.count(Class::Mailbox);
        Ok(())
    }

    /// Drops the mailbox of a name, and wakes all who wait at its ends with -1: false exactly where there is none. `woken`
    /// gets the receivers in the order of their list, and then the senders in that of theirs.
    pub fn delete_mailbox(&mut self, name: &Name, woken: &mut ThreadList) -> bool
        ensures answer { result ≡ is_some (found_mailbox self.old.mailboxes name.now) }
        ensures missing { OnFalse result (self.new ≡ self.old) }
        ensures woken { (mailbox : PlainMailbox) → found_mailbox self.old.mailboxes name.now ≡ Some mailbox → woken.new ≡ mail_line self.old.threads mailbox End.Receivers ++ mail_line self.old.threads mailbox End.Senders }
        ensures state { OnTrue result (self.new ≡ without_mailbox self.old name.now woken.new) }
        ensures few { length woken.new ≤ length self.old.threads }
    {
        let Some(no) = self.lists.objects.find(Class::Mailbox, name) else {
            woken.clear();
            return false;
        };
        wake_ends(
            &mut self.threads,
            &mut self.lists,
            ChannelKind::Mailbox,
            no,
            woken,
        );
        enter_all(&mut self.ready, &self.threads, woken);
        self.lists.objects.remove(Class::Mailbox, no);
        // Their numbers and names are still distinct.
        let _ = self.lists.objects.count(Class::Mailbox);
        true
    }
}
