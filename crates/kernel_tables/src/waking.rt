ghost use Rattle.std.specs.Prelude.{ℕ, ◌≡◌, ◌+◌, ◌<◌, ◌≤◌, ◌++◌, [], false, length, Some};
ghost use Rattle.susp_list.specs.Rows.{line};
ghost use Rattle.ipc_queues.specs.Channels.{slots_of, waits_at};
ghost use Rattle.kernel_tables.specs.Listed.{waits_in, slots_in, IsShownAs};
ghost use Rattle.kernel_tables.specs.Tabled.{all_woken};
ghost use Rattle.kernel_tables.specs.Tied.{IsTied};
ghost use Rattle.kernel_tables.specs.WaitLists.{is_at};

use crate::lists::Lists;
use crate::thread_list::ThreadList;
use crate::threads::Threads;
use crate::wait_list::WaitList;
use ipc_queues::{ChannelKind, End};
use rt_base::{Code, ObjNo};

// All threads of a list wake with a code. `woken` gets them in the order of the list.
pub fn wake_all(
    threads: &mut Threads,
    lists: &mut Lists,
    list: WaitList,
    no: ObjNo,
    code: Code,
    woken: &mut ThreadList,
)
    requires tied { IsTied threads.old lists.old }
    requires there { no < slots_in lists.old list }
    ensures woken { woken.new ≡ line (waits_in lists.old list no) }
    ensures few { length woken.new ≤ length threads.old }
    ensures threads { threads.new ≡ all_woken code threads.old woken.new }
    ensures shown { IsShownAs lists.old lists.new }
    ensures empty { line (waits_in lists.new list no) ≡ [] }
    ensures tied { IsTied threads.new lists.new }
    ensures others { (other : WaitList) (j : ℕ) → is_at other j (Some (list, no)) ≡ false → waits_in lists.new other j ≡ waits_in lists.old other j }
{
    woken.clear();
    wake_more(threads, lists, list, no, code, woken);
}

// All threads of a list wake with a code. `woken` gets them behind those that it has, in the order of the list.
pub fn wake_more(
    threads: &mut Threads,
    lists: &mut Lists,
    list: WaitList,
    no: ObjNo,
    code: Code,
    woken: &mut ThreadList,
)
    requires tied { IsTied threads.old lists.old }
    requires there { no < slots_in lists.old list }
    requires room { length woken.old ≤ 256 }
    ensures woken { woken.new ≡ woken.old ++ line (waits_in lists.old list no) }
    ensures few { length woken.new ≤ length woken.old + length threads.old }
    ensures threads { threads.new ≡ all_woken code threads.old (line (waits_in lists.old list no)) }
    ensures shown { IsShownAs lists.old lists.new }
    ensures empty { line (waits_in lists.new list no) ≡ [] }
    ensures tied { IsTied threads.new lists.new }
    ensures others { (other : WaitList) (j : ℕ) → is_at other j (Some (list, no)) ≡ false → waits_in lists.new other j ≡ waits_in lists.old other j }
{
    // There is room in the queue for all threads.
    let _ = threads.len();
    while let Some(t) = lists.take_first(list, no) {
        threads.wake(t, code);
        woken.push_last(t);
    }
}

// All who wait at the two ends of a mailbox or a message queue wake with -1. `woken` gets the receivers in the order of
// their list, and then the senders in that of theirs.
pub fn wake_ends(
    threads: &mut Threads,
    lists: &mut Lists,
    kind: ChannelKind,
    no: ObjNo,
    woken: &mut ThreadList,
)
    requires tied { IsTied threads.old lists.old }
    requires there { no < slots_of lists.old.channels kind }
    ensures woken { woken.new ≡ line (waits_at lists.old.channels kind End.Receivers no) ++ line (waits_at lists.old.channels kind End.Senders no) }
    ensures few { length woken.new ≤ length threads.old }
    ensures threads { threads.new ≡ all_woken Code.Error threads.old woken.new }
    ensures shown { IsShownAs lists.old lists.new }
    ensures empty { (end : End) → line (waits_at lists.new.channels kind end no) ≡ [] }
    ensures tied { IsTied threads.new lists.new }
{
    let receivers = WaitList::Channel(kind, End::Receivers);
    let senders = WaitList::Channel(kind, End::Senders);
    let _ = threads.len();
    wake_all(threads, lists, receivers, no, Code::Error, woken);
    wake_more(threads, lists, senders, no, Code::Error, woken);
}
