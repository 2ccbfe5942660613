ghost use Rattle.std.specs.Prelude.{◌≡◌, ◌<◌, Some};
ghost use Rattle.rt_plain.specs.kernel.Waiting.{head_of};
ghost use Rattle.susp_list.specs.Rows.{line};
ghost use Rattle.kernel_tables.specs.Listed.{waits_in, slots_in, want_in, left, taken, moved, Holds, MayJoin, IsRelisted, IsJoined};
ghost use Rattle.kernel_tables.specs.Threads.{stage_of};
ghost use Rattle.kernel_tables.specs.WaitLists.{list_of, number_at, list_at};

use crate::awaited::Awaited;
use crate::stage::Stage;
use crate::wait_list::WaitList;
use ipc_counts::{EventObj, Sem, Want};
use ipc_queues::{ChannelKind, Channels, End};
use object_box::Objects;
use rt_base::{Name, ObjNo, Prio, ThreadNo};
use rt_plain::Call;

/// The objects that threads wait for, by number, with who waits.
#[derive(Drop)]
pub struct Lists {
    pub objects: Objects,
    pub sems: Vec<Sem>,
    pub events: Vec<EventObj>,
    pub channels: Channels,
}

// The flags that a call wants.
fn want_in(call: &Call) -> Want
    ensures { result ≡ want_in call.now }
{
    match call {
        Call::EventRecv(_, mask, all, clear, _) => Want {
            mask: *mask,
            all: *all,
            clear: *clear,
        },
        _ => Want {
            mask: 0,
            all: true,
            clear: false,
        },
    }
}

impl Lists {
    // A list with the number of the object of a name: `None` where there is none.
    fn at(&self, list: WaitList, name: &Name) -> Option<(WaitList, ObjNo)>
        ensures { result ≡ number_at self.now.objects (Some (list, name.now)) }
    {
        let no = self.objects.find(list.class(), name)?;
        Some((list, no))
    }

    // The list in which a thread waits in a call, with the number of its object: `None` where there is none.
    fn list_of(&self, call: &Call) -> Option<(WaitList, ObjNo)>
        ensures { result ≡ number_at self.now.objects (list_of call.now) }
    {
        match call {
            Call::SemTake(name, _) => self.at(WaitList::Sem, name),
            Call::EventRecv(name, _, _, _, _) => self.at(WaitList::Event, name),
            Call::MbSend(name, _, _) => {
                self.at(WaitList::Channel(ChannelKind::Mailbox, End::Senders), name)
            }
            Call::MbRecv(name, _) => {
                self.at(
                    WaitList::Channel(ChannelKind::Mailbox, End::Receivers),
                    name,
                )
            }
            Call::MqSend(name, _, _) => {
                self.at(WaitList::Channel(ChannelKind::MsgQueue, End::Senders), name)
            }
            Call::MqRecv(name, _) => {
                self.at(
                    WaitList::Channel(ChannelKind::MsgQueue, End::Receivers),
                    name,
                )
            }
            _ => None,
        }
    }

    // The list in which a thread at this stage stands.
    fn list_at(&self, stage: &Stage) -> Option<(WaitList, ObjNo)>
        ensures { result ≡ list_at self.now.objects (stage_of stage.now) }
    {
        match stage {
            Stage::Waiting(Awaited::Call(call), _) => self.list_of(call),
            _ => None,
        }
    }

    // The first thread leaves a list: `None` exactly where nobody waits.
    pub fn take_first(&mut self, list: WaitList, no: ObjNo) -> Option<ThreadNo>
        requires { no < slots_in self.old list }
        ensures first { result ≡ head_of (line (waits_in self.old list no)) }
        ensures state { IsRelisted self.old self.new (Some (list, no)) (taken result) }
    {
        match list {
            WaitList::Sem => {
                let waiters = self.sems[no.0 as usize].waiters();
                let t = waiters.first()?;
                waiters.leave(t);
                Some(t)
            }
            WaitList::Event => {
                let event = &mut self.events[no.0 as usize];
                let t = event.first()?;
                event.leave(t);
                Some(t)
            }
            WaitList::Channel(kind, end) => {
                let t = self.channels.first(kind, end, no)?;
                self.channels.leave(kind, end, no, t);
                Some(t)
            }
        }
    }

    // The thread at this stage leaves its list, if it stands in one.
    pub fn leave_at(&mut self, t: ThreadNo, stage: &Stage)
        requires { Holds self.old (list_at self.old.objects (stage_of stage.now)) t }
        ensures { IsRelisted self.old self.new (list_at self.old.objects (stage_of stage.now)) (left t) }
    {
        match self.list_at(stage) {
            Some((WaitList::Sem, no)) => self.sems[no.0 as usize].waiters().leave(t),
            Some((WaitList::Event, no)) => self.events[no.0 as usize].leave(t),
            Some((WaitList::Channel(kind, end), no)) => self.channels.leave(kind, end, no, t),
            None => {}
        }
    }

    // The thread goes into the list of a call, if that has one.
    pub fn join(&mut self, t: ThreadNo, call: &Call, prio: Prio, at: u64)
        requires { MayJoin self.old (number_at self.old.objects (list_of call.now)) t }
        ensures { IsJoined self.old self.new (number_at self.old.objects (list_of call.now)) t (record { prio = prio; at = at }) (want_in call.now) }
    {
        match self.list_of(call) {
            Some((WaitList::Sem, no)) => self.sems[no.0 as usize].waiters().join(t, prio, at),
            Some((WaitList::Event, no)) => {
                self.events[no.0 as usize].wait(t, want_in(call), prio, at);
            }
            Some((WaitList::Channel(kind, end), no)) => {
                self.channels.join(kind, end, no, t, prio, at);
            }
            None => {}
        }
    }

    // The thread at this stage has another priority in its list, if it stands in one.
    pub fn reprio_at(&mut self, t: ThreadNo, stage: &Stage, prio: Prio)
        requires { Holds self.old (list_at self.old.objects (stage_of stage.now)) t }
        ensures { IsRelisted self.old self.new (list_at self.old.objects (stage_of stage.now)) (moved t prio) }
    {
        match self.list_at(stage) {
            Some((WaitList::Sem, no)) => self.sems[no.0 as usize].waiters().reprio(t, prio),
            Some((WaitList::Event, no)) => self.events[no.0 as usize].reprio(t, prio),
            Some((WaitList::Channel(kind, end), no)) => {
                self.channels.reprio(kind, end, no, t, prio);
            }
            None => {}
        }
    }
}
