//! A machine made by hand, as the shell sees it.
ghost use Rattle.std.specs.Prelude.{◌≡◌, ◌<◌, length, slice_get, Some, IsTrue};
ghost use Rattle.rt_base.specs.Grammar.{is_name};
ghost use Rattle.rt_base.specs.declared.codes.Class.{Class as Kind};
ghost use Rattle.finsh_tests.specs.Hand.{hand_rows, hand_votes, hand_mode};

use rt_base::{Class, Code, CoreNo, Name, Prio, Sleep};
use rt_plain::{Row, ThreadState, View};

fn name(text: &[u8]) -> Name
    requires { IsTrue (is_name text.now) }
    ensures { result ≡ text.now }
{
    let Some(name) = Name::read(text) else {
        unreachable!();
    };
    name
}

fn thread(place: usize) -> Row
    requires { place < length (hand_rows Kind.Thread) }
    ensures { slice_get (hand_rows Kind.Thread) place ≡ Some result }
{
    match place {
        0 => Row::Thread {
            name: name(b"late"),
            cur: Prio(30),
            base: Prio(30),
            state: ThreadState::Initial,
            core: None,
            left: 255,
            code: Code::Ok,
        },
        1 => Row::Thread {
            name: name(b"blink"),
            cur: Prio(5),
            base: Prio(15),
            state: ThreadState::Ready,
            core: Some(CoreNo(0)),
            left: 10,
            code: Code::Timeout,
        },
        2 => Row::Thread {
            name: name(b"tshell"),
            cur: Prio(20),
            base: Prio(20),
            state: ThreadState::Running,
            core: None,
            left: 9,
            code: Code::Ok,
        },
        _ => Row::Thread {
            name: name(b"comms_01"),
            cur: Prio(254),
            base: Prio(254),
            state: ThreadState::Suspended,
            core: Some(CoreNo(7)),
            left: 1,
            code: Code::Inval,
        },
    }
}

fn sem(place: usize) -> Row
    requires { place < length (hand_rows Kind.Sem) }
    ensures { slice_get (hand_rows Kind.Sem) place ≡ Some result }
{
    match place {
        0 => Row::Sem {
            name: name(b"s"),
            value: 3,
            waiters: 0,
        },
        _ => Row::Sem {
            name: name(b"tickets"),
            value: 65535,
            waiters: 256,
        },
    }
}

fn event(place: usize) -> Row
    requires { place < length (hand_rows Kind.Event) }
    ensures { slice_get (hand_rows Kind.Event) place ≡ Some result }
{
    match place {
        0 => Row::Event {
            name: name(b"e"),
            flags: 0xbeef,
            waiters: 2,
        },
        1 => Row::Event {
            name: name(b"none"),
            flags: 0,
            waiters: 0,
        },
        _ => Row::Event {
            name: name(b"all"),
            flags: 0xffff_ffff,
            waiters: 12,
        },
    }
}

fn mutex(place: usize) -> Row
    requires { place < length (hand_rows Kind.Mutex) }
    ensures { slice_get (hand_rows Kind.Mutex) place ≡ Some result }
{
    match place {
        0 => Row::Mutex {
            name: name(b"m"),
            owner: None,
            hold: 0,
            ceiling: Prio(31),
            waiters: 0,
        },
        _ => Row::Mutex {
            name: name(b"bus"),
            owner: Some(name(b"comms_01")),
            hold: 255,
            ceiling: Prio(5),
            waiters: 3,
        },
    }
}

fn timer(place: usize) -> Row
    requires { place < length (hand_rows Kind.Timer) }
    ensures { slice_get (hand_rows Kind.Timer) place ≡ Some result }
{
    match place {
        0 => Row::Timer {
            name: name(b"a"),
            periodic: false,
            soft: false,
            time: 5,
            due: Some(4294967295),
        },
        1 => Row::Timer {
            name: name(b"b"),
            periodic: true,
            soft: false,
            time: 2147483647,
            due: None,
        },
        2 => Row::Timer {
            name: name(b"c"),
            periodic: false,
            soft: true,
            time: 1,
            due: None,
        },
        _ => Row::Timer {
            name: name(b"d"),
            periodic: true,
            soft: true,
            time: 25,
            due: Some(0),
        },
    }
}

fn device(place: usize) -> Row
    requires { place < length (hand_rows Kind.Device) }
    ensures { slice_get (hand_rows Kind.Device) place ≡ Some result }
{
    match place {
        0 => Row::Device {
            name: name(b"uart1"),
            console: false,
            opened: 0,
            rx: 0,
            tx: 64,
        },
        _ => Row::Device {
            name: name(b"console"),
            console: true,
            opened: 1,
            rx: 128,
            tx: 0,
        },
    }
}

/// Some rows of each class.
#[derive(Clone, Copy)]
pub(crate) struct Hand;

impl View for Hand {
    ghost rows = { λ hand class. hand_rows class };

    ghost votes_for = { λ hand mode. hand_votes mode };

    ghost mode_of = { λ hand. hand_mode };

    fn count(&self, class: Class) -> usize {
        match class {
            Class::Thread | Class::Timer => 4,
            Class::Event => 3,
            Class::Sem | Class::Mutex | Class::Device => 2,
            Class::Mailbox | Class::MsgQueue => 1,
        }
    }

    fn row(&self, class: Class, place: usize) -> Row {
        match class {
            Class::Thread => thread(place),
            Class::Sem => sem(place),
            Class::Event => event(place),
            Class::Mutex => mutex(place),
            Class::Mailbox => Row::Mailbox {
                name: name(b"mb"),
                used: 0,
                size: 64,
                receivers: 1,
                senders: 0,
            },
            Class::MsgQueue => Row::MsgQueue {
                name: name(b"q"),
                used: 4,
                size: 4,
                max: 16,
                receivers: 0,
                senders: 10,
            },
            Class::Timer => timer(place),
            Class::Device => device(place),
        }
    }

    fn votes(&self, mode: Sleep) -> u8 {
        match mode {
            Sleep::Light => 2,
            Sleep::Deep => 255,
            _ => 0,
        }
    }

    fn mode(&self) -> Sleep {
        Sleep::Light
    }
}
