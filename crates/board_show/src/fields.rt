//! The words for the values of fields.
ghost use Rattle.std.specs.Prelude.{◌≡◌, decimal, codes};
ghost use Rattle.rt_plain.specs.text.Words.{code_text, sleep_text, run_mode_text, order_text, class_text};
ghost use Rattle.rt_plain.specs.text.Texts.{quoted_text};
ghost use Rattle.rt_plain.specs.text.Fields.{number_or, name_or_dash, either, what_text, timer_kind_text};
ghost use Rattle.board_show.specs.Writing.{shown};

use crate::shown::Shown;
use rt_base::{Class, Code, CoreNo, Name, Prio, RunMode, Sleep, Text, WaitOrder};
use rt_plain::{TimerKind, What};

pub(crate) fn number(n: &u32) -> Shown<'static>
    ensures { shown result ≡ decimal n.now }
{
    Shown::Number(u64::from(*n))
}

pub(crate) fn moment(n: &u64) -> Shown<'static>
    ensures { shown result ≡ decimal n.now }
{
    Shown::Number(*n)
}

pub(crate) fn half(n: &u16) -> Shown<'static>
    ensures { shown result ≡ decimal n.now }
{
    Shown::Number(u64::from(*n))
}

pub(crate) fn byte(n: &u8) -> Shown<'static>
    ensures { shown result ≡ decimal n.now }
{
    Shown::Number(u64::from(*n))
}

pub(crate) fn prio(prio: &Prio) -> Shown<'static>
    ensures { shown result ≡ decimal prio.now }
{
    Shown::Number(u64::from(prio.0))
}

pub(crate) fn core(core: &Option<CoreNo>) -> Shown<'static>
    ensures { shown result ≡ number_or (codes "any") core.now }
{
    match core {
        None => Shown::Word(b"any"),
        Some(core) => Shown::Number(u64::from(core.0)),
    }
}

pub(crate) fn wait(timeout: &Option<u32>) -> Shown<'static>
    ensures { shown result ≡ number_or (codes "ever") timeout.now }
{
    match timeout {
        None => Shown::Word(b"ever"),
        Some(n) => Shown::Number(u64::from(*n)),
    }
}

pub(crate) fn name<'a>(name: &'a Name) -> Shown<'a>
    ensures { shown result ≡ name.now }
{
    Shown::Word(name.bytes())
}

pub(crate) fn indicated<'a>(name: &'a Option<Name>) -> Shown<'a>
    ensures { shown result ≡ name_or_dash name.now }
{
    match name {
        None => Shown::Word(b"-"),
        Some(name) => Shown::Word(name.bytes()),
    }
}

pub(crate) fn text<'a>(text: &'a Text) -> Shown<'a>
    ensures { shown result ≡ quoted_text text.now }
{
    Shown::Quoted(text.bytes())
}

pub(crate) fn code(code: &Code) -> Shown<'static>
    ensures { shown result ≡ code_text code.now }
{
    let number = code.number();
    if number == 0 {
        Shown::Word(b"0")
    } else {
        Shown::Negative(number)
    }
}

pub(crate) fn order(order: &WaitOrder) -> Shown<'static>
    ensures { shown result ≡ order_text order.now }
{
    match order {
        WaitOrder::Fifo => Shown::Word(b"fifo"),
        WaitOrder::Prio => Shown::Word(b"prio"),
    }
}

pub(crate) fn what(what: &What) -> Shown<'static>
    ensures { shown result ≡ what_text what.now }
{
    match what {
        What::Code => Shown::Word(b"code"),
        What::Value => Shown::Word(b"value"),
        What::Text => Shown::Word(b"text"),
    }
}

pub(crate) fn class(class: &Class) -> Shown<'static>
    ensures { shown result ≡ class_text class.now }
{
    match class {
        Class::Thread => Shown::Word(b"thread"),
        Class::Sem => Shown::Word(b"sem"),
        Class::Event => Shown::Word(b"event"),
        Class::Mutex => Shown::Word(b"mutex"),
        Class::Mailbox => Shown::Word(b"mailbox"),
        Class::MsgQueue => Shown::Word(b"msgqueue"),
        Class::Timer => Shown::Word(b"timer"),
        Class::Device => Shown::Word(b"device"),
    }
}

pub(crate) fn mode(mode: &Sleep) -> Shown<'static>
    ensures { shown result ≡ sleep_text mode.now }
{
    match mode {
        Sleep::NoSleep => Shown::Word(b"none"),
        Sleep::Idle => Shown::Word(b"idle"),
        Sleep::Light => Shown::Word(b"light"),
        Sleep::Deep => Shown::Word(b"deep"),
        Sleep::Standby => Shown::Word(b"standby"),
        Sleep::Shutdown => Shown::Word(b"shutdown"),
    }
}

pub(crate) fn run(mode: &RunMode) -> Shown<'static>
    ensures { shown result ≡ run_mode_text mode.now }
{
    match mode {
        RunMode::High => Shown::Word(b"high"),
        RunMode::Normal => Shown::Word(b"normal"),
        RunMode::Medium => Shown::Word(b"medium"),
        RunMode::Low => Shown::Word(b"low"),
    }
}

pub(crate) fn timer_kind(kind: &TimerKind) -> Shown<'static>
    ensures { shown result ≡ timer_kind_text kind.now }
{
    match kind {
        TimerKind::OneShot => Shown::Word(b"oneshot"),
        TimerKind::Periodic => Shown::Word(b"periodic"),
        TimerKind::SoftOne => Shown::Word(b"softone"),
        TimerKind::SoftPer => Shown::Word(b"softper"),
    }
}

pub(crate) fn started(started: &bool) -> Shown<'static>
    ensures { shown result ≡ either (codes "start") (codes "init") started.now }
{
    if *started {
        Shown::Word(b"start")
    } else {
        Shown::Word(b"init")
    }
}

pub(crate) fn armed(started: &bool) -> Shown<'static>
    ensures { shown result ≡ either (codes "auto") (codes "manual") started.now }
{
    if *started {
        Shown::Word(b"auto")
    } else {
        Shown::Word(b"manual")
    }
}

pub(crate) fn how(all: &bool) -> Shown<'static>
    ensures { shown result ≡ either (codes "and") (codes "or") all.now }
{
    if *all {
        Shown::Word(b"and")
    } else {
        Shown::Word(b"or")
    }
}

pub(crate) fn keep(clear: &bool) -> Shown<'static>
    ensures { shown result ≡ either (codes "clear") (codes "keep") clear.now }
{
    if *clear {
        Shown::Word(b"clear")
    } else {
        Shown::Word(b"keep")
    }
}

pub(crate) fn on_off(on: &bool) -> Shown<'static>
    ensures { shown result ≡ either (codes "on") (codes "off") on.now }
{
    if *on {
        Shown::Word(b"on")
    } else {
        Shown::Word(b"off")
    }
}

pub(crate) fn power(pm: &bool) -> Shown<'static>
    ensures { shown result ≡ either (codes "pm") (codes "nopm") pm.now }
{
    if *pm {
        Shown::Word(b"pm")
    } else {
        Shown::Word(b"nopm")
    }
}
