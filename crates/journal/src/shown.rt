//! The words for the values of fields.
ghost use Rattle.std.specs.Prelude.{◌≡◌, ◌++◌, decimal, codes, if◌then◌else◌};
ghost use Rattle.rt_plain.specs.text.Words.{code_text, sleep_text};
ghost use Rattle.rt_plain.specs.text.Texts.{quoted_text, code_or_wait, woke_text, fired_text};
ghost use Rattle.journal.specs.Spelled.{spelled};

use rt_base::{Code, Name, Prio, Sleep, Text};
use rt_plain::{Fired, Woke};

/// What a line shows of a field: one word, or two of what arrived at a device.
#[derive(Clone, Copy)]
pub(crate) enum Shown<'a> {
    Word(&'a [u8]),
    Number(u64),
    Negative(u8),
    Change(u8, u8),
    Quoted(&'a [u8]),
    Received(&'a [u8], u8),
}

pub(crate) fn number(n: &u32) -> Shown<'static>
    ensures { spelled result ≡ decimal n.now }
{
    Shown::Number(u64::from(*n))
}

pub(crate) fn half(n: &u16) -> Shown<'static>
    ensures { spelled result ≡ decimal n.now }
{
    Shown::Number(u64::from(*n))
}

pub(crate) fn name<'a>(name: &'a Name) -> Shown<'a>
    ensures { spelled result ≡ name.now }
{
    Shown::Word(name.bytes())
}

pub(crate) fn text<'a>(text: &'a Text) -> Shown<'a>
    ensures { spelled result ≡ quoted_text text.now }
{
    Shown::Quoted(text.bytes())
}

pub(crate) fn placed(head: &bool) -> Shown<'static>
    ensures { spelled result ≡ (if head.now then codes "head" else codes "tail") }
{
    if *head {
        Shown::Word(b"head")
    } else {
        Shown::Word(b"tail")
    }
}

fn code(code: Code) -> Shown<'static>
    ensures { spelled result ≡ code_text code }
{
    let number = code.number();
    if number == 0 {
        Shown::Word(b"0")
    } else {
        Shown::Negative(number)
    }
}

pub(crate) fn answered(answer: &Option<Code>) -> Shown<'static>
    ensures { spelled result ≡ code_or_wait answer.now }
{
    match answer {
        None => Shown::Word(b"wait"),
        Some(answer) => code(*answer),
    }
}

pub(crate) fn woken(woke: &Woke) -> Shown<'static>
    ensures { spelled result ≡ woke_text woke.now }
{
    match woke {
        Woke::Code(answer) => code(*answer),
        Woke::Retry => Shown::Word(b"retry"),
        Woke::Start => Shown::Word(b"start"),
    }
}

pub(crate) fn acted(fired: &Fired) -> Shown<'static>
    ensures { spelled result ≡ fired_text fired.now }
{
    match fired {
        Fired::Code(answer) => code(*answer),
        Fired::Nothing => Shown::Word(b"-"),
        Fired::Soft => Shown::Word(b"soft"),
    }
}

pub(crate) fn mode(mode: &Sleep) -> Shown<'static>
    ensures { spelled result ≡ sleep_text mode.now }
{
    match mode {
        Sleep::NoSleep => Shown::Word(b"none"),
        Sleep::Idle => Shown::Word(b"idle"),
        Sleep::Light => Shown::Word(b"light"),
        Sleep::Deep => Shown::Word(b"deep"),
        Sleep::Standby => Shown::Word(b"standby"),
        Sleep::Shutdown => Shown::Word(b"shutdown"),
    }
}

pub(crate) fn changed(change: (&Prio, &Prio)) -> Shown<'static>
    ensures { spelled result ≡ decimal change.entry.0.now ++ codes ">" ++ decimal change.entry.1.now }
{
    let (before, after) = change;
    Shown::Change(before.0, after.0)
}

pub(crate) fn received<'a>(moved: (&'a Text, &u8)) -> Shown<'a>
    ensures { spelled result ≡ quoted_text moved.entry.0.now ++ codes " " ++ decimal moved.entry.1.now }
{
    let (text, lost) = moved;
    Shown::Received(text.bytes(), *lost)
}
