//! What is drawn for a generated board, apart from its scripts.
ghost use Rattle.std.specs.Prelude.{◌≡◌, ◌<◌, ◌++◌, ◌∷◌, [], IfOk, OnOk, IsTrue};
ghost use Rattle.std.specs.List.{range_with_len};
ghost use Rattle.rt_base.specs.Grammar.{is_name, is_name_byte};
ghost use Rattle.rt_plain.specs.runs.Generated.{draw_below, draw_each, draw_sem, draw_timer, numbered};

use rand_core::utils::NextWord;
use rand_pcg::Pcg32;
use rt_base::{List, Name, WaitOrder};
use rt_plain::{Call, SemDef, Stmt, TimerDef, TimerKind};
use std::alloc::{AllocError, Global};

/// The next word modulo a bound.
pub(crate) fn draw_below(words: &mut Pcg32, bound: u32) -> u32
    requires { 0 < bound }
    ensures value { result ≡ (draw_below bound words.old).value }
    ensures rest { words.new ≡ (draw_below bound words.old).rest }
    ensures below { result < bound }
{
    words.next_word() % bound
}

/// Adds an item. The one refusal is want of memory.
pub(crate) fn push<T: Drop>(items: &mut List<T>, item: T) -> Result<(), AllocError>
    ensures { OnOk result (items.new ≡ items.old ++ item ∷ []) }
{
    items.push(item).map_err(|_| AllocError)
}

/// The name of these bytes.
pub(crate) fn named(bytes: &[u8]) -> Name
    requires { IsTrue (is_name bytes.now) }
    ensures { result ≡ bytes.now }
{
    match Name::read(bytes) {
        Some(name) => name,
        None => unreachable!(),
    }
}

/// The name of a letter and a number below 100.
#[tactic(auto, using(crate::proofs::DrawLemmas::one_digit, crate::proofs::DrawLemmas::two_digits))]
pub(crate) fn numbered(letter: u8, number: u32) -> Name
    requires letter { IsTrue (is_name_byte letter) }
    requires number { number < 100 }
    ensures { result ≡ numbered (letter ∷ []) number }
{
    let ones = b'0' + (number % 10) as u8;
    if number < 10 {
        return named(&[letter, ones]);
    }
    let tens = b'0' + (number / 10) as u8;
    named(&[letter, tens, ones])
}

// Draws the semaphore of a number.
fn draw_sem(number: u32, words: &mut Pcg32) -> SemDef
    requires { number < 100 }
    ensures value { result ≡ (draw_sem number words.old).value }
    ensures rest { words.new ≡ (draw_sem number words.old).rest }
{
    let value = draw_below(words, 3);
    SemDef {
        name: numbered(b's', number),
        value: value as u16,
        order: WaitOrder::Prio,
    }
}

/// Draws the four semaphores.
pub(crate) fn draw_sems(alloc: Global, words: &mut Pcg32) -> Result<List<SemDef>, AllocError>
    ensures value { IfOk result (λ sems. sems ≡ (draw_each draw_sem (range_with_len 0 4) words.old).value) }
    ensures rest { IfOk result (λ _. words.new ≡ (draw_each draw_sem (range_with_len 0 4) words.old).rest) }
{
    let mut sems = List::new(alloc);
    for i in 0..4 {
        push(&mut sems, draw_sem(i, words))?;
    }
    Ok(sems)
}

// Draws the timer of a number, which releases the semaphore of that number in each period.
fn draw_timer(number: u32, words: &mut Pcg32) -> TimerDef
    requires { number < 100 }
    ensures value { result ≡ (draw_timer number words.old).value }
    ensures rest { words.new ≡ (draw_timer number words.old).rest }
{
    let time = 5 + draw_below(words, 20);
    TimerDef {
        name: numbered(b't', number),
        kind: TimerKind::Periodic,
        time,
        started: true,
        call: Some(Stmt::Do(Call::SemRelease(numbered(b's', number)))),
    }
}

/// Draws the two timers.
pub(crate) fn draw_timers(alloc: Global, words: &mut Pcg32) -> Result<List<TimerDef>, AllocError>
    ensures value { IfOk result (λ timers. timers ≡ (draw_each draw_timer (range_with_len 0 2) words.old).value) }
    ensures rest { IfOk result (λ _. words.new ≡ (draw_each draw_timer (range_with_len 0 2) words.old).rest) }
{
    let mut timers = List::new(alloc);
    for i in 0..2 {
        push(&mut timers, draw_timer(i, words))?;
    }
    Ok(timers)
}
