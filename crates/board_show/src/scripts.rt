//! The threads of a generated board, and what they do.
ghost use Rattle.std.specs.Prelude.{◌≡◌, ◌<◌, ◌≤◌, ◌++◌, ◌∷◌, [], IfOk, OnOk, codes, flat_map};
ghost use Rattle.std.specs.List.{range_with_len};
ghost use Rattle.rt_plain.specs.declared.stmt.Stmt.{Stmt as Statement};
ghost use Rattle.rt_plain.specs.runs.Generated.{block_of, draw_below, draw_block, draw_each, draw_mutex_block, draw_receive_block, draw_release_block, draw_script, draw_sem_block, draw_send_block, draw_thread, drawn_after};

use crate::draws::{draw_below, numbered, push};
use rand_pcg::Pcg32;
use rt_base::{List, Prio, Text};
use rt_plain::{Call, Stmt, ThreadDef};
use std::alloc::{AllocError, Global};

// A mutex is taken, held for a while and released.
#[tactic(auto, using(crate::proofs::DrawLemmas::pushed_three))]
fn push_mutex_block(script: &mut List<Stmt>, words: &mut Pcg32) -> Result<(), AllocError>
    ensures value { OnOk result (script.new ≡ script.old ++ (draw_mutex_block words.old).value) }
    ensures rest { OnOk result (words.new ≡ (draw_mutex_block words.old).rest) }
{
    let mutex = draw_below(words, 4);
    let wait = 1 + draw_below(words, 20);
    let hold = 1 + draw_below(words, 5);
    let take = Call::MutexTake(numbered(b'm', mutex), Some(wait));
    push(script, Stmt::Do(take))?;
    push(script, Stmt::Do(Call::Delay(hold)))?;
    push(script, Stmt::Do(Call::MutexRelease(numbered(b'm', mutex))))
}

// A semaphore is taken.
fn push_sem_block(script: &mut List<Stmt>, words: &mut Pcg32) -> Result<(), AllocError>
    ensures value { OnOk result (script.new ≡ script.old ++ (draw_sem_block words.old).value) }
    ensures rest { OnOk result (words.new ≡ (draw_sem_block words.old).rest) }
{
    let sem = draw_below(words, 4);
    let wait = 1 + draw_below(words, 20);
    let take = Call::SemTake(numbered(b's', sem), Some(wait));
    push(script, Stmt::Do(take))
}

// A semaphore is released.
fn push_release_block(script: &mut List<Stmt>, words: &mut Pcg32) -> Result<(), AllocError>
    ensures value { OnOk result (script.new ≡ script.old ++ (draw_release_block words.old).value) }
    ensures rest { OnOk result (words.new ≡ (draw_release_block words.old).rest) }
{
    let sem = draw_below(words, 4);
    push(script, Stmt::Do(Call::SemRelease(numbered(b's', sem))))
}

// Mail is sent.
fn push_send_block(script: &mut List<Stmt>, words: &mut Pcg32) -> Result<(), AllocError>
    ensures value { OnOk result (script.new ≡ script.old ++ (draw_send_block words.old).value) }
    ensures rest { OnOk result (words.new ≡ (draw_send_block words.old).rest) }
{
    let mailbox = draw_below(words, 2);
    let word = draw_below(words, 1000);
    let wait = draw_below(words, 10);
    let send = Call::MbSend(numbered(b'b', mailbox), word, Some(wait));
    push(script, Stmt::Do(send))
}

// Mail is received.
fn push_receive_block(script: &mut List<Stmt>, words: &mut Pcg32) -> Result<(), AllocError>
    ensures value { OnOk result (script.new ≡ script.old ++ (draw_receive_block words.old).value) }
    ensures rest { OnOk result (words.new ≡ (draw_receive_block words.old).rest) }
{
    let mailbox = draw_below(words, 2);
    let wait = draw_below(words, 10);
    let receive = Call::MbRecv(numbered(b'b', mailbox), Some(wait));
    push(script, Stmt::Do(receive))
}

// The text of one dot.
fn dot() -> Text
    ensures { result ≡ codes "." }
{
    match Text::read(b".") {
        Some(text) => text,
        None => unreachable!(),
    }
}

// Adds a block of a kind, and draws what it needs.
fn push_block_of(script: &mut List<Stmt>, kind: u32, words: &mut Pcg32) -> Result<(), AllocError>
    ensures value { OnOk result (script.new ≡ script.old ++ (block_of kind words.old).value) }
    ensures rest { OnOk result (words.new ≡ (block_of kind words.old).rest) }
{
    if kind == 0 {
        push_mutex_block(script, words)
    } else if kind == 1 {
        push_sem_block(script, words)
    } else if kind == 2 {
        push_release_block(script, words)
    } else if kind == 3 {
        push_send_block(script, words)
    } else if kind == 4 {
        push_receive_block(script, words)
    } else {
        push(script, Stmt::Print(dot()))
    }
}

// Adds the blocks of a script.
fn push_blocks(script: &mut List<Stmt>, words: &mut Pcg32) -> Result<(), AllocError>
    ensures value { OnOk result (script.new ≡ script.old ++ flat_map (λ block. block) (draw_each draw_block (range_with_len 0 4) words.old).value) }
    ensures rest { OnOk result (words.new ≡ (draw_each draw_block (range_with_len 0 4) words.old).rest) }
{
    for _i in 0..4u32 {
        let kind = draw_below(words, 6);
        push_block_of(script, kind, words)?;
    }
    Ok(())
}

// Draws a script: four blocks, a delay, and back to the begin.
fn draw_script(alloc: Global, words: &mut Pcg32) -> Result<List<Stmt>, AllocError>
    ensures value { IfOk result (λ script. script ≡ (draw_script words.old).value) }
    ensures rest { IfOk result (λ _. words.new ≡ (draw_script words.old).rest) }
{
    let mut script = List::new(alloc);
    push_blocks(&mut script, words)?;
    let pause = 1 + draw_below(words, 20);
    push(&mut script, Stmt::Do(Call::Delay(pause)))?;
    push(&mut script, Stmt::Goto(1))?;
    Ok(script)
}

// Draws the thread of a number.
fn draw_thread(alloc: Global, number: u32, words: &mut Pcg32) -> Result<ThreadDef, AllocError>
    requires { number < 100 }
    ensures value { IfOk result (λ thread. thread ≡ (draw_thread number words.old).value) }
    ensures rest { IfOk result (λ _. words.new ≡ (draw_thread number words.old).rest) }
{
    let base = draw_below(words, 30);
    let slice = 1 + draw_below(words, 10);
    let script = draw_script(alloc, words)?;
    Ok(ThreadDef {
        name: numbered(b'w', number),
        prio: Prio(base as u8),
        slice: slice as u8,
        core: None,
        started: true,
        script,
    })
}

/// Draws so many threads.
pub(crate) fn draw_threads(
    alloc: Global,
    count: u32,
    words: &mut Pcg32,
) -> Result<List<ThreadDef>, AllocError>
    requires { count ≤ 100 }
    ensures value { IfOk result (λ threads. threads ≡ (draw_each draw_thread (range_with_len 0 count) words.old).value) }
    ensures rest { IfOk result (λ _. words.new ≡ (draw_each draw_thread (range_with_len 0 count) words.old).rest) }
{
    let mut threads = List::new(alloc);
    for i in 0..count {
        let thread = draw_thread(alloc, i, words)?;
        push(&mut threads, thread)?;
    }
    Ok(threads)
}
