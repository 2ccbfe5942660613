ghost use Rattle.std.specs.Prelude.{◌≡◌, ◌↔◌, ◌⊎◌, ◌+◌, ◌≤◌, ℕ, None, Some, OnOk, take};
ghost use Rattle.rt_edge.specs.Counts.{Rose};
ghost use Rattle.rt_edge.specs.Contents.{HasGrown};
ghost use Rattle.commands.specs.declared.args.Wanted.{Wanted};
ghost use Rattle.commands.specs.Held.{Steady};
ghost use Rattle.commands.specs.Command.{command_of, most_taken, named_file, plain};
ghost use Rattle.commands.specs.Boards.{IsRefused, IsUnbuiltRun, Stops, IsBadReplay, HasText, board_in};
ghost use Rattle.commands.specs.Asked.{IfAsked, IsMissing, AsksFor, FindsFirst, LacksFirst, LacksOne, HasWritten, HasBegun, HasCause, HasEnded, TellsEnding};

use crate::args::{Command, Wanted, command_of, named_file};
use crate::command_files::{replay_files, text_of_file};
use crate::ending::Ending;
use crate::writing::put_all;
use rt_edge::{Failed, Files, Sink};
use rt_plain::laws::{texts_are_one_board, texts_without_a_bad_line_are_boards};
use std::alloc::Global;

// Puts a command's text, or that of a replay: how it ended then.
fn put_text<O: Sink>(out: &mut O, text: &[u8]) -> Ending
    ensures done { result ≡ Ending.Done → HasGrown (O.holds out.old) (O.holds out.new) text.now }
    ensures unwritable { result ≡ Ending.Unwritable → Rose (O.faults out.old) (O.faults out.new) }
    ensures begun { result ≡ Ending.Unwritable → (n : ℕ) × HasGrown (O.holds out.old) (O.holds out.new) (take n text.now) }
    ensures either { (result ≡ Ending.Done) ⊎ (result ≡ Ending.Unwritable) }
{
    match put_all(out, text) {
        Ok(()) => Ending::Done,
        Err(Failed) => Ending::Unwritable,
    }
}

// Does what a command asks for, and tells how it ended.
fn obey<F: Files, O: Sink>(
    alloc: Global,
    command: Command<'_>,
    files: &mut F,
    out: &mut O,
) -> Ending
    ensures ended { HasEnded (plain command.entry) (F.held files.old) (F.missing files.old) (F.missing files.new) (F.faults files.old) (F.faults files.new) (O.holds out.old) (O.holds out.new) (O.faults out.old) (O.faults out.new) result }
    ensures kept { (result ≡ Ending.Done → ⊥) → (result ≡ Ending.Unwritable → ⊥) → out.new ≡ out.old }
    ensures taken { F.taken files.new ≤ F.taken files.old + most_taken (Some (plain command.entry)) }
{
    match command {
        Command::Write(output, file) => match text_of_file(alloc, output, file, files) {
            Ok(text) => put_text(out, text.as_slice()),
            Err(ending) => ending,
        },
        Command::Replay(trace, file) => match replay_files(alloc, trace, file, files) {
            Ok(text) => put_text(out, &text),
            Err(ending) => ending,
        },
    }
}

// Does what the words ask for, and tells how it ended.
fn perform<F: Files, O: Sink>(alloc: Global, words: &[String], files: &mut F, out: &mut O) -> Ending
    ensures usage { (result ≡ Ending.Usage) ↔ (command_of words.now ≡ None) }
    ensures done { result ≡ Ending.Done → IfAsked (command_of words.now) (F.held files.old) (HasWritten (O.holds out.old) (O.holds out.new)) }
    ensures missed { (wanted : Wanted) → result ≡ Ending.Missing wanted → Rose (F.missing files.old) (F.missing files.new) }
    ensures absent { (wanted : Wanted) → result ≡ Ending.Missing wanted → IsMissing (command_of words.now) (F.held files.old) wanted }
    ensures unreadable { result ≡ Ending.Unreadable → Rose (F.faults files.old) (F.faults files.new) }
    ensures unwritable { result ≡ Ending.Unwritable → Rose (O.faults out.old) (O.faults out.new) }
    ensures begun { result ≡ Ending.Unwritable → IfAsked (command_of words.now) (F.held files.old) (HasBegun (O.holds out.old) (O.holds out.new)) }
    ensures cause { HasCause (command_of words.now) (F.held files.old) result }
    ensures found { result ≡ Ending.Memory → FindsFirst (command_of words.now) (F.held files.old) }
    ensures kept { (result ≡ Ending.Done → ⊥) → (result ≡ Ending.Unwritable → ⊥) → out.new ≡ out.old }
    ensures taken { F.taken files.new ≤ F.taken files.old + most_taken (command_of words.now) }
{
    match command_of(words) {
        Some(command) => obey(alloc, command, files, out),
        None => Ending::Usage,
    }
}

/// Does what the words ask for, `trace FILE`, `run FILE`, `show FILE` or `replay TRACE FILE`, and tells the status of the
/// process:
///
/// - 0: all was written;
/// - 2: the words are no command;
/// - 3: there is no file of a name;
/// - 4: a file couldn't be read;
/// - 5: the text couldn't be written, but for a front of it;
/// - 6: the board's file has more than 1,048,576 bytes, or a line that breaks the rules of boards;
/// - 7: the run meets a limit before it halts (of `trace` and `run`);
/// - 8: the trace has more than 268,435,456 bytes, or is not that of a run of the board that has halted (of `replay`);
/// - 9: there was no memory;
/// - 10: the board has something that isn't built yet (not of `show`).
///
/// `replay` reads its trace before its board, and judges the board first.
///
/// Each status but 0 has a line on `err`. Whether that line is written changes no status.
pub fn rtsim<F: Files, O: Sink, E: Sink>(
    alloc: Global,
    words: &[String],
    files: &mut F,
    out: &mut O,
    err: &mut E,
) -> u8
    ensures usage { (result ≡ 2) ↔ (command_of words.now ≡ None) }

    // Each status has its cause, and after 0 and 5 `out` has got the command's text, or a front of it.
    ensures done { result ≡ 0 → IfAsked (command_of words.now) (F.held files.old) (HasWritten (O.holds out.old) (O.holds out.new)) }
    ensures missed { result ≡ 3 → Rose (F.missing files.old) (F.missing files.new) }
    ensures absent { result ≡ 3 → (wanted : Wanted) × IsMissing (command_of words.now) (F.held files.old) wanted }
    ensures unreadable { result ≡ 4 → Rose (F.faults files.old) (F.faults files.new) }
    ensures unwritable { result ≡ 5 → Rose (O.faults out.old) (O.faults out.new) }
    ensures begun { result ≡ 5 → IfAsked (command_of words.now) (F.held files.old) (HasBegun (O.holds out.old) (O.holds out.new)) }
    ensures refused { result ≡ 6 → IfAsked (command_of words.now) (F.held files.old) (λ command contents. IsRefused (board_in contents)) }
    ensures unbuilt { result ≡ 10 → IfAsked (command_of words.now) (F.held files.old) IsUnbuiltRun }
    ensures limited { result ≡ 7 → IfAsked (command_of words.now) (F.held files.old) Stops }
    ensures unlike { result ≡ 8 → IfAsked (command_of words.now) (F.held files.old) IsBadReplay }
    ensures kept { (result ≡ 0 → ⊥) → (result ≡ 5 → ⊥) → out.new ≡ out.old }

    // No more is taken of a file than shows that it is too long.
    ensures taken { F.taken files.new ≤ F.taken files.old + most_taken (command_of words.now) }

    // Where no file failed, each cause has its status, but for want of memory.
    ensures first_absent_comes { Steady (F.faults files.old) (F.faults files.new) → LacksFirst (command_of words.now) (F.held files.old) → result ≡ 3 }
    ensures absent_comes { Steady (F.faults files.old) (F.faults files.new) → LacksOne (command_of words.now) (F.held files.old) → (result ≡ 3) ⊎ (result ≡ 9) }
    ensures refused_comes { Steady (F.faults files.old) (F.faults files.new) → AsksFor (command_of words.now) (F.held files.old) (λ command contents. IsRefused (board_in contents)) → (result ≡ 6) ⊎ (result ≡ 9) }
    ensures unbuilt_comes { Steady (F.faults files.old) (F.faults files.new) → AsksFor (command_of words.now) (F.held files.old) IsUnbuiltRun → (result ≡ 10) ⊎ (result ≡ 9) }
    ensures limited_comes { Steady (F.faults files.old) (F.faults files.new) → AsksFor (command_of words.now) (F.held files.old) Stops → (result ≡ 7) ⊎ (result ≡ 9) }
    ensures unlike_comes { Steady (F.faults files.old) (F.faults files.new) → AsksFor (command_of words.now) (F.held files.old) IsBadReplay → (result ≡ 8) ⊎ (result ≡ 9) }
    ensures done_comes { Steady (F.faults files.old) (F.faults files.new) → Steady (O.faults out.old) (O.faults out.new) → AsksFor (command_of words.now) (F.held files.old) HasText → (result ≡ 0) ⊎ (result ≡ 9) }

    // The status is one of these, and its line was told.
    ensures told { TellsEnding (command_of words.now) (F.held files.old) (λ wanted. named_file wanted words.now) result (E.holds err.old) (E.holds err.new) (E.faults err.old) (E.faults err.new) }
{
    texts_are_one_board();
    texts_without_a_bad_line_are_boards();
    let ending = perform(alloc, words, files, out);
    let trace = named_file(words, Wanted::Trace);
    let board = named_file(words, Wanted::Board);
    let _ = ending.say(trace, board, err);
    ending.status()
}
