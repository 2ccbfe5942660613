//! Runs the threads of a board file under RT-Thread's kernel rules, and writes what they did.
#![tactic(auto)]

ghost use Rattle.std.specs.Prelude.{◌≡◌, List, [], String, None};
ghost use Rattle.std.specs.Process.{exit_status};
ghost use Rattle.std.specs.declared.alloc.Global.{Global};
ghost use Rattle.commands.specs.Command.{command_of, named_file};
ghost use Rattle.commands.specs.Asked.{TellsEnding};

use commands::{Ending, rtsim};
use rt_edge::{DiskFiles, Sink, StdSink};
use std::alloc::AllocError;
use std::env;
use std::io::{ErrorKind, Stderr, Stdout};
use std::process::ExitCode;
use std::rt::{Env, Files};

#[cfg(test)]
mod tests;

// The words after the program's name, none where one of them isn't text: such words are no command.
fn given_words<R: Env + AllocGlobal>(rt: &R) -> Result<Vec<String>, AllocError> {
    match env::args(rt) {
        Ok(arguments) => arguments.skip(1).collect(rt.alloc()),
        Err(fault) if fault.kind() == ErrorKind::OutOfMemory => Err(AllocError),
        Err(_) => Ok(Vec::new(rt.alloc())),
    }
}

// Says that there was no memory for the words, and gives that status.
fn refuse<E: Sink>(err: &mut E) -> u8
    ensures status { result ≡ 9 }
    ensures told { TellsEnding None None (λ wanted. []) result (E.holds err.old) (E.holds err.new) (E.faults err.old) (E.faults err.new) }
{
    let _ = Ending::Memory.say("", "", err);
    Ending::Memory.status()
}

// Does what the words ask for. The code is the status that the message tells of.
fn answer<R: Env + AllocGlobal + Files, O: Sink, E: Sink>(
    rt: &R,
    out: &mut O,
    err: &mut E,
) -> ExitCode
    ensures told { (words : List (String Global)) × TellsEnding (command_of words) None (λ wanted. named_file wanted words) (exit_status result) (E.holds err.old) (E.holds err.new) (E.faults err.old) (E.faults err.new) }
    ensures kept { (exit_status result ≡ 0 → ⊥) → (exit_status result ≡ 5 → ⊥) → out.new ≡ out.old }
{
    let words = match given_words(rt) {
        Ok(words) => words,
        Err(AllocError) => return ExitCode::from(refuse(err)),
    };
    let mut files = DiskFiles::new(rt);
    let status = rtsim(rt.alloc(), &words, &mut files, out, err);
    ExitCode::from(status)
}

// The same on the standard streams. Each has its type, so none is taken for the other.
fn answer_on<R: Env + AllocGlobal + Files>(rt: &R, out: Stdout, err: Stderr) -> ExitCode {
    answer(rt, &mut StdSink::new(out), &mut StdSink::new(err))
}

fn main(rt: HostRuntime) -> ExitCode {
    answer_on(&rt, rt.stdout(), rt.stderr())
}
