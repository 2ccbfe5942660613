ghost use Rattle.std.specs.Prelude.{◌≡◌, string_bytes};
ghost use Rattle.std.specs.Option.{option_map};
ghost use Rattle.commands.specs.Command.{command_of, named_file, one_file, two_files, plain, file_of, trace_file_of};

/// What is written of a file's board.
#[derive(Clone, Copy, Debug, PartialEq, Eq)]
pub enum Output {
    /// The trace of its run.
    Trace,
    /// The console of its run.
    Console,
    /// Its canonical text.
    Board,
}

/// What the words ask for.
#[derive(Clone, Copy, Debug, PartialEq, Eq)]
pub enum Command<'a> {
    /// That something is written of the board in a file.
    Write(Output, &'a str),
    /// That the trace in the first file is written again, if it is that of a run of the second one's board.
    Replay(&'a str, &'a str),
}

/// One of the files that a command names.
#[derive(Clone, Copy, Debug, PartialEq, Eq)]
pub enum Wanted {
    /// That of the board.
    Board,
    /// That of the trace.
    Trace,
}

// The command of a name and one file.
fn one_file<'a>(name: &'a String, file: &'a String) -> Option<Command<'a>>
    ensures { option_map plain result ≡ one_file (string_bytes name.now) (string_bytes file.now) }
{
    match name.as_str() {
        "trace" => Some(Command::Write(Output::Trace, file.as_str())),
        "run" => Some(Command::Write(Output::Console, file.as_str())),
        "show" => Some(Command::Write(Output::Board, file.as_str())),
        _ => None,
    }
}

// The command of a name and two files.
fn two_files<'a>(name: &'a String, trace: &'a String, file: &'a String) -> Option<Command<'a>>
    ensures { option_map plain result ≡ two_files (string_bytes name.now) (string_bytes trace.now) (string_bytes file.now) }
{
    match name.as_str() {
        "replay" => Some(Command::Replay(trace.as_str(), file.as_str())),
        _ => None,
    }
}

/// The command that the words are, if they are one: `trace FILE`, `run FILE`, `show FILE` or `replay TRACE FILE`.
pub fn command_of(words: &[String]) -> Option<Command<'_>>
    ensures { option_map plain result ≡ command_of words.now }
{
    match words {
        [name, file] => one_file(name, file),
        [name, trace, file] => two_files(name, trace, file),
        _ => None,
    }
}

/// The file of a board that a command names.
pub fn file_of<'a>(command: Command<'a>) -> &'a str
    ensures { result.now ≡ file_of (plain command.entry) }
{
    match command {
        Command::Write(_, file) => file,
        Command::Replay(_, file) => file,
    }
}

// The file of a trace that a command names, the empty name where it names none.
fn trace_file_of<'a>(command: Command<'a>) -> &'a str
    ensures { result.now ≡ trace_file_of (plain command.entry) }
{
    match command {
        Command::Write(_, _) => "",
        Command::Replay(trace, _) => trace,
    }
}

/// The file that is wanted of what the words name, the empty name where they name none.
pub fn named_file(words: &[String], wanted: Wanted) -> &str
    ensures { result.now ≡ named_file wanted words.now }
{
    match command_of(words) {
        Some(command) => match wanted {
            Wanted::Board => file_of(command),
            Wanted::Trace => trace_file_of(command),
        },
        None => "",
    }
}
