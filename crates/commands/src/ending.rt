ghost use Rattle.std.specs.Prelude.{◌≡◌, ℕ, OnOk, OnErr, take};
ghost use Rattle.rt_edge.specs.Counts.{Rose};
ghost use Rattle.rt_edge.specs.Contents.{HasGrown};
ghost use Rattle.commands.specs.Ending.{message, missing_line, bad_line, limit_line, trace_line, why_text};

use crate::args::Wanted;
use crate::writing::{put_all, put_parts};
use itoa::Buffer;
use rt_edge::{Failed, Sink};
use rt_plain::Why;

/// How a command ends.
#[derive(Clone, Copy, Debug, PartialEq, Eq)]
pub enum Ending {
    /// All was written.
    Done,
    /// The words are no command.
    Usage,
    /// There is no file of the name of this one.
    Missing(Wanted),
    /// A file couldn't be read.
    Unreadable,
    /// The text couldn't be written.
    Unwritable,
    /// The file has more bytes than a board may have.
    TooLong,
    /// The first line of the file that breaks the rules of boards, numbered from 1, and the reason.
    BadLine { no: u32, why: Why },
    /// The file's board has something that isn't built yet.
    NotBuilt,
    /// The run meets a limit before it halts, at so many entries and lines.
    Limited { entries: u32, lines: u32 },
    /// The trace's file has more bytes than a trace may have.
    TraceTooLong,
    /// No run of the board goes on with this line of the trace, numbered from 1.
    TraceLine { no: u32 },
    /// There was no memory.
    Memory,
}

impl Ending {
    ghost use Rattle.commands.specs.Ending.{status_of, message, names};

    /// The status of the process.
    pub fn status(self) -> u8
        ensures { result ≡ status_of self }
    {
        match self {
            Ending::Done => 0,
            Ending::Usage => 2,
            Ending::Missing(_) => 3,
            Ending::Unreadable => 4,
            Ending::Unwritable => 5,
            Ending::TooLong | Ending::BadLine { .. } => 6,
            Ending::Limited { .. } => 7,
            Ending::TraceTooLong | Ending::TraceLine { .. } => 8,
            Ending::Memory => 9,
            Ending::NotBuilt => 10,
        }
    }

    /// Puts the line that tells of it, where the command's files have these names.
    pub fn say<E: Sink>(self, trace: &str, board: &str, err: &mut E) -> Result<(), Failed>
        ensures ok { OnOk result (HasGrown (E.holds err.old) (E.holds err.new) (message (names trace.now board.now) self)) }
        ensures front { OnErr result ((n : ℕ) × HasGrown (E.holds err.old) (E.holds err.new) (take n (message (names trace.now board.now) self))) }
        ensures failed { OnErr result (Rose (E.faults err.old) (E.faults err.new)) }
    {
        match self {
            Ending::Done => put_all(err, b""),
            Ending::Usage => put_all(err, b"rtsim: usage\n"),
            Ending::Missing(Wanted::Board) => say_missing(board, err),
            Ending::Missing(Wanted::Trace) => say_missing(trace, err),
            Ending::Unreadable => put_all(err, b"rtsim: read fault\n"),
            Ending::Unwritable => put_all(err, b"rtsim: write fault\n"),
            Ending::TooLong => put_all(err, b"rtsim: board too long\n"),
            Ending::BadLine { no, why } => say_bad_line(no, why, err),
            Ending::NotBuilt => put_all(err, b"rtsim: not built\n"),
            Ending::Limited { entries, lines } => say_limited(entries, lines, err),
            Ending::TraceTooLong => put_all(err, b"rtsim: trace too long\n"),
            Ending::TraceLine { no } => say_trace_line(no, err),
            Ending::Memory => put_all(err, b"rtsim: out of memory\n"),
        }
    }
}

// Says that there is no file of a name.
fn say_missing<E: Sink>(file: &str, err: &mut E) -> Result<(), Failed>
    ensures ok { OnOk result (HasGrown (E.holds err.old) (E.holds err.new) (missing_line file.now)) }
    ensures front { OnErr result ((n : ℕ) × HasGrown (E.holds err.old) (E.holds err.new) (take n (missing_line file.now))) }
    ensures failed { OnErr result (Rose (E.faults err.old) (E.faults err.new)) }
{
    put_parts(
        err,
        &[
            b"rtsim: no such file ".as_slice(),
            file.as_bytes(),
            b"\n".as_slice(),
        ],
    )
}

// The word of a reason.
#[tactic(auto, unfolding(crate::specs::Ending::why_text))]
fn why_word(why: Why) -> &'static [u8]
    ensures { result.now ≡ why_text why }
{
    match why {
        Why::Head => b"Head",
        Why::Byte => b"Byte",
        Why::Space => b"Space",
        Why::Kind => b"Kind",
        Why::Order => b"Order",
        Why::Words => b"Words",
        Why::Number => b"Number",
        Why::Range => b"Range",
        Why::Name => b"Name",
        Why::Choice => b"Choice",
        Why::Text => b"Text",
        Why::Twice => b"Twice",
        Why::Full => b"Full",
        Why::Refer => b"Refer",
    }
}

// Says which line of a file is the first bad one, and why.
fn say_bad_line<E: Sink>(no: u32, why: Why, err: &mut E) -> Result<(), Failed>
    ensures ok { OnOk result (HasGrown (E.holds err.old) (E.holds err.new) (bad_line no why)) }
    ensures front { OnErr result ((n : ℕ) × HasGrown (E.holds err.old) (E.holds err.new) (take n (bad_line no why))) }
    ensures failed { OnErr result (Rose (E.faults err.old) (E.faults err.new)) }
{
    let mut digits = Buffer::new();
    put_parts(
        err,
        &[
            b"rtsim: line ".as_slice(),
            digits.format(no).as_bytes(),
            b": ".as_slice(),
            why_word(why),
            b"\n".as_slice(),
        ],
    )
}

// Says at how many entries and lines a run met a limit.
fn say_limited<E: Sink>(entries: u32, lines: u32, err: &mut E) -> Result<(), Failed>
    ensures ok { OnOk result (HasGrown (E.holds err.old) (E.holds err.new) (limit_line entries lines)) }
    ensures front { OnErr result ((n : ℕ) × HasGrown (E.holds err.old) (E.holds err.new) (take n (limit_line entries lines))) }
    ensures failed { OnErr result (Rose (E.faults err.old) (E.faults err.new)) }
{
    let mut entries_digits = Buffer::new();
    let mut lines_digits = Buffer::new();
    put_parts(
        err,
        &[
            b"rtsim: limit: entries ".as_slice(),
            entries_digits.format(entries).as_bytes(),
            b" lines ".as_slice(),
            lines_digits.format(lines).as_bytes(),
            b"\n".as_slice(),
        ],
    )
}

// Says with which line of a trace no run goes on.
fn say_trace_line<E: Sink>(no: u32, err: &mut E) -> Result<(), Failed>
    ensures ok { OnOk result (HasGrown (E.holds err.old) (E.holds err.new) (trace_line no)) }
    ensures front { OnErr result ((n : ℕ) × HasGrown (E.holds err.old) (E.holds err.new) (take n (trace_line no))) }
    ensures failed { OnErr result (Rose (E.faults err.old) (E.faults err.new)) }
{
    let mut digits = Buffer::new();
    put_parts(
        err,
        &[
            b"rtsim: trace line ".as_slice(),
            digits.format(no).as_bytes(),
            b"\n".as_slice(),
        ],
    )
}
