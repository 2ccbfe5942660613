use crate::outside::{GOOD, perform};
use std::alloc::{AllocError, Global};
use std::io::Write;
use std::{io, str};

// Lines of a file, the last of which may have no newline.
#[derive(Drop)]
struct Lines {
    bytes: Vec<u8>,
    ends_in_newline: bool,
}

impl Lines {
    // No lines.
    fn new(alloc: Global, ends_in_newline: bool) -> Lines {
        Lines {
            bytes: Vec::new(alloc),
            ends_in_newline,
        }
    }

    // Adds a line. `*N LINE` adds LINE N times, with the numbers from 0 on for `#` and newlines for `|`.
    fn add(&mut self, alloc: Global, line: &[u8]) -> Result<(), AllocError> {
        let Some((times, repeated)) = repetition(line) else {
            return self.add_bytes(line);
        };
        for number in 0..times {
            let digits = number.to_string(alloc)?;
            let numbered = repeated.replace(alloc, '#', digits.as_str())?;
            let lines = numbered.as_str().replace(alloc, '|', "\n")?;
            self.add_bytes(lines.as_bytes())?;
        }
        Ok(())
    }

    // Adds some bytes and a newline.
    fn add_bytes(&mut self, bytes: &[u8]) -> Result<(), AllocError> {
        self.bytes.extend_from_slice(bytes)?;
        self.bytes.extend_from_slice(b"\n")
    }

    // The bytes of the file.
    fn as_bytes(&self) -> &[u8] {
        if self.ends_in_newline || self.bytes.is_empty() {
            return self.bytes.as_slice();
        }
        &self.bytes[..self.bytes.len() - 1]
    }
}

/// The words of a command, and its files.
#[derive(Drop)]
pub struct Case {
    header: Vec<u8>,
    words: Vec<String>,
    board: Lines,
    trace: Option<Lines>,
}

impl Case {
    /// The case that begins with this line, if one does.
    pub fn begun_by(alloc: Global, line: &[u8]) -> Result<Option<Case>, AllocError> {
        let ends_in_newline = line.starts_with(b"== ");
        if !ends_in_newline && !line.starts_with(b"=- ") {
            return Ok(None);
        }
        Ok(Some(Case {
            header: Vec::from_slice(alloc, line)?,
            words: words_of(alloc, &line[3..])?,
            board: Lines::new(alloc, ends_in_newline),
            trace: None,
        }))
    }

    /// Adds a line to the file that stands open. `-- t` opens the file `t`, and `-- t-` one without a newline at its end.
    pub fn add_line(&mut self, alloc: Global, line: &[u8]) -> Result<(), AllocError> {
        if line == b"-- t".as_slice() || line == b"-- t-".as_slice() {
            self.trace = Some(Lines::new(alloc, line.len() == 4));
            return Ok(());
        }
        match &mut self.trace {
            Some(trace) => trace.add(alloc, line),
            None => self.board.add(alloc, line),
        }
    }
}

// How often a line stands, and what it is, where it says this.
fn repetition(line: &[u8]) -> Option<(u16, &str)> {
    let text = str::from_utf8(line).ok()?;
    let (times, repeated) = text.strip_prefix('*')?.split_once(' ')?;
    Some((times.parse().ok()?, repeated))
}

// The words of a line.
fn words_of(alloc: Global, line: &[u8]) -> Result<Vec<String>, AllocError> {
    let mut words = Vec::new(alloc);
    if let Ok(text) = str::from_utf8(line) {
        for word in text.split_whitespace() {
            words.push(String::from_str(alloc, word)?)?;
        }
    }
    Ok(words)
}

/// Writes the line that the case began with, its status, what it wrote, and behind `|` its message.
pub fn tell<W: Write>(alloc: Global, case: &Case, to: &mut W) -> io::Result<()> {
    let trace = match &case.trace {
        Some(trace) => trace.as_bytes(),
        None => b"",
    };
    let told = perform(alloc, &case.words, trace, case.board.as_bytes(), GOOD)?;
    to.write_all(&case.header)?;
    writeln!(to, "\nstatus {}", told.status)?;
    to.write_all(told.out.bytes())?;
    to.write_all(b"|")?;
    to.write_all(told.err.bytes())?;
    to.write_all(b"\n")
}
