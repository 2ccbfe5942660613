//! Which lines of a trace have a form, and what texts are read as boards. Both come from standard input, and what is told
//! of them is compared with a file.
#![tactic(auto)]

#[cfg(test)]
mod board_tests;
#[cfg(test)]
mod journal_tests;
#[cfg(test)]
mod room_tests;

use board_show::show;
use board_text::parse;
use journal::read_events;
use rt_base::Event;
use std::alloc::{AllocError, Global};
use std::io;
use std::io::{BufRead, BufReader, Write};

// Begins a board, whose lines are those below it up to the next such line.
const BOARD: &[u8] = b"== board";

// Whether reading goes on behind the line.
fn has_form(alloc: Global, line: &[u8]) -> Result<bool, AllocError> {
    let mut trace = Vec::from_slice(alloc, line)?;
    trace.extend_from_slice(b"\n2 tick 1\n")?;
    let events = read_events(alloc, &trace)?;
    Ok(events.as_slice().last() == Some(&Event::Tick))
}

// Writes the line again, behind `+` where it has a form, and behind `-` where it has none.
fn tell_line<W: Write>(alloc: Global, line: &[u8], to: &mut W) -> io::Result<()> {
    let sign: &[u8] = if has_form(alloc, line)? { b"+ " } else { b"- " };
    to.write_all(sign)?;
    to.write_all(line)?;
    to.write_all(b"\n")
}

// Writes the canonical text of the board that a text is, or why it is none.
fn tell_board<W: Write>(alloc: Global, text: &[u8], to: &mut W) -> io::Result<()> {
    to.write_all(BOARD)?;
    to.write_all(b"\n")?;
    match parse(alloc, text) {
        Ok(board) => to.write_all(show(alloc, &board)?.as_slice()),
        Err(fault) => writeln!(to, "{fault}"),
    }
}

// The lines before the first board are those of traces.
fn main(rt: HostRuntime) -> io::Result<()> {
    let alloc = rt.alloc();
    let mut out = io::writer(&rt);
    let mut board: Option<Vec<u8>> = None;
    for line in BufReader::new(alloc, rt.reader())?.split(alloc, b'\n') {
        let line = line?;
        if line.as_slice() == BOARD {
            if let Some(text) = board.replace(Vec::new(alloc)) {
                tell_board(alloc, &text, &mut out)?;
            }
            continue;
        }
        match &mut board {
            Some(text) => {
                text.extend_from_slice(&line)?;
                text.extend_from_slice(b"\n")?;
            }
            None => tell_line(alloc, &line, &mut out)?,
        }
    }
    match &board {
        Some(text) => tell_board(alloc, text, &mut out),
        None => Ok(()),
    }
}
