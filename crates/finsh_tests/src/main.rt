//! A session of the shell: standard input is what the console receives, and what the shell prints of it is compared with
//! a file. Behind each line stands what its command prints.
#![tactic(auto)]

mod hand;

use crate::hand::Hand;
use finsh::{Shell, command};
use rt_plain::{Line, Lines};
use std::io;
use std::io::{BufReader, Read, Write};

// Writes the bytes that lines print.
fn write_printed<W: Write>(lines: &Lines, to: &mut W) -> io::Result<()> {
    for place in 0..lines.len() {
        if let Line::Print(text) = lines.at(place) {
            to.write_all(text.bytes())?;
        }
    }
    Ok(())
}

fn main(rt: HostRuntime) -> io::Result<()> {
    let alloc = rt.alloc();
    let mut out = io::writer(&rt);
    let mut received = Vec::new(alloc);
    BufReader::new(alloc, rt.reader())?.read_to_end(&mut received)?;
    let mut shell = Shell::new();
    let mut lines = Lines::new(alloc, 300)?;
    for byte in &received {
        if let Some(line) = shell.feed(*byte) {
            out.write_all(b"> ")?;
            out.write_all(line.bytes())?;
            out.write_all(b"\n")?;
            lines.clear();
            command(line.bytes(), &Hand, &mut lines);
            write_printed(&lines, &mut out)?;
        }
    }
    Ok(())
}
