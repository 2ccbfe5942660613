//! What each command writes of a board. The cases come from standard input, and what they write is compared with a file.
#![tactic(auto)]

mod case;
#[cfg(test)]
mod fault_tests;
mod outside;
#[cfg(test)]
mod size_tests;

use case::{Case, tell};
use std::io;
use std::io::{BufRead, BufReader};

// A line `== WORDS` begins a case, and `=- WORDS` one whose file has no newline at its end. The lines below it are its file
// `b`, and those below a line `-- t` its file `t`.
fn main(rt: HostRuntime) -> io::Result<()> {
    let alloc = rt.alloc();
    let mut out = io::writer(&rt);
    let mut case = None;
    for line in BufReader::new(alloc, rt.reader())?.split(alloc, b'\n') {
        let line = line?;
        match Case::begun_by(alloc, &line)? {
            Some(next) => {
                if let Some(done) = case.replace(next) {
                    tell(alloc, &done, &mut out)?;
                }
            }
            None => {
                if let Some(open) = &mut case {
                    open.add_line(alloc, &line)?;
                }
            }
        }
    }
    match &case {
        Some(last) => tell(alloc, last, &mut out),
        None => Ok(()),
    }
}
