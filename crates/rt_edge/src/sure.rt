ghost use Rattle.std.specs.Prelude.{◌≡◌, ◌<◌, [], Some, None, Ok, length};
ghost use Rattle.rt_edge.specs.Shelved.{names_of};

use crate::shelf::Shelf;
use crate::{Failed, Files, OpenFault, Sink};
use rt_base::List;
use std::marker::Model;

/// Files in memory of which no call fails, or takes memory.
#[derive(Drop)]
pub struct SureFiles {
    shelf: Shelf,
}

impl Model for SureFiles {
    ghost use Rattle.rt_edge.specs.SureFilesSeen.{SureFilesSeen};

    ghost Value = { SureFilesSeen };

    ghost view = { λ s. s.shelf };
}

impl SureFiles {
    /// Files with these names and contents, of which the first of a name counts. A call takes at most
    /// `most` bytes.
    pub fn new(files: List<(List<u8>, List<u8>)>, most: usize) -> SureFiles
        requires { 0 < most }
        ensures { result ≡ record { files = files; left = []; missing = 0; taken = 0 } }
    {
        SureFiles {
            shelf: Shelf::new(files, most),
        }
    }
}

impl Files for SureFiles {
    ghost held = { λ s. Some (names_of s.files) };

    ghost left = { λ s. Some s.left };

    ghost missing = { λ s. s.missing };

    ghost faults = { λ s. 0 };

    ghost taken = { λ s. s.taken };

    fn open(&mut self, name: &str) -> Result<(), OpenFault> {
        if self.shelf.open(name) {
            Ok(())
        } else {
            Err(OpenFault::Missing)
        }
    }

    fn take(&mut self, buf: &mut [u8]) -> Result<usize, Failed> {
        Ok(self.shelf.take(buf))
    }
}

/// A sink that takes each piece whole, and keeps nothing. No call fails.
#[derive(Drop)]
pub struct SureSink;

impl SureSink {
    /// A sink that never fails.
    pub fn new() -> SureSink {
        SureSink
    }
}

impl Sink for SureSink {
    ghost holds = { λ _. None };

    ghost faults = { λ _. 0 };

    fn put(&mut self, piece: &[u8]) -> Result<usize, Failed>
        ensures whole { result ≡ Ok (length piece.now) }
    {
        Ok(piece.len())
    }
}
