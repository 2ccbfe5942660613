ghost use Rattle.std.specs.Prelude.{◌≡◌, ◌+◌, ◌-◌, ◌^◌, ◌<◌, ◌≤◌, ◌↔◌, ◌++◌, [], min, length, vec_len, vec_capacity};
ghost use Rattle.std.specs.Prelude.{Some, IfOk, IsTrue, Contains};
ghost use Rattle.rt_edge.specs.Shelved.{names_of};

use crate::shelf::Shelf;
use crate::{Failed, Files, OpenFault, Sink};
use rt_base::List;
use std::alloc::{AllocError, Global};
use std::marker::Model;

// Calls, counted from 1, of which those with the listed numbers fail.
#[derive(Drop)]
struct Calls {
    made: u64,
    fails: List<u64>,
}

impl Calls {
    // Counts one more call, and tells whether it fails.
    fn fails_next(&mut self) -> bool
        ensures made { self.new ≡ record self.old { made = min (self.old.made + 1) (2 ^ 64 - 1) } }
        ensures fails { IsTrue result ↔ Contains self.old.fails self.new.made }
    {
        self.made = self.made.saturating_add(1);
        self.fails.as_slice().contains(&self.made)
    }
}

/// Files in memory. A call of the trait takes no memory.
#[derive(Drop)]
pub struct MemFiles {
    shelf: Shelf,
    calls: Calls,
    faults: u64,
}

impl Model for MemFiles {
    ghost use Rattle.rt_edge.specs.MemFilesSeen.{MemFilesSeen};

    ghost Value = { MemFilesSeen };

    ghost view = { λ m. record {
      files = m.shelf.files;
      left = m.shelf.left;
      missing = m.shelf.missing;
      faults = m.faults;
      taken = m.shelf.taken;
    } };
}

impl MemFiles {
    /// Files with these names and contents, of which the first of a name counts. A call takes at most
    /// `most` bytes. The calls of `open` and `take` with these numbers, counted together from 1, fail.
    pub fn new(files: List<(List<u8>, List<u8>)>, most: usize, fails: List<u64>) -> MemFiles
        requires { 0 < most }
        ensures { result ≡ record { files = files; left = []; missing = 0; faults = 0; taken = 0 } }
    {
        MemFiles {
            shelf: Shelf::new(files, most),
            calls: Calls { made: 0, fails },
            faults: 0,
        }
    }
}

impl Files for MemFiles {
    ghost held = { λ m. Some (names_of m.files) };

    ghost left = { λ m. Some m.left };

    ghost missing = { λ m. m.missing };

    ghost faults = { λ m. m.faults };

    ghost taken = { λ m. m.taken };

    fn open(&mut self, name: &str) -> Result<(), OpenFault> {
        if self.calls.fails_next() {
            self.shelf.close();
            self.faults = self.faults.saturating_add(1);
            return Err(OpenFault::Failed);
        }
        if self.shelf.open(name) {
            Ok(())
        } else {
            Err(OpenFault::Missing)
        }
    }

    fn take(&mut self, buf: &mut [u8]) -> Result<usize, Failed> {
        if self.calls.fails_next() {
            self.faults = self.faults.saturating_add(1);
            return Err(Failed);
        }
        Ok(self.shelf.take(buf))
    }
}

/// A sink in memory. A call of the trait takes no memory.
#[derive(Drop)]
pub struct MemSink {
    bytes: Vec<u8>,
    room: usize,
    most: usize,
    calls: Calls,
    faults: u64,
}

impl Model for MemSink {
    ghost use Rattle.std.specs.Prelude.{◌<◌, ◌≤◌, vec_len, vec_capacity};
    ghost use Rattle.rt_edge.specs.MemSinkSeen.{MemSinkSeen};

    ghost Value = { MemSinkSeen };

    ghost view = { λ m. record { bytes = m.bytes.items; faults = m.faults } };

    ghost invariant = { λ m. (vec_len m.bytes ≤ m.room) × (m.room ≤ vec_capacity m.bytes) };
}

// Adds bytes for which there is room.
fn add(bytes: &mut Vec<u8>, piece: &[u8])
    requires { vec_len bytes.old + length piece.now ≤ vec_capacity bytes.old }
    ensures items { bytes.new.items ≡ bytes.old.items ++ piece.now }
    ensures len { vec_len bytes.new ≡ vec_len bytes.old + length piece.now }
    ensures capacity { vec_capacity bytes.old ≤ vec_capacity bytes.new }
{
    if bytes.extend_from_slice(piece).is_err() {
        unreachable!();
    }
}

impl MemSink {
    /// A sink that takes at most `most` bytes by a call, and `room` bytes in all. The calls with these
    /// numbers, counted from 1, fail.
    pub fn new(
        alloc: Global,
        room: usize,
        most: usize,
        fails: List<u64>,
    ) -> Result<MemSink, AllocError>
        requires { 0 < most }
        ensures { IfOk result (λ sink. sink ≡ record { bytes = []; faults = 0 }) }
    {
        let bytes = Vec::with_capacity(alloc, room)?;
        Ok(MemSink {
            bytes,
            room,
            most,
            calls: Calls { made: 0, fails },
            faults: 0,
        })
    }

    /// What it holds.
    pub fn bytes(&self) -> &[u8]
        ensures { result.now ≡ self.now.bytes }
    {
        self.bytes.as_slice()
    }
}

impl Sink for MemSink {
    ghost holds = { λ m. Some m.bytes };

    ghost faults = { λ m. m.faults };

    fn put(&mut self, piece: &[u8]) -> Result<usize, Failed> {
        let n = piece.len().min(self.most).min(self.room - self.bytes.len());
        if self.calls.fails_next() || (n == 0 && !piece.is_empty()) {
            self.faults = self.faults.saturating_add(1);
            return Err(Failed);
        }
        add(&mut self.bytes, &piece[..n]);
        Ok(n)
    }
}
