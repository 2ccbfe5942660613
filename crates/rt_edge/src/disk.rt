ghost use Rattle.std.specs.Prelude.{◌≡◌, ◌↔◌, [], Some, None};
ghost use Rattle.std.specs.IoError.{error_kind};

use crate::{Failed, Files, OpenFault};
use std::fs::OpenOptions;
use std::io;
use std::io::{ErrorKind, Read};
use std::marker::Model;

/// The files of a runtime. What an open one has left is told where its reader tells it, and nothing else is.
#[derive(Drop)]
pub struct DiskFiles<'a, R: std::rt::Files> {
    runtime: &'a R,
    file: Option<R::File>,
    missing: u64,
    faults: u64,
    taken: u64,
}

impl<'a, R: std::rt::Files> Model for DiskFiles<'a, R> {
    ghost use Rattle.std.specs.Prelude.{[], Some};
    ghost use Rattle.std.specs.Option.{option_map_or};
    ghost use Rattle.rt_edge.specs.DiskFilesSeen.{DiskFilesSeen};

    ghost Value = { DiskFilesSeen };

    ghost view = { λ d. record {
      left = option_map_or R.File.remaining d.file (Some []);
      missing = d.missing;
      faults = d.faults;
      taken = d.taken;
    } };
}

// Why a file isn't open: only the error that there is none of the name makes it a missing one.
fn fault_of(error: &io::Error) -> OpenFault
    ensures { (result ≡ OpenFault.Missing) ↔ (error_kind error.now ≡ ErrorKind.NotFound) }
{
    match error.kind() {
        ErrorKind::NotFound => OpenFault::Missing,
        _ => OpenFault::Failed,
    }
}

impl<'a, R: std::rt::Files> DiskFiles<'a, R> {
    /// The files of a runtime. None is open.
    pub fn new(runtime: &'a R) -> DiskFiles<'a, R>
        ensures { result ≡ record { left = Some []; missing = 0; faults = 0; taken = 0 } }
    {
        DiskFiles {
            runtime,
            file: None,
            missing: 0,
            faults: 0,
            taken: 0,
        }
    }
}

impl<'a, R: std::rt::Files> Files for DiskFiles<'a, R> {
    ghost held = { λ _. None };

    ghost left = { λ d. d.left };

    ghost missing = { λ d. d.missing };

    ghost faults = { λ d. d.faults };

    ghost taken = { λ d. d.taken };

    fn open(&mut self, name: &str) -> Result<(), OpenFault> {
        self.file = None;
        match OpenOptions::new().read(true).open(self.runtime, name) {
            Ok(file) => {
                self.file = Some(file);
                Ok(())
            }
            Err(error) => {
                let fault = fault_of(&error);
                match fault {
                    OpenFault::Missing => self.missing = self.missing.saturating_add(1),
                    OpenFault::Failed => self.faults = self.faults.saturating_add(1),
                }
                Err(fault)
            }
        }
    }

    fn take(&mut self, buf: &mut [u8]) -> Result<usize, Failed> {
        let Some(file) = &mut self.file else {
            return Ok(0);
        };
        match file.read(buf) {
            Ok(n) => {
                self.taken = self.taken.saturating_add(n as u64);
                Ok(n)
            }
            Err(_) => {
                self.faults = self.faults.saturating_add(1);
                Err(Failed)
            }
        }
    }
}
