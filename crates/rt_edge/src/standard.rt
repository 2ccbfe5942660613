ghost use Rattle.std.specs.Prelude.{◌≡◌};

use crate::{Failed, Sink};
use std::io::Write;
use std::marker::Model;

/// A stream. What it holds is told where the stream tells it.
#[derive(Drop)]
pub struct StdSink<W: Write + Drop> {
    stream: W,
    faults: u64,
}

impl<W: Write + Drop> Model for StdSink<W> {
    ghost use Rattle.rt_edge.specs.StdSinkSeen.{StdSinkSeen};

    ghost Value = { StdSinkSeen };

    ghost view = { λ s. record { holds = W.contents s.stream; faults = s.faults } };
}

impl<W: Write + Drop> StdSink<W> {
    /// A sink that writes to a stream.
    pub fn new(stream: W) -> StdSink<W>
        ensures { result ≡ record { holds = W.contents stream; faults = 0 } }
    {
        StdSink { stream, faults: 0 }
    }
}

impl<W: Write + Drop> Sink for StdSink<W> {
    ghost holds = { λ s. s.holds };

    ghost faults = { λ s. s.faults };

    fn put(&mut self, piece: &[u8]) -> Result<usize, Failed> {
        match self.stream.write(piece) {
            Ok(n) if n > 0 || piece.is_empty() => Ok(n),
            _ => {
                self.faults = self.faults.saturating_add(1);
                Err(Failed)
            }
        }
    }
}
