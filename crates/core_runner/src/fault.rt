ghost use Rattle.std.specs.Prelude.{◌≡◌};
ghost use Rattle.core_runner.specs.declared.fault.RunFault.TheVariants.{Memory};
ghost use Rattle.core_runner.specs.declared.fault.ReplayFault.TheVariants.{Memory as NoMemory};

use std::alloc::AllocError;

/// Why there is no run of a board to its halt.
#[derive(Clone, Copy, Debug, PartialEq, Eq)]
pub enum RunFault {
    /// The board has something that isn't built yet.
    Later,
    /// The run meets a limit before it halts, at so many entries and lines.
    Limit { entries: u32, lines: u32 },
    /// There was no memory.
    Memory,
}

impl From<AllocError> for RunFault {
    ghost from_gives = { λ _ fault. fault ≡ Memory };

    fn from(_: AllocError) -> Self {
        RunFault::Memory
    }
}

/// Why a trace is not that of a halted run of a board.
#[derive(Clone, Copy, Debug, PartialEq, Eq)]
pub enum ReplayFault {
    /// The board has something that isn't built yet.
    Later,
    /// No run of the board goes on with the line of this number, from 1.
    Line { no: u32 },
    /// There was no memory.
    Memory,
}

impl From<AllocError> for ReplayFault {
    ghost from_gives = { λ _ fault. fault ≡ NoMemory };

    fn from(_: AllocError) -> Self {
        ReplayFault::Memory
    }
}
