ghost use Rattle.std.specs.Prelude.{◌≡◌};
ghost use Rattle.board_text.specs.declared.fault.Refusal.TheVariants.{Memory, Line};

use rt_base::AllocFailed;
use rt_plain::Why;
use std::alloc::AllocError;
use thiserror::Error;

/// Why a text is no board.
#[derive(Debug, Drop, PartialEq, Eq, Error)]
pub enum BoardFault {
    /// The text has more bytes than a board may have.
    #[error("board too long")]
    TooLong { bytes: usize },
    /// The first line that breaks the rules, numbered from 1, and the first rule that it breaks.
    #[error("line {no}: {why:?}")]
    Line { no: u32, why: Why },
    /// There was no memory.
    #[error("out of memory")]
    Memory,
}

/// Why a line was not read.
#[derive(Debug, Drop)]
pub(crate) enum Refusal {
    Memory,
    Line(Why),
}

impl From<AllocError> for Refusal {
    ghost from_gives = { λ _ e. e ≡ Memory };

    fn from(_e: AllocError) -> Refusal {
        Refusal::Memory
    }
}

impl<T: Drop> From<AllocFailed<T>> for Refusal {
    ghost from_gives = { λ _ e. e ≡ Memory };

    fn from(_e: AllocFailed<T>) -> Refusal {
        Refusal::Memory
    }
}

impl From<Why> for Refusal {
    ghost from_gives = { λ w e. e ≡ Line w };

    fn from(why: Why) -> Refusal {
        Refusal::Line(why)
    }
}
