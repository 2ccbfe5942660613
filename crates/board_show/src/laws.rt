//! What is shown is read again.
ghost use Rattle.std.specs.Prelude.{◌≡◌, ◌≤◌, length, Ok};
ghost use Rattle.rt_plain.specs.PlainBoard.{PlainBoard};
ghost use Rattle.rt_plain.specs.text.Canon.{IsValid, canonical_text};
ghost use Rattle.board_text.specs.Faults.{IsOrMemory, longest};

use crate::showing::show;
use board_text::{BoardFault, parse};
use rt_plain::Board;
use std::alloc::Global;

/// Shows a board and reads what is shown. Where the canonical text has at most `LONGEST` bytes, the same board comes
/// out, unless memory runs out.
pub fn shown_boards_are_read(alloc: Global, board: &Board) -> Result<Board, BoardFault>
    ensures { length (canonical_text board.now) ≤ longest → IsOrMemory result (Ok board.now) }
{
    board.is_valid();
    match show(alloc, board) {
        Ok(text) => parse(alloc, text.as_slice()),
        Err(_) => Err(BoardFault::Memory),
    }
}

/// No canonical text is that of two boards.
#[tactic(auto, using(crate::proofs::BoardLemmas::one_board))]
pub fn canonical_texts_are_of_one_board()
    ensures { (a b : PlainBoard) → IsValid a → IsValid b → canonical_text a ≡ canonical_text b → a ≡ b }
{}
