//! Writing statements by the table that they are read by.
ghost use Rattle.std.specs.Prelude.{◌≡◌, ◌++◌, OnOk};
ghost use Rattle.board_show.specs.Writing.{call_text, statement_text};

use crate::fields::{
    byte, class, code, half, how, keep, mode, name, number, order, prio, run, text, wait, what,
};
use crate::writing::{all0, all1, all2, all3, all5};
use board_text::statement_rows;
use rt_base::List;
use rt_plain::{Call, Stmt};
use std::alloc::AllocError;

macro_rules! put_call {
    ($out:ident $call:ident;
        plain {$($plain:tt)*}
        calls {$($kind:ident $word:literal $all:ident ($($value:tt)*) {$($place:literal $field:ident : $writer:ident($($arg:expr),*))*})*}) => {
        match $call {
            $($($value)* => $all($out, $word $(, $writer($field))*),)*
        }
    };
}

// A call.
#[tactic(auto, unfolding(crate::specs::Writing::call_text))]
fn put_call(out: &mut List<u8>, call: &Call) -> Result<(), AllocError>
    ensures { OnOk result (out.new ≡ out.old ++ call_text call.now) }
{
    statement_rows!(put_call 0 out call)
}

macro_rules! put_statement {
    ($out:ident $statement:ident;
        plain {$($kind:ident $word:literal $all:ident ($($value:tt)*) {$($place:literal $field:ident : $writer:ident($($arg:expr),*))*})*}
        calls {$($call:tt)*}) => {
        match $statement {
            $($($value)* => $all($out, $word $(, $writer($field))*),)*
            Stmt::Do(call) => put_call($out, call),
        }
    };
}

// A statement, without its indent and its newline.
#[tactic(auto, unfolding(crate::specs::Writing::statement_text, crate::specs::Writing::call_text))]
pub(crate) fn put_statement(out: &mut List<u8>, statement: &Stmt) -> Result<(), AllocError>
    ensures { OnOk result (out.new ≡ out.old ++ statement_text statement.now) }
{
    statement_rows!(put_statement 0 out statement)
}
