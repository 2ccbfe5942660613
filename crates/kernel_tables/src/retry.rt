ghost use Rattle.std.specs.Prelude.{◌≡◌, true};
ghost use Rattle.rt_plain.specs.kernel.State.{InCall};
ghost use Rattle.kernel_tables.specs.Repeated.{is_in_call, is_repeated_call, is_repeated_wait};
ghost use Rattle.kernel_tables.specs.Awaiting.{awaited_of};

use crate::awaited::Awaited;
use rt_plain::Call;
use std::marker::Model;

/// What a woken thread goes for again: a call on a mailbox or a message queue, the bytes of the console, a work.
#[derive(Drop)]
pub struct Retry {
    what: Awaited,
    due: Option<u64>,
}

impl Model for Retry {
    ghost use Rattle.std.specs.Prelude.{◌≡◌, true};
    ghost use Rattle.rt_plain.specs.kernel.State.{Retry as PlainRetry};
    ghost use Rattle.kernel_tables.specs.Repeated.{is_repeated_wait};
    ghost use Rattle.kernel_tables.specs.Awaiting.{awaited_of};

    ghost Value = { PlainRetry };

    ghost view = { λ r. record { what = awaited_of r.what; due = r.due } };

    ghost invariant = { λ r. is_repeated_wait (awaited_of r.what) ≡ true };
}

impl Retry {
    // What it is, and the moment at which its first wait was due, if at any.
    pub(crate) fn new(what: Awaited, due: Option<u64>) -> Retry
        requires { is_repeated_wait (awaited_of what) ≡ true }
        ensures { result ≡ record { what = awaited_of what; due = due } }
    {
        Retry { what, due }
    }

    /// Whether it is a call.
    pub fn is_call(&self) -> bool
        ensures { result ≡ is_in_call self.now.what }
    {
        match &self.what {
            Awaited::Call(_) => true,
            _ => false,
        }
    }

    /// The call.
    pub fn call(&self) -> &Call
        requires { is_in_call self.now.what ≡ true }
        ensures what { self.now.what ≡ InCall result.now }
        ensures repeated { is_repeated_call result.now ≡ true }
    {
        match &self.what {
            Awaited::Call(call) => call,
            _ => unreachable!(),
        }
    }

    /// The moment at which its first wait was due: `None` where it had no end.
    pub fn due(&self) -> Option<u64>
        ensures { result ≡ self.now.due }
    {
        self.due
    }
}
