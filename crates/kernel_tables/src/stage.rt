ghost use Rattle.std.specs.Prelude.{◌≡◌, false, true};
ghost use Rattle.rt_plain.specs.kernel.DeviceCalls.{waits_at_console};
ghost use Rattle.rt_plain.specs.kernel.Effects.{retry_of};
ghost use Rattle.rt_plain.specs.kernel.State.{is_closed, is_initial, is_suspended};
ghost use Rattle.rt_plain.specs.kernel.Sound.{is_waiting};
ghost use Rattle.rt_plain.specs.kernel.Due.{timeout_code};
ghost use Rattle.rt_plain.specs.kernel.Rows.{state_at};
ghost use Rattle.kernel_tables.specs.Repeated.{is_repeated};
ghost use Rattle.kernel_tables.specs.Threads.{stage_of};

use crate::awaited::Awaited;
use crate::retry::Retry;
use rt_base::Code;
use rt_plain::{Call, ThreadState};

/// Where a thread stands.
#[derive(Drop)]
pub enum Stage {
    /// Not started.
    Initial,
    /// In the ready list, or on a core.
    Active,
    /// Waits for this, with the arrival number of its wait.
    Waiting(Awaited, u64),
    Suspended,
    /// Ended: it is found no more.
    Closed,
}

impl Stage {
    // Whether the thread has ended.
    pub(crate) fn is_closed(&self) -> bool
        ensures { result ≡ is_closed (stage_of self.now) }
    {
        match self {
            Stage::Closed => true,
            _ => false,
        }
    }

    // Whether the thread isn't started.
    pub(crate) fn is_initial(&self) -> bool
        ensures { result ≡ is_initial (stage_of self.now) }
    {
        match self {
            Stage::Initial => true,
            _ => false,
        }
    }

    // Whether the thread is suspended.
    pub(crate) fn is_suspended(&self) -> bool
        ensures { result ≡ is_suspended (stage_of self.now) }
    {
        match self {
            Stage::Suspended => true,
            _ => false,
        }
    }

    // Whether the thread waits.
    pub(crate) fn is_waiting(&self) -> bool
        ensures { result ≡ is_waiting (stage_of self.now) }
    {
        match self {
            Stage::Waiting(_, _) => true,
            _ => false,
        }
    }

    // Whether the thread waits for bytes of the console.
    pub(crate) fn waits_at_console(&self) -> bool
        ensures { result ≡ waits_at_console (stage_of self.now) }
    {
        match self {
            Stage::Waiting(Awaited::Console, _) => true,
            _ => false,
        }
    }

    // The code with which a wait ends at its due moment: 0 for a delay, and else a timeout.
    pub(crate) fn timeout_code(&self) -> Code
        ensures { result ≡ timeout_code (stage_of self.now) }
    {
        match self {
            Stage::Waiting(Awaited::Call(Call::Delay(_)), _) => Code::Ok,
            _ => Code::Timeout,
        }
    }

    // What a thread that waits in a call on a mailbox or a message queue, for the console or for a work goes for again,
    // where its first wait was due at a moment, if at any.
    pub(crate) fn retry(self, due: Option<u64>) -> Option<Retry>
        requires { is_repeated (stage_of self) ≡ true }
        ensures { result ≡ retry_of (stage_of self) due }
    {
        match self {
            Stage::Waiting(what, _) => Some(Retry::new(what, due)),
            _ => None,
        }
    }

    // What the table of threads says, with whether the thread runs.
    pub(crate) fn state(&self, running: bool) -> ThreadState
        ensures { result ≡ state_at running (stage_of self.now) }
    {
        match self {
            Stage::Initial => ThreadState::Initial,
            Stage::Active if running => ThreadState::Running,
            Stage::Active => ThreadState::Ready,
            _ => ThreadState::Suspended,
        }
    }
}
