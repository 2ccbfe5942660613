ghost use Rattle.std.specs.Prelude.{◌≡◌};
ghost use Rattle.rt_plain.specs.kernel.Statements.{code_of_answer};
ghost use Rattle.rt_plain.specs.kernel.Due.{fired_code};
ghost use Rattle.rt_kernel.specs.Answer.{plain_answer};

use rt_base::Code;
use rt_plain::Fired;

/// What a call answers.
#[derive(Clone, Copy, Debug, PartialEq, Eq)]
pub enum Answer {
    /// The code, which is then the thread's last code.
    Code(Code),
    /// The thread waits, and its call ends later.
    Waits,
}

impl Answer {
    // The code that the line of a call shows, none where the thread waits.
    pub(crate) fn code(self) -> Option<Code>
        ensures { result ≡ code_of_answer (plain_answer self) }
    {
        match self {
            Answer::Code(code) => Some(code),
            Answer::Waits => None,
        }
    }

    // What the line of a timer shows of the answer to its call.
    pub(crate) fn fired(self) -> Fired
        ensures { result ≡ fired_code (plain_answer self) }
    {
        match self {
            Answer::Code(code) => Fired::Code(code),
            Answer::Waits => Fired::Nothing,
        }
    }
}
