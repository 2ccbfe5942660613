ghost use Rattle.std.specs.Prelude.{◌≡◌};
ghost use Rattle.rt_base.specs.Codes.{code_number, sleep_number, run_mode_number};

use crate::numbers::CoreNo;

/// What a kernel call answers: RT-Thread's error codes. Scripts and traces show the negative number.
///
/// The numbers from 0 to 10 are this project's own.
#[derive(Clone, Copy, Debug, PartialEq, Eq)]
pub enum Code {
    /// `RT_EOK`, shown as `0`.
    Ok,
    /// `-RT_ERROR`, -1: not allowed in this state, or the object waited for was deleted.
    Error,
    /// `-RT_ETIMEOUT`, -2: the time of a wait has passed, or a timeout of 0 found nothing to take.
    Timeout,
    /// `-RT_EFULL`, -3: no room, or a count at its end.
    Full,
    /// `-RT_EEMPTY`, -4. No call answers it: an empty mailbox or queue is waited for.
    Empty,
    /// `-RT_ENOMEM`, -5: the class of a new object is full.
    NoMem,
    /// `-RT_ENOSYS`, -6: the device can't do that.
    NoSys,
    /// `-RT_EBUSY`, -7: the name of a new object is taken.
    Busy,
    /// `-RT_EIO`, -8. No call answers it.
    Io,
    /// `-RT_EINTR`, -9: a wait was ended by `resume`.
    Intr,
    /// `-RT_EINVAL`, -10: there is no object of that name.
    Inval,
}

/// How deep the machine sleeps: RT-Thread's sleep modes, from the lightest on.
///
/// The lightest mode with a vote is taken, or the board's default mode where no mode has one. That is this
/// project's own.
#[derive(Clone, Copy, Debug, PartialEq, Eq)]
pub enum Sleep {
    /// `PM_SLEEP_MODE_NONE`, the word `none`: ticks go on.
    NoSleep,
    /// `PM_SLEEP_MODE_IDLE`: ticks go on.
    Idle,
    /// `PM_SLEEP_MODE_LIGHT`: ticks stop while all cores are idle and no device is busy.
    Light,
    /// `PM_SLEEP_MODE_DEEP`: ticks stop as in `Light`.
    Deep,
    /// `PM_SLEEP_MODE_STANDBY`: the machine halts once all cores are idle and no device is busy.
    Standby,
    /// `PM_SLEEP_MODE_SHUTDOWN`: the machine halts as in `Standby`.
    Shutdown,
}

/// How fast the machine runs: RT-Thread's run modes.
///
/// How many rounds of steps each gives between two ticks is this project's own.
#[derive(Clone, Copy, Debug, PartialEq, Eq)]
pub enum RunMode {
    /// `PM_RUN_MODE_HIGH_SPEED`: 8 rounds a tick.
    High,
    /// `PM_RUN_MODE_NORMAL_SPEED`: 4 rounds a tick. The mode at opening.
    Normal,
    /// `PM_RUN_MODE_MEDIUM_SPEED`: 2 rounds a tick.
    Medium,
    /// `PM_RUN_MODE_LOW_SPEED`: 1 round a tick.
    Low,
}

/// In which order the waiters of an object stand: RT-Thread's IPC flags. Mutexes always have `Prio`.
#[derive(Clone, Copy, Debug, PartialEq, Eq)]
pub enum WaitOrder {
    /// `RT_IPC_FLAG_FIFO`: in the order in which they came.
    Fifo,
    /// `RT_IPC_FLAG_PRIO`: the most urgent by its current priority first, and equals in the order in which they came.
    Prio,
}

/// The classes of kernel objects. Names are unique within a class.
#[derive(Clone, Copy, Debug, PartialEq, Eq)]
pub enum Class {
    Thread,
    Sem,
    Event,
    Mutex,
    Mailbox,
    MsgQueue,
    Timer,
    Device,
}

/// Why a machine has halted. This project's own.
#[derive(Clone, Copy, Debug, PartialEq, Eq)]
pub enum Halt {
    /// Nothing runs, nothing is ready or armed, no arrival is left, and no device is busy.
    Quiet,
    /// The board's last tick has come.
    Until,
    /// All cores are idle in the sleep mode `Standby`, and no device is busy.
    Standby,
    /// All cores are idle in the sleep mode `Shutdown`, and no device is busy.
    Shutdown,
}

/// What may happen to a machine. That one event is one statement, switch, sleep or tick is this project's own.
#[derive(Clone, Copy, Debug, PartialEq, Eq)]
pub enum Event {
    /// A step of this core: it switches to a thread, does one statement of the one that it runs, or sleeps.
    Step(CoreNo),
    /// One tick of the kernel's clock, of all cores at once.
    Tick,
}

impl Code {
    /// The number from 0 to 10 that is shown behind the minus sign.
    pub fn number(&self) -> u8
        ensures { result ≡ code_number self.now }
    {
        match self {
            Code::Ok => 0,
            Code::Error => 1,
            Code::Timeout => 2,
            Code::Full => 3,
            Code::Empty => 4,
            Code::NoMem => 5,
            Code::NoSys => 6,
            Code::Busy => 7,
            Code::Io => 8,
            Code::Intr => 9,
            Code::Inval => 10,
        }
    }
}

impl Sleep {
    /// Its place from 0, the lightest, to 5.
    pub fn number(&self) -> u8
        ensures { result ≡ sleep_number self.now }
    {
        match self {
            Sleep::NoSleep => 0,
            Sleep::Idle => 1,
            Sleep::Light => 2,
            Sleep::Deep => 3,
            Sleep::Standby => 4,
            Sleep::Shutdown => 5,
        }
    }
}

impl RunMode {
    /// Its place from 0, the fastest, to 3.
    pub fn number(&self) -> u8
        ensures { result ≡ run_mode_number self.now }
    {
        match self {
            RunMode::High => 0,
            RunMode::Normal => 1,
            RunMode::Medium => 2,
            RunMode::Low => 3,
        }
    }
}
