ghost use Rattle.std.specs.Prelude.{◌≡◌, true, None};
ghost use Rattle.std.specs.List.{list_all};
ghost use Rattle.rt_plain.specs.kernel.TimerKinds.{is_soft};
ghost use Rattle.rt_kernel.specs.Built.{subject_of_class, subject_where, subject_of, is_built_statement, is_built_action, is_built_thread, is_built_timer, has_built_classes_alone, has_scripts_alone, is_built, IsBuilt};

use rt_base::Class;
use rt_plain::{Board, Call, Stmt, ThreadDef, TimerDef, TimerKind};

/// The objects on which a call works: all its calls stand in one file.
#[derive(Clone, Copy, PartialEq, Eq)]
pub enum Subject {
    Thread,
    Sem,
    Event,
    Mailbox,
    Queue,
    Timer,
    Device,
    Pool,
}

// The objects on which a deletion works, `None` where the class isn't built.
fn subject_of_class(class: Class) -> Option<Subject>
    ensures { result ≡ subject_of_class class }
{
    match class {
        Class::Sem => Some(Subject::Sem),
        Class::Event => Some(Subject::Event),
        Class::Mailbox => Some(Subject::Mailbox),
        Class::MsgQueue => Some(Subject::Queue),
        _ => None,
    }
}

// A call on devices, where its number is in its range, as in each board.
fn subject_where(fits: bool) -> Option<Subject>
    ensures { result ≡ subject_where fits }
{
    if fits { Some(Subject::Device) } else { None }
}

// The objects on which a call works, `None` where the call isn't built.
pub fn subject_of(call: &Call) -> Option<Subject>
    ensures { result ≡ subject_of call.now }
{
    match call {
        Call::Delay(_) | Call::Yield => Some(Subject::Thread),
        Call::SchedLock | Call::SchedUnlock | Call::Lock | Call::Unlock => Some(Subject::Thread),
        Call::Startup(_) | Call::Suspend(_) | Call::Resume(_) => Some(Subject::Thread),
        Call::Kill(_) | Call::SetPrio(_, _) => Some(Subject::Thread),
        Call::SemCreate(_, _, _) | Call::SemTake(_, _) | Call::SemRelease(_) => Some(Subject::Sem),
        Call::EventCreate(_, _) | Call::EventSend(_, _) => Some(Subject::Event),
        Call::EventRecv(_, _, _, _, _) => Some(Subject::Event),
        Call::MbSend(_, _, _) | Call::MbUrgent(_, _) => Some(Subject::Mailbox),
        Call::MbRecv(_, _) => Some(Subject::Mailbox),
        Call::MqSend(_, _, _) | Call::MqUrgent(_, _) => Some(Subject::Queue),
        Call::MqRecv(_, _) => Some(Subject::Queue),
        Call::TimerStart(_) | Call::TimerStop(_) | Call::TimerSet(_, _) => Some(Subject::Timer),
        Call::DevOpen(_) | Call::DevClose(_) | Call::DevWrite(_, _) => Some(Subject::Device),
        Call::DevRead(_, count) => subject_where(*count <= 64),
        Call::DevCtl(_, rate) => subject_where(1 <= *rate && *rate <= 64),
        Call::MpAlloc(_, _) | Call::MpFree(_) => Some(Subject::Pool),
        Call::Delete(class, _) => subject_of_class(*class),
        _ => None,
    }
}

fn is_built_statement(statement: &Stmt) -> bool
    ensures { result ≡ is_built_statement statement.now }
{
    match statement {
        Stmt::Do(call) => subject_of(call).is_some(),
        _ => true,
    }
}

fn are_built_statements(script: &[Stmt]) -> bool
    ensures { result ≡ list_all is_built_statement script.now }
{
    script.iter().all(|statement| is_built_statement(statement))
}

fn is_built_thread(def: &ThreadDef) -> bool
    ensures { result ≡ is_built_thread def.now }
{
    are_built_statements(def.script.as_slice())
}

fn are_built_threads(defs: &[ThreadDef]) -> bool
    ensures { result ≡ list_all is_built_thread defs.now }
{
    defs.iter().all(|def| is_built_thread(def))
}

// What a timer does, if it does something.
fn is_built_action(action: &Option<Stmt>) -> bool
    ensures { result ≡ is_built_action action.now }
{
    match action {
        Some(statement) => is_built_statement(statement),
        None => true,
    }
}

// Whether a thread makes the call of a timer of this kind.
fn is_soft(kind: TimerKind) -> bool
    ensures { result ≡ is_soft kind }
{
    match kind {
        TimerKind::OneShot | TimerKind::Periodic => false,
        TimerKind::SoftOne | TimerKind::SoftPer => true,
    }
}

fn is_built_timer(def: &TimerDef) -> bool
    ensures { result ≡ is_built_timer def.now }
{
    !is_soft(def.kind) && is_built_action(&def.call)
}

fn are_built_timers(defs: &[TimerDef]) -> bool
    ensures { result ≡ list_all is_built_timer defs.now }
{
    defs.iter().all(|def| is_built_timer(def))
}

fn has_built_classes_alone(board: &Board) -> bool
    ensures { result ≡ has_built_classes_alone board.now }
{
    board.mutexes.len() == 0
}

fn has_scripts_alone(board: &Board) -> bool
    ensures { result ≡ has_scripts_alone board.now }
{
    !board.shell.is_some() && !board.soft.is_some()
}

/// What the test of a built board says, and what each valid board has.
pub fn know_built(board: &Board)
    requires { is_built board.now ≡ true }
    ensures { IsBuilt board.now }
{
    let _sems = &board.sems;
}

/// Whether the kernel runs the board so far: a board without a shell and without a thread for soft timers, no objects besides them but semaphores, event objects, mailboxes, message queues, timers and devices, and no statements but those on these.
pub fn is_built(board: &Board) -> bool
    ensures { result ≡ is_built board.now }
{
    has_built_classes_alone(board)
        && (has_scripts_alone(board)
            && (are_built_threads(board.threads.as_slice())
                && are_built_timers(board.timers.as_slice())))
}
