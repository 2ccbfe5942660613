use rt_base::{CoreNo, ObjNo, ThreadNo};

/// Who makes a call: a thread on a core, or a timer.
#[derive(Clone, Copy, Debug, PartialEq, Eq)]
pub enum Caller {
    Thread(ThreadNo, CoreNo),
    Timer(ObjNo),
}

/// Whether a call is made for the first time, or again after a wait that was due at a moment, if at any.
#[derive(Clone, Copy, Debug, PartialEq, Eq)]
pub enum Attempt {
    First,
    Again(Option<u64>),
}
