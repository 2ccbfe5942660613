use rt_base::Prio;

/// What the place of a waiting thread depends on: its priority and its arrival number.
#[derive(Clone, Copy, Debug, PartialEq, Eq)]
pub struct Row {
    pub prio: Prio,
    pub at: u64,
}
