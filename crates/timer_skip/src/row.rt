use rt_base::TimerNo;

/// An armed row: the tick at which it is due, its start number, and whose it is. Due ticks wrap, so
/// they are compared by their differences from the tick.
#[derive(Clone, Copy)]
pub struct Row {
    pub due: u32,
    pub at: u64,
    pub no: TimerNo,
}
