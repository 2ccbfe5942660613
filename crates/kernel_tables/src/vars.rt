ghost use Rattle.std.specs.Prelude.{◌≡◌};
ghost use Rattle.kernel_tables.specs.Threads.{vars_after_slice};

use rt_base::Code;

/// What a thread has that no wait list depends on.
#[derive(Clone, Copy)]
pub struct Vars {
    /// The ticks of a whole slice.
    pub slice: u8,
    /// The ticks left of the slice.
    pub left: u8,
    /// The number of the statement that comes next, from 1 on.
    pub next: u16,
    /// The last code.
    pub code: Code,
    /// The last value.
    pub value: u32,
    pub counter: u16,
    /// How many scheduler locks the thread has.
    pub locks: u8,
    /// Whether the thread has the mark of a slice that is used up.
    pub marked: bool,
}

impl Vars {
    // One tick less of the slice. A slice that is used up begins anew, and the thread gets the mark.
    pub(crate) fn fall(&mut self)
        ensures { self.new ≡ vars_after_slice self.old }
    {
        if self.left <= 1 {
            self.left = self.slice;
            self.marked = true;
        } else {
            self.left -= 1;
        }
    }
}
