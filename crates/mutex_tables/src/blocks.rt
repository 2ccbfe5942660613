ghost use Rattle.std.specs.Prelude.{◌≡◌, ◌<◌, IfSome, is_some, length, true};
ghost use Rattle.rt_plain.specs.kernel.Waiting.{first_waiter, number_in, takes_block};
ghost use Rattle.kernel_tables.specs.Threads.{row_at};
ghost use Rattle.mutex_tables.specs.MutexTabled.{plain_state};

use crate::tables::MutexTables;
use rt_base::{Name, ThreadNo, WaitOrder};

impl MutexTables {
    /// The first of those that wait for a block of the memory pool of a name, in an order: `None` exactly where nobody
    /// does. It looks at each thread.
    pub fn first_for_block(&self, pool: &Name, order: WaitOrder) -> Option<ThreadNo>
        ensures first { result ≡ first_waiter (plain_state self.now) order (takes_block pool.now) }
        ensures there { IfSome result (λ t. t < length self.now.threads) }
        ensures waits { IfSome result (λ t. is_some (number_in (takes_block pool.now) (row_at self.now.threads t).stage) ≡ true) }
    {
        self.tables.threads().first_for_block(pool, order)
    }
}
