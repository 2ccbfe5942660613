ghost use Rattle.std.specs.Prelude.{◌≡◌, ◌≤◌, IfOk, IfErr};
ghost use Rattle.std.specs.List.{All, Contains};
ghost use Rattle.rt_plain.specs.runs.Live.{owner};
ghost use Rattle.rt_plain.specs.runs.Logs.{ContinuesPass};
ghost use Rattle.cpus_lock.specs.Passes.{AreOwnersBelow, IsNestBelow, AreAllPasses, LockPass, first_passes, cores_of};

use crate::nested::Nested;
use crate::pass::Pass;
use crate::table::LockTable;
use rt_base::List;
use std::alloc::Global;
use std::marker::Model;

/// A lock round a value on which up to 8 threads work, one for each core. No call of it waits.
///
/// Contracts see which lock it is, and for how many cores. The lock and its passes are this project's own:
/// RT-Thread's lock over all cores is the nest of the value.
#[derive(Drop)]
pub struct CpusLock<K: Nested> {
    pub(crate) table: LockTable<K>,
}

impl<K: Nested> Model for CpusLock<K> {
    ghost use Rattle.cpus_lock.specs.Passes.{Lock};
    ghost use Rattle.cpus_lock.specs.Seats.{lock_of};

    ghost Value = { Lock };

    ghost view = { λ l. lock_of l.table.table.shared.table_id l.table.cores };
}

/// There was no memory for a lock. The value comes back as it was.
#[derive(Drop)]
pub struct Refused<K> {
    /// The value that was to be locked.
    pub value: K,
}

impl<K: Nested> CpusLock<K> {
    /// A lock round a value, for 1 to 8 cores, and a pass for each core, in order. The nest of the value and all
    /// events of its log are of these cores. `Refused` is want of memory.
    pub fn new(alloc: Global, value: K, cores: u8) -> Result<(CpusLock<K>, List<Pass>), Refused<K>>
        requires cores { (1 ≤ cores) × (cores ≤ 8) }
        requires owners { AreOwnersBelow cores (K.log value) }
        requires nest { IsNestBelow cores (K.nest value) }
        ensures cores { IfOk result (λ made. made.0.cores ≡ cores) }
        ensures passes { IfOk result (λ made. made.1 ≡ first_passes made.0 (K.root value) (K.log value)) }
        ensures refused { IfErr result (λ refused. refused.value ≡ value) }
    {
        let Ok(row) = Vec::with_capacity(alloc, cores as usize) else {
            return Err(Refused { value });
        };
        let (table, seat) = LockTable::open(alloc, value, cores)?;
        let row = table.deal(seat, row);
        match table.list(alloc, row) {
            Ok(passes) => Ok((CpusLock { table }, passes)),
            Err(seat) => Err(Refused {
                value: table.close(seat),
            }),
        }
    }

    /// The value, for all passes of the lock. Its root is that of the passes, its log continues what each of them
    /// has, and each of its events has the core of one of them as owner.
    pub fn into_inner(self, passes: List<Pass>) -> K
        requires { AreAllPasses self passes }
        ensures root { All (λ (pass : LockPass). K.root result ≡ pass.known.root) passes }
        ensures log { All (λ (pass : LockPass). ContinuesPass pass.known (K.log result)) passes }
        ensures owners { All (λ event. Contains (cores_of passes) (owner event)) (K.log result) }
    {
        let CpusLock { table } = self;
        let seat = table.gather(passes);
        table.close(seat)
    }
}

fn is_sync<T: Sync>(_value: &T) {}

// Threads may share a lock whose value may go to another thread.
fn lock_is_sync<K: Nested + Send>(lock: &CpusLock<K>) {
    is_sync(lock)
}
