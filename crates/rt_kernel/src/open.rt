ghost use Rattle.std.specs.Prelude.{◌≡◌, IfOk};
ghost use Rattle.rt_plain.specs.kernel.Opening.{open_state};
ghost use Rattle.rt_kernel.specs.Built.{IsBuilt};
ghost use Rattle.rt_kernel.specs.Limits.{limits_of, board_limits};
ghost use Rattle.rt_kernel.specs.View.{state_of};

use crate::state::State;
use crate::told::Told;
use kernel_cores::Cores;
use kernel_devices::Devices;
use kernel_pools::Pools;
use kernel_tables::{ThreadList, WokenThreads};
use kernel_timers::Alarms;
use mutex_tables::MutexTables;
use pm_core::Votes;
use rt_base::RunMode;
use rt_plain::Board;
use std::alloc::{AllocError, Global};

impl State {
    // The kernel's state as the board opens. No later call takes memory.
    #[tactic(auto, using(crate::proofs::OpenLemmas::opens))]
    pub fn open(alloc: Global, board: &Board) -> Result<State, AllocError>
        requires { IsBuilt board.now }
        ensures state { IfOk result (λ k. state_of k ≡ open_state board.now) }
        ensures limits { IfOk result (λ k. limits_of k.tables ≡ board_limits board.now) }
    {
        let mut armed = Alarms::open(alloc, board.timers.as_slice())?;
        let numbers = armed.start(board.timers.as_slice());
        let pools = Pools::open(alloc, board)?;
        let waited = ThreadList::new(alloc)?;
        let woken = WokenThreads::new(alloc)?;
        let cores = Cores::new(alloc, board.cores)?;
        let told = Told::new(alloc)?;
        let devices = Devices::open(alloc, board)?;
        let tables = MutexTables::open(alloc, board)?;
        let votes = Votes::new(board.default_mode);
        Ok(State {
            numbers,
            tables,
            cores,
            armed,
            devices,
            pools,
            votes,
            run_mode: RunMode::Normal,
            waited,
            woken,
            told,
        })
    }
}
