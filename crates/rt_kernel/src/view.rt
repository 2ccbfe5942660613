ghost use Rattle.rt_plain.specs.kernel.State.{is_closed};
ghost use Rattle.kernel_tables.specs.Threads.{row_at};
ghost use Rattle.std.specs.Prelude.{false, ◌≡◌, ◌<◌, ◌≤◌, length, map, slice_get, Some};
ghost use Rattle.rt_plain.specs.kernel.PowerCalls.{votes_for as plain_votes, sleep_mode};
ghost use Rattle.rt_plain.specs.kernel.Rows.{rows as plain_rows, thread_row, timer_row};
ghost use Rattle.rt_kernel.specs.View.{state_of};

use crate::kernel::Kernel;
use crate::state::State;
use rt_base::{Class, ObjNo, Sleep, ThreadNo};
use rt_plain::{Row, View};

impl State {
    // The row of a thread.
    fn thread_row(&self, t: ThreadNo) -> Row
        requires there { t < length self.now.tables.threads }
        requires live { is_closed (row_at self.now.tables.threads t).stage ≡ false }
        ensures { result ≡ thread_row (state_of self.now) t }
    {
        Row::Thread {
            name: self.tables.name(t),
            cur: self.tables.cur(t),
            base: self.tables.base(t),
            state: self.tables.state(t, self.cores.is_running(t)),
            core: self.tables.core(t),
            left: self.tables.left(t),
            code: self.tables.code(t),
        }
    }
}

impl Kernel {
    // The row of the timer at a place.
    fn timer_row(&self, place: usize) -> Row
        requires { place < length self.now.state.timers }
        ensures { slice_get (map (timer_row self.now.board self.now.state) self.now.state.timers) place ≡ Some result }
    {
        self.state.armed.know_timers();
        self.state.armed.row(ObjNo(place as u16), self.board.tick0)
    }
}

impl View for Kernel {
    ghost rows = { λ k class. plain_rows k.board k.state class };

    ghost votes_for = { λ k mode. plain_votes k.state.votes mode };

    ghost mode_of = { λ k. sleep_mode k.board k.state };

    /// The number of objects of a class.
    fn count(&self, class: Class) -> usize {
        match class {
            Class::Thread => self.state.tables.shown_count(),
            Class::Sem => self.state.tables.sem_count() as usize,
            Class::Event => self.state.tables.event_count() as usize,
            Class::Mutex => self.state.tables.mutex_count() as usize,
            Class::Mailbox => self.state.tables.mailbox_count() as usize,
            Class::MsgQueue => self.state.tables.queue_count() as usize,
            Class::Timer => self.state.armed.count() as usize,
            Class::Device => self.state.devices.count(),
        }
    }

    /// The row at a place, counted from the newest object.
    fn row(&self, class: Class, place: usize) -> Row {
        match class {
            Class::Thread => self.state.thread_row(self.state.tables.shown_at(place)),
            Class::Sem => self.state.tables.sem_row(place),
            Class::Event => self.state.tables.event_row(place),
            Class::Mutex => self.state.tables.mutex_row(place),
            Class::Mailbox => self.state.tables.mailbox_row(place),
            Class::MsgQueue => self.state.tables.queue_row(place),
            Class::Timer => self.timer_row(place),
            Class::Device => self.state.devices.row(place),
        }
    }

    /// The votes for a mode.
    fn votes(&self, mode: Sleep) -> u8 {
        self.state.votes.count(mode)
    }

    /// The sleep mode of now: the lightest one with a vote, or the board's default mode where none has one.
    fn mode(&self) -> Sleep {
        self.state.votes.voted().unwrap_or(self.board.default_mode)
    }
}
