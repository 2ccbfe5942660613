ghost use Rattle.std.specs.Prelude.{◌≡◌, ◌+◌, ◌*◌, ◌<◌, ◌≤◌, ◌&&◌, ℕ, [], All, true, false, Some, None, length, map, nat_le, IfSome, if◌then◌else◌};
ghost use Rattle.std.specs.Option.{ForSome};
ghost use Rattle.pm_core.specs.Moments.{IsLeastAhead};
ghost use Rattle.rt_base.specs.declared.codes.Event.TheVariants.{Step};
ghost use Rattle.rt_plain.specs.kernel.DeviceCalls.{is_busy};
ghost use Rattle.rt_plain.specs.kernel.Due.{due};
ghost use Rattle.rt_plain.specs.kernel.PowerCalls.{sleep_mode};
ghost use Rattle.rt_plain.specs.kernel.Shown.{shown};
ghost use Rattle.rt_plain.specs.kernel.Sleeps.{Made, rest_did, sleep_did, sleep_length, final_halt, stops_ticks, nothing_comes};
ghost use Rattle.rt_plain.specs.kernel.Steps.{is_all_idle};
ghost use Rattle.rt_plain.specs.runs.Runs.{room};
ghost use Rattle.kernel_step.specs.Did.{FitsIn, Gives};
ghost use Rattle.kernel_step.specs.Engine.{state_of, IsGoing, IsOnTime};
ghost use Rattle.kernel_step.specs.Fired.{event_rows, row_cost};

use crate::Did;
use crate::engine::Engine;
use rt_base::{Halt, Sleep, Steps};
use rt_kernel::Kernel;
use rt_plain::laws::sleeps_skip_their_ticks;
use rt_plain::{Line, Lines, View};
use std::sync::ledger::Ledger;

// How a mode ends the run, if it does.
fn final_halt(mode: Sleep) -> Option<Halt>
    ensures { result ≡ final_halt mode }
{
    match mode {
        Sleep::Standby => Some(Halt::Standby),
        Sleep::Shutdown => Some(Halt::Shutdown),
        _ => None,
    }
}

// Whether ticks stop in a mode.
fn stops_ticks(mode: Sleep) -> bool
    ensures { result ≡ stops_ticks mode }
{
    match mode {
        Sleep::Light | Sleep::Deep => true,
        _ => false,
    }
}

// Whether nothing is armed or left to arrive.
fn nothing_comes(kernel: &Kernel) -> bool
    ensures { result ≡ nothing_comes kernel.now.state }
{
    kernel.nothing_armed() && kernel.next_arrival().is_none()
}

// How many ticks are left until something arrives, if anything does.
fn ticks_to_arrival(kernel: &Kernel) -> Option<u64>
    requires { All (λ a. kernel.now.state.moment < a.moment) kernel.now.state.arrivals }
    ensures least { IsLeastAhead kernel.now.state.moment (map (λ a. a.moment) kernel.now.state.arrivals) result }
    ensures ahead { ForSome result (λ ticks. 1 ≤ ticks) }
{
    match kernel.next_arrival() {
        Some(next) => Some(next - kernel.moment()),
        None => None,
    }
}

impl Engine {
    // How many ticks are left until the board's last moment.
    fn ticks_to_end(&self) -> u64
        requires { self.now.kernel.state.moment < self.now.kernel.board.until }
        ensures last { self.now.kernel.state.moment + result ≡ self.now.kernel.board.until }
        ensures ahead { 1 ≤ result }
    {
        self.kernel.board().until - self.kernel.moment()
    }

    // The most ticks of one sleep.
    fn longest(&self) -> u32
        ensures { result ≡ self.now.kernel.board.lpmax }
    {
        self.kernel.board().lpmax
    }

    // The least ticks of one sleep.
    fn threshold(&self) -> u32
        ensures { result ≡ self.now.kernel.board.thresh }
    {
        self.kernel.board().thresh
    }

    // The length of a sleep that begins now, by whole counts of the low-power clock, where it is no less than the board's
    // threshold.
    fn long_sleep(&self) -> Option<u32>
        requires { IsGoing self.now }
        ensures { result ≡ (if nat_le self.now.kernel.board.thresh (sleep_length self.now.kernel.board self.now.kernel.state) then Some (sleep_length self.now.kernel.board self.now.kernel.state) else None) }
    {
        let due = self.kernel.next_due();
        let arrival = ticks_to_arrival(&self.kernel);
        let until = self.ticks_to_end();
        let most = self.longest();
        let thresh = self.threshold();
        pm_core::length(&self.clock, due, arrival, most, until, thresh)
    }

    // The length of a sleep in a mode, where the board stops its ticks in it and sleeps for long enough.
    fn sleep_in(&self, mode: Sleep) -> Option<u32>
        requires { IsGoing self.now }
        ensures { let b = self.now.kernel.board in let ticks = sleep_length b self.now.kernel.state in result ≡ (if b.tickless && (stops_ticks mode && nat_le b.thresh ticks) then Some ticks else None) }
    {
        if self.kernel.board().tickless && stops_ticks(mode) {
            self.long_sleep()
        } else {
            None
        }
    }

    // The tick that is shown after the next one.
    fn next_tick(&self) -> u32
        ensures { result ≡ shown self.now.kernel.board (self.now.kernel.state.moment + 1) }
    {
        self.kernel.tick().wrapping_add(1)
    }

    // All ticks of a sleep but the last one pass at once.
    fn skip(&mut self, n: u32)
        requires clock { IsOnTime self.old }
        requires moment { self.old.kernel.state.moment + n ≤ 1099511627775 }
        requires ahead { All (λ row. self.old.kernel.state.moment + n < row.due) self.old.kernel.state.armed }
        ensures state { let s = self.old.kernel.state in self.new.kernel.state ≡ record s { moment = s.moment + n } }
        ensures board { self.new.kernel.board ≡ self.old.kernel.board }
        ensures clock { IsOnTime self.new }
        ensures halt { self.new.halt ≡ self.old.halt }
    {
        self.kernel.skip(n);
        self.clock.advance(n);
    }

    // A sleep of so many ticks, in one event: the devices with power management are suspended, all ticks but the last pass
    // at once, since nothing is due, arrives or is sent in them, the devices are resumed, and the last tick passes.
    fn sleep<L: Ledger>(&mut self, mode: Sleep, ticks: u32, out: &mut Lines, steps: &mut Steps<L>)
        requires going { IsGoing self.old }
        requires mode { mode ≡ sleep_mode self.old.kernel.board self.old.kernel.state }
        requires idle { is_all_idle self.old.kernel.state ≡ true }
        requires silent { is_busy self.old.kernel.state ≡ false }
        requires ticks { ticks ≡ sleep_length self.old.kernel.board self.old.kernel.state }
        requires some { 1 ≤ ticks }
        requires fits { FitsIn (sleep_did self.old.kernel.board ticks self.old.kernel.state) out.old.room }
        requires empty { out.old.items ≡ [] }
        requires room { room self.old.kernel.board ≤ out.old.room }
        ensures did { sleep_did self.old.kernel.board ticks self.old.kernel.state ≡ Made (state_of self.new) out.new.items }
        ensures board { self.new.kernel.board ≡ self.old.kernel.board }
        ensures clock { IsOnTime self.new }
        ensures count { (core : ℕ) → steps.new ≤ steps.old + 1 + event_rows self.old.kernel.board self.old.kernel.state (Step core) * row_cost self.old.kernel.board }
        ensures out_room { out.new.room ≡ out.old.room }
    {
        sleeps_skip_their_ticks();
        self.kernel.know_kernel();
        out.push(Line::Sleep(mode, ticks));
        self.kernel.power_down(out);
        self.skip(ticks - 1);
        self.kernel.power_up(out);
        let tick = self.next_tick();
        out.push(Line::Tick(tick));
        self.pass_tick(out, steps);
    }

    // What the sleep rule says where no device is busy and the mode is not a final one: the machine halts where nothing
    // comes any more, and else it sleeps, or waits for its next tick.
    fn rest_in<L: Ledger>(&mut self, mode: Sleep, out: &mut Lines, steps: &mut Steps<L>) -> Did
        requires going { IsGoing self.old }
        requires idle { is_all_idle self.old.kernel.state ≡ true }
        requires silent { is_busy self.old.kernel.state ≡ false }
        requires mode { mode ≡ sleep_mode self.old.kernel.board self.old.kernel.state }
        requires goes_on { final_halt mode ≡ None }
        requires fits { FitsIn (rest_did self.old.kernel.board self.old.kernel.state) out.old.room }
        requires empty { out.old.items ≡ [] }
        requires room { room self.old.kernel.board ≤ out.old.room }
        ensures gives { Gives (rest_did self.old.kernel.board self.old.kernel.state) result (state_of self.old) (state_of self.new) out.new.items }
        ensures board { self.new.kernel.board ≡ self.old.kernel.board }
        ensures clock { IsOnTime self.new }
        ensures count { (core : ℕ) → steps.new ≤ steps.old + 1 + event_rows self.old.kernel.board self.old.kernel.state (Step core) * row_cost self.old.kernel.board }
        ensures out_room { out.new.room ≡ out.old.room }
    {
        if nothing_comes(&self.kernel) {
            return Did::Halted(Halt::Quiet);
        }
        match self.sleep_in(mode) {
            Some(ticks) => {
                self.sleep(mode, ticks, out, steps);
                Did::Entry
            }
            None => Did::Same,
        }
    }

    /// The sleep rule, where no core runs a thread and none is ready: a busy device keeps the machine awake; a final mode
    /// halts it, and so does quiet; else it sleeps, or waits for its next tick.
    pub(crate) fn rest<L: Ledger>(&mut self, out: &mut Lines, steps: &mut Steps<L>) -> Did
        requires going { IsGoing self.old }
        requires idle { is_all_idle self.old.kernel.state ≡ true }
        requires fits { FitsIn (rest_did self.old.kernel.board self.old.kernel.state) out.old.room }
        requires empty { out.old.items ≡ [] }
        requires room { room self.old.kernel.board ≤ out.old.room }
        ensures gives { Gives (rest_did self.old.kernel.board self.old.kernel.state) result (state_of self.old) (state_of self.new) out.new.items }
        ensures board { self.new.kernel.board ≡ self.old.kernel.board }
        ensures clock { IsOnTime self.new }
        ensures count { (core : ℕ) → steps.new ≤ steps.old + 1 + event_rows self.old.kernel.board self.old.kernel.state (Step core) * row_cost self.old.kernel.board }
        ensures out_room { out.new.room ≡ out.old.room }
    {
        if self.kernel.busy() {
            return Did::Same;
        }
        let mode = self.kernel.mode();
        match final_halt(mode) {
            Some(halt) => Did::Halted(halt),
            None => self.rest_in(mode, out, steps),
        }
    }
}
