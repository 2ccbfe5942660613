ghost use Rattle.std.specs.Prelude.{◌≡◌, ◌+◌, ◌<◌, ◌≤◌, ◌++◌, [], Some, length, unwrap_or};
ghost use Rattle.rt_plain.specs.kernel.Calls.{outcome_of};
ghost use Rattle.rt_plain.specs.kernel.DeviceCalls.{dev_open, dev_close, dev_read, dev_write, dev_ctl};
ghost use Rattle.rt_plain.specs.kernel.Outcome.{with_text, with_value};
ghost use Rattle.rt_kernel.specs.declared.built.Subject.TheVariants.{Device as OnDevices};
ghost use Rattle.rt_kernel.specs.Built.{subject_of};
ghost use Rattle.rt_kernel.specs.Caller.{plain_by, plain_attempt, IsThere};
ghost use Rattle.rt_kernel.specs.Does.{Does};
ghost use Rattle.rt_kernel.specs.HasRoom.{HasRoom};
ghost use Rattle.rt_kernel.specs.Limits.{limits_of};
ghost use Rattle.rt_kernel.specs.View.{state_of};
ghost use Rattle.rt_kernel.specs.Written.{written_lines};

use crate::answer::Answer;
use crate::caller::{Attempt, Caller};
use crate::state::State;
use kernel_devices::{ReadBytes, Written};
use rt_base::{Code, Name, Text};
use rt_plain::{Board, Call, Line, Lines};

impl State {
    // A call on devices.
    pub fn device_call(
        &mut self,
        board: &Board,
        by: Caller,
        attempt: Attempt,
        call: &Call,
        out: &mut Lines,
    ) -> Answer
        requires subject { subject_of call.now ≡ Some OnDevices }
        requires there { IsThere by self.old.tables }
        requires room { HasRoom self.old out.old 1 }
        ensures { Does self.old self.new out.old out.new result 1 (outcome_of board.now call.now (state_of self.old) (plain_by (state_of self.old) by) (plain_attempt attempt)) }
    {
        let _board = board;
        match call {
            Call::DevOpen(name) => self.dev_open(name, out),
            Call::DevClose(name) => self.dev_close(name, out),
            Call::DevRead(name, count) => self.dev_read(by, name, *count, out),
            Call::DevWrite(name, text) => self.dev_write(by, name, text, out),
            Call::DevCtl(name, rate) => self.dev_ctl(name, *rate, out),
            _ => unreachable!(),
        }
    }

    // The device is open once more.
    fn dev_open(&mut self, name: &Name, out: &mut Lines) -> Answer
        ensures { Does self.old self.new out.old out.new result 0 (dev_open name.now (state_of self.old)) }
    {
        match self.devices.open_device(name) {
            None => Answer::Code(Code::Inval),
            Some(Err(_)) => Answer::Code(Code::Full),
            Some(Ok(())) => Answer::Code(Code::Ok),
        }
    }

    // The device is open once less; the last time empties its receive ring.
    fn dev_close(&mut self, name: &Name, out: &mut Lines) -> Answer
        ensures { Does self.old self.new out.old out.new result 0 (dev_close name.now (state_of self.old)) }
    {
        match self.devices.close_device(name) {
            None => Answer::Code(Code::Inval),
            Some(Err(_)) => Answer::Code(Code::Error),
            Some(Ok(())) => Answer::Code(Code::Ok),
        }
    }

    // The bytes that were read are the last text of the thread that makes the call, and their number the last value.
    fn take_read(&mut self, by: Caller, read: ReadBytes)
        requires { IsThere by self.old.tables }
        ensures state { let s = state_of self.old in let by = plain_by s by in state_of self.new ≡ with_value (with_text s by (unwrap_or read.text [])) by read.count }
        ensures limits { limits_of self.new.tables ≡ limits_of self.old.tables }
        ensures threads { length self.new.tables.threads ≡ length self.old.tables.threads }
        ensures numbers { self.new.numbers ≡ self.old.numbers }
    {
        let Caller::Thread(t, _) = by else {
            return;
        };
        let count = read.count;
        self.tables.set_text(t, read.text);
        self.take_value(by, count as u32);
    }

    // Up to so many of the received bytes leave the device's ring.
    fn dev_read(&mut self, by: Caller, name: &Name, count: u8, out: &mut Lines) -> Answer
        requires few { count ≤ 64 }
        requires there { IsThere by self.old.tables }
        ensures { Does self.old self.new out.old out.new result 0 (dev_read name.now count (state_of self.old) (plain_by (state_of self.old) by)) }
    {
        match self.devices.read(name, count) {
            None => Answer::Code(Code::Inval),
            Some(Err(_)) => Answer::Code(Code::Error),
            Some(Ok(read)) => {
                self.take_read(by, read);
                Answer::Code(Code::Ok)
            }
        }
    }

    // The number of bytes that were taken is the last value of the thread that makes the call, and the console prints them.
    fn take_written(&mut self, by: Caller, written: Written, text: &Text, out: &mut Lines)
        requires there { IsThere by self.old.tables }
        requires lines { length out.old.items < out.old.room }
        ensures state { state_of self.new ≡ with_value (state_of self.old) (plain_by (state_of self.old) by) written.count }
        ensures lines { out.new.items ≡ out.old.items ++ written_lines written.console text.now }
        ensures limits { limits_of self.new.tables ≡ limits_of self.old.tables }
        ensures threads { length self.new.tables.threads ≡ length self.old.tables.threads }
        ensures numbers { self.new.numbers ≡ self.old.numbers }
        ensures out_room { out.new.room ≡ out.old.room }
    {
        self.take_value(by, written.count as u32);
        if written.console {
            out.push(Line::Print(text.copy()));
        }
    }

    // The console prints the text, and any other device keeps the front part that fits.
    fn dev_write(&mut self, by: Caller, name: &Name, text: &Text, out: &mut Lines) -> Answer
        requires there { IsThere by self.old.tables }
        requires room { HasRoom self.old out.old 1 }
        ensures { Does self.old self.new out.old out.new result 1 (dev_write name.now text.now (state_of self.old) (plain_by (state_of self.old) by)) }
    {
        match self.devices.write(name, text) {
            None => Answer::Code(Code::Inval),
            Some(Err(_)) => Answer::Code(Code::Error),
            Some(Ok(written)) => {
                self.take_written(by, written, text, out);
                Answer::Code(Code::Ok)
            }
        }
    }

    // The device sends up to so many bytes a tick from now on.
    fn dev_ctl(&mut self, name: &Name, rate: u8, out: &mut Lines) -> Answer
        requires some { 1 ≤ rate }
        requires few { rate ≤ 64 }
        ensures { Does self.old self.new out.old out.new result 0 (dev_ctl name.now rate (state_of self.old)) }
    {
        match self.devices.set_rate(name, rate) {
            None => Answer::Code(Code::Inval),
            Some(Err(_)) => Answer::Code(Code::NoSys),
            Some(Ok(())) => Answer::Code(Code::Ok),
        }
    }
}
