ghost use Rattle.std.specs.Prelude.{◌≡◌, ◌<◌, ◌≤◌, None, length, IfSome, MatchOption};
ghost use Rattle.std.specs.List.{position_from};
ghost use Rattle.std.specs.Str.{bytes_eq};
ghost use Rattle.kernel_timers.specs.Alarmed.{timer_at, found_timer, put_timer, IsTimer};

use crate::alarms::Alarms;
use rt_base::{Name, ObjNo};
use rt_plain::{Stmt, TimerDef, TimerKind};

// Whether a timer has this name.
fn is_named(timer: &TimerDef, name: &[u8]) -> bool
    ensures { result ≡ bytes_eq timer.now.name name.now }
{
    timer.name.bytes() == name
}

// Where the timer of a name stands.
fn position(timers: &[TimerDef], name: &[u8]) -> Option<usize>
    ensures found { result ≡ position_from (λ timer. bytes_eq timer.name name.now) 0 timers.now }
    ensures within { IfSome result (λ place. place < length timers.now) }
{
    timers.iter().position(|timer| is_named(timer, name))
}

impl Alarms {
    /// The number of the timer of a name: `None` exactly where there is none.
    pub fn find(&self, name: &Name) -> Option<ObjNo>
        ensures { MatchOption result (found_timer self.now.timers name.now ≡ None) (IsTimer self.now.timers name.now) }
    {
        let place = position(&self.timers, name.bytes())?;
        Some(ObjNo(place as u16))
    }

    /// The name of a timer.
    pub fn name(&self, o: ObjNo) -> Name
        requires { o < length self.now.timers }
        ensures { result ≡ (timer_at self.now.timers o).name }
    {
        self.timers[o.0 as usize].name.copy()
    }

    /// The kind of a timer.
    pub fn kind(&self, o: ObjNo) -> TimerKind
        requires { o < length self.now.timers }
        ensures { result ≡ (timer_at self.now.timers o).kind }
    {
        self.timers[o.0 as usize].kind
    }

    /// What a timer does when it fires, if it does something.
    pub fn action(&self, o: ObjNo) -> Option<Stmt>
        requires { o < length self.now.timers }
        ensures { result ≡ (timer_at self.now.timers o).call }
    {
        match &self.timers[o.0 as usize].call {
            Some(statement) => Some(statement.copy()),
            None => None,
        }
    }

    /// Another time for the next start or period of a timer, from 1 to 2,147,483,647 ticks. What is armed stays.
    pub fn set_time(&mut self, o: ObjNo, time: u32)
        requires there { o < length self.old.timers }
        requires some { 1 ≤ time }
        requires near { time ≤ 2147483647 }
        ensures { self.new ≡ record self.old { timers = put_timer self.old.timers (record (timer_at self.old.timers o) { time = time }) } }
    {
        self.timers[o.0 as usize].time = time;
    }
}
