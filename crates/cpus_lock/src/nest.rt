ghost use Rattle.std.specs.Prelude.{◌≡◌, ◌+◌, ◌-◌, ◌<◌, ◌==◌, false, Some, None, IfSome, if◌then◌else◌};
ghost use Rattle.rt_plain.specs.kernel.State.{is_nest_of, is_nest_of_other};
ghost use Rattle.rt_plain.specs.kernel.ThreadCalls.{nest_at};
ghost use Rattle.cpus_lock.specs.Depths.{depth_of, holder_of};

use rt_base::{Code, CoreNo};
use std::marker::Model;

/// The lock over all cores, which one core may hold at a time, up to 255 deep. Contracts see its
/// core and its depth, or None where no core holds it.
#[derive(Drop)]
pub struct Nest {
    held: Option<(CoreNo, u8)>,
}

impl Model for Nest {
    ghost use Rattle.std.specs.Prelude.{Option, ◌<◌};
    ghost use Rattle.std.specs.Option.{ForSome};
    ghost use Rattle.rt_plain.specs.kernel.State.{Nest as PlainNest};
    ghost use Rattle.cpus_lock.specs.Depths.{nest_of};

    ghost Value = { Option PlainNest };

    ghost view = { λ n. nest_of n.held };

    ghost invariant = { λ n. ForSome n.held (λ held. 0 < held.1) };
}

impl Nest {
    /// No core holds it.
    pub fn new() -> Nest
        ensures { result ≡ None }
    {
        Nest { held: None }
    }

    /// One deeper for a core, as RT-Thread's `rt_cpus_lock`. No other core may hold it, as `holder`
    /// tells. The answer is `Full` exactly at depth 255, which then stays, and else `Ok`; that end
    /// is this project's own.
    pub fn enter(&mut self, core: CoreNo) -> Code
        requires { is_nest_of_other core self.old ≡ false }
        ensures code { result ≡ (if depth_of core self.old == 255 then Code.Full else Code.Ok) }
        ensures entered { result ≡ Code.Ok →
            self.new ≡ Some (record { core = core; depth = depth_of core self.old + 1 }) }
        ensures unchanged { result ≡ Code.Full → self.new ≡ self.old }
    {
        let depth = self.held.map_or(0, |(_, depth)| depth);
        if depth == 255 {
            return Code::Full;
        }
        self.held = Some((core, depth + 1));
        Code::Ok
    }

    /// One less deep for a core, and free at 0, as RT-Thread's `rt_cpus_unlock`. The answer is
    /// `Error` exactly where the core doesn't hold it, and else `Ok`.
    pub fn leave(&mut self, core: CoreNo) -> Code
        ensures code { result ≡ (if is_nest_of core self.old then Code.Ok else Code.Error) }
        ensures left { result ≡ Code.Ok →
            self.new ≡ nest_at core (depth_of core self.old - 1) }
        ensures unchanged { result ≡ Code.Error → self.new ≡ self.old }
    {
        match self.holder() {
            Some((holder, depth)) if holder == core => {
                self.held = if depth == 1 {
                    None
                } else {
                    Some((core, depth - 1))
                };
                Code::Ok
            }
            _ => Code::Error,
        }
    }

    /// Frees it where this core holds it, however deep, as at the end of the core's thread, and
    /// changes nothing where it doesn't. The rule is this project's own.
    pub fn drop_all(&mut self, core: CoreNo)
        ensures { self.new ≡ (if is_nest_of core self.old then None else self.old) }
    {
        if self.held.is_some_and(|(holder, _)| holder == core) {
            self.held = None;
        }
    }

    /// The core that holds it, and how deep, from 1 on. None exactly where no core holds it.
    pub fn holder(&self) -> Option<(CoreNo, u8)>
        ensures holder { result ≡ holder_of self.now }
        ensures deep { IfSome result (λ held. 0 < held.1) }
    {
        self.held
    }
}
