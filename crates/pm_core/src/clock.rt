ghost use Rattle.std.specs.Prelude.{◌≡◌, ◌+◌, ◌*◌, ◌<◌, ◌≤◌};
ghost use Rattle.rt_plain.specs.kernel.LpClock.{count_at, remainder_at, counts_ahead, ticks_ahead};

use std::marker::Model;

/// A low-power clock of its own: it makes `h` counts in the time in which the kernel makes `q` ticks.
/// Contracts see it as `h`, `q` and a moment, which is the number of ticks since it was made. It keeps
/// the whole counts of the moment and what is made of the next one, so no sleep lets it drift.
#[derive(Drop)]
pub struct LpClock {
    h: u32,
    q: u32,
    count: u64,
    rem: u32,
}

impl Model for LpClock {
    ghost use Rattle.pm_core.specs.Clock.{Clock};

    ghost Value = { Clock };

    ghost use Rattle.pm_core.specs.Clock.{IsRunning, moment_of};

    ghost view = { λ c. record { h = c.h; q = c.q; moment = moment_of c.h c.q c.count c.rem } };

    ghost invariant = { λ c. IsRunning c.h c.q c.count c.rem };
}

impl LpClock {
    /// A clock at moment 0, with `h` counts (1 to 1,000,000) and `q` ticks (1 to 1,000) a second.
    pub fn new(h: u32, q: u32) -> LpClock
        requires some_counts { 1 ≤ h }
        requires few_counts { h ≤ 1000000 }
        requires some_ticks { 1 ≤ q }
        requires few_ticks { q ≤ 1000 }
        ensures { result ≡ record { h = h; q = q; moment = 0 } }
    {
        LpClock {
            h,
            q,
            count: 0,
            rem: 0,
        }
    }

    /// So many ticks pass, asleep or awake. The moment stays below 2,199,023,255,552.
    pub fn advance(&mut self, n: u32)
        requires { self.old.moment + n < 2199023255552 }
        ensures { self.new ≡ record self.old { moment = self.old.moment + n } }
    {
        let parts = self.parts_ahead(n);
        self.count += parts / self.q as u64;
        self.rem = (parts % self.q as u64) as u32;
    }

    /// How many whole counts it has made.
    pub fn count(&self) -> u64
        ensures { result ≡ count_at self.now.h self.now.q self.now.moment }
    {
        self.count
    }

    /// What it has made of the next count, in parts of which `q` are one.
    pub fn rem(&self) -> u32
        ensures { result ≡ remainder_at self.now.h self.now.q self.now.moment }
    {
        self.rem
    }

    /// The counts and the ticks of a sleep that must not pass the moment so many ticks ahead: it ends
    /// with the last whole count up to there, at the last moment that isn't after that count. The ticks
    /// are 0 where that moment isn't ahead.
    pub fn set(&self, ahead: u32) -> (u64, u32)
        ensures counts { result.0 ≡ counts_ahead self.now.h self.now.q self.now.moment ahead }
        ensures ticks { result.1 ≡ ticks_ahead self.now.h self.now.q self.now.moment ahead }
    {
        let parts = self.parts_ahead(ahead);
        let counts = parts / self.q as u64;
        let left = (parts % self.q as u64) as u32;
        (counts, ahead.saturating_sub(left.div_ceil(self.h)))
    }

    // What it has made so many ticks ahead beside the counts of now, in parts of which `q` are one.
    fn parts_ahead(&self, ahead: u32) -> u64
        ensures { result ≡ remainder_at self.now.h self.now.q self.now.moment + ahead * self.now.h }
    {
        self.rem as u64 + ahead as u64 * self.h as u64
    }
}
