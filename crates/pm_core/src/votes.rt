ghost use Rattle.std.specs.Prelude.{◌≡◌, ◌+◌, ◌-◌, ◌==◌, replicate, find, nat_lt, if◌then◌else◌};
ghost use Rattle.rt_plain.specs.kernel.PowerCalls.{voted_mode, votes_for, sleep_modes};
ghost use Rattle.pm_core.specs.Votes.{count_of, with_count};

use rt_base::{Code, Sleep};
use std::marker::Model;

// The sleep modes from the lightest on.
const MODES: [Sleep; 6] = [
    Sleep::NoSleep,
    Sleep::Idle,
    Sleep::Light,
    Sleep::Deep,
    Sleep::Standby,
    Sleep::Shutdown,
];

/// How many votes each sleep mode has, and the mode where none has one.
#[derive(Drop)]
pub struct Votes {
    default_mode: Sleep,
    counts: [u8; 6],
}

impl Model for Votes {
    ghost use Rattle.pm_core.specs.Votes.{PlainVotes};

    ghost Value = { PlainVotes };

    ghost view = { λ v. record { default_mode = v.default_mode; votes = v.counts } };
}

// The lightest mode with a vote.
fn lightest_voted(counts: &[u8; 6]) -> Option<Sleep>
    ensures { result ≡ find (λ mode. nat_lt 0 (votes_for counts.now mode)) sleep_modes }
{
    MODES
        .iter()
        .copied()
        .find(|mode| counts[mode.number() as usize] > 0)
}

impl Votes {
    /// No mode has a vote.
    pub fn new(default_mode: Sleep) -> Votes
        ensures { result ≡ record { default_mode = default_mode; votes = replicate 6 0 } }
    {
        Votes {
            default_mode,
            counts: [0; 6],
        }
    }

    /// One vote more for a mode, as RT-Thread's `rt_pm_request`. The answer is `Full` exactly where
    /// the mode has 255 votes, which then stay, and else `Ok`; that end is this project's own.
    pub fn request(&mut self, mode: Sleep) -> Code
        ensures code { result ≡ (if count_of self.old mode == 255 then Code.Full else Code.Ok) }
        ensures voted { result ≡ Code.Ok →
            self.new ≡ with_count self.old mode (count_of self.old mode + 1) }
        ensures unchanged { result ≡ Code.Full → self.new ≡ self.old }
    {
        let count = &mut self.counts[mode.number() as usize];
        if *count == 255 {
            return Code::Full;
        }
        *count += 1;
        Code::Ok
    }

    /// One vote less for a mode, as RT-Thread's `rt_pm_release`. The answer is `Error` exactly where
    /// the mode has no vote, and else `Ok`.
    pub fn release(&mut self, mode: Sleep) -> Code
        ensures code { result ≡ (if count_of self.old mode == 0 then Code.Error else Code.Ok) }
        ensures voted { result ≡ Code.Ok →
            self.new ≡ with_count self.old mode (count_of self.old mode - 1) }
        ensures unchanged { result ≡ Code.Error → self.new ≡ self.old }
    {
        let count = &mut self.counts[mode.number() as usize];
        if *count == 0 {
            return Code::Error;
        }
        *count -= 1;
        Code::Ok
    }

    /// The lightest mode with a vote, `None` where none has one.
    pub fn voted(&self) -> Option<Sleep>
        ensures { result ≡ find (λ mode. nat_lt 0 (votes_for self.now.votes mode)) sleep_modes }
    {
        lightest_voted(&self.counts)
    }

    /// The lightest mode with a vote, or the default mode where none has one. That choice is this
    /// project's own.
    pub fn mode(&self) -> Sleep
        ensures { result ≡ voted_mode self.now.default_mode self.now.votes }
    {
        self.voted().unwrap_or(self.default_mode)
    }

    /// How many votes a mode has.
    pub fn count(&self, mode: Sleep) -> u8
        ensures { result ≡ count_of self.now mode }
    {
        self.counts[mode.number() as usize]
    }
}
