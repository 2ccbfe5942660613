ghost use Rattle.std.specs.Prelude.{◌≡◌, ℕ, ◌+◌, ◌≤◌, List, [], ◌∷◌, ◌++◌};
ghost use Rattle.std.specs.Option.{ForSome};
ghost use Rattle.rt_plain.specs.runs.Schedules.{round_count};
ghost use Rattle.pm_core.specs.Clock.{sleep_ticks};
ghost use Rattle.pm_core.specs.Moments.{IsLeastAhead, long_enough};

use crate::LpClock;
use rt_base::RunMode;

/// How many rounds of steps a period has: 8, 4, 2 or 1, from the fastest run mode on. The numbers
/// are this project's own.
pub fn rounds(mode: RunMode) -> u8
    ensures { result ≡ round_count mode }
{
    match mode {
        RunMode::High => 8,
        RunMode::Normal => 4,
        RunMode::Medium => 2,
        RunMode::Low => 1,
    }
}

/// The length in ticks of a tickless sleep that begins now. It must not pass the first moment at which
/// an armed row is due, an arrival comes or the machine halts, nor be longer than `lpmax` ticks; it ends
/// with the last whole count of the clock up to there. It is None exactly where that is below `thresh`;
/// counts and threshold are this project's own. `next_due`, `next_arrival` and `until` are the ticks left
/// until a row is due, an arrival comes and the machine halts, None where there is none; all of them and
/// `lpmax` are at least 1.
pub fn length(
    clock: &LpClock,
    next_due: Option<u32>,
    next_arrival: Option<u64>,
    lpmax: u32,
    until: u64,
    thresh: u32,
) -> Option<u32>
    requires until_ahead { 1 ≤ until }
    requires due_ahead { ForSome next_due (λ ticks. 1 ≤ ticks) }
    requires arrival_ahead { ForSome next_arrival (λ ticks. 1 ≤ ticks) }
    requires longest { 1 ≤ lpmax }
    ensures { let now = clock.now.moment in (dues arrivals : List ℕ) →
        IsLeastAhead now dues next_due → IsLeastAhead now arrivals next_arrival →
        result ≡ long_enough thresh
        (sleep_ticks clock.now (dues ++ arrivals ++ (now + until) ∷ []) lpmax) }
{
    let longest = lpmax as u64;
    let due = next_due.unwrap_or(lpmax) as u64;
    let arrival = next_arrival.unwrap_or(longest);
    let ahead = longest.min(until).min(due).min(arrival) as u32;
    let (_, ticks) = clock.set(ahead);
    (ticks >= thresh).then_some(ticks)
}
