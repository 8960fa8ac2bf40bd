//! How many dates clocks have before a date, computed by division.

ghost use Rattle.std.specs.Prelude.{◌≡◌, ◌<◌, ◌↔◌, ℕ};
ghost use Rattle.prl_base.specs.Clocks.{IsClock, date_at};
ghost use Rattle.prl_flow.specs.Counts.{dates_before};

use prl_base::Clock;

/// How many dates of the clock come before `until`, in ticks: its dates `k` below this number.
pub fn dates_before(until: u64, clock: Clock) -> u64
    requires { IsClock clock }
    ensures count { result ≡ dates_before until clock }
    ensures dates { (k : ℕ) → (k < result) ↔ (date_at clock k < until) }
{
    if until <= clock.start {
        0
    } else {
        (until - clock.start - 1) / clock.period + 1
    }
}
