//! The least common multiple of two numbers of ticks.

ghost use Rattle.std.specs.Prelude.{◌<◌, ◌≤◌, ◌^◌};
ghost use Rattle.prl_plan.specs.declared.limits.TheConstants.{MAX_HYPER};
ghost use Rattle.prl_numbers.specs.Multiples.{IsLeastMultiple};

use prl_base::gcd;

/// The least common multiple of a hyperperiod and a period.
pub fn least_multiple(hyper: u64, period: u64) -> u64
    requires hyper { 1 ≤ hyper }
    requires within { hyper ≤ MAX_HYPER }
    requires period { 1 ≤ period }
    requires small { period < 2 ^ 31 }
    ensures { IsLeastMultiple hyper period result }
{
    hyper / gcd(hyper, period) * period
}
