//! The hyperperiod.

ghost use Rattle.std.specs.Prelude.{◌≤◌, MatchResult};
ghost use Rattle.prl_plan.specs.declared.limits.TheConstants.{MAX_HYPER};
ghost use Rattle.prl_graph.specs.Hyperperiods.{IsHyperperiod, IsPastHyperperiod};
ghost use Rattle.prl_graph.specs.code.Multiples.{HaveSmallPeriods};

use prl_base::Clock;
use prl_numbers::least_multiple;
use prl_plan::MAX_HYPER;

/// The least common multiple of all periods; where it passes the limit, the first running one that
/// does.
pub(crate) fn hyperperiod(clocks: &[Clock]) -> Result<u64, u64>
    requires { HaveSmallPeriods clocks.now }
    ensures { MatchResult result (λ hyper. IsHyperperiod clocks.now hyper × (hyper ≤ MAX_HYPER)) (IsPastHyperperiod clocks.now) }
{
    let mut hyper: u64 = 1;
    for clock in clocks {
        hyper = least_multiple(hyper, clock.period);
        if hyper > MAX_HYPER {
            return Err(hyper);
        }
    }
    Ok(hyper)
}
