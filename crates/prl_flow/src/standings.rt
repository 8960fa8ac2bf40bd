//! Where flows stand while their clocks are sought: over the lowest flow that they are connected with, and in ticks.

ghost use Rattle.std.specs.Prelude.{◌<◌, ℕ, length, MatchOption};
ghost use Rattle.prl_flow.specs.Standings.{HasClock, IsFirstFree};

use prl_base::Ratio;

/// A period and a start in ticks; or those of a flow over another one: its period in periods of
/// the other, and by how many of these it starts after the other.
#[derive(Clone, Copy, PartialEq, Eq)]
pub struct Timing {
    pub period: Ratio,
    pub start: Ratio,
}

/// Where a flow stands among those that constraints connect with it.
#[derive(Clone, Copy)]
pub struct Standing {
    /// The lowest of them.
    pub root: u32,
    /// The flow over that one.
    pub over: Timing,
    /// The flow in ticks, where a rate gives it that.
    pub clock: Option<Timing>,
}

/// The lowest flow without a clock.
pub fn first_free(standings: &[Standing]) -> Option<usize>
    ensures { MatchOption result ((x : ℕ) → x < length standings.now → HasClock standings.now x) (IsFirstFree standings.now) }
{
    for (i, standing) in standings.iter().enumerate() {
        if standing.clock.is_none() {
            return Some(i);
        }
    }
    None
}
