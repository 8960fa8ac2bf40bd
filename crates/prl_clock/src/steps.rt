//! One constraint more.

ghost use Rattle.std.specs.Prelude.{◌≡◌, ◌≢◌, ◌≤◌, ◌<◌, ◌++◌, ℕ, List, [], ◌∷◌, length, pos, Some, None, IfErr, IfOk, OnErr, OnOk};
ghost use Rattle.prl_clock.specs.Assignments.{Passes};
ghost use Rattle.prl_clock.specs.Constraints.{Placed, related};
ghost use Rattle.prl_clock.specs.code.Composition.{IsComposed, IsSmallTiming};
ghost use Rattle.prl_clock.specs.code.Standings.{IsEven, IsLink, IsLowClockPast, IsMerging, IsRefused, IsSolved, IsStuck, IsTold, LowClock};
ghost use Rattle.prl_clock.specs.declared.steps.Refusal.TheVariants.{Limit, Memory};

use crate::standings::Standings;
use crate::timings::{agree, composed, fits, over};
use prl_base::Past;
use prl_flow::{Standing, Timing};
use std::alloc::{AllocError, Global};

/// Why a constraint is refused.
#[derive(Clone, Copy)]
pub enum Refusal {
    /// It leaves no clocks.
    Mismatch,
    /// A number of a clock is past the limit.
    Limit,
    /// Memory ran out.
    Memory,
}

impl From<Past> for Refusal {
    ghost from_gives = { λ _ e. e ≡ Limit };

    fn from(_past: Past) -> Refusal {
        Refusal::Limit
    }
}

impl From<AllocError> for Refusal {
    ghost from_gives = { λ _ e. e ≡ Memory };

    fn from(_error: AllocError) -> Refusal {
        Refusal::Memory
    }
}

/// What the flow that `low` stands over is in ticks, where one of the two flows has a clock;
/// `high` is `over_low` over it.
fn low_clock(high: &Standing, over_low: &Timing, low: &Standing) -> Result<Option<Timing>, Past>
    requires high { over_low.now.period.num ≢ pos 0 }
    requires low { low.now.over.period.num ≢ pos 0 }
    ensures clock { IfOk result (LowClock high.now low.now over_low.now) }
    ensures past { OnErr result (IsLowClockPast high.now low.now over_low.now) }
{
    match low.clock {
        Some(clock) => Ok(Some(over(clock, low.over)?)),
        None => match high.clock {
            Some(clock) => Ok(Some(over(clock, *over_low)?)),
            None => Ok(None),
        },
    }
}

/// Where `high` has no clock, gives all flows over the same flow their clocks; `clock` is that of the flow that `low`
/// stands over, and `low` has a clock.
fn time_high(
    standings: &mut Standings,
    high: &Standing,
    over_low: &Timing,
    shift: &Timing,
    low: &Standing,
    clock: &Timing,
) -> Result<(), Past>
    requires merging { (cs : List Placed) × IsMerging cs standings.old high.now low.now over_low.now }
    requires small { IsSmallTiming shift.now }
    requires shift { IsComposed high.now.over shift.now over_low.now }
    requires clock { LowClock high.now low.now over_low.now (Some clock.now) }
    requires told { IsTold low.now }
    ensures count { length standings.new ≡ length standings.old }
    ensures even { (cs : List Placed) → IsMerging cs standings.old high.now low.now over_low.now
        → OnOk result (IsEven cs standings.new high.now low.now over_low.now) }
    ensures past { (cs : List Placed) → IsMerging cs standings.old high.now low.now over_low.now → OnErr result (Passes cs) }
{
    match high.clock {
        None => {
            let own = composed(*shift, *clock)?;
            standings.time(high.root, &own)
        }
        Some(_) => Ok(()),
    }
}

/// Where one of the two flows has a clock and the other has none, gives all flows over the same flow as the other
/// their clocks. `high` stands over a flow that is `shift` over the one that `low` stands over, and is itself
/// `over_low` over that one.
fn even(
    standings: &mut Standings,
    high: &Standing,
    over_low: &Timing,
    shift: &Timing,
    low: &Standing,
) -> Result<(), Past>
    requires merging { (cs : List Placed) × IsMerging cs standings.old high.now low.now over_low.now }
    requires small { IsSmallTiming shift.now }
    requires shift { IsComposed high.now.over shift.now over_low.now }
    ensures count { length standings.new ≡ length standings.old }
    ensures even { (cs : List Placed) → IsMerging cs standings.old high.now low.now over_low.now
        → OnOk result (IsEven cs standings.new high.now low.now over_low.now) }
    ensures past { (cs : List Placed) → IsMerging cs standings.old high.now low.now over_low.now → OnErr result (Passes cs) }
{
    let Some(clock) = low_clock(high, over_low, low)? else {
        return Ok(());
    };
    match low.clock {
        None => standings.time(low.root, &clock),
        Some(_) => time_high(standings, high, over_low, shift, low, &clock),
    }
}

/// Brings the flows that `high` is one of over the one that `low` stands over, which `high` is
/// `over_low` over.
fn join(
    alloc: Global,
    standings: &mut Standings,
    high: &Standing,
    over_low: &Timing,
    low: &Standing,
) -> Result<(), Refusal>
    requires { (cs : List Placed) × IsMerging cs standings.old high.now low.now over_low.now }
    ensures count { OnOk result (length standings.new ≡ length standings.old) }
    ensures solved { (cs : List Placed) → IsMerging cs standings.old high.now low.now over_low.now → OnOk result (IsSolved cs standings.new) }
    ensures stuck { (cs : List Placed) → IsMerging cs standings.old high.now low.now over_low.now → IfErr result (IsStuck (Passes cs)) }
{
    let shift = over(*over_low, high.over)?;
    even(standings, high, over_low, &shift, low)?;
    standings.bring(alloc, high.root, low.root, &shift)
}

/// Takes the constraint that flow `x` is `link` over flow `y`.
pub fn relate(
    alloc: Global,
    standings: &mut Standings,
    x: usize,
    y: usize,
    link: &Timing,
) -> Result<(), Refusal>
    requires solved { (cs : List Placed) × IsSolved cs standings.old }
    requires link { IsLink link.now }
    requires x { x < length standings.old }
    requires y { y < length standings.old }
    ensures count { OnOk result (length standings.new ≡ length standings.old) }
    ensures solved { (cs : List Placed) (at : ℕ) → IsSolved cs standings.old
        → OnOk result (IsSolved (cs ++ record { constraint = related x y link.now; at = at } ∷ []) standings.new) }
    ensures refused { (cs : List Placed) (at : ℕ) → IsSolved cs standings.old
        → IfErr result (IsRefused (cs ++ record { constraint = related x y link.now; at = at } ∷ [])) }
{
    let of_x = standings.at(x);
    let of_y = standings.at(y);
    if of_x.root == of_y.root {
        return if fits(*link, of_y.over, of_x.over) {
            Ok(())
        } else {
            Err(Refusal::Mismatch)
        };
    }
    if !agree(*link, of_y.clock, of_x.clock) {
        return Err(Refusal::Mismatch);
    }
    if of_y.root < of_x.root {
        let over_low = composed(*link, of_y.over)?;
        join(alloc, standings, &of_x, &over_low, &of_y)
    } else {
        let over_low = over(of_x.over, *link)?;
        join(alloc, standings, &of_y, &over_low, &of_x)
    }
}
