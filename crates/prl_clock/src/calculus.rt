//! The clocks of a flat program.

ghost use Rattle.std.specs.Prelude.{◌≡◌, ◌<◌, ℕ, length, IfErr, IfOk, MatchOption};
ghost use Rattle.prl_clock.specs.Constraints.{constraints_of};
ghost use Rattle.prl_clock.specs.Outcomes.{AreOnlyClocks, IsClockFault, IsWhole};
ghost use Rattle.prl_clock.specs.code.Finishing.{IsLabelOf, IsWholeClock};
ghost use Rattle.prl_clock.specs.code.Progress.{IsReached};
ghost use Rattle.prl_flow.specs.Standings.{HasClock};
ghost use Rattle.prl_clock.specs.declared.calculus.ClockFault.TheVariants.{Memory};

use crate::constraints::solve;
use prl_base::{Clock, Label, Limit, Ratio, Seq};
use prl_flow::{Clocks, Flat, Standing, Timing, first_free};
use std::alloc::{AllocError, Global};

/// Why a flat program has no clocks.
#[derive(Drop)]
pub enum ClockFault {
    /// The first constraint that leaves no clocks: its byte in the source text.
    Mismatch(u32),
    /// The first constraint after which a number of a clock is past the limit.
    Limit(Limit),
    /// The lowest flow of which the constraints leave a choice.
    Free(Label),
    /// The first flow with a period or a start that is no whole number, or with a start before 0.
    NotWhole {
        flow: Label,
        period: Ratio,
        start: Ratio,
    },
    /// Memory ran out; this may come in place of the others.
    Memory,
}

impl From<AllocError> for ClockFault {
    ghost from_gives = { λ _ e. e ≡ Memory };

    fn from(_error: AllocError) -> ClockFault {
        ClockFault::Memory
    }
}

/// The clock with this period and start, where they are whole and the start is not below 0.
fn whole_clock(timing: &Timing) -> Option<Clock>
    ensures { MatchOption result (IsWhole timing.now.period timing.now.start → ⊥) (IsWholeClock timing.now) }
{
    let period = timing.period;
    let start = timing.start;
    if period.den != 1 || start.den != 1 || start.num < 0 {
        return None;
    }
    Some(Clock {
        period: period.num.unsigned_abs(),
        start: start.num.unsigned_abs(),
    })
}

/// A copy of the label of the flow.
fn label_of(alloc: Global, flat: &Flat, flow: usize) -> Result<Label, AllocError>
    requires { flow < length flat.now.flows }
    ensures { IfOk result (IsLabelOf flat.now flow) }
{
    Label::new(alloc, flat.flows()[flow].label.bytes())
}

/// The clocks of flows that all have one, or the lowest whose clock is not whole or starts below 0.
fn whole_clocks(
    alloc: Global,
    flat: &Flat,
    standings: &[Standing],
) -> Result<Vec<Clock>, ClockFault>
    requires reached { IsReached flat.now (constraints_of flat.now) standings.now }
    requires timed { (x : ℕ) → x < length standings.now → HasClock standings.now x }
    ensures clocks { IfOk result (λ clocks. AreOnlyClocks flat.now clocks.items) }
    ensures fault { IfErr result (IsClockFault flat.now) }
{
    let _flows = flat.flows();
    let mut clocks = Vec::new(alloc);
    for (i, standing) in standings.iter().enumerate() {
        let Some(timing) = standing.clock else {
            unreachable!()
        };
        match whole_clock(&timing) {
            Some(clock) => clocks.push(clock).map_err(AllocError::from)?,
            None => {
                return Err(ClockFault::NotWhole {
                    flow: label_of(alloc, flat, i)?,
                    period: timing.period,
                    start: timing.start,
                });
            }
        }
    }
    Ok(clocks)
}

/// The clocks of the flat program's flows: the only ones that its rates and definitions leave.
pub fn clocks(alloc: Global, flat: &Flat) -> Result<Clocks, ClockFault>
    ensures clocks { IfOk result (λ clocks. AreOnlyClocks flat.now clocks.of) }
    ensures fault { IfErr result (IsClockFault flat.now) }
{
    let _flows = flat.flows();
    let standings = solve(alloc, flat)?;
    if let Some(flow) = first_free(standings.as_slice()) {
        return Err(ClockFault::Free(label_of(alloc, flat, flow)?));
    }
    Ok(Clocks {
        of: Seq::new(whole_clocks(alloc, flat, standings.as_slice())?),
    })
}
