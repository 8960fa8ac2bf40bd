//! Ways from declared rates, along which clocks follow from one another.

ghost use Rattle.std.specs.Prelude.{IfSome, false, true};
ghost use Rattle.prl_clashes.specs.ClockWays.{GivesAlong, IsAlongFrom, IsStep, IsWay};

use crate::links::link;
use crate::timings::{over, rate_timing, under};
use prl_base::Seq;
use prl_clock::Timing;
use prl_flow::Flat;

/// A flow after another one: it is defined over that, or, back, that over it.
#[derive(Clone, Copy)]
pub struct Hop {
    pub flow: u32,
    pub back: bool,
}

/// A flow with a declared rate, the flows after it, and the clock that follows for the last.
pub struct Way {
    pub first: u32,
    pub rest: Seq<Hop>,
    pub clock: Timing,
}

/// The clock of a flow that is defined over the one before it.
#[tactic(auto, using(crate::proofs::WayFacts::ahead_is))]
fn ahead(flat: &Flat, from: u32, to: u32, clock: Timing) -> Option<Timing>
    ensures { IfSome result (IsStep flat.now from false to clock) }
{
    let link = link(flat, to, from)?;
    over(&link, &clock)
}

/// The clock of a flow over which the one before it is defined.
#[tactic(auto, using(crate::proofs::WayFacts::behind_is))]
fn behind(flat: &Flat, from: u32, to: u32, clock: Timing) -> Option<Timing>
    ensures { IfSome result (IsStep flat.now from true to clock) }
{
    let link = link(flat, from, to)?;
    under(&link, &clock)
}

/// The clock of a flow after another one.
fn stepped(flat: &Flat, from: u32, hop: Hop, clock: Timing) -> Option<Timing>
    ensures { IfSome result (IsStep flat.now from hop.back hop.flow clock) }
{
    if hop.back {
        behind(flat, from, hop.flow, clock)
    } else {
        ahead(flat, from, hop.flow, clock)
    }
}

/// The clock that follows for the last of the flows, which is the one at the end.
#[tactic(auto, using(crate::proofs::WayFacts::along_more))]
fn along(flat: &Flat, from: u32, clock: Timing, hops: &[Hop], to: u32) -> Option<Timing>
    ensures { IfSome result (GivesAlong flat.now from clock hops.now to) }
{
    match hops {
        [] => { if from == to { Some(clock) } else { None } }
        [hop, rest @ ..] => {
            let next = stepped(flat, from, *hop, clock)?;
            along(flat, hop.flow, next, rest, to)
        }
    }
}

/// The clock that the declared rate of a flow gives along the flows after it, of which the last
/// is the one at the end.
#[tactic(auto, using(crate::proofs::WayFacts::from_is))]
fn along_from(flat: &Flat, first: u32, hops: &[Hop], to: u32) -> Option<Timing>
    ensures { IfSome result (IsAlongFrom flat.now first hops.now to) }
{
    let flow = flat.flows().get(first as usize)?;
    let Some(rate) = &flow.rate else {
        return None;
    };
    let clock = rate_timing(rate)?;
    along(flat, first, clock, hops, to)
}

/// The flows as a way, where they are one.
pub(crate) fn way_of(flat: &Flat, first: u32, rest: Vec<Hop>, to: u32) -> Option<Way>
    ensures { IfSome result (IsWay flat.now to) }
{
    let clock = along_from(flat, first, rest.as_slice(), to)?;
    Some(Way {
        first,
        rest: Seq::new(rest),
        clock,
    })
}

impl Drop for Way {
    fn drop(self) {
        let Way {
            first: _,
            rest,
            clock: _,
        } = self;
        drop(rest);
    }
}
