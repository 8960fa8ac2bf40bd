//! Two ways to one flow that give it two clocks.

ghost use Rattle.std.specs.Prelude.{IfOk, IfSome};
ghost use Rattle.prl_clashes.specs.ClockWays.{IsClash, IsWay};

use crate::links::is_told_at;
use crate::searches::{Bound, arguments_of, operand_of, way_to};
use crate::ways::{Hop, Way, way_of};
use prl_flow::Flat;
use std::alloc::{AllocError, Global};

/// A flow, and two ways that give it two clocks.
pub struct Clash {
    pub flow: u32,
    pub one: Way,
    pub other: Way,
}

/// A clash where one is found, or want of memory.
type Found = Result<Option<Clash>, AllocError>;

/// A way to a flow by the constraints of a bound.
fn way_within(
    alloc: Global,
    flat: &Flat,
    bound: Bound<'_>,
    flow: u32,
) -> Result<Option<Way>, AllocError>
    ensures { IfOk result (λ found. IfSome found (IsWay flat.now flow)) }
{
    match way_to(alloc, flat, bound, flow)? {
        None => Ok(None),
        Some((first, hops)) => Ok(way_of(flat, first, hops, flow)),
    }
}

/// A way to a flow by the constraints of a bound, and then one more by which another flow is
/// over it.
fn way_over(
    alloc: Global,
    flat: &Flat,
    bound: Bound<'_>,
    flow: u32,
    user: u32,
) -> Result<Option<Way>, AllocError>
    ensures { IfOk result (λ found. IfSome found (IsWay flat.now user)) }
{
    let Some((first, mut hops)) = way_to(alloc, flat, bound, flow)? else {
        return Ok(None);
    };
    hops.push(Hop {
        flow: user,
        back: false,
    })?;
    Ok(way_of(flat, first, hops, user))
}

/// The two ways, where they give the flow two clocks.
#[tactic(auto, using(crate::proofs::WayFacts::clash_is))]
fn clash_of(flat: &Flat, at: u32, flow: u32, one: Option<Way>, other: Option<Way>) -> Option<Clash>
    requires one { IfSome one (IsWay flat.now flow) }
    requires other { IfSome other (IsWay flat.now flow) }
    ensures { IfSome result (IsClash flat.now at) }
{
    let Some(one) = one else {
        return None;
    };
    let Some(other) = other else {
        return None;
    };
    if one.clock == other.clock || !is_told_at(flat, flow, at) {
        return None;
    }
    Some(Clash { flow, one, other })
}

/// The clash of a flow's declared rate with the constraints before it.
fn rate_clash(alloc: Global, flat: &Flat, at: u32, flow: u32) -> Found
    ensures { IfOk result (λ found. IfSome found (IsClash flat.now at)) }
{
    let bound = Bound {
        flow,
        args: &[],
        has_rate: false,
    };
    let one = way_within(alloc, flat, bound, flow)?;
    let own = way_of(flat, flow, Vec::new(alloc), flow);
    Ok(clash_of(flat, at, flow, one, own))
}

/// The clash of the constraint by which a flow is over another one with those before it.
fn link_clash(alloc: Global, flat: &Flat, at: u32, bound: Bound<'_>, operand: u32) -> Found
    ensures { IfOk result (λ found. IfSome found (IsClash flat.now at)) }
{
    let one = way_within(alloc, flat, bound, bound.flow)?;
    let other = way_over(alloc, flat, bound, operand, bound.flow)?;
    Ok(clash_of(flat, at, bound.flow, one, other))
}

/// The clash of a flow's definition by a copy, an operator or a later output.
fn operand_clash(alloc: Global, flat: &Flat, at: u32, flow: u32) -> Found
    ensures { IfOk result (λ found. IfSome found (IsClash flat.now at)) }
{
    let Some(operand) = operand_of(flat, flow) else {
        return Ok(None);
    };
    let bound = Bound {
        flow,
        args: &[],
        has_rate: true,
    };
    link_clash(alloc, flat, at, bound, operand)
}

/// The clash of the first argument at this byte that clashes with those before it.
fn argument_clash(alloc: Global, flat: &Flat, at: u32, flow: u32) -> Found
    ensures { IfOk result (λ found. IfSome found (IsClash flat.now at)) }
{
    let args = arguments_of(flat, flow);
    for (k, arg) in args.iter().enumerate() {
        if arg.at.at != at {
            continue;
        }
        let bound = Bound {
            flow,
            args: &args[..k],
            has_rate: true,
        };
        if let Some(clash) = link_clash(alloc, flat, at, bound, arg.flow.0)? {
            return Ok(Some(clash));
        }
    }
    Ok(None)
}

/// The clash of a flow: of its rate, of its definition, or of an argument.
fn clash_in(alloc: Global, flat: &Flat, at: u32, flow: u32) -> Found
    ensures { IfOk result (λ found. IfSome found (IsClash flat.now at)) }
{
    if let Some(clash) = rate_clash(alloc, flat, at, flow)? {
        return Ok(Some(clash));
    }
    if let Some(clash) = operand_clash(alloc, flat, at, flow)? {
        return Ok(Some(clash));
    }
    argument_clash(alloc, flat, at, flow)
}

/// A flow that is told at this byte, with two ways from declared rates that give it two clocks.
/// None where the search finds none.
pub fn clash_at(alloc: Global, flat: &Flat, at: u32) -> Result<Option<Clash>, AllocError>
    ensures { IfOk result (λ found. IfSome found (IsClash flat.now at)) }
{
    for flow in 0..flat.flows().len() as u32 {
        if !is_told_at(flat, flow, at) {
            continue;
        }
        if let Some(clash) = clash_in(alloc, flat, at, flow)? {
            return Ok(Some(clash));
        }
    }
    Ok(None)
}

impl Drop for Clash {
    fn drop(self) {
        let Clash {
            flow: _,
            one,
            other,
        } = self;
        drop(one);
        drop(other);
    }
}
