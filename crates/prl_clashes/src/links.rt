//! Which flows have clocks over one another.

ghost use Rattle.std.specs.Prelude.{IfSome};
ghost use Rattle.std.specs.Bool.{OnTrue};
ghost use Rattle.prl_clashes.specs.ClockWays.{HasArgumentAt, IsToldAt, StandsAt};
ghost use Rattle.prl_clashes.specs.Links.{HasAt, HasLink, IsApplied, IsFirstOutput, IsLink};

use crate::timings::{same_clock, timing_of_operator};
use prl_clock::Timing;
use prl_flow::{Arg, Def, Flat};

/// Whether a flow is the first output of the application of this number.
fn is_first_output(flat: &Flat, app: u32, flow: u32) -> bool
    ensures { OnTrue result (IsFirstOutput flat.now app flow) }
{
    match flat.apps().get(app as usize) {
        None => false,
        Some(app) => match app.outs.as_slice().first() {
            None => false,
            Some(first) => first.0 == flow,
        },
    }
}

/// Whether this output of an application has the clock of a flow.
#[tactic(auto, using(crate::proofs::LinkFacts::by_argument, crate::proofs::LinkFacts::by_output))]
fn is_applied(flat: &Flat, app: u32, out: u32, flow: u32) -> bool
    ensures { OnTrue result (IsApplied flat.now app out flow) }
{
    if out == 0 {
        flat.is_argument(app, flow)
    } else {
        is_first_output(flat, app, flow)
    }
}

/// What a flow is over another one, by its definition; None where that does not name the other
/// one.
fn link_of(flat: &Flat, def: &Def, flow: u32) -> Option<Timing>
    ensures { IfSome result (IsLink flat.now def.now flow) }
{
    match def {
        Def::Sensor(_) => None,
        Def::Const(_) => None,
        Def::Copy(of) => {
            if of.0 == flow {
                Some(same_clock())
            } else {
                None
            }
        }
        Def::Apply { app, out } => {
            if is_applied(flat, *app, *out, flow) {
                Some(same_clock())
            } else {
                None
            }
        }
        Def::Op { op, of } => {
            if of.0 == flow {
                timing_of_operator(op)
            } else {
                None
            }
        }
    }
}

/// What a flow is over another one; None where its definition does not name that.
pub(crate) fn link(flat: &Flat, user: u32, flow: u32) -> Option<Timing>
    ensures { IfSome result (HasLink flat.now user flow) }
{
    match flat.flows().get(user as usize) {
        None => None,
        Some(user) => link_of(flat, &user.def, flow),
    }
}

/// Whether an argument stands at this byte.
fn has_at(args: &[Arg], at: u32) -> bool
    ensures { OnTrue result (HasAt args.now at) }
{
    for arg in args {
        if arg.at.at == at {
            return true;
        }
    }
    false
}

/// Whether an argument of the application stands at this byte, of which the flow is an output.
#[tactic(auto, using(crate::proofs::WayFacts::argument_is))]
fn has_argument_at(flat: &Flat, flow: u32, at: u32) -> bool
    ensures { OnTrue result (HasArgumentAt flat.now flow at) }
{
    let Some(flow) = flat.flows().get(flow as usize) else {
        return false;
    };
    let Def::Apply { app, .. } = flow.def else {
        return false;
    };
    match flat.apps().get(app as usize) {
        None => false,
        Some(app) => has_at(app.args.as_slice(), at),
    }
}

/// Whether the flow stands at this byte.
fn stands_at(flat: &Flat, flow: u32, at: u32) -> bool
    ensures { OnTrue result (StandsAt flat.now flow at) }
{
    match flat.flows().get(flow as usize) {
        None => false,
        Some(flow) => flow.at.at == at,
    }
}

/// Whether the flow or an argument of its application stands at this byte.
#[tactic(auto, using(crate::proofs::LinkFacts::stands, crate::proofs::LinkFacts::has_argument))]
pub(crate) fn is_told_at(flat: &Flat, flow: u32, at: u32) -> bool
    ensures { OnTrue result (IsToldAt flat.now flow at) }
{
    if stands_at(flat, flow, at) {
        true
    } else {
        has_argument_at(flat, flow, at)
    }
}
