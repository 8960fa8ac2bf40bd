//! Searches for ways from declared rates. Nothing is promised of what they find.

use crate::links::link;
use crate::ways::Hop;
use prl_flow::{Arg, Def, Flat, has_argument};
use std::alloc::{AllocError, Global};

/// Stands where no flow is.
const NO_FLOW: u32 = u32::MAX;

/// Which constraints are looked at: those of the flows before one, its own with some of its
/// arguments, and its rate.
#[derive(Clone, Copy)]
pub(crate) struct Bound<'a> {
    pub flow: u32,
    pub args: &'a [Arg],
    pub has_rate: bool,
}

/// A search: which flows were met, in their order, and for each flow the next one on the way to
/// the goal, or `NO_FLOW`.
#[derive(Drop)]
struct Search {
    met: Vec<u32>,
    nexts: Vec<u32>,
}

/// Whether the constraint is looked at by which the one flow is over the other.
fn is_open(flat: &Flat, bound: Bound<'_>, user: u32, flow: u32) -> bool {
    let is_within = user < bound.flow || (user == bound.flow && has_argument(bound.args, flow));
    is_within && link(flat, user, flow).is_some()
}

/// Whether the rate of a flow is looked at.
fn is_rated(flat: &Flat, bound: Bound<'_>, flow: u32) -> bool {
    let is_within = flow < bound.flow || (flow == bound.flow && bound.has_rate);
    match flat.flows().get(flow as usize) {
        None => false,
        Some(flow) => is_within && flow.rate.is_some(),
    }
}

/// Meets a flow from which the way to the goal goes on at another one.
fn meet(search: &mut Search, next: u32, flow: u32) -> Result<(), AllocError> {
    match search.nexts.get_mut(flow as usize) {
        Some(place) if *place == NO_FLOW => *place = next,
        _ => return Ok(()),
    }
    search.met.push(flow)?;
    Ok(())
}

/// Meets the flows next to a flow.
fn meet_all(
    search: &mut Search,
    flat: &Flat,
    bound: Bound<'_>,
    flow: u32,
) -> Result<(), AllocError> {
    for other in 0..flat.flows().len() as u32 {
        if is_open(flat, bound, flow, other) || is_open(flat, bound, other, flow) {
            meet(search, flow, other)?;
        }
    }
    Ok(())
}

/// The first flow of a declared rate that the search meets, with the search.
fn searched(
    alloc: Global,
    flat: &Flat,
    bound: Bound<'_>,
    goal: u32,
) -> Result<Option<(u32, Search)>, AllocError> {
    let count = flat.flows().len();
    let mut search = Search {
        met: Vec::new(alloc),
        nexts: vec![in alloc; NO_FLOW; count]?,
    };
    meet(&mut search, goal, goal)?;
    for k in 0..count {
        let Some(flow) = search.met.as_slice().get(k).copied() else {
            return Ok(None);
        };
        if is_rated(flat, bound, flow) {
            return Ok(Some((flow, search)));
        }
        meet_all(&mut search, flat, bound, flow)?;
    }
    Ok(None)
}

/// The flows after the first on the way to the goal.
fn way_on(
    alloc: Global,
    flat: &Flat,
    bound: Bound<'_>,
    search: &Search,
    first: u32,
) -> Result<Vec<Hop>, AllocError> {
    let mut hops = Vec::new(alloc);
    let mut flow = first;
    for _ in 0..search.nexts.len() {
        let Some(next) = search.nexts.as_slice().get(flow as usize).copied() else {
            break;
        };
        if next == flow {
            break;
        }
        let back = !is_open(flat, bound, next, flow);
        hops.push(Hop { flow: next, back })?;
        flow = next;
    }
    Ok(hops)
}

/// A flow of a declared rate, and the flows after it on a way to the goal.
pub(crate) fn way_to(
    alloc: Global,
    flat: &Flat,
    bound: Bound<'_>,
    goal: u32,
) -> Result<Option<(u32, Vec<Hop>)>, AllocError> {
    match searched(alloc, flat, bound, goal)? {
        None => Ok(None),
        Some((first, search)) => Ok(Some((first, way_on(alloc, flat, bound, &search, first)?))),
    }
}

/// The arguments of the application of which the flow is the first output; none where it is no
/// such one.
pub(crate) fn arguments_of(flat: &Flat, flow: u32) -> &[Arg] {
    let Some(flow) = flat.flows().get(flow as usize) else {
        return &[];
    };
    let Def::Apply { app, out: 0 } = flow.def else {
        return &[];
    };
    match flat.apps().get(app as usize) {
        None => &[],
        Some(app) => app.args.as_slice(),
    }
}

/// The flow that the definition of a flow names, where that is a copy, an operator or a later
/// output.
pub(crate) fn operand_of(flat: &Flat, flow: u32) -> Option<u32> {
    let flow = flat.flows().get(flow as usize)?;
    match flow.def {
        Def::Sensor(_) | Def::Const(_) => None,
        Def::Copy(of) => Some(of.0),
        Def::Op { of, .. } => Some(of.0),
        Def::Apply { app, out } => {
            if out == 0 {
                return None;
            }
            let app = flat.apps().get(app as usize)?;
            Some(app.outs.as_slice().first()?.0)
        }
    }
}
