//! The flows round a cycle: a search along uses, of which what it finds is looked at once more.

ghost use Rattle.std.specs.Prelude.{◌≡◌, IfOk, IfSome};
ghost use Rattle.std.specs.Bool.{OnTrue};
ghost use Rattle.prl_ways.specs.Rounds.{IsRound, IsWay};

use crate::uses::{Along, used, uses};
use prl_base::Seq;
use prl_flow::{Arg, Flat};
use std::alloc::{AllocError, Global};

/// A cycle: a flow, and those after it round the cycle, each used by the one before it and the last using the first.
pub struct Round {
    pub along: Along,
    pub first: u32,
    pub rest: Seq<u32>,
}

/// A search: which flows were met, in their order, and for each flow the one that uses it, where one was met.
#[derive(Drop)]
struct Search {
    met: Vec<u32>,
    users: Vec<Option<u32>>,
}

/// Whether each flow uses the next, and the last one the end.
fn is_way(flat: &Flat, along: Along, first: u32, rest: &[u32], end: u32) -> bool
    ensures { OnTrue result (IsWay flat.now along first rest.now end) }
{
    match rest {
        [] => uses(flat, along, first, end),
        [next, after @ ..] => {
            uses(flat, along, first, *next) && is_way(flat, along, *next, after, end)
        }
    }
}

/// Meets a flow that another one uses.
fn meet(search: &mut Search, user: u32, flow: u32) -> Result<(), AllocError> {
    match search.users.get_mut(flow as usize) {
        Some(place) if place.is_none() => *place = Some(user),
        _ => return Ok(()),
    }
    search.met.push(flow)?;
    Ok(())
}

/// Meets the arguments that a flow uses.
fn meet_arguments(search: &mut Search, user: u32, args: &[Arg]) -> Result<(), AllocError> {
    for arg in args {
        meet(search, user, arg.flow.0)?;
    }
    Ok(())
}

/// Meets the flows that a flow uses.
fn meet_used(search: &mut Search, flat: &Flat, along: Along, user: u32) -> Result<(), AllocError> {
    let Some(flow) = flat.flows().get(user as usize) else {
        return Ok(());
    };
    let (one, args) = used(flat, along, &flow.def);
    if let Some(of) = one {
        meet(search, user, of.0)?;
    }
    meet_arguments(search, user, args)
}

/// The search from a flow.
fn searched(alloc: Global, flat: &Flat, along: Along, first: u32) -> Result<Search, AllocError> {
    let count = flat.flows().len();
    let mut search = Search {
        met: Vec::new(alloc),
        users: vec![in alloc; None; count]?,
    };
    meet_used(&mut search, flat, along, first)?;
    for k in 0..count {
        let Some(user) = search.met.as_slice().get(k).copied() else {
            break;
        };
        meet_used(&mut search, flat, along, user)?;
    }
    Ok(search)
}

/// The flows on the way from the first one back to it, but for the first.
fn way_back(alloc: Global, search: &Search, first: u32) -> Result<Vec<u32>, AllocError> {
    let mut way = Vec::new(alloc);
    let mut flow = first;
    for _ in 0..search.users.len() {
        let Some(Some(user)) = search.users.as_slice().get(flow as usize).copied() else {
            break;
        };
        if user == first {
            break;
        }
        flow = user;
        way.push(flow)?;
    }
    way.reverse();
    Ok(way)
}

/// A cycle through the flow along uses of one kind.
fn round_along(
    alloc: Global,
    flat: &Flat,
    along: Along,
    first: u32,
) -> Result<Option<Round>, AllocError>
    ensures { IfOk result (λ found. IfSome found (IsRound flat.now first)) }
{
    let search = searched(alloc, flat, along, first)?;
    let rest = way_back(alloc, &search, first)?;
    if !is_way(flat, along, first, rest.as_slice(), first) {
        return Ok(None);
    }
    Ok(Some(Round {
        along,
        first,
        rest: Seq::new(rest),
    }))
}

/// The flows round a cycle through this flow, each of which uses the next and the last the first: without a delay, or else through
/// no application. None where the search finds none.
pub fn round_from(alloc: Global, flat: &Flat, first: u32) -> Result<Option<Round>, AllocError>
    ensures { IfOk result (λ found. IfSome found (IsRound flat.now first)) }
{
    match round_along(alloc, flat, Along::Undelayed, first)? {
        Some(round) => Ok(Some(round)),
        None => round_along(alloc, flat, Along::Inside, first),
    }
}

impl Drop for Round {
    fn drop(self) {
        let Round {
            along: _,
            first: _,
            rest,
        } = self;
        drop(rest);
    }
}
