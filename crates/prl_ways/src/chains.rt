//! The chain of jobs that a job waits for, and a circle of jobs before it: searches back along the edges, of which what they find is
//! looked at once more.

ghost use Rattle.std.specs.Prelude.{◌≡◌, IfOk, IfSome};
ghost use Rattle.std.specs.Bool.{OnTrue};
ghost use Rattle.prl_ways.specs.Chains.{IsChainOf, IsChainTo, IsCircle, job_of};

use crate::jobs::{WayJob, is_chain, last_of, later, needs_of, release_in, wcet_in};
use crate::searches::{Goal, searched, searched_circle};
use prl_base::Seq;
use prl_plan::TaskGraph;
use std::alloc::{AllocError, Global};

/// Jobs of which each precedes the next: a first one, and those after it; with dates in ticks.
pub struct Chain {
    pub first: WayJob,
    pub rest: Seq<WayJob>,
    /// When the first job is released.
    pub begins: i64,
    /// When the last job is released.
    pub released: i64,
    /// When the last job can have ended at the earliest: the release of the first, and then all WCETs.
    pub needs: i64,
}

/// The jobs as a chain, where they are one; None too where a date is past 64 bits.
fn chained(graph: &TaskGraph, first: WayJob, rest: Vec<WayJob>) -> Option<Chain>
    ensures { IfSome result (IsChainOf graph.now) }
{
    if !is_chain(graph, first, rest.as_slice()) {
        return None;
    }
    let begins = release_in(graph, first)?;
    let released = release_in(graph, last_of(first, rest.as_slice()))?;
    let needs = needs_of(graph, first, rest.as_slice())?;
    Some(Chain {
        first,
        rest: Seq::new(rest),
        begins,
        released,
        needs,
    })
}

/// Whether the chain ends in the job, which can have ended by this date at the earliest.
fn leads_to(graph: &TaskGraph, job: WayJob, needs: i64, chain: &Chain) -> bool
    requires { IsChainOf graph.now chain.now }
    ensures { OnTrue result (IsChainTo graph.now (job_of job) needs chain.now) }
{
    last_of(chain.first, chain.rest.as_slice()) == job && chain.needs == needs
}

/// Whether the chain is a circle.
fn is_circle(graph: &TaskGraph, chain: &Chain) -> bool
    requires { IsChainOf graph.now chain.now }
    ensures { OnTrue result (IsCircle graph.now chain.now) }
{
    let last = last_of(chain.first, chain.rest.as_slice());
    if last.task != chain.first.task {
        return false;
    }
    let Some(wcet) = wcet_in(graph, last) else {
        return false;
    };
    match later(chain.released, wcet) {
        None => false,
        Some(alone) => alone < chain.needs,
    }
}

/// A chain of jobs that ends in the job, each preceding the next, by which it can have ended at this date at the earliest. None
/// where the search finds none.
pub fn chain_to(
    alloc: Global,
    graph: &TaskGraph,
    job: WayJob,
    needs: i64,
) -> Result<Option<Chain>, AllocError>
    ensures { IfOk result (λ found. IfSome found (IsChainTo graph.now (job_of job) needs)) }
{
    let Some((first, rest)) = searched(alloc, graph, job, Goal::Until(needs))? else {
        return Ok(None);
    };
    match chained(graph, first, rest) {
        Some(chain) if leads_to(graph, job, needs, &chain) => Ok(Some(chain)),
        _ => Ok(None),
    }
}

/// A circle of jobs for which the job waits: they lead from a job to a later one of its task, and need longer than that has. None
/// where the search finds none.
pub fn circle_before(
    alloc: Global,
    graph: &TaskGraph,
    job: WayJob,
) -> Result<Option<Chain>, AllocError>
    ensures { IfOk result (λ found. IfSome found (IsCircle graph.now)) }
{
    let Some((first, rest)) = searched_circle(alloc, graph, job)? else {
        return Ok(None);
    };
    match chained(graph, first, rest) {
        Some(chain) if is_circle(graph, &chain) => Ok(Some(chain)),
        _ => Ok(None),
    }
}

impl Drop for Chain {
    fn drop(self) {
        let Chain {
            first: _,
            rest,
            begins: _,
            released: _,
            needs: _,
        } = self;
        drop(rest);
    }
}
