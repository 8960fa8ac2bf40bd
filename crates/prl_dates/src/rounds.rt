//! Rounds: each lets the bests of the round before reach one job further.

ghost use Rattle.std.specs.Prelude.{◌≡◌, ◌+◌, ◌*◌, ◌<◌, ◌≤◌, ◌^◌, [], ℕ, length, true, false, IfOk, OnOk};
ghost use Rattle.prl_plan.specs.Graphs.{IsWellFormed, jobs_in_hyperperiod};
ghost use Rattle.prl_dates.specs.code.Lanes.{link_at, IsLane, AreEachLane};
ghost use Rattle.prl_dates.specs.code.Exits.{AreExits};
ghost use Rattle.prl_dates.specs.code.Tables.{AreRaised, AreRound, AreSettled, AreWithin, AreBelow, IsListed, ListsRisen};

use crate::exits::{Exits, round_after};
use crate::lanes::Lane;
use crate::numbers::wcet_of;
use prl_plan::TaskGraph;
use std::alloc::{AllocError, Global};
use std::mem;

/// A round in which one job in so many rises goes over whole lanes, and not job by job.
pub(crate) const MANY: usize = 16;

/// The indices of the jobs whose dates the last round changed, and room for those of the next one.
#[derive(Drop)]
pub(crate) struct Changed {
    pub last: Vec<usize>,
    pub next: Vec<usize>,
}

/// All jobs as changed.
pub(crate) fn all_changed(alloc: Global, jobs: usize) -> Result<Changed, AllocError>
    ensures all { IfOk result (λ rises. (q : ℕ) → q < jobs → IsListed rises.last.items q) }
    ensures below { IfOk result (λ rises. AreBelow rises.last.items jobs) }
{
    let mut last = Vec::with_capacity(alloc, jobs)?;
    for job in 0..jobs {
        last.push(job)?;
    }
    Ok(Changed {
        last,
        next: Vec::new(alloc),
    })
}

/// Raises the bests of the lane's later task to what the bests of its earlier one ask for.
pub(crate) fn raise(lane: &Lane, wcet: u32, now: &[u64], next: &mut [u64])
    requires from { (k : ℕ) → k < length lane.now.links → (link_at lane.now k).from < length now.now }
    requires to { lane.now.first + length lane.now.links ≤ length next.old }
    requires small { AreWithin now.now (2 ^ 62) }
    ensures { AreRaised lane.now wcet (length lane.now.links) now.now next.old next.new }
{
    let first = lane.first as usize;
    let links = lane.links.as_slice();
    for k in 0..links.len() {
        let link = links[k];
        let asked = (now[link.from as usize] + u64::from(wcet)).saturating_sub(link.gap);
        if asked > next[first + k] {
            next[first + k] = asked;
        }
    }
}

/// One round, over all lanes.
pub(crate) fn round(graph: &TaskGraph, lanes: &[Lane], now: &[u64], next: &mut [u64])
    requires well { IsWellFormed graph.now }
    requires lanes { AreEachLane graph.now lanes.now }
    requires long { length now.now ≡ jobs_in_hyperperiod graph.now }
    requires small { AreWithin now.now (2 ^ 62) }
    requires copy { next.old ≡ now.now }
    ensures { AreRound graph.now lanes.now (length lanes.now) now.now next.new }
{
    for l in 0..lanes.len() {
        let lane = &lanes[l];
        raise(lane, wcet_of(graph, lane.to), now, next);
    }
}

/// Lists the indices at which the tables differ.
fn list_risen(now: &[u64], next: &[u64], rises: &mut Vec<usize>) -> Result<(), AllocError>
    requires same { length next.now ≡ length now.now }
    requires none { rises.old.items ≡ [] }
    ensures { OnOk result (ListsRisen now.now next.now rises.new.items) }
{
    for job in 0..now.len() {
        if next[job] != now[job] {
            rises.push(job)?;
        }
    }
    Ok(())
}

/// One round, and the indices that rose in it.
fn round_listed(
    graph: &TaskGraph,
    lanes: &[Lane],
    exits: &Exits,
    risen: &[usize],
    now: &[u64],
    next: &mut [u64],
    rises: &mut Vec<usize>,
) -> Result<(), AllocError>
    requires well { IsWellFormed graph.now }
    requires lanes { AreEachLane graph.now lanes.now }
    requires exits { AreExits graph.now lanes.now exits.now }
    requires long { length now.now ≡ jobs_in_hyperperiod graph.now }
    requires small { AreWithin now.now (2 ^ 62) }
    requires settled { AreSettled graph.now lanes.now risen.now now.now }
    requires copy { next.old ≡ now.now }
    requires none { rises.old.items ≡ [] }
    ensures round { OnOk result (AreRound graph.now lanes.now (length lanes.now) now.now next.new) }
    ensures lists { OnOk result (ListsRisen now.now next.new rises.new.items) }
{
    if risen.len() < now.len() / MANY {
        return round_after(graph, lanes, exits, risen, now, next, rises);
    }
    round(graph, lanes, now, next);
    list_risen(now, next, rises)
}

/// Takes over the dates that rose.
fn take_over(now: &mut [u64], next: &[u64], rises: &[usize])
    requires same { length next.now ≡ length now.old }
    requires lists { ListsRisen now.old next.now rises.now }
    ensures { now.new ≡ next.now }
{
    for job in rises {
        now[*job] = next[*job];
    }
}

/// Goes on by one round; whether nothing rose.
pub(crate) fn advance(
    graph: &TaskGraph,
    lanes: &[Lane],
    exits: &Exits,
    rises: &mut Changed,
    now: &mut [u64],
    next: &mut [u64],
) -> Result<bool, AllocError>
    requires well { IsWellFormed graph.now }
    requires lanes { AreEachLane graph.now lanes.now }
    requires exits { AreExits graph.now lanes.now exits.now }
    requires long { length now.old ≡ jobs_in_hyperperiod graph.now }
    requires small { AreWithin now.old (2 ^ 62) }
    requires settled { AreSettled graph.now lanes.now rises.old.last.items now.old }
    requires copy { next.old ≡ now.old }
    ensures round { OnOk result (AreRound graph.now lanes.now (length lanes.now) now.old now.new) }
    ensures settled { OnOk result (AreSettled graph.now lanes.now rises.new.last.items now.new) }
    ensures copy { OnOk result (next.new ≡ now.new) }
    ensures still { IfOk result (λ still. still ≡ true → now.new ≡ now.old) }
    ensures moves { IfOk result (λ still. still ≡ false → now.new ≡ now.old → ⊥) }
{
    rises.next.clear();
    let risen = rises.last.as_slice();
    round_listed(graph, lanes, exits, risen, now, next, &mut rises.next)?;
    take_over(now, next, rises.next.as_slice());
    mem::swap(&mut rises.last, &mut rises.next);
    Ok(rises.last.is_empty())
}
