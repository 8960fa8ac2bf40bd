//! The links from each job of a hyperperiod: so a round looks at those alone whose job rose.

ghost use Rattle.std.specs.Prelude.{◌≡◌, ◌+◌, ◌<◌, ◌≤◌, ◌^◌, [], ℕ, length, IfOk, OnOk, slice_get, slice_index, Some};
ghost use Rattle.prl_plan.specs.Vocabulary.{IsWellFormed, jobs_in_hyperperiod, task_at};
ghost use Rattle.prl_dates.specs.declared.lanes.Lane.{Lane};
ghost use Rattle.prl_dates.specs.code.Lanes.{AreEachLane, IsLane, link_at};
ghost use Rattle.prl_dates.specs.code.Exits.{AreExits, AreExitsPart, IsLinkInside};
ghost use Rattle.prl_dates.specs.code.Tables.{Leaves, AreWithin, AreRound, AreUnderWay, AreSettled, ListsRisen};

use crate::lanes::Lane;
use crate::numbers::{jobs_before, wcet_of};
use prl_base::Seq;
use prl_plan::TaskGraph;
use std::alloc::{AllocError, Global};

/// A link, by its lane and its place there.
#[derive(Clone, Copy)]
pub(crate) struct Exit {
    /// The index of the job that it is from.
    pub from: usize,
    pub lane: usize,
    pub place: usize,
    /// How many exits there are up to the last one before it from the same job; 0 for none.
    pub before: usize,
}

/// The links as exits, lane after lane.
#[derive(Drop)]
pub(crate) struct Exits {
    pub list: Seq<Exit>,
    /// For each job, how many exits there are up to its last one; 0 for none.
    pub last: Seq<usize>,
}

/// Adds the links of a lane.
fn add_exits(
    graph: &TaskGraph,
    lanes: &[Lane],
    l: usize,
    list: &mut Vec<Exit>,
    last: &mut [usize],
) -> Result<(), AllocError>
    requires well { IsWellFormed graph.now }
    requires lanes { AreEachLane graph.now lanes.now }
    requires lane { l < length lanes.now }
    requires part { AreExitsPart graph.now lanes.now l 0 list.old.items last.old }
    ensures { OnOk result (AreExitsPart graph.now lanes.now (l + 1) 0 list.new.items last.new) }
{
    let _ = graph;
    let links = lanes[l].links.as_slice();
    for place in 0..links.len() {
        let from = links[place].from as usize;
        let before = last[from];
        list.push(Exit {
            from,
            lane: l,
            place,
            before,
        })?;
        last[from] = list.len();
    }
    Ok(())
}

/// The links of the lanes, by the jobs that they are from.
pub(crate) fn exits_of(
    alloc: Global,
    graph: &TaskGraph,
    lanes: &[Lane],
) -> Result<Exits, AllocError>
    requires well { IsWellFormed graph.now }
    requires lanes { AreEachLane graph.now lanes.now }
    ensures { IfOk result (λ exits. AreExits graph.now lanes.now exits) }
{
    let jobs = jobs_before(graph, graph.tasks.len() as u32) as usize;
    let mut last = vec![in alloc; 0; jobs]?;
    let mut list = Vec::new(alloc);
    for l in 0..lanes.len() {
        add_exits(graph, lanes, l, &mut list, last.as_mut_slice())?;
    }
    Ok(Exits {
        list: Seq::new(list),
        last: Seq::new(last),
    })
}

/// Raises the best of the job that the link leads to, to what the best of the job before asks for;
/// a job that rises for the first time is added to those that rose.
fn raise_one(
    graph: &TaskGraph,
    lanes: &[Lane],
    exit: Exit,
    now: &[u64],
    next: &mut [u64],
    rises: &mut Vec<usize>,
) -> Result<(), AllocError>
    requires well { IsWellFormed graph.now }
    requires lanes { AreEachLane graph.now lanes.now }
    requires inside { IsLinkInside lanes.now exit.lane exit.place }
    requires long { length now.now ≡ jobs_in_hyperperiod graph.now }
    requires small { AreWithin now.now (2 ^ 62) }
    requires under_way { AreUnderWay graph.now lanes.now now.now next.old rises.old.items }
    ensures under_way { OnOk result (AreUnderWay graph.now lanes.now now.now next.new rises.new.items) }
    ensures up { OnOk result ((q : ℕ) → slice_index next.old q ≤ slice_index next.new q) }
    ensures asks { OnOk result ((lane : Lane) → slice_get lanes.now exit.lane ≡ Some lane → Leaves lane (task_at graph.now lane.to.0).wcet now.now next.new exit.place) }
{
    let lane = &lanes[exit.lane];
    let link = lane.links.as_slice()[exit.place];
    let wcet = u64::from(wcet_of(graph, lane.to));
    let asked = (now[link.from as usize] + wcet).saturating_sub(link.gap);
    let job = lane.first as usize + exit.place;
    if asked > next[job] {
        if next[job] == now[job] {
            rises.push(job)?;
        }
        next[job] = asked;
    }
    Ok(())
}

/// Raises the bests of the jobs after one, to what its best asks for.
fn raise_after(
    graph: &TaskGraph,
    lanes: &[Lane],
    exits: &Exits,
    job: usize,
    now: &[u64],
    next: &mut [u64],
    rises: &mut Vec<usize>,
) -> Result<(), AllocError>
    requires well { IsWellFormed graph.now }
    requires lanes { AreEachLane graph.now lanes.now }
    requires exits { AreExits graph.now lanes.now exits.now }
    requires job { job < length now.now }
    requires long { length now.now ≡ jobs_in_hyperperiod graph.now }
    requires small { AreWithin now.now (2 ^ 62) }
    requires under_way { AreUnderWay graph.now lanes.now now.now next.old rises.old.items }
    ensures under_way { OnOk result (AreUnderWay graph.now lanes.now now.now next.new rises.new.items) }
    ensures up { OnOk result ((q : ℕ) → slice_index next.old q ≤ slice_index next.new q) }
    ensures asks { OnOk result ((l : ℕ) (lane : Lane) (k : ℕ) → slice_get lanes.now l ≡ Some lane → k < length lane.links → (link_at lane k).from ≡ job →
        Leaves lane (task_at graph.now lane.to.0).wcet now.now next.new k) }
{
    let list = exits.list.as_slice();
    let mut count = exits.last.as_slice()[job];
    while count > 0 {
        let exit = list[count - 1];
        raise_one(graph, lanes, exit, now, next, rises)?;
        count = exit.before;
    }
    Ok(())
}

/// One round, over the links from the jobs that rose in the one before.
pub(crate) fn round_after(
    graph: &TaskGraph,
    lanes: &[Lane],
    exits: &Exits,
    risen: &[usize],
    now: &[u64],
    next: &mut [u64],
    rises: &mut Vec<usize>,
) -> Result<(), AllocError>
    requires well { IsWellFormed graph.now }
    requires lanes { AreEachLane graph.now lanes.now }
    requires exits { AreExits graph.now lanes.now exits.now }
    requires long { length now.now ≡ jobs_in_hyperperiod graph.now }
    requires small { AreWithin now.now (2 ^ 62) }
    requires settled { AreSettled graph.now lanes.now risen.now now.now }
    requires copy { next.old ≡ now.now }
    requires none { rises.old.items ≡ [] }
    ensures round { OnOk result (AreRound graph.now lanes.now (length lanes.now) now.now next.new) }
    ensures lists { OnOk result (ListsRisen now.now next.new rises.new.items) }
{
    for job in risen {
        raise_after(graph, lanes, exits, *job, now, next, rises)?;
    }
    Ok(())
}
