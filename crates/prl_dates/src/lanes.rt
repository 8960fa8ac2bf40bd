//! Links between the jobs of a hyperperiod: for each job and each task with an edge to its task,
//! the greatest job of that task that precedes.

ghost use Rattle.std.specs.Prelude.{◌≡◌, ◌+◌, ◌<◌, ◌≤◌, ◌^◌, ◌↔◌, ℕ, ℤ, pos, length, IfOk, IsTrue, Some, slice_get, slice_index_or};
ghost use Rattle.std.specs.Int.{int_max};
ghost use Rattle.prl_plan.specs.Vocabulary.{IsWellFormed, task_at, release_of, ComesFrom};
ghost use Rattle.prl_plan.specs.declared.graphs.Edge.{Edge};
ghost use Rattle.prl_dates.specs.Faults.{jobs_of};
ghost use Rattle.prl_dates.specs.code.Lanes.{Joins, AreGreatest, IsGreatestBefore, JoinsAt, IsLinkOf, IsLane, AreLanes, IsJoined, AreLanesOf};
ghost use Rattle.prl_dates.specs.code.Indices.{jobs_before};

use crate::numbers::{jobs_before, jobs_of, place_in, release};
use crate::runs::numbers_over;
use prl_base::{Seq, TaskNo};
use prl_plan::{Edge, Producer, TaskGraph};
use std::alloc::{AllocError, Global};

/// The job before a job: its index, and how much earlier it is released.
#[derive(Clone, Copy)]
pub(crate) struct Link {
    pub from: u64,
    /// In ticks.
    pub gap: u64,
}

/// For each job of a hyperperiod of one task, the greatest job of another that precedes it.
#[derive(Drop)]
pub(crate) struct Lane {
    pub from: TaskNo,
    pub to: TaskNo,
    /// The index of job 0 of the later task.
    pub first: u64,
    /// By job of the later task.
    pub links: Seq<Link>,
}

/// Raises each number to the other at its place.
fn raise(numbers: &mut [i64], others: &[i64])
    requires { length others.now ≡ length numbers.old }
    ensures long { length numbers.new ≡ length numbers.old }
    ensures each { (n : ℕ) → n < length numbers.old → slice_index_or numbers.new n (pos 0) ≡ int_max (slice_index_or numbers.old n (pos 0)) (slice_index_or others.now n (pos 0)) }
{
    for n in 0..numbers.len() {
        numbers[n] = numbers[n].max(others[n]);
    }
}

/// Whether the edge leads from the one task to the other.
fn joins(edge: &Edge, from: TaskNo, to: TaskNo) -> bool
    ensures { IsTrue result ↔ (ComesFrom edge.now.from from.0 × (edge.now.to.0 ≡ to.0)) }
{
    match edge.from {
        Producer::Constant(_) => false,
        Producer::Port { task, .. } => task == from && edge.to == to,
    }
}

/// For each job of a hyperperiod of task `to`, the greatest number of a job of task `from` that
/// precedes it, where edge `e` joins the two.
fn greatest(
    alloc: Global,
    graph: &TaskGraph,
    from: TaskNo,
    to: TaskNo,
    e: usize,
) -> Result<Vec<i64>, AllocError>
    requires well { IsWellFormed graph.now }
    requires joins { JoinsAt graph.now from.0 to.0 e }
    ensures { IfOk result (λ v. AreGreatest graph.now from.0 to.0 (length graph.now.edges) v.items) }
{
    let edges = graph.edges.as_slice();
    let jobs = jobs_of(graph, to);
    let mut numbers = numbers_over(alloc, edges[e].ops.as_slice(), jobs)?;
    for edge in edges {
        if joins(edge, from, to) {
            let others = numbers_over(alloc, edge.ops.as_slice(), jobs)?;
            raise(numbers.as_mut_slice(), others.as_slice());
        }
    }
    Ok(numbers)
}

/// The link from job `before` of task `from`, whose job 0 has index `first`, to job `n` of task `to`.
fn link_of(graph: &TaskGraph, from: TaskNo, to: TaskNo, first: u64, n: u64, before: i64) -> Link
    requires well { IsWellFormed graph.now }
    requires from { from.0 < length graph.now.tasks }
    requires to { to.0 < length graph.now.tasks }
    requires first { first ≡ jobs_before graph.now from.0 }
    requires job { n < jobs_of graph.now to.0 }
    requires greatest { IsGreatestBefore graph.now from.0 to.0 (pos n) before }
    ensures { IsLinkOf graph.now from.0 to.0 (pos n) before result }
{
    let tasks = graph.tasks.as_slice();
    let place = place_in(before, jobs_of(graph, from));
    let earlier = release(&tasks[from.0 as usize], before);
    let later = release(&tasks[to.0 as usize], n as i64);
    Link {
        from: first + place,
        gap: later.abs_diff(earlier),
    }
}

/// The links from these jobs to those of a hyperperiod.
fn links(
    alloc: Global,
    graph: &TaskGraph,
    from: TaskNo,
    to: TaskNo,
    numbers: &[i64],
) -> Result<Vec<Link>, AllocError>
    requires well { IsWellFormed graph.now }
    requires from { from.0 < length graph.now.tasks }
    requires to { to.0 < length graph.now.tasks }
    requires greatest { AreGreatest graph.now from.0 to.0 (length graph.now.edges) numbers.now }
    ensures long { IfOk result (λ v. length v.items ≡ jobs_of graph.now to.0) }
    ensures each { IfOk result (λ v. (n : ℕ) (link : Link) → slice_get v.items n ≡ Some link →
        IsLinkOf graph.now from.0 to.0 (pos n) (slice_index_or numbers.now n (pos 0)) link) }
{
    let first = jobs_before(graph, from.0);
    let mut links = Vec::with_capacity(alloc, numbers.len())?;
    for n in 0..numbers.len() {
        links.push(link_of(graph, from, to, first, n as u64, numbers[n]))?;
    }
    Ok(links)
}

/// The lane of the two tasks that edge `e` joins.
fn lane_of(
    alloc: Global,
    graph: &TaskGraph,
    from: TaskNo,
    to: TaskNo,
    e: usize,
) -> Result<Lane, AllocError>
    requires well { IsWellFormed graph.now }
    requires joins { JoinsAt graph.now from.0 to.0 e }
    ensures lane { IfOk result (IsLane graph.now) }
    ensures ends { IfOk result (λ lane. (lane.from.0 ≡ from.0) × (lane.to.0 ≡ to.0)) }
{
    let numbers = greatest(alloc, graph, from, to, e)?;
    let links = links(alloc, graph, from, to, numbers.as_slice())?;
    Ok(Lane {
        from,
        to,
        first: jobs_before(graph, to.0),
        links: Seq::new(links),
    })
}

/// Whether there is a lane between the tasks.
fn is_joined(lanes: &[Lane], from: TaskNo, to: TaskNo) -> bool
    ensures { IsTrue result ↔ IsJoined lanes.now from.0 to.0 }
{
    for l in 0..lanes.len() {
        if lanes[l].from == from && lanes[l].to == to {
            return true;
        }
    }
    false
}

/// Adds the lane of the tasks that edge `e` joins, if they have none yet.
fn add_lane(
    alloc: Global,
    graph: &TaskGraph,
    e: usize,
    lanes: &mut Vec<Lane>,
) -> Result<(), AllocError>
    requires well { IsWellFormed graph.now }
    requires edge { e < length graph.now.edges }
    requires lanes { AreLanesOf graph.now e lanes.old.items }
    ensures { IfOk result (λ done. AreLanesOf graph.now (e + 1) lanes.new.items) }
{
    let edge = &graph.edges.as_slice()[e];
    if let Producer::Port { task, .. } = edge.from {
        if !is_joined(lanes.as_slice(), task, edge.to) {
            let lane = lane_of(alloc, graph, task, edge.to, e)?;
            lanes.push(lane)?;
        }
    }
    Ok(())
}

/// A lane for each two tasks that an edge joins.
pub(crate) fn lanes(alloc: Global, graph: &TaskGraph) -> Result<Vec<Lane>, AllocError>
    requires { IsWellFormed graph.now }
    ensures { IfOk result (λ lanes. AreLanes graph.now lanes.items) }
{
    let mut lanes = Vec::new(alloc);
    for e in 0..graph.edges.len() {
        add_lane(alloc, graph, e, &mut lanes)?;
    }
    Ok(lanes)
}
