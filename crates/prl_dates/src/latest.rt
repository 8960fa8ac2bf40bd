//! The greatest deadlines: lowered along single links, and then along those to jobs whose deadline
//! fell alone, until none asks for an earlier one.

ghost use Rattle.std.specs.Prelude.{◌≡◌, ◌+◌, ◌<◌, ◌≤◌, [], ℕ, length, MatchOption, OnOk, slice_get, Some};
ghost use Rattle.prl_plan.specs.Vocabulary.{IsWellFormed, task_at, jobs_in_hyperperiod};
ghost use Rattle.prl_dates.specs.declared.lanes.Lane.{Lane};
ghost use Rattle.prl_dates.specs.code.Lanes.{IsLane, AreLanes};
ghost use Rattle.prl_dates.specs.code.Tables.{Leaves, LeaveAll, AreUpperDates, AreLowered, HoldsAt, HoldAt, HoldAll, IsListed};

use crate::lanes::Lane;
use crate::numbers::wcet_of;
use crate::rounds::{Changed, all_changed};
use prl_deadlines::latest_end;
use prl_plan::TaskGraph;
use std::alloc::{AllocError, Global};
use std::mem;

/// Lowers the deadline of the job before link `k` to what the job after it asks for; a job whose
/// deadline falls is added to those that fell. No deadline falls below the floor.
fn lower_one(
    graph: &TaskGraph,
    lane: &Lane,
    k: usize,
    floor: &[u64],
    dates: &mut [u64],
    fell: &mut Vec<usize>,
) -> Result<(), AllocError>
    requires well { IsWellFormed graph.now }
    requires lane { IsLane graph.now lane.now }
    requires place { k < length lane.now.links }
    requires floor { Leaves lane.now (task_at graph.now lane.now.to.0).wcet floor.now floor.now k }
    requires dates { AreUpperDates graph.now floor.now dates.old }
    ensures dates { OnOk result (AreUpperDates graph.now floor.now dates.new) }
    ensures lowered { OnOk result (AreLowered graph.now dates.old dates.new fell.old.items fell.new.items) }
    ensures holds { OnOk result (HoldsAt graph.now lane.now dates.new fell.new.items k) }
{
    let _ = floor;
    let link = lane.links.as_slice()[k];
    let from = link.from as usize;
    let wcet = u64::from(wcet_of(graph, lane.to));
    let limit = latest_end(dates[lane.first as usize + k], link.gap, wcet);
    if limit < dates[from] {
        dates[from] = limit;
        fell.push(from)?;
    }
    Ok(())
}

/// The place in the lane of the link to the job.
fn place_of(lane: &Lane, job: usize) -> Option<usize>
    ensures { MatchOption result ((k : ℕ) → k < length lane.now.links → lane.now.first + k ≡ job → ⊥) (λ k. (k < length lane.now.links) × (lane.now.first + k ≡ job)) }
{
    let place = job.checked_sub(lane.first as usize)?;
    if place < lane.links.len() {
        Some(place)
    } else {
        None
    }
}

/// Lowers the deadlines of the jobs before one to what it asks for.
fn lower_before(
    graph: &TaskGraph,
    lanes: &[Lane],
    floor: &[u64],
    job: usize,
    dates: &mut [u64],
    fell: &mut Vec<usize>,
) -> Result<(), AllocError>
    requires well { IsWellFormed graph.now }
    requires lanes { AreLanes graph.now lanes.now }
    requires floor { LeaveAll graph.now lanes.now (length lanes.now) floor.now }
    requires dates { AreUpperDates graph.now floor.now dates.old }
    ensures dates { OnOk result (AreUpperDates graph.now floor.now dates.new) }
    ensures lowered { OnOk result (AreLowered graph.now dates.old dates.new fell.old.items fell.new.items) }
    ensures hold { OnOk result (HoldAt graph.now lanes.now (length lanes.now) job dates.new fell.new.items) }
{
    for l in 0..lanes.len() {
        let lane = &lanes[l];
        if let Some(k) = place_of(lane, job) {
            lower_one(graph, lane, k, floor, dates, fell)?;
        }
    }
    Ok(())
}

/// Lowers the deadlines of the jobs before those that fell.
fn lower_all(
    graph: &TaskGraph,
    lanes: &[Lane],
    floor: &[u64],
    fallen: &[usize],
    dates: &mut [u64],
    fell: &mut Vec<usize>,
) -> Result<(), AllocError>
    requires well { IsWellFormed graph.now }
    requires lanes { AreLanes graph.now lanes.now }
    requires floor { LeaveAll graph.now lanes.now (length lanes.now) floor.now }
    requires dates { AreUpperDates graph.now floor.now dates.old }
    requires hold { HoldAll graph.now lanes.now dates.old fallen.now }
    requires none { fell.old.items ≡ [] }
    ensures dates { OnOk result (AreUpperDates graph.now floor.now dates.new) }
    ensures lowered { OnOk result (AreLowered graph.now dates.old dates.new [] fell.new.items) }
    ensures hold { OnOk result (HoldAll graph.now lanes.now dates.new fell.new.items) }
{
    for job in fallen {
        lower_before(graph, lanes, floor, *job, dates, fell)?;
    }
    Ok(())
}

/// Lowers the deadlines until none falls.
fn lower_over(
    graph: &TaskGraph,
    lanes: &[Lane],
    floor: &[u64],
    changed: &mut Changed,
    dates: &mut [u64],
) -> Result<(), AllocError>
    requires well { IsWellFormed graph.now }
    requires lanes { AreLanes graph.now lanes.now }
    requires floor { LeaveAll graph.now lanes.now (length lanes.now) floor.now }
    requires dates { AreUpperDates graph.now floor.now dates.old }
    requires hold { HoldAll graph.now lanes.now dates.old changed.old.last.items }
    ensures dates { OnOk result (AreUpperDates graph.now floor.now dates.new) }
    ensures asks { OnOk result (LeaveAll graph.now lanes.now (length lanes.now) dates.new) }
{
    loop {
        changed.next.clear();
        let fallen = changed.last.as_slice();
        lower_all(graph, lanes, floor, fallen, dates, &mut changed.next)?;
        if changed.next.is_empty() {
            return Ok(());
        }
        mem::swap(&mut changed.last, &mut changed.next);
    }
}

/// Lowers the deadlines until no lane asks for an earlier one.
pub(crate) fn lower_to_end(
    alloc: Global,
    graph: &TaskGraph,
    lanes: &[Lane],
    floor: &[u64],
    dates: &mut [u64],
) -> Result<(), AllocError>
    requires well { IsWellFormed graph.now }
    requires lanes { AreLanes graph.now lanes.now }
    requires floor { LeaveAll graph.now lanes.now (length lanes.now) floor.now }
    requires dates { AreUpperDates graph.now floor.now dates.old }
    ensures dates { OnOk result (AreUpperDates graph.now floor.now dates.new) }
    ensures asks { OnOk result (LeaveAll graph.now lanes.now (length lanes.now) dates.new) }
{
    let mut changed = all_changed(alloc, dates.len())?;
    lower_over(graph, lanes, floor, &mut changed, dates)
}
