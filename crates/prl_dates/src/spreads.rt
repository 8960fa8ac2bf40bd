//! Releases on several processors: the ends of jobs are raised across processors once, and then along
//! lanes within them until none asks for a later one.

ghost use Rattle.std.specs.Prelude.{◌≡◌, ◌+◌, ◌<◌, ◌≤◌, ◌^◌, ◌==◌, ℕ, length, filter, IfOk, OnOk, slice_index};
ghost use Rattle.prl_plan.specs.Vocabulary.{IsWellFormed, jobs_in_hyperperiod, Placement, IsSpread};
ghost use Rattle.prl_dates.specs.declared.lanes.Lane.{Lane};
ghost use Rattle.prl_dates.specs.declared.spreads.Bound.TheVariants as bounds;
ghost use Rattle.prl_dates.specs.code.Exits.{AreExits};
ghost use Rattle.prl_dates.specs.code.Lanes.{IsLane, AreLanes, AreEachLane};
ghost use Rattle.prl_dates.specs.code.Spreads.{bound_of, IsTablePart, IsTableOf, AreRaisedAcross, AreEndsAcross, IsLeastAbove, HasCeiling, AreSpreadEnds};
ghost use Rattle.prl_dates.specs.code.Tables.{AreSettled, AreWithin};

use crate::exits::{Exits, exits_of};
use crate::lanes::{Lane, lanes};
use crate::numbers::{jobs_before, jobs_of, wcet_of};
use crate::rounds::{Changed, advance, all_changed, raise};
use crate::windows::windows;
use prl_base::TaskNo;
use prl_plan::{Dates, Plan, TaskGraph, plan_is_one};
use std::alloc::{AllocError, Global};

/// What a table of a plan's dates tells of each job: the earliest end, which is its release and then
/// its WCET, or the deadline. Both are in ticks after the job's clock releases it.
#[derive(Clone, Copy)]
enum Bound {
    End,
    Deadline,
}

/// What the table has for job `n` of task `i`.
fn bound_of(plan: &Plan, bound: Bound, i: TaskNo, n: u64) -> u64
    requires { i.0 < length plan.now.graph.tasks }
    ensures { result ≡ bound_of plan.now bound i.0 n }
{
    plan_is_one(plan);
    let window = plan.dates().window(i, n);
    match bound {
        Bound::End => window.lead + u64::from(wcet_of(plan.graph(), i)),
        Bound::Deadline => window.tail,
    }
}

/// Adds what the table has for the jobs of task `i` in a hyperperiod.
fn push_bounds(table: &mut Vec<u64>, plan: &Plan, bound: Bound, i: TaskNo) -> Result<(), AllocError>
    requires task { i.0 < length plan.now.graph.tasks }
    requires part { IsTablePart plan.now bound i.0 0 table.old.items }
    ensures { OnOk result (IsTablePart plan.now bound (i.0 + 1) 0 table.new.items) }
{
    let count = jobs_of(plan.graph(), i);
    for n in 0..count {
        table.push(bound_of(plan, bound, i, n))?;
    }
    Ok(())
}

/// The table of the plan's dates.
fn table_of(alloc: Global, plan: &Plan, bound: Bound) -> Result<Vec<u64>, AllocError>
    ensures { IfOk result (λ table. IsTableOf plan.now bound table.items) }
{
    let tasks = plan.graph().tasks.len() as u32;
    let mut table = Vec::with_capacity(alloc, jobs_before(plan.graph(), tasks) as usize)?;
    for i in 0..tasks {
        push_bounds(&mut table, plan, bound, TaskNo(i))?;
    }
    Ok(table)
}

/// The processor of a task; 0 where none is told.
fn processor_of(processors: &[u32], i: TaskNo) -> u32
    ensures { result ≡ slice_index processors.now i.0 }
{
    match processors.get(i.0 as usize) {
        Some(processor) => *processor,
        None => 0,
    }
}

/// Whether the lane is between two tasks of one processor.
fn is_within(processors: &[u32], lane: &Lane) -> bool
    ensures { result ≡ (slice_index processors.now lane.now.from.0 == slice_index processors.now lane.now.to.0) }
{
    processor_of(processors, lane.from) == processor_of(processors, lane.to)
}

/// Raises the ends of jobs that read from another processor: each begins at the earliest at the
/// deadline of a job that it reads from there.
fn raise_across(
    graph: &TaskGraph,
    lanes: &[Lane],
    processors: &[u32],
    deadlines: &[u64],
    ends: &mut [u64],
)
    requires well { IsWellFormed graph.now }
    requires lanes { AreEachLane graph.now lanes.now }
    requires deadlines { length deadlines.now ≡ jobs_in_hyperperiod graph.now }
    requires small { AreWithin deadlines.now (2 ^ 62) }
    requires ends { length ends.old ≡ jobs_in_hyperperiod graph.now }
    ensures { AreRaisedAcross graph.now lanes.now processors.now (length lanes.now) deadlines.now ends.old ends.new }
{
    for l in 0..lanes.len() {
        let lane = &lanes[l];
        let wcet = wcet_of(graph, lane.to);
        if !is_within(processors, lane) {
            raise(lane, wcet, deadlines, ends);
        }
    }
}

/// Leaves the lanes between tasks of one processor.
fn keep_within(lanes: &mut Vec<Lane>, processors: &[u32])
    ensures { lanes.new.items ≡ filter (λ (lane : Lane). slice_index processors.now lane.from.0 == slice_index processors.now lane.to.0) lanes.old.items }
{
    lanes.retain(|lane| is_within(processors, lane));
}

/// Raises the ends until no lane asks for a later one.
fn raise_to_end(
    graph: &TaskGraph,
    lanes: &[Lane],
    exits: &Exits,
    rises: &mut Changed,
    now: &mut [u64],
    next: &mut [u64],
) -> Result<(), AllocError>
    requires well { IsWellFormed graph.now }
    requires lanes { AreEachLane graph.now lanes.now }
    requires exits { AreExits graph.now lanes.now exits.now }
    requires long { length now.old ≡ jobs_in_hyperperiod graph.now }
    requires settled { AreSettled graph.now lanes.now rises.old.last.items now.old }
    requires copy { next.old ≡ now.old }
    requires ceiling { HasCeiling graph.now lanes.now now.old }
    ensures { OnOk result (IsLeastAbove graph.now lanes.now now.old now.new) }
{
    loop {
        if advance(graph, lanes, exits, rises, now, next)? {
            return Ok(());
        }
    }
}

/// The same, with room for what it keeps.
fn raise_within(
    alloc: Global,
    graph: &TaskGraph,
    lanes: &[Lane],
    ends: &mut [u64],
) -> Result<(), AllocError>
    requires well { IsWellFormed graph.now }
    requires lanes { AreEachLane graph.now lanes.now }
    requires long { length ends.old ≡ jobs_in_hyperperiod graph.now }
    requires ceiling { HasCeiling graph.now lanes.now ends.old }
    ensures { OnOk result (IsLeastAbove graph.now lanes.now ends.old ends.new) }
{
    let exits = exits_of(alloc, graph, lanes)?;
    let mut rises = all_changed(alloc, ends.len())?;
    let mut next = ends.to_vec(alloc)?;
    raise_to_end(graph, lanes, &exits, &mut rises, ends, next.as_mut_slice())
}

/// The table of the plan's ends, raised across processors.
fn ends_across(
    alloc: Global,
    plan: &Plan,
    lanes: &[Lane],
    processors: &[u32],
    deadlines: &[u64],
) -> Result<Vec<u64>, AllocError>
    requires lanes { AreEachLane plan.now.graph lanes.now }
    requires deadlines { IsTableOf plan.now Bound.Deadline deadlines.now }
    ensures { IfOk result (λ ends. AreEndsAcross plan.now lanes.now processors.now deadlines.now ends.items) }
{
    plan_is_one(plan);
    let mut ends = table_of(alloc, plan, Bound::End)?;
    raise_across(
        plan.graph(),
        lanes,
        processors,
        deadlines,
        ends.as_mut_slice(),
    );
    Ok(ends)
}

/// The table of the earliest ends on these processors.
fn spread_ends(
    alloc: Global,
    plan: &Plan,
    processors: &[u32],
    deadlines: &[u64],
) -> Result<Vec<u64>, AllocError>
    requires { IsTableOf plan.now Bound.Deadline deadlines.now }
    ensures { IfOk result (λ ends. AreSpreadEnds plan.now processors.now ends.items) }
{
    let graph = plan.graph();
    let mut lanes = lanes(alloc, graph)?;
    let mut ends = ends_across(alloc, plan, lanes.as_slice(), processors, deadlines)?;
    keep_within(&mut lanes, processors);
    raise_within(alloc, graph, lanes.as_slice(), ends.as_mut_slice())?;
    Ok(ends)
}

/// The windows by which the jobs of the plan are released where each task runs on its processor: the
/// least releases such that a job begins after the jobs on its processor that precede it, and not
/// before the deadlines of those on other processors. Deadlines stay those of the plan.
pub fn spread_dates(alloc: Global, plan: &Plan, processors: &[u32]) -> Result<Dates, AllocError>
    requires { length processors.now ≡ length plan.now.graph.tasks }
    ensures { IfOk result (λ dates. IsSpread plan.now (record { processors = processors.now; windows = dates })) }
{
    let deadlines = table_of(alloc, plan, Bound::Deadline)?;
    let ends = spread_ends(alloc, plan, processors, deadlines.as_slice())?;
    let windows = windows(alloc, plan.graph(), ends.as_slice(), deadlines.as_slice())?;
    Ok(Dates::new(windows))
}
