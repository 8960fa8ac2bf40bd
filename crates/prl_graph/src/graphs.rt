//! The task graph whole, and the limits on it.

ghost use Rattle.std.specs.Prelude.{◌≡◌, ◌≤◌, ℕ, List, IfErr, IfOk, MatchResult, length};
ghost use Rattle.std.specs.List.{AllByRecursion};
ghost use Rattle.prl_base.specs.declared.operators.Clock.{Clock};
ghost use Rattle.prl_base.specs.declared.values.Value.{Value};
ghost use Rattle.prl_body.specs.Bodies.{IsWellTyped};
ghost use Rattle.prl_body.specs.declared.bodies.CheckedBody.{CheckedBody};
ghost use Rattle.prl_flow.specs.Vocabulary.{HaveBodies, Rows, AreClocks, Solves, HasNoCycle};
ghost use Rattle.prl_plan.specs.Graphs.{IsWellFormed};
ghost use Rattle.prl_plan.specs.declared.limits.TheConstants.{MAX_EDGES, MAX_HYPER, MAX_PERIOD_JOBS, MAX_TASKS};
ghost use Rattle.prl_graph.specs.declared.faults.GraphFault.TheVariants as faults;
ghost use Rattle.prl_values.specs.JobValues.{AreJobValues};
ghost use Rattle.prl_graph.specs.JobDates.{values_on_dates};
ghost use Rattle.prl_graph.specs.Ports.{ports_of, task_count};
ghost use Rattle.prl_graph.specs.TaskGraphs.{AreSmallClocks, HasDues, IsGraphFault, IsGraphOf, jobs_within, told};
ghost use Rattle.prl_graph.specs.code.Made.{AreFirstTasks, HavePeriods, IsChecked};
ghost use Rattle.prl_graph.specs.code.Marks.{AreLeastDues, AreOutputMarks};

use crate::GraphFault;
use crate::dues::{check_places, check_ranges, output_marks};
use crate::edges::all_edges;
use crate::hypers::hyperperiod;
use crate::leasts::least_dues;
use crate::tasks::all_tasks;
use prl_base::{Limit, Seq, What};
use prl_flow::{Clocks, Flat};
use prl_plan::{MAX_EDGES, MAX_PERIOD_JOBS, MAX_TASKS, Task, TaskGraph};
use std::alloc::Global;

/// How many tasks there are, as far as 64 bits tell.
fn count_tasks(flat: &Flat) -> u64
    ensures { result ≡ told (task_count flat.now) }
{
    let devices = (flat.ins().len() as u64).saturating_add(flat.outs().len() as u64);
    devices.saturating_add(flat.apps().len() as u64)
}

/// How many input ports there are, as far as 64 bits tell.
fn count_ports(flat: &Flat) -> u64
    ensures { result ≡ told (length (ports_of flat.now)) }
{
    let mut count = flat.outs().len() as u64;
    for app in flat.apps() {
        count = count.saturating_add(app.args.len() as u64);
    }
    count
}

/// A limit that is passed.
fn limit(what: What, found: u64) -> GraphFault
    ensures { result ≡ faults.Limit (record { what = what; found = found }) }
{
    GraphFault::Limit(Limit { what, found })
}

/// Whether tasks and edges are within their limits.
fn check_counts(flat: &Flat) -> Result<(), GraphFault>
    ensures few_tasks { IfOk result (λ done. task_count flat.now ≤ MAX_TASKS) }
    ensures few_edges { IfOk result (λ done. length (ports_of flat.now) ≤ MAX_EDGES) }
    ensures fault { IfErr result (λ fault. (clocks : List Clock) → HasDues flat.now clocks → IsGraphFault flat.now clocks fault) }
{
    let tasks = count_tasks(flat);
    if tasks > MAX_TASKS as u64 {
        return Err(limit(What::Tasks, tasks));
    }
    let edges = count_ports(flat);
    if edges > MAX_EDGES as u64 {
        return Err(limit(What::Edges, edges));
    }
    Ok(())
}

/// How many jobs the tasks have in a hyperperiod.
fn period_jobs(tasks: &[Task], hyper: u64) -> u64
    requires few { length tasks.now ≤ MAX_TASKS }
    requires hyper { hyper ≤ MAX_HYPER }
    requires periods { HavePeriods tasks.now }
    ensures { result ≡ jobs_within hyper tasks.now }
{
    let mut jobs = 0;
    for task in tasks {
        jobs += hyper / task.clock.period;
    }
    jobs
}

/// Looks at the dues, and then at the limits on tasks, on edges and on the hyperperiod, which is told.
fn checked(alloc: Global, flat: &Flat, clocks: &Clocks, outputs: &[bool]) -> Result<u64, GraphFault>
    requires clocks { AreClocks flat.now clocks.now.of }
    requires small { AreSmallClocks clocks.now.of }
    requires outputs { AreOutputMarks flat.now outputs.now }
    ensures { MatchResult result (IsChecked flat.now clocks.now.of) (IsGraphFault flat.now clocks.now.of) }
{
    check_places(alloc, flat, outputs)?;
    check_ranges(alloc, flat, clocks)?;
    check_counts(flat)?;
    match hyperperiod(clocks.of.as_slice()) {
        Ok(hyper) => Ok(hyper),
        Err(found) => Err(limit(What::Hyperperiod, found)),
    }
}

/// The least due of each application, and the hyperperiod.
fn dues_and_hyper(
    alloc: Global,
    flat: &Flat,
    clocks: &Clocks,
) -> Result<(Vec<u64>, u64), GraphFault>
    requires clocks { AreClocks flat.now clocks.now.of }
    requires small { AreSmallClocks clocks.now.of }
    ensures checked { MatchResult result (λ made. IsChecked flat.now clocks.now.of made.1) (IsGraphFault flat.now clocks.now.of) }
    ensures dues { IfOk result (λ made. AreLeastDues flat.now clocks.now.of (length flat.now.flows) made.0.items) }
{
    let outputs = output_marks(alloc, flat)?;
    let hyper = checked(alloc, flat, clocks, outputs.as_slice())?;
    Ok((least_dues(alloc, flat, clocks, outputs.as_slice())?, hyper))
}

/// The tasks, and the hyperperiod.
fn tasks_and_hyper(
    alloc: Global,
    flat: &Flat,
    clocks: &Clocks,
) -> Result<(Vec<Task>, u64), GraphFault>
    requires clocks { AreClocks flat.now clocks.now.of }
    requires small { AreSmallClocks clocks.now.of }
    ensures checked { MatchResult result (λ made. IsChecked flat.now clocks.now.of made.1) (IsGraphFault flat.now clocks.now.of) }
    ensures tasks { IfOk result (λ made. AreFirstTasks flat.now clocks.now.of (task_count flat.now) made.0.items) }
    ensures few { IfOk result (λ made. jobs_within made.1 made.0.items ≤ MAX_PERIOD_JOBS) }
{
    let _flows = flat.flows();
    let made = dues_and_hyper(alloc, flat, clocks)?;
    let tasks = all_tasks(alloc, flat, clocks, made.0.as_slice())?;
    let hyper = made.1;
    let jobs = period_jobs(tasks.as_slice(), hyper);
    if jobs > MAX_PERIOD_JOBS {
        return Err(limit(What::PeriodJobs, jobs));
    }
    Ok((tasks, hyper))
}

/// The task graph of a flat program with its clocks: its tasks with their dues, its edges with the
/// operators on the way, and the hyperperiod over all of its flows. The dues are looked at first,
/// then the limits on tasks, on edges, on the hyperperiod and on the jobs in it, in this order.
pub fn graph(alloc: Global, flat: &Flat, clocks: &Clocks) -> Result<TaskGraph, GraphFault>
    requires clocks { AreClocks flat.now clocks.now.of }
    requires small { AreSmallClocks clocks.now.of }
    requires causal { HasNoCycle flat.now }
    ensures graph { MatchResult result (IsGraphOf flat.now clocks.now.of) (IsGraphFault flat.now clocks.now.of) }
    ensures well_formed { IfOk result IsWellFormed }
    // The values by instance are those of each solution of the flat program, at the jobs' dates.
    ensures values { IfOk result (λ g. (bodies : List CheckedBody) (rows : Rows) (until : ℕ) (flows : List (List Value)) →
        HaveBodies flat.now bodies → AllByRecursion IsWellTyped bodies → Solves flat.now clocks.now.of bodies rows until flows →
        AreJobValues g bodies rows until (values_on_dates flat.now clocks.now.of flows g)) }
{
    let _flows = flat.flows();
    let made = tasks_and_hyper(alloc, flat, clocks)?;
    let edges = all_edges(alloc, flat, clocks)?;
    Ok(TaskGraph {
        tasks: Seq::new(made.0),
        edges: Seq::new(edges),
        hyper: made.1,
    })
}
