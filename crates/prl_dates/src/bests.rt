//! The bests of the jobs of a hyperperiod over chains of any length, or the first job that has no
//! room.

ghost use Rattle.std.specs.Prelude.{◌≡◌, ◌+◌, ◌<◌, ◌≤◌, ◌^◌, ◌++◌, ℕ, pos, length, replicate, IfOk, MatchOption, MatchResult, slice_index};
ghost use Rattle.prl_plan.specs.Graphs.{IsWellFormed, jobs_in_hyperperiod};
ghost use Rattle.prl_plan.specs.Jobs.{task_at, deadline_of};
ghost use Rattle.prl_dates.specs.declared.faults.DateFault.TheVariants as faults;
ghost use Rattle.prl_dates.specs.Faults.{jobs_of, IsDateFault};
ghost use Rattle.prl_dates.specs.code.Families.{AreBests};
ghost use Rattle.prl_dates.specs.code.Lanes.{AreLanes};
ghost use Rattle.prl_dates.specs.code.Indices.{jobs_before, dates_of};
ghost use Rattle.prl_dates.specs.code.Tables.{AreWithin, IsFirstTable, first_of, IsFirstAbove, IsNowhereAbove, AreFinal};

use crate::DateFault;
use crate::lanes::Lane;
use crate::leaps::rounds;
use crate::numbers::{jobs_before, jobs_of};
use crate::rounds::round;
use crate::runs::push_times;
use prl_base::TaskNo;
use prl_deadlines::above_in;
use prl_plan::TaskGraph;
use std::alloc::{AllocError, Global};

/// What the dates of a table are at first, in ticks after the releases.
#[derive(Clone, Copy)]
pub(crate) enum First {
    Wcet,
    Due,
}

/// The first dates of a task.
fn first_of(graph: &TaskGraph, first: First, i: u32) -> u64
    requires { i < length graph.now.tasks }
    ensures { result ≡ first_of graph.now first i }
{
    let task = &graph.tasks.as_slice()[i as usize];
    match first {
        First::Wcet => u64::from(task.wcet),
        First::Due => task.due,
    }
}

/// The table of the first dates.
pub(crate) fn first_table(
    alloc: Global,
    graph: &TaskGraph,
    first: First,
) -> Result<Vec<u64>, AllocError>
    requires { IsWellFormed graph.now }
    ensures { IfOk result (λ table. IsFirstTable graph.now first (length graph.now.tasks) table.items) }
{
    let tasks = graph.tasks.len() as u32;
    let mut table = Vec::with_capacity(alloc, jobs_before(graph, tasks) as usize)?;
    for i in 0..tasks {
        push_times(
            &mut table,
            first_of(graph, first, i),
            jobs_of(graph, TaskNo(i)),
        )?;
    }
    Ok(table)
}

/// The lowest job at which one table is above the other.
fn first_above(graph: &TaskGraph, high: &[u64], low: &[u64]) -> Option<(TaskNo, u64)>
    requires well { IsWellFormed graph.now }
    requires high { length high.now ≡ jobs_in_hyperperiod graph.now }
    requires low { length low.now ≡ jobs_in_hyperperiod graph.now }
    ensures { MatchOption result (IsNowhereAbove graph.now (length graph.now.tasks) high.now low.now)
        (λ at. IsFirstAbove graph.now high.now low.now at.0.0 at.1) }
{
    for i in 0..graph.tasks.len() as u32 {
        let first = jobs_before(graph, i);
        let count = jobs_of(graph, TaskNo(i));
        if let Some(n) = above_in(high, low, first, count) {
            return Some((TaskNo(i), n));
        }
    }
    None
}

/// The fault of a job whose best is above its deadline.
fn narrow(graph: &TaskGraph, bests: &[u64], task: TaskNo, n: u64) -> DateFault
    requires well { IsWellFormed graph.now }
    requires task { task.0 < length graph.now.tasks }
    requires job { n < jobs_of graph.now task.0 }
    requires long { length bests.now ≡ jobs_in_hyperperiod graph.now }
    requires within { AreWithin bests.now (2 ^ 62) }
    ensures { result ≡ faults.Narrow task (pos n) (dates_of graph.now bests.now task.0 (pos n)) (deadline_of (task_at graph.now task.0) (pos n)) }
{
    let row = &graph.tasks.as_slice()[task.0 as usize];
    let released = row.clock.start + n * row.clock.period;
    let index = (jobs_before(graph, task.0) + n) as usize;
    DateFault::Narrow {
        task,
        job: n as i64,
        needs: (released + bests[index]) as i64,
        has: (released + row.due) as i64,
    }
}

/// Raises the bests until a round changes nothing, where none comes above the dues.
fn settle(
    alloc: Global,
    graph: &TaskGraph,
    lanes: &[Lane],
    dues: &[u64],
    now: &mut [u64],
    next: &mut [u64],
) -> Result<(), DateFault>
    requires well { IsWellFormed graph.now }
    requires lanes { AreLanes graph.now lanes.now }
    requires dues { IsFirstTable graph.now First.Due (length graph.now.tasks) dues.now }
    requires wcets { IsFirstTable graph.now First.Wcet (length graph.now.tasks) now.old }
    requires copy { next.old ≡ now.old }
    ensures { MatchResult result (λ done. AreFinal graph.now lanes.now now.new) (IsDateFault graph.now) }
{
    let most = (now.len() as u64).saturating_sub(1);
    let still = rounds(alloc, graph, lanes, now, next, most)?;
    if let Some((task, n)) = first_above(graph, now, dues) {
        return Err(narrow(graph, now, task, n));
    }
    if still {
        return Ok(());
    }
    round(graph, lanes, now, next);
    if let Some((task, n)) = first_above(graph, next, now) {
        return Err(DateFault::Loop {
            task,
            job: n as i64,
        });
    }
    Ok(())
}

/// The bests over chains of any length, where each is within its due.
pub(crate) fn bests(
    alloc: Global,
    graph: &TaskGraph,
    lanes: &[Lane],
    dues: &[u64],
) -> Result<Vec<u64>, DateFault>
    requires well { IsWellFormed graph.now }
    requires lanes { AreLanes graph.now lanes.now }
    requires dues { IsFirstTable graph.now First.Due (length graph.now.tasks) dues.now }
    ensures { MatchResult result (λ table. AreFinal graph.now lanes.now table.items) (IsDateFault graph.now) }
{
    let mut now = first_table(alloc, graph, First::Wcet)?;
    let mut next = first_table(alloc, graph, First::Wcet)?;
    settle(
        alloc,
        graph,
        lanes,
        dues,
        now.as_mut_slice(),
        next.as_mut_slice(),
    )?;
    Ok(now)
}
