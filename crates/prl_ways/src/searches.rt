//! Searches for chains of jobs, back from a job along the edges. Nothing is promised of what they find.

use crate::jobs::{WayJob, later, preceding_job, release_in, wcet_in};
use prl_plan::{Edge, Producer, TaskGraph};
use std::alloc::{AllocError, Global};

/// How many jobs are looked at.
const MOST_STEPS: usize = 20_000;

/// A first job, and those after it.
pub(crate) type Found = (WayJob, Vec<WayJob>);

/// What is searched for: a chain that needs until a date, or a circle.
#[derive(Clone, Copy)]
pub(crate) enum Goal {
    Until(i64),
    Circle,
}

/// A job from which a chain leads to the one that is looked at: the WCETs from it on, and the step of the next job.
#[derive(Clone, Copy)]
struct Step {
    job: WayJob,
    tail: u64,
    next: usize,
}

/// Whether a chain that is as long leads from the job.
fn is_known(steps: &[Step], job: WayJob, tail: u64) -> bool {
    for step in steps {
        if step.job == job && step.tail >= tail {
            return true;
        }
    }
    false
}

/// The job that precedes the job along the edge.
fn job_before(edge: &Edge, job: WayJob) -> Option<WayJob> {
    let Producer::Port { task, .. } = edge.from else {
        return None;
    };
    if edge.to != job.task {
        return None;
    }
    let number = preceding_job(edge.ops.as_slice(), job.number)?;
    Some(WayJob { task, number })
}

/// Adds the job that precedes that of a step along the edge, where a longer chain leads from it than was known.
fn push_before(
    steps: &mut Vec<Step>,
    graph: &TaskGraph,
    k: usize,
    edge: &Edge,
) -> Result<(), AllocError> {
    let Some(step) = steps.as_slice().get(k).copied() else {
        return Ok(());
    };
    let Some(job) = job_before(edge, step.job) else {
        return Ok(());
    };
    let Some(wcet) = wcet_in(graph, job) else {
        return Ok(());
    };
    let tail = step.tail.saturating_add(wcet);
    if is_known(steps.as_slice(), job, tail) {
        return Ok(());
    }
    steps.push(Step { job, tail, next: k })?;
    Ok(())
}

/// Adds the jobs that precede that of a step.
fn push_all_before(steps: &mut Vec<Step>, graph: &TaskGraph, k: usize) -> Result<(), AllocError> {
    for edge in graph.edges.as_slice() {
        push_before(steps, graph, k, edge)?;
    }
    Ok(())
}

/// The chain from a step to another one after it.
fn chain_of(
    alloc: Global,
    steps: &[Step],
    from: usize,
    to: usize,
) -> Result<Option<Found>, AllocError> {
    let mut rest = Vec::new(alloc);
    let Some(first) = steps.get(from) else {
        return Ok(None);
    };
    let mut k = from;
    let mut step = *first;
    for _ in 0..steps.len() {
        if k == to {
            break;
        }
        k = step.next;
        let Some(next) = steps.get(k) else {
            break;
        };
        step = *next;
        rest.push(step.job)?;
    }
    Ok(Some((first.job, rest)))
}

/// Whether the chain from a step needs until this date.
fn needs_until(graph: &TaskGraph, step: Step, needs: i64) -> bool {
    match release_in(graph, step.job) {
        None => false,
        Some(date) => later(date, step.tail) == Some(needs),
    }
}

/// The step after one of which a circle ends, and its number.
fn circle_end(graph: &TaskGraph, steps: &[Step], from: usize, first: Step) -> Option<usize> {
    let released = release_in(graph, first.job)?;
    let mut k = from;
    let mut step = first;
    for _ in 0..steps.len() {
        let before = k;
        k = step.next;
        if k == before {
            return None;
        }
        step = *steps.get(k)?;
        let need = first.tail.saturating_sub(step.tail);
        if step.job.task == first.job.task
            && release_in(graph, step.job)? < later(released, need)?
        {
            return Some(k);
        }
    }
    None
}

/// The number of the step that the goal ends at, where it begins at this step.
fn end_of(graph: &TaskGraph, steps: &[Step], k: usize, step: Step, goal: Goal) -> Option<usize> {
    match goal {
        Goal::Until(needs) if needs_until(graph, step, needs) => Some(0),
        Goal::Until(_) => None,
        Goal::Circle => circle_end(graph, steps, k, step),
    }
}

/// The search for a goal, back from a job.
pub(crate) fn searched(
    alloc: Global,
    graph: &TaskGraph,
    job: WayJob,
    goal: Goal,
) -> Result<Option<Found>, AllocError> {
    let mut steps = Vec::new(alloc);
    let Some(tail) = wcet_in(graph, job) else {
        return Ok(None);
    };
    steps.push(Step { job, tail, next: 0 })?;
    for k in 0..MOST_STEPS {
        let Some(step) = steps.as_slice().get(k).copied() else {
            return Ok(None);
        };
        if let Some(end) = end_of(graph, steps.as_slice(), k, step, goal) {
            return chain_of(alloc, steps.as_slice(), k, end);
        }
        push_all_before(&mut steps, graph, k)?;
    }
    Ok(None)
}

/// The same job two hyperperiods later: the jobs that are looked at before it seldom have numbers below 0.
fn later_job(graph: &TaskGraph, job: WayJob) -> Option<WayJob> {
    let period = graph
        .tasks
        .as_slice()
        .get(job.task.0 as usize)?
        .clock
        .period;
    let jobs = graph.hyper.checked_div(period)?;
    Some(WayJob {
        task: job.task,
        number: later(later(job.number, jobs)?, jobs)?,
    })
}

/// The search for a circle.
pub(crate) fn searched_circle(
    alloc: Global,
    graph: &TaskGraph,
    job: WayJob,
) -> Result<Option<Found>, AllocError> {
    match later_job(graph, job) {
        None => Ok(None),
        Some(job) => searched(alloc, graph, job, Goal::Circle),
    }
}
