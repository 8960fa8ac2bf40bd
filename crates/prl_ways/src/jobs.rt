//! Jobs of a task graph, over all whole numbers: which precede which, when they are released and what they need.

ghost use Rattle.std.specs.Prelude.{◌≡◌, ◌+ℤ◌, pos, map, IfSome};
ghost use Rattle.std.specs.Bool.{OnTrue};
ghost use Rattle.prl_base.specs.Operators.{preceding_number};
ghost use Rattle.prl_plan.specs.Chains.{IsChain, last_of, needs_of, wcets_of};
ghost use Rattle.prl_plan.specs.Jobs.{deadline_of, release_of, task_at};
ghost use Rattle.prl_plan.specs.Precedence.{Precedes, PrecedesAlong, preceding};
ghost use Rattle.prl_ways.specs.Chains.{HasEdge, job_of, jobs_of};

use prl_base::{Op, TaskNo};
use prl_plan::{Edge, Producer, Task, TaskGraph};

/// A job: its task, and its number, which may be any whole number.
#[derive(Clone, Copy, PartialEq, Eq)]
pub struct WayJob {
    pub task: TaskNo,
    pub number: i64,
}

/// The number of the job that precedes job `n` over the operator; None past 64 bits.
fn number_before(op: &Op, n: i64) -> Option<i64>
    ensures { IfSome result (λ m. m ≡ preceding_number op.now n) }
{
    match *op {
        Op::Up(0) => None,
        Op::Up(k) if n >= 0 => Some(n / i64::from(k)),
        Op::Up(k) => Some(-1 - (-1 - n) / i64::from(k)),
        Op::Down(k) => i64::from(k).checked_mul(n),
        Op::Shift(_) => Some(n),
        Op::Tail => n.checked_add(1),
        Op::Cons(_) | Op::Fby(_) => n.checked_sub(1),
    }
}

/// The number of the producer's job that precedes job `n` of the consumer, over the operators from the consumer's end on;
/// None past 64 bits.
pub(crate) fn preceding_job(ops: &[Op], n: i64) -> Option<i64>
    ensures { IfSome result (λ m. m ≡ preceding ops.now n) }
{
    match ops {
        [] => Some(n),
        [op, rest @ ..] => match number_before(op, n) {
            None => None,
            Some(number) => preceding_job(rest, number),
        },
    }
}

/// Whether the one job precedes the other along the edge, as far as numbers of 64 bits tell.
fn precedes_along(_graph: &TaskGraph, edge: &Edge, before: WayJob, after: WayJob) -> bool
    ensures { OnTrue result (PrecedesAlong _graph.now edge.now (job_of before) (job_of after)) }
{
    let Producer::Port { task, .. } = edge.from else {
        return false;
    };
    if task != before.task || edge.to != after.task {
        return false;
    }
    match preceding_job(edge.ops.as_slice(), after.number) {
        None => false,
        Some(number) => number == before.number,
    }
}

/// Whether the one job precedes the other along some edge.
fn has_edge(graph: &TaskGraph, before: WayJob, after: WayJob) -> bool
    ensures { OnTrue result (HasEdge graph.now (job_of before) (job_of after)) }
{
    for edge in graph.edges.as_slice() {
        if precedes_along(graph, edge, before, after) {
            return true;
        }
    }
    false
}

/// Whether the one job precedes the other.
#[tactic(auto, using(crate::proofs::Edges::precedes_by))]
fn precedes(graph: &TaskGraph, before: WayJob, after: WayJob) -> bool
    ensures { OnTrue result (Precedes graph.now (job_of before) (job_of after)) }
{
    has_edge(graph, before, after)
}

/// Whether the jobs are of tasks of the graph and each precedes the next.
pub(crate) fn is_chain(graph: &TaskGraph, first: WayJob, rest: &[WayJob]) -> bool
    ensures { OnTrue result (IsChain graph.now (job_of first) (jobs_of rest.now)) }
{
    if first.task.0 as usize >= graph.tasks.len() {
        return false;
    }
    match rest {
        [] => true,
        [next, after @ ..] => precedes(graph, first, *next) && is_chain(graph, *next, after),
    }
}

/// The job that a chain ends in.
pub(crate) fn last_of(first: WayJob, rest: &[WayJob]) -> WayJob
    ensures { job_of result ≡ last_of (job_of first) (jobs_of rest.now) }
{
    match rest {
        [] => first,
        [next, after @ ..] => last_of(*next, after),
    }
}

/// The sum of the WCETs of the jobs of a chain; None past 64 bits, or where a task is not there.
pub(crate) fn wcets_of(graph: &TaskGraph, first: WayJob, rest: &[WayJob]) -> Option<u64>
    ensures { IfSome result (λ n. n ≡ wcets_of graph.now (job_of first) (jobs_of rest.now)) }
{
    let task = graph.tasks.as_slice().get(first.task.0 as usize)?;
    match rest {
        [] => Some(u64::from(task.wcet)),
        [next, after @ ..] => u64::from(task.wcet).checked_add(wcets_of(graph, *next, after)?),
    }
}

/// A number of ticks as one with a sign; None where it is too large.
fn signed(ticks: u64) -> Option<i64>
    ensures { IfSome result (λ n. n ≡ pos ticks) }
{
    if ticks <= i64::MAX as u64 {
        Some(ticks as i64)
    } else {
        None
    }
}

/// When job `n` of the task is released; None past 64 bits.
pub(crate) fn release(task: &Task, n: i64) -> Option<i64>
    ensures { IfSome result (λ date. date ≡ release_of task.now n) }
{
    let start = signed(task.clock.start)?;
    let period = signed(task.clock.period)?;
    start.checked_add(n.checked_mul(period)?)
}

/// When a job is released; None past 64 bits, or where its task is not there.
pub(crate) fn release_in(graph: &TaskGraph, job: WayJob) -> Option<i64>
    ensures { IfSome result (λ date. date ≡ release_of (task_at graph.now job.task.0) job.number) }
{
    release(graph.tasks.as_slice().get(job.task.0 as usize)?, job.number)
}

/// A date so many ticks later; None past 64 bits.
pub(crate) fn later(date: i64, ticks: u64) -> Option<i64>
    ensures { IfSome result (λ end. end ≡ date +ℤ pos ticks) }
{
    date.checked_add(signed(ticks)?)
}

/// When the last job of a chain can have ended at the earliest; None past 64 bits, or where a task is not there.
pub(crate) fn needs_of(graph: &TaskGraph, first: WayJob, rest: &[WayJob]) -> Option<i64>
    ensures { IfSome result (λ date. date ≡ needs_of graph.now (job_of first) (jobs_of rest.now)) }
{
    let released = release_in(graph, first)?;
    later(released, wcets_of(graph, first, rest)?)
}

/// The WCET of a job's task; None where that is not there.
pub(crate) fn wcet_in(graph: &TaskGraph, job: WayJob) -> Option<u64>
    ensures { IfSome result (λ n. n ≡ (task_at graph.now job.task.0).wcet) }
{
    Some(u64::from(graph.tasks.as_slice().get(job.task.0 as usize)?.wcet))
}
