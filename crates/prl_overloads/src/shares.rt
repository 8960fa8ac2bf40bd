//! How the ticks that jobs ask for fall on their tasks.

ghost use Rattle.std.specs.Prelude.{◌≡◌, ◌<◌, IfSome, length, slice_index};
ghost use Rattle.prl_plan.specs.Jobs.{task_at};
ghost use Rattle.prl_overloads.specs.Shares.{IsHeaviest, cost_of, cost_of_all};

use prl_base::TaskNo;
use prl_plan::TaskGraph;

/// How many jobs of a task there are; 0 where there is no number for it.
pub(crate) fn count_at(counts: &[u64], i: usize) -> u64
    ensures { result ≡ slice_index counts.now i }
{
    match counts.get(i) {
        None => 0,
        Some(count) => *count,
    }
}

/// The WCET of a task, in ticks; 1 where it is not there.
pub fn wcet_at(graph: &TaskGraph, i: usize) -> u64
    ensures { result ≡ (task_at graph.now i).wcet }
{
    match graph.tasks.as_slice().get(i) {
        None => 1,
        Some(task) => u64::from(task.wcet),
    }
}

/// What the jobs of a task cost together; None past 64 bits.
pub(crate) fn cost_at(graph: &TaskGraph, counts: &[u64], i: usize) -> Option<u64>
    ensures { IfSome result (λ cost. cost ≡ cost_of graph.now counts.now i) }
{
    count_at(counts, i).checked_mul(wcet_at(graph, i))
}

/// What so many jobs of each task cost together, in ticks; None past 64 bits.
pub fn cost_of_all(graph: &TaskGraph, counts: &[u64]) -> Option<u64>
    ensures { IfSome result (λ cost. cost ≡ cost_of_all graph.now counts.now) }
{
    let mut sum: u64 = 0;
    for i in 0..graph.tasks.len() {
        sum = sum.checked_add(cost_at(graph, counts, i)?)?;
    }
    Some(sum)
}

/// The first task whose jobs cost most; None where there is no task, and past 64 bits.
pub fn heaviest(graph: &TaskGraph, counts: &[u64]) -> Option<TaskNo>
    ensures { IfSome result (λ i. IsHeaviest graph.now counts.now i.0) }
{
    if graph.tasks.is_empty() {
        return None;
    }
    let mut best: usize = 0;
    let mut most = cost_at(graph, counts, 0)?;
    for i in 1..graph.tasks.len() {
        let cost = cost_at(graph, counts, i)?;
        if most < cost {
            best = i;
            most = cost;
        }
    }
    if best < 64 {
        Some(TaskNo(best as u32))
    } else {
        None
    }
}
