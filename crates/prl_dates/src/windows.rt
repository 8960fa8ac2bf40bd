//! Windows of the jobs of a hyperperiod, as shortest lists that repeat.

ghost use Rattle.std.specs.Prelude.{◌≡◌, ◌+◌, ◌<◌, ◌≤◌, ℕ, length, IfOk, slice_index};
ghost use Rattle.prl_plan.specs.Vocabulary.{IsWellFormed, jobs_in_hyperperiod, task_at};
ghost use Rattle.prl_dates.specs.Faults.{jobs_of};
ghost use Rattle.prl_dates.specs.code.Indices.{jobs_before};
ghost use Rattle.prl_dates.specs.code.Windows.{AreWindowsOf, AreWindows};

use crate::numbers::{jobs_before, jobs_of, wcet_of};
use prl_base::{Seq, TaskNo};
use prl_numbers::shortest_repeat;
use prl_plan::{TaskGraph, Window};
use std::alloc::{AllocError, Global};

/// The shortest list of windows of the task.
fn windows_of(
    alloc: Global,
    graph: &TaskGraph,
    i: TaskNo,
    bests: &[u64],
    tails: &[u64],
) -> Result<Seq<Window>, AllocError>
    requires well { IsWellFormed graph.now }
    requires task { i.0 < length graph.now.tasks }
    requires bests { length bests.now ≡ jobs_in_hyperperiod graph.now }
    requires tails { length tails.now ≡ jobs_in_hyperperiod graph.now }
    requires room { (p : ℕ) → p < jobs_of graph.now i.0 → (task_at graph.now i.0).wcet ≤ slice_index bests.now (jobs_before graph.now i.0 + p) }
    ensures { IfOk result (AreWindowsOf graph.now bests.now tails.now i.0) }
{
    let first = jobs_before(graph, i.0);
    let jobs = jobs_of(graph, i);
    let wcet = u64::from(wcet_of(graph, i));
    let mut list = Vec::with_capacity(alloc, jobs as usize)?;
    for p in 0..jobs {
        let index = (first + p) as usize;
        list.push(Window {
            lead: bests[index] - wcet,
            tail: tails[index],
        })?;
    }
    let step = shortest_repeat(list.as_slice());
    list.truncate(step);
    Ok(Seq::new(list))
}

/// The shortest list of windows of each task.
pub(crate) fn windows(
    alloc: Global,
    graph: &TaskGraph,
    bests: &[u64],
    tails: &[u64],
) -> Result<Seq<Seq<Window>>, AllocError>
    requires well { IsWellFormed graph.now }
    requires bests { length bests.now ≡ jobs_in_hyperperiod graph.now }
    requires tails { length tails.now ≡ jobs_in_hyperperiod graph.now }
    requires room { (i p : ℕ) → i < length graph.now.tasks → p < jobs_of graph.now i →
        (task_at graph.now i).wcet ≤ slice_index bests.now (jobs_before graph.now i + p) }
    ensures { IfOk result (AreWindows graph.now bests.now tails.now (length graph.now.tasks)) }
{
    let mut windows = Vec::with_capacity(alloc, graph.tasks.len())?;
    for i in 0..graph.tasks.len() {
        windows.push(windows_of(alloc, graph, TaskNo(i as u32), bests, tails)?)?;
    }
    Ok(Seq::new(windows))
}
