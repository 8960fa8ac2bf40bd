//! Which jobs are pending: released, and due before a bound.

ghost use Rattle.std.specs.Prelude.{◌≡◌, ◌<◌, ◌≤◌, ◌+◌, length, MatchOption};
ghost use Rattle.prl_schedules.specs.code.Dates.{IsLastDeadline, IsLatest, IsLeastBelow, IsPending, IsPendingJob};

use crate::dates::{Next, next_of};
use crate::walks::Walk;
use prl_base::TaskNo;
use prl_plan::{Plan, plan_is_one};

/// The first unfinished job of a task, where it is released and due before the bound.
fn pending(plan: &Plan, walk: &Walk, j: TaskNo, bound: u64) -> Option<Next>
    requires task { j.0 < length plan.now.graph.tasks }
    requires size { length walk.now.ended.items ≡ length plan.now.graph.tasks }
    ensures { MatchOption result (IsPending plan.now walk.now.tick walk.now.ended.items bound j.0 → ⊥)
        (IsPendingJob plan.now walk.now.tick walk.now.ended.items bound j.0) }
{
    let Some(next) = next_of(plan, j, walk.ended[j.0 as usize]) else {
        return None;
    };
    if next.job.release <= walk.tick && next.job.deadline < bound {
        Some(next)
    } else {
        None
    }
}

/// The least among the tasks up to task `j`, from that among those below it.
fn least_with(plan: &Plan, walk: &Walk, bound: u64, best: Option<Next>, j: TaskNo) -> Option<Next>
    requires task { j.0 < length plan.now.graph.tasks }
    requires size { length walk.now.ended.items ≡ length plan.now.graph.tasks }
    requires best { IsLeastBelow plan.now walk.now.tick walk.now.ended.items bound j.0 best }
    ensures { IsLeastBelow plan.now walk.now.tick walk.now.ended.items bound (j.0 + 1) result }
{
    let Some(next) = pending(plan, walk, j, bound) else {
        return best;
    };
    match best {
        Some(earlier) if earlier.own <= next.own => best,
        _ => Some(next),
    }
}

/// Of the first unfinished jobs that are released and due before the bound, the one that is released first by the clock of
/// its task. Where a run has one of these jobs, it has this one.
pub(crate) fn least_pending(plan: &Plan, walk: &Walk, bound: u64) -> Option<Next>
    requires { length walk.now.ended.items ≡ length plan.now.graph.tasks }
    ensures { IsLeastBelow plan.now walk.now.tick walk.now.ended.items bound (length plan.now.graph.tasks) result }
{
    plan_is_one(plan);
    let mut best = None;
    for j in 0..plan.graph().tasks.len() {
        best = least_with(plan, walk, bound, best, TaskNo(j as u32));
    }
    best
}

/// The encoded deadline of the last job of a task that has ended; 0 where none has.
fn last_deadline(plan: &Plan, walk: &Walk, j: TaskNo) -> u64
    requires task { j.0 < length plan.now.graph.tasks }
    requires size { length walk.now.ended.items ≡ length plan.now.graph.tasks }
    ensures { IsLastDeadline plan.now walk.now.ended.items j.0 result }
{
    let ended = walk.ended[j.0 as usize];
    if ended == 0 {
        return 0;
    }
    match next_of(plan, j, ended - 1) {
        Some(last) => last.job.deadline,
        None => 0,
    }
}

/// The greatest encoded deadline of a job that has ended; 0 where none has.
pub(crate) fn latest_deadline(plan: &Plan, walk: &Walk) -> u64
    requires { length walk.now.ended.items ≡ length plan.now.graph.tasks }
    ensures { IsLatest plan.now walk.now.ended.items (length plan.now.graph.tasks) result }
{
    plan_is_one(plan);
    let mut latest = 0;
    for j in 0..plan.graph().tasks.len() {
        latest = latest.max(last_deadline(plan, walk, TaskNo(j as u32)));
    }
    latest
}
