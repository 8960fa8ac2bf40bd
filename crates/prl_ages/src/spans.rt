//! The worst and the best ages of the jobs of an actuator from one job on and before another, of all tasks at once.

ghost use Rattle.std.specs.Prelude.{◌≡◌, ◌+◌, ◌<◌, ◌≤◌, ◌^◌, length, IfOk};
ghost use Rattle.prl_ages.specs.Ages.{released};
ghost use Rattle.prl_ages.specs.Needs.{AreNeeded};
ghost use Rattle.prl_ages.specs.code.Extremes.{newer, older, with_ages, AreExtremes, IsExtreme};

use crate::ages::{Age, Until, age_of};
use crate::needs::needed;
use prl_base::TaskNo;
use prl_plan::Plan;
use std::alloc::{AllocError, Global};

/// The worst and the best ages of a task's values among some jobs of an actuator; none where no such job depends on the task.
#[derive(Clone, Copy, PartialEq, Eq)]
pub(crate) struct Extremes {
    /// The worst age where the value is used.
    pub(crate) used: Option<Age>,
    /// The worst age where the value is replaced.
    pub(crate) replaced: Option<Age>,
    /// The best age where the value is used.
    pub(crate) best: Option<Age>,
}

/// The older of two ages, of which the first may be missing; the first of two that are the same.
fn older(worst: Option<Age>, age: Age) -> Option<Age>
    ensures { result ≡ older worst age }
{
    match worst {
        None => Some(age),
        Some(first) => {
            if first.ticks < age.ticks {
                Some(age)
            } else {
                worst
            }
        }
    }
}

/// The newer of two ages, of which the first may be missing; the first of two that are the same.
fn newer(best: Option<Age>, age: Age) -> Option<Age>
    ensures { result ≡ newer best age }
{
    match best {
        None => Some(age),
        Some(first) => {
            if age.ticks < first.ticks {
                Some(age)
            } else {
                best
            }
        }
    }
}

/// The extremes with two ages of one job more.
fn with_ages(so_far: Extremes, used: Age, replaced: Age) -> Extremes
    ensures { result ≡ with_ages so_far used replaced }
{
    Extremes {
        used: older(so_far.used, used),
        replaced: older(so_far.replaced, replaced),
        best: newer(so_far.best, used),
    }
}

/// The extremes with the ages of one job more, which depends on so many jobs of the task.
fn take_job(
    plan: &Plan,
    chain: &[TaskNo],
    s: TaskNo,
    a: TaskNo,
    from: u64,
    k: u64,
    counts: &[u64],
    so_far: Extremes,
) -> Extremes
    requires sensor { s.0 < length plan.now.graph.tasks }
    requires actuator { a.0 < length plan.now.graph.tasks }
    requires small { released plan.now.graph a.0 (k + 1) < 2 ^ 62 }
    requires from { from ≤ k }
    requires needed { AreNeeded plan.now.graph chain.now a.0 k counts.now }
    requires so_far { IsExtreme plan.now.graph chain.now s.0 a.0 from k so_far }
    ensures { IsExtreme plan.now.graph chain.now s.0 a.0 from (k + 1) result }
{
    let _graph = plan.graph();
    let _ = chain;
    let _ = from;
    let count = counts[s.0 as usize];
    if count == 0 {
        return so_far;
    }
    let instance = count - 1;
    let used = Age {
        ticks: age_of(plan, s, instance, a, Until::Used, k),
        job: k,
        instance,
    };
    let replaced = Age {
        ticks: age_of(plan, s, instance, a, Until::Replaced, k),
        job: k,
        instance,
    };
    with_ages(so_far, used, replaced)
}

/// The extremes of all tasks with the ages of one job more.
fn take_all(
    plan: &Plan,
    chain: &[TaskNo],
    a: TaskNo,
    from: u64,
    k: u64,
    counts: &[u64],
    extremes: &mut [Extremes],
)
    requires actuator { a.0 < length plan.now.graph.tasks }
    requires small { released plan.now.graph a.0 (k + 1) < 2 ^ 62 }
    requires from { from ≤ k }
    requires needed { AreNeeded plan.now.graph chain.now a.0 k counts.now }
    requires are { AreExtremes plan.now.graph chain.now a.0 from k extremes.old }
    ensures { AreExtremes plan.now.graph chain.now a.0 from (k + 1) extremes.new }
{
    for s in 0..plan.graph().tasks.len() {
        let so_far = extremes[s];
        extremes[s] = take_job(plan, chain, TaskNo(s as u32), a, from, k, counts, so_far);
    }
}

/// By task, the extremes of the ages at the jobs of actuator `a` from job `from` on and before job `to`.
pub(crate) fn extremes_within(
    alloc: Global,
    plan: &Plan,
    chain: &[TaskNo],
    a: TaskNo,
    from: u64,
    to: u64,
) -> Result<Vec<Extremes>, AllocError>
    requires actuator { a.0 < length plan.now.graph.tasks }
    requires small { released plan.now.graph a.0 to < 2 ^ 62 }
    requires order { from ≤ to }
    ensures { IfOk result (λ list. AreExtremes plan.now.graph chain.now a.0 from to list.items) }
{
    let none = Extremes {
        used: None,
        replaced: None,
        best: None,
    };
    let mut list = vec![in alloc; none; plan.graph().tasks.len()]?;
    for k in from..to {
        let counts = needed(alloc, plan, chain, a, k)?;
        take_all(plan, chain, a, from, k, &counts, list.as_mut_slice());
    }
    Ok(list)
}
