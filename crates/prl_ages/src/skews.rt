//! How far apart in time the values of two sensors are that one job of an actuator uses.

ghost use Rattle.std.specs.Prelude.{◌≡◌, ◌+◌, ◌*◌, ◌<◌, ◌≤◌, ◌^◌, [], length, IfOk};
ghost use Rattle.prl_ages.specs.Ages.{released};
ghost use Rattle.prl_ages.specs.Needs.{AreNeeded};
ghost use Rattle.prl_ages.specs.Skews.{apart, IsSkewVerdict};
ghost use Rattle.prl_ages.specs.code.Farther.{farther, IsGreatestBelow, IsSkewAt};

use crate::ages::released;
use crate::lags::jobs_of;
use crate::needs::needed;
use crate::settling::settled_after;
use prl_base::TaskNo;
use prl_plan::{MAX_JOBS, Plan};
use std::alloc::{AllocError, Global};

/// How far apart in time the values of two sensors are that a job uses.
#[derive(Clone, Copy, PartialEq, Eq)]
pub struct Skew {
    pub ticks: u64,
    /// The job of the actuator.
    pub job: u64,
    /// The latest instance of the first sensor that reaches this job.
    pub first: u64,
    /// The latest instance of the second sensor that reaches this job.
    pub second: u64,
}

/// What is told of the skew of two sensors at an actuator.
#[derive(Clone, Copy, PartialEq, Eq)]
pub enum SkewVerdict {
    /// No job of the actuator depends on both.
    Apart,
    /// The greatest skew over all jobs.
    Greatest(Skew),
    /// As many jobs of the actuator would have to be looked at, more than the limit.
    TooMany(u64),
}

/// The skew at job `k` of an actuator, if both sensors reach it.
fn skew_at(plan: &Plan, s: TaskNo, r: TaskNo, a: TaskNo, k: u64, counts: &[u64]) -> Option<Skew>
    requires first { s.0 < length plan.now.graph.tasks }
    requires second { r.0 < length plan.now.graph.tasks }
    requires actuator { a.0 < length plan.now.graph.tasks }
    requires small { released plan.now.graph a.0 k < 2 ^ 62 }
    requires needed { AreNeeded plan.now.graph [] a.0 k counts.now }
    ensures { IsSkewAt plan.now.graph s.0 r.0 a.0 k result }
{
    let _graph = plan.graph();
    let _ = a;
    let (one, other) = (counts[s.0 as usize], counts[r.0 as usize]);
    if one == 0 || other == 0 {
        return None;
    }
    let (first, second) = (one - 1, other - 1);
    let ticks = released(plan, s, first).abs_diff(released(plan, r, second));
    Some(Skew {
        ticks,
        job: k,
        first,
        second,
    })
}

/// The greater of two skews, of which each may be missing; the first of two that are the same.
fn farther(most: Option<Skew>, skew: Option<Skew>) -> Option<Skew>
    ensures { result ≡ farther most skew }
{
    match (most, skew) {
        (None, _) => skew,
        (_, None) => most,
        (Some(first), Some(second)) => {
            if first.ticks < second.ticks {
                skew
            } else {
                most
            }
        }
    }
}

/// The greatest skew among the first `jobs` jobs of an actuator.
fn greatest_below(
    alloc: Global,
    plan: &Plan,
    s: TaskNo,
    r: TaskNo,
    a: TaskNo,
    jobs: u64,
) -> Result<Option<Skew>, AllocError>
    requires first { s.0 < length plan.now.graph.tasks }
    requires second { r.0 < length plan.now.graph.tasks }
    requires actuator { a.0 < length plan.now.graph.tasks }
    requires small { released plan.now.graph a.0 jobs < 2 ^ 62 }
    ensures { IfOk result (λ most. IsGreatestBelow plan.now.graph s.0 r.0 a.0 jobs most) }
{
    let mut most = None;
    for k in 0..jobs {
        let counts = needed(alloc, plan, &[], a, k)?;
        most = farther(most, skew_at(plan, s, r, a, k, &counts));
    }
    Ok(most)
}

/// The greatest skew of two sensors over all jobs of an actuator. At most 200,000 jobs are looked at.
pub fn skew_of(
    alloc: Global,
    plan: &Plan,
    s: TaskNo,
    r: TaskNo,
    a: TaskNo,
) -> Result<SkewVerdict, AllocError>
    requires first { s.0 < length plan.now.graph.tasks }
    requires second { r.0 < length plan.now.graph.tasks }
    requires actuator { a.0 < length plan.now.graph.tasks }
    ensures { IfOk result (IsSkewVerdict plan.now.graph s.0 r.0 a.0) }
{
    let _graph = plan.graph();
    let jobs = (settled_after(alloc, plan)? + 1) * jobs_of(plan, a);
    if jobs > MAX_JOBS {
        return Ok(SkewVerdict::TooMany(jobs));
    }
    match greatest_below(alloc, plan, s, r, a, jobs)? {
        None => Ok(SkewVerdict::Apart),
        Some(skew) => Ok(SkewVerdict::Greatest(skew)),
    }
}
