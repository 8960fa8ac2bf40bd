//! The worst, the settled and the best ages of all jobs of an actuator.

ghost use Rattle.std.specs.Prelude.{◌≡◌, ◌+◌, ◌*◌, ◌<◌, ◌≤◌, ◌^◌, ℕ, length, IfOk};
ghost use Rattle.std.specs.Bool.{OnTrue};
ghost use Rattle.prl_plan.specs.declared.limits.TheConstants.{MAX_JOBS as MOST_JOBS, MAX_PREFIX};
ghost use Rattle.prl_ages.specs.Ages.{released};
ghost use Rattle.prl_ages.specs.Reaching.{jobs_of};
ghost use Rattle.prl_ages.specs.Verdicts.{AreVerdicts};
ghost use Rattle.prl_ages.specs.code.Extremes.{AreExtremes};
ghost use Rattle.prl_ages.specs.code.Lags.{AreAllLags};
ghost use Rattle.prl_ages.specs.code.Windows.{known, verdict_of, with_lag, AreAllCounted, AreWithin, AreWindows, IsReady, IsSettledAfter};

use crate::ages::Age;
use crate::lags::{jobs_of, lags};
use crate::needs::needed;
use crate::settling::settled_after;
use crate::spans::{Extremes, extremes_within};
use prl_base::TaskNo;
use prl_plan::{MAX_JOBS, Plan};
use std::alloc::{AllocError, Global};

/// How old a task's values are where the jobs of an actuator use them.
#[derive(Clone, Copy, PartialEq, Eq)]
pub struct AgeBounds {
    /// The worst age where the value is used.
    pub used: Age,
    /// The worst age where the value is replaced: the worst reaction to a change.
    pub replaced: Age,
    /// The worst age that comes again and again, in ticks.
    pub settled: u64,
    /// The best age, in ticks.
    pub best: u64,
}

/// What is told of the ages of a task's values at an actuator.
#[derive(Clone, Copy, PartialEq, Eq)]
pub enum Verdict {
    /// No job of the actuator depends on the task.
    Never,
    /// Jobs after this one depend on the task, this one does not, and more jobs are not looked at.
    Late(u64),
    /// The ages over all jobs.
    Known(AgeBounds),
}

/// The greatest of some lags, and 0 where none is known.
fn greatest(lags: &[Option<u64>]) -> u64
    ensures within { AreWithin lags.now result }
    ensures few { (most : ℕ) → AreWithin lags.now most → result ≤ most }
{
    let mut greatest = 0;
    for s in 0..lags.len() {
        greatest = with_lag(greatest, lags[s]);
    }
    greatest
}

/// The greater of a number and a lag.
fn with_lag(greatest: u64, lag: Option<u64>) -> u64
    ensures { result ≡ with_lag greatest lag }
{
    match lag {
        None => greatest,
        Some(lag) => greatest.max(lag),
    }
}

/// Whether a job of each task that has a lag is counted.
fn are_all_counted(lags: &[Option<u64>], counts: &[u64]) -> bool
    requires { length lags.now ≡ length counts.now }
    ensures { OnTrue result (AreAllCounted lags.now counts.now) }
{
    for s in 0..lags.len() {
        if lags[s].is_some() && counts[s] == 0 {
            return false;
        }
    }
    true
}

/// Of the jobs 0, 1, 3, 7 and so on of an actuator the first that depends on all that the actuator ever depends on, and `most`
/// where none before it does.
fn ready_job(
    alloc: Global,
    plan: &Plan,
    chain: &[TaskNo],
    a: TaskNo,
    lags: &[Option<u64>],
    most: u64,
) -> Result<u64, AllocError>
    requires actuator { a.0 < length plan.now.graph.tasks }
    requires small { released plan.now.graph a.0 most < 2 ^ 62 }
    requires most { most ≤ MOST_JOBS }
    requires lags { AreAllLags plan.now.graph chain.now a.0 lags.now }
    ensures few { IfOk result (λ k. k ≤ most) }
    ensures ready { IfOk result (IsReady plan.now.graph chain.now a.0 lags.now most) }
{
    let mut k = 0;
    'more: while k < most {
        let counts = needed(alloc, plan, chain, a, k)?;
        if are_all_counted(lags, &counts) {
            return Ok(k);
        }
        k = most.min(2 * k + 1);
    }
    Ok(most)
}

/// The extremes of the jobs up to a hyperperiod after job `ready`, and of the hyperperiod after so many.
fn two_spans(
    alloc: Global,
    plan: &Plan,
    chain: &[TaskNo],
    a: TaskNo,
    ready: u64,
    turns: u64,
) -> Result<(Vec<Extremes>, Vec<Extremes>), AllocError>
    requires actuator { a.0 < length plan.now.graph.tasks }
    requires few { turns ≤ length plan.now.graph.tasks * MAX_PREFIX }
    requires ready { ready ≤ turns * jobs_of plan.now.graph a.0 }
    ensures first { IfOk result (λ spans. AreExtremes plan.now.graph chain.now a.0 0 (ready + jobs_of plan.now.graph a.0) spans.0.items) }
    ensures settled { IfOk result (λ spans. AreExtremes plan.now.graph chain.now a.0
        (turns * jobs_of plan.now.graph a.0) (turns * jobs_of plan.now.graph a.0 + jobs_of plan.now.graph a.0) spans.1.items) }
{
    let per = jobs_of(plan, a);
    let first = extremes_within(alloc, plan, chain, a, 0, ready + per)?;
    let settled = extremes_within(alloc, plan, chain, a, turns * per, turns * per + per)?;
    Ok((first, settled))
}

/// What is told of one task: its lag, how many jobs of it job `ready` depends on, and its extremes.
fn verdict_of(
    lag: Option<u64>,
    ready: u64,
    count: u64,
    first: Extremes,
    settled: Extremes,
) -> Verdict
    ensures { result ≡ verdict_of lag ready count first settled }
{
    if lag.is_none() {
        return Verdict::Never;
    }
    if count == 0 {
        return Verdict::Late(ready);
    }
    known(ready, first, settled)
}

/// The ages of some extremes.
fn known(ready: u64, first: Extremes, settled: Extremes) -> Verdict
    ensures { result ≡ known ready first settled }
{
    match (first.used, first.replaced, settled.used, settled.best) {
        (Some(used), Some(replaced), Some(settled), Some(best)) => Verdict::Known(AgeBounds {
            used,
            replaced,
            settled: settled.ticks,
            best: best.ticks,
        }),
        _ => Verdict::Late(ready),
    }
}

/// What is told of each task by the extremes of two spans.
fn all_verdicts(
    alloc: Global,
    plan: &Plan,
    chain: &[TaskNo],
    a: TaskNo,
    turns: u64,
    ready: u64,
    lags: &[Option<u64>],
    counts: &[u64],
    first: &[Extremes],
    settled: &[Extremes],
) -> Result<Vec<Verdict>, AllocError>
    requires actuator { a.0 < length plan.now.graph.tasks }
    requires windows { AreWindows plan.now.graph chain.now a.0 turns ready lags.now counts.now first.now settled.now }
    ensures { IfOk result (λ list. AreVerdicts plan.now.graph chain.now a.0 list.items) }
{
    let _graph = plan.graph();
    let _ = chain;
    let _ = a;
    let _ = turns;
    let mut list = vec![in alloc; Verdict::Never; lags.len()]?;
    for s in 0..lags.len() {
        list[s] = verdict_of(lags[s], ready, counts[s], first[s], settled[s]);
    }
    Ok(list)
}

/// What is told of each task at an actuator, whose lags are known and whose ages have settled after so many hyperperiods.
fn verdicts_with(
    alloc: Global,
    plan: &Plan,
    chain: &[TaskNo],
    a: TaskNo,
    lags: &[Option<u64>],
    turns: u64,
) -> Result<Vec<Verdict>, AllocError>
    requires actuator { a.0 < length plan.now.graph.tasks }
    requires lags { AreAllLags plan.now.graph chain.now a.0 lags.now }
    requires few { turns ≤ length plan.now.graph.tasks * MAX_PREFIX }
    requires within { AreWithin lags.now turns }
    requires settled { IsSettledAfter plan.now.graph turns }
    ensures { IfOk result (λ list. AreVerdicts plan.now.graph chain.now a.0 list.items) }
{
    let per = jobs_of(plan, a);
    let most = (turns * per).min(MAX_JOBS.saturating_sub(per));
    let ready = ready_job(alloc, plan, chain, a, lags, most)?;
    let counts = needed(alloc, plan, chain, a, ready)?;
    let (first, settled) = two_spans(alloc, plan, chain, a, ready, turns)?;
    all_verdicts(
        alloc, plan, chain, a, turns, ready, lags, &counts, &first, &settled,
    )
}

/// By task, what is told of the ages of its values at an actuator over all jobs: along a chain of tasks or, where it is empty,
/// along all edges. Of the jobs before all that the actuator depends on has come at most 200,000 are looked at.
pub fn verdicts_at(
    alloc: Global,
    plan: &Plan,
    chain: &[TaskNo],
    a: TaskNo,
) -> Result<Vec<Verdict>, AllocError>
    requires { a.0 < length plan.now.graph.tasks }
    ensures { IfOk result (λ list. AreVerdicts plan.now.graph chain.now a.0 list.items) }
{
    let _graph = plan.graph();
    let settled = settled_after(alloc, plan)?;
    let lags = lags(alloc, plan, chain, a)?;
    let turns = settled.max(greatest(&lags));
    verdicts_with(alloc, plan, chain, a, &lags, turns)
}
