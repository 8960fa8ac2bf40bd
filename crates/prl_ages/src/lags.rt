//! After how many hyperperiods each job of an actuator depends on a sensor.

ghost use Rattle.std.specs.Prelude.{◌≡◌, ◌+◌, ◌*◌, ◌<◌, ◌≤◌, ◌^◌, ◌||◌, ℕ, None, Some, length, set, IfOk};
ghost use Rattle.std.specs.Bool.{OnTrue, OnFalse};
ghost use Rattle.prl_plan.specs.declared.limits.TheConstants.{MAX_PREFIX};
ghost use Rattle.prl_plan.specs.Vocabulary.{edge_at, IsFirstReader, IsPlan};
ghost use Rattle.prl_ages.specs.Reaching.{jobs_of};
ghost use Rattle.prl_ages.specs.code.Lags.{AreLags, AreAllLags, CoversConstants, HasLag, IsKnownOn, lag_at, missing_in};

use crate::ages::clock_of;
use crate::needs::{consumer_of, either, giver_of};
use prl_base::{EdgeNo, TaskNo};
use prl_plan::Plan;
use std::alloc::{AllocError, Global};

/// How many jobs a task has in a hyperperiod.
pub fn jobs_of(plan: &Plan, i: TaskNo) -> u64
    requires { i.0 < length plan.now.graph.tasks }
    ensures jobs { result ≡ jobs_of plan.now.graph i.0 }
    ensures some { 1 ≤ result }
    ensures few { result ≤ 10000000 }
    ensures plan { IsPlan plan.now }
{
    let clock = clock_of(plan, i);
    plan.graph().hyper / clock.period
}

/// How many constants the consumer of an edge reads at first.
fn constants_on(plan: &Plan, e: EdgeNo) -> u64
    requires { e.0 < length plan.now.graph.edges }
    ensures first { IsFirstReader (edge_at plan.now.graph e.0).ops result }
    ensures few { result ≤ MAX_PREFIX }
{
    let _graph = plan.graph();
    plan.words().of.as_slice()[e.0 as usize].prefix.len() as u64
}

/// Within how many hyperperiods the consumer of an edge has read all the constants that come first on it.
pub(crate) fn turns_of_constants(plan: &Plan, e: EdgeNo) -> u64
    requires { e.0 < length plan.now.graph.edges }
    ensures covers { CoversConstants plan.now.graph e.0 result }
    ensures few { result ≤ MAX_PREFIX }
{
    let to = consumer_of(plan, e);
    let jobs = jobs_of(plan, to);
    let first = constants_on(plan, e);
    (first + (jobs - 1)) / jobs
}

/// Gives a task a lag where it has none, and tells whether it had none.
fn fill(lags: &mut [Option<u64>], task: TaskNo, lag: u64) -> bool
    requires { task.0 < length lags.old }
    ensures yes { OnTrue result ((lags.new ≡ set lags.old task.0 (Some lag)) × (lag_at lags.old task.0 ≡ None)) }
    ensures no { OnFalse result ((lags.new ≡ lags.old) × HasLag lags.old task.0) }
{
    match lags[task.0 as usize] {
        Some(_) => false,
        None => {
            lags[task.0 as usize] = Some(lag);
            true
        }
    }
}

/// Takes an edge into account, and tells whether a lag came.
fn pass_on(plan: &Plan, chain: &[TaskNo], e: EdgeNo, a: TaskNo, lags: &mut [Option<u64>]) -> bool
    requires edge { e.0 < length plan.now.graph.edges }
    requires are { AreLags plan.now.graph chain.now a.0 lags.old }
    ensures are { AreLags plan.now.graph chain.now a.0 lags.new }
    ensures falls { OnTrue result (missing_in lags.new < missing_in lags.old) }
    ensures same { OnFalse result (lags.new ≡ lags.old) }
    ensures known { OnFalse result (IsKnownOn plan.now.graph chain.now lags.old e.0) }
{
    let _ = a;
    let to = consumer_of(plan, e);
    let giver = giver_of(plan, chain, e);
    let turns = turns_of_constants(plan, e);
    match lags[to.0 as usize] {
        None => false,
        Some(lag) => match giver {
            Some(task) => fill(lags, task, lag + turns),
            None => false,
        },
    }
}

/// Takes each edge into account once, and tells whether a lag came.
fn spread(plan: &Plan, chain: &[TaskNo], a: TaskNo, lags: &mut [Option<u64>]) -> bool
    requires are { AreLags plan.now.graph chain.now a.0 lags.old }
    ensures are { AreLags plan.now.graph chain.now a.0 lags.new }
    ensures falls { OnTrue result (missing_in lags.new < missing_in lags.old) }
    ensures known { OnFalse result ((e : ℕ) → e < length plan.now.graph.edges → IsKnownOn plan.now.graph chain.now lags.new e) }
{
    let mut came = false;
    for e in 0..plan.graph().edges.len() {
        let passed = pass_on(plan, chain, EdgeNo(e as u32), a, lags);
        came = either(came, passed);
    }
    came
}

/// Takes the edges into account until no lag comes.
fn spread_all(plan: &Plan, chain: &[TaskNo], a: TaskNo, lags: &mut [Option<u64>])
    requires are { AreLags plan.now.graph chain.now a.0 lags.old }
    ensures are { AreLags plan.now.graph chain.now a.0 lags.new }
    ensures known { (e : ℕ) → e < length plan.now.graph.edges → IsKnownOn plan.now.graph chain.now lags.new e }
{
    'more: while spread(plan, chain, a, lags) {}
}

/// The lags to begin with: of task `a` none, and the others unknown.
fn first_lags(
    alloc: Global,
    plan: &Plan,
    chain: &[TaskNo],
    a: TaskNo,
) -> Result<Vec<Option<u64>>, AllocError>
    requires { a.0 < length plan.now.graph.tasks }
    ensures { IfOk result (λ lags. AreLags plan.now.graph chain.now a.0 lags.items) }
{
    let _ = chain;
    let mut lags = vec![in alloc; None; plan.graph().tasks.len()]?;
    lags[a.0 as usize] = Some(0);
    Ok(lags)
}

/// By task, after how many hyperperiods each job of task `a` depends on it, if one ever does.
pub(crate) fn lags(
    alloc: Global,
    plan: &Plan,
    chain: &[TaskNo],
    a: TaskNo,
) -> Result<Vec<Option<u64>>, AllocError>
    requires { a.0 < length plan.now.graph.tasks }
    ensures { IfOk result (λ lags. AreAllLags plan.now.graph chain.now a.0 lags.items) }
{
    let _graph = plan.graph();
    let mut lags = first_lags(alloc, plan, chain, a)?;
    spread_all(plan, chain, a, lags.as_mut_slice());
    Ok(lags)
}
