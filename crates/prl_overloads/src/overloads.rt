//! The jobs of an overloaded interval that is told by its ends and its demand.

ghost use Rattle.std.specs.Prelude.{◌≡◌, ◌<◌, length, IfOk, IfSome};
ghost use Rattle.prl_plan.specs.Vocabulary.{IsHorizon, constants_of};
ghost use Rattle.prl_overlaps.specs.Demand.{demand, is_within, wcets_of};
ghost use Rattle.prl_overloads.specs.Overloads.{AreWithin, IsOverload, asked_by, jobs_within};

use crate::shares::cost_of_all;
use prl_base::TaskNo;
use prl_overlaps::wcet_of;
use prl_plan::{Horizon, Plan, look_ups_fit, plan_facts};
use std::alloc::{AllocError, Global};

/// An interval of ticks, the end not in it, and what is asked of it.
#[derive(Clone, Copy)]
pub struct Overload {
    pub from: u64,
    pub to: u64,
    pub demand: u64,
}

/// Whether a job is released and due within an interval.
fn is_within(plan: &Plan, horizon: Horizon, i: TaskNo, n: u64, from: u64, to: u64) -> bool
    requires horizon { IsHorizon plan.now horizon }
    requires task { i.0 < length plan.now.graph.tasks }
    requires job { n < (constants_of plan.now horizon).jobs i.0 }
    ensures { result ≡ is_within (constants_of plan.now horizon) from to i.0 n }
{
    plan_facts(plan, horizon);
    look_ups_fit();
    let release = plan.release(i, n);
    let deadline = plan.deadline(i, n);
    from <= release && deadline <= to
}

/// How many jobs of a task are released and due within an interval.
fn jobs_within(plan: &Plan, horizon: Horizon, i: TaskNo, from: u64, to: u64) -> u64
    requires horizon { IsHorizon plan.now horizon }
    requires task { i.0 < length plan.now.graph.tasks }
    ensures { result ≡ jobs_within (constants_of plan.now horizon) from to i.0 }
{
    let mut count = 0;
    for n in 0..horizon.jobs_of(plan, i) {
        if is_within(plan, horizon, i, n, from, to) {
            count += 1;
        }
    }
    count
}

/// By task, how many of its jobs are released and due within an interval.
fn all_within(
    alloc: Global,
    plan: &Plan,
    horizon: Horizon,
    from: u64,
    to: u64,
) -> Result<Vec<u64>, AllocError>
    requires { IsHorizon plan.now horizon }
    ensures { IfOk result (λ counts. AreWithin (constants_of plan.now horizon) from to counts.items) }
{
    let mut counts = Vec::new(alloc);
    for i in 0..plan.graph().tasks.len() {
        counts.push(jobs_within(plan, horizon, TaskNo(i as u32), from, to))?;
    }
    Ok(counts)
}

/// What the jobs of a task ask of an interval, in ticks; None past 64 bits.
fn asked_by(plan: &Plan, horizon: Horizon, i: TaskNo, from: u64, to: u64) -> Option<u64>
    requires horizon { IsHorizon plan.now horizon }
    requires task { i.0 < length plan.now.graph.tasks }
    ensures { IfSome result (λ asked. asked ≡ asked_by plan.now horizon from to i.0) }
{
    let jobs = jobs_within(plan, horizon, i, from, to);
    let asked = jobs.checked_mul(u64::from(wcet_of(plan, i)))?;
    Some(asked)
}

/// What is asked of an interval by the jobs of a horizon, in ticks; None past 64 bits.
fn asked_of(plan: &Plan, horizon: Horizon, from: u64, to: u64) -> Option<u64>
    requires { IsHorizon plan.now horizon }
    ensures { IfSome result (λ asked. asked ≡ demand (constants_of plan.now horizon) (wcets_of plan.now) from to) }
{
    let mut sum: u64 = 0;
    for i in 0..plan.graph().tasks.len() {
        sum = sum.checked_add(asked_by(plan, horizon, TaskNo(i as u32), from, to)?)?;
    }
    Some(sum)
}

/// The horizon up to a tick, and what its jobs ask of an interval; None where a limit is passed.
fn asked_up_to(plan: &Plan, until: u64, from: u64, to: u64) -> Option<(Horizon, u64)>
    ensures horizon { IfSome result (λ found. IsHorizon plan.now found.0) }
    ensures asked { IfSome result (λ found. found.1 ≡ demand (constants_of plan.now found.0) (wcets_of plan.now) from to) }
{
    if until > u64::from(u32::MAX) {
        return None;
    }
    match Horizon::new(plan, until as u32) {
        Err(_) => None,
        Ok(horizon) => Some((horizon, asked_of(plan, horizon, from, to)?)),
    }
}

/// A horizon whose jobs ask this much of the interval: jobs that are released later ask for no less, so it is sought by halves.
fn horizon_of(plan: &Plan, told: Overload) -> Option<Horizon>
    ensures horizon { IfSome result (IsHorizon plan.now) }
    ensures asked { IfSome result (λ horizon. demand (constants_of plan.now horizon) (wcets_of plan.now) told.from told.to ≡ told.demand) }
{
    let mut low = told.from;
    let mut high = told.to;
    for _ in 0..64 {
        let until = low.saturating_add(high) / 2;
        match asked_up_to(plan, until, told.from, told.to) {
            Some((horizon, asked)) if asked == told.demand => return Some(horizon),
            Some((_, asked)) if asked < told.demand => low = until.saturating_add(1),
            _ => high = until.saturating_sub(1),
        }
    }
    None
}

/// By task, how many of its jobs the overload is about; None where no horizon of the plan asks so much of that interval, or where
/// the interval has so much.
#[tactic(auto, using(crate::proofs::Costs::overload_is))]
pub fn overload_of(
    alloc: Global,
    plan: &Plan,
    told: Overload,
) -> Result<Option<Vec<u64>>, AllocError>
    ensures { IfOk result (λ found. IfSome found (λ counts. IsOverload plan.now told.from told.to told.demand counts.items)) }
{
    let Some(horizon) = horizon_of(plan, told) else {
        return Ok(None);
    };
    if told.demand <= told.to.saturating_sub(told.from) {
        return Ok(None);
    }
    let counts = all_within(alloc, plan, horizon, told.from, told.to)?;
    Ok(Some(counts))
}
