//! The part that each task has in an overload and in the load.

ghost use Rattle.std.specs.Prelude.{◌≡◌, ◌<◌, ◌≤◌, ◌^◌, ℕ, length};
ghost use Rattle.prl_plan.specs.Vocabulary.{constants_of, deadline_at, release_at, IsHorizon};
ghost use Rattle.prl_overlaps.specs.Demand.{cost_within};
ghost use Rattle.prl_forever.specs.Answers.{IsAnswer};
ghost use Rattle.prl_forever.specs.declared.deciding.ForEver.TheVariants as answers;
ghost use Rattle.prl_steady.specs.Shares.{horizon_to, sum_within, told_until, IsShareOfHyper, IsShareWithin};

use crate::lasting::greatest_start;
use prl_base::TaskNo;
use prl_overlaps::wcet_of;
use prl_plan::{Horizon, Plan, horizons_end_one_way, look_ups_fit, plan_facts, plan_is_one};
use prl_tables::classes;

/// Some jobs of a task.
#[derive(Clone, Copy, PartialEq, Eq)]
pub struct Share {
    /// How many there are.
    pub jobs: u64,
    /// How many ticks they cost together, each its WCET.
    pub units: u64,
}

/// The horizon by which an overload for ever is told, where there is one.
pub fn horizon_told(plan: &Plan) -> Horizon
    requires { (from : ℕ) × (to : ℕ) × (demand : ℕ) × IsAnswer plan.now (answers.Overload from to demand) }
    ensures { IsHorizon plan.now result × (result.until ≡ told_until plan.now) }
{
    plan_is_one(plan);
    horizons_end_one_way();
    let start = greatest_start(plan.graph().tasks.as_slice());
    match Horizon::new(plan, (start + 2 * plan.graph().hyper) as u32) {
        Ok(horizon) => horizon,
        Err(_) => unreachable!(),
    }
}

/// How many jobs of a task there are in a hyperperiod, and what they cost.
pub fn share_of_hyper(plan: &Plan, i: TaskNo) -> Share
    requires { i.0 < length plan.now.graph.tasks }
    ensures { IsShareOfHyper plan.now i.0 result }
{
    plan_is_one(plan);
    let jobs = classes(plan, i);
    Share {
        jobs,
        units: jobs * u64::from(wcet_of(plan, i)),
    }
}

/// 1 where job `n` of a task has to run within these ticks, else 0.
fn one_within(plan: &Plan, i: TaskNo, n: u64, from: u64, to: u64) -> u64
    requires task { i.0 < length plan.now.graph.tasks }
    requires release { release_at plan.now i.0 n < 2 ^ 63 }
    requires deadline { deadline_at plan.now i.0 n < 2 ^ 63 }
    ensures count { result ≡ cost_within (constants_of plan.now (horizon_to (told_until plan.now))) (λ i n. 1) from to i.0 n }
    ensures one { result ≤ 1 }
{
    if from <= plan.release(i, n) && plan.deadline(i, n) <= to {
        1
    } else {
        0
    }
}

/// How many jobs of a task have to run within these ticks.
fn jobs_within(plan: &Plan, horizon: Horizon, i: TaskNo, from: u64, to: u64) -> u64
    requires horizon { IsHorizon plan.now horizon }
    requires until { horizon.until ≡ told_until plan.now }
    requires task { i.0 < length plan.now.graph.tasks }
    ensures count { result ≡ sum_within plan.now (λ i n. 1) (told_until plan.now) from to i.0 }
    ensures few { result < 2 ^ 32 }
{
    plan_facts(plan, horizon);
    look_ups_fit();
    let mut jobs = 0;
    for n in 0..horizon.jobs_of(plan, i) {
        jobs += one_within(plan, i, n, from, to);
    }
    jobs
}

/// How many jobs of a task have to run within these ticks, from `from` up to `to`, and what they cost.
pub fn share_within(plan: &Plan, horizon: Horizon, i: TaskNo, from: u64, to: u64) -> Share
    requires horizon { IsHorizon plan.now horizon }
    requires until { horizon.until ≡ told_until plan.now }
    requires task { i.0 < length plan.now.graph.tasks }
    ensures { IsShareWithin plan.now from to i.0 result }
{
    plan_is_one(plan);
    let jobs = jobs_within(plan, horizon, i, from, to);
    Share {
        jobs,
        units: jobs * u64::from(wcet_of(plan, i)),
    }
}
