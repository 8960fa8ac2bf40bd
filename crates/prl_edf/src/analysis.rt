//! Whether one processor serves: the run, or the overloaded interval that shows why not.

ghost use Rattle.std.specs.Prelude.{ℕ, Option, map, vec_items, IfOk};
ghost use Rattle.prl_plan.specs.Vocabulary.{IsHorizon, constants_of};
ghost use Rattle.prl_overlaps.specs.Demand.{wcets_of};
ghost use Rattle.prl_edf.specs.Vocabulary.{AreFullLists, ComesTo, IsFirstMiss, IsPlainRun, IsVerdict};

use crate::laws::feasibility;
use crate::runs::{Outcome, Timed, run_units};
use prl_base::TaskNo;
use prl_overlaps::{last_overload, wcet_of};
use prl_plan::{Horizon, Plan, look_ups_fit, plan_facts, plan_is_one};
use std::alloc::{AllocError, Global};

/// What the analysis tells.
#[derive(Drop)]
pub enum Verdict {
    /// The plain run by earliest deadline first meets all windows.
    Run(Timed),
    /// The jobs that are released and due within these ticks, from `from` up to `to`, ask more of
    /// the processor than it has there.
    Overload { from: u64, to: u64, demand: u64 },
}

/// For each job its WCET.
fn full_units(alloc: Global, plan: &Plan, horizon: Horizon) -> Result<Vec<Vec<u32>>, AllocError>
    requires { IsHorizon plan.now horizon }
    ensures { IfOk result (λ lists. AreFullLists (constants_of plan.now horizon) (wcets_of plan.now) (map vec_items lists.items)) }
{
    plan_facts(plan, horizon);
    plan_is_one(plan);
    let mut lists = Vec::new(alloc);
    for i in 0..plan.graph().tasks.len() {
        let wcet = wcet_of(plan, TaskNo(i as u32));
        let jobs = horizon.jobs_of(plan, TaskNo(i as u32)) as usize;
        lists.push(vec![in alloc; wcet; jobs]?)?;
    }
    Ok(lists)
}

/// What the plain run comes to in which each job has its WCET.
fn full_run(alloc: Global, plan: &Plan, horizon: Horizon) -> Result<Outcome, AllocError>
    requires { IsHorizon plan.now horizon }
    ensures { IfOk result (ComesTo (constants_of plan.now horizon) (wcets_of plan.now)) }
{
    let units = full_units(alloc, plan, horizon)?;
    run_units(alloc, plan, horizon, &units)
}

/// The overloaded interval that is told where the plain run misses the window of this job first:
/// it ends where the job is due.
fn first_overload(
    alloc: Global,
    plan: &Plan,
    horizon: Horizon,
    task: TaskNo,
    job: u64,
) -> Result<Verdict, AllocError>
    requires horizon { IsHorizon plan.now horizon }
    requires missed { (run : ℕ → Option (ℕ × ℕ)) → IsPlainRun (constants_of plan.now horizon) (wcets_of plan.now) run →
        IsFirstMiss (constants_of plan.now horizon) (wcets_of plan.now) run task.0 job }
    ensures { IfOk result (IsVerdict (constants_of plan.now horizon) (wcets_of plan.now)) }
{
    plan_facts(plan, horizon);
    plan_is_one(plan);
    look_ups_fit();
    let to = plan.deadline(task, job);
    let (from, demand) = last_overload(alloc, plan, horizon, to)?;
    Ok(Verdict::Overload { from, to, demand })
}

/// Whether one processor serves all jobs of the horizon, each with its WCET. It tells an overloaded
/// interval exactly where there is one: the one with the least end, and of these the one with the
/// greatest beginning at which a job is released. Else it gives the plain run.
pub fn analyse(alloc: Global, plan: &Plan, horizon: Horizon) -> Result<Verdict, AllocError>
    requires { IsHorizon plan.now horizon }
    ensures { IfOk result (IsVerdict (constants_of plan.now horizon) (wcets_of plan.now)) }
{
    feasibility();
    match full_run(alloc, plan, horizon)? {
        Outcome::Met(timed) => Ok(Verdict::Run(timed)),
        Outcome::Missed { task, job } => first_overload(alloc, plan, horizon, task, job),
    }
}
