//! Units for the jobs of a plan.

ghost use Rattle.std.specs.Prelude.{◌≡◌, ◌≤◌, ◌<◌, length, map, vec_items, min, IfOk};
ghost use Rattle.prl_plan.specs.Vocabulary.{IsHorizon, constants_of, task_at};
ghost use Rattle.prl_overlaps.specs.Demand.{wcets_of};
ghost use Rattle.prl_edf.specs.UnitLists.{AreUnitLists};

use prl_base::TaskNo;
use prl_plan::{Horizon, Plan, plan_facts, plan_is_one};
use std::alloc::{AllocError, Global};

/// The WCET of a task, or `most` where that is less.
fn least(plan: &Plan, i: TaskNo, most: u32) -> u32
    requires { i.0 < length plan.now.graph.tasks }
    ensures { result ≡ min (task_at plan.now.graph i.0).wcet most }
{
    plan.graph().tasks.as_slice()[i.0 as usize].wcet.min(most)
}

/// For each job its WCET, or `most` where that is less.
pub fn units_up_to(
    alloc: Global,
    plan: &Plan,
    horizon: Horizon,
    most: u32,
) -> Result<Vec<Vec<u32>>, AllocError>
    requires horizon { IsHorizon plan.now horizon }
    requires some { 1 ≤ most }
    ensures { IfOk result (λ lists. AreUnitLists (constants_of plan.now horizon) (wcets_of plan.now) (map vec_items lists.items)) }
{
    plan_facts(plan, horizon);
    plan_is_one(plan);
    let mut lists = Vec::new(alloc);
    for i in 0..plan.graph().tasks.len() {
        let units = least(plan, TaskNo(i as u32), most);
        let jobs = horizon.jobs_of(plan, TaskNo(i as u32)) as usize;
        lists.push(vec![in alloc; units; jobs]?)?;
    }
    Ok(lists)
}
