//! How a plan is spread over processors.

ghost use Rattle.std.specs.Prelude.{◌≡◌, length, map, IfOk};
ghost use Rattle.prl_plan.specs.Horizons.{Placement};
ghost use Rattle.prl_plan.specs.declared.graphs.Task.{Task};
ghost use Rattle.prl_cores.specs.Spreads.{SpreadView, IsSpreadOf, LeavesRoom};

use crate::laws::spread_leaves_room;
use crate::spreads::Spread;
use prl_base::Clock;
use prl_dates::spread_dates;
use prl_plan::{Plan, plan_is_one};
use std::alloc::{AllocError, Global};

/// The clocks of the plan's tasks.
fn clocks_of(alloc: Global, plan: &Plan) -> Result<Vec<Clock>, AllocError>
    ensures { IfOk result (λ clocks. clocks.items ≡ map (λ (task : Task). task.clock) plan.now.graph.tasks) }
{
    let tasks = plan.graph().tasks.as_slice();
    let mut clocks = Vec::with_capacity(alloc, tasks.len())?;
    for task in tasks {
        clocks.push(task.clock)?;
    }
    Ok(clocks)
}

/// The plan with each task on its processor, one number a task: jobs are released no earlier than in the plan; after each job on
/// their processor that they read, and its WCET; and not before the deadline of each job on another processor that they read.
/// These are the least such releases. Deadlines and cells stay those of the plan.
pub fn spread(alloc: Global, plan: &Plan, of: &[u32]) -> Result<Spread, AllocError>
    requires { length of.now ≡ length plan.now.graph.tasks }
    ensures is { IfOk result (IsSpreadOf plan.now) }
    ensures processors { IfOk result (λ spread. spread.placement.processors ≡ of.now) }
    ensures room { IfOk result (λ spread. LeavesRoom plan.now spread.placement) }
{
    plan_is_one(plan);
    spread_leaves_room();
    let dates = spread_dates(alloc, plan, of)?;
    let clocks = clocks_of(alloc, plan)?;
    let processors = of.to_vec(alloc)?;
    Ok(Spread::of(processors, dates, clocks))
}
