//! The flows of the actuators, as a closed board shows them.

ghost use Rattle.std.specs.Prelude.{◌≡◌, ◌<◌, ℕ, Some, length, slice_get, IfOk, OnOk};
ghost use Rattle.prl_base.specs.Names.{IsName};
ghost use Rattle.prl_board.specs.Closings.{AreOutputs, Drives};
ghost use Rattle.prl_plan.specs.Jobs.{task_at};
ghost use Rattle.prl_replay.specs.Shown.{AddsShown, AreShown};
ghost use Rattle.prl_rule.specs.declared.views.Constants.{Constants};
ghost use Rattle.prl_seats.specs.JobSeats.{JobSeatView};

use crate::flows::out_flow;
use prl_board::Closed;
use prl_flow::OutFlow;
use prl_plan::{Kind, Plan, Task, plan_is_one};
use std::alloc::{AllocError, Global};

/// The flow of the actuator of this number, whose task is told.
fn flow_of(
    alloc: Global,
    closed: &Closed,
    task: &Task,
    actuator: u32,
) -> Result<OutFlow, AllocError>
    requires name { IsName task.now.name }
    requires drives { (k : Constants) × (i : ℕ) × (closed.now.constants ≡ Some k) × Drives k i actuator }
    ensures name { IfOk result (λ out. out.name ≡ task.now.name) }
    ensures clock { IfOk result (λ out. out.clock ≡ task.now.clock) }
    ensures values { IfOk result (λ out. (k : Constants) (i : ℕ) (s : JobSeatView) → closed.now.constants ≡ Some k → Drives k i actuator →
        slice_get closed.now.seats i ≡ Some s → AreOutputs k i s.job out.values) }
{
    out_flow(alloc, task, closed.output(actuator))
}

/// Adds the flow of task `i`, where it is an actuator's.
fn push_flow(
    alloc: Global,
    plan: &Plan,
    closed: &Closed,
    i: usize,
    flows: &mut Vec<OutFlow>,
) -> Result<(), AllocError>
    requires known { (k : Constants) × (closed.now.constants ≡ Some k) × (k.plan ≡ plan.now) }
    requires task { i < length plan.now.graph.tasks }
    ensures { OnOk result (AddsShown closed.now plan.now.graph i (task_at plan.now.graph i).kind flows.old.items flows.new.items) }
{
    plan_is_one(plan);
    let task = &plan.graph().tasks.as_slice()[i];
    match task.kind {
        Kind::Actuator(actuator) => {
            let flow = flow_of(alloc, closed, task, actuator)?;
            flows.push(flow)?;
            Ok(())
        }
        Kind::Sensor(_) => Ok(()),
        Kind::Node(_) => Ok(()),
    }
}

/// The flows of all actuators, in the order of main's outputs. The board is one of the plan.
pub fn shown_flows(alloc: Global, plan: &Plan, closed: &Closed) -> Result<Vec<OutFlow>, AllocError>
    requires { (k : Constants) × (closed.now.constants ≡ Some k) × (k.plan ≡ plan.now) }
    ensures { IfOk result (λ flows. AreShown closed.now plan.now.graph flows.items) }
{
    let mut flows = Vec::new(alloc);
    for i in 0..plan.graph().tasks.len() {
        push_flow(alloc, plan, closed, i, &mut flows)?;
    }
    Ok(flows)
}
