//! The flows of the actuators, as the machine has them at the end of a run.

ghost use Rattle.std.specs.Prelude.{◌≡◌, ◌<◌, ℕ, length, IfOk, OnOk};
ghost use Rattle.prl_base.specs.Names.{IsName};
ghost use Rattle.prl_plan.specs.Jobs.{task_at};
ghost use Rattle.prl_track.specs.Machine.{Drives};
ghost use Rattle.prl_core.specs.Cores.{AreOutputs};
ghost use Rattle.prl_replay.specs.Replays.{AddsFlow, AreFlowsBelow};

use prl_base::{Name, Seq, Value};
use prl_core::Core;
use prl_flow::OutFlow;
use prl_plan::{Kind, Plan, Task, plan_is_one};
use std::alloc::{AllocError, Global};

/// The flow of an actuator, by its task and its values.
pub fn out_flow(alloc: Global, task: &Task, values: &[Value]) -> Result<OutFlow, AllocError>
    requires { IsName task.now.name }
    ensures name { IfOk result (λ out. out.name ≡ task.now.name) }
    ensures clock { IfOk result (λ out. out.clock ≡ task.now.clock) }
    ensures values { IfOk result (λ out. out.values ≡ values.now) }
{
    let name = Name::of_word(alloc, task.name.bytes())?;
    let values = Vec::from_slice(alloc, values)?;
    Ok(OutFlow {
        name,
        clock: task.clock,
        values: Seq::new(values),
    })
}

/// The flow of the actuator of this number, whose task is told.
fn flow_of(
    alloc: Global,
    core: &Core<'_>,
    task: &Task,
    actuator: u32,
) -> Result<OutFlow, AllocError>
    requires name { IsName task.now.name }
    requires drives { (i : ℕ) × Drives core.now.plan i actuator }
    ensures name { IfOk result (λ out. out.name ≡ task.now.name) }
    ensures clock { IfOk result (λ out. out.clock ≡ task.now.clock) }
    ensures values { IfOk result (λ out. (i : ℕ) × Drives core.now.plan i actuator × AreOutputs core.now i out.values) }
{
    out_flow(alloc, task, core.output(actuator))
}

/// Adds the flow of task `i`, where it is an actuator's.
fn push_flow(
    alloc: Global,
    plan: &Plan,
    core: &Core<'_>,
    i: usize,
    flows: &mut Vec<OutFlow>,
) -> Result<(), AllocError>
    requires plan { core.now.plan ≡ plan.now }
    requires task { i < length plan.now.graph.tasks }
    ensures { OnOk result (AddsFlow core.now i (task_at core.now.plan.graph i).kind flows.old.items flows.new.items) }
{
    plan_is_one(plan);
    let task = &plan.graph().tasks.as_slice()[i];
    match task.kind {
        Kind::Actuator(actuator) => {
            let flow = flow_of(alloc, core, task, actuator)?;
            flows.push(flow)?;
            Ok(())
        }
        Kind::Sensor(_) => Ok(()),
        Kind::Node(_) => Ok(()),
    }
}

/// The flows of all actuators, in the order of main's outputs.
pub(crate) fn flows_of(
    alloc: Global,
    plan: &Plan,
    core: &Core<'_>,
) -> Result<Vec<OutFlow>, AllocError>
    requires plan { core.now.plan ≡ plan.now }
    ensures { IfOk result (λ flows. AreFlowsBelow core.now (length core.now.plan.graph.tasks) flows.items) }
{
    let mut flows = Vec::new(alloc);
    for i in 0..plan.graph().tasks.len() {
        push_flow(alloc, plan, core, i, &mut flows)?;
    }
    Ok(flows)
}
