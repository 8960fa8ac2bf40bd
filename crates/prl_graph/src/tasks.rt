//! The tasks: main's inputs, the applications, main's outputs.

ghost use Rattle.std.specs.Prelude.{◌≡◌, ◌+◌, ◌<◌, ◌≤◌, ◌^◌, ◌++◌, ◌∷◌, ℕ, IfOk, decimal, length};
ghost use Rattle.prl_base.specs.Names.{IsName};
ghost use Rattle.prl_flow.specs.Solutions.{AreClocks, clock_of};
ghost use Rattle.prl_plan.specs.declared.limits.TheConstants.{MAX_TASKS};
ghost use Rattle.prl_graph.specs.Ports.{actuator_no, node_no, task_count};
ghost use Rattle.prl_graph.specs.Tasks.{device_due};
ghost use Rattle.prl_graph.specs.code.Made.{AreFirstTasks, MakesActuator, MakesNode, MakesSensor};
ghost use Rattle.prl_graph.specs.code.Marks.{AreLeastDues};

use crate::leasts::application_clock;
use prl_base::{Clock, FlowNo, Label, Name, push_number};
use prl_flow::{Clocks, Flat};
use prl_plan::{Kind, Task};
use std::alloc::{AllocError, Global};

/// The clock of the flow of this number.
pub(crate) fn clock_at(clocks: &Clocks, i: usize) -> Clock
    requires { i < length clocks.now.of }
    ensures { result ≡ clock_of clocks.now.of i }
{
    clocks.of.as_slice()[i]
}

/// The clock of a flow.
pub(crate) fn clock_of(clocks: &Clocks, flow: FlowNo) -> Clock
    requires { flow.0 < length clocks.now.of }
    ensures { result ≡ clock_of clocks.now.of flow.0 }
{
    clock_at(clocks, flow.0 as usize)
}

/// The due that the flow notes, and otherwise its period.
fn device_due(flat: &Flat, clocks: &Clocks, flow: FlowNo) -> u64
    requires flow { flow.0 < length flat.now.flows }
    requires clock { flow.0 < length clocks.now.of }
    ensures { result ≡ device_due flat.now clocks.now.of flow.0 }
{
    match flat.flows()[flow.0 as usize].due {
        Some(due) => u64::from(due),
        None => clock_of(clocks, flow).period,
    }
}

/// The name of application `k`'s task: the node's name, `@` and the number.
fn node_name(alloc: Global, node: &Name, k: u32) -> Result<Label, AllocError>
    ensures { IfOk result (λ label. label ≡ node.now ++ 64 ∷ decimal k) }
{
    let mut bytes = Vec::from_slice(alloc, node.bytes())?;
    bytes.push(b'@')?;
    push_number(&mut bytes, u64::from(k))?;
    Label::new(alloc, bytes.as_slice())
}

/// The task of the sensor of main's input `k`.
fn sensor_task(alloc: Global, flat: &Flat, clocks: &Clocks, k: u32) -> Result<Task, AllocError>
    requires clocks { AreClocks flat.now clocks.now.of }
    requires within { k < length flat.now.ins }
    ensures { IfOk result (MakesSensor flat.now clocks.now.of k) }
{
    let _flows = flat.flows();
    let flow = flat.ins()[k as usize];
    Ok(Task {
        name: Label::new(alloc, flat.in_name(k).bytes())?,
        kind: Kind::Sensor(k),
        clock: clock_of(clocks, flow),
        wcet: flat.in_wcet(k),
        due: device_due(flat, clocks, flow),
    })
}

/// The task of application `k`, with this due.
fn node_task(
    alloc: Global,
    flat: &Flat,
    clocks: &Clocks,
    k: u32,
    due: u64,
) -> Result<Task, AllocError>
    requires clocks { AreClocks flat.now clocks.now.of }
    requires within { k < length flat.now.apps }
    ensures { IfOk result (MakesNode flat.now clocks.now.of k due) }
{
    let apps = flat.apps();
    let app = &apps[k as usize];
    Ok(Task {
        name: node_name(alloc, &app.name, k)?,
        kind: Kind::Node(k),
        clock: application_clock(clocks, app),
        wcet: app.wcet,
        due,
    })
}

/// The task of the actuator of main's output `k`.
fn actuator_task(alloc: Global, flat: &Flat, clocks: &Clocks, k: u32) -> Result<Task, AllocError>
    requires clocks { AreClocks flat.now clocks.now.of }
    requires within { k < length flat.now.outs }
    ensures { IfOk result (MakesActuator flat.now clocks.now.of k) }
{
    let flow = flat.outs()[k as usize];
    Ok(Task {
        name: Label::new(alloc, flat.out_name(k).bytes())?,
        kind: Kind::Actuator(k),
        clock: clock_of(clocks, flow),
        wcet: flat.out_wcet(k),
        due: device_due(flat, clocks, flow),
    })
}

/// Adds the tasks of the sensors.
fn push_sensors(
    alloc: Global,
    flat: &Flat,
    clocks: &Clocks,
    tasks: &mut Vec<Task>,
) -> Result<(), AllocError>
    requires clocks { AreClocks flat.now clocks.now.of }
    requires few { task_count flat.now ≤ MAX_TASKS }
    requires before { AreFirstTasks flat.now clocks.now.of 0 tasks.old.items }
    ensures { IfOk result (λ done. AreFirstTasks flat.now clocks.now.of (node_no flat.now 0) tasks.new.items) }
{
    let ins = flat.ins();
    for k in 0..ins.len() {
        let task = sensor_task(alloc, flat, clocks, k as u32)?;
        tasks.push(task)?;
    }
    Ok(())
}

/// Adds the tasks of the applications.
fn push_nodes(
    alloc: Global,
    flat: &Flat,
    clocks: &Clocks,
    dues: &[u64],
    tasks: &mut Vec<Task>,
) -> Result<(), AllocError>
    requires clocks { AreClocks flat.now clocks.now.of }
    requires dues { AreLeastDues flat.now clocks.now.of (length flat.now.flows) dues.now }
    requires few { task_count flat.now ≤ MAX_TASKS }
    requires before { AreFirstTasks flat.now clocks.now.of (node_no flat.now 0) tasks.old.items }
    ensures { IfOk result (λ done. AreFirstTasks flat.now clocks.now.of (actuator_no flat.now 0) tasks.new.items) }
{
    let apps = flat.apps();
    for k in 0..apps.len() {
        let task = node_task(alloc, flat, clocks, k as u32, dues[k])?;
        tasks.push(task)?;
    }
    Ok(())
}

/// Adds the tasks of the actuators.
fn push_actuators(
    alloc: Global,
    flat: &Flat,
    clocks: &Clocks,
    tasks: &mut Vec<Task>,
) -> Result<(), AllocError>
    requires clocks { AreClocks flat.now clocks.now.of }
    requires few { task_count flat.now ≤ MAX_TASKS }
    requires before { AreFirstTasks flat.now clocks.now.of (actuator_no flat.now 0) tasks.old.items }
    ensures { IfOk result (λ done. AreFirstTasks flat.now clocks.now.of (task_count flat.now) tasks.new.items) }
{
    let outs = flat.outs();
    for k in 0..outs.len() {
        let task = actuator_task(alloc, flat, clocks, k as u32)?;
        tasks.push(task)?;
    }
    Ok(())
}

/// All tasks, where `dues` has the due of each application.
pub(crate) fn all_tasks(
    alloc: Global,
    flat: &Flat,
    clocks: &Clocks,
    dues: &[u64],
) -> Result<Vec<Task>, AllocError>
    requires clocks { AreClocks flat.now clocks.now.of }
    requires dues { AreLeastDues flat.now clocks.now.of (length flat.now.flows) dues.now }
    requires few { task_count flat.now ≤ MAX_TASKS }
    ensures { IfOk result (λ tasks. AreFirstTasks flat.now clocks.now.of (task_count flat.now) tasks.items) }
{
    let mut tasks = Vec::new(alloc);
    push_sensors(alloc, flat, clocks, &mut tasks)?;
    push_nodes(alloc, flat, clocks, dues, &mut tasks)?;
    push_actuators(alloc, flat, clocks, &mut tasks)?;
    Ok(tasks)
}
