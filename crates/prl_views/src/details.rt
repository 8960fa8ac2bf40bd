//! What is drawn over the windows of jobs: bars, own dates, numbers, and texts that show where the mouse rests.

ghost use Rattle.std.specs.Prelude.{◌<◌, ◌^◌, length};

use prl_base::{EdgeNo, TaskNo};
use prl_drawing::{
    Scale, Shape, Unit, push, push_all, push_bar, push_own_dates, push_telling, push_time, row_of,
};
use prl_plan::{Operand, Plan, Producer, plan_is_one};
use prl_shapes::{edge_of, job_count, operand_of, task_of};
use std::alloc::AllocError;

/// Appends the name of a task.
fn push_name(text: &mut Vec<u8>, plan: &Plan, i: TaskNo) -> Result<(), AllocError> {
    if (i.0 as usize) < plan.graph().tasks.len() {
        text.extend_from_slice(task_of(plan, i).name.bytes())?;
    }
    Ok(())
}

/// Appends what a job reads on an edge.
fn push_read(
    text: &mut Vec<u8>,
    plan: &Plan,
    from: Producer,
    operand: Operand,
) -> Result<(), AllocError> {
    match (from, operand) {
        (Producer::Port { task, .. }, Operand::From(job)) => {
            push(text, "; reads ")?;
            push_name(text, plan, task)?;
            push_all(text, &[(" job ", job)], "")
        }
        (Producer::Port { .. }, Operand::Const(_)) => push(text, "; reads an initial value"),
        (Producer::Constant(_), _) => push(text, "; reads a constant"),
    }
}

/// Appends what a job reads on an edge, where the edge leads to its task, and who reads what it writes to the edge.
fn push_edge(
    text: &mut Vec<u8>,
    plan: &Plan,
    scale: Scale,
    e: EdgeNo,
    shape: &Shape,
) -> Result<(), AllocError>
    requires edge { e.0 < length plan.now.graph.edges }
    requires until { scale.until < 2 ^ 32 }
{
    let edge = edge_of(plan, e);
    if edge.to.0 == shape.task && shape.job < job_count(plan, edge.to, scale.until) {
        push_read(
            text,
            plan,
            edge.from,
            operand_of(plan, e, shape.job, scale.until),
        )?;
    }
    let Producer::Port { task, .. } = edge.from else {
        return Ok(());
    };
    if task.0 == shape.task && plan.uses(e, shape.job) {
        push(text, "; writes for ")?;
        push_name(text, plan, edge.to)?;
    }
    Ok(())
}

/// Appends what a job reads and writes.
fn push_edges(
    text: &mut Vec<u8>,
    plan: &Plan,
    scale: Scale,
    shape: &Shape,
) -> Result<(), AllocError>
    requires { scale.until < 2 ^ 32 }
{
    plan_is_one(plan);
    for e in 0..plan.graph().edges.len() {
        push_edge(text, plan, scale, EdgeNo(e as u32), shape)?;
    }
    Ok(())
}

/// Appends the dates of a job, in this unit.
fn push_dates(text: &mut Vec<u8>, plan: &Plan, unit: &Unit, shape: &Shape) -> Result<(), AllocError>
    requires { shape.now.task < length plan.now.graph.tasks }
{
    let task = task_of(plan, TaskNo(shape.task));
    text.extend_from_slice(task.name.bytes())?;
    push_all(text, &[(" job ", shape.job)], ": from ")?;
    push_time(text, unit, shape.release)?;
    push(text, " to ")?;
    push_time(text, unit, shape.deadline)?;
    push(text, ", wcet ")?;
    push_time(text, unit, u64::from(task.wcet))
}

/// Appends what is told of a job where the mouse rests on its window.
fn push_told(
    text: &mut Vec<u8>,
    plan: &Plan,
    scale: Scale,
    unit: &Unit,
    shape: &Shape,
) -> Result<(), AllocError>
    requires task { shape.now.task < length plan.now.graph.tasks }
    requires until { scale.until < 2 ^ 32 }
{
    let width = shape.right.saturating_sub(shape.left);
    push(text, "<rect class=\"h")?;
    push_telling(text, shape.left, row_of(shape.row) + 60, width, 200)?;
    push_dates(text, plan, unit, shape)?;
    push_edges(text, plan, scale, shape)?;
    push(text, "</title></rect>\n")
}

/// Appends what is drawn over the windows of jobs.
pub(crate) fn push_details(
    text: &mut Vec<u8>,
    plan: &Plan,
    scale: Scale,
    unit: &Unit,
    shapes: &[Shape],
) -> Result<(), AllocError>
    requires { scale.until < 2 ^ 32 }
{
    for shape in shapes {
        if (shape.task as usize) < plan.graph().tasks.len() {
            push_bar(text, shape)?;
            push_own_dates(text, shape)?;
            push_told(text, plan, scale, unit, shape)?;
        }
    }
    Ok(())
}
