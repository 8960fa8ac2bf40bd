//! The tasks that have a row: all, or one with those that an edge connects with it.

ghost use Rattle.std.specs.Prelude.{◌≡◌, ◌+◌, ◌<◌, ◌≤◌, ◌++◌, ◌∷◌, [], All, IfOk, IfSome, OnOk, length};
ghost use Rattle.prl_plan.specs.Jobs.{task_at};
ghost use Rattle.prl_picture.specs.Chosen.{all_rows, connect_any, connects, is_near, is_task, near_one, near_rows};
ghost use Rattle.prl_shapes.specs.Views.{AreTasks};

use prl_base::TaskNo;
use prl_plan::{Edge, Plan, Producer, plan_is_one};
use std::alloc::{AllocError, Global};

/// The first task of this name.
pub(crate) fn task_named(plan: &Plan, name: &[u8]) -> Option<TaskNo>
    ensures { IfSome result (λ task. (task.0 < length plan.now.graph.tasks) × ((task_at plan.now.graph task.0).name ≡ name.now)) }
{
    plan_is_one(plan);
    let tasks = plan.graph().tasks.as_slice();
    for i in 0..tasks.len() {
        if tasks[i].name.bytes() == name {
            return Some(TaskNo(i as u32));
        }
    }
    None
}

/// Whether a producer is a task.
fn is_task(from: Producer, i: TaskNo) -> bool
    ensures { result ≡ is_task from i.0 }
{
    match from {
        Producer::Port { task, .. } => task.0 == i.0,
        Producer::Constant(_) => false,
    }
}

/// Whether one of two tasks reads from the other on an edge.
fn connects(i: TaskNo, j: TaskNo, edge: &Edge) -> bool
    ensures { result ≡ connects i.0 j.0 edge.now }
{
    (is_task(edge.from, i) && edge.to.0 == j.0) || (is_task(edge.from, j) && edge.to.0 == i.0)
}

/// Whether one of these edges connects two tasks.
fn connect_any(i: TaskNo, j: TaskNo, edges: &[Edge]) -> bool
    ensures { result ≡ connect_any i.0 j.0 edges.now }
{
    match edges {
        [] => false,
        [edge, rest @ ..] => connects(i, j, edge) || connect_any(i, j, rest),
    }
}

/// Whether it is the task, or one that an edge connects with it.
fn is_near(plan: &Plan, i: TaskNo, j: TaskNo) -> bool
    ensures { result ≡ is_near plan.now.graph i.0 j.0 }
{
    i.0 == j.0 || connect_any(i, j, plan.graph().edges.as_slice())
}

/// Adds a task, where it is this one or near it.
fn push_near(rows: &mut Vec<u32>, plan: &Plan, i: TaskNo, j: u32) -> Result<(), AllocError>
    requires { j < length plan.now.graph.tasks }
    ensures exact { OnOk result (rows.new.items ≡ rows.old.items ++ near_one plan.now.graph i.0 j) }
    ensures few { OnOk result (length rows.new.items ≤ length rows.old.items + 1) }
    ensures inside { OnOk result (All (λ k. k < length plan.now.graph.tasks) rows.old.items → All (λ k. k < length plan.now.graph.tasks) rows.new.items) }
{
    if is_near(plan, i, TaskNo(j)) {
        rows.push(j)?;
    }
    Ok(())
}

/// The task of this number and those that edges connect with it, in order.
pub(crate) fn near_rows(alloc: Global, plan: &Plan, i: TaskNo) -> Result<Vec<u32>, AllocError>
    ensures exact { IfOk result (λ rows. rows.items ≡ near_rows plan.now.graph i.0) }
    ensures tasks { IfOk result (λ rows. AreTasks plan.now rows.items) }
{
    plan_is_one(plan);
    let mut rows = Vec::new(alloc);
    let count = plan.graph().tasks.len() as u32;
    for j in 0..count {
        push_near(&mut rows, plan, i, j)?;
    }
    Ok(rows)
}

/// Adds a task.
fn push_row(rows: &mut Vec<u32>, plan: &Plan, j: u32) -> Result<(), AllocError>
    requires { j < length plan.now.graph.tasks }
    ensures exact { OnOk result (rows.new.items ≡ rows.old.items ++ j ∷ []) }
    ensures few { OnOk result (length rows.new.items ≤ length rows.old.items + 1) }
    ensures inside { OnOk result (All (λ k. k < length plan.now.graph.tasks) rows.old.items → All (λ k. k < length plan.now.graph.tasks) rows.new.items) }
{
    let _ = plan;
    rows.push(j)?;
    Ok(())
}

/// All tasks, in order.
pub(crate) fn all_rows(alloc: Global, plan: &Plan) -> Result<Vec<u32>, AllocError>
    ensures exact { IfOk result (λ rows. rows.items ≡ all_rows plan.now.graph) }
    ensures tasks { IfOk result (λ rows. AreTasks plan.now rows.items) }
{
    plan_is_one(plan);
    let mut rows = Vec::new(alloc);
    let count = plan.graph().tasks.len() as u32;
    for j in 0..count {
        push_row(&mut rows, plan, j)?;
    }
    Ok(rows)
}
