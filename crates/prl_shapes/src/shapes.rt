//! The jobs that a picture shows, and where they stand in it.

ghost use Rattle.std.specs.Prelude.{◌≡◌, ◌++◌, ◌<◌, ◌≤◌, ◌^◌, IfOk, OnOk, length, slice_index};
ghost use Rattle.prl_plan.specs.Jobs.{job_count, task_at};
ghost use Rattle.prl_shapes.specs.JobsShown.{first_shown};
ghost use Rattle.prl_shapes.specs.Shapes.{own_x, shape_of, shapes_of, shapes_of_row};
ghost use Rattle.prl_shapes.specs.Shown.{IsOfPlan};
ghost use Rattle.prl_shapes.specs.Views.{IsView};
ghost use Rattle.prl_drawing.specs.Scales.{IsScale};

use crate::kinds::Shown;
use crate::look_ups::{dates_of, job_count, own_release, released, task_of};
use crate::views::View;
use prl_base::TaskNo;
use prl_drawing::{Scale, Shape, cut_of, x_of, x_within};
use prl_plan::Plan;
use std::alloc::{AllocError, Global};

/// Where an own date stands: where the encoded one does, if the scale does not reach it.
fn own_x(scale: Scale, tick: u64, x: u64) -> u64
    requires scale { IsScale scale }
    requires tick { tick < 2 ^ 34 }
    ensures { result ≡ own_x scale tick x }
{
    if scale.from <= tick && tick <= scale.from + scale.span {
        x_of(scale, tick)
    } else {
        x
    }
}

/// A job of the task of a row.
pub fn shape_of(plan: &Plan, shown: &Shown, view: &View, row: u32, n: u64) -> Shape
    requires view { IsView plan.now view.now }
    requires shown { IsOfPlan plan.now shown.now }
    requires row { row < length view.now.rows }
    requires job { n < job_count (task_at plan.now.graph (slice_index view.now.rows row)) view.now.scale.until }
    ensures { result ≡ shape_of plan.now shown.now view.now row n }
{
    let scale = view.scale;
    let i = view.task(row);
    let task = task_of(plan, i);
    let own = own_release(plan, i, n, scale.until);
    let release = released(plan, shown, i, n, scale.until);
    let (_release, deadline) = dates_of(plan, i, n, scale.until);
    let (left, right) = (x_within(scale, release), x_within(scale, deadline));
    let done = release + u64::from(task.wcet);
    Shape {
        row,
        task: i.0,
        job: n,
        release,
        deadline,
        left,
        right,
        cut: cut_of(scale, release, deadline),
        bar: x_within(scale, done),
        bar_cut: cut_of(scale, release, done),
        own_left: own_x(scale, own, left),
        own_right: own_x(scale, own + task.due, right),
    }
}

/// The first job of a task that is not over at a tick.
pub fn first_shown(plan: &Plan, i: TaskNo, from: u64) -> u64
    requires task { i.0 < length plan.now.graph.tasks }
    requires from { from < 2 ^ 32 }
    ensures { result ≡ first_shown plan.now i.0 from }
{
    let released = job_count(plan, i, from);
    if released == 0 {
        return 0;
    }
    let (_release, deadline) = dates_of(plan, i, released - 1, from);
    if from < deadline {
        released - 1
    } else {
        released
    }
}

/// Appends the jobs of the task of a row that are shown.
fn push_jobs(
    shapes: &mut Vec<Shape>,
    plan: &Plan,
    shown: &Shown,
    view: &View,
    row: u32,
) -> Result<(), AllocError>
    requires view { IsView plan.now view.now }
    requires shown { IsOfPlan plan.now shown.now }
    requires row { row < length view.now.rows }
    ensures { OnOk result (shapes.new.items ≡ shapes.old.items ++ shapes_of_row plan.now shown.now view.now row) }
{
    let i = view.task(row);
    let first = first_shown(plan, i, view.scale.from);
    let last = job_count(plan, i, view.scale.until);
    for n in first..last {
        shapes.push(shape_of(plan, shown, view, row, n))?;
    }
    Ok(())
}

/// The jobs that are shown, row after row, in order.
pub fn shapes_of(
    alloc: Global,
    plan: &Plan,
    shown: &Shown,
    view: &View,
) -> Result<Vec<Shape>, AllocError>
    requires view { IsView plan.now view.now }
    requires shown { IsOfPlan plan.now shown.now }
    ensures { IfOk result (λ shapes. shapes.items ≡ shapes_of plan.now shown.now view.now) }
{
    let mut shapes = Vec::new(alloc);
    for row in 0..view.count() {
        push_jobs(&mut shapes, plan, shown, view, row)?;
    }
    Ok(shapes)
}
