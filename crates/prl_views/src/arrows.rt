//! The precedences among the jobs of a picture, as arrows.

ghost use Rattle.std.specs.Prelude.{◌≡◌, ◌<◌, IfSome, length, slice_index};
ghost use Rattle.prl_plan.specs.Vocabulary.{job_count, task_at, edge_at};
ghost use Rattle.prl_shapes.specs.Shown.{IsOfPlan};
ghost use Rattle.prl_shapes.specs.Views.{IsView};

use crate::courses::{Course, course_of};
use prl_base::{EdgeNo, Op};
use prl_drawing::{Way, is_followed, push_all, push_arrow, push_arrow_legend};
use prl_plan::{Edge, Operand, Plan, Producer, plan_is_one};
use prl_shapes::{Shown, View, edge_of, first_shown, job_count, operand_of, row_in, shape_of};
use std::alloc::{AllocError, Global};

/// Whether a delay lies on an edge: an operator that puts initial values before a flow.
fn is_delayed(edge: &Edge) -> bool {
    for op in edge.ops.as_slice() {
        match op {
            Op::Fby(_) => return true,
            Op::Cons(_) => return true,
            Op::Tail => {}
            Op::Up(_) => {}
            Op::Down(_) => {}
            Op::Shift(_) => {}
        }
    }
    false
}

/// How many arrows there are: plain ones, those with a delay, and those that are left out.
#[derive(Clone, Copy)]
pub(crate) struct Arrows {
    plain: u64,
    delayed: u64,
    left_out: u64,
}

/// Adds an arrow.
fn count(arrows: &mut Arrows, followed: bool, delayed: bool) {
    if !followed {
        arrows.left_out = arrows.left_out.saturating_add(1);
    } else if delayed {
        arrows.delayed = arrows.delayed.saturating_add(1);
    } else {
        arrows.plain = arrows.plain.saturating_add(1);
    }
}

/// The rows of the producer and of the consumer of an edge, where both have one.
fn rows_of(plan: &Plan, view: &View, edge: &Edge) -> Option<(u32, u32)>
    requires { IsView plan.now view.now }
    ensures { IfSome result (λ rows. (rows.0 < length view.now.rows) × (rows.1 < length view.now.rows) × (slice_index view.now.rows rows.1 ≡ edge.now.to.0)) }
{
    let Producer::Port { task, .. } = edge.from else {
        return None;
    };
    let before = row_in(view.rows.as_slice(), task);
    let after = row_in(view.rows.as_slice(), edge.to);
    if before < view.count() && after < view.count() && view.task(after).0 == edge.to.0 {
        Some((before, after))
    } else {
        None
    }
}

/// The way of the arrow from job `m`: jobs one after another have lanes of their own.
fn way_from(course: Course, m: u64) -> Way {
    Way {
        lane: course.way.lane.saturating_add(m % 2 * 2),
        ..course.way
    }
}

/// Appends an arrow from the job of a row that gives what job `n` of another row reads on an edge, where both are drawn.
fn push_reading(
    text: &mut Vec<u8>,
    plan: &Plan,
    shown: &Shown,
    view: &View,
    e: EdgeNo,
    course: Course,
    n: u64,
    arrows: &mut Arrows,
) -> Result<(), AllocError>
    requires view { IsView plan.now view.now }
    requires shown { IsOfPlan plan.now shown.now }
    requires edge { e.0 < length plan.now.graph.edges }
    requires rows { (course.before < length view.now.rows) × (course.after < length view.now.rows) }
    requires to { slice_index view.now.rows course.after ≡ (edge_at plan.now.graph e.0).to.0 }
    requires job { n < job_count (task_at plan.now.graph (edge_at plan.now.graph e.0).to.0) view.now.scale.until }
{
    let edge = edge_of(plan, e);
    let Operand::From(m) = operand_of(plan, e, n, view.scale.until) else {
        return Ok(());
    };
    let task = view.task(course.before);
    if m < first_shown(plan, task, view.scale.from)
        || m >= job_count(plan, task, view.scale.until)
    {
        return Ok(());
    }
    let before = shape_of(plan, shown, view, course.before, m);
    let after = shape_of(plan, shown, view, course.after, n);
    let followed = is_followed(&before, &after);
    count(arrows, followed, is_delayed(edge));
    if followed {
        push_arrow(text, way_from(course, m), is_delayed(edge), &before, &after)?;
    }
    Ok(())
}

/// Appends the arrows of an edge.
fn push_edge(
    text: &mut Vec<u8>,
    plan: &Plan,
    shown: &Shown,
    view: &View,
    e: EdgeNo,
    courses: &mut Vec<Course>,
    arrows: &mut Arrows,
) -> Result<(), AllocError>
    requires view { IsView plan.now view.now }
    requires shown { IsOfPlan plan.now shown.now }
    requires edge { e.0 < length plan.now.graph.edges }
{
    let edge = edge_of(plan, e);
    let Some(rows) = rows_of(plan, view, edge) else {
        return Ok(());
    };
    let course = course_of(courses, rows.0, rows.1);
    courses.push(course)?;
    let first = job_count(plan, edge.to, view.scale.from);
    let last = job_count(plan, edge.to, view.scale.until);
    for n in first..last {
        push_reading(text, plan, shown, view, e, course, n, arrows)?;
    }
    Ok(())
}

/// Appends the line that says how many arrows are not drawn.
fn push_left_out(text: &mut Vec<u8>, left_out: u64) -> Result<(), AllocError> {
    if left_out == 0 {
        return Ok(());
    }
    let front = "<text x=\"6300\" y=\"670\">not drawn: ";
    let tail = " arrows at windows that are too narrow for them</text>\n";
    push_all(text, &[(front, left_out)], tail)
}

/// Appends the arrows of all edges whose windows are wide enough, what they mean, and how many are left out.
pub(crate) fn push_arrows(
    alloc: Global,
    text: &mut Vec<u8>,
    plan: &Plan,
    shown: &Shown,
    view: &View,
) -> Result<(), AllocError>
    requires view { IsView plan.now view.now }
    requires shown { IsOfPlan plan.now shown.now }
{
    plan_is_one(plan);
    let mut arrows = Arrows {
        plain: 0,
        delayed: 0,
        left_out: 0,
    };
    let mut courses = Vec::new(alloc);
    for e in 0..plan.graph().edges.len() {
        let e = EdgeNo(e as u32);
        push_edge(text, plan, shown, view, e, &mut courses, &mut arrows)?;
    }
    push_arrow_legend(text, arrows.plain > 0, arrows.delayed > 0)?;
    push_left_out(text, arrows.left_out)
}
