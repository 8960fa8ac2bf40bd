//! The head of a picture: what is drawn, the ticks, and the names of the tasks.

ghost use Rattle.prl_shapes.specs.Views.{IsView};

use prl_drawing::{Unit, push_name, push_opening, push_ticks, push_title, row_of};
use prl_plan::Plan;
use prl_shapes::{View, task_of};
use std::alloc::AllocError;

/// Appends the names of the tasks of the rows.
fn push_names(text: &mut Vec<u8>, plan: &Plan, view: &View, unit: &Unit) -> Result<(), AllocError>
    requires { IsView plan.now view.now }
{
    for row in 0..view.count() {
        let task = task_of(plan, view.task(row));
        let y = row_of(row);
        let period = task.clock.period;
        push_name(text, unit, task.name.bytes(), y, period, task.wcet)?;
    }
    Ok(())
}

/// Appends what stands below the windows of a picture of so many rows.
pub(crate) fn push_head(
    text: &mut Vec<u8>,
    plan: &Plan,
    view: &View,
    unit: &Unit,
    left_out: u64,
    rows: u32,
) -> Result<(), AllocError>
    requires { IsView plan.now view.now }
{
    push_opening(text, rows)?;
    push_title(text, plan.graph().hyper, view.scale, unit, left_out)?;
    push_ticks(text, view.scale, unit, row_of(rows))?;
    push_names(text, plan, view, unit)
}
