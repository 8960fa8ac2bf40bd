//! What a schedule does, below the windows: which task acts at which tick.

ghost use Rattle.prl_shapes.specs.Views.{IsView};

use prl_drawing::{Unit, push, push_sign};
use prl_plan::Plan;
use prl_shapes::{Act, View, row_in, task_of};
use std::alloc::AllocError;

/// What the sign of an act means.
const LEGEND: &str = "<path class=\"m e7\" d=\"M1612 590v80\"/>\
    <text x=\"1680\" y=\"670\">the task acts at this instant, which is no time that it takes</text>\n";

/// Appends the sign of a task that acts at a tick, where the tick is drawn and the task has a row.
fn push_seen(
    text: &mut Vec<u8>,
    plan: &Plan,
    view: &View,
    unit: &Unit,
    act: Act,
) -> Result<(), AllocError>
    requires { IsView plan.now view.now }
{
    let scale = view.scale;
    let row = row_in(view.rows.as_slice(), act.task);
    if act.tick < scale.from || act.tick >= scale.from + scale.span || row >= view.count() {
        return Ok(());
    }
    if act.task.0 as usize >= plan.graph().tasks.len() {
        return Ok(());
    }
    let name = task_of(plan, act.task).name.bytes();
    push_sign(text, scale, unit, row, act.task.0, name, act.tick)
}

/// Appends the signs of acts that fall into the ticks that are drawn.
pub(crate) fn push_signs(
    text: &mut Vec<u8>,
    plan: &Plan,
    view: &View,
    unit: &Unit,
    acts: &[Act],
) -> Result<(), AllocError>
    requires { IsView plan.now view.now }
{
    for act in acts {
        push_seen(text, plan, view, unit, *act)?;
    }
    if !acts.is_empty() {
        push(text, LEGEND)?;
    }
    Ok(())
}
