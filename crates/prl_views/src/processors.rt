//! The names of the rows of processors, and of the tasks that act there.

ghost use Rattle.std.specs.Prelude.{◌≡◌, ◌≤◌, length};
ghost use Rattle.prl_plan.specs.declared.limits.TheConstants.{MAX_TASKS};
ghost use Rattle.prl_views.specs.Parts.{used_of};

use crate::parts::{MOST_PROCESSORS, Part, processor_row};
use prl_drawing::{Unit, push_all, push_part_name, push_processor, second_line};
use prl_plan::Plan;
use prl_shapes::task_of;
use std::alloc::AllocError;

/// How many tasks run on a processor.
fn tasks_on(processors: &[u32], processor: u32) -> u64 {
    let mut count: u64 = 0;
    for one in processors {
        if *one == processor {
            count = count.saturating_add(1);
        }
    }
    count
}

/// Appends what the rows of the processors begin with.
pub(crate) fn push_rows(
    text: &mut Vec<u8>,
    rows: u32,
    processors: &[u32],
    used: &[u32],
) -> Result<(), AllocError>
    requires { length used.now ≤ MOST_PROCESSORS }
{
    for (k, processor) in used.iter().enumerate() {
        let row = rows.saturating_add(k as u32);
        let attributes = [
            (" ", u64::from(*processor)),
            second_line(row),
            ("\">tasks ", tasks_on(processors, *processor)),
        ];
        push_processor(text, row)?;
        push_all(text, &attributes, "</text>\n")?;
    }
    Ok(())
}

/// Appends the names of the tasks in their parts.
pub(crate) fn push_labels(
    text: &mut Vec<u8>,
    plan: &Plan,
    unit: &Unit,
    rows: u32,
    processors: &[u32],
    used: &[u32],
    parts: &[Part],
) -> Result<(), AllocError>
    requires used { used.now ≡ used_of processors.now }
    requires few { length used.now ≤ MOST_PROCESSORS }
    requires rows { rows ≤ MAX_TASKS }
{
    for part in parts {
        if (part.act.task.0 as usize) < plan.graph().tasks.len() {
            let name = task_of(plan, part.act.task).name.bytes();
            let row = processor_row(rows, processors, used, part.act.task);
            push_part_name(text, unit, row, part.left, part.width, name, part.act.tick)?;
        }
    }
    Ok(())
}
