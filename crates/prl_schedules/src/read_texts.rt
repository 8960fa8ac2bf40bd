//! The lines that tell what the jobs of a run read.

ghost use Rattle.std.specs.Prelude.{◌≡◌, ◌++◌, ◌<◌, [], All, IfOk, OnOk, length, slice_index_or};
ghost use Rattle.std.specs.List.{flat_map};
ghost use Rattle.prl_base.specs.Texts.{value_text};
ghost use Rattle.prl_schedules.specs.ScheduleTexts.{task_names};
ghost use Rattle.prl_schedules.specs.ReadTexts.{field, read_line, text_of_reads, ReadsOfTasks};

use crate::schedule_texts::name_of;
use prl_base::{push_number, push_value};
use prl_plan::Plan;
use prl_track::Seen;
use std::alloc::{AllocError, Global};

/// A blank and a number.
fn push_field(text: &mut Vec<u8>, number: u64) -> Result<(), AllocError>
    ensures { OnOk result (text.new.items ≡ text.old.items ++ field number) }
{
    text.push(b' ')?;
    push_number(text, number)
}

/// The line of what was seen, where it is a read.
fn push_read(text: &mut Vec<u8>, plan: &Plan, seen: &Seen) -> Result<(), AllocError>
    requires { ReadsOfTasks (length plan.now.graph.tasks) seen.now }
    ensures { OnOk result (text.new.items ≡ text.old.items ++ read_line (task_names plan.now) seen.now) }
{
    match seen {
        Seen::Read {
            task,
            job,
            port,
            instance,
            cell,
            value,
            ..
        } => {
            text.extend_from_slice(b"read ")?;
            text.extend_from_slice(name_of(plan, *task))?;
            push_field(text, *job)?;
            push_field(text, u64::from(*port))?;
            push_field(text, *instance)?;
            push_field(text, u64::from(cell.0))?;
            text.push(b' ')?;
            push_value(text, *value)?;
            text.push(b'\n')?;
            Ok(())
        }
        Seen::ReadConst {
            task,
            job,
            port,
            value,
        } => {
            text.extend_from_slice(b"const ")?;
            text.extend_from_slice(name_of(plan, *task))?;
            push_field(text, *job)?;
            push_field(text, u64::from(*port))?;
            text.push(b' ')?;
            push_value(text, *value)?;
            text.push(b'\n')?;
            Ok(())
        }
        Seen::Ticked(_) => Ok(()),
        Seen::Half { .. } => Ok(()),
        Seen::Wrote { .. } => Ok(()),
        Seen::Ended { .. } => Ok(()),
    }
}

/// The lines of the reads, in order: `read TASK JOB PORT INSTANCE CELL VALUE` for an instance, and `const TASK JOB PORT VALUE` for
/// a constant, by the names of the plan's tasks.
pub fn reads_text(alloc: Global, plan: &Plan, reads: &[Seen]) -> Result<Vec<u8>, AllocError>
    requires { All (ReadsOfTasks (length plan.now.graph.tasks)) reads.now }
    ensures { IfOk result (λ text. text.items ≡ text_of_reads (task_names plan.now) reads.now) }
{
    let mut text = Vec::new(alloc);
    for seen in reads {
        push_read(&mut text, plan, seen)?;
    }
    Ok(text)
}
