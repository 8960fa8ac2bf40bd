//! The text of a replay.

ghost use Rattle.std.specs.Prelude.{◌≡◌, ◌++◌, ◌<◌, ◌^◌, ℕ, All, IfOk, length};
ghost use Rattle.prl_flow.specs.Actuators.{AreUpTo, actuator_text};
ghost use Rattle.prl_schedules.specs.Vocabulary.{ReadsOfTasks, text_of_reads, task_names};

use crate::Trace;
use prl_plan::Plan;
use prl_schedules::reads_text;
use prl_sensors::actuator_text;
use std::alloc::{AllocError, Global};

/// The text of a replay: as the events have them, a line `read TASK JOB PORT INSTANCE CELL VALUE` for each operand from
/// a cell and `const TASK JOB PORT VALUE` for each constant operand; after these the actuators' rows
/// `NAME,INSTANCE,DATE,VALUE` by date.
pub fn trace_text(alloc: Global, plan: &Plan, trace: &Trace) -> Result<Vec<u8>, AllocError>
    requires reads { All (ReadsOfTasks (length plan.now.graph.tasks)) trace.now.reads }
    requires outputs { (until : ℕ) × (until < 2 ^ 64) × AreUpTo until trace.now.outputs }
    ensures { (until : ℕ) → AreUpTo until trace.now.outputs →
        IfOk result (λ text. text.items ≡ text_of_reads (task_names plan.now) trace.now.reads ++ actuator_text until trace.now.outputs) }
{
    let mut text = reads_text(alloc, plan, trace.reads.as_slice())?;
    let rows = actuator_text(alloc, trace.outputs.as_slice())?;
    text.extend_from_slice(rows.as_slice())?;
    Ok(text)
}
