//! Lists of events as texts: one event a line.

ghost use Rattle.std.specs.Prelude.{◌≡◌, ◌++◌, ◌<◌, [], All, IfOk, OnOk, length, slice_index_or};
ghost use Rattle.std.specs.List.{flat_map};
ghost use Rattle.prl_track.specs.Machine.{IsOfPlan};
ghost use Rattle.prl_schedules.specs.ScheduleTexts.{task_names, event_line, text_of_events};

use prl_base::TaskNo;
use prl_plan::{Event, Plan, plan_is_one};
use std::alloc::{AllocError, Global};

/// The name of a task of the plan.
pub(crate) fn name_of(plan: &Plan, task: TaskNo) -> &[u8]
    requires { task.0 < length plan.now.graph.tasks }
    ensures { result.now ≡ slice_index_or (task_names plan.now) task.0 [] }
{
    plan.graph().tasks.as_slice()[task.0 as usize].name.bytes()
}

/// Adds the line of an event.
fn push_event(text: &mut Vec<u8>, plan: &Plan, event: Event) -> Result<(), AllocError>
    requires { IsOfPlan plan.now event }
    ensures { OnOk result (text.new.items ≡ text.old.items ++ event_line (task_names plan.now) event) }
{
    match event {
        Event::Tick => text.extend_from_slice(b"tick\n"),
        Event::Act(task) => {
            text.extend_from_slice(b"act ")?;
            text.extend_from_slice(name_of(plan, task))?;
            text.extend_from_slice(b"\n")
        }
    }
}

/// The text of a list of events, a line `tick` or `act TASK` each, by the names of the plan's tasks.
pub fn schedule_text(alloc: Global, plan: &Plan, events: &[Event]) -> Result<Vec<u8>, AllocError>
    requires { All (IsOfPlan plan.now) events.now }
    ensures { IfOk result (λ text. text.items ≡ text_of_events (task_names plan.now) events.now) }
{
    let mut text = Vec::new(alloc);
    for event in events {
        push_event(&mut text, plan, *event)?;
    }
    Ok(text)
}
