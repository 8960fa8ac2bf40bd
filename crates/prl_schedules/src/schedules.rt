//! Texts of schedules: one event a line.

ghost use Rattle.std.specs.Prelude.{◌≡◌, ◌<◌, ◌≤◌, ◌^◌, All, IfOk, IfSome, length};
ghost use Rattle.std.specs.Option.{option_map};
ghost use Rattle.std.specs.Vec.{vec_items};
ghost use Rattle.prl_base.specs.Reading.{GivesBut};
ghost use Rattle.prl_track.specs.Machine.{IsOfPlan};
ghost use Rattle.prl_schedules.specs.ScheduleTexts.{task_names};
ghost use Rattle.prl_schedules.specs.declared.schedules.ScheduleFault.TheVariants as faults;
ghost use Rattle.prl_schedules.specs.Schedules.{event_of, without_return, or_line, schedule_of, IsOfTasks};
ghost use Rattle.prl_schedules.specs.declared.schedules.ScheduleFault.TheVariants.{Memory};

use crate::numbers::TaskNames;
use prl_base::cut_line;
use prl_plan::{Event, Plan, plan_is_one};
use std::alloc::{AllocFailed, Global};

/// Why a text is no schedule.
#[derive(Clone, Copy)]
pub enum ScheduleFault {
    /// The line of this number, counted from 1, is no event.
    Syntax(u64),
    Memory,
}

impl<T: Drop> From<AllocFailed<T>> for ScheduleFault {
    ghost from_gives = { λ _ e. e ≡ Memory };

    fn from(_error: AllocFailed<T>) -> ScheduleFault {
        ScheduleFault::Memory
    }
}

/// The event that a line writes: `tick`, or `act` and the name of a task.
fn event_of(names: &TaskNames<'_>, line: &[u8]) -> Option<Event>
    ensures exact { result ≡ event_of names.now line.now }
    ensures tasks { IfSome result (IsOfTasks (length names.now)) }
{
    if line == b"tick".as_slice() {
        return Some(Event::Tick);
    }
    match line.strip_prefix(b"act ") {
        None => None,
        Some(name) => match names.task_of(name) {
            None => None,
            Some(task) => Some(Event::Act(task)),
        },
    }
}

/// The line without a carriage return at its end.
pub fn without_return(line: &[u8]) -> &[u8]
    ensures { result.now ≡ without_return line.now }
{
    match line {
        [front @ .., b'\r'] => front,
        _ => line,
    }
}

/// The event of a line, where it is one.
fn event_at(names: &TaskNames<'_>, line: &[u8], number: u64) -> Result<Event, ScheduleFault>
    ensures exact { GivesBut faults.Memory (λ event. event) result (or_line number (event_of names.now line.now)) }
    ensures tasks { IfOk result (IsOfTasks (length names.now)) }
{
    match event_of(names, line) {
        Some(event) => Ok(event),
        None => Err(ScheduleFault::Syntax(number)),
    }
}

/// The events of a schedule, a line each, whose acts are of the tasks of these names.
fn events_of(alloc: Global, names: &TaskNames<'_>, text: &[u8]) -> Result<Vec<Event>, ScheduleFault>
    ensures exact { GivesBut faults.Memory vec_items result (schedule_of names.now text.now) }
    ensures tasks { IfOk result (λ events. All (IsOfTasks (length names.now)) events.items) }
{
    let mut events = Vec::new(alloc);
    let mut rest = text;
    let mut number: u64 = 1;
    while let Some((line, after)) = cut_line(rest) {
        events.push(event_at(names, without_return(line), number)?)?;
        rest = after;
        number += 1;
    }
    if rest.is_empty() {
        return Ok(events);
    }
    events.push(event_at(names, rest, number)?)?;
    Ok(events)
}

/// The events of the schedule, a line each, whose acts are of tasks of the plan by their names. `Syntax` at the first line
/// that is no event.
pub fn read_schedule(alloc: Global, text: &[u8], plan: &Plan) -> Result<Vec<Event>, ScheduleFault>
    ensures exact { GivesBut faults.Memory vec_items result (schedule_of (task_names plan.now) text.now) }
    ensures tasks { IfOk result (λ events. All (IsOfPlan plan.now) events.items) }
{
    plan_is_one(plan);
    match TaskNames::new(alloc, plan.graph().tasks.as_slice()) {
        Ok(names) => events_of(alloc, &names, text),
        Err(_) => Err(ScheduleFault::Memory),
    }
}
