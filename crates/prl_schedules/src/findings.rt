//! What an event is about that breaks a rule.

ghost use Rattle.std.specs.Prelude.{◌≡◌, ◌<◌, ◌^◌, All, IfOk, Some, length};
ghost use Rattle.prl_track.specs.Machine.{IsOfPlan};
ghost use Rattle.prl_plan.specs.declared.events.Event.TheVariants as events;
ghost use Rattle.prl_plan.specs.declared.events.Rule.TheVariants as rules;
ghost use Rattle.prl_schedules.specs.Causes.{IsFinding};
ghost use Rattle.prl_schedules.specs.code.Walks.{IsCauseThere, IsOfSize};

use crate::causes::{Cause, Finding};
use crate::dates::next_of;
use crate::pending::{latest_deadline, least_pending};
use crate::walks::{Walk, walked};
use prl_base::TaskNo;
use prl_plan::{
    Event, Plan, Rule, gated_events_keep_sound, horizon_jobs_are_counted, plan_is_one,
    plans_keep_facts,
};
use std::alloc::{AllocError, Global};

/// The job that acts before its release.
fn early(plan: &Plan, walk: &Walk, task: TaskNo) -> Option<Cause>
    requires task { task.0 < length plan.now.graph.tasks }
    requires size { IsOfSize plan.now walk.now }
    ensures { IsCauseThere plan.now walk.now (events.Act task) rules.L1 result }
{
    let Some(next) = next_of(plan, task, walk.ended[task.0 as usize]) else {
        return None;
    };
    if next.job.release <= walk.tick {
        return None;
    }
    Some(Cause::Early(next.job))
}

/// How many jobs a task has, all of which have ended.
fn all_ended(plan: &Plan, walk: &Walk, task: TaskNo) -> Cause
    requires task { task.0 < length plan.now.graph.tasks }
    requires size { IsOfSize plan.now walk.now }
    ensures { IsCauseThere plan.now walk.now (events.Act task) rules.L2 (Some result) }
{
    Cause::AllEnded {
        task,
        jobs: walk.ended[task.0 as usize],
    }
}

/// The job that acts, and one that it overtakes.
fn overtaken(plan: &Plan, walk: &Walk, task: TaskNo) -> Option<Cause>
    requires task { task.0 < length plan.now.graph.tasks }
    requires size { IsOfSize plan.now walk.now }
    ensures { IsCauseThere plan.now walk.now (events.Act task) rules.L3 result }
{
    plan_is_one(plan);
    plans_keep_facts();
    horizon_jobs_are_counted();
    let Some(next) = next_of(plan, task, walk.ended[task.0 as usize]) else {
        return None;
    };
    let Some(other) = least_pending(plan, walk, next.job.deadline) else {
        return None;
    };
    Some(Cause::Overtakes {
        job: next.job,
        other: other.job,
    })
}

/// A job that is due at the next tick, or that the run is over.
fn due(plan: &Plan, walk: &Walk) -> Cause
    requires size { IsOfSize plan.now walk.now }
    requires few { walk.now.tick < 2 ^ 63 }
    ensures { IsCauseThere plan.now walk.now events.Tick rules.L4 (Some result) }
{
    plan_is_one(plan);
    plans_keep_facts();
    horizon_jobs_are_counted();
    let Some(next) = least_pending(plan, walk, walk.tick + 2) else {
        return Cause::Over;
    };
    if next.job.deadline <= walk.tick {
        return Cause::Over;
    }
    if latest_deadline(plan, walk) != walk.tick {
        return Cause::Due(next.job);
    }
    Cause::DueOrOver {
        job: next.job,
        until: next.own,
    }
}

/// What an event is about that breaks a rule, after the events of a walk.
fn cause_of(plan: &Plan, walk: &Walk, event: Event, rule: Rule) -> Option<Cause>
    requires event { IsOfPlan plan.now event }
    requires size { IsOfSize plan.now walk.now }
    requires few { walk.now.tick < 2 ^ 63 }
    ensures { IsCauseThere plan.now walk.now event rule result }
{
    match event {
        Event::Act(task) => match rule {
            Rule::L1 => early(plan, walk, task),
            Rule::L2 => Some(all_ended(plan, walk, task)),
            Rule::L3 => overtaken(plan, walk, task),
            Rule::L4 => None,
        },
        Event::Tick => match rule {
            Rule::L1 => None,
            Rule::L2 => None,
            Rule::L3 => None,
            Rule::L4 => Some(due(plan, walk)),
        },
    }
}

/// What the event at this index of the list, from 0, is about, where it is the first one that breaks a rule, and this is the
/// rule: which job acts and which other one it overtakes, or which job is due. What is told is so in each run of the plan
/// that the event breaks; None where it breaks this rule in none.
pub fn finding_at(
    alloc: Global,
    plan: &Plan,
    list: &[Event],
    index: usize,
    rule: Rule,
) -> Result<Option<Finding>, AllocError>
    requires { All (IsOfPlan plan.now) list.now }
    ensures { IfOk result (IsFinding plan.now list.now index rule) }
{
    plan_is_one(plan);
    plans_keep_facts();
    gated_events_keep_sound();
    if index >= list.len() {
        return Ok(None);
    }
    let Some(walk) = walked(alloc, plan, &list[..index])? else {
        return Ok(None);
    };
    match cause_of(plan, &walk, list[index], rule) {
        None => Ok(None),
        Some(cause) => Ok(Some(Finding {
            tick: walk.tick,
            cause,
        })),
    }
}
