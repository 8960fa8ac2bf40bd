//! Walks along schedules: the tick, and how far each task is, whether the events keep the rules or not.

ghost use Rattle.std.specs.Prelude.{◌≡◌, ◌<◌, ◌≤◌, ◌+◌, ◌^◌, [], All, IfOk, MatchOption, length, slice_index, slice_set};
ghost use Rattle.std.specs.Bool.{OnTrue, OnFalse};
ghost use Rattle.prl_track.specs.Machine.{IsOfPlan};
ghost use Rattle.prl_plan.specs.declared.events.Event.TheVariants as events;
ghost use Rattle.prl_schedules.specs.code.Walks.{AreForbidden, IsForbidden, IsOfSize, IsWalk, Steps};

use crate::dates::next_of;
use prl_base::TaskNo;
use prl_plan::{Action, Event, Plan, plan_is_one, plans_keep_facts};
use std::alloc::{AllocError, Global};

/// Where a list of events leads to.
#[derive(Drop)]
pub(crate) struct Walk {
    pub(crate) tick: u64,
    /// By task, how many jobs have ended, and how many actions the next one has done.
    pub(crate) ended: Vec<u64>,
    pub(crate) places: Vec<u32>,
}

/// The walk before the first event.
fn opened(alloc: Global, plan: &Plan) -> Result<Walk, AllocError>
    ensures { IfOk result (IsWalk plan.now []) }
{
    let tasks = plan.graph().tasks.len();
    Ok(Walk {
        tick: 0,
        ended: vec![in alloc; 0; tasks]?,
        places: vec![in alloc; 0; tasks]?,
    })
}

/// The next job of a task does an action that does not end it; false where it did too many.
fn pass(walk: &mut Walk, i: usize) -> bool
    requires { i < length walk.old.places.items }
    ensures tick { walk.new.tick ≡ walk.old.tick }
    ensures ended { walk.new.ended.items ≡ walk.old.ended.items }
    ensures size { length walk.new.places.items ≡ length walk.old.places.items }
    ensures yes { OnTrue result (walk.new.places.items ≡ slice_set walk.old.places.items i (slice_index walk.old.places.items i + 1)) }
    ensures no { OnFalse result (slice_index walk.old.places.items i + 1 ≡ 2 ^ 32) }
{
    let place = walk.places[i];
    if place == u32::MAX {
        return false;
    }
    walk.places[i] = place + 1;
    true
}

/// The next job of a task ends.
fn end(walk: &mut Walk, i: usize)
    requires ended { i < length walk.old.ended.items }
    requires places { i < length walk.old.places.items }
    requires few { slice_index walk.old.ended.items i < 2 ^ 32 }
    ensures tick { walk.new.tick ≡ walk.old.tick }
    ensures ended { walk.new.ended.items ≡ slice_set walk.old.ended.items i (slice_index walk.old.ended.items i + 1) }
    ensures places { walk.new.places.items ≡ slice_set walk.old.places.items i 0 }
{
    walk.ended[i] += 1;
    walk.places[i] = 0;
}

/// The next job of a task does its next action; false where no run has this job.
fn act(walk: &mut Walk, plan: &Plan, task: TaskNo) -> bool
    requires task { task.0 < length plan.now.graph.tasks }
    requires size { IsOfSize plan.now walk.old }
    ensures size { IsOfSize plan.now walk.new }
    ensures tick { walk.new.tick ≡ walk.old.tick }
    ensures yes { OnTrue result (Steps plan.now (events.Act task) walk.old walk.new) }
    ensures no { OnFalse result (IsForbidden plan.now (events.Act task) walk.old) }
{
    plans_keep_facts();
    plan_is_one(plan);
    let i = task.0 as usize;
    let job = walk.ended[i];
    let place = walk.places[i];
    let Some(_next) = next_of(plan, task, job) else {
        return false;
    };
    match plan.action(task, job, place) {
        Action::End => {
            end(walk, i);
            true
        }
        Action::ReadConst { .. } | Action::Read { .. } | Action::Write { .. } => pass(walk, i),
    }
}

/// One event more; false where no run allows it.
fn go_on(walk: &mut Walk, plan: &Plan, event: Event) -> bool
    requires event { IsOfPlan plan.now event }
    requires size { IsOfSize plan.now walk.old }
    requires few { walk.old.tick < 2 ^ 63 }
    ensures size { IsOfSize plan.now walk.new }
    ensures few { walk.new.tick ≤ walk.old.tick + 1 }
    ensures yes { OnTrue result (Steps plan.now event walk.old walk.new) }
    ensures no { OnFalse result (IsForbidden plan.now event walk.old) }
{
    match event {
        Event::Act(task) => act(walk, plan, task),
        Event::Tick => {
            walk.tick += 1;
            true
        }
    }
}

/// The walk along these events; None where no run allows them all.
pub(crate) fn walked(alloc: Global, plan: &Plan, list: &[Event]) -> Result<Option<Walk>, AllocError>
    requires { All (IsOfPlan plan.now) list.now }
    ensures { IfOk result (λ walk. MatchOption walk (AreForbidden plan.now list.now) (IsWalk plan.now list.now)) }
{
    let mut walk = opened(alloc, plan)?;
    for event in list {
        if !go_on(&mut walk, plan, *event) {
            return Ok(None);
        }
    }
    Ok(Some(walk))
}
