//! What the first unfinished job of a task has left to do after some events.

ghost use Rattle.std.specs.Prelude.{◌≡◌, ◌≢◌, ◌+◌, ◌<◌, ◌^◌, ℕ, All, IfOk, IfSome, length, slice_index_or};
ghost use Rattle.std.specs.Bool.{OnTrue, OnFalse};
ghost use Rattle.prl_plan.specs.declared.events.Action.TheVariants as actions;
ghost use Rattle.prl_plan.specs.Plans.{actions_of, release_at};
ghost use Rattle.prl_track.specs.Machine.{IsOfPlan};
ghost use Rattle.prl_schedules.specs.Lefts.{IsLeft};

use crate::dates::next_of;
use crate::walks::walked;
use prl_base::TaskNo;
use prl_plan::{Action, Event, Plan};
use std::alloc::{AllocError, Global};

/// More actions than a job has.
const MOST: u32 = 4096;

/// The first unfinished job of a task.
#[derive(Clone, Copy)]
pub struct Left {
    pub task: TaskNo,
    /// The number of the job, counted from 0.
    pub number: u64,
    /// How many of its actions it has done.
    pub done: u32,
    /// How many it has left before the one that ends it.
    pub more: u32,
}

/// Whether the job ends with its action at this place.
fn is_end(plan: &Plan, task: TaskNo, number: u64, place: u32) -> bool
    requires task { task.0 < length plan.now.graph.tasks }
    requires small { release_at plan.now task.0 number < 2 ^ 63 }
    ensures yes { OnTrue result (slice_index_or (actions_of plan.now task.0 number) place actions.End ≡ actions.End) }
    ensures no { OnFalse result (slice_index_or (actions_of plan.now task.0 number) place actions.End ≢ actions.End) }
{
    match plan.action(task, number, place) {
        Action::End => true,
        Action::ReadConst { .. } => false,
        Action::Read { .. } => false,
        Action::Write { .. } => false,
    }
}

/// How many actions a job has from a place on before the one that ends it.
fn before_end(plan: &Plan, task: TaskNo, number: u64, done: u32) -> Option<u32>
    requires task { task.0 < length plan.now.graph.tasks }
    requires small { release_at plan.now task.0 number < 2 ^ 63 }
    ensures ends { IfSome result (λ more. slice_index_or (actions_of plan.now task.0 number) (done + more) actions.End ≡ actions.End) }
    ensures before { IfSome result (λ more. (k : ℕ) → k < more → slice_index_or (actions_of plan.now task.0 number) (done + k) actions.End ≢ actions.End) }
{
    if done >= MOST {
        return None;
    }
    for more in 0..MOST {
        if is_end(plan, task, number, done + more) {
            return Some(more);
        }
    }
    None
}

/// What the first unfinished job of a task has left to do after the events; None where no run of the plan has them, or the job.
pub fn left_after(
    alloc: Global,
    plan: &Plan,
    list: &[Event],
    task: TaskNo,
) -> Result<Option<Left>, AllocError>
    requires each { All (IsOfPlan plan.now) list.now }
    requires task { task.0 < length plan.now.graph.tasks }
    ensures of_task { IfOk result (λ found. IfSome found (λ left. left.task ≡ task)) }
    ensures left { IfOk result (λ found. IfSome found (IsLeft plan.now list.now)) }
{
    let Some(walk) = walked(alloc, plan, list)? else {
        return Ok(None);
    };
    let number = walk.ended[task.0 as usize];
    let done = walk.places[task.0 as usize];
    let Some(_next) = next_of(plan, task, number) else {
        return Ok(None);
    };
    match before_end(plan, task, number, done) {
        None => Ok(None),
        Some(more) => Ok(Some(Left {
            task,
            number,
            done,
            more,
        })),
    }
}
