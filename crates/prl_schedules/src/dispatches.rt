//! The dispatched list of a plan.

ghost use Rattle.std.specs.Prelude.{◌≡◌, IfOk, length};
ghost use Rattle.prl_plan.specs.Vocabulary.{HasPlanFacts, IsHorizon, Placement, constants_of};
ghost use Rattle.prl_plan.specs.Vocabulary.{constants_on, IsLegal, IsComplete, opening};
ghost use Rattle.prl_plan.specs.Vocabulary.{after_events};
ghost use Rattle.prl_schedules.specs.Dispatches.{IsDispatched};

use prl_plan::{Event, Horizon, Placed, Plan, plan_facts, plan_is_one};
use prl_track::{Track, next_event_is_legal};
use std::alloc::{AllocError, Global};

/// The events that come one after another from the first on, until every job of the horizon has ended: acts of the released
/// job that is due earliest, and ticks where none is released. The list is legal and complete, and depends on no value. All
/// tasks run on one processor.
pub fn dispatch(alloc: Global, plan: &Plan, horizon: Horizon) -> Result<Vec<Event>, AllocError>
    requires { IsHorizon plan.now horizon }
    ensures next { IfOk result (λ events. IsDispatched (constants_of plan.now horizon) (opening (constants_of plan.now horizon)) events.items) }
    ensures legal { IfOk result (λ events. IsLegal (constants_of plan.now horizon) (opening (constants_of plan.now horizon)) events.items) }
    ensures complete { IfOk result (λ events. IsComplete (constants_of plan.now horizon) (after_events (constants_of plan.now horizon) (opening (constants_of plan.now horizon)) events.items)) }
{
    plan_is_one(plan);
    plan_facts(plan, horizon);
    dispatch_on(alloc, plan, Placed::alone(plan), horizon)
}

/// The same, where each task runs on its processor, and jobs are released by these windows: the job that is due earliest is one
/// of all processors.
pub fn dispatch_on(
    alloc: Global,
    plan: &Plan,
    placed: Placed<'_>,
    horizon: Horizon,
) -> Result<Vec<Event>, AllocError>
    requires horizon { IsHorizon plan.now horizon }
    requires windows { length placed.windows ≡ length plan.now.graph.tasks }
    requires facts { HasPlanFacts (constants_on plan.now placed horizon) }
    ensures next { IfOk result (λ events. IsDispatched (constants_on plan.now placed.entry horizon) (opening (constants_on plan.now placed.entry horizon)) events.items) }
    ensures legal { IfOk result (λ events. IsLegal (constants_on plan.now placed.entry horizon) (opening (constants_on plan.now placed.entry horizon)) events.items) }
    ensures complete { IfOk result (λ events. IsComplete (constants_on plan.now placed.entry horizon) (after_events (constants_on plan.now placed.entry horizon) (opening (constants_on plan.now placed.entry horizon)) events.items)) }
{
    next_event_is_legal();
    let mut track = Track::on(alloc, plan, placed, horizon)?;
    let mut events = Vec::new(alloc);
    while let Some(event) = track.next() {
        events.push(event)?;
        track.follow(event);
    }
    Ok(events)
}
