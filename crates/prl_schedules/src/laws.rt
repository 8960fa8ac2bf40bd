//! Laws of dispatched lists, as functions that do nothing: the contract of each is the law, over the definitions alone.

ghost use Rattle.std.specs.Prelude.{List};
ghost use Rattle.prl_plan.specs.Vocabulary.{HasPlanFacts, IsHorizon, constants_of, PlanView};
ghost use Rattle.prl_plan.specs.Vocabulary.{IsPlan, IsLegal, IsComplete, RunConstants, ExecState};
ghost use Rattle.prl_plan.specs.Vocabulary.{opening, after_events};
ghost use Rattle.prl_plan.specs.declared.events.Event.{Event as AnyEvent};
ghost use Rattle.prl_plan.specs.declared.horizons.Horizon.{Horizon as AnyHorizon};
ghost use Rattle.prl_schedules.specs.Dispatches.{IsDispatched};

use prl_plan::{events_are_decided, plans_keep_facts};

/// Each plan has a dispatched list in each of its horizons, and a dispatched list is legal and complete. So a legal and complete
/// list exists.
pub fn plans_are_dispatched()
    ensures some { (plan : PlanView) (horizon : AnyHorizon) → IsPlan plan → IsHorizon plan horizon →
        (events : List AnyEvent) × IsDispatched (constants_of plan horizon) (opening (constants_of plan horizon)) events }
    ensures legal { (c : RunConstants) → HasPlanFacts c → (s : ExecState) (events : List AnyEvent) → IsDispatched c s events → IsLegal c s events }
    ensures complete { (c : RunConstants) (s : ExecState) (events : List AnyEvent) → IsDispatched c s events → IsComplete c (after_events c s events) }
{
    events_are_decided();
    plans_keep_facts();
}
