//! Laws of plans on several processors, as functions that do nothing: the contract of each is the law, over the definitions alone.

ghost use Rattle.std.specs.Prelude.{◌≡◌, ◌≢◌, ◌⊎◌, ℕ, Err, List, Ok};
ghost use Rattle.prl_plan.specs.Vocabulary.{HasPlanFacts, IsHorizon, Placement, constants_of};
ghost use Rattle.prl_plan.specs.Vocabulary.{constants_on, PlanView, IsPlan, IsComplete, IsGated};
ghost use Rattle.prl_plan.specs.Vocabulary.{IsLegal, opening, after_events, IsSpread};
ghost use Rattle.prl_plan.specs.declared.events.Event.{Event as AnyEvent};
ghost use Rattle.prl_plan.specs.declared.horizons.Horizon.{Horizon as AnyHorizon};
ghost use Rattle.prl_schedules.specs.Vocabulary.{IsDispatched, task_names};
ghost use Rattle.prl_cores.specs.declared.texts.CoresFault.{CoresFault as AnyFault};
ghost use Rattle.prl_cores.specs.declared.texts.CoresFault.TheVariants as faults;
ghost use Rattle.prl_cores.specs.Processors.{processors_of};
ghost use Rattle.prl_cores.specs.Spreads.{LeavesRoom};

use prl_dates::spreads_exist;
use prl_plan::{events_are_decided, legal_list_is_gated, plans_keep_facts};
use prl_schedules::plans_are_dispatched;

/// In a spread of a plan each job has room for its WCET, windows along an edge from another processor do not overlap, and the
/// cells of the plan still fit.
pub fn spread_leaves_room()
    ensures { (plan : PlanView) (placement : Placement) → IsPlan plan → IsSpread plan placement → LeavesRoom plan placement }
{}

/// The jobs of a spread of a plan keep what those of the plan do.
pub fn spread_plans_keep_facts()
    ensures { (plan : PlanView) (horizon : AnyHorizon) (placement : Placement) → IsPlan plan → IsHorizon plan horizon → IsSpread plan placement →
        HasPlanFacts (constants_on plan placement horizon) }
{
    plans_keep_facts();
}

/// A list of events that is legal where the tasks are spread is a gated list of the plan: so each of its reads finds its instance,
/// and no write replaces an instance that a horizon job has still to read. On a processor priority brings the producer first; across
/// processors deadlines do.
pub fn spread_list_is_gated()
    ensures { (plan : PlanView) (horizon : AnyHorizon) (placement : Placement) → IsPlan plan → IsHorizon plan horizon → IsSpread plan placement →
        (events : List AnyEvent) → IsLegal (constants_on plan placement horizon) (opening (constants_on plan placement horizon)) events →
        IsGated (constants_of plan horizon) (opening (constants_of plan horizon)) events }
{
    plans_keep_facts();
    spread_plans_keep_facts();
    legal_list_is_gated();
}

/// The tasks' processors determine a spread: two spreads with the same ones have the same constants of a run.
pub fn spreads_are_one()
    ensures { (plan : PlanView) (horizon : AnyHorizon) (a b : Placement) → IsSpread plan a → IsSpread plan b → a.processors ≡ b.processors →
        constants_on plan a horizon ≡ constants_on plan b horizon }
{}

/// Each text of processors gives a plan its spread, or has a fault. Want of memory is no fault of a text.
pub fn placements_or_faults_exist()
    ensures { (plan : PlanView) → IsPlan plan → (text : List ℕ) →
        ((placement : Placement) × (processors_of (task_names plan) text ≡ Ok placement.processors) × IsSpread plan placement)
        ⊎ ((fault : AnyFault) × (fault ≢ faults.Memory) × (processors_of (task_names plan) text ≡ Err fault)) }
{
    spreads_exist();
}

/// Each spread of a plan has a dispatched list in each of its horizons, and that is legal and complete.
pub fn spread_plans_are_dispatched()
    ensures { (plan : PlanView) (horizon : AnyHorizon) (placement : Placement) → IsPlan plan → IsHorizon plan horizon → IsSpread plan placement →
        (events : List AnyEvent) × IsDispatched (constants_on plan placement horizon) (opening (constants_on plan placement horizon)) events
        × IsLegal (constants_on plan placement horizon) (opening (constants_on plan placement horizon)) events
        × IsComplete (constants_on plan placement horizon) (after_events (constants_on plan placement horizon) (opening (constants_on plan placement horizon)) events) }
{
    spread_plans_keep_facts();
    events_are_decided();
    plans_are_dispatched();
}
