//! Laws of replays, as functions that do nothing: the contract of each is the law, over the definitions alone.

ghost use Rattle.std.specs.Prelude.{◌≡◌, ◌⊎◌, ℕ, List, length};
ghost use Rattle.std.specs.List.{AllByRecursion};
ghost use Rattle.prl_base.specs.declared.operators.Clock.{Clock};
ghost use Rattle.prl_base.specs.declared.values.Value.{Value};
ghost use Rattle.prl_body.specs.Bodies.{IsWellTyped};
ghost use Rattle.prl_body.specs.declared.bodies.CheckedBody.{CheckedBody};
ghost use Rattle.prl_track.specs.declared.seen.Seen.{Seen};
ghost use Rattle.prl_flow.specs.Vocabulary.{AreUpTo, HaveBodies, FlatProgram, IsFlat, Rows};
ghost use Rattle.prl_flow.specs.Vocabulary.{AreClocks, Solves};
ghost use Rattle.prl_flow.specs.declared.programs.OutFlow.{OutFlow};
ghost use Rattle.prl_graph.specs.TaskGraphs.{AreSmallClocks, IsGraphOf};
ghost use Rattle.prl_core.specs.Cores.{CoreView, constants, opened, opened_on};
ghost use Rattle.prl_replay.specs.Outputs.{out_flows};
ghost use Rattle.prl_plan.specs.Vocabulary.{IsHorizon, Placement, constants_of, constants_on};
ghost use Rattle.prl_plan.specs.Vocabulary.{HasPlanFacts, PlanView, IsPlan, IsLegal, IsComplete};
ghost use Rattle.prl_plan.specs.Vocabulary.{opening, after_events};
ghost use Rattle.prl_plan.specs.declared.events.Event.{Event};
ghost use Rattle.prl_plan.specs.declared.horizons.Horizon.{Horizon};
ghost use Rattle.prl_replay.specs.Replays.{IsTrace, IsRunFault, IsReplayFault, IsWholeText, AreFlowsBelow, after_all};
ghost use Rattle.prl_replay.specs.declared.faults.ReplayFault.{ReplayFault as AnyFault};
ghost use Rattle.prl_values.specs.Fitting.{HaveTaskBodies, HaveTypedRows};

use prl_core::legal_events_tell;
use prl_graph::solutions_give_job_values;
use prl_plan::{events_are_decided, plans_keep_facts};
use prl_values::{job_values_are_one, job_values_exist};

/// A text comes to one end: its events are legal and complete, or there is one first fault. So does a list of events.
pub fn replays_end_one_way()
    ensures end { (core : CoreView) (text : List ℕ) → IsWholeText core text ⊎ ((fault : AnyFault) × IsReplayFault core text fault) }
    ensures not_both { (core : CoreView) (text : List ℕ) (fault : AnyFault) → IsWholeText core text → IsReplayFault core text fault → ⊥ }
    ensures one_fault { (core : CoreView) (text : List ℕ) (a b : AnyFault) → IsReplayFault core text a → IsReplayFault core text b → a ≡ b }
    ensures whole { (core : CoreView) (events : List Event) (fault : AnyFault) → IsLegal (constants core) core.state events →
        IsComplete (constants core) (after_all core events).state → IsRunFault core events fault → ⊥ }
{
    events_are_decided();
}

/// Each legal and complete list of events has a replay, wherever the tasks run: something is told of each event, and the
/// actuators' flows are there.
pub fn placed_lists_are_replayed()
    ensures { (plan : PlanView) (placement : Placement) (bodies : List CheckedBody) (rows : Rows) (horizon : Horizon) → IsPlan plan → IsHorizon plan horizon →
        HasPlanFacts (constants_on plan placement horizon) → HaveTaskBodies plan.graph bodies → HaveTypedRows plan.graph horizon.until rows →
        (events : List Event) → IsLegal (constants_on plan placement horizon) (opening (constants_on plan placement horizon)) events →
        IsComplete (constants_on plan placement horizon) (after_events (constants_on plan placement horizon) (opening (constants_on plan placement horizon)) events) →
        (reads : List Seen) × (outs : List OutFlow) × IsTrace (opened_on plan placement bodies rows horizon) events reads outs }
{
    legal_events_tell();
}

/// So does each such list where all tasks run on one processor.
pub fn whole_lists_are_replayed()
    ensures { (plan : PlanView) (bodies : List CheckedBody) (rows : Rows) (horizon : Horizon) → IsPlan plan → IsHorizon plan horizon →
        HaveTaskBodies plan.graph bodies → HaveTypedRows plan.graph horizon.until rows →
        (events : List Event) → IsLegal (constants_of plan horizon) (opening (constants_of plan horizon)) events →
        IsComplete (constants_of plan horizon) (after_events (constants_of plan horizon) (opening (constants_of plan horizon)) events) →
        (reads : List Seen) × (outs : List OutFlow) × IsTrace (opened plan bodies rows horizon) events reads outs }
{
    plans_keep_facts();
    placed_lists_are_replayed();
}

/// On the plan of a flat program, what the ended jobs of the actuators have read are the flows of main's outputs in each solution
/// of the program for the machine's bodies and rows, where it is as much as these flows have before the horizon's date.
pub fn actuators_get_the_outputs()
    ensures { (p : FlatProgram) (clocks : List Clock) (flows : List (List Value)) (core : CoreView) (outs : List OutFlow) →
        IsFlat p → AreClocks p clocks → AreSmallClocks clocks → HaveBodies p core.bodies → AllByRecursion IsWellTyped core.bodies →
        Solves p clocks core.bodies core.rows core.horizon.until flows → IsGraphOf p clocks core.plan.graph → IsPlan core.plan →
        AreFlowsBelow core (length core.plan.graph.tasks) outs → AreUpTo core.horizon.until outs →
        outs ≡ out_flows p.out_devices clocks flows 0 p.outs }
{
    job_values_exist();
    job_values_are_one();
    solutions_give_job_values();
}
