//! Laws of machines, as functions that do nothing: the contract of each is the law.

ghost use Rattle.std.specs.Prelude.{ℕ, List};
ghost use Rattle.prl_base.specs.declared.values.Value.{Value};
ghost use Rattle.prl_track.specs.Machine.{Drives};
ghost use Rattle.prl_track.specs.declared.seen.Seen.{Seen};
ghost use Rattle.prl_plan.specs.Vocabulary.{HasPlanFacts, IsHorizon, IsPlan, KeepsLegal, IsSound};
ghost use Rattle.prl_plan.specs.declared.events.Event.{Event};
ghost use Rattle.prl_values.specs.Fitting.{HaveTaskBodies, HaveTypedRows};
ghost use Rattle.prl_core.specs.Cores.{CoreView, constants, Tells, AreOutputs};
ghost use Rattle.prl_core.specs.code.Laws.{HasCoreLaws};

use prl_plan::{free_events_keep_tags, horizon_jobs_are_counted};
use prl_values::{job_values_are_typed, job_values_exist, jobs_have_work_laws};

/// The laws of plans, of their states and of values by instance, over what is seen of a machine.
pub(crate) fn machine_laws()
    ensures { (core : CoreView) → IsPlan core.plan → IsHorizon core.plan core.horizon → HasPlanFacts (constants core) → HaveTaskBodies core.plan.graph core.bodies →
        HaveTypedRows core.plan.graph core.horizon.until core.rows → HasCoreLaws core }
{
    jobs_have_work_laws();
    horizon_jobs_are_counted();
    free_events_keep_tags();
    job_values_exist();
    job_values_are_typed();
}

/// In each sound state of a run something is told of each event that keeps the rules, and what the ended jobs of an actuator's
/// task have read is there, by instance.
pub fn legal_events_tell()
    ensures told { (core : CoreView) → IsPlan core.plan → IsHorizon core.plan core.horizon → HasPlanFacts (constants core) → HaveTaskBodies core.plan.graph core.bodies →
        HaveTypedRows core.plan.graph core.horizon.until core.rows → IsSound (constants core) core.state →
        (event : Event) → KeepsLegal (constants core) core.state event → (seen : Seen) × Tells core event seen }
    ensures outputs { (core : CoreView) → IsPlan core.plan → IsHorizon core.plan core.horizon → HasPlanFacts (constants core) → HaveTaskBodies core.plan.graph core.bodies →
        HaveTypedRows core.plan.graph core.horizon.until core.rows → IsSound (constants core) core.state →
        (i k : ℕ) → Drives core.plan i k → (values : List Value) × AreOutputs core i values }
{
    machine_laws();
}
