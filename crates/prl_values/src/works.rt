//! What workers rest on, as a function that does nothing: its contract is the law.

ghost use Rattle.std.specs.Prelude.{ℕ, List};
ghost use Rattle.prl_body.specs.declared.bodies.CheckedBody.{CheckedBody};
ghost use Rattle.prl_flow.specs.Rows.{Rows};
ghost use Rattle.prl_plan.specs.Vocabulary.{IsHorizon, IsPlan, PlanView};
ghost use Rattle.prl_plan.specs.declared.horizons.Horizon.{Horizon};
ghost use Rattle.prl_values.specs.Fitting.{HaveTaskBodies, HaveTypedRows};
ghost use Rattle.prl_values.specs.Workers.{HaveWorkLaws};

use crate::laws::{job_values_are_typed, job_values_exist};
use prl_plan::{actions_are_as_defined, horizon_jobs_are_counted};
use prl_words::horizons_are_small;

/// The jobs of a run have what their workers rest on, where each node task has a body that fits it and each sensor its rows.
pub fn jobs_have_work_laws()
    ensures { (plan : PlanView) (horizon : Horizon) (bodies : List CheckedBody) (rows : Rows) → IsPlan plan → IsHorizon plan horizon →
        HaveTaskBodies plan.graph bodies → HaveTypedRows plan.graph horizon.until rows → HaveWorkLaws plan horizon bodies rows }
{
    actions_are_as_defined();
    horizon_jobs_are_counted();
    horizons_are_small();
    job_values_are_typed();
    job_values_exist();
}
