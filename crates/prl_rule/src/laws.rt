//! Laws of halves and words, of what jobs read and give over a run, and of plans, as functions that
//! do nothing: the contract of each is the law.

ghost use Rattle.std.specs.Prelude.{◌≡◌, ◌/◌, ◌%◌, ◌^◌, ◌<◌, ℕ, Some};
ghost use Rattle.prl_base.specs.Values.{type_of, FitsValue, IsOfType};
ghost use Rattle.prl_base.specs.declared.values.Ty.{Ty};
ghost use Rattle.prl_base.specs.declared.values.Value.{Value};
ghost use Rattle.prl_base.specs.declared.numbers.EdgeNo.{EdgeNo};
ghost use Rattle.prl_plan.specs.declared.events.Action.TheVariants as actions;
ghost use Rattle.prl_plan.specs.declared.events.SlotNo.{SlotNo};
ghost use Rattle.prl_plan.specs.declared.walks.Operand.TheVariants as operands;
ghost use Rattle.prl_plan.specs.Vocabulary.{IsJob, IsPlan, action_at, edge_at, operand_of};
ghost use Rattle.prl_values.specs.JobValues.{value_on};
ghost use Rattle.prl_values.specs.Fitting.{HaveTaskBodies, HaveTypedRows};
ghost use Rattle.prl_rule.specs.declared.views.Constants.{Constants};
ghost use Rattle.prl_rule.specs.Halves.{AreHalves, high_half, low_half, tagged, value_of_halves};
ghost use Rattle.prl_rule.specs.Known.{job_values_of, run_of, values_of};
ghost use Rattle.prl_rule.specs.RunValues.{HasValueFacts};
ghost use Rattle.prl_rule.specs.PlanLaws.{PlanLaws};

use prl_plan::{
    actions_are_as_defined, free_events_keep_tags, free_list_leaves_tags, gated_list_keeps_halves,
    horizon_jobs_are_counted, replaced_instance_is_over, run_of_two_lists,
    tag_is_of_the_latest_instance,
};
use prl_values::{job_values_are_typed, job_values_exist};

/// The halves of a value give it back, and so does a value its halves.
pub fn halves_are_exact()
    ensures halves { (value : Value) → FitsValue value →
        AreHalves (type_of value) (low_half value) (high_half value) }
    ensures whole { (value : Value) → FitsValue value →
        value_of_halves (type_of value) (low_half value) (high_half value) ≡ value }
    ensures back { (ty : Ty) (low high : ℕ) → AreHalves ty low high →
        IsOfType ty (value_of_halves ty low high)
        × (low_half (value_of_halves ty low high) ≡ low)
        × (high_half (value_of_halves ty low high) ≡ high) }
{}

/// A word gives its tag and its half back, and these give the word.
pub fn words_are_exact()
    ensures unpacked { (tag half : ℕ) → half < 2 ^ 32 →
        (tagged tag half / 2 ^ 32 ≡ tag) × (tagged tag half % 2 ^ 32 ≡ half) }
    ensures packed { (word : ℕ) → tagged (word / 2 ^ 32) (word % 2 ^ 32) ≡ word }
{}

/// The values by instance of a plan hang together with its actions: where each node task has a body
/// that fits it and the rows have their types, each read completes the operand of its port, an
/// instance that is read has the type of its edge, and a body runs after all reads of its job.
pub fn run_values_keep_facts()
    ensures { (k : Constants) → IsPlan k.plan → HaveTaskBodies k.plan.graph k.bodies →
        HaveTypedRows k.plan.graph k.horizon.until k.sensors → HasValueFacts (run_of k) (values_of k) }
{
    horizon_jobs_are_counted();
    actions_are_as_defined();
    job_values_exist();
    job_values_are_typed();
}

/// The half that a job reads is of a cell of the edge that the action names: what is stored there of the instance is what the
/// job reads on this edge, which leads to this port of its task.
pub fn reads_are_of_their_edges()
    ensures { (k : Constants) → IsPlan k.plan → HaveTaskBodies k.plan.graph k.bodies →
        HaveTypedRows k.plan.graph k.horizon.until k.sensors → (i n place port : ℕ) (e : EdgeNo) (m : ℕ) (slot : SlotNo) →
        IsJob (run_of k) i n → action_at (run_of k) i n place ≡ actions.Read port e m slot →
        ((edge_at k.plan.graph e.0).to.0 ≡ i) × ((edge_at k.plan.graph e.0).port ≡ port) ×
        (operand_of (edge_at k.plan.graph e.0) n ≡ operands.From m) ×
        (value_on (job_values_of k) (edge_at k.plan.graph e.0) n ≡ Some ((values_of k).stored (slot.0 / 2) m)) }
{
    horizon_jobs_are_counted();
    actions_are_as_defined();
    job_values_exist();
    job_values_are_typed();
}

/// The laws of plans on which the steps rest.
pub fn plan_laws()
    ensures { PlanLaws }
{
    run_of_two_lists();
    free_events_keep_tags();
    gated_list_keeps_halves();
    tag_is_of_the_latest_instance();
    free_list_leaves_tags();
    replaced_instance_is_over();
}
