//! Laws of values by instance, as functions that do nothing: the contract of each is the law.

ghost use Rattle.std.specs.Prelude.{◌≡◌, ◌+◌, ◌<◌, ℕ, List, Some, length, map, slice_index};
ghost use Rattle.prl_base.specs.Values.{type_of};
ghost use Rattle.prl_base.specs.declared.values.Value.{Value};
ghost use Rattle.prl_body.specs.Bodies.{register_types};
ghost use Rattle.prl_body.specs.declared.bodies.CheckedBody.{CheckedBody};
ghost use Rattle.prl_flow.specs.Vocabulary.{registers_before, Rows};
ghost use Rattle.prl_plan.specs.Vocabulary.{constants_of, task_at, IsHorizonJob, PlanView, IsPlan};
ghost use Rattle.prl_plan.specs.Vocabulary.{edge_at, HasJob, ExecState, next_action, after_action};
ghost use Rattle.prl_plan.specs.Vocabulary.{IsTagged};
ghost use Rattle.prl_plan.specs.declared.events.Action.{Action};
ghost use Rattle.prl_plan.specs.declared.horizons.Horizon.{Horizon};
ghost use Rattle.prl_values.specs.JobValues.{JobValues, AreJobValues, job_values, value_on, reads_of_job, body_of_task};
ghost use Rattle.prl_values.specs.Fitting.{FitsTask, HaveTaskBodies, HaveTypedRows, port_types};
ghost use Rattle.prl_values.specs.BodyRuns.{steps_made, runs_next};

use prl_plan::actions_are_as_defined;

/// Each plan has values by instance up to a date, for any bodies and rows.
pub fn job_values_exist()
    ensures { (plan : PlanView) → IsPlan plan →
        (bodies : List CheckedBody) (rows : Rows) (until : ℕ) →
        AreJobValues plan.graph bodies rows until (job_values plan.graph bodies rows until) }
{}

/// Values by instance are one: any two agree in what each horizon job gives, in what it reads, and
/// on each edge.
pub fn job_values_are_one()
    ensures given { (plan : PlanView) → IsPlan plan →
        (bodies : List CheckedBody) (rows : Rows) (until : ℕ) (v w : JobValues) →
        AreJobValues plan.graph bodies rows until v →
        AreJobValues plan.graph bodies rows until w →
        (i n : ℕ) → IsHorizonJob plan.graph until i n → v i n ≡ w i n }
    ensures reads { (plan : PlanView) → IsPlan plan →
        (bodies : List CheckedBody) (rows : Rows) (until : ℕ) (v w : JobValues) →
        AreJobValues plan.graph bodies rows until v →
        AreJobValues plan.graph bodies rows until w →
        (i n : ℕ) → IsHorizonJob plan.graph until i n →
        reads_of_job plan.graph v i n ≡ reads_of_job plan.graph w i n }
    ensures edges { (plan : PlanView) → IsPlan plan →
        (bodies : List CheckedBody) (rows : Rows) (until : ℕ) (v w : JobValues) →
        AreJobValues plan.graph bodies rows until v →
        AreJobValues plan.graph bodies rows until w →
        (e n : ℕ) → e < length plan.graph.edges →
        IsHorizonJob plan.graph until (edge_at plan.graph e).to.0 n →
        value_on v (edge_at plan.graph e) n ≡ value_on w (edge_at plan.graph e) n }
{}

/// Where each node task has a body that fits it and the rows have their types, each horizon job
/// reads on each edge a value of the edge's type, and the registers of a node before its job have
/// their types.
pub fn job_values_are_typed()
    ensures edges { (plan : PlanView) → IsPlan plan →
        (bodies : List CheckedBody) (rows : Rows) (until : ℕ) (v : JobValues) →
        HaveTaskBodies plan.graph bodies → HaveTypedRows plan.graph until rows →
        AreJobValues plan.graph bodies rows until v →
        (e n : ℕ) → e < length plan.graph.edges →
        IsHorizonJob plan.graph until (edge_at plan.graph e).to.0 n →
        (value : Value) × (value_on v (edge_at plan.graph e) n ≡ Some value) ×
        (type_of value ≡ (edge_at plan.graph e).ty) }
    ensures reads { (plan : PlanView) → IsPlan plan →
        (bodies : List CheckedBody) (rows : Rows) (until : ℕ) (v : JobValues) →
        HaveTaskBodies plan.graph bodies → HaveTypedRows plan.graph until rows →
        AreJobValues plan.graph bodies rows until v →
        (i n : ℕ) → IsHorizonJob plan.graph until i n →
        map type_of (reads_of_job plan.graph v i n) ≡ port_types plan.graph.edges i }
    ensures registers { (plan : PlanView) → IsPlan plan →
        (bodies : List CheckedBody) (rows : Rows) (until : ℕ) (v : JobValues) →
        HaveTaskBodies plan.graph bodies → HaveTypedRows plan.graph until rows →
        AreJobValues plan.graph bodies rows until v →
        (i n : ℕ) → IsHorizonJob plan.graph until i n → (body : CheckedBody) →
        body_of_task bodies (task_at plan.graph i) ≡ Some body →
        FitsTask plan.graph i body →
        map type_of (registers_before body (reads_of_job plan.graph v i) n)
        ≡ register_types body }
{}

/// A body runs once a job: each action of the task makes a step where it is the last of its job's
/// reads, or where it is the first and there are none, and no other does. Where no job is open
/// there are as many steps as ended jobs.
pub fn act_runs_body_once()
    ensures steps { (plan : PlanView) (h : Horizon) (s : ExecState) →
        IsTagged (constants_of plan h) s → (i : ℕ) → HasJob (constants_of plan h) s i →
        (action : Action) → next_action (constants_of plan h) s i ≡ action →
        steps_made plan (after_action s i action) i ≡ steps_made plan s i + runs_next plan s i }
    ensures idle { (plan : PlanView) (s : ExecState) (i : ℕ) → slice_index s.places i ≡ 0 →
        steps_made plan s i ≡ slice_index s.ended i }
{
    actions_are_as_defined();
}
