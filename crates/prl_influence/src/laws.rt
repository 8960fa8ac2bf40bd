//! Laws of what a job's value depends on, as functions that do nothing: the contract of each is the law.

ghost use Rattle.std.specs.Prelude.{◌≡◌, ◌<◌, ◌≤◌, ℕ, List, [], length};
ghost use Rattle.prl_body.specs.declared.bodies.CheckedBody.{CheckedBody};
ghost use Rattle.prl_flow.specs.Rows.{Rows};
ghost use Rattle.prl_plan.specs.declared.graphs.TaskGraph.{TaskGraph};
ghost use Rattle.prl_plan.specs.Vocabulary.{IsPlan, IsWellFormed, PlanView};
ghost use Rattle.prl_values.specs.JobValues.{job_values};
ghost use Rattle.prl_ages.specs.Reaching.{IsFreshest};
ghost use Rattle.prl_influence.specs.Influence.{AgreeOnFeeding, AgreeUpToFreshest, Feeds};

use prl_ages::some_instance_is_the_freshest;

/// A job gives the same for two inputs that agree on the samples that feed it.
pub fn values_follow_what_feeds_them()
    ensures { (graph : TaskGraph) (bodies : List CheckedBody) (rows other : Rows) (until i n : ℕ) → AgreeOnFeeding graph rows other i n →
        job_values graph bodies rows until i n ≡ job_values graph bodies other until i n }
{}

/// What a task keeps in registers is not fresher than what reaches it at once.
pub fn nothing_fresher_feeds()
    ensures { (graph : TaskGraph) → IsWellFormed graph → (s m t n f : ℕ) → Feeds graph s m t n → IsFreshest graph [] s f t n → m ≤ f }
{}

/// A job gives the same for two inputs that agree, at each sensor, up to the latest sample that reaches the job: no later sample
/// shows.
pub fn values_show_no_later_samples()
    ensures { (plan : PlanView) → IsPlan plan → (bodies : List CheckedBody) (rows other : Rows) (until i n : ℕ) → i < length plan.graph.tasks →
        AgreeUpToFreshest plan.graph rows other i n → job_values plan.graph bodies rows until i n ≡ job_values plan.graph bodies other until i n }
{
    some_instance_is_the_freshest();
}
