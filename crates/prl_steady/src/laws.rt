//! Laws of the run by earliest deadline first over all jobs of a plan.

ghost use Rattle.std.specs.Prelude.{◌≡◌, ◌+◌, ◌<◌, ◌≤◌, ℕ, Option, length};
ghost use Rattle.prl_plan.specs.Vocabulary.{constants_of, deadline_at, sum_below, task_at, IsHorizon, IsPlan, PlanView};
ghost use Rattle.prl_plan.specs.declared.horizons.Horizon.{Horizon};
ghost use Rattle.prl_overlaps.specs.Demand.{wcets_of};
ghost use Rattle.prl_edf.specs.EdfRuns.{IsPlainRun};
ghost use Rattle.prl_edf.specs.Outcomes.{IsFeasibleRun};
ghost use Rattle.prl_edf.specs.Pieces.{run_of};
ghost use Rattle.prl_edf.specs.TimedRuns.{units_before};
ghost use Rattle.prl_edf.specs.declared.runs.Timed.{Timed};
ghost use Rattle.prl_responses.specs.Responses.{IsTimesOf};
ghost use Rattle.prl_responses.specs.declared.responses.Times.{Times};
ghost use Rattle.prl_table.specs.Made.{cut_from, later, run_until};
ghost use Rattle.prl_forever.specs.Answers.{IsAnswer};
ghost use Rattle.prl_forever.specs.Forever.{ServesForEver};
ghost use Rattle.prl_forever.specs.declared.deciding.ForEver.TheVariants as answers;
ghost use Rattle.prl_steady.specs.Endless.{IsEndlessRun};
ghost use Rattle.prl_steady.specs.Shares.{sum_within, told_until};
ghost use Rattle.prl_steady.specs.Times.{IsTimesForEver};

use prl_edf::{feasibility, plain_run_is_one};
use prl_forever::served_for_ever;
use prl_plan::{horizon_jobs_are_counted, plans_keep_facts};

/// A plan that is served for ever has exactly one endless run. In it each job has its WCET by its deadline; it begins as the
/// plain run of each horizon does; and after all tasks have started it repeats with the hyperperiod.
pub fn endless_runs()
    ensures some { (plan : PlanView) → IsPlan plan → ServesForEver plan → (run : ℕ → Option (ℕ × ℕ)) × IsEndlessRun plan run }
    ensures one { (plan : PlanView) → IsPlan plan → (run other : ℕ → Option (ℕ × ℕ)) → IsEndlessRun plan run → IsEndlessRun plan other → (t : ℕ) → run t ≡ other t }
    ensures met { (plan : PlanView) → IsPlan plan → ServesForEver plan → (run : ℕ → Option (ℕ × ℕ)) → IsEndlessRun plan run → (i n : ℕ) → i < length plan.graph.tasks →
        units_before run (deadline_at plan i n) i n ≡ (task_at plan.graph i).wcet }
    ensures begins { (plan : PlanView) → IsPlan plan → ServesForEver plan → (run : ℕ → Option (ℕ × ℕ)) → IsEndlessRun plan run →
        (horizon : Horizon) → IsHorizon plan horizon → (plain : ℕ → Option (ℕ × ℕ)) → IsPlainRun (constants_of plan horizon) (wcets_of plan) plain →
        (t : ℕ) → t < horizon.until → plain t ≡ run t }
    ensures repeats { (plan : PlanView) → IsPlan plan → ServesForEver plan → (run : ℕ → Option (ℕ × ℕ)) → IsEndlessRun plan run →
        (t : ℕ) → cut_from plan ≤ t → later plan (run t) ≡ run (t + plan.graph.hyper) }
{
    feasibility();
    horizon_jobs_are_counted();
    plain_run_is_one();
    plans_keep_facts();
    served_for_ever();
}

/// The worst response and the least slack of a task in the run up to the second hyperperiod after all tasks have started are
/// those over all jobs for ever.
pub fn times_last()
    ensures { (plan : PlanView) → IsPlan plan → ServesForEver plan → (horizon : Horizon) → IsHorizon plan horizon → horizon.until ≡ run_until plan →
        (timed : Timed) → IsFeasibleRun (constants_of plan horizon) (wcets_of plan) timed → (i : ℕ) → i < length plan.graph.tasks →
        (times : Option Times) → IsTimesOf plan.graph (run_of timed.pieces) i times → IsTimesForEver plan i times }
{
    feasibility();
    horizon_jobs_are_counted();
    plain_run_is_one();
    plans_keep_facts();
    served_for_ever();
}

/// What an overload for ever asks is the sum of what the tasks' jobs within it cost.
pub fn overloads_are_sums()
    ensures { (plan : PlanView) (from to demand : ℕ) → IsAnswer plan (answers.Overload from to demand) →
        sum_below (sum_within plan (wcets_of plan) (told_until plan) from to) (length plan.graph.tasks) ≡ demand }
{}
