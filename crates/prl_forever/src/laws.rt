//! Laws of one processor over all horizons.

ghost use Rattle.std.specs.Prelude.{◌≡◌, ◌≢◌, ◌+◌, ◌*◌, ◌<◌, ◌≤◌, ◌⊎◌, ℕ, List, Option};
ghost use Rattle.prl_base.specs.declared.numbers.TaskNo.{TaskNo as AnyTask};
ghost use Rattle.prl_plan.specs.Vocabulary.{constants_of, IsEnd, IsHorizon, PlanView, IsPlan};
ghost use Rattle.prl_plan.specs.declared.horizons.Horizon.{Horizon};
ghost use Rattle.prl_overlaps.specs.Demand.{wcets_of, IsOverloaded};
ghost use Rattle.prl_overlaps.specs.declared.entries.Entry.{Entry as AnyEntry};
ghost use Rattle.prl_edf.specs.EdfRuns.{IsEdfRun, IsPlainRun};
ghost use Rattle.prl_edf.specs.MetWindows.{MeetsAllWindows};
ghost use Rattle.prl_edf.specs.TimedRuns.{AreUnits, IsTimedRun};
ghost use Rattle.prl_tables.specs.Tables.{IsGood};
ghost use Rattle.prl_table.specs.Made.{greatest_start, run_until, IsSteadyRun};
ghost use Rattle.prl_table.specs.MakeFaults.{IsMade, IsMakeFault};
ghost use Rattle.prl_table.specs.declared.making.MakeFault.TheVariants as faults;
ghost use Rattle.prl_forever.specs.Answers.{IsAnswer, IsAnswerFault};
ghost use Rattle.prl_forever.specs.declared.deciding.ForEver.{ForEver as AnyAnswer};
ghost use Rattle.prl_forever.specs.declared.deciding.ForEver.TheVariants as answers;
ghost use Rattle.prl_forever.specs.declared.deciding.ForEverFault.{ForEverFault as AnyAnswerFault};
ghost use Rattle.prl_forever.specs.declared.deciding.ForEverFault.TheVariants as no_answers;
ghost use Rattle.prl_forever.specs.Forever.{load_of, AreStartedBy, Serves, ServesForEver};
ghost use Rattle.prl_forever.specs.TableRuns.{table_run};

use prl_edf::{feasibility, verdicts_exist};
use prl_plan::{horizon_jobs_are_counted, horizons_end_one_way, plans_keep_facts};
use prl_table::{made_table_is_good, makes_or_faults_exist};
use prl_tables::pieces_are_short;

/// Where the jobs of a hyperperiod cost no more than it has, and one processor serves the jobs that are
/// released within two hyperperiods after all tasks have started, it serves those of each horizon.
/// Where they cost more, a horizon is overloaded from its beginning on.
pub fn served_for_ever()
    ensures enough { (plan : PlanView) → IsPlan plan → load_of plan ≤ plan.graph.hyper → (start : ℕ) → AreStartedBy plan start →
        (horizon : Horizon) → start + 2 * plan.graph.hyper ≤ horizon.until → Serves plan horizon → ServesForEver plan }
    ensures heavy { (plan : PlanView) → IsPlan plan → plan.graph.hyper < load_of plan → (start : ℕ) → AreStartedBy plan start →
        (horizon : Horizon) → start + (start + 1) * plan.graph.hyper ≤ horizon.until →
        IsOverloaded (constants_of plan horizon) (wcets_of plan) 0 (start + (start + 1) * plan.graph.hyper) }
    ensures only { (plan : PlanView) → IsPlan plan → ServesForEver plan → load_of plan ≤ plan.graph.hyper }
{
    horizon_jobs_are_counted();
}

/// A good table, again in each hyperperiod, is a timed run of each horizon, in which no job has more than
/// its WCET, and each has it all within its window.
pub fn good_table_runs()
    ensures timed { (plan : PlanView) → IsPlan plan → (entries : List AnyEntry) → IsGood plan entries →
        (horizon : Horizon) → IsEnd plan horizon.until horizon.end →
        IsTimedRun (constants_of plan horizon) (wcets_of plan) (table_run plan entries horizon) }
    ensures met { (plan : PlanView) → IsPlan plan → (entries : List AnyEntry) → IsGood plan entries →
        (horizon : Horizon) → MeetsAllWindows (constants_of plan horizon) (wcets_of plan) (table_run plan entries horizon) }
{
    horizon_jobs_are_counted();
    pieces_are_short();
}

/// So one processor serves a plan for ever that has a good table, and the jobs of a hyperperiod cost no
/// more than it has.
pub fn good_table_serves_for_ever()
    ensures serves { (plan : PlanView) → IsPlan plan → (entries : List AnyEntry) → IsGood plan entries → ServesForEver plan }
    ensures load { (plan : PlanView) → IsPlan plan → (entries : List AnyEntry) → IsGood plan entries → load_of plan ≤ plan.graph.hyper }
{
    feasibility();
    pieces_are_short();
    served_for_ever();
}

/// Where the jobs of a hyperperiod cost no more than it has, the plain run that meets all windows up to
/// the end of the long run goes on as it did a hyperperiod before, in the one that is cut out.
pub fn light_runs_are_steady()
    ensures { (plan : PlanView) → IsPlan plan → load_of plan ≤ plan.graph.hyper → (horizon : Horizon) → IsHorizon plan horizon →
        horizon.until ≡ run_until plan → (run : ℕ → Option (ℕ × ℕ)) → IsPlainRun (constants_of plan horizon) (wcets_of plan) run →
        MeetsAllWindows (constants_of plan horizon) (wcets_of plan) run → IsSteadyRun plan run }
{
    horizon_jobs_are_counted();
    plans_keep_facts();
}

/// What the making of a table tells. Where a table is made, one processor serves the plan for ever. Where
/// an overload is told, it does not; where an unsteady run is told, the jobs of a hyperperiod cost more
/// than it has; and then no table is good. Where one processor serves for ever, a table is made, if the
/// long run is within the limits.
pub fn tables_tell_for_ever()
    ensures made { (plan : PlanView) → IsPlan plan → (entries : List AnyEntry) → IsMade plan entries → ServesForEver plan }
    ensures overload { (plan : PlanView) → IsPlan plan → (from to demand : ℕ) → IsMakeFault plan (faults.Overload from to demand) →
        (ServesForEver plan → ⊥) × ((entries : List AnyEntry) → IsGood plan entries → ⊥) }
    ensures unsteady { (plan : PlanView) → IsPlan plan → (at : ℕ) (first second : Option (AnyTask × ℕ)) →
        IsMakeFault plan (faults.Unsteady at first second) → (plan.graph.hyper < load_of plan) × ((entries : List AnyEntry) → IsGood plan entries → ⊥) }
    ensures some { (plan : PlanView) → IsPlan plan → ServesForEver plan → run_until plan ≤ 2147483647 →
        (horizon : Horizon) → IsHorizon plan horizon → horizon.until ≡ run_until plan → (entries : List AnyEntry) × IsMade plan entries }
{
    good_table_serves_for_ever();
    horizons_end_one_way();
    light_runs_are_steady();
    made_table_is_good();
    makes_or_faults_exist();
    served_for_ever();
}

/// Where one processor serves a plan for ever, each run by earliest deadline first of each horizon meets
/// all windows in which no job has more units than its WCET. No task starts after the greatest start.
pub fn served_plans_meet_all_windows()
    ensures met { (plan : PlanView) → IsPlan plan → ServesForEver plan → (horizon : Horizon) → IsHorizon plan horizon →
        (units : ℕ → ℕ → ℕ) (run : ℕ → Option (ℕ × ℕ)) → AreUnits (constants_of plan horizon) (wcets_of plan) units →
        IsEdfRun (constants_of plan horizon) units run → MeetsAllWindows (constants_of plan horizon) units run }
    ensures started { (plan : PlanView) → AreStartedBy plan (greatest_start plan.graph.tasks) }
{
    feasibility();
    plans_keep_facts();
}

/// What is found is right: where it is not that one processor serves for ever, it does not. Of each plan
/// something is found, or the horizon passes a limit.
pub fn answers_tell_for_ever()
    ensures no { (plan : PlanView) → IsPlan plan → (answer : AnyAnswer) → IsAnswer plan answer → answer ≢ answers.Served → ServesForEver plan → ⊥ }
    ensures some { (plan : PlanView) → IsPlan plan →
        ((answer : AnyAnswer) × IsAnswer plan answer) ⊎ ((fault : AnyAnswerFault) × (fault ≢ no_answers.Memory) × IsAnswerFault plan fault) }
{
    horizons_end_one_way();
    plans_keep_facts();
    served_for_ever();
    verdicts_exist();
}
