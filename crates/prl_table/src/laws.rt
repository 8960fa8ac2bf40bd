//! Laws of tables that are cut out of runs.

ghost use Rattle.std.specs.Prelude.{◌≡◌, ◌≢◌, ◌+◌, ◌*◌, ◌<◌, ◌≤◌, ◌⊎◌, ℕ, List, Option, length};
ghost use Rattle.std.specs.List.Sorted.{IsPermutation};
ghost use Rattle.prl_plan.specs.Vocabulary.{constants_of, IsHorizonJob, PlanView, IsPlan};
ghost use Rattle.prl_plan.specs.Vocabulary.{release_at};
ghost use Rattle.prl_plan.specs.declared.horizons.Horizon.{Horizon};
ghost use Rattle.prl_edf.specs.Vocabulary.{IsEdfRun, MeetsAllWindows, wcets_of};
ghost use Rattle.prl_tables.specs.Tables.{classes, IsGood};
ghost use Rattle.prl_overlaps.specs.declared.entries.Entry.{Entry as AnyEntry};
ghost use Rattle.prl_table.specs.declared.making.MakeFault.{MakeFault as AnyFault};
ghost use Rattle.prl_table.specs.declared.making.MakeFault.TheVariants as faults;
ghost use Rattle.prl_table.specs.MakeFaults.{IsMade, IsMakeFault};
ghost use Rattle.prl_table.specs.code.MakeLaws.{MakeLaws};
ghost use Rattle.prl_table.specs.Made.{Run, cut_from, cut_to, run_until, IsRun, IsTimed, IsEdf, IsSteady, IsSteadyRun, IsCut};

use prl_edf::{feasibility, verdicts_are_one, verdicts_exist};
use prl_plan::{horizon_jobs_are_counted, horizons_end_one_way, plans_keep_facts};

/// A timed run by earliest deadlines that meets all windows is such a run.
pub fn edf_run_is_run()
    ensures { (plan : PlanView) (until : ℕ) (run : Run) → IsTimed plan until run → IsEdf plan until run → IsRun plan until run }
{}

/// The pieces of a steady run by earliest deadlines in one hyperperiod are a good table.
pub fn cut_of_steady_run_is_good()
    ensures { (plan : PlanView) → IsPlan plan → (until : ℕ) (run : Run) → IsRun plan until run → (start bound : ℕ) → IsSteady plan run start →
        ((i c : ℕ) → i < length plan.graph.tasks → c < classes plan.graph i → release_at plan i c < start) →
        ((i m : ℕ) → i < length plan.graph.tasks → release_at plan i m < start + plan.graph.hyper → IsHorizonJob plan.graph until i m) →
        start + plan.graph.hyper ≤ bound * plan.graph.hyper →
        (entries : List AnyEntry) → IsCut plan run start bound entries → IsGood plan entries }
{}

/// What is cut out of a run by earliest deadline first that meets all windows, in a hyperperiod after
/// all tasks have started that the next one repeats, is a good table, in whatever order.
pub fn made_table_is_good()
    ensures { (plan : PlanView) (horizon : Horizon) → IsPlan plan → horizon.until ≡ run_until plan → (run : ℕ → Option (ℕ × ℕ)) →
        IsEdfRun (constants_of plan horizon) (wcets_of plan) run → MeetsAllWindows (constants_of plan horizon) (wcets_of plan) run →
        IsSteadyRun plan run → (entries : List AnyEntry) → IsPermutation (cut_to plan run (cut_from plan) plan.graph.hyper) entries → IsGood plan entries }
{
    horizon_jobs_are_counted();
}

/// The laws of the crates below on which the next two rest.
fn make_laws()
    ensures { MakeLaws }
{
    horizons_end_one_way();
    plans_keep_facts();
    feasibility();
    verdicts_are_one();
}

/// Of a plan a table is made or there is a fault, not both; and there is one fault. Want of memory is none.
pub fn makes_end_one_way()
    ensures not_both { (plan : PlanView) → IsPlan plan → (entries : List AnyEntry) → IsMade plan entries → (fault : AnyFault) → fault ≢ faults.Memory →
        IsMakeFault plan fault → ⊥ }
    ensures one { (plan : PlanView) → IsPlan plan → (a b : AnyFault) → a ≢ faults.Memory → b ≢ faults.Memory →
        IsMakeFault plan a → IsMakeFault plan b → a ≡ b }
{
    make_laws();
}

/// One table is made of a plan.
pub fn made_tables_are_one()
    ensures { (plan : PlanView) → IsPlan plan → (a b : List AnyEntry) → IsMade plan a → IsMade plan b → a ≡ b }
{
    make_laws();
    made_table_is_good();
}

/// Of each plan a table is made or there is a fault. Want of memory is none.
pub fn makes_or_faults_exist()
    ensures { (plan : PlanView) → IsPlan plan →
        ((entries : List AnyEntry) × IsMade plan entries) ⊎ ((fault : AnyFault) × (fault ≢ faults.Memory) × IsMakeFault plan fault) }
{
    horizons_end_one_way();
    plans_keep_facts();
    verdicts_exist();
}
