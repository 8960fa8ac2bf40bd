//! The laws of one processor: functions that do nothing and whose clauses say what always holds.

ghost use Rattle.std.specs.Prelude.{◌≡◌, ◌<◌, ◌≤◌, ℕ, List, Option};
ghost use Rattle.prl_plan.specs.Vocabulary.{IsJob, HasPlanFacts, IsHorizon, constants_of, PlanView};
ghost use Rattle.prl_plan.specs.Vocabulary.{IsPlan, RunConstants, opening, after_events, IsLegal};
ghost use Rattle.prl_plan.specs.Vocabulary.{IsComplete};
ghost use Rattle.prl_plan.specs.declared.events.Event.{Event};
ghost use Rattle.prl_plan.specs.declared.horizons.Horizon.{Horizon};
ghost use Rattle.prl_edf.specs.declared.analysis.Verdict.{Verdict};
ghost use Rattle.prl_edf.specs.declared.pieces.Piece.{Piece};
ghost use Rattle.prl_overlaps.specs.Demand.{sum_of_jobs, IsOverloaded, IsFirstOverload};
ghost use Rattle.prl_edf.specs.Pieces.{run_of, ticks_of, AreLongest};
ghost use Rattle.prl_edf.specs.TimedRuns.{IsTimedRun, AreUnits};
ghost use Rattle.prl_edf.specs.EdfRuns.{IsEdfRun, IsPlainRun};
ghost use Rattle.prl_edf.specs.MetWindows.{IsFirstMiss, MeetsAllWindows};
ghost use Rattle.prl_edf.specs.Verdicts.{IsVerdict};
ghost use Rattle.prl_edf.specs.Unrolled.{IsUnrolled, HaveOneEnd};

use prl_plan::actions_are_as_defined;

/// Where no interval is overloaded, each run by earliest deadline first in which no job has more
/// units than it costs meets all windows; so a job that takes less than its WCET does no harm.
/// Where one is, no timed run does in which each job has all that it costs.
pub fn feasibility()
    ensures feasible { (c : RunConstants) → HasPlanFacts c → (cost units : ℕ → ℕ → ℕ) (run : ℕ → Option (ℕ × ℕ)) → AreUnits c cost units →
        ((a b : ℕ) → IsOverloaded c cost a b → ⊥) → IsEdfRun c units run → MeetsAllWindows c units run }
    ensures overloaded { (c : RunConstants) (cost : ℕ → ℕ → ℕ) (run : ℕ → Option (ℕ × ℕ)) (a b : ℕ) → IsOverloaded c cost a b →
        IsTimedRun c cost run → MeetsAllWindows c cost run → ⊥ }
{}

/// The first deadline that a run by earliest deadline first misses, where each job has all that it
/// costs, is the least end of an overloaded interval. At most one such interval is told.
pub fn first_miss_ends_first_overload()
    ensures end { (c : RunConstants) → HasPlanFacts c → (cost : ℕ → ℕ → ℕ) (run : ℕ → Option (ℕ × ℕ)) → AreUnits c cost cost → IsEdfRun c cost run →
        (i n : ℕ) → IsFirstMiss c cost run i n → (from : ℕ) × IsFirstOverload c cost from (c.deadline i n) }
    ensures one { (c : RunConstants) (cost : ℕ → ℕ → ℕ) (from to other end : ℕ) → IsFirstOverload c cost from to → IsFirstOverload c cost other end →
        (from ≡ other) × (to ≡ end) }
{}

/// The pieces of a timed run that meets all windows have as many ticks together as the jobs have
/// units.
pub fn pieces_have_all_units()
    ensures { (c : RunConstants) → HasPlanFacts c → (units : ℕ → ℕ → ℕ) (pieces : List Piece) → AreLongest pieces → IsTimedRun c units (run_of pieces) →
        MeetsAllWindows c units (run_of pieces) → ticks_of pieces ≡ sum_of_jobs c units }
{}

/// There is exactly one plain run.
pub fn plain_run_is_one()
    ensures some { (c : RunConstants) → HasPlanFacts c → (units : ℕ → ℕ → ℕ) → (run : ℕ → Option (ℕ × ℕ)) × IsPlainRun c units run }
    ensures one { (c : RunConstants) → HasPlanFacts c → (units : ℕ → ℕ → ℕ) (run other : ℕ → Option (ℕ × ℕ)) → IsPlainRun c units run →
        IsPlainRun c units other → (t : ℕ) → run t ≡ other t }
{}

/// A run has one list of pieces that are as long as possible, and a plan's horizon one verdict.
pub fn verdicts_are_one()
    ensures pieces { (pieces other : List Piece) → AreLongest pieces → AreLongest other → ((t : ℕ) → run_of pieces t ≡ run_of other t) → pieces ≡ other }
    ensures verdicts { (c : RunConstants) → HasPlanFacts c → (cost : ℕ → ℕ → ℕ) (verdict other : Verdict) → IsVerdict c cost verdict → IsVerdict c cost other →
        verdict ≡ other }
{}

/// The events of a run by earliest deadline first that meets all windows are a legal and complete
/// list.
pub fn events_of_run_are_legal()
    ensures { (c : RunConstants) → HasPlanFacts c → HaveOneEnd c → (cost units : ℕ → ℕ → ℕ) (run : ℕ → Option (ℕ × ℕ)) → AreUnits c cost units →
        IsEdfRun c units run → MeetsAllWindows c units run → (events : List Event) → IsUnrolled c units run events →
        IsLegal c (opening c) events × IsComplete c (after_events c (opening c) events) }
{}

/// The list of actions of each job of a plan ends the job at its last place alone.
pub fn actions_end_once()
    ensures { (plan : PlanView) (horizon : Horizon) → HaveOneEnd (constants_of plan horizon) }
{
    actions_are_as_defined();
}

/// Each horizon has a verdict, where each of its jobs costs at least one unit.
pub fn verdicts_exist()
    ensures { (c : RunConstants) → HasPlanFacts c → (cost : ℕ → ℕ → ℕ) → AreUnits c cost cost → (verdict : Verdict) × IsVerdict c cost verdict }
{
    plain_run_is_one();
    first_miss_ends_first_overload();
    feasibility();
}
