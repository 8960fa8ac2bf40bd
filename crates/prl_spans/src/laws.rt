//! Laws of acts in spans.

ghost use Rattle.std.specs.Prelude.{◌≡◌, ℕ, List, Option};
ghost use Rattle.prl_plan.specs.Vocabulary.{HasPlanFacts, IsComplete, IsGated, IsHorizon, IsJob, IsPlan, PlanView, RunConstants};
ghost use Rattle.prl_plan.specs.Vocabulary.{after_events, constants_of, opening};
ghost use Rattle.prl_plan.specs.declared.events.Event.{Event};
ghost use Rattle.prl_plan.specs.declared.horizons.Horizon.{Horizon};
ghost use Rattle.prl_overlaps.specs.declared.entries.Entry.{Entry};
ghost use Rattle.prl_edf.specs.TimedRuns.{AreUnits};
ghost use Rattle.prl_edf.specs.EdfRuns.{IsEdfRun};
ghost use Rattle.prl_edf.specs.MetWindows.{MeetsAllWindows};
ghost use Rattle.prl_tables.specs.Tables.{IsGood};
ghost use Rattle.prl_tables.specs.Unrolled.{Placing};
ghost use Rattle.prl_spans.specs.RunSpans.{AreSpansIn, IsSpanIn};
ghost use Rattle.prl_spans.specs.Spans.{AreInSpans, AreSpans};
ghost use Rattle.prl_spans.specs.TableSpans.{after_last_unit, first_unit};

use prl_plan::plans_keep_facts;
use prl_tables::{class_has_end, good_table_is_placing};

/// A list of events in which each job acts within its span is gated, so that each read is exact; and at the end of the horizon each
/// job has ended.
pub fn acts_within_spans_are_gated()
    ensures gated { (c : RunConstants) → HasPlanFacts c → (begin end : Placing) → AreSpans c begin end → (list : List Event) →
        AreInSpans c begin end (opening c) list → IsGated c (opening c) list }
    ensures complete { (c : RunConstants) → HasPlanFacts c → (begin end : Placing) → AreSpans c begin end → (list : List Event) →
        AreInSpans c begin end (opening c) list → (after_events c (opening c) list).now ≡ c.end → IsComplete c (after_events c (opening c) list) }
{}

/// A good table gives each job of each horizon a span, from its first unit to the end of its last one.
pub fn good_table_has_spans()
    ensures { (plan : PlanView) (horizon : Horizon) → IsPlan plan → IsHorizon plan horizon → (entries : List Entry) → IsGood plan entries →
        AreSpans (constants_of plan horizon) (first_unit plan.graph entries) (after_last_unit plan.graph entries) }
{
    plans_keep_facts();
    good_table_is_placing();
    class_has_end();
}

/// So does a run by earliest deadline first that meets all windows, from the first tick that goes to the job to the end of the last.
pub fn edf_run_has_spans()
    ensures some { (c : RunConstants) (cost units : ℕ → ℕ → ℕ) (run : ℕ → Option (ℕ × ℕ)) → AreUnits c cost units → IsEdfRun c units run →
        MeetsAllWindows c units run → (i n : ℕ) → IsJob c i n → (begin : ℕ) × (end : ℕ) × IsSpanIn run i n begin end }
    ensures are { (c : RunConstants) → HasPlanFacts c → (cost units : ℕ → ℕ → ℕ) (run : ℕ → Option (ℕ × ℕ)) → AreUnits c cost units → IsEdfRun c units run →
        MeetsAllWindows c units run → (begin end : Placing) → AreSpansIn c run begin end → AreSpans c begin end }
{}

/// Where each job reads and writes at ticks between its first and its last unit in such a run, the list of events is gated.
pub fn acts_within_run_are_gated()
    ensures { (c : RunConstants) → HasPlanFacts c → (cost units : ℕ → ℕ → ℕ) (run : ℕ → Option (ℕ × ℕ)) → AreUnits c cost units → IsEdfRun c units run →
        MeetsAllWindows c units run → (begin end : Placing) → AreSpansIn c run begin end → (list : List Event) →
        AreInSpans c begin end (opening c) list → IsGated c (opening c) list }
{
    edf_run_has_spans();
    acts_within_spans_are_gated();
}

/// Where each job reads and writes at ticks between its first and its last unit by a good table, the list of events is gated.
pub fn acts_within_table_are_gated()
    ensures { (plan : PlanView) (horizon : Horizon) → IsPlan plan → IsHorizon plan horizon → (entries : List Entry) → IsGood plan entries → (list : List Event) →
        AreInSpans (constants_of plan horizon) (first_unit plan.graph entries) (after_last_unit plan.graph entries) (opening (constants_of plan horizon)) list →
        IsGated (constants_of plan horizon) (opening (constants_of plan horizon)) list }
{
    plans_keep_facts();
    good_table_has_spans();
    acts_within_spans_are_gated();
}
