//! What the texts of the command tell for ever.

ghost use Rattle.std.specs.Prelude.{◌≡◌, ◌+◌, ◌*◌, ◌≤◌, ◌⊎◌, ℕ, List};
ghost use Rattle.prl_plan.specs.Plans.{PlanView};
ghost use Rattle.prl_edf.specs.declared.analysis.Verdict.TheVariants as verdicts;
ghost use Rattle.prl_edf.specs.declared.runs.Timed.{Timed};
ghost use Rattle.prl_tables.specs.Tables.{IsGood};
ghost use Rattle.prl_overlaps.specs.declared.entries.Entry.{Entry as AnyEntry};
ghost use Rattle.prl_arguments.specs.declared.arguments.Mode.TheVariants as modes;
ghost use Rattle.prl_stages.specs.declared.faults.Fault.TheVariants as faults;
ghost use Rattle.prl_stages.specs.declared.faults.MakeRefusal.TheVariants as bad_making;
ghost use Rattle.prl_stages.specs.Given.{Given};
ghost use Rattle.prl_stages.specs.Feasible.{IsEdfText};
ghost use Rattle.prl_stages.specs.Planned.{HasPlan};
ghost use Rattle.prl_stages.specs.Stages.{IsText};
ghost use Rattle.prl_stages.specs.Tabled.{RefusesMade};
ghost use Rattle.prl_forever.specs.Forever.{load_of, AreStartedBy, ServesForEver};

use prl_forever::{good_table_serves_for_ever, served_for_ever, tables_tell_for_ever};

/// Where mode `table` writes a text, one processor serves the program's plan for ever. Where it refuses with
/// 90 or 91, it does not, and no table is good. Where mode `edf` tells a run of a horizon that reaches two
/// hyperperiods past the start of all tasks, and the load is no more than a hyperperiod, it does.
pub fn texts_tell_for_ever()
    ensures table { (g : Given) (text : List ℕ) → IsText g modes.Table text → (plan : PlanView) × HasPlan g plan × ServesForEver plan }
    ensures overload { (g : Given) (from to demand : ℕ) → RefusesMade g (faults.Made (bad_making.Overload from to demand)) →
        (plan : PlanView) × HasPlan g plan × (ServesForEver plan → ⊥) × ((entries : List AnyEntry) → IsGood plan entries → ⊥) }
    ensures unsteady { (g : Given) (at : ℕ) → RefusesMade g (faults.Made (bad_making.Unsteady at)) →
        (plan : PlanView) × HasPlan g plan × (ServesForEver plan → ⊥) × ((entries : List AnyEntry) → IsGood plan entries → ⊥) }
    ensures edf { (g : Given) (text : List ℕ) (is : IsEdfText g text) (timed : Timed) → is.verdict ≡ verdicts.Run timed →
        load_of is.plan ≤ is.plan.graph.hyper → (start : ℕ) → AreStartedBy is.plan start → start + 2 * is.plan.graph.hyper ≤ g.until → ServesForEver is.plan }
{
    good_table_serves_for_ever();
    served_for_ever();
    tables_tell_for_ever();
}
