//! Laws of tables.

ghost use Rattle.std.specs.Prelude.{◌≡◌, ◌≢◌, ◌+◌, ◌*◌, ◌<◌, ◌≤◌, ◌^◌, ◌⊎◌, ℕ, All, Err, List, None, Ok, Option, length};
ghost use Rattle.prl_plan.specs.Vocabulary.{HasPlanFacts, IsHorizon, constants_of, task_at};
ghost use Rattle.prl_plan.specs.Vocabulary.{IsHorizonJob, PlanView, IsPlan, release_at, IsComplete};
ghost use Rattle.prl_plan.specs.Vocabulary.{IsGated, RunConstants, opening, after_events};
ghost use Rattle.prl_plan.specs.declared.horizons.Horizon.{Horizon};
ghost use Rattle.prl_overlaps.specs.declared.entries.Entry.{Entry as AnyEntry};
ghost use Rattle.prl_edf.specs.Unrolled.{HaveOneEnd};
ghost use Rattle.prl_tables.specs.Tables.{classes, end_of, last_unit, IsGood, IsPiece};
ghost use Rattle.prl_tables.specs.TableTexts.{entries_of, text_of, AreOrdered, FitsEntry};
ghost use Rattle.prl_tables.specs.declared.reading.TableFault.{TableFault as AnyFault};
ghost use Rattle.prl_tables.specs.declared.reading.TableFault.TheVariants as faults;
ghost use Rattle.prl_tables.specs.Checks.{IsFault};
ghost use Rattle.prl_tables.specs.Unrolled.{Placing, unrolled, IsPlacing};

use crate::orders::order_laws;
use prl_edf::actions_end_once;
use prl_plan::{look_ups_fit, plans_keep_facts};

/// A placed list is gated and complete.
pub fn placed_list_is_gated()
    ensures gated { (c : RunConstants) → HasPlanFacts c → HaveOneEnd c → (at : Placing) → IsPlacing c at → IsGated c (opening c) (unrolled c at) }
    ensures complete { (c : RunConstants) → HasPlanFacts c → HaveOneEnd c → (at : Placing) → IsPlacing c at →
        IsComplete c (after_events c (opening c) (unrolled c at)) }
{}

/// The last units of a good table place the jobs of each horizon.
pub fn good_table_is_placing()
    ensures { (plan : PlanView) (horizon : Horizon) → IsPlan plan → IsHorizon plan horizon → (entries : List AnyEntry) → IsGood plan entries →
        IsPlacing (constants_of plan horizon) (last_unit plan.graph entries) }
{
    plans_keep_facts();
}

/// Over each horizon the events that a good table unrolls to are gated, and they are complete.
pub fn unrolled_table_is_gated()
    ensures gated { (plan : PlanView) (horizon : Horizon) → IsPlan plan → IsHorizon plan horizon → (entries : List AnyEntry) → IsGood plan entries →
        IsGated (constants_of plan horizon) (opening (constants_of plan horizon)) (unrolled (constants_of plan horizon) (last_unit plan.graph entries)) }
    ensures complete { (plan : PlanView) (horizon : Horizon) → IsPlan plan → IsHorizon plan horizon → (entries : List AnyEntry) → IsGood plan entries →
        IsComplete (constants_of plan horizon)
        (after_events (constants_of plan horizon) (opening (constants_of plan horizon)) (unrolled (constants_of plan horizon) (last_unit plan.graph entries))) }
{
    plans_keep_facts();
    actions_end_once();
    placed_list_is_gated();
    good_table_is_placing();
}

/// A table's text is read back, where its entries are in order.
pub fn table_texts_are_read_back()
    ensures { (hyper : ℕ) (entries : List AnyEntry) → hyper < 2 ^ 64 → All FitsEntry entries → AreOrdered None entries →
        entries_of hyper (text_of hyper entries) ≡ Ok entries }
{}

/// Each task has a class, and a class is a job of the horizon up to 2^31 ticks after a hyperperiod.
pub fn classes_are_early()
    ensures period { (plan : PlanView) → IsPlan plan → (i : ℕ) → i < length plan.graph.tasks → 1 ≤ (task_at plan.graph i).clock.period }
    ensures some { (plan : PlanView) → IsPlan plan → (i : ℕ) → i < length plan.graph.tasks → 1 ≤ classes plan.graph i }
    ensures job { (plan : PlanView) → IsPlan plan → (i c : ℕ) → i < length plan.graph.tasks → c < classes plan.graph i →
        IsHorizonJob plan.graph (2 ^ 31 + plan.graph.hyper) i c }
    ensures small { (plan : PlanView) → IsPlan plan → 2 ^ 31 + plan.graph.hyper < 2 ^ 32 }
{}

/// A piece of a job ends before tick 2^33, and is no longer than a hyperperiod.
pub fn pieces_are_short()
    ensures end { (plan : PlanView) → IsPlan plan → (entry : AnyEntry) → IsPiece plan entry → entry.at + entry.units < 2 ^ 33 }
    ensures length { (plan : PlanView) → IsPlan plan → (entry : AnyEntry) → IsPiece plan entry → entry.units ≤ plan.graph.hyper }
{
    classes_are_early();
    look_ups_fit();
}

/// In a good table each class has units, and so an end.
pub fn class_has_end()
    ensures { (plan : PlanView) → IsPlan plan → (entries : List AnyEntry) → IsGood plan entries → (i c : ℕ) → i < length plan.graph.tasks →
        c < classes plan.graph i → 1 ≤ end_of entries i c }
{}

/// A table of a plan is good or has a fault, not both; and it has one fault. Want of memory is none.
pub fn checks_end_one_way()
    ensures not_both { (plan : PlanView) (entries : List AnyEntry) → IsGood plan entries → (fault : AnyFault) → fault ≢ faults.Memory →
        IsFault plan entries fault → ⊥ }
    ensures one { (plan : PlanView) (entries : List AnyEntry) (a b : AnyFault) → a ≢ faults.Memory → b ≢ faults.Memory →
        IsFault plan entries a → IsFault plan entries b → a ≡ b }
{}

/// Each text tells a table or has a fault, and each table of a plan is good or has a fault. Want of memory is none.
pub fn tables_are_decided()
    ensures read { (hyper : ℕ) (text : List ℕ) → ((entries : List AnyEntry) × (entries_of hyper text ≡ Ok entries))
        ⊎ ((fault : AnyFault) × (fault ≢ faults.Memory) × (entries_of hyper text ≡ Err fault)) }
    ensures checked { (plan : PlanView) → IsPlan plan → (entries : List AnyEntry) →
        IsGood plan entries ⊎ ((fault : AnyFault) × (fault ≢ faults.Memory) × IsFault plan entries fault) }
{
    order_laws();
    classes_are_early();
    pieces_are_short();
}
