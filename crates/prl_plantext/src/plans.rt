//! The plan of a text.

ghost use Rattle.std.specs.Prelude.{◌≡◌, ℕ, List, MatchResult};
ghost use Rattle.prl_plan.specs.Vocabulary.{IsWellFormed, PlanView, IsPlan};
ghost use Rattle.prl_plantext.specs.ReadTexts.{IsTextFault, IsTextOf};
ghost use Rattle.prl_plantext.specs.code.Graphs.{graph_of};
ghost use Rattle.prl_plantext.specs.code.Planned.{IsGraphFault, IsOtherText, of_words, of_dates, of_cells};

use crate::checking::is_well_formed;
use crate::printing::plan_text;
use crate::reading::graph_of;
use prl_buffers::{CellFault, cells};
use prl_dates::{DateFault, encode, faults_tell_of_narrow_chains};
use prl_plan::{Plan, TaskGraph, plan_is_unique, words_begin_with_constants};
use prl_words::{WordFault, words};
use std::alloc::Global;

/// Why a text gives no plan.
#[derive(Clone, Copy)]
pub enum PlanFault {
    /// The text is that of no plan.
    NotPlan,
    Memory,
}

impl From<WordFault> for PlanFault {
    ghost from_gives = { λ fault e. e ≡ of_words fault };

    fn from(fault: WordFault) -> PlanFault {
        match fault {
            WordFault::Limit(_) => PlanFault::NotPlan,
            WordFault::Memory => PlanFault::Memory,
        }
    }
}

impl From<DateFault> for PlanFault {
    ghost from_gives = { λ fault e. e ≡ of_dates fault };

    fn from(fault: DateFault) -> PlanFault {
        match fault {
            DateFault::Narrow { .. } => PlanFault::NotPlan,
            DateFault::Loop { .. } => PlanFault::NotPlan,
            DateFault::Memory => PlanFault::Memory,
        }
    }
}

impl From<CellFault> for PlanFault {
    ghost from_gives = { λ fault e. e ≡ of_cells fault };

    fn from(fault: CellFault) -> PlanFault {
        match fault {
            CellFault::Limit(_) => PlanFault::NotPlan,
            CellFault::Memory => PlanFault::Memory,
        }
    }
}

/// The plan of a graph, made by the calls that plan.
fn planned(alloc: Global, graph: TaskGraph) -> Result<Plan, PlanFault>
    requires { IsWellFormed graph }
    ensures { MatchResult result (λ plan. IsPlan plan × (plan.graph ≡ graph)) (IsGraphFault graph) }
{
    words_begin_with_constants();
    faults_tell_of_narrow_chains();
    plan_is_unique();
    let words = words(alloc, &graph)?;
    let dates = encode(alloc, &graph)?;
    let cells = cells(alloc, &graph, &words, &dates)?;
    Ok(Plan::new(graph, words, dates, cells))
}

/// The plan of the graph that a text is read to.
fn plan_of(alloc: Global, text: &[u8]) -> Result<Plan, PlanFault>
    ensures { MatchResult result (λ plan. IsPlan plan × (plan.graph ≡ graph_of text.now)) (IsTextFault text.now) }
{
    let Ok(graph) = graph_of(alloc, text) else {
        return Err(PlanFault::Memory);
    };
    if !is_well_formed(&graph) {
        return Err(PlanFault::NotPlan);
    }
    planned(alloc, graph)
}

/// Refuses a text that is not the plan's.
fn match_text(alloc: Global, plan: &Plan, text: &[u8]) -> Result<(), PlanFault>
    ensures { MatchResult result (λ _. IsTextOf plan.now text.now) (IsOtherText plan.now text.now) }
{
    let Ok(again) = plan_text(alloc, plan) else {
        return Err(PlanFault::Memory);
    };
    if again.as_slice() == text {
        Ok(())
    } else {
        Err(PlanFault::NotPlan)
    }
}

/// The plan whose text this is. The text is read to a graph, the graph is planned, and the text of that plan is compared with
/// the one that was given, so that nothing is decided here but that the graph is well formed. `NotPlan` exactly where the text
/// is that of no plan.
pub fn read_plan(alloc: Global, text: &[u8]) -> Result<Plan, PlanFault>
    ensures { MatchResult result (λ plan. IsTextOf plan text.now) (IsTextFault text.now) }
{
    plan_is_unique();
    let plan = plan_of(alloc, text)?;
    match_text(alloc, &plan, text)?;
    Ok(plan)
}

/// A text is that of one plan at most.
pub fn text_is_of_one_plan()
    ensures { (text : List ℕ) (a b : PlanView) → IsTextOf a text → IsTextOf b text → a ≡ b }
{
    plan_is_unique();
}
