//! What holds of dates and faults, as functions that do nothing: the contract of each is the law.

ghost use Rattle.std.specs.Prelude.{◌≡◌, ◌⊎◌, ℕ, List, length};
ghost use Rattle.prl_plan.specs.Vocabulary.{AreEncodedDates, IsWellFormed, PlanView, IsPlan};
ghost use Rattle.prl_plan.specs.Vocabulary.{HaveRoom, AreShortWindows, IsSpread};
ghost use Rattle.prl_plan.specs.declared.graphs.TaskGraph.{TaskGraph};
ghost use Rattle.prl_plan.specs.declared.tables.Window.{Window};
ghost use Rattle.prl_dates.specs.declared.faults.DateFault.{DateFault};
ghost use Rattle.prl_dates.specs.Faults.{IsDateFault, IsOfGraph, HasNarrowChain, HasNoNarrowChain};

/// Where a fault tells of the graph, some chain of jobs is narrow. Where each job has room between
/// its encoded dates none is, so no such fault comes.
pub fn faults_tell_of_narrow_chains()
    ensures fault { (graph : TaskGraph) (fault : DateFault) → IsWellFormed graph → IsDateFault graph fault → IsOfGraph fault → HasNarrowChain graph }
    ensures room { (graph : TaskGraph) (windows : List (List Window)) → AreEncodedDates graph windows → HaveRoom graph windows → HasNoNarrowChain graph }
{}

/// Each well-formed graph has encoded dates, which leave each job room, or a fault that tells of the graph: so it has dates exactly where
/// no chain of jobs is narrow.
pub fn dates_or_fault_exist()
    ensures end { (graph : TaskGraph) → IsWellFormed graph →
        ((windows : List (List Window)) × AreEncodedDates graph windows × HaveRoom graph windows × AreShortWindows windows)
        ⊎ ((fault : DateFault) × IsOfGraph fault × IsDateFault graph fault) }
    ensures room { (graph : TaskGraph) → IsWellFormed graph → HasNoNarrowChain graph →
        (windows : List (List Window)) × AreEncodedDates graph windows × HaveRoom graph windows × AreShortWindows windows }
    ensures narrow { (graph : TaskGraph) → IsWellFormed graph → HasNarrowChain graph ⊎ HasNoNarrowChain graph }
{
    faults_tell_of_narrow_chains();
}

/// Each plan has a spread over the processors of its tasks: releases that wait for the jobs on other processors.
pub fn spreads_exist()
    ensures { (plan : PlanView) → IsPlan plan → (processors : List ℕ) → length processors ≡ length plan.graph.tasks →
        (windows : List (List Window)) × IsSpread plan (record { processors = processors; windows = windows }) }
{}
