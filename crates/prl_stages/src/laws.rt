//! Laws of the stages, as functions that do nothing: the contract of each is the law, over the definitions alone.

ghost use Rattle.std.specs.Prelude.{◌≡◌, ℕ, Bool, false, List, Option, None, map};
ghost use Rattle.prl_base.specs.declared.operators.Clock.{Clock};
ghost use Rattle.prl_arguments.specs.Arguments.{AreInRange};
ghost use Rattle.prl_arguments.specs.declared.arguments.Command.{Command as AnyCommand};
ghost use Rattle.prl_arguments.specs.declared.arguments.Mode.{Mode as AnyMode};
ghost use Rattle.prl_body.specs.Checks.{body_tree};
ghost use Rattle.prl_body.specs.declared.bodies.CheckedBody.{CheckedBody};
ghost use Rattle.prl_flow.specs.Vocabulary.{FlatProgram, Rows, is_made};
ghost use Rattle.prl_plan.specs.Plans.{PlanView};
ghost use Rattle.prl_plan.specs.declared.horizons.Horizon.{Horizon};
ghost use Rattle.prl_stages.specs.Flattened.{RefusesCausality};
ghost use Rattle.prl_stages.specs.Given.{Folder, Given as AnyGiven, IsGivenTo};
ghost use Rattle.prl_ast.specs.Trees.{ProgramTree};
ghost use Rattle.prl_causal.specs.Behaviours.{Satisfies};
ghost use Rattle.prl_causal.specs.Uniqueness.{ExactlyOne};
ghost use Rattle.prl_stages.specs.Parts.{AreBodies, IsMain};
ghost use Rattle.prl_stages.specs.Runs.{HasRows};
ghost use Rattle.prl_stages.specs.Scheduled.{HasHorizon, IsScheduleText};
ghost use Rattle.prl_rule.specs.declared.views.Gate.{Gate as AnyGate};
ghost use Rattle.prl_stages.specs.Needs.{HoldsBodies};
ghost use Rattle.prl_stages.specs.Ran.{IsCycleText, IsMeant, IsRunText, IsSummary};
ghost use Rattle.prl_stages.specs.Stages.{Holds, Comes, IsDecided, AreDecided, IsText, stages_after, stages_of};
ghost use Rattle.prl_stages.specs.code.Ones.{FindOne};
ghost use Rattle.prl_stages.specs.code.Runnings.{RunningLaws};
ghost use Rattle.prl_stages.specs.code.Wholes.{WholeLaws};
ghost use Rattle.prl_stages.specs.declared.ran.Ran.{Ran as AnyRan};
ghost use Rattle.prl_stages.specs.declared.stages.Stage.{Stage as AnyStage};
ghost use Rattle.prl_stages.specs.declared.faults.Fault.{Fault as AnyFault};
ghost use Rattle.prl_stages.specs.declared.faults.InputFile.{InputFile as AnyPart};

use crate::faults::Fault;
use crate::stages::Stage;
use prl_arguments::Mode;
use prl_body::{each_list_of_bodies_has_an_outcome, used_imports_have_bodies};
use prl_bodytext::each_text_has_one_outcome as bodies_outcome;
use prl_buffers::cells_or_fault_exist;
use prl_causal::{
    acyclic_programs_have_orders, behaviours_are_of_their_states, causality_ends_one_way,
    programs_have_one_solution, solutions_are_of_their_clocks,
};
use prl_clock::{clocks_are_unique, outcomes_are_unique, programs_have_outcomes};
use prl_cores::{
    placements_or_faults_exist, spread_list_is_gated, spread_plans_are_dispatched,
    spread_plans_keep_facts, spreads_are_one,
};
use prl_dates::{dates_or_fault_exist, faults_tell_of_narrow_chains};
use prl_edf::{verdicts_are_one, verdicts_exist};
use prl_expand::{
    behaviours_are_solutions, cycles_have_names, expansions_are_unique, expansions_have_bodies,
    flats_are_well_formed, programs_have_expansions,
};
use prl_graph::{
    bodies_and_rows_serve_tasks, graphs_are_well_formed, graphs_end_one_way,
    ports_have_the_clock_of_their_task, solutions_give_job_values,
};
use prl_names::right_names_stand_for_something;
use prl_plan::{
    gated_list_keeps_halves, horizon_jobs_are_counted, horizons_end_one_way, legal_list_is_gated,
    plan_is_unique, plans_keep_facts, room_leaves_no_narrow_chain, words_begin_with_constants,
};
use prl_print::programs_are_in_range;
use prl_replay::{actuators_get_the_outputs, placed_lists_are_replayed, replays_end_one_way};
use prl_schedules::plans_are_dispatched;
use prl_sensors::{each_text_has_rows_or_a_fault, rows_are_typed_and_enough};
use prl_syntax::each_text_has_one_outcome as programs_outcome;
use prl_table::{
    checks_end_one_way, made_table_is_good, made_tables_are_one, makes_end_one_way,
    makes_or_faults_exist, tables_are_decided,
};
use prl_tables::unrolled_table_is_gated;
use prl_types::{each_program_has_an_outcome, outcome_is_unique};
use prl_values::{job_values_are_one, job_values_are_typed, job_values_exist};
use prl_words::words_end_one_way;

/// What the stages find is one, by the laws of the crates below.
fn findings_are_one()
    ensures { FindOne }
{
    programs_outcome();
    bodies_outcome();
    outcome_is_unique();
    programs_are_in_range();
    expansions_are_unique();
    flats_are_well_formed();
    outcomes_are_unique();
    graphs_end_one_way();
    words_begin_with_constants();
    faults_tell_of_narrow_chains();
    room_leaves_no_narrow_chain();
    plan_is_unique();
    horizons_end_one_way();
    replays_end_one_way();
    spreads_are_one();
}

/// Whole lists of events are there, and are replayed, by the laws of the crates below.
fn whole_lists_are_there()
    ensures { WholeLaws }
{
    acyclic_programs_have_orders();
    used_imports_have_bodies();
    plans_keep_facts();
    legal_list_is_gated();
    gated_list_keeps_halves();
    horizon_jobs_are_counted();
    spread_plans_keep_facts();
    spread_list_is_gated();
    placed_lists_are_replayed();
    plans_are_dispatched();
    job_values_are_typed();
    unrolled_table_is_gated();
}

/// What runs tell is of the one behaviour, by the laws of the crates below.
pub fn runs_tell_of_behaviours()
    ensures { RunningLaws }
{
    behaviours_are_solutions();
    behaviours_are_of_their_states();
    clocks_are_unique();
    expansions_have_bodies();
    programs_have_one_solution();
    solutions_are_of_their_clocks();
    rows_are_typed_and_enough();
    bodies_and_rows_serve_tasks();
    job_values_exist();
    job_values_are_one();
    solutions_give_job_values();
    ports_have_the_clock_of_their_task();
    actuators_get_the_outputs();
}

/// A list of stages comes to one end: all hold, or one refuses, with one fault.
pub fn stages_end_one_way()
    ensures { (g : AnyGiven) (stages : List AnyStage) (a b : Option (AnyStage × AnyFault)) →
        Comes g stages a → Comes g stages b → a ≡ b }
{
    findings_are_one();
    causality_ends_one_way();
    makes_end_one_way();
    checks_end_one_way();
}

/// A list of stages comes to some end, where each is decided once those before it hold.
pub fn stages_come_to_an_end()
    ensures { (g : AnyGiven) (stages : List AnyStage) → AreDecided g stages →
        (end : Option (AnyStage × AnyFault)) × Comes g stages end }
{}

/// Files, grammar, types and bodies are decided: there is what they look for, or a fault.
pub fn front_is_decided()
    ensures files { (g : AnyGiven) (part : AnyPart) → IsDecided g (Stage.File part) }
    ensures grammar { (g : AnyGiven) → IsDecided g Stage.Grammar }
    ensures types { (g : AnyGiven) → Holds g Stage.Grammar → IsDecided g Stage.Types }
    ensures bodies { (g : AnyGiven) → Holds g Stage.Types → IsDecided g Stage.Bodies }
{
    programs_outcome();
    each_program_has_an_outcome();
    right_names_stand_for_something();
    bodies_outcome();
    each_list_of_bodies_has_an_outcome();
}

/// Each stage of a command is decided, once those before it hold.
pub fn stages_are_decided()
    ensures { (c : AnyCommand) → AreInRange c.mode c.until c.workers c.size → (told : Option Folder) (g : AnyGiven) → IsGivenTo told c g →
        AreDecided g (stages_of c) }
{
    findings_are_one();
    programs_outcome();
    bodies_outcome();
    each_program_has_an_outcome();
    right_names_stand_for_something();
    each_list_of_bodies_has_an_outcome();
    programs_have_expansions();
    causality_ends_one_way();
    programs_have_outcomes();
    graphs_end_one_way();
    graphs_are_well_formed();
    words_end_one_way();
    dates_or_fault_exist();
    cells_or_fault_exist();
    horizons_end_one_way();
    each_text_has_rows_or_a_fault();
    replays_end_one_way();
    makes_or_faults_exist();
    tables_are_decided();
    placements_or_faults_exist();
    spread_plans_are_dispatched();
}

/// Each command comes to an end: all its stages hold, or the first that does not refuses with a fault; and to no other one.
pub fn commands_come_to_an_end()
    ensures some { (c : AnyCommand) → AreInRange c.mode c.until c.workers c.size → (told : Option Folder) (g : AnyGiven) → IsGivenTo told c g →
        (end : Option (AnyStage × AnyFault)) × Comes g (stages_of c) end }
    ensures one { (c : AnyCommand) (g : AnyGiven) (a b : Option (AnyStage × AnyFault)) → Comes g (stages_of c) a → Comes g (stages_of c) b → a ≡ b }
{
    stages_are_decided();
    stages_come_to_an_end();
    stages_end_one_way();
}

/// The label that a program is refused with for a cycle is a name of the program.
pub fn cycles_are_told_by_name()
    ensures { (g : AnyGiven) (fault : AnyFault) → RefusesCausality g fault → (label : List ℕ) × (fault ≡ Fault.Cycle label) × (is_made label ≡ false) }
{
    programs_are_in_range();
    cycles_have_names();
}

/// The text that a mode means is one, where its stages hold. So is the text that a command means, whatever has run.
pub fn texts_are_one()
    ensures text { (g : AnyGiven) (mode : AnyMode) (named : Bool) → Comes g (stages_after mode named) None → (a b : List ℕ) → IsText g mode a → IsText g mode b →
        a ≡ b }
    ensures meant { (g : AnyGiven) (c : AnyCommand) → Comes g (stages_of c) None → (a b : List ℕ) (ran other : AnyRan) → IsMeant g c a ran → IsMeant g c b other →
        a ≡ b }
{
    findings_are_one();
    behaviours_are_solutions();
    clocks_are_unique();
    plans_keep_facts();
    verdicts_are_one();
    made_tables_are_one();
}

/// Each program that has a plan has a schedule up to its horizon: the dispatched list, which is legal and complete.
pub fn plans_have_schedules()
    ensures { (g : AnyGiven) (plan : PlanView) (horizon : Horizon) → HasHorizon g plan horizon → (text : List ℕ) × IsScheduleText g text }
{
    plans_keep_facts();
    plans_are_dispatched();
}

/// Exactly one behaviour satisfies a program that has clocks, with its bodies and with rows for these clocks; and where the stages
/// of `flows`, of `replay` or of `cores` hold there is a text that the mode means, and where those of `run`, of `cycle` or of
/// `generate` do there is one with a closed board on which every job of the horizon has ended.
pub fn texts_have_behaviours()
    ensures behaviour { (g : AnyGiven) (bodies : List CheckedBody) → AreBodies g (map body_tree bodies) → (flat : FlatProgram) (clocks : List Clock) (rows : Rows) →
        HasRows g flat clocks rows → (p : ProgramTree) (main : ℕ) → IsMain g p main → ExactlyOne (Satisfies p main bodies rows g.until) }
    ensures flows { (g : AnyGiven) (bodies : List CheckedBody) → AreBodies g (map body_tree bodies) → (named : Bool) → Comes g (stages_after Mode.Flows named) None →
        (text : List ℕ) × IsText g Mode.Flows text }
    ensures replay { (g : AnyGiven) (bodies : List CheckedBody) → AreBodies g (map body_tree bodies) → (named : Bool) → Comes g (stages_after Mode.Replay named) None →
        (text : List ℕ) × IsText g Mode.Replay text }
    ensures cores { (g : AnyGiven) (bodies : List CheckedBody) → AreBodies g (map body_tree bodies) → (named : Bool) → Comes g (stages_after Mode.Cores named) None →
        (text : List ℕ) × IsText g Mode.Cores text }
    ensures run { (g : AnyGiven) (bodies : List CheckedBody) → AreBodies g (map body_tree bodies) → (named : Bool) → Comes g (stages_after Mode.Run named) None →
        (gate : AnyGate) → (text : List ℕ) × (ran : AnyRan) × IsRunText g gate text ran }
    ensures cycle { (g : AnyGiven) (bodies : List CheckedBody) → AreBodies g (map body_tree bodies) → (named : Bool) → Comes g (stages_after Mode.Cycle named) None →
        (text : List ℕ) × (ran : AnyRan) × IsCycleText g text ran }
    ensures generate { (g : AnyGiven) (bodies : List CheckedBody) → AreBodies g (map body_tree bodies) → (named : Bool) → Comes g (stages_after Mode.Generate named) None →
        (seed size : ℕ) → (text : List ℕ) × (ran : AnyRan) × IsSummary g seed size text ran }
{
    findings_are_one();
    whole_lists_are_there();
    runs_tell_of_behaviours();
}

/// Where the stages of a mode hold there is a text that it means: of a program, of a plan and its size, of a schedule, of a verdict
/// and of a table.
pub fn texts_exist()
    ensures print { (g : AnyGiven) (named : Bool) → Comes g (stages_after Mode.Print named) None → (text : List ℕ) × IsText g Mode.Print text }
    ensures plan { (g : AnyGiven) (named : Bool) → Comes g (stages_after Mode.Plan named) None → (text : List ℕ) × IsText g Mode.Plan text }
    ensures check { (g : AnyGiven) (named : Bool) → Comes g (stages_after Mode.Check named) None → (text : List ℕ) × IsText g Mode.Check text }
    ensures schedule { (g : AnyGiven) (named : Bool) → Comes g (stages_after Mode.Schedule named) None → (text : List ℕ) × IsText g Mode.Schedule text }
    ensures edf { (g : AnyGiven) (named : Bool) → Comes g (stages_after Mode.Edf named) None → (text : List ℕ) × IsText g Mode.Edf text }
    ensures table { (g : AnyGiven) (named : Bool) → Comes g (stages_after Mode.Table named) None → (text : List ℕ) × IsText g Mode.Table text }
{
    plans_have_schedules();
    plans_keep_facts();
    verdicts_exist();
    made_table_is_good();
}

/// Each command whose stages all hold means a text, with what it has run. Where its mode runs bodies, those of the text are given
/// as a program holds them: it holds fewer than 2^63 operands in a row, and a text that definitions speak of may have more.
pub fn commands_have_texts()
    ensures { (g : AnyGiven) (c : AnyCommand) → HoldsBodies g c.mode → Comes g (stages_of c) None → (text : List ℕ) × (ran : AnyRan) × IsMeant g c text ran }
{
    texts_exist();
    texts_have_behaviours();
}
