//! What holds of plans, as functions that do nothing: the contract of each is the fact.

ghost use Rattle.std.specs.Prelude.{◌≡◌, ◌+◌, ◌<◌, ◌≤◌, ◌^◌, ◌↔◌, ℕ, ℤ, pos, ◌+ℤ◌, ◌≤ℤ◌, ◌<ℤ◌, List, length, IsSome, slice_get, slice_index_or};
ghost use Rattle.prl_base.specs.declared.operators.Op.{Op};
ghost use Rattle.prl_plan.specs.declared.events.Action.{Action};
ghost use Rattle.prl_plan.specs.declared.events.Action.TheVariants as actions;
ghost use Rattle.prl_plan.specs.declared.graphs.TaskGraph.{TaskGraph};
ghost use Rattle.prl_plan.specs.declared.horizons.Horizon.{Horizon};
ghost use Rattle.prl_plan.specs.declared.walks.Operand.TheVariants as operands;
ghost use Rattle.prl_plan.specs.Graphs.{IsWellFormed};
ghost use Rattle.prl_plan.specs.Operands.{walk, operand_of};
ghost use Rattle.prl_plan.specs.Precedence.{preceding, ComesFrom, Precedes};
ghost use Rattle.prl_plan.specs.Dates.{AreEncodedDates, encoded_release, encoded_deadline};
ghost use Rattle.prl_plan.specs.Chains.{IsNarrow, IsBest};
ghost use Rattle.prl_plan.specs.declared.graphs.Edge.{Edge};
ghost use Rattle.prl_plan.specs.declared.tables.Window.{Window};
ghost use Rattle.prl_plan.specs.declared.tables.Used.{Used};
ghost use Rattle.prl_plan.specs.declared.words.Word.{Word};
ghost use Rattle.prl_plan.specs.Cells.{EnumeratesUsed};
ghost use Rattle.prl_plan.specs.FirstReaders.{IsFirstReader};
ghost use Rattle.prl_plan.specs.Repeats.{IsShortestRepeat};
ghost use Rattle.prl_plan.specs.Words.{IsWordOf};
ghost use Rattle.prl_plan.specs.Jobs.{Job, task_at, job_count, IsHorizonJob};
ghost use Rattle.prl_plan.specs.Plans.{PlanView, HaveRoom, AreShortWindows, IsPlan, edge_at, release_at, deadline_at, place_on, cell_of, IsHalfOf, reading, actions_of, reads_before, operands_before, IsAtPort, IsActionOf};
ghost use Rattle.prl_plan.specs.Facts.{HasPlanFacts};
ghost use Rattle.prl_plan.specs.Horizons.{IsHorizon, constants_of};

use crate::{Horizon, Plan};

/// The horizon jobs of a task are those whose number is below their count.
pub fn horizon_jobs_are_counted()
    ensures { (graph : TaskGraph) (until i n : ℕ) → i < length graph.tasks → 0 < (task_at graph i).clock.period →
        IsHorizonJob graph until i n ↔ (n < job_count (task_at graph i) until) }
{}

/// Each action of a job is what the definitions of operands, used instances and cells say. Its reads on an edge stand after
/// those on the edges before it, a read at a port after as many whole operands. It writes both halves to the edges of its
/// task on which its instance is used, and ends after all of these.
pub fn actions_are_as_defined()
    ensures each { (plan : PlanView) (i n place : ℕ) → IsActionOf plan i n (slice_index_or (actions_of plan i n) place actions.End) }
    ensures reads { (plan : PlanView) (e n j : ℕ) (x : Action) → e < length plan.graph.edges →
        slice_get (reading plan e (edge_at plan.graph e) (operand_of (edge_at plan.graph e) n)) j ≡ Some x →
        slice_get (actions_of plan (edge_at plan.graph e).to.0 n) (reads_before plan (edge_at plan.graph e).to.0 n e + j) ≡ Some x }
    ensures ports { (plan : PlanView) → IsWellFormed plan.graph → (i n place port : ℕ) → IsAtPort port (slice_index_or (actions_of plan i n) place actions.End) →
        operands_before (actions_of plan i n) place ≡ port }
    ensures writes { (plan : PlanView) (e i n slot : ℕ) → e < length plan.graph.edges → ComesFrom (edge_at plan.graph e).from i →
        IsSome (place_on plan e n) → IsHalfOf (cell_of plan e n) slot →
        (place : ℕ) × (slice_get (actions_of plan i n) place ≡ Some (actions.Write (record { 0 = e }) n (record { 0 = slot }))) }
    ensures end { (plan : PlanView) (i n place : ℕ) → slice_index_or (actions_of plan i n) place actions.End ≡ actions.End →
        length (actions_of plan i n) ≤ place + 1 }
{}

/// Each plan is one: its graph is well formed, and its dates and cells are those of the graph.
pub fn plan_is_one(plan: &Plan)
    ensures { IsPlan plan.now }
{
    let _ = plan.graph();
}

/// On an edge the jobs from the length of the word's prefix on read instances, and those before it read constants. There is
/// one job from which this is so.
pub fn words_begin_with_constants()
    ensures first { (ops : List Op) (w : Word) → IsWordOf ops w → IsFirstReader ops (length w.prefix) }
    ensures one { (ops : List Op) (p q : ℕ) → IsFirstReader ops p → IsFirstReader ops q → p ≡ q }
{}

/// A graph determines its plan: two plans of one graph are the same. Operators have one word, dates one table of shortest
/// lists, and used instances one enumeration by shortest gaps.
pub fn plan_is_unique()
    ensures plan { (a b : PlanView) → IsPlan a → IsPlan b → a.graph ≡ b.graph → a ≡ b }
    ensures word { (ops : List Op) (a b : Word) → IsWordOf ops a → IsWordOf ops b → a ≡ b }
    ensures dates { (graph : TaskGraph) (a b : List (List Window)) → AreEncodedDates graph a → AreEncodedDates graph b →
        AreShortWindows a → AreShortWindows b → a ≡ b }
    ensures used { (edge : Edge) (a b : Used) → EnumeratesUsed edge a → EnumeratesUsed edge b → IsShortestRepeat a.gaps → IsShortestRepeat b.gaps →
        a ≡ b }
{}

/// Where the walk of an operand gives an instance, the producer's job of that number precedes the consumer's job.
pub fn operands_precede()
    ensures { (ops : List Op) (n m : ℕ) → walk ops n ≡ operands.From m → preceding ops (pos n) ≡ pos m }
{}

/// What the jobs of every plan keep, in each of its horizons.
pub fn plans_keep_facts()
    ensures { (plan : PlanView) (horizon : Horizon) → IsPlan plan → IsHorizon plan horizon → HasPlanFacts (constants_of plan horizon) }
{}

/// What the jobs of this plan keep in the horizon.
pub fn plan_facts(plan: &Plan, horizon: Horizon)
    requires { IsHorizon plan.now horizon }
    ensures { HasPlanFacts (constants_of plan.now horizon) }
{
    let _ = horizon;
    plans_keep_facts();
    plan_is_one(plan);
}

/// Where each job has room for its WCET between its encoded dates, no chain of jobs needs longer than its last job has. A job
/// has at most one best over chains of at most so many jobs.
pub fn room_leaves_no_narrow_chain()
    ensures narrow { (graph : TaskGraph) (windows : List (List Window)) → AreEncodedDates graph windows → HaveRoom graph windows →
        (first : Job) (rest : List Job) → IsNarrow graph first rest → ⊥ }
    ensures best { (graph : TaskGraph) (most : ℕ) (job : Job) (a b : ℤ) → IsBest graph most job a → IsBest graph most job b → a ≡ b }
{}

/// Over all whole numbers: each job has room for its WCET between its encoded dates; along a precedence both dates leave room
/// for the WCETs; and the next job of a task is not released, by its encoded date, before the job is due by its own.
pub fn encoded_dates_keep_order()
    ensures room { (plan : PlanView) → IsPlan plan → (i : ℕ) (m : ℤ) → i < length plan.graph.tasks →
        (encoded_release plan.graph plan.windows i m +ℤ pos (task_at plan.graph i).wcet) ≤ℤ encoded_deadline plan.graph plan.windows i m }
    ensures next { (plan : PlanView) → IsPlan plan → (i : ℕ) (m : ℤ) → i < length plan.graph.tasks →
        encoded_deadline plan.graph plan.windows i m ≤ℤ encoded_release plan.graph plan.windows i (m +ℤ pos 1) }
    ensures earlier { (plan : PlanView) → IsPlan plan → (before after : Job) → Precedes plan.graph before after →
        (encoded_release plan.graph plan.windows before.task before.number <ℤ encoded_release plan.graph plan.windows after.task after.number)
        × (encoded_deadline plan.graph plan.windows before.task before.number <ℤ encoded_deadline plan.graph plan.windows after.task after.number) }
    ensures releases { (plan : PlanView) → IsPlan plan → (before after : Job) → Precedes plan.graph before after →
        (encoded_release plan.graph plan.windows before.task before.number +ℤ pos (task_at plan.graph before.task).wcet)
        ≤ℤ encoded_release plan.graph plan.windows after.task after.number }
    ensures deadlines { (plan : PlanView) → IsPlan plan → (before after : Job) → Precedes plan.graph before after →
        (encoded_deadline plan.graph plan.windows before.task before.number +ℤ pos (task_at plan.graph after.task).wcet)
        ≤ℤ encoded_deadline plan.graph plan.windows after.task after.number }
{}

/// What a job reads has no higher number than its encoded release. The dates of a horizon job are below 2^33 and its number
/// is below 2^32.
pub fn look_ups_fit()
    ensures operand { (plan : PlanView) → IsPlan plan → (e n m : ℕ) →
        e < length plan.graph.edges → operand_of (edge_at plan.graph e) n ≡ operands.From m →
        m ≤ release_at plan (edge_at plan.graph e).to.0 n }
    ensures horizon { (plan : PlanView) → IsPlan plan → (until i n : ℕ) → until < 2 ^ 32 →
        IsHorizonJob plan.graph until i n →
        (release_at plan i n < 2 ^ 33) × (deadline_at plan i n < 2 ^ 33) × (n < 2 ^ 32) }
{}
