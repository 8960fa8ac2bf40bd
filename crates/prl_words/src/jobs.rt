//! Laws of the jobs and the dates of every plan, as functions that do nothing: the contract of each is the law.

ghost use Rattle.std.specs.Prelude.{◌≡◌, ◌*◌, ◌<◌, ◌≤◌, ℕ, ℤ, pos, ◌+ℤ◌, ◌≤ℤ◌, List, length, IsSome, Some, slice_get};
ghost use Rattle.prl_base.specs.Values.{IsOfType};
ghost use Rattle.prl_base.specs.declared.values.Value.{Value};
ghost use Rattle.prl_plan.specs.Vocabulary.{Family, AreLeastReleases, AreGreatestDeadlines};
ghost use Rattle.prl_plan.specs.Vocabulary.{AreEncodedDates, RepeatsByHyper, encoded_release};
ghost use Rattle.prl_plan.specs.Vocabulary.{encoded_deadline, IsWellFormed, TableRow, IsJobTable};
ghost use Rattle.prl_plan.specs.Vocabulary.{job_table, Job, task_at, release_of, IsHorizonJob};
ghost use Rattle.prl_plan.specs.Vocabulary.{operand_of, PlanView, IsPlan, edge_at, release_at};
ghost use Rattle.prl_plan.specs.Vocabulary.{deadline_at, place_on, cell_of, preceding, ComesFrom};
ghost use Rattle.prl_plan.specs.Vocabulary.{Precedes};
ghost use Rattle.prl_plan.specs.declared.graphs.TaskGraph.{TaskGraph};
ghost use Rattle.prl_plan.specs.declared.tables.Window.{Window};
ghost use Rattle.prl_plan.specs.declared.walks.Operand.TheVariants as operands;

/// A constant that a job reads on an edge has the type of the edge.
pub fn constants_are_of_their_type()
    ensures { (graph : TaskGraph) → IsWellFormed graph → (e n : ℕ) (c : Value) → e < length graph.edges →
        operand_of (edge_at graph e) n ≡ operands.Const c → IsOfType (edge_at graph e).ty c }
{}

/// An instance that a horizon job reads is one that a horizon job gives.
pub fn operands_are_of_horizon_jobs()
    ensures { (graph : TaskGraph) → IsWellFormed graph → (until e i n m : ℕ) → e < length graph.edges →
        ComesFrom (edge_at graph e).from i → IsHorizonJob graph until (edge_at graph e).to.0 n →
        operand_of (edge_at graph e) n ≡ operands.From m → IsHorizonJob graph until i m }
{}

/// In a job table, the job that gives an instance stands before each job that reads it.
pub fn operands_stand_earlier()
    ensures { (plan : PlanView) → IsPlan plan → (until : ℕ) (table : List TableRow) → IsJobTable plan until table →
        (k : ℕ) (row : TableRow) → slice_get table k ≡ Some row → (e i m : ℕ) → e < length plan.graph.edges →
        (edge_at plan.graph e).to.0 ≡ row.task → ComesFrom (edge_at plan.graph e).from i →
        operand_of (edge_at plan.graph e) row.job ≡ operands.From m →
        (l : ℕ) × (earlier : TableRow) × (l < k) × (slice_get table l ≡ Some earlier) × (earlier.task ≡ i) × (earlier.job ≡ m) }
{}

/// Each plan has one job table up to a date.
pub fn plan_has_one_job_table()
    ensures made { (plan : PlanView) → IsPlan plan → (until : ℕ) → IsJobTable plan until (job_table plan until) }
    ensures one { (plan : PlanView) (until : ℕ) (a b : List TableRow) → IsJobTable plan until a → IsJobTable plan until b → a ≡ b }
{}

/// The number of the job that precedes along an edge goes on by the producer's jobs in a hyperperiod where the consumer's does,
/// and does not fall, over all whole numbers.
pub fn precedence_repeats_and_rises()
    ensures repeats { (graph : TaskGraph) → IsWellFormed graph → (e i c d : ℕ) → e < length graph.edges → ComesFrom (edge_at graph e).from i →
        graph.hyper ≡ c * (task_at graph (edge_at graph e).to.0).clock.period → graph.hyper ≡ d * (task_at graph i).clock.period →
        (n : ℤ) → preceding (edge_at graph e).ops (n +ℤ pos c) ≡ preceding (edge_at graph e).ops n +ℤ pos d }
    ensures rises { (graph : TaskGraph) → IsWellFormed graph → (e : ℕ) → e < length graph.edges → (a b : ℤ) → a ≤ℤ b →
        preceding (edge_at graph e).ops a ≤ℤ preceding (edge_at graph e).ops b }
{}

/// A job that precedes another is not released later, over all whole numbers.
pub fn precedence_is_not_later()
    ensures { (graph : TaskGraph) → IsWellFormed graph → (before after : Job) → Precedes graph before after →
        release_of (task_at graph before.task) before.number ≤ℤ release_of (task_at graph after.task) after.number }
{}

/// Two families that come again with the hyperperiod and agree over the jobs of one agree; and where the one is nowhere above
/// the other over these, it is nowhere so.
pub fn hyperperiod_shows_all_jobs()
    ensures agree { (graph : TaskGraph) → IsWellFormed graph → (one other : Family) → RepeatsByHyper graph one → RepeatsByHyper graph other →
        (i jobs : ℕ) → i < length graph.tasks → graph.hyper ≡ jobs * (task_at graph i).clock.period →
        ((n : ℕ) → n < jobs → one i (pos n) ≡ other i (pos n)) → (m : ℤ) → one i m ≡ other i m }
    ensures below { (graph : TaskGraph) → IsWellFormed graph → (one other : Family) → RepeatsByHyper graph one → RepeatsByHyper graph other →
        (i jobs : ℕ) → i < length graph.tasks → graph.hyper ≡ jobs * (task_at graph i).clock.period →
        ((n : ℕ) → n < jobs → one i (pos n) ≤ℤ other i (pos n)) → (m : ℤ) → one i m ≤ℤ other i m }
{}

/// The least releases and the greatest deadlines come again a hyperperiod later, over all whole numbers.
pub fn encoded_dates_repeat()
    ensures releases { (graph : TaskGraph) → IsWellFormed graph → (date : Family) → AreLeastReleases graph date → RepeatsByHyper graph date }
    ensures deadlines { (graph : TaskGraph) → IsWellFormed graph → (date : Family) → AreGreatestDeadlines graph date → RepeatsByHyper graph date }
{}

/// A later job of a task has no earlier encoded date, over all whole numbers.
pub fn encoded_dates_rise()
    ensures releases { (graph : TaskGraph) → IsWellFormed graph → (windows : List (List Window)) → AreEncodedDates graph windows →
        (i : ℕ) (a b : ℤ) → i < length graph.tasks → a ≤ℤ b → encoded_release graph windows i a ≤ℤ encoded_release graph windows i b }
    ensures deadlines { (graph : TaskGraph) → IsWellFormed graph → (windows : List (List Window)) → AreEncodedDates graph windows →
        (i : ℕ) (a b : ℤ) → i < length graph.tasks → a ≤ℤ b → encoded_deadline graph windows i a ≤ℤ encoded_deadline graph windows i b }
{}

/// Instances of an edge that stand in one cell take turns: no job that reads the one, of any horizon, is due after the
/// release of the job that gives the later one.
pub fn instances_take_turns()
    ensures { (plan : PlanView) → IsPlan plan → (e i l m k : ℕ) → e < length plan.graph.edges → ComesFrom (edge_at plan.graph e).from i →
        IsSome (place_on plan e l) → IsSome (place_on plan e m) → cell_of plan e l ≡ cell_of plan e m → l < m →
        operand_of (edge_at plan.graph e) k ≡ operands.From l → deadline_at plan (edge_at plan.graph e).to.0 k ≤ release_at plan i m }
{}
