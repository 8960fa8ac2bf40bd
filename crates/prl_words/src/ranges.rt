//! Laws of the numbers of graphs and plans, as functions that do nothing: the contract of each is the law.

ghost use Rattle.std.specs.Prelude.{◌≡◌, ◌+◌, ◌*◌, ◌<◌, ◌≤◌, ◌^◌, ℕ, ℤ, nat_abs, List, length};
ghost use Rattle.prl_plan.specs.Vocabulary.{IsWordOf, RepeatsAfter, number_at, AreEncodedDates};
ghost use Rattle.prl_plan.specs.Vocabulary.{window_at, IsWellFormed, IsHorizon, constants_of};
ghost use Rattle.prl_plan.specs.Vocabulary.{task_at, walk, PlanView, HaveRoom, edge_at};
ghost use Rattle.prl_plan.specs.Vocabulary.{PrecedingFits};
ghost use Rattle.prl_plan.specs.declared.graphs.TaskGraph.{TaskGraph};
ghost use Rattle.prl_plan.specs.declared.horizons.Horizon.{Horizon};
ghost use Rattle.prl_plan.specs.declared.limits.TheConstants.{MAX_JOBS, MAX_EVENTS};
ghost use Rattle.prl_plan.specs.declared.tables.Window.{Window};
ghost use Rattle.prl_plan.specs.declared.words.Word.{Word};
ghost use Rattle.prl_plan.specs.declared.walks.Operand.TheVariants as operands;

/// What a job reads has no higher number than the job's date. The numbers on the way to the job that
/// precedes fit where the job's number times its period is at most 2^62.
pub fn walk_numbers_fit()
    ensures read { (graph : TaskGraph) → IsWellFormed graph → (e n m : ℕ) →
        e < length graph.edges → walk (edge_at graph e).ops n ≡ operands.From m →
        m ≤ (task_at graph (edge_at graph e).to.0).clock.start + n * (task_at graph (edge_at graph e).to.0).clock.period }
    ensures precedence { (graph : TaskGraph) → IsWellFormed graph → (e : ℕ) (n : ℤ) →
        e < length graph.edges →
        nat_abs n * (task_at graph (edge_at graph e).to.0).clock.period ≤ 2 ^ 62 →
        PrecedingFits (edge_at graph e).ops n }
{}

/// The instances that are read on an edge come again with the hyperperiod, from each job on. So
/// the step of a word is at most the consumer's jobs in a hyperperiod; and the numbers of a word
/// are no higher than the dates of its jobs.
pub fn words_repeat_by_hyperperiod()
    ensures repeats { (graph : TaskGraph) → IsWellFormed graph → (e : ℕ) →
        e < length graph.edges → (jobs from : ℕ) →
        graph.hyper ≡ jobs * (task_at graph (edge_at graph e).to.0).clock.period →
        RepeatsAfter (edge_at graph e).ops from jobs }
    ensures step { (graph : TaskGraph) → IsWellFormed graph → (e : ℕ) →
        e < length graph.edges → (w : Word) (jobs : ℕ) → IsWordOf (edge_at graph e).ops w →
        graph.hyper ≡ jobs * (task_at graph (edge_at graph e).to.0).clock.period →
        w.step_in ≤ jobs }
    ensures numbers { (graph : TaskGraph) → IsWellFormed graph → (e : ℕ) →
        e < length graph.edges → (w : Word) (i : ℕ) → IsWordOf (edge_at graph e).ops w →
        number_at w i
        ≤ (task_at graph (edge_at graph e).to.0).clock.start + (length w.prefix + i) * (task_at graph (edge_at graph e).to.0).clock.period }
{}

/// Where each job has room, its encoded release and then its WCET lie before its encoded deadline,
/// and this is not after its deadline.
pub fn windows_are_within_dues()
    ensures { (graph : TaskGraph) (windows : List (List Window)) →
        AreEncodedDates graph windows → HaveRoom graph windows →
        (i : ℕ) (m : ℤ) → i < length graph.tasks →
        ((window_at windows i m).lead + (task_at graph i).wcet ≤ (window_at windows i m).tail) ×
        ((window_at windows i m).tail ≤ (task_at graph i).due) }
{}

/// In a horizon within the limits no task has more jobs than the limit, and the end is within the
/// limit of events.
pub fn horizons_are_small()
    ensures jobs { (plan : PlanView) (h : Horizon) → IsHorizon plan h → (i : ℕ) →
        i < length plan.graph.tasks → (constants_of plan h).jobs i ≤ MAX_JOBS }
    ensures end { (plan : PlanView) (h : Horizon) → IsHorizon plan h → h.end ≤ MAX_EVENTS }
{}
