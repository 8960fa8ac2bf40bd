//! Laws of what reaches a job, as functions that do nothing: the contract of each is the law.

ghost use Rattle.std.specs.Prelude.{◌≡◌, ◌+◌, ◌<◌, ◌≤◌, ◌⊎◌, ℕ, List, [], Some, length};
ghost use Rattle.prl_base.specs.declared.numbers.TaskNo.{TaskNo};
ghost use Rattle.prl_plan.specs.declared.graphs.TaskGraph.{TaskGraph};
ghost use Rattle.prl_plan.specs.Vocabulary.{IsWellFormed, IsPlan, PlanView};
ghost use Rattle.prl_ages.specs.Reaching.{Reaches, IsFreshest, jobs_of};
ghost use Rattle.prl_ages.specs.declared.ages.Age.{Age};
ghost use Rattle.prl_ages.specs.declared.ages.Until.{Until};
ghost use Rattle.prl_ages.specs.declared.ages.Until.TheVariants as untils;
ghost use Rattle.prl_ages.specs.Reactions.{IsWorstReaction};
ghost use Rattle.prl_ages.specs.Settling.{CoverAllConstants, IsSettledFrom};
ghost use Rattle.prl_ages.specs.Ages.{released, age_of, IsWorstAge};
ghost use Rattle.prl_ages.specs.Spans.{IsWorstOf};

use prl_plan::encoded_dates_keep_order;

/// What a job depends on, a later job of its task depends on too, or on a later instance.
pub fn reaching_rises()
    ensures { (graph : TaskGraph) (chain : List TaskNo) → IsWellFormed graph → (s m t n l : ℕ) → Reaches graph chain s m t n → n ≤ l →
        (later : ℕ) × (m ≤ later) × Reaches graph chain s later t l }
{}

/// What reaches a job comes again a hyperperiod later.
pub fn reaching_repeats()
    ensures { (graph : TaskGraph) (chain : List TaskNo) → IsWellFormed graph → (s m t n : ℕ) → s < length graph.tasks → Reaches graph chain s m t n →
        Reaches graph chain s (m + jobs_of graph s) t (n + jobs_of graph t) }
{}

/// What reaches a job along a chain of tasks reaches it.
pub fn reaching_along_a_chain_reaches()
    ensures { (graph : TaskGraph) (chain : List TaskNo) (s m t n : ℕ) → Reaches graph chain s m t n → Reaches graph [] s m t n }
{}

/// An instance that reaches a job is not released later.
pub fn reaching_is_not_later()
    ensures { (graph : TaskGraph) (chain : List TaskNo) → IsWellFormed graph → (s m t n : ℕ) → Reaches graph chain s m t n → released graph s m ≤ released graph t n }
{}

/// A hyperperiod later an actuator's value is not older: so the jobs of the first hyperperiod that depend on a sensor show the
/// worst age of all.
pub fn ages_fall()
    ensures { (graph : TaskGraph) (chain : List TaskNo) → IsWellFormed graph → (s a m k later : ℕ) (until : Until) → s < length graph.tasks → a < length graph.tasks →
        IsFreshest graph chain s m a k → IsFreshest graph chain s later a (k + jobs_of graph a) →
        age_of graph s later a until (k + jobs_of graph a) ≤ age_of graph s m a until k }
{}

/// Where one of the first jobs of an actuator depends on a sensor, the worst age among these and the jobs of one hyperperiod
/// after them is the worst of all jobs.
pub fn first_jobs_show_the_worst_age()
    ensures { (graph : TaskGraph) (chain : List TaskNo) → IsWellFormed graph → (s a : ℕ) (until : Until) (jobs : ℕ) (worst : Age) → s < length graph.tasks →
        a < length graph.tasks → (m k : ℕ) → Reaches graph chain s m a k → k + jobs_of graph a ≤ jobs →
        IsWorstOf graph chain s a until 0 jobs (Some worst) → IsWorstAge graph chain s a until worst.ticks }
{}

/// Of the instances of a task that reach a job, one is the latest, or none reaches it.
pub fn some_instance_is_the_freshest()
    ensures { (plan : PlanView) (chain : List TaskNo) → IsPlan plan → (s t n : ℕ) → s < length plan.graph.tasks → t < length plan.graph.tasks →
        ((m : ℕ) × IsFreshest plan.graph chain s m t n) ⊎ ((m : ℕ) → Reaches plan.graph chain s m t n → ⊥) }
{
    encoded_dates_keep_order();
}

/// The longest that a change at a sensor takes to show at an actuator is the worst age of a value that counts until it is
/// replaced.
pub fn worst_reaction_is_the_worst_age()
    ensures { (plan : PlanView) (chain : List TaskNo) → IsPlan plan → (s a ticks : ℕ) → s < length plan.graph.tasks → a < length plan.graph.tasks →
        IsWorstAge plan.graph chain s a untils.Replaced ticks → IsWorstReaction plan.graph chain s a ticks }
{
    some_instance_is_the_freshest();
}

/// From so many hyperperiods on as all tasks together take to read the constants that come first, the freshest instance of a job
/// a hyperperiod later is the freshest of the job, a hyperperiod later, and no other.
pub fn freshest_instances_settle()
    ensures later { (graph : TaskGraph) (chain : List TaskNo) → IsWellFormed graph → (turns : ℕ → ℕ) → CoverAllConstants graph turns → (s t m n : ℕ) → s < length graph.tasks →
        t < length graph.tasks → IsSettledFrom graph turns t n → IsFreshest graph chain s m t n →
        IsFreshest graph chain s (m + jobs_of graph s) t (n + jobs_of graph t) }
    ensures earlier { (graph : TaskGraph) (chain : List TaskNo) → IsWellFormed graph → (turns : ℕ → ℕ) → CoverAllConstants graph turns → (s t l n : ℕ) → s < length graph.tasks →
        t < length graph.tasks → IsSettledFrom graph turns t n → IsFreshest graph chain s l t (n + jobs_of graph t) →
        (m : ℕ) × (l ≡ m + jobs_of graph s) × IsFreshest graph chain s m t n }
{}
