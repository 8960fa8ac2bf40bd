//! The range that is drawn where the words do not ask for one: a hyperperiod, and more until each
//! precedence has an arrow.

ghost use Rattle.std.specs.Prelude.{◌≡◌, ◌<◌, ◌≤◌, ◌^◌, ◌⊎◌, ℕ, IfNone, IfSome, MatchOption, length, min, slice_index, true};
ghost use Rattle.prl_plan.specs.Vocabulary.{task_at, edge_at, ComesFrom};
ghost use Rattle.prl_picture.specs.Ranges.{EndsFirst, HasArrow, IsArrow, IsDefaultEnd, IsEndOf, IsEndOfReading, IsReleasedIn};
ghost use Rattle.prl_shapes.specs.Acts.{is_in};
ghost use Rattle.prl_shapes.specs.Views.{AreTasks};

use crate::ranges::MAX_UNTIL;
use prl_base::{EdgeNo, TaskNo};
use prl_plan::{Edge, Operand, Plan, Producer, horizon_jobs_are_counted, plan_is_one};
use prl_views::{edge_of, is_in, job_count, operand_of, own_release, task_of};

/// In how many hyperperiods an arrow is looked for.
pub const REACH: u64 = 4;

/// The producer of an edge, where both it and the consumer have a row.
fn producer_of(plan: &Plan, rows: &[u32], edge: &Edge) -> Option<TaskNo>
    ensures some { IfSome result (λ task. (task.0 < length plan.now.graph.tasks) × ComesFrom edge.now.from task.0
        × (is_in rows.now task.0 ≡ true) × (is_in rows.now edge.now.to.0 ≡ true)) }
    ensures none { IfNone result ((i : ℕ) → i < length plan.now.graph.tasks → ComesFrom edge.now.from i → is_in rows.now i ≡ true → is_in rows.now edge.now.to.0 ≡ true → ⊥) }
{
    let Producer::Port { task, .. } = edge.from else {
        return None;
    };
    if (task.0 as usize) < plan.graph().tasks.len()
        && is_in(rows, task.0)
        && is_in(rows, edge.to.0)
    {
        Some(task)
    } else {
        None
    }
}

/// The tick after both releases, where job `n` of the consumer reads on an edge what a job of the
/// producer gives, and both are released in a range.
fn reading_end(plan: &Plan, e: EdgeNo, task: TaskNo, n: u64, from: u64, limit: u64) -> Option<u64>
    requires edge { e.0 < length plan.now.graph.edges }
    requires task { task.0 < length plan.now.graph.tasks }
    requires producer { ComesFrom (edge_at plan.now.graph e.0).from task.0 }
    requires limit { limit ≤ MAX_UNTIL }
    requires from { from ≤ MAX_UNTIL }
    requires job { IsReleasedIn plan.now from limit (edge_at plan.now.graph e.0).to.0 n }
    ensures { MatchOption result ((m : ℕ) → IsArrow plan.now from limit e.0 task.0 n m → ⊥) (IsEndOfReading plan.now from limit e.0 task.0 n) }
{
    horizon_jobs_are_counted();
    plan_is_one(plan);
    let to = edge_of(plan, e).to;
    let Operand::From(m) = operand_of(plan, e, n, limit) else {
        return None;
    };
    if m < job_count(plan, task, from) || m >= job_count(plan, task, limit) {
        return None;
    }
    let before = own_release(plan, task, m, limit);
    let after = own_release(plan, to, n, limit);
    Some(before.max(after) + 1)
}

/// The tick after which an edge has its first arrow, of a range up to a limit.
fn arrow_end(plan: &Plan, rows: &[u32], e: EdgeNo, from: u64, limit: u64) -> Option<u64>
    requires edge { e.0 < length plan.now.graph.edges }
    requires limit { limit ≤ MAX_UNTIL }
    requires from { from ≤ MAX_UNTIL }
    ensures { MatchOption result (HasArrow plan.now rows.now from limit e.0 → ⊥) (IsEndOf plan.now rows.now from limit e.0) }
{
    let edge = edge_of(plan, e);
    let task = producer_of(plan, rows, edge)?;
    let first = job_count(plan, edge.to, from);
    let last = job_count(plan, edge.to, limit);
    for n in first..last {
        if let Some(tick) = reading_end(plan, e, task, n, from, limit) {
            return Some(tick);
        }
    }
    None
}

/// The tick after which an edge has its first arrow, of a range up to a limit; another one, where that
/// is later or there is no arrow.
fn end_with(plan: &Plan, rows: &[u32], e: EdgeNo, from: u64, limit: u64, least: u64) -> u64
    requires edge { e.0 < length plan.now.graph.edges }
    requires limit { limit ≤ MAX_UNTIL }
    requires from { from ≤ MAX_UNTIL }
    ensures late { least ≤ result }
    ensures needed { (result ≡ least) ⊎ EndsFirst plan.now rows.now from limit e.0 result }
    ensures arrow { HasArrow plan.now rows.now from limit e.0 → (until : ℕ) → min result limit ≤ until → HasArrow plan.now rows.now from until e.0 }
{
    match arrow_end(plan, rows, e, from, limit) {
        None => least,
        Some(tick) => least.max(tick),
    }
}

/// The tick after which each edge has an arrow, of a range up to a limit; another one, where that is
/// later.
fn arrows_end(plan: &Plan, rows: &[u32], from: u64, limit: u64, least: u64) -> u64
    requires limit { limit ≤ MAX_UNTIL }
    requires from { from ≤ MAX_UNTIL }
    ensures late { least ≤ result }
    ensures needed { (result ≡ least) ⊎ ((e : ℕ) × (e < length plan.now.graph.edges) × EndsFirst plan.now rows.now from limit e result) }
    ensures arrows { (e : ℕ) → e < length plan.now.graph.edges → HasArrow plan.now rows.now from limit e → (until : ℕ) → min result limit ≤ until → HasArrow plan.now rows.now from until e }
{
    plan_is_one(plan);
    let mut end = least;
    for e in 0..plan.graph().edges.len() {
        end = end_with(plan, rows, EdgeNo(e as u32), from, limit, end);
    }
    end
}

/// The latest first release of the tasks of the rows.
fn latest_start(plan: &Plan, rows: &[u32]) -> u64
    requires rows { AreTasks plan.now rows.now }
    ensures small { result < 2 ^ 32 }
    ensures late { (r : ℕ) → r < length rows.now → (task_at plan.now.graph (slice_index rows.now r)).clock.start ≤ result }
    ensures of_row { (result ≡ 0) ⊎ ((r : ℕ) × (r < length rows.now) × (result ≡ (task_at plan.now.graph (slice_index rows.now r)).clock.start)) }
{
    let mut start: u64 = 0;
    for r in 0..rows.len() {
        start = start.max(task_of(plan, TaskNo(rows[r])).clock.start);
    }
    start
}

/// The tick after the last one where the words do not say it: of a range that has a hyperperiod at
/// least, and beside a table the first job of each class.
pub(crate) fn default_end(plan: &Plan, rows: &[u32], from: u64, table: bool) -> u64
    requires from { from ≤ MAX_UNTIL }
    requires rows { AreTasks plan.now rows.now }
    ensures { IsDefaultEnd plan.now rows.now table from result }
{
    plan_is_one(plan);
    let hyper = plan.graph().hyper;
    let least = (from + hyper).min(MAX_UNTIL);
    if table {
        return least.max(latest_start(plan, rows) + hyper).min(MAX_UNTIL);
    }
    let limit = (from + REACH * hyper).min(MAX_UNTIL);
    arrows_end(plan, rows, from, limit, least).min(MAX_UNTIL)
}
