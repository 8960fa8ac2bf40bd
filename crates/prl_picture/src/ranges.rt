//! The range of ticks that is drawn.

ghost use Rattle.std.specs.Prelude.{◌≡◌, ◌<◌, ◌≤◌, ◌^◌, length};
ghost use Rattle.prl_picture.specs.Ranges.{IsRange};
ghost use Rattle.prl_shapes.specs.Views.{AreTasks};

use prl_base::TaskNo;
use prl_drawing::Scale;
use prl_plan::Plan;
use prl_views::{job_count, own_release, task_of};

/// How many jobs of a task can be read in its row.
pub const MOST: u64 = 100;

/// The part of a range that is drawn behind its end, where not all windows are drawn whole.
const MORE: u64 = 8;

/// The greatest tick that may be asked for.
pub const MAX_UNTIL: u64 = 2_147_483_647;

/// The shortest period of the tasks of the rows, where that is less than this one.
fn shortest(plan: &Plan, rows: &[u32]) -> u64
    requires { AreTasks plan.now rows.now }
    ensures { (1 ≤ result) × (result < 2 ^ 32) }
{
    let mut least: u64 = MAX_UNTIL;
    for r in 0..rows.len() {
        let period = task_of(plan, TaskNo(rows[r])).clock.period;
        if period < least && period >= 1 {
            least = period;
        }
    }
    least
}

/// The last tick before which all jobs that are released can be read.
fn readable(plan: &Plan, rows: &[u32], from: u64, until: u64) -> u64
    requires rows { AreTasks plan.now rows.now }
    requires range { (from < until) × (until < 2 ^ 32) }
    ensures { (from < result) × (result ≤ until) }
{
    until.min(from + MOST * shortest(plan, rows))
}

/// The last of the own deadlines of the jobs of a task that are released before a tick; that tick, where it is later.
fn end_of_task(plan: &Plan, i: TaskNo, until: u64) -> u64
    requires task { i.0 < length plan.now.graph.tasks }
    requires until { until < 2 ^ 32 }
    ensures { (until ≤ result) × (result < 2 ^ 33) }
{
    let jobs = job_count(plan, i, until);
    if jobs == 0 {
        return until;
    }
    let due = task_of(plan, i).due;
    until.max(own_release(plan, i, jobs - 1, until) + due)
}

/// The last tick that is drawn.
fn end_of(plan: &Plan, rows: &[u32], until: u64) -> u64
    requires rows { AreTasks plan.now rows.now }
    requires until { until < 2 ^ 32 }
    ensures { (until ≤ result) × (result < 2 ^ 33) }
{
    let mut end = until;
    for r in 0..rows.len() {
        end = end.max(end_of_task(plan, TaskNo(rows[r]), until));
    }
    end
}

/// The last tick that is drawn of a range up to `until`: each window whose job is released before
/// `whole` is drawn whole, and of the others some ticks are.
fn end_with(plan: &Plan, rows: &[u32], from: u64, until: u64, whole: u64) -> u64
    requires rows { AreTasks plan.now rows.now }
    requires range { (from < until) × (until < 2 ^ 32) }
    ensures { (until ≤ result) × (result < 2 ^ 33) }
{
    if until <= whole {
        return end_of(plan, rows, until);
    }
    end_of(plan, rows, whole).max(until + (until - from) / MORE)
}

/// What of a range is drawn: the jobs that are released from its first tick on and before its last, as far as they can be read.
/// The windows are drawn whole of those that are released before `whole`.
pub(crate) fn scale_of(plan: &Plan, rows: &[u32], from: u64, until: u64, whole: u64) -> Scale
    requires rows { AreTasks plan.now rows.now }
    requires range { (from < until) × (until < 2 ^ 32) }
    ensures { IsRange from until result }
{
    let last = readable(plan, rows, from, until);
    Scale {
        from,
        until: last,
        span: end_with(plan, rows, from, last, whole) - from,
    }
}

/// How many jobs of a range are not drawn.
pub(crate) fn left_out(plan: &Plan, rows: &[u32], drawn: u64, until: u64) -> u64
    requires rows { AreTasks plan.now rows.now }
    requires range { (drawn ≤ until) × (until < 2 ^ 32) }
{
    let mut jobs: u64 = 0;
    for r in 0..rows.len() {
        let i = TaskNo(rows[r]);
        let more = job_count(plan, i, until).saturating_sub(job_count(plan, i, drawn));
        jobs = jobs.saturating_add(more);
    }
    jobs
}
