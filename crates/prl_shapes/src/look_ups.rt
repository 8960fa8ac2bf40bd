//! What a plan tells of the jobs of a range.

ghost use Rattle.std.specs.Prelude.{◌≡◌, ◌+◌, ◌*◌, ◌<◌, ◌≤◌, ◌^◌, length};
ghost use Rattle.prl_plan.specs.Vocabulary.{IsEdge, IsTask, job_count, task_at, operand_of};
ghost use Rattle.prl_plan.specs.Vocabulary.{deadline_at, edge_at, release_at};
ghost use Rattle.prl_cores.specs.Spreads.{IsSpreadOf, LeavesRoom};
ghost use Rattle.prl_shapes.specs.Shown.{IsOfPlan, placed_release, released_at};

use crate::kinds::Shown;
use prl_base::{EdgeNo, TaskNo};
use prl_cores::Spread;
use prl_plan::{Edge, Operand, Plan, Task, horizon_jobs_are_counted, look_ups_fit, plan_is_one};

/// A task of the plan.
pub fn task_of(plan: &Plan, i: TaskNo) -> &Task
    requires { i.0 < length plan.now.graph.tasks }
    ensures task { result.now ≡ task_at plan.now.graph i.0 }
    ensures fits { IsTask plan.now.graph.hyper (task_at plan.now.graph i.0) }
{
    plan_is_one(plan);
    &plan.graph().tasks.as_slice()[i.0 as usize]
}

/// How many jobs of a task are released before a tick.
pub fn job_count(plan: &Plan, i: TaskNo, until: u64) -> u64
    requires task { i.0 < length plan.now.graph.tasks }
    requires until { until < 2 ^ 32 }
    ensures exact { result ≡ job_count (task_at plan.now.graph i.0) until }
    ensures few { result < 2 ^ 32 }
{
    let clock = task_of(plan, i).clock;
    (until.saturating_sub(clock.start) + (clock.period - 1)) / clock.period
}

/// When a job is released, in ticks.
pub fn own_release(plan: &Plan, i: TaskNo, n: u64, until: u64) -> u64
    requires task { i.0 < length plan.now.graph.tasks }
    requires until { until < 2 ^ 32 }
    requires job { n < job_count (task_at plan.now.graph i.0) until }
    ensures exact { result ≡ (task_at plan.now.graph i.0).clock.start + n * (task_at plan.now.graph i.0).clock.period }
    ensures early { result < 2 ^ 32 }
{
    let clock = task_of(plan, i).clock;
    clock.start + n * clock.period
}

/// The encoded release and the encoded deadline of a job, in ticks.
pub fn dates_of(plan: &Plan, i: TaskNo, n: u64, until: u64) -> (u64, u64)
    requires task { i.0 < length plan.now.graph.tasks }
    requires until { until < 2 ^ 32 }
    requires job { n < job_count (task_at plan.now.graph i.0) until }
    ensures release { result.0 ≡ release_at plan.now i.0 n }
    ensures deadline { result.1 ≡ deadline_at plan.now i.0 n }
    ensures early { result.0 < 2 ^ 33 }
    ensures due { result.1 < 2 ^ 33 }
{
    plan_is_one(plan);
    look_ups_fit();
    horizon_jobs_are_counted();
    let _task = task_of(plan, i);
    (plan.release(i, n), plan.deadline(i, n))
}

/// When a job is released, in ticks: as the plan has it, or as it is spread over processors.
pub fn released(plan: &Plan, shown: &Shown, i: TaskNo, n: u64, until: u64) -> u64
    requires task { i.0 < length plan.now.graph.tasks }
    requires until { until < 2 ^ 32 }
    requires job { n < job_count (task_at plan.now.graph i.0) until }
    requires shown { IsOfPlan plan.now shown.now }
    ensures exact { result ≡ released_at plan.now shown.now i.0 n }
    ensures early { result < 2 ^ 33 }
{
    let (release, _deadline) = dates_of(plan, i, n, until);
    match shown {
        Shown::Cores(spread, _) => spread_release_of(plan, spread, i, n, until),
        Shown::Events(_) => release,
        Shown::Verdict(..) => release,
        Shown::Table(_) => release,
    }
}

/// When a job is released on its processor, in ticks.
fn spread_release_of(plan: &Plan, spread: &Spread, i: TaskNo, n: u64, until: u64) -> u64
    requires task { i.0 < length plan.now.graph.tasks }
    requires until { until < 2 ^ 32 }
    requires job { n < job_count (task_at plan.now.graph i.0) until }
    requires spread { IsSpreadOf plan.now spread.now × LeavesRoom plan.now spread.now.placement }
    ensures exact { result ≡ placed_release plan.now spread.now.placement i.0 n }
    ensures early { result < 2 ^ 33 }
{
    let _dates = dates_of(plan, i, n, until);
    spread.placed().release(plan, i, n)
}

/// The edge of this number.
pub fn edge_of(plan: &Plan, e: EdgeNo) -> &Edge
    requires { e.0 < length plan.now.graph.edges }
    ensures edge { result.now ≡ edge_at plan.now.graph e.0 }
    ensures fits { IsEdge plan.now.graph (edge_at plan.now.graph e.0) }
{
    plan_is_one(plan);
    &plan.graph().edges.as_slice()[e.0 as usize]
}

/// What a job reads on an edge into its task.
pub fn operand_of(plan: &Plan, e: EdgeNo, n: u64, until: u64) -> Operand
    requires edge { e.0 < length plan.now.graph.edges }
    requires task { (edge_at plan.now.graph e.0).to.0 < length plan.now.graph.tasks }
    requires until { until < 2 ^ 32 }
    requires job { n < job_count (task_at plan.now.graph (edge_at plan.now.graph e.0).to.0) until }
    ensures { result ≡ operand_of (edge_at plan.now.graph e.0) n }
{
    plan_is_one(plan);
    look_ups_fit();
    let edge = edge_of(plan, e);
    let _dates = dates_of(plan, edge.to, n, until);
    plan.operand(e, n)
}
