//! How old the value of a sensor is where an actuator uses it.

ghost use Rattle.std.specs.Prelude.{◌≡◌, ◌+◌, ◌<◌, ◌≤◌, ◌^◌, length};
ghost use Rattle.prl_plan.specs.Vocabulary.{IsPlan, task_at};
ghost use Rattle.prl_ages.specs.Ages.{released, age_of, jobs_later};

use prl_base::{Clock, TaskNo};
use prl_plan::Plan;

/// Until when the value counts that a job of an actuator uses.
#[derive(Clone, Copy, PartialEq, Eq)]
pub enum Until {
    /// Until that job is due.
    Used,
    /// Until the next job of the actuator is due, which uses another.
    Replaced,
}

/// How old the value of a sensor is where an actuator uses it.
#[derive(Clone, Copy, PartialEq, Eq)]
pub struct Age {
    pub ticks: u64,
    /// The job of the actuator.
    pub job: u64,
    /// The latest instance of the sensor that reaches this job.
    pub instance: u64,
}

/// How many jobs later the value of a job counts no longer.
fn jobs_later(until: Until) -> u64
    ensures later { result ≡ jobs_later until }
    ensures few { result ≤ 1 }
{
    match until {
        Until::Used => 0,
        Until::Replaced => 1,
    }
}

/// The clock of a task.
pub(crate) fn clock_of(plan: &Plan, i: TaskNo) -> Clock
    requires { i.0 < length plan.now.graph.tasks }
    ensures clock { result ≡ (task_at plan.now.graph i.0).clock }
    ensures plan { IsPlan plan.now }
{
    plan.graph().tasks.as_slice()[i.0 as usize].clock
}

/// The deadline of the jobs of a task, after their release.
fn due_of(plan: &Plan, i: TaskNo) -> u64
    requires { i.0 < length plan.now.graph.tasks }
    ensures due { result ≡ (task_at plan.now.graph i.0).due }
    ensures plan { IsPlan plan.now }
{
    plan.graph().tasks.as_slice()[i.0 as usize].due
}

/// When job `n` of a task is released, in ticks.
pub(crate) fn released(plan: &Plan, i: TaskNo, n: u64) -> u64
    requires task { i.0 < length plan.now.graph.tasks }
    requires small { released plan.now.graph i.0 n < 2 ^ 62 }
    ensures { result ≡ released plan.now.graph i.0 n }
{
    let clock = clock_of(plan, i);
    clock.start + n * clock.period
}

/// The age of instance `m` of sensor `s`, the freshest at job `k` of actuator `a`, in ticks.
pub(crate) fn age_of(plan: &Plan, s: TaskNo, m: u64, a: TaskNo, until: Until, k: u64) -> u64
    requires sensor { s.0 < length plan.now.graph.tasks }
    requires actuator { a.0 < length plan.now.graph.tasks }
    requires small { released plan.now.graph a.0 (k + 1) < 2 ^ 62 }
    requires early { released plan.now.graph s.0 m ≤ released plan.now.graph a.0 k }
    ensures { result ≡ age_of plan.now.graph s.0 m a.0 until k }
{
    let due = due_of(plan, a);
    let last = released(plan, a, k + jobs_later(until));
    last + due - released(plan, s, m)
}
