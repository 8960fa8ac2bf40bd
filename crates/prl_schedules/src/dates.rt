//! Jobs with their dates.

ghost use Rattle.std.specs.Prelude.{◌≡◌, ◌<◌, length, MatchOption};
ghost use Rattle.prl_plan.specs.Vocabulary.{IsTask, task_at};
ghost use Rattle.prl_schedules.specs.code.Dates.{IsLate, IsNext};

use crate::causes::DatedJob;
use prl_base::{Clock, TaskNo};
use prl_plan::{Plan, horizon_jobs_are_counted, look_ups_fit, plan_is_one};

/// The dates of runs are below this one.
pub(crate) const DATES: u64 = 4_294_967_296;

/// A job with its encoded dates, and when it is released by its task's clock.
#[derive(Clone, Copy)]
pub(crate) struct Next {
    pub(crate) job: DatedJob,
    pub(crate) own: u64,
}

/// The clock of a task.
fn clock_of(plan: &Plan, i: TaskNo) -> Clock
    requires { i.0 < length plan.now.graph.tasks }
    ensures clock { result ≡ (task_at plan.now.graph i.0).clock }
    ensures fits { IsTask plan.now.graph.hyper (task_at plan.now.graph i.0) }
{
    plan_is_one(plan);
    plan.graph().tasks.as_slice()[i.0 as usize].clock
}

/// Job `n` of task `i`; None where no run has it.
pub(crate) fn next_of(plan: &Plan, i: TaskNo, n: u64) -> Option<Next>
    requires { i.0 < length plan.now.graph.tasks }
    ensures { MatchOption result (IsLate plan.now i.0 n) (IsNext plan.now i.0 n) }
{
    plan_is_one(plan);
    look_ups_fit();
    horizon_jobs_are_counted();
    let clock = clock_of(plan, i);
    if n >= DATES {
        return None;
    }
    let own = clock.start + n * clock.period;
    if own + 1 >= DATES {
        return None;
    }
    let job = DatedJob {
        task: i,
        number: n,
        release: plan.release(i, n),
        deadline: plan.deadline(i, n),
    };
    Some(Next { job, own })
}
