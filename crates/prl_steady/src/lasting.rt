//! How soon the jobs of each task end, over all jobs for ever.

ghost use Rattle.std.specs.Prelude.{◌≡◌, ◌+◌, ◌*◌, ◌<◌, ◌^◌, ℕ, IfErr, IfOk, length};
ghost use Rattle.prl_table.specs.Made.{cut_from, greatest_start, run_until};
ghost use Rattle.prl_responses.specs.Responses.{times_at};
ghost use Rattle.prl_forever.specs.Forever.{ServesForEver};
ghost use Rattle.prl_steady.specs.Times.{IsTimesFault, IsTimesForEver};

use crate::laws::times_last;
use prl_base::Limit;
use prl_edf::{Verdict, analyse};
use prl_plan::{Horizon, Plan, Task, plan_is_one};
use prl_responses::{Times, times_of};
use std::alloc::Global;

/// Why the times over all jobs are not found.
#[derive(Clone, Copy)]
pub enum TimesFault {
    /// The run that tells them goes past tick 2,147,483,647.
    TooFar,
    /// It has too many jobs or events.
    Limit(Limit),
    Memory,
}

/// The greatest start of a task, in ticks.
pub(crate) fn greatest_start(tasks: &[Task]) -> u64
    ensures { result ≡ greatest_start tasks.now }
{
    let mut greatest = 0;
    for back in 0..tasks.len() {
        greatest = tasks[tasks.len() - 1 - back].clock.start.max(greatest);
    }
    greatest
}

/// The first tick from which on the run repeats: a hyperperiod begins there, and all tasks have started one before.
fn repeats_from(plan: &Plan) -> u64
    ensures tick { result ≡ cut_from plan.now }
    ensures small { result < 2 ^ 33 }
{
    plan_is_one(plan);
    let graph = plan.graph();
    let before = greatest_start(graph.tasks.as_slice()).div_ceil(graph.hyper);
    (1 + before) * graph.hyper
}

/// By task of a plan that one processor serves for ever, its worst response and its least slack over all jobs, however late they
/// are released: those of the run up to two hyperperiods after it has begun to repeat.
pub fn times_for_ever(alloc: Global, plan: &Plan) -> Result<Vec<Option<Times>>, TimesFault>
    requires { ServesForEver plan.now }
    ensures long { IfOk result (λ list. length list.items ≡ length plan.now.graph.tasks) }
    ensures times { IfOk result (λ list. (i : ℕ) → i < length plan.now.graph.tasks → IsTimesForEver plan.now i (times_at list.items i)) }
    ensures cause { IfErr result (IsTimesFault plan.now) }
{
    times_last();
    plan_is_one(plan);
    let until = repeats_from(plan) + 2 * plan.graph().hyper;
    if until > 2_147_483_647 {
        return Err(TimesFault::TooFar);
    }
    match Horizon::new(plan, until as u32) {
        Err(limit) => Err(TimesFault::Limit(limit)),
        Ok(horizon) => match analyse(alloc, plan, horizon) {
            Ok(Verdict::Run(timed)) => match times_of(alloc, plan, horizon, &timed) {
                Ok(times) => Ok(times),
                Err(_) => Err(TimesFault::Memory),
            },
            Ok(Verdict::Overload { .. }) => unreachable!(),
            Err(_) => Err(TimesFault::Memory),
        },
    }
}
