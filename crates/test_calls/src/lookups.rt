//! Look-ups of a plan for its first jobs.

ghost use Rattle.std.specs.Prelude.{◌≡◌, ◌<◌, ◌≤◌, ◌^◌, length, true};
ghost use Rattle.prl_plan.specs.Vocabulary.{IsHorizonJob, IsPlan, edge_at};
ghost use Rattle.test_calls.specs.Early.{IsEarly};

use prl_base::{Clock, EdgeNo, TaskNo};
use prl_plan::{Operand, Plan, look_ups_fit};

/// Whether job `n` of a task with this clock is released before 2,000,000.
fn is_early_on(clock: Clock, n: u64) -> bool
    ensures { result ≡ true → IsEarly clock n }
{
    n <= 1000 && clock.start < 1_000_000 && clock.period < 1_000
}

/// Whether task `i` has a job `n` that is released before 2,000,000.
fn is_early(plan: &Plan, i: u32, n: u64) -> bool
    ensures early { result ≡ true → IsHorizonJob plan.now.graph (2 ^ 31) i n }
    ensures plan { IsPlan plan.now }
{
    let tasks = plan.graph().tasks.as_slice();
    (i as usize) < tasks.len() && is_early_on(tasks[i as usize].clock, n)
}

/// The encoded release and deadline of an early job.
pub fn dates_of(plan: &Plan, i: u32, n: u64) -> Option<(u64, u64)> {
    if is_early(plan, i, n) {
        look_ups_fit();
        Some((plan.release(TaskNo(i), n), plan.deadline(TaskNo(i), n)))
    } else {
        None
    }
}

/// The consumer of edge `e`.
fn consumer_of(plan: &Plan, e: u32) -> u32
    requires { e < length plan.now.graph.edges }
    ensures { result ≡ (edge_at plan.now.graph e).to.0 }
{
    plan.graph().edges.as_slice()[e as usize].to.0
}

/// What an early job reads on edge `e`.
pub fn operand_of(plan: &Plan, e: u32, n: u64) -> Option<Operand> {
    if (e as usize) < plan.graph().edges.len() && is_early(plan, consumer_of(plan, e), n) {
        look_ups_fit();
        Some(plan.operand(EdgeNo(e), n))
    } else {
        None
    }
}
