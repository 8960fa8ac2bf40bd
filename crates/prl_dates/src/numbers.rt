//! Numbers of jobs: how many there are in a hyperperiod, where they stand in tables, and which
//! precede which.

ghost use Rattle.std.specs.Prelude.{◌≡◌, ◌+◌, ◌<◌, ◌≤◌, ◌^◌, ◌∷◌, [], ℤ, pos, ◌*ℤ◌, length};
ghost use Rattle.prl_base.specs.Operators.{preceding_number};
ghost use Rattle.prl_plan.specs.Vocabulary.{place_in, IsWellFormed, task_at, release_of, preceding};
ghost use Rattle.prl_plan.specs.Vocabulary.{Fits64, PrecedingFits};
ghost use Rattle.prl_plan.specs.declared.limits.TheConstants.{MAX_PERIOD_JOBS};
ghost use Rattle.prl_dates.specs.Faults.{jobs_of};
ghost use Rattle.prl_dates.specs.code.Indices.{jobs_before};

use prl_base::{Op, TaskNo};
use prl_plan::{Task, TaskGraph};

/// How many jobs the task has in a hyperperiod.
pub(crate) fn jobs_of(graph: &TaskGraph, i: TaskNo) -> u64
    requires well { IsWellFormed graph.now }
    requires task { i.0 < length graph.now.tasks }
    ensures jobs { result ≡ jobs_of graph.now i.0 }
    ensures some { 1 ≤ result }
{
    graph.hyper / graph.tasks.as_slice()[i.0 as usize].clock.period
}

/// The WCET of the task, in ticks.
pub(crate) fn wcet_of(graph: &TaskGraph, i: TaskNo) -> u32
    requires { i.0 < length graph.now.tasks }
    ensures { result ≡ (task_at graph.now i.0).wcet }
{
    graph.tasks.as_slice()[i.0 as usize].wcet
}

/// How many jobs the first `count` tasks have in a hyperperiod.
pub(crate) fn jobs_before(graph: &TaskGraph, count: u32) -> u64
    requires well { IsWellFormed graph.now }
    requires tasks { count ≤ length graph.now.tasks }
    ensures jobs { result ≡ jobs_before graph.now count }
    ensures few { result ≤ MAX_PERIOD_JOBS }
{
    let mut jobs = 0;
    for i in 0..count {
        jobs += jobs_of(graph, TaskNo(i));
    }
    jobs
}

/// The place of a number in a list of this length that repeats in both directions.
pub(crate) fn place_in(m: i64, len: u64) -> u64
    requires { 1 ≤ len }
    ensures place { result ≡ place_in m len }
    ensures below { result < len }
{
    if m >= 0 {
        m as u64 % len
    } else {
        len - 1 - (-1 - m) as u64 % len
    }
}

/// When job `m` of the task is released, in ticks.
pub(crate) fn release(task: &Task, m: i64) -> i64
    requires start { task.now.clock.start < 2 ^ 31 }
    requires period { task.now.clock.period < 2 ^ 31 }
    requires product { Fits64 (m *ℤ pos task.now.clock.period) }
    requires fits { Fits64 (release_of task.now m) }
    ensures { result ≡ release_of task.now m }
{
    task.clock.start as i64 + m * task.clock.period as i64
}

/// The number of the job that precedes job `n` over the operator.
fn number_before(op: &Op, n: i64) -> i64
    requires { PrecedingFits (op.now ∷ []) n }
    ensures { result ≡ preceding_number op.now n }
{
    match *op {
        Op::Up(k) if n >= 0 => n / i64::from(k),
        Op::Up(k) => -1 - (-1 - n) / i64::from(k),
        Op::Down(k) => i64::from(k) * n,
        Op::Shift(_) => n,
        Op::Tail => n + 1,
        Op::Cons(_) | Op::Fby(_) => n - 1,
    }
}

/// The number of the producer's job that precedes job `n` of the consumer, over the operators from
/// the consumer's end on.
pub(crate) fn preceding_job(ops: &[Op], n: i64) -> i64
    requires { PrecedingFits ops.now n }
    ensures { result ≡ preceding ops.now n }
{
    let mut number = n;
    for op in ops {
        number = number_before(op, number);
    }
    number
}
