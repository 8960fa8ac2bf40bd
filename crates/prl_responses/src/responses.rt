//! How soon the jobs of each task end in a run.

ghost use Rattle.std.specs.Prelude.{◌≡◌, ◌+◌, ◌-◌, ◌<◌, ◌^◌, ℕ, IfOk, length};
ghost use Rattle.prl_plan.specs.Vocabulary.{IsHorizon, constants_of};
ghost use Rattle.prl_overlaps.specs.Demand.{wcets_of};
ghost use Rattle.prl_edf.specs.Vocabulary.{IsFeasibleRun, run_of};
ghost use Rattle.prl_ages.specs.Ages.{released, due_by};
ghost use Rattle.prl_responses.specs.Responses.{times_at, IsTimesOf};
ghost use Rattle.prl_responses.specs.code.PieceTimes.{slower, tighter, with_job, AllFitOwn, AreAllTimes, FitsOwn};

use prl_base::TaskNo;
use prl_edf::{Piece, Timed};
use prl_plan::{Horizon, Plan, plan_facts, plan_is_one};
use std::alloc::{AllocError, Global};

/// How soon the jobs of a task end in a run.
#[derive(Clone, Copy, PartialEq, Eq)]
pub struct Times {
    /// The worst response, from the release of a job until its end, in ticks.
    pub response: u64,
    /// The job that has it.
    pub slowest: u64,
    /// The least slack, from the end of a job until its deadline, in ticks.
    pub slack: u64,
    /// The job that has it.
    pub tightest: u64,
}

/// When job `n` of a task is released, in ticks.
fn released(plan: &Plan, i: TaskNo, n: u64) -> u64
    requires task { i.0 < length plan.now.graph.tasks }
    requires small { released plan.now.graph i.0 n < 2 ^ 63 }
    ensures { result ≡ released plan.now.graph i.0 n }
{
    let clock = plan.graph().tasks.as_slice()[i.0 as usize].clock;
    clock.start + n * clock.period
}

/// By when job `n` of a task is to have ended, in ticks.
fn due_by(plan: &Plan, i: TaskNo, n: u64) -> u64
    requires task { i.0 < length plan.now.graph.tasks }
    requires small { due_by plan.now.graph i.0 n < 2 ^ 63 }
    ensures { result ≡ due_by plan.now.graph i.0 n }
{
    let due = plan.graph().tasks.as_slice()[i.0 as usize].due;
    released(plan, i, n) + due
}

/// The times with a job that ends so late after its release.
fn slower(times: Times, response: u64, job: u64) -> Times
    ensures { result ≡ slower times response job }
{
    if times.response < response {
        Times {
            response,
            slowest: job,
            ..times
        }
    } else {
        times
    }
}

/// The times with a job that ends so long before its deadline.
fn tighter(times: Times, slack: u64, job: u64) -> Times
    ensures { result ≡ tighter times slack job }
{
    if slack < times.slack {
        Times {
            slack,
            tightest: job,
            ..times
        }
    } else {
        times
    }
}

/// The times with those of one job more: it ends so late after its release, and so long before its deadline.
fn with_job(times: Option<Times>, response: u64, slack: u64, job: u64) -> Option<Times>
    ensures { result ≡ with_job times response slack job }
{
    match times {
        None => Some(Times {
            response,
            slowest: job,
            slack,
            tightest: job,
        }),
        Some(times) => Some(tighter(slower(times, response, job), slack, job)),
    }
}

/// How late after its release a piece's job has got that far.
fn late(plan: &Plan, piece: Piece) -> u64
    requires { FitsOwn plan.now.graph piece }
    ensures { result ≡ piece.to - released plan.now.graph piece.task.0 piece.job }
{
    piece.to - released(plan, piece.task, piece.job)
}

/// How early before its deadline a piece's job has got that far.
fn early(plan: &Plan, piece: Piece) -> u64
    requires { FitsOwn plan.now.graph piece }
    ensures { result ≡ due_by plan.now.graph piece.task.0 piece.job - piece.to }
{
    due_by(plan, piece.task, piece.job) - piece.to
}

/// The times with one piece of the run more. A job has ended with its last piece, so that the others change nothing.
fn take_piece(plan: &Plan, pieces: &[Piece], k: usize, list: &mut [Option<Times>])
    requires fit { AllFitOwn plan.now.graph pieces.now }
    requires inside { k < length pieces.now }
    requires are { AreAllTimes plan.now.graph pieces.now k list.old }
    ensures { AreAllTimes plan.now.graph pieces.now (k + 1) list.new }
{
    let piece = pieces[k];
    let (response, slack) = (late(plan, piece), early(plan, piece));
    let times = with_job(list[piece.task.0 as usize], response, slack, piece.job);
    list[piece.task.0 as usize] = times;
}

/// By task, the times over some pieces.
fn times_over(
    alloc: Global,
    plan: &Plan,
    pieces: &[Piece],
) -> Result<Vec<Option<Times>>, AllocError>
    requires { AllFitOwn plan.now.graph pieces.now }
    ensures { IfOk result (λ list. AreAllTimes plan.now.graph pieces.now (length pieces.now) list.items) }
{
    let mut list = vec![in alloc; None; plan.graph().tasks.len()]?;
    for k in 0..pieces.len() {
        take_piece(plan, pieces, k, list.as_mut_slice());
    }
    Ok(list)
}

/// By task, how soon its jobs end in the run by earliest deadline first of a horizon that meets all deadlines; none where the run
/// has no job of it.
pub fn times_of(
    alloc: Global,
    plan: &Plan,
    horizon: Horizon,
    timed: &Timed,
) -> Result<Vec<Option<Times>>, AllocError>
    requires horizon { IsHorizon plan.now horizon }
    requires run { IsFeasibleRun (constants_of plan.now horizon) (wcets_of plan.now) timed.now }
    ensures long { IfOk result (λ list. length list.items ≡ length plan.now.graph.tasks) }
    ensures times { IfOk result (λ list. (i : ℕ) → i < length plan.now.graph.tasks → IsTimesOf plan.now.graph (run_of timed.now.pieces) i (times_at list.items i)) }
{
    plan_is_one(plan);
    plan_facts(plan, horizon);
    let list = times_over(alloc, plan, timed.pieces.as_slice())?;
    Ok(list)
}
