//! The jobs that precede those of a hyperperiod, found run by run and turn by turn without a walk for
//! each job.

ghost use Rattle.std.specs.Prelude.{◌≡◌, ◌+◌, ◌<◌, ◌≤◌, ◌++◌, ◌^◌, ℕ, ℤ, pos, ◌≤ℤ◌, length, replicate, IfOk, slice_index_or};
ghost use Rattle.prl_plan.specs.Vocabulary.{preceding, PrecedingFits};
ghost use Rattle.prl_dates.specs.code.Runs.{Rises, AreFitting, IsSameTo};

use crate::numbers::preceding_job;
use crate::turns::turn_within;
use prl_base::Op;
use std::alloc::{AllocError, Global};

/// A job of a run, and a step on from it.
#[derive(Clone, Copy)]
struct Stride {
    last: u64,
    step: u64,
}

/// Adds the value so many times.
pub(crate) fn push_times<T: Copy>(
    table: &mut Vec<T>,
    value: T,
    count: u64,
) -> Result<(), AllocError>
    ensures { IfOk result (λ done. table.new.items ≡ table.old.items ++ replicate count value) }
{
    for _ in 0..count {
        table.push(value)?;
    }
    Ok(())
}

/// A late job of the run of job `from`, found by steps that double.
fn leap(ops: &[Op], from: u64, value: i64, jobs: u64) -> Stride
    requires fits { AreFitting ops.now jobs }
    requires few { jobs < 2 ^ 32 }
    requires inside { from < jobs }
    requires value { preceding ops.now (pos from) ≡ value }
    ensures same { IsSameTo ops.now from value jobs result.last }
    ensures step { result.step < 2 ^ 34 }
{
    let mut last = from;
    let mut step = 1;
    while step < jobs - last && preceding_job(ops, (last + step) as i64) == value {
        last += step;
        step *= 2;
    }
    Stride { last, step }
}

/// The end of the run of job `from`: all jobs from it on and below the end are preceded by the
/// same job.
fn end_of_run(ops: &[Op], from: u64, value: i64, jobs: u64) -> u64
    requires fits { AreFitting ops.now jobs }
    requires few { jobs < 2 ^ 32 }
    requires rises { Rises ops.now }
    requires inside { from < jobs }
    requires value { preceding ops.now (pos from) ≡ value }
    ensures after { from < result }
    ensures within { result ≤ jobs }
    ensures same { (k : ℕ) → from ≤ k → k < result → preceding ops.now (pos k) ≡ value }
{
    let Stride { mut last, mut step } = leap(ops, from, value, jobs);
    while step > 1 {
        step /= 2;
        if step < jobs - last && preceding_job(ops, (last + step) as i64) == value {
            last += step;
        }
    }
    last + 1
}

/// The numbers of the jobs that precede the first `count` jobs, with room for more.
fn first_numbers(alloc: Global, ops: &[Op], count: u64, room: u64) -> Result<Vec<i64>, AllocError>
    requires fits { AreFitting ops.now count }
    requires few { count < 2 ^ 32 }
    requires rises { Rises ops.now }
    ensures long { IfOk result (λ v. length v.items ≡ count) }
    ensures each { IfOk result (λ v. (n : ℕ) → n < count → slice_index_or v.items n (pos 0) ≡ preceding ops.now (pos n)) }
{
    let mut numbers = Vec::with_capacity(alloc, room as usize)?;
    let mut n = 0;
    while n < count {
        let number = preceding_job(ops, n as i64);
        let end = end_of_run(ops, n, number, count);
        push_times(&mut numbers, number, end - n)?;
        n = end;
    }
    Ok(numbers)
}

/// The numbers of the jobs that precede the first `jobs` jobs over these operators: those of one
/// turn, and then each from the job a turn before.
pub(crate) fn numbers_over(alloc: Global, ops: &[Op], jobs: u64) -> Result<Vec<i64>, AllocError>
    requires some { 1 ≤ jobs }
    requires fits { AreFitting ops.now jobs }
    requires few { jobs < 2 ^ 32 }
    requires rises { Rises ops.now }
    ensures long { IfOk result (λ v. length v.items ≡ jobs) }
    ensures each { IfOk result (λ v. (n : ℕ) → n < jobs → slice_index_or v.items n (pos 0) ≡ preceding ops.now (pos n)) }
{
    let turn = turn_within(ops, jobs);
    let mut numbers = first_numbers(alloc, ops, turn.jobs, jobs)?;
    for n in turn.jobs..jobs {
        let before = numbers[(n - turn.jobs) as usize];
        numbers.push(before + turn.higher as i64)?;
    }
    Ok(numbers)
}
