//! Chains and circles of jobs in words.

ghost use Rattle.std.specs.Prelude.{◌≡◌, ◌++◌, OnOk};
ghost use Rattle.std.specs.List.{flat_map};
ghost use Rattle.prl_plan.specs.Jobs.{task_at};
ghost use Rattle.prl_ways.specs.Chains.{end_of};
ghost use Rattle.prl_ways.specs.ChainTexts.{again_text, begin_text, chain_text, circle_text, dated, due_text, last_text, loop_text, more_text, on_text, span_text, step_text, steps_text, until_text};

use crate::chains::Chain;
use crate::jobs::{WayJob, last_of};
use prl_base::{push_integer, push_number};
use prl_plan::TaskGraph;
use std::alloc::AllocError;

/// The name of a job's task; no bytes where that is not there.
fn name_in(graph: &TaskGraph, job: WayJob) -> &[u8]
    ensures { result.now ≡ (task_at graph.now job.task.0).name }
{
    match graph.tasks.as_slice().get(job.task.0 as usize) {
        None => &[],
        Some(task) => task.name.bytes(),
    }
}

/// The WCET of a job's task; 1 where that is not there.
fn wcet_or_one(graph: &TaskGraph, job: WayJob) -> u64
    ensures { result ≡ (task_at graph.now job.task.0).wcet }
{
    match graph.tasks.as_slice().get(job.task.0 as usize) {
        None => 1,
        Some(task) => u64::from(task.wcet),
    }
}

/// The due of a job's task; 1 where that is not there.
fn due_or_one(graph: &TaskGraph, job: WayJob) -> u64
    ensures { result ≡ (task_at graph.now job.task.0).due }
{
    match graph.tasks.as_slice().get(job.task.0 as usize) {
        None => 1,
        Some(task) => task.due,
    }
}

/// Appends a job with its WCET.
#[tactic(auto, unfolding(crate::specs::ChainTexts::step_text))]
fn push_step(text: &mut Vec<u8>, graph: &TaskGraph, job: WayJob) -> Result<(), AllocError>
    ensures { OnOk result (text.new.items ≡ text.old.items ++ step_text graph.now job) }
{
    text.extend_from_slice(b"job ")?;
    push_integer(text, job.number)?;
    text.extend_from_slice(b" of ")?;
    text.extend_from_slice(name_in(graph, job))?;
    text.extend_from_slice(b" takes ")?;
    push_number(text, wcet_or_one(graph, job))
}

/// Appends jobs, each after another one.
#[tactic(auto, unfolding(crate::specs::ChainTexts::more_text))]
fn push_more(text: &mut Vec<u8>, graph: &TaskGraph, jobs: &[WayJob]) -> Result<(), AllocError>
    ensures { OnOk result (text.new.items ≡ text.old.items ++ flat_map (more_text graph.now) jobs.now) }
{
    for job in jobs {
        text.extend_from_slice(b", then ")?;
        push_step(text, graph, *job)?;
    }
    Ok(())
}

/// Appends the jobs one after another.
#[tactic(auto, unfolding(crate::specs::ChainTexts::steps_text))]
fn push_steps(text: &mut Vec<u8>, graph: &TaskGraph, chain: &Chain) -> Result<(), AllocError>
    ensures { OnOk result (text.new.items ≡ text.old.items ++ steps_text graph.now chain.now) }
{
    push_step(text, graph, chain.first)?;
    push_more(text, graph, chain.rest.as_slice())
}

/// Appends words and a date.
#[tactic(auto, unfolding(crate::specs::ChainTexts::dated))]
fn push_dated(text: &mut Vec<u8>, front: &str, date: i64) -> Result<(), AllocError>
    ensures { OnOk result (text.new.items ≡ text.old.items ++ dated front.now date) }
{
    text.extend_from_slice(front.as_bytes())?;
    push_integer(text, date)
}

/// Appends the jobs after a word.
#[tactic(auto, unfolding(crate::specs::ChainTexts::on_text))]
fn push_on(text: &mut Vec<u8>, graph: &TaskGraph, chain: &Chain) -> Result<(), AllocError>
    ensures { OnOk result (text.new.items ≡ text.old.items ++ on_text graph.now chain.now) }
{
    text.extend_from_slice(b" on ")?;
    push_steps(text, graph, chain)
}

/// Appends from when on the chain goes, and its jobs.
#[tactic(auto, using(crate::proofs::Joins::joined), unfolding(crate::specs::ChainTexts::begin_text))]
fn push_begin(text: &mut Vec<u8>, graph: &TaskGraph, chain: &Chain) -> Result<(), AllocError>
    ensures { OnOk result (text.new.items ≡ text.old.items ++ begin_text graph.now chain.now) }
{
    push_dated(text, "rom tick ", chain.begins)?;
    push_on(text, graph, chain)
}

/// Appends until when the chain needs at the earliest.
#[tactic(auto, unfolding(crate::specs::ChainTexts::until_text))]
fn push_until(text: &mut Vec<u8>, chain: &Chain) -> Result<(), AllocError>
    ensures { OnOk result (text.new.items ≡ text.old.items ++ until_text chain.now) }
{
    push_dated(text, ": until tick ", chain.needs)
}

/// Appends words, and when the last job is released.
fn push_released(text: &mut Vec<u8>, front: &str, chain: &Chain) -> Result<(), AllocError>
    ensures { OnOk result (text.new.items ≡ text.old.items ++ dated front.now chain.now.released) }
{
    push_dated(text, front, chain.released)
}

/// Appends from when on the chain goes, its jobs, and until when it needs at the earliest.
#[tactic(auto, using(crate::proofs::Joins::joined), unfolding(crate::specs::ChainTexts::span_text))]
fn push_span(text: &mut Vec<u8>, graph: &TaskGraph, chain: &Chain) -> Result<(), AllocError>
    ensures { OnOk result (text.new.items ≡ text.old.items ++ span_text graph.now chain.now) }
{
    push_begin(text, graph, chain)?;
    push_until(text, chain)
}

/// The due of the last job of a chain; 1 where its task is not there.
#[tactic(auto, using(crate::proofs::Ends::due_is))]
fn last_due(graph: &TaskGraph, chain: &Chain) -> u64
    ensures { result ≡ (task_at graph.now (end_of chain.now).task).due }
{
    due_or_one(graph, last_of(chain.first, chain.rest.as_slice()))
}

/// Appends the due of the last job.
#[tactic(auto, unfolding(crate::specs::ChainTexts::due_text))]
fn push_due(text: &mut Vec<u8>, graph: &TaskGraph, chain: &Chain) -> Result<(), AllocError>
    ensures { OnOk result (text.new.items ≡ text.old.items ++ due_text graph.now chain.now) }
{
    text.extend_from_slice(b", and its due is ")?;
    push_number(text, last_due(graph, chain))?;
    text.extend_from_slice(b".\n")
}

/// Appends the release and the due of the last job.
fn push_last(text: &mut Vec<u8>, graph: &TaskGraph, chain: &Chain) -> Result<(), AllocError>
    ensures { OnOk result (text.new.items ≡ text.old.items ++ last_text graph.now chain.now) }
{
    let front = ".\nThe last of these jobs is released at tick ";
    push_released(text, front, chain)?;
    push_due(text, graph, chain)
}

/// Appends the chain with its dates, and the release and the due of its last job.
pub fn push_chain(text: &mut Vec<u8>, graph: &TaskGraph, chain: &Chain) -> Result<(), AllocError>
    ensures { OnOk result (text.new.items ≡ text.old.items ++ chain_text graph.now chain.now) }
{
    text.extend_from_slice(b"F")?;
    push_span(text, graph, chain)?;
    push_last(text, graph, chain)
}

/// Appends the release of the last job of a circle.
#[tactic(auto, unfolding(crate::specs::ChainTexts::again_text))]
fn push_again(text: &mut Vec<u8>, chain: &Chain) -> Result<(), AllocError>
    ensures { OnOk result (text.new.items ≡ text.old.items ++ again_text chain.now) }
{
    let front = ".\nThe last of these jobs, of the task of the first, is released at tick ";
    push_released(text, front, chain)?;
    text.extend_from_slice(b" already.\n")
}

/// Appends what stands before a circle.
#[tactic(auto, unfolding(crate::specs::ChainTexts::loop_text))]
fn push_loop(text: &mut Vec<u8>) -> Result<(), AllocError>
    ensures { OnOk result (text.new.items ≡ text.old.items ++ loop_text) }
{
    text.extend_from_slice(b"Round the loop: f")
}

/// Appends the circle with its dates, and the release of its last job.
pub fn push_circle(text: &mut Vec<u8>, graph: &TaskGraph, chain: &Chain) -> Result<(), AllocError>
    ensures { OnOk result (text.new.items ≡ text.old.items ++ circle_text graph.now chain.now) }
{
    push_loop(text)?;
    push_span(text, graph, chain)?;
    push_again(text, chain)
}
