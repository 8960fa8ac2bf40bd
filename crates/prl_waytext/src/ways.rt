//! What is told of a cycle, of a chain of jobs and of a loop of them.

ghost use Rattle.std.specs.Prelude.{◌≡◌, ◌<◌, ◌^◌, IfOk, IfSome, Some, length};
ghost use Rattle.std.specs.Option.{option_copied, option_map};
ghost use Rattle.prl_waytext.specs.ProgramTexts.{IsFlatOf, IsGraphIn};
ghost use Rattle.prl_waytext.specs.Ways.{IsChainTold, IsCircleTold, IsClashTold, IsCycleTold, IsDated, IsJobNamed};
ghost use Rattle.prl_plan.specs.Jobs.{task_at};
ghost use Rattle.prl_sentences.specs.Sentences.{word_at};
ghost use Rattle.prl_ways.specs.Chains.{job_of};
ghost use Rattle.prl_base.specs.Decimals.{decimal_of};

use crate::longs::{long_task, long_told};
use crate::program_texts::{flat_of_text, graph_of_text};
use prl_base::{Label, TaskNo, decimal_of};
use prl_clashes::{clash_at, push_clash};
use prl_flow::Flat;
use prl_plan::TaskGraph;
use prl_sentences::word_at;
use prl_ways::{
    WayJob, chain_to, circle_before, flow_named, push_chain, push_circle, push_round, round_from,
};
use std::alloc::{AllocError, Global};

/// What is told of a cycle of the flat program.
#[tactic(auto, using(crate::proofs::Told::cycle_is, crate::proofs::Told::no_cycle))]
fn cycle_in(
    alloc: Global,
    program: &[u8],
    node: Option<&Label>,
    flat: &Flat,
    label: &[u8],
) -> Result<Vec<u8>, AllocError>
    requires { IsFlatOf program.now (option_copied node) flat.now }
    ensures { IfOk result (λ text. IsCycleTold (Some program.now) (option_copied node.entry) label.now text.items) }
{
    let mut text = Vec::new(alloc);
    let Some(first) = flow_named(flat, label) else {
        return Ok(text);
    };
    match round_from(alloc, flat, first)? {
        None => Ok(text),
        Some(round) => {
            push_round(&mut text, flat, &round)?;
            Ok(text)
        }
    }
}

/// What is told of a cycle through the flow of this label.
#[tactic(auto, using(crate::proofs::Told::no_cycle))]
pub fn cycle_told(
    alloc: Global,
    program: Option<&[u8]>,
    node: Option<&Label>,
    label: &[u8],
) -> Result<Vec<u8>, AllocError>
    requires { IfSome program (λ text. length text.now < 2 ^ 32) }
    ensures { IfOk result (λ text. IsCycleTold (option_map (λ text. text.now) program.entry) (option_copied node.entry) label.now text.items) }
{
    let Some(program) = program else {
        return Ok(Vec::new(alloc));
    };
    match flat_of_text(alloc, program, node)? {
        None => Ok(Vec::new(alloc)),
        Some(flat) => cycle_in(alloc, program, node, &flat, label),
    }
}

/// What is told of a clock mismatch of the flat program.
#[tactic(auto, using(crate::proofs::Told::clash_is, crate::proofs::Told::no_clash))]
fn clash_in(
    alloc: Global,
    program: &[u8],
    node: Option<&Label>,
    flat: &Flat,
    number: &[u8],
) -> Result<Vec<u8>, AllocError>
    requires { IsFlatOf program.now (option_copied node) flat.now }
    ensures { IfOk result (λ text. IsClashTold (Some program.now) (option_copied node.entry) number.now text.items) }
{
    let mut text = Vec::new(alloc);
    let Some(at) = byte_of(number) else {
        return Ok(text);
    };
    match clash_at(alloc, flat, at)? {
        None => Ok(text),
        Some(clash) => {
            push_clash(&mut text, flat, &clash)?;
            Ok(text)
        }
    }
}

/// What is told of a clock mismatch at this byte: two clocks of a flow, and the ways that give it them.
#[tactic(auto, using(crate::proofs::Told::no_clash))]
pub fn clash_told(
    alloc: Global,
    program: Option<&[u8]>,
    node: Option<&Label>,
    number: &[u8],
) -> Result<Vec<u8>, AllocError>
    requires { IfSome program (λ text. length text.now < 2 ^ 32) }
    ensures { IfOk result (λ text. IsClashTold (option_map (λ text. text.now) program.entry) (option_copied node.entry) number.now text.items) }
{
    let Some(program) = program else {
        return Ok(Vec::new(alloc));
    };
    match flat_of_text(alloc, program, node)? {
        None => Ok(Vec::new(alloc)),
        Some(flat) => clash_in(alloc, program, node, &flat, number),
    }
}

/// The byte that a number tells; None past 32 bits.
pub fn byte_of(number: &[u8]) -> Option<u32>
    ensures { IfSome result (λ at. decimal_of number.now ≡ Some at) }
{
    let at = decimal_of(number)?;
    if at > u64::from(u32::MAX) {
        return None;
    }
    Some(at as u32)
}

/// The task of a name.
fn task_named(graph: &TaskGraph, name: &[u8]) -> Option<u32>
    ensures { IfSome result (λ i. (task_at graph.now i).name ≡ name.now) }
{
    for (i, task) in graph.tasks.as_slice().iter().enumerate() {
        if task.name.bytes() == name && i < 64 {
            return Some(i as u32);
        }
    }
    None
}

/// The date that a number writes; None past 63 bits.
fn date_of(number: &[u8]) -> Option<i64>
    ensures { IfSome result (λ date. IsDated number.now date) }
{
    let date = decimal_of(number)?;
    if date > i64::MAX as u64 {
        return None;
    }
    Some(date as i64)
}

/// The job of the name of a task and of a number.
fn job_named(graph: &TaskGraph, name: &[u8], number: &[u8]) -> Option<WayJob>
    ensures { IfSome result (λ job. IsJobNamed graph.now name.now number.now (job_of job)) }
{
    let task = task_named(graph, name)?;
    let number = date_of(number)?;
    Some(WayJob {
        task: TaskNo(task),
        number,
    })
}

/// What is told of a chain of jobs of the graph, by the words of the line.
#[tactic(auto, using(crate::proofs::Told::chain_is, crate::proofs::Told::no_chain))]
fn chain_in(
    alloc: Global,
    program: &[u8],
    node: Option<&Label>,
    graph: &TaskGraph,
    rest: &[u8],
) -> Result<Vec<u8>, AllocError>
    requires { IsGraphIn program.now (option_copied node) graph.now }
    ensures { IfOk result (λ text. IsChainTold (Some program.now) (option_copied node.entry)
        (word_at 0 rest.now) (word_at 1 rest.now) (word_at 3 rest.now) text.items) }
{
    let mut text = Vec::new(alloc);
    let Some(job) = job_named(graph, word_at(rest, 0), word_at(rest, 1)) else {
        return Ok(text);
    };
    let Some(needs) = date_of(word_at(rest, 3)) else {
        return Ok(text);
    };
    match chain_to(alloc, graph, job, needs)? {
        None => Ok(text),
        Some(chain) => {
            push_chain(&mut text, graph, &chain)?;
            Ok(text)
        }
    }
}

/// What is told of a job that has too little time: a task of the program that needs more than it has, or else the chain of jobs that
/// the job waits for, by the words of the line.
#[tactic(auto, using(crate::proofs::Told::chain_long, crate::proofs::Told::no_chain))]
pub fn chain_told(
    alloc: Global,
    program: Option<&[u8]>,
    node: Option<&Label>,
    rest: &[u8],
) -> Result<Vec<u8>, AllocError>
    requires { IfSome program (λ text. length text.now < 2 ^ 32) }
    ensures { IfOk result (λ text. IsChainTold (option_map (λ text. text.now) program.entry) (option_copied node.entry)
        (word_at 0 rest.now) (word_at 1 rest.now) (word_at 3 rest.now) text.items) }
{
    let Some(program) = program else {
        return Ok(Vec::new(alloc));
    };
    let Some(graph) = graph_of_text(alloc, program, node)? else {
        return Ok(Vec::new(alloc));
    };
    match long_task(&graph) {
        Some(task) => long_told(alloc, &graph, task),
        None => chain_in(alloc, program, node, &graph, rest),
    }
}

/// What is told of a loop of jobs of the graph, by the words of the line.
#[tactic(auto, using(crate::proofs::Told::circle_is, crate::proofs::Told::no_circle))]
fn circle_in(
    alloc: Global,
    program: &[u8],
    node: Option<&Label>,
    graph: &TaskGraph,
    rest: &[u8],
) -> Result<Vec<u8>, AllocError>
    requires { IsGraphIn program.now (option_copied node) graph.now }
    ensures { IfOk result (λ text. IsCircleTold (Some program.now) (option_copied node.entry) text.items) }
{
    let mut text = Vec::new(alloc);
    let Some(job) = job_named(graph, word_at(rest, 0), word_at(rest, 1)) else {
        return Ok(text);
    };
    match circle_before(alloc, graph, job)? {
        None => Ok(text),
        Some(circle) => {
            push_circle(&mut text, graph, &circle)?;
            Ok(text)
        }
    }
}

/// What is told of a job that waits for a loop of jobs: a task that needs more than it has, or else the jobs round the loop.
#[tactic(auto, using(crate::proofs::Told::circle_long, crate::proofs::Told::no_circle))]
pub fn circle_told(
    alloc: Global,
    program: Option<&[u8]>,
    node: Option<&Label>,
    rest: &[u8],
) -> Result<Vec<u8>, AllocError>
    requires { IfSome program (λ text. length text.now < 2 ^ 32) }
    ensures { IfOk result (λ text. IsCircleTold (option_map (λ text. text.now) program.entry) (option_copied node.entry) text.items) }
{
    let Some(program) = program else {
        return Ok(Vec::new(alloc));
    };
    let Some(graph) = graph_of_text(alloc, program, node)? else {
        return Ok(Vec::new(alloc));
    };
    match long_task(&graph) {
        Some(task) => long_told(alloc, &graph, task),
        None => circle_in(alloc, program, node, &graph, rest),
    }
}
