//! The lines that say how large something is: a plan that is accepted, and a generated program that has run.

ghost use Rattle.std.specs.Prelude.{◌≡◌, IfOk, length};
ghost use Rattle.std.specs.List.{flat_map};
ghost use Rattle.prl_stages.specs.Vocabulary.{accepted_line, summary_line};
ghost use Rattle.prl_executions.specs.code.Numbered.{numbered};

use itoa::Buffer;
use prl_base::push_number;
use prl_plan::Plan;
use std::alloc::{AllocError, Global};

/// Names, each with its number behind it.
fn numbered(alloc: Global, numbers: &[(&[u8], u64)]) -> Result<Vec<u8>, AllocError>
    ensures { IfOk result (λ text. text.items ≡ flat_map (λ one. numbered one.0.now one.1) numbers.now) }
{
    let mut text = Vec::new(alloc);
    for one in numbers {
        text.extend_from_slice(one.0)?;
        push_number(&mut text, one.1)?;
    }
    Ok(text)
}

/// The line that says how large the plan is.
pub(crate) fn accepted(alloc: Global, plan: &Plan) -> Result<Vec<u8>, AllocError>
    ensures { IfOk result (λ text. text.items ≡ accepted_line plan.now) }
{
    let graph = plan.graph();
    let numbers: [(&[u8], u64); 4] = [
        (b"accepted tasks ", graph.tasks.len() as u64),
        (b" edges ", graph.edges.len() as u64),
        (b" hyperperiod ", graph.hyper),
        (b" cells ", u64::from(plan.total())),
    ];
    let mut text = numbered(alloc, &numbers)?;
    text.push(b'\n')?;
    Ok(text)
}

/// The line of a summary: a number, a size, how many tasks, edges, jobs and reads there are, and a sum.
pub(crate) fn summary(
    alloc: Global,
    seed: u64,
    size: u32,
    plan: &Plan,
    jobs: u64,
    reads: u64,
    sum: i128,
) -> Result<Vec<u8>, AllocError>
    ensures { IfOk result (λ text. text.items ≡
        summary_line seed size (length plan.now.graph.tasks) (length plan.now.graph.edges) jobs reads sum) }
{
    let graph = plan.graph();
    let numbers: [(&[u8], u64); 6] = [
        (b"seed ", seed),
        (b" size ", u64::from(size)),
        (b" tasks ", graph.tasks.len() as u64),
        (b" edges ", graph.edges.len() as u64),
        (b" jobs ", jobs),
        (b" reads ", reads),
    ];
    let mut buffer = Buffer::new();
    let mut text = numbered(alloc, &numbers)?;
    text.extend_from_slice(b" sum ")?;
    text.extend_from_slice(buffer.format(sum).as_bytes())?;
    text.push(b'\n')?;
    Ok(text)
}
