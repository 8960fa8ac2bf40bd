//! An example: a program of one's own over a plan. `example_loop FILE` reads the text of a plan, as `prelude plan` writes it, and
//! tells which task's jobs may take longest. The loop is in `longest.rt`, what it has to find in `specs/Longest.antt`, and what it
//! keeps in `proofs/longest/longest/Invariants.antt`.
#![tactic(auto)]

mod longest;

use longest::longest;
use prl_base::push_number;
use prl_io::{
    Fault, Files, HostFiles, HostSink, Stop, after_name, end, read_named, unfit_for, words_of,
};
use prl_plan::{Plan, Task};
use prl_plantext::{PlanFault, read_plan};
use std::alloc::{AllocError, Global};
use std::process::ExitCode;

/// The most bytes of a plan's text.
const MOST: u64 = 33_554_432;

/// How the program is called.
const FORM: &str = "example_loop FILE";

/// The line that tells of a task.
fn line_of(alloc: Global, task: &Task) -> Result<Vec<u8>, AllocError> {
    let mut line = Vec::from_slice(alloc, b"longest ")?;
    line.extend_from_slice(task.name.bytes())?;
    line.extend_from_slice(b" ")?;
    push_number(&mut line, task.wcet as u64)?;
    line.extend_from_slice(b"\n")?;
    Ok(line)
}

/// What is told of a plan.
fn told(alloc: Global, plan: &Plan) -> Result<Vec<u8>, AllocError> {
    let graph = plan.graph();
    if graph.tasks.is_empty() {
        return Vec::from_slice(alloc, b"no task\n");
    }
    line_of(alloc, &graph.tasks.as_slice()[longest(graph)])
}

/// What is told of the plan in the file that the words name.
fn answer<F: Files>(alloc: Global, words: &[String], files: &mut F) -> Result<Vec<u8>, Fault> {
    let [name] = after_name(words) else {
        return Err(Fault::Stop(Stop::Words(FORM)));
    };
    let text = read_named(alloc, files, name.as_bytes(), MOST)?;
    match read_plan(alloc, &text) {
        Ok(plan) => Ok(told(alloc, &plan)?),
        Err(PlanFault::NotPlan) => {
            let why = Vec::from_slice(alloc, b"not the text of a plan");
            Err(unfit_for(alloc, name.as_bytes(), why))
        }
        Err(PlanFault::Memory) => Err(Fault::Stop(Stop::Memory)),
    }
}

fn main(rt: HostRuntime) -> ExitCode {
    let words = match words_of(&rt) {
        Ok(words) => words,
        Err(status) => return ExitCode::from(status),
    };
    let mut files = HostFiles::new(&rt);
    let outcome = answer(rt.alloc(), &words, &mut files);
    let mut out = HostSink::new(rt.stdout());
    let mut err = HostSink::new(rt.stderr());
    ExitCode::from(end(&mut out, &mut err, outcome))
}
