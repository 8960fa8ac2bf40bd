//! An example: a drawing of one's own over a plan. `example_drawing FILE` reads the text of a plan and draws a bar for each task, as long as
//! its WCET is of its period. What the bars are is told in `specs/Bars.antt`.
#![tactic(auto)]

mod bars;

use bars::{MOST, push_bars};
use prl_drawing::{Unit, push, push_name, push_svg, row_of};
use prl_io::{
    Fault, Files, HostFiles, HostSink, Stop, after_name, end, read_named, unfit_for, words_of,
};
use prl_plan::{Plan, TaskGraph};
use prl_plantext::{PlanFault, read_plan};
use std::alloc::{AllocError, Global};
use std::process::ExitCode;

/// The most bytes of a plan's text.
const MOST_BYTES: u64 = 33_554_432;

/// How things look, and what the bars are.
const STYLE: &str = "<style>text{font-family:sans-serif;font-size:120px;fill:#222}\
    .k{font-size:100px;fill:#666}.l{stroke:#bbb;stroke-width:10;fill:none}.s{stroke:#222;stroke-width:6}\
    .t0{fill:#E69F00}.t1{fill:#56B4E9}.t2{fill:#009E73}.t3{fill:#F0E442}\
    .t4{fill:#0072B2}.t5{fill:#D55E00}.t6{fill:#CC79A7}.t7{fill:#999999}</style>\n\
    <text x=\"1600\" y=\"600\">the WCET of each task as a part of its period</text>\n";

/// How the program is called.
const FORM: &str = "example_drawing FILE";

/// Appends the name of each task.
fn push_names(text: &mut Vec<u8>, graph: &TaskGraph) -> Result<(), AllocError> {
    let mut row: u32 = 0;
    for task in graph.tasks.as_slice() {
        push_name(
            text,
            &Unit::ticks(),
            task.name.bytes(),
            row_of(row),
            task.clock.period,
            task.wcet,
        )?;
        row = row.saturating_add(1);
    }
    Ok(())
}

/// The drawing of a plan.
fn drawing(alloc: Global, plan: &Plan) -> Result<Vec<u8>, AllocError> {
    let graph = plan.graph();
    let mut text = Vec::new(alloc);
    if graph.tasks.len() > MOST {
        return Ok(text);
    }
    push_svg(&mut text, row_of(graph.tasks.len() as u32) + 200)?;
    push(&mut text, STYLE)?;
    push_names(&mut text, graph)?;
    push_bars(&mut text, graph)?;
    push(&mut text, "</svg>\n")?;
    Ok(text)
}

/// The drawing of the plan in the file that the words name.
fn answer<F: Files>(alloc: Global, words: &[String], files: &mut F) -> Result<Vec<u8>, Fault> {
    let [name] = after_name(words) else {
        return Err(Fault::Stop(Stop::Words(FORM)));
    };
    let text = read_named(alloc, files, name.as_bytes(), MOST_BYTES)?;
    match read_plan(alloc, &text) {
        Ok(plan) => Ok(drawing(alloc, &plan)?),
        Err(PlanFault::NotPlan) => {
            let why = Vec::from_slice(alloc, b"not the text of a plan");
            Err(unfit_for(alloc, name.as_bytes(), why))
        }
        Err(PlanFault::Memory) => Err(Fault::Stop(Stop::Memory)),
    }
}

fn main(rt: HostRuntime) -> ExitCode {
    let words = match words_of(&rt) {
        Ok(words) => words,
        Err(status) => return ExitCode::from(status),
    };
    let mut files = HostFiles::new(&rt);
    let outcome = answer(rt.alloc(), &words, &mut files);
    let mut out = HostSink::new(rt.stdout());
    let mut err = HostSink::new(rt.stderr());
    ExitCode::from(end(&mut out, &mut err, outcome))
}
