//! The parts of a page, each written by a program.

use crate::calls::{Program, Told, called};
use crate::names::Names;
use crate::words::Asked;
use prl_io::{Fault, unfit_for};
use prl_shown::shown;
use std::alloc::{AllocError, Global};

/// What the picture of a plan shows.
const PLAN: &str =
    "Each job may run from where its window begins to where that ends; where the pointer rests on a window, \
    what the job reads and who reads of it. Drawn by";

/// What the picture of one processor shows.
const PROCESSOR: &str =
    "What one processor does in the first hyperperiod, the job that is due first before the others, each with \
    its WCET; or the interval that asks for more than it has. Drawn by";

/// What the times are.
const TIMES: &str =
    "The load of a hyperperiod; and for each sensor and actuator how old the value that an actuator uses may \
    be, and how long a change takes to show, over all jobs and in ticks. Told by";

/// What the plots show.
const FLOWS: &str =
    "The rows of the sensors, and of the actuators as the equations give them. Drawn by";

/// What a part shows.
#[derive(Drop)]
pub(crate) enum Body {
    /// A picture, as SVG.
    Picture(Vec<u8>),
    /// A text, or the line that tells why there is no picture.
    Text(Vec<u8>),
}

/// A part of a page.
#[derive(Drop)]
pub(crate) struct Part {
    pub heading: &'static str,
    /// What it shows.
    pub says: &'static str,
    /// The words of the program that writes it.
    pub words: Vec<u8>,
    pub body: Body,
}

/// Adds an option and its value, where there is one.
fn push_option<'a>(
    words: &mut Vec<&'a str>,
    option: &'a str,
    value: Option<&'a str>,
) -> Result<(), AllocError> {
    if let Some(value) = value {
        words.push(option)?;
        words.push(value)?;
    }
    Ok(())
}

/// Words with a blank between.
fn joined(alloc: Global, words: &[&str]) -> Result<Vec<u8>, AllocError> {
    let mut line = Vec::new(alloc);
    for word in words {
        if !line.is_empty() {
            line.push(b' ')?;
        }
        line.extend_from_slice(word.as_bytes())?;
    }
    Ok(line)
}

/// The words of a call: these, and then the options that have a value.
fn words_of<'a>(
    alloc: Global,
    front: &[&'a str],
    options: &[(&'a str, Option<&'a str>)],
) -> Result<Vec<&'a str>, AllocError> {
    let mut words = Vec::from_slice(alloc, front)?;
    for option in options {
        push_option(&mut words, option.0, option.1)?;
    }
    Ok(words)
}

/// What a part shows of what a call told: a picture where one is asked for and written.
fn body_of(told: Told, draws: bool) -> Body {
    match told {
        Told::Written(bytes) => {
            if draws {
                Body::Picture(bytes)
            } else {
                Body::Text(bytes)
            }
        }
        Told::Refused(line) => Body::Text(line),
    }
}

/// The part that a call writes.
fn part_of(
    alloc: Global,
    heading: &'static str,
    says: &'static str,
    program: Program,
    words: &[&str],
    entries: &[(&str, &[u8])],
) -> Result<Part, AllocError> {
    let body = body_of(called(alloc, program, words, entries)?, program.draws());
    Ok(Part {
        heading,
        says,
        words: joined(alloc, words)?,
        body,
    })
}

/// What `prelude` writes for these words, or a fault of the program with its line.
pub(crate) fn written(
    alloc: Global,
    asked: Asked<'_>,
    words: &[&str],
    entries: &[(&str, &[u8])],
) -> Result<Vec<u8>, Fault> {
    match called(alloc, Program::Prelude, words, entries)? {
        Told::Written(text) => Ok(text),
        Told::Refused(line) => Err(unfit_for(alloc, asked.program.as_bytes(), Ok(line))),
    }
}

/// The text of the program's plan, or the program's first fault.
pub(crate) fn plan_of(alloc: Global, asked: Asked<'_>, source: &[u8]) -> Result<Vec<u8>, Fault> {
    let front = ["prelude", "plan", "--program", asked.program];
    let words = words_of(alloc, &front, &[("--node", asked.node)])?;
    written(alloc, asked, &words, &[(asked.program, source)])
}

/// The text of the program.
fn source_part(alloc: Global, asked: Asked<'_>, source: &[u8]) -> Result<Part, AllocError> {
    Ok(Part {
        heading: "Program",
        says: "The text of",
        words: Vec::from_slice(alloc, asked.program.as_bytes())?,
        body: Body::Text(shown(alloc, true, source)?),
    })
}

/// The picture of the plan.
fn plan_part<'a>(
    alloc: Global,
    asked: Asked<'a>,
    name: &'a str,
    plan: &'a [u8],
) -> Result<Part, AllocError> {
    let front = ["prelude_picture", "--plan", name];
    let words = words_of(alloc, &front, &[("--tick", asked.tick)])?;
    part_of(
        alloc,
        "Plan",
        PLAN,
        Program::Picture,
        &words,
        &[(name, plan)],
    )
}

/// What one processor does in a hyperperiod.
fn processor_part<'a>(
    alloc: Global,
    asked: Asked<'a>,
    name: &'a str,
    plan: &'a [u8],
    end: &'a str,
) -> Result<Part, AllocError> {
    let front = ["prelude_picture", "--plan", name, "--edf", end];
    let words = words_of(alloc, &front, &[("--tick", asked.tick)])?;
    let entries = [(name, plan)];
    part_of(
        alloc,
        "One processor",
        PROCESSOR,
        Program::Picture,
        &words,
        &entries,
    )
}

/// The ages of the plan.
fn times_part(alloc: Global, name: &str, plan: &[u8]) -> Result<Part, AllocError> {
    let words = ["prelude_times", "--plan", name];
    part_of(
        alloc,
        "Times",
        TIMES,
        Program::Times,
        &words,
        &[(name, plan)],
    )
}

/// The parts that a program has by itself.
pub(crate) fn plan_parts<'a>(
    alloc: Global,
    asked: Asked<'a>,
    source: &'a [u8],
    plan: &'a [u8],
    names: &'a Names,
) -> Result<Vec<Part>, AllocError> {
    let name = names.plan.as_str();
    let mut parts = Vec::new(alloc);
    parts.push(source_part(alloc, asked, source)?)?;
    parts.push(plan_part(alloc, asked, name, plan)?)?;
    parts.push(processor_part(alloc, asked, name, plan, names.end.as_str())?)?;
    parts.push(times_part(alloc, name, plan)?)?;
    Ok(parts)
}

/// A file of the rows of actuators.
const ROWS: &str = "rows.csv";

/// The texts that flows are made of.
#[derive(Drop)]
pub(crate) struct Inputs {
    pub bodies: Option<Vec<u8>>,
    pub sensors: Vec<u8>,
}

/// The rows of the actuators before a tick, or the first fault of the program, its bodies or its rows.
fn rows_of(
    alloc: Global,
    asked: Asked<'_>,
    source: &[u8],
    inputs: &Inputs,
    sensors: &str,
    until: &str,
) -> Result<Vec<u8>, Fault> {
    let front = [
        "prelude",
        "flows",
        "--program",
        asked.program,
        "--sensors",
        sensors,
        "--until",
        until,
    ];
    let options = [("--node", asked.node), ("--bodies", asked.bodies)];
    let words = words_of(alloc, &front, &options)?;
    let bodies = inputs.bodies.as_ref().map_or(b"".as_slice(), Vec::as_slice);
    let entries = [
        (asked.program, source),
        (sensors, inputs.sensors.as_slice()),
        (asked.bodies.unwrap_or("bodies"), bodies),
    ];
    written(alloc, asked, &words, &entries)
}

/// The plots of the sensors' rows and of the actuators'.
fn plots_part(
    alloc: Global,
    asked: Asked<'_>,
    source: &[u8],
    inputs: &Inputs,
    sensors: &str,
    until: &str,
    rows: &[u8],
) -> Result<Part, AllocError> {
    let front = [
        "prelude_plot",
        "--program",
        asked.program,
        "--sensors",
        sensors,
        "--actuators",
        ROWS,
        "--until",
        until,
    ];
    let options = [("--node", asked.node), ("--tick", asked.tick)];
    let words = words_of(alloc, &front, &options)?;
    let entries = [
        (asked.program, source),
        (sensors, inputs.sensors.as_slice()),
        (ROWS, rows),
    ];
    part_of(alloc, "Flows", FLOWS, Program::Plot, &words, &entries)
}

/// The part of the flows before a tick.
pub(crate) fn flows_part(
    alloc: Global,
    asked: Asked<'_>,
    source: &[u8],
    inputs: &Inputs,
    sensors: &str,
    until: &str,
) -> Result<Part, Fault> {
    let rows = rows_of(alloc, asked, source, inputs, sensors, until)?;
    Ok(plots_part(alloc, asked, source, inputs, sensors, until, &rows)?)
}
