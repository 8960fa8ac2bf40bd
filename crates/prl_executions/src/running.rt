//! Mode `run`: the tasks of the program run on a board, by one thread or by several.

ghost use Rattle.std.specs.Prelude.{◌≡◌, ◌<◌, ◌≤◌, ◌++◌, IfOk, Some, length};
ghost use Rattle.prl_exec.specs.Runs.{HasEnded};
ghost use Rattle.prl_plan.specs.Horizons.{IsHorizon};
ghost use Rattle.prl_rule.specs.Known.{known};
ghost use Rattle.prl_stages.specs.Vocabulary.{IsRunText, front, ran};
ghost use Rattle.prl_values.specs.Fitting.{HaveTaskBodies, HaveTypedRows};
ghost use Rattle.prl_executions.specs.Ready.{IsOutcome, IsReady, IsTextOf};
ghost use Rattle.prl_calls.specs.Stops.{given_of, Passes};

use crate::ready::{Ready, make_ready};
use prl_board::{Closed, Gate, Steps};
use prl_calls::Request;
use prl_exec::{RunFault, Stopped, run_alone, run_threads};
use prl_io::Probe;
use prl_plan::{Plan, plan_is_one};
use prl_replay::{ended_boards_show_flows, shown_flows};
use prl_sensors::actuator_text;
use prl_stages::{MAX_BODIES, MAX_PROGRAM, Ran, Stop};
use std::alloc::{AllocError, Global};
use std::marker::Brand;
use std::sync::Wait;
use std::sync::ledger::{Blank, Ledger};
use std::thread::Threads;

/// One thread runs all jobs, and its steps are counted.
pub(crate) fn closed_alone<L: Ledger>(
    alloc: Global,
    ready: &Ready,
    gate: Gate,
    blank: Blank,
) -> Result<Closed, AllocError>
    requires horizon { IsHorizon ready.now.plan ready.now.horizon }
    requires bodies { HaveTaskBodies ready.now.plan.graph ready.now.bodies }
    requires rows { HaveTypedRows ready.now.plan.graph ready.now.horizon.until ready.now.sensors }
    requires name { blank.name ≡ L.name }
    requires parts { (blank.parts ≡ L.parts) × (0 < blank.parts) }
    ensures known { IfOk result (λ closed. closed.constants ≡ Some (known ready.now.plan ready.now.horizon gate ready.now.sensors ready.now.bodies)) }
    ensures ended { IfOk result HasEnded }
{
    let mut steps = Steps::<L>::new(blank);
    run_alone(
        alloc,
        &ready.plan,
        &ready.bodies,
        &ready.sensors,
        ready.horizon,
        gate,
        &mut steps,
    )
}

/// The text of the actuators of a board on which all jobs have ended.
pub(crate) fn text_of(
    alloc: Global,
    request: &Request,
    ready: &Ready,
    gate: Gate,
    closed: &Closed,
) -> Result<Vec<u8>, AllocError>
    requires ready { IsReady (given_of request.now) ready.now }
    requires known { closed.now.constants ≡ Some (known ready.now.plan ready.now.horizon gate ready.now.sensors ready.now.bodies) }
    requires ended { HasEnded closed.now }
    ensures text { IfOk result (λ text. IsRunText (given_of request.now) gate text.items (Ran.Ended closed.now)) }
    ensures of { IfOk result (λ text. IsTextOf (given_of request.now) ready.now gate text.items (Ran.Ended closed.now)) }
{
    ended_boards_show_flows();
    plan_is_one(&ready.plan);
    closed.stands();
    let flows = shown_flows(alloc, &ready.plan, closed)?;
    actuator_text(alloc, &flows)
}

/// Mode `run` with one worker.
pub fn run_text(alloc: Global, request: &Request, gate: Gate) -> Result<(Vec<u8>, Ran), Stop>
    requires program { length request.now.texts.program.items ≤ MAX_PROGRAM }
    requires bodies { length request.now.texts.bodies.items ≤ MAX_BODIES }
    ensures { Passes (given_of request.now) (front ++ ran) (λ made. IsRunText (given_of request.now) gate made.0.items made.1) result }
{
    let ready = make_ready(alloc, request)?;
    let blank = Blank::new(1);
    let closed = closed_alone::<Brand>(alloc, &ready, gate, blank)?;
    let text = text_of(alloc, request, &ready, gate, &closed)?;
    Ok((text, Ran::Ended(closed)))
}

/// What a run of several workers has come to.
#[derive(Drop)]
pub enum Outcome {
    /// All jobs have ended: the text of the actuators, and the board.
    Ended(Vec<u8>, Ran),
    /// A read was overrun: the plan, and where that was.
    Overrun(Plan, Stopped),
}

/// Mode `run` with several workers, after its stages. It may wait.
fn outcome_of<R: Threads + Wait + Sync, P: Probe>(
    rt: &R,
    alloc: Global,
    request: &Request,
    ready: Ready,
    gate: Gate,
    workers: u32,
    probe: &P,
) -> Result<Outcome, AllocError>
    requires ready { IsReady (given_of request.now) ready }
    requires workers { (1 ≤ workers) × (workers ≤ 16) }
    ensures { IfOk result (IsOutcome (given_of request.now) gate) }
{
    match run_threads(
        rt,
        alloc,
        &ready.plan,
        &ready.bodies,
        &ready.sensors,
        ready.horizon,
        gate,
        workers,
        probe,
    ) {
        Ok(closed) => {
            let text = text_of(alloc, request, &ready, gate, &closed)?;
            Ok(Outcome::Ended(text, Ran::Ended(closed)))
        }
        Err(RunFault::Overrun(stopped)) => Ok(Outcome::Overrun(ready.plan, stopped)),
        Err(RunFault::Memory) => Err(AllocError),
    }
}

/// Mode `run` with several workers. It may wait.
pub fn run_outcome<R: Threads + Wait + Sync, P: Probe>(
    rt: &R,
    alloc: Global,
    request: &Request,
    gate: Gate,
    workers: u32,
    probe: &P,
) -> Result<Outcome, Stop>
    requires program { length request.now.texts.program.items ≤ MAX_PROGRAM }
    requires bodies { length request.now.texts.bodies.items ≤ MAX_BODIES }
    requires workers { (1 ≤ workers) × (workers ≤ 16) }
    ensures { Passes (given_of request.now) (front ++ ran) (IsOutcome (given_of request.now) gate) result }
{
    let ready = make_ready(alloc, request)?;
    Ok(outcome_of(rt, alloc, request, ready, gate, workers, probe)?)
}
