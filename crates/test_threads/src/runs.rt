//! Runs by one thread and by several: what an actuator gets, and where a run stops.

ghost use Rattle.std.specs.Prelude.{◌≡◌, ◌<◌, ◌≤◌, ℕ, [], IfOk, Some};
ghost use Rattle.prl_plan.specs.Vocabulary.{IsHorizon};
ghost use Rattle.prl_rule.specs.Known.{known};
ghost use Rattle.prl_rule.specs.declared.views.Constants.{Constants};
ghost use Rattle.prl_board.specs.Closings.{Drives};
ghost use Rattle.prl_values.specs.Fitting.{HaveTaskBodies, HaveTypedRows};

use crate::holders::{A_READER, Holder};
use crate::pairs::{count_of, pair};
use prl_base::Value;
use prl_board::{Closed, Gate, Steps};
use prl_body::Bodies;
use prl_exec::{RunFault, Stopped, run_alone, run_threads};
use prl_flow::Sensors;
use prl_io::{NoProbe, Probe};
use prl_plan::{Horizon, Plan};
use std::alloc::{AllocError, Global};
use std::marker::Brand;
use std::sync::Wait;
use std::sync::ledger::{Blank, Ledger};
use std::test::Fail;
use std::thread::Threads;

/// A run of the pair with the rows 1, 2, 3: up to when, how its clock goes, and how many workers it has. With no worker one
/// thread runs alone.
#[derive(Clone, Copy)]
struct Run {
    until: u32,
    gate: Gate,
    workers: u32,
}

/// What came of a run: of how many of the sensor's rows, from the first one on, the actuator has got the values; or where it
/// stopped: task, job, port, cell, and the tags wanted and found.
#[derive(Clone, Copy, PartialEq, Eq)]
enum Outcome {
    Got(usize),
    Stopped([u64; 6]),
    NoMemory,
}

/// One thread runs the plan.
fn alone<L: Ledger>(
    alloc: Global,
    plan: &Plan,
    sensors: &Sensors,
    horizon: Horizon,
    gate: Gate,
    blank: Blank,
) -> Result<Closed, AllocError>
    requires horizon { IsHorizon plan.now horizon }
    requires bodies { HaveTaskBodies plan.now.graph [] }
    requires rows { HaveTypedRows plan.now.graph horizon.until sensors.now }
    requires name { blank.name ≡ L.name }
    requires parts { (blank.parts ≡ L.parts) × (0 < blank.parts) }
    ensures { IfOk result (λ closed. closed.constants ≡ Some (known plan.now horizon gate sensors.now [])) }
{
    let bodies = Bodies::none(alloc);
    let mut steps = Steps::<L>::new(blank);
    run_alone(alloc, plan, &bodies, sensors, horizon, gate, &mut steps)
}

/// Several threads run the plan, of which no task runs a body.
fn several<R: Threads + Wait + Sync, P: Probe>(
    rt: &R,
    alloc: Global,
    plan: &Plan,
    sensors: &Sensors,
    horizon: Horizon,
    gate: Gate,
    workers: u32,
    probe: &P,
) -> Result<Closed, RunFault>
    requires horizon { IsHorizon plan.now horizon }
    requires bodies { HaveTaskBodies plan.now.graph [] }
    requires rows { HaveTypedRows plan.now.graph horizon.until sensors.now }
    requires workers { (1 ≤ workers) × (workers ≤ 16) }
    ensures { IfOk result (λ closed. closed.constants ≡ Some (known plan.now horizon gate sensors.now [])) }
{
    let bodies = Bodies::none(alloc);
    run_threads(
        rt, alloc, plan, &bodies, sensors, horizon, gate, workers, probe,
    )
}

/// Several threads run the plan, or one thread alone.
fn ran<R: Threads + Wait + Sync, P: Probe>(
    rt: &R,
    alloc: Global,
    plan: &Plan,
    sensors: &Sensors,
    horizon: Horizon,
    run: Run,
    probe: &P,
) -> Result<Closed, RunFault>
    requires horizon { IsHorizon plan.now horizon }
    requires bodies { HaveTaskBodies plan.now.graph [] }
    requires rows { HaveTypedRows plan.now.graph horizon.until sensors.now }
    requires workers { run.workers ≤ 16 }
    ensures { IfOk result (λ closed. closed.constants ≡ Some (known plan.now horizon run.gate sensors.now [])) }
{
    if run.workers > 0 {
        return several(
            rt,
            alloc,
            plan,
            sensors,
            horizon,
            run.gate,
            run.workers,
            probe,
        );
    }
    let blank = Blank::new(1);
    match alone::<Brand>(alloc, plan, sensors, horizon, run.gate, blank) {
        Ok(closed) => Ok(closed),
        Err(AllocError) => Err(RunFault::Memory),
    }
}

/// Where a run stopped.
fn place_of(stopped: &Stopped) -> [u64; 6] {
    [
        stopped.task.0 as u64,
        stopped.job,
        stopped.port as u64,
        stopped.cell.0 as u64,
        stopped.wanted as u64,
        stopped.found as u64,
    ]
}

/// What came of a run that ended so.
fn came_of(ended: Result<Closed, RunFault>) -> Outcome
    requires { IfOk ended (λ closed. (k : Constants) × (i : ℕ) × (closed.constants ≡ Some k) × Drives k i 0) }
{
    match ended {
        Ok(closed) => Outcome::Got(count_of(closed.output(0))),
        Err(RunFault::Overrun(stopped)) => Outcome::Stopped(place_of(&stopped)),
        Err(RunFault::Memory) => Outcome::NoMemory,
    }
}

/// What comes of a run.
fn outcome_of<R: Threads + Wait + Sync, P: Probe>(
    rt: &R,
    alloc: Global,
    run: Run,
    probe: &P,
) -> Result<Outcome, Fail>
    requires { run.workers ≤ 16 }
{
    let rows = [Value::Int(1), Value::Int(2), Value::Int(3)];
    let made = pair(alloc, rows.as_slice(), run.until)?;
    let ended = ran(rt, alloc, &made.0, &made.1, made.2, run, probe);
    Ok(came_of(ended))
}

/// One thread under either clock, and so many workers that most have no task.
const ENDING: [Run; 3] = [
    Run {
        until: 20,
        gate: Gate::Gated,
        workers: 0,
    },
    Run {
        until: 20,
        gate: Gate::Free,
        workers: 0,
    },
    Run {
        until: 20,
        gate: Gate::Gated,
        workers: 16,
    },
];

#[test]
fn one_thread_and_workers_without_tasks_end(rt: HostRuntime) -> Result<(), Fail> {
    let alloc = rt.alloc();
    assert!(rt; outcome_of(&rt, alloc, ENDING[0], &NoProbe)? == Outcome::Got(2));
    assert!(rt; outcome_of(&rt, alloc, ENDING[1], &NoProbe)? == Outcome::Got(2));
    assert!(rt; outcome_of(&rt, alloc, ENDING[2], &NoProbe)? == Outcome::Got(2));
    Ok(())
}

#[test]
fn a_reader_that_is_held_is_overrun(rt: HostRuntime) -> Result<(), Fail> {
    let free = Run {
        until: 30,
        gate: Gate::Free,
        workers: 2,
    };
    let holder = Holder::new(A_READER);
    let outcome = outcome_of(&rt, rt.alloc(), free, &holder)?;
    let second = Outcome::Stopped([1, 0, 0, 0, 1, 2]);
    let third = Outcome::Stopped([1, 0, 0, 0, 1, 3]);
    assert!(rt; (outcome == second || outcome == third) && !holder.in_vain());
    Ok(())
}
