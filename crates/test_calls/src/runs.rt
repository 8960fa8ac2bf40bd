//! Runs of the sampling program with other units than the WCETs, and the events of its run.

use crate::units::units_up_to;
use crate::{SAMPLING_PLAN, horizon_of, plan_of};
use prl_edf::{Outcome, Verdict, analyse, events_of, run_units};
use prl_plan::{Event, Plan, plan_is_one};
use std::alloc::Global;
use std::test::Fail;

/// How many of the events are ticks.
fn ticks_of(events: &[Event]) -> usize {
    let mut ticks: usize = 0;
    for event in events {
        if *event == Event::Tick {
            ticks = ticks.saturating_add(1);
        }
    }
    ticks
}

/// How many pieces a run has, or the job that misses its window first, by its task and its number.
type Told = Result<usize, (u32, u64)>;

/// What a run comes to.
fn told(outcome: &Outcome) -> Told {
    match outcome {
        Outcome::Met(timed) => Ok(timed.pieces.len()),
        Outcome::Missed { task, job } => Err((task.0, *job)),
    }
}

/// What the plain run of a plan's jobs up to 60 comes to, where they have at most so many units.
fn told_of(alloc: Global, plan: &Plan, most: u32) -> Result<Told, Fail> {
    let horizon = horizon_of(plan, 60)?;
    let units = units_up_to(alloc, plan, horizon, most.max(1))?;
    Ok(told(&run_units(alloc, plan, horizon, &units)?))
}

/// Runs up to 60: the WCET of the slow task, how many units each job has at most, and what they come to.
// With a WCET of 19 the slow task asks for a tick more than there is: its jobs are due at 30, released at 3, and the other jobs
// within these ticks take 9 of them. At 30 its job and the actuator's third one are due; the lower task goes first, so it is the
// actuator that is late, and with a tick less of the slow task it is not.
const RUNS: [(&str, u32, Told); 4] = [
    // a piece for each of the 20 jobs
    ("wcet 10", 1, Ok(20)),
    ("wcet 10", 10, Ok(22)),
    ("wcet 19", 19, Err((3, 2))),
    ("wcet 19", 18, Ok(24)),
];

/// The plan of the sampling program with this WCET of the slow task.
fn plan_with(alloc: Global, slow: &str) -> Result<Plan, Fail> {
    let Some((before, after)) = SAMPLING_PLAN.split_once("wcet 10") else {
        return Err("no slow task".into());
    };
    let text = format!(in alloc; "{before}{slow}{after}")?;
    plan_of(alloc, text.as_bytes())
}

/// What the run of the plan with this WCET of the slow task comes to.
fn told_with(alloc: Global, slow: &str, most: u32) -> Result<Told, Fail> {
    match plan_with(alloc, slow) {
        Ok(plan) => told_of(alloc, &plan, most),
        Err(fail) => Err(fail),
    }
}

/// The number of the first of the runs that comes to something else.
fn other_run(alloc: Global) -> Result<Option<usize>, Fail> {
    for (k, (slow, most, wanted)) in RUNS.iter().enumerate() {
        if told_with(alloc, slow, *most)? != *wanted {
            return Ok(Some(k));
        }
    }
    Ok(None)
}

#[test]
fn jobs_that_take_less_than_their_wcets_are_in_time(rt: HostRuntime) -> Result<(), Fail> {
    assert!(rt; other_run(rt.alloc())? == None);
    Ok(())
}

/// Fails where the run of a plan's jobs up to 60 has not so many events, or not so many ticks among them.
fn count_events(alloc: Global, plan: &Plan, count: usize, ticks: usize) -> Result<(), Fail> {
    let horizon = horizon_of(plan, 60)?;
    match analyse(alloc, plan, horizon)? {
        Verdict::Run(timed) => {
            plan_is_one(plan);
            let events = events_of(alloc, plan, horizon, &timed)?;
            if events.len() == count && ticks_of(&events) == ticks {
                Ok(())
            } else {
                Err("other events".into())
            }
        }
        Verdict::Overload { .. } => Err("overloaded".into()),
    }
}

#[test]
fn run_has_its_acts_and_the_ticks_between(rt: HostRuntime) -> Result<(), Fail> {
    match plan_of(rt.alloc(), SAMPLING_PLAN.as_bytes()) {
        Ok(plan) => count_events(rt.alloc(), &plan, 142, 53),
        Err(fail) => Err(fail),
    }
}
