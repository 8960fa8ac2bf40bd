//! The plans and horizons of texts, and rows for their sensors.

ghost use Rattle.std.specs.Prelude.{◌≡◌, [], IfOk};
ghost use Rattle.prl_plan.specs.Horizons.{IsHorizon};
ghost use Rattle.prl_values.specs.Fitting.{HaveTaskBodies, HaveTypedRows};

use crate::devices::are_served;
use prl_base::{Label, Seq, Value};
use prl_flow::Sensors;
use prl_plan::{Horizon, Plan};
use prl_plantext::read_plan;
use std::alloc::{AllocError, Global};
use std::test::Fail;

/// The plan of the sampling program: a fast task between a sensor and an actuator reads a slow one that reads it.
pub const SAMPLING_PLAN: &str = "plan 1
hyperperiod 30
task 0 i sensor period 10 start 0 due 10 wcet 1
task 1 F@0 node period 10 start 0 due 10 wcet 2
task 2 S@1 node period 30 start 0 due 30 wcet 10
task 3 o actuator period 10 start 0 due 10 wcet 1
dates 0 0:7
dates 1 1:9
dates 2 3:30
dates 3 3:10
edge 0 from 0.0 to 1.0 type int period 10 ops none
edge 1 from 2.0 to 1.1 type int period 30 ops up 3 fby 0
edge 2 from 1.1 to 2.0 type int period 10 ops down 3
edge 3 from 1.0 to 3.0 type int period 10 ops none
word 0 prefix 0 repeat 0 step 1 1
word 1 prefix 3 0 0 0 repeat 0 0 0 step 3 1
word 2 prefix 0 repeat 0 step 1 3
word 3 prefix 0 repeat 0 step 1 1
cells 0 base 0 count 1
cells 1 base 1 count 2
cells 2 base 3 count 1
cells 3 base 4 count 1
";

/// The plan of an actuator that takes each value of a sensor.
pub const COPIED_PLAN: &[u8] = b"plan 1
hyperperiod 10
task 0 i sensor period 10 start 0 due 10 wcet 1
task 1 o actuator period 10 start 0 due 10 wcet 1
dates 0 0:9
dates 1 1:10
edge 0 from 0.0 to 1.0 type int period 10 ops none
word 0 prefix 0 repeat 0 step 1 1
cells 0 base 0 count 1
";

/// A file of this name.
fn file(alloc: Global, name: &str, bytes: &[u8]) -> Result<(Label, Vec<u8>), AllocError> {
    let label = Label::new(alloc, name.as_bytes())?;
    Ok((label, Vec::from_slice(alloc, bytes)?))
}

/// Files by their names and bytes.
pub fn folder(alloc: Global, files: &[(&str, &[u8])]) -> Result<Vec<(Label, Vec<u8>)>, AllocError> {
    let mut all = Vec::new(alloc);
    for (name, bytes) in files {
        all.push(file(alloc, name, bytes)?)?;
    }
    Ok(all)
}

/// The plan of a text.
pub fn plan_of(alloc: Global, text: &[u8]) -> Result<Plan, Fail> {
    match read_plan(alloc, text) {
        Ok(plan) => Ok(plan),
        Err(_) => Err("no plan".into()),
    }
}

/// The horizon of the plan up to a date.
pub fn horizon_of(plan: &Plan, until: u32) -> Result<Horizon, Fail>
    ensures { IfOk result (IsHorizon plan.now) }
{
    match Horizon::new(plan, until) {
        Ok(horizon) => Ok(horizon),
        Err(_) => Err("past a limit".into()),
    }
}

/// So many sensors, each with these rows.
fn rows_of(alloc: Global, sensors: u32, rows: &[Value]) -> Result<Vec<Seq<Value>>, AllocError> {
    let mut all = Vec::new(alloc);
    for _ in 0..sensors {
        all.push(Seq::new(Vec::from_slice(alloc, rows)?))?;
    }
    Ok(all)
}

/// The horizon of a plan up to a date, where no task runs a body and these rows serve its sensors.
fn horizon_served(plan: &Plan, until: u32, rows: &[Seq<Value>]) -> Result<Horizon, Fail>
    ensures horizon { IfOk result (IsHorizon plan.now) }
    ensures bodies { IfOk result (λ _. HaveTaskBodies plan.now.graph []) }
    ensures rows { IfOk result (λ r. HaveTypedRows plan.now.graph r.until rows.now) }
{
    let horizon = horizon_of(plan, until)?;
    if are_served(plan, horizon, rows) {
        Ok(horizon)
    } else {
        Err("another plan, or too few rows".into())
    }
}

/// The plan, the sensors with these rows, and the horizon up to a date, where no task runs a body.
fn with_rows(
    plan: Plan,
    rows: Vec<Seq<Value>>,
    until: u32,
) -> Result<(Plan, Sensors, Horizon), Fail>
    ensures horizon { IfOk result (λ r. IsHorizon r.0 r.2) }
    ensures bodies { IfOk result (λ r. HaveTaskBodies r.0.graph []) }
    ensures rows { IfOk result (λ r. HaveTypedRows r.0.graph r.2.until r.1) }
{
    match horizon_served(&plan, until, rows.as_slice()) {
        Ok(horizon) => Ok((plan, Sensors::new(rows), horizon)),
        Err(fail) => Err(fail),
    }
}

/// The plan of a text, so many sensors with these rows each, and the horizon up to a date, where no task runs a body.
pub fn plan_served(
    alloc: Global,
    text: &[u8],
    sensors: u32,
    rows: &[Value],
    until: u32,
) -> Result<(Plan, Sensors, Horizon), Fail>
    ensures horizon { IfOk result (λ r. IsHorizon r.0 r.2) }
    ensures bodies { IfOk result (λ r. HaveTaskBodies r.0.graph []) }
    ensures rows { IfOk result (λ r. HaveTypedRows r.0.graph r.2.until r.1) }
{
    let rows = rows_of(alloc, sensors, rows)?;
    match plan_of(alloc, text) {
        Ok(plan) => with_rows(plan, rows, until),
        Err(fail) => Err(fail),
    }
}
