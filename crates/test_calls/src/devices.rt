//! Whether a plan runs no body, and whether rows of integers serve its sensors.

ghost use Rattle.std.specs.Prelude.{◌≡◌, ◌<◌, List, length, true};
ghost use Rattle.prl_body.specs.declared.bodies.CheckedBody.{CheckedBody};
ghost use Rattle.prl_plan.specs.Horizons.{IsHorizon};
ghost use Rattle.prl_values.specs.Fitting.{HaveTaskBodies, HaveTypedRows};
ghost use Rattle.test_calls.specs.Devices.{AreIntEdges, AreInts, AreNoNodes, HasIntRows, HasTaskRows, HaveIntRows};

use prl_base::{Seq, TaskNo, Ty, Value};
use prl_plan::{Edge, Horizon, Kind, Plan, Task, horizon_jobs_are_counted, plan_is_one};

/// Whether no task runs a body.
fn are_no_nodes(tasks: &[Task]) -> bool
    ensures { result ≡ true → AreNoNodes (length tasks.now) tasks.now }
{
    for task in tasks {
        match task.kind {
            Kind::Node(_) => return false,
            Kind::Sensor(_) => {}
            Kind::Actuator(_) => {}
        }
    }
    true
}

/// Whether all edges are of integers.
fn are_int_edges(edges: &[Edge]) -> bool
    ensures { result ≡ true → AreIntEdges (length edges.now) edges.now }
{
    for edge in edges {
        if edge.ty != Ty::Int {
            return false;
        }
    }
    true
}

/// Whether all values are integers.
fn are_ints(values: &[Value]) -> bool
    ensures { result ≡ true → AreInts (length values.now) values.now }
{
    for value in values {
        if value.ty() != Ty::Int {
            return false;
        }
    }
    true
}

/// Whether the sensor of this number has as many rows, and these are integers.
fn has_rows(rows: &[Seq<Value>], sensor: u32, count: u64) -> bool
    ensures { result ≡ true → HasIntRows rows.now sensor count }
{
    match rows.get(sensor as usize) {
        Some(values) => values.len() as u64 >= count && are_ints(values.as_slice()),
        None => false,
    }
}

/// Whether the task, where it is a sensor's, has a row for each of its jobs.
fn has_rows_of_task(plan: &Plan, horizon: Horizon, rows: &[Seq<Value>], i: TaskNo) -> bool
    requires horizon { IsHorizon plan.now horizon }
    requires task { i.0 < length plan.now.graph.tasks }
    ensures { result ≡ true → HasTaskRows plan.now.graph horizon.until rows.now i.0 }
{
    plan_is_one(plan);
    match plan.graph().tasks.as_slice()[i.0 as usize].kind {
        Kind::Sensor(k) => has_rows(rows, k, horizon.jobs_of(plan, i)),
        Kind::Node(_) => true,
        Kind::Actuator(_) => true,
    }
}

/// Whether each sensor's task has a row for each of its jobs.
fn have_rows(plan: &Plan, horizon: Horizon, rows: &[Seq<Value>]) -> bool
    requires { IsHorizon plan.now horizon }
    ensures { result ≡ true → HaveIntRows plan.now.graph horizon.until rows.now (length plan.now.graph.tasks) }
{
    plan_is_one(plan);
    for i in 0..plan.graph().tasks.len() {
        if !has_rows_of_task(plan, horizon, rows, TaskNo(i as u32)) {
            return false;
        }
    }
    true
}

/// Whether no task of the plan runs a body, its edges are of integers, and these are rows of integers for all its sensors.
pub fn are_served(plan: &Plan, horizon: Horizon, rows: &[Seq<Value>]) -> bool
    requires { IsHorizon plan.now horizon }
    ensures bodies { result ≡ true → (bodies : List CheckedBody) → HaveTaskBodies plan.now.graph bodies }
    ensures rows { result ≡ true → HaveTypedRows plan.now.graph horizon.until rows.now }
{
    plan_is_one(plan);
    horizon_jobs_are_counted();
    let graph = plan.graph();
    if !are_no_nodes(graph.tasks.as_slice()) {
        return false;
    }
    if !are_int_edges(graph.edges.as_slice()) {
        return false;
    }
    have_rows(plan, horizon, rows)
}
