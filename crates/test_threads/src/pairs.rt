//! A sensor with rows and an actuator that takes each of its values, both of period 10 and of WCET 1.

ghost use Rattle.std.specs.Prelude.{◌≡◌, [], true, IfOk};
ghost use Rattle.prl_plan.specs.Horizons.{IsHorizon};
ghost use Rattle.prl_values.specs.Fitting.{HaveTaskBodies, HaveTypedRows};
ghost use Rattle.test_threads.specs.Pairs.{IsClosedPair, IsPair};

use crate::cases::Shown;
use prl_base::{CellNo, TaskNo, Value};
use prl_board::{Closed, Half};
use prl_flow::Sensors;
use prl_plan::{Horizon, Kind, Plan, plan_is_one};
use std::alloc::Global;
use std::test::Fail;
use test_calls::{COPIED_PLAN, plan_served};

/// Whether the second task of a plan is its first actuator's, and it has a cell.
fn is_pair(plan: &Plan) -> bool
    ensures { result ≡ true → IsPair plan.now }
{
    plan_is_one(plan);
    let tasks = plan.graph().tasks.as_slice();
    tasks.len() >= 2 && tasks[1].kind == Kind::Actuator(0) && plan.total() > 0
}

/// The plan of the pair with these rows, and the horizon up to a date.
pub(crate) fn pair(
    alloc: Global,
    rows: &[Value],
    until: u32,
) -> Result<(Plan, Sensors, Horizon), Fail>
    ensures pair { IfOk result (λ r. IsPair r.0) }
    ensures horizon { IfOk result (λ r. IsHorizon r.0 r.2) }
    ensures bodies { IfOk result (λ r. HaveTaskBodies r.0.graph []) }
    ensures rows { IfOk result (λ r. HaveTypedRows r.0.graph r.2.until r.1) }
{
    let made = plan_served(alloc, COPIED_PLAN, 1, rows, until)?;
    if is_pair(&made.0) {
        Ok(made)
    } else {
        Err("another plan".into())
    }
}

/// The rows of a pair up to 20.
pub(crate) const ROWS: [Value; 2] = [Value::Int(1), Value::Int(2)];

/// Of how many of the rows 1, 2, 3 .. these are the values; no count that there is where they are others.
pub(crate) fn count_of(values: &[Value]) -> usize {
    let mut next: i64 = 1;
    for value in values {
        if *value != Value::Int(next) {
            return usize::MAX;
        }
        next = next.saturating_add(1);
    }
    values.len()
}

/// What a closed board of the pair shows.
pub(crate) fn shown(closed: &Closed) -> Shown
    requires { IsClosedPair closed.now }
{
    [
        closed.now(),
        closed.done(TaskNo(0)),
        closed.done(TaskNo(1)),
        closed.word(CellNo(0), Half::Low),
        closed.word(CellNo(0), Half::High),
        closed.ended() as u64,
        count_of(closed.output(0)) as u64,
    ]
}
