//! The rows of a plan.

ghost use Rattle.std.specs.Prelude.{◌≡◌, ◌<◌, ◌^◌, ◌++◌, ◌∷◌, ◌&&◌, ◌⊎◌, ℕ, List, [], All, IfOk, OnOk, cond, length, map};
ghost use Rattle.prl_base.specs.declared.numbers.TaskNo.{TaskNo as AnyTask};
ghost use Rattle.prl_plan.specs.Vocabulary.{constants_of, is_actuator, is_sensor, task_at, IsHorizon};
ghost use Rattle.prl_ages.specs.Verdicts.{IsVerdict};
ghost use Rattle.prl_edf.specs.Vocabulary.{IsFeasibleRun};
ghost use Rattle.prl_overlaps.specs.Demand.{wcets_of};
ghost use Rattle.prl_times.specs.Rows.{about, age, ages_at, chain, is_asked, load, overload, sensors_at, skew, tasks_to, EndSo, IsRow, Subject};
ghost use Rattle.prl_responses.specs.Responses.{times_at};

use crate::names::{is_actuator, is_sensor};
use prl_ages::{Verdict, skew_of, verdicts_at};
use prl_base::TaskNo;
use prl_edf::{Timed, Verdict as RunVerdict, analyse};
use prl_forever::load_of;
use prl_plan::{Horizon, Plan, plan_is_one};
use prl_responses::{Times, times_of};
use prl_timetext::Row;
use std::alloc::{AllocError, Global};

/// The row of the load of a hyperperiod.
pub(crate) fn load_row(plan: &Plan) -> Row
    ensures row { (tasks : List AnyTask) (until : ℕ) → IsRow plan.now tasks until result }
    ensures about { about result ≡ load }
{
    Row::Load {
        load: load_of(plan),
        hyper: plan.graph().hyper,
    }
}

/// One row.
pub(crate) fn one_row(alloc: Global, row: Row) -> Result<Vec<Row>, AllocError>
    ensures { IfOk result (λ rows. rows.items ≡ row ∷ []) }
{
    let mut rows = Vec::new(alloc);
    rows.push(row)?;
    Ok(rows)
}

/// Whether a task is asked for: it is this one, or none is named.
fn is_asked(only: Option<TaskNo>, i: TaskNo) -> bool
    ensures { result ≡ is_asked only i.0 }
{
    match only {
        None => true,
        Some(task) => task.0 == i.0,
    }
}

/// Appends the row of a task at an actuator, if it is a sensor that is asked for.
fn push_sensor(
    rows: &mut Vec<Row>,
    plan: &Plan,
    only: Option<TaskNo>,
    s: TaskNo,
    a: TaskNo,
    verdict: Verdict,
) -> Result<(), AllocError>
    requires sensor { s.0 < length plan.now.graph.tasks }
    requires verdict { IsVerdict plan.now.graph [] s.0 a.0 verdict }
    ensures about { OnOk result (map about rows.new.items ≡ map about rows.old.items ++ cond (is_sensor (task_at plan.now.graph s.0).kind && is_asked only s.0) (age s.0 a.0 ∷ []) []) }
    ensures rows { OnOk result ((until : ℕ) → All (IsRow plan.now [] until) rows.old.items → All (IsRow plan.now [] until) rows.new.items) }
{
    if is_sensor(plan, s) && is_asked(only, s) {
        rows.push(Row::Age {
            sensor: s,
            actuator: a,
            verdict,
        })?;
    }
    Ok(())
}

/// Appends the rows of the sensors that are asked for, at an actuator.
fn push_sensors(
    alloc: Global,
    rows: &mut Vec<Row>,
    plan: &Plan,
    only: Option<TaskNo>,
    a: TaskNo,
) -> Result<(), AllocError>
    requires { a.0 < length plan.now.graph.tasks }
    ensures about { OnOk result (map about rows.new.items ≡ map about rows.old.items ++ sensors_at plan.now.graph only a.0 (length plan.now.graph.tasks)) }
    ensures rows { OnOk result ((until : ℕ) → All (IsRow plan.now [] until) rows.old.items → All (IsRow plan.now [] until) rows.new.items) }
{
    plan_is_one(plan);
    let verdicts = verdicts_at(alloc, plan, &[], a)?;
    for s in 0..plan.graph().tasks.len() {
        push_sensor(rows, plan, only, TaskNo(s as u32), a, verdicts[s])?;
    }
    Ok(())
}

/// Appends the rows of the sensors that are asked for at a task, if it is an actuator that is asked for.
fn push_actuator(
    alloc: Global,
    rows: &mut Vec<Row>,
    plan: &Plan,
    sensor: Option<TaskNo>,
    actuator: Option<TaskNo>,
    a: TaskNo,
) -> Result<(), AllocError>
    requires { a.0 < length plan.now.graph.tasks }
    ensures about { OnOk result (map about rows.new.items ≡ map about rows.old.items
        ++ cond (is_actuator (task_at plan.now.graph a.0).kind && is_asked actuator a.0) (sensors_at plan.now.graph sensor a.0 (length plan.now.graph.tasks)) []) }
    ensures rows { OnOk result ((until : ℕ) → All (IsRow plan.now [] until) rows.old.items → All (IsRow plan.now [] until) rows.new.items) }
{
    if is_actuator(plan, a) && is_asked(actuator, a) {
        push_sensors(alloc, rows, plan, sensor, a)?;
    }
    Ok(())
}

/// Appends the rows of the ages: for each actuator that is asked for, and each sensor.
pub(crate) fn push_ages(
    alloc: Global,
    rows: &mut Vec<Row>,
    plan: &Plan,
    sensor: Option<TaskNo>,
    actuator: Option<TaskNo>,
) -> Result<(), AllocError>
    ensures about { OnOk result (map about rows.new.items ≡ map about rows.old.items ++ ages_at plan.now.graph sensor actuator (length plan.now.graph.tasks)) }
    ensures rows { OnOk result ((until : ℕ) → All (IsRow plan.now [] until) rows.old.items → All (IsRow plan.now [] until) rows.new.items) }
{
    plan_is_one(plan);
    for a in 0..plan.graph().tasks.len() {
        push_actuator(alloc, rows, plan, sensor, actuator, TaskNo(a as u32))?;
    }
    Ok(())
}

/// The row of a chain of tasks, from its first to its last.
pub(crate) fn chain_row(
    alloc: Global,
    plan: &Plan,
    tasks: &[TaskNo],
    first: TaskNo,
    last: TaskNo,
) -> Result<Row, AllocError>
    requires first { first.0 < length plan.now.graph.tasks }
    requires last { last.0 < length plan.now.graph.tasks }
    ensures row { IfOk result (λ row. (until : ℕ) → IsRow plan.now tasks.now until row) }
    ensures about { IfOk result (λ row. about row ≡ chain first.0 last.0) }
{
    let verdicts = verdicts_at(alloc, plan, tasks, last)?;
    Ok(Row::Chain {
        first,
        last,
        verdict: verdicts[first.0 as usize],
    })
}

/// The row of the skew of two sensors at an actuator.
pub(crate) fn skew_row(
    alloc: Global,
    plan: &Plan,
    first: TaskNo,
    second: TaskNo,
    actuator: TaskNo,
) -> Result<Row, AllocError>
    requires first { first.0 < length plan.now.graph.tasks }
    requires second { second.0 < length plan.now.graph.tasks }
    requires actuator { actuator.0 < length plan.now.graph.tasks }
    ensures row { IfOk result (λ row. (tasks : List AnyTask) (until : ℕ) → IsRow plan.now tasks until row) }
    ensures about { IfOk result (λ row. about row ≡ skew first.0 second.0 actuator.0) }
{
    let verdict = skew_of(alloc, plan, first, second, actuator)?;
    Ok(Row::Skew {
        first,
        second,
        actuator,
        verdict,
    })
}

/// Appends the rows of how soon the jobs of the tasks end.
fn push_tasks(
    rows: &mut Vec<Row>,
    plan: &Plan,
    horizon: Horizon,
    times: &[Option<Times>],
) -> Result<(), AllocError>
    requires few { length times.now < 2 ^ 32 }
    requires times { (i : ℕ) → i < length times.now → EndSo plan.now horizon.until i (times_at times.now i) }
    ensures about { OnOk result (map about rows.new.items ≡ map about rows.old.items ++ tasks_to (length times.now)) }
    ensures rows { OnOk result (All (IsRow plan.now [] horizon.until) rows.old.items → All (IsRow plan.now [] horizon.until) rows.new.items) }
{
    let _ = plan;
    let _ = horizon;
    for i in 0..times.len() {
        rows.push(Row::Task {
            task: TaskNo(i as u32),
            times: times[i],
        })?;
    }
    Ok(())
}

/// Appends the rows of a run that meets all deadlines.
fn push_timed(
    alloc: Global,
    rows: &mut Vec<Row>,
    plan: &Plan,
    horizon: Horizon,
    timed: &Timed,
) -> Result<(), AllocError>
    requires horizon { IsHorizon plan.now horizon }
    requires run { IsFeasibleRun (constants_of plan.now horizon) (wcets_of plan.now) timed.now }
    ensures about { OnOk result (map about rows.new.items ≡ map about rows.old.items ++ tasks_to (length plan.now.graph.tasks)) }
    ensures rows { OnOk result (All (IsRow plan.now [] horizon.until) rows.old.items → All (IsRow plan.now [] horizon.until) rows.new.items) }
{
    plan_is_one(plan);
    let times = times_of(alloc, plan, horizon, timed)?;
    push_tasks(rows, plan, horizon, &times)
}

/// Appends the rows of the run by earliest deadline first of the jobs of a horizon: one for each task, or the overload.
pub(crate) fn push_run(
    alloc: Global,
    rows: &mut Vec<Row>,
    plan: &Plan,
    horizon: Horizon,
) -> Result<(), AllocError>
    requires { IsHorizon plan.now horizon }
    ensures about { OnOk result ((run : List Subject) × ((run ≡ tasks_to (length plan.now.graph.tasks)) ⊎ (run ≡ overload ∷ [])) × (map about rows.new.items ≡ map about rows.old.items ++ run)) }
    ensures rows { OnOk result (All (IsRow plan.now [] horizon.until) rows.old.items → All (IsRow plan.now [] horizon.until) rows.new.items) }
{
    match analyse(alloc, plan, horizon)? {
        RunVerdict::Overload { from, to, demand } => {
            rows.push(Row::Overload { from, to, demand })?;
            Ok(())
        }
        RunVerdict::Run(timed) => push_timed(alloc, rows, plan, horizon, &timed),
    }
}
