//! The tasks of a plan and their names.

ghost use Rattle.std.specs.Prelude.{◌≡◌, ◌≢◌, ◌<◌, All, IfNone, IfOk, IfSome, MatchOption, length, slice_index, take, true};
ghost use Rattle.std.specs.Bool.{OnTrue, OnFalse};
ghost use Rattle.prl_plan.specs.Vocabulary.{task_at, is_sensor, is_actuator};
ghost use Rattle.prl_times.specs.Names.{has_twice, is_one_of, AreOfPlan};
ghost use Rattle.prl_times.specs.Refused.{IsNoActuator, IsNoSensor, IsNoTask, NamesNoTask};
ghost use Rattle.prl_timetext.specs.Names.{names_joined};

use prl_base::TaskNo;
use prl_plan::{Kind, Plan, plan_is_one};
use std::alloc::{AllocError, Global};

/// What a task is for.
fn kind_of(plan: &Plan, i: TaskNo) -> Kind
    requires { i.0 < length plan.now.graph.tasks }
    ensures { result ≡ (task_at plan.now.graph i.0).kind }
{
    plan.graph().tasks.as_slice()[i.0 as usize].kind
}

/// Whether a task is one of a sensor.
pub(crate) fn is_sensor(plan: &Plan, i: TaskNo) -> bool
    requires { i.0 < length plan.now.graph.tasks }
    ensures { result ≡ is_sensor (task_at plan.now.graph i.0).kind }
{
    match kind_of(plan, i) {
        Kind::Sensor(_) => true,
        Kind::Node(_) => false,
        Kind::Actuator(_) => false,
    }
}

/// Whether a task is one of an actuator.
pub(crate) fn is_actuator(plan: &Plan, i: TaskNo) -> bool
    requires { i.0 < length plan.now.graph.tasks }
    ensures { result ≡ is_actuator (task_at plan.now.graph i.0).kind }
{
    match kind_of(plan, i) {
        Kind::Sensor(_) => false,
        Kind::Node(_) => false,
        Kind::Actuator(_) => true,
    }
}

/// The first task of this name.
fn task_named(plan: &Plan, name: &[u8]) -> Option<TaskNo>
    ensures some { IfSome result (λ task. (task.0 < length plan.now.graph.tasks) × ((task_at plan.now.graph task.0).name ≡ name.now)) }
    ensures none { IfNone result (IsNoTask plan.now.graph name.now) }
{
    plan_is_one(plan);
    let tasks = plan.graph().tasks.as_slice();
    for i in 0..tasks.len() {
        if tasks[i].name.bytes() == name {
            return Some(TaskNo(i as u32));
        }
    }
    None
}

/// Whether a task has this name.
fn has_name(plan: &Plan, i: TaskNo, name: &[u8]) -> bool
    requires { i.0 < length plan.now.graph.tasks }
    ensures yes { OnTrue result ((task_at plan.now.graph i.0).name ≡ name.now) }
    ensures no { OnFalse result ((task_at plan.now.graph i.0).name ≢ name.now) }
{
    plan.graph().tasks.as_slice()[i.0 as usize].name.bytes() == name
}

/// The sensor of this name.
pub(crate) fn sensor_named(plan: &Plan, name: &[u8]) -> Option<TaskNo>
    ensures some { IfSome result (λ task. (task.0 < length plan.now.graph.tasks) × (is_sensor (task_at plan.now.graph task.0).kind ≡ true) × (name.now ≡ (task_at plan.now.graph task.0).name)) }
    ensures none { IfNone result (IsNoSensor plan.now.graph name.now) }
{
    plan_is_one(plan);
    for i in 0..plan.graph().tasks.len() {
        let task = TaskNo(i as u32);
        if is_sensor(plan, task) && has_name(plan, task, name) {
            return Some(task);
        }
    }
    None
}

/// The actuator of this name.
pub(crate) fn actuator_named(plan: &Plan, name: &[u8]) -> Option<TaskNo>
    ensures some { IfSome result (λ task. (task.0 < length plan.now.graph.tasks) × (is_actuator (task_at plan.now.graph task.0).kind ≡ true) × (name.now ≡ (task_at plan.now.graph task.0).name)) }
    ensures none { IfNone result (IsNoActuator plan.now.graph name.now) }
{
    plan_is_one(plan);
    for i in 0..plan.graph().tasks.len() {
        let task = TaskNo(i as u32);
        if is_actuator(plan, task) && has_name(plan, task, name) {
            return Some(task);
        }
    }
    None
}

/// Where the first comma of a word stands.
fn comma_in(word: &[u8]) -> Option<usize>
    ensures { MatchOption result (All (λ b. b ≢ 44) word.now) (λ k. (k < length word.now) × (slice_index word.now k ≡ 44) × All (λ b. b ≢ 44) (take k word.now)) }
{
    for k in 0..word.len() {
        if word[k] == b',' {
            return Some(k);
        }
    }
    None
}

/// The tasks whose names stand in a word, with commas between them; none where it names what is no task.
pub(crate) fn tasks_named(
    alloc: Global,
    plan: &Plan,
    word: &[u8],
) -> Result<Option<Vec<TaskNo>>, AllocError>
    ensures { IfOk result (λ found. MatchOption found (NamesNoTask plan.now.graph word.now)
        (λ tasks. AreOfPlan plan.now.graph tasks.items × (names_joined plan.now.graph tasks.items ≡ word.now))) }
{
    let mut tasks = Vec::new(alloc);
    let mut rest = word;
    'more: while let Some(k) = comma_in(rest) {
        let Some(task) = task_named(plan, &rest[..k]) else {
            return Ok(None);
        };
        tasks.push(task)?;
        rest = &rest[k + 1..];
    }
    let Some(task) = task_named(plan, rest) else {
        return Ok(None);
    };
    tasks.push(task)?;
    Ok(Some(tasks))
}

/// Whether a task is one of these.
fn is_one_of(task: TaskNo, tasks: &[TaskNo]) -> bool
    ensures { result ≡ is_one_of task.0 tasks.now }
{
    match tasks {
        [] => false,
        [first, rest @ ..] => first.0 == task.0 || is_one_of(task, rest),
    }
}

/// Whether a task stands twice among these.
pub(crate) fn has_twice(tasks: &[TaskNo]) -> bool
    ensures { result ≡ has_twice tasks.now }
{
    match tasks {
        [] => false,
        [first, rest @ ..] => is_one_of(*first, rest) || has_twice(rest),
    }
}
