//! What is told beside the place and the sentence, by the plan of the program.

ghost use Rattle.std.specs.Prelude.{◌≡◌, ◌≤◌, All, IfOk, IfSome, Ok, Some, length};
ghost use Rattle.std.specs.Option.{option_copied, option_map};
ghost use Rattle.prl_stages.specs.declared.sizes.TheConstants.{MAX_PROGRAM};
ghost use Rattle.prl_track.specs.Machine.{IsOfPlan as IsEventOf};
ghost use Rattle.prl_base.specs.Decimals.{decimal_of};
ghost use Rattle.prl_schedules.specs.Vocabulary.{task_names};
ghost use Rattle.prl_sentences.specs.Sentences.{word_at};
ghost use Rattle.prl_explain.specs.Details.{IsLeftIn, IsLeftTold, IsOfLine, IsOfSchedule, IsOverloadIn, IsOverloadOf, IsPlacingIn, IsPlacingTold, IsPlanFrom, IsPlanOf, IsTableIn};
ghost use Rattle.prl_explain.specs.Placings.{tasks_text};

use crate::placings::{placing_told, push_tasks};
use prl_base::{Label, decimal_of};
use prl_calls::plan_of;
use prl_cores::{CoresFault, read_cores};
use prl_overloads::Overload;
use prl_plan::{Event, Plan, Rule, plan_is_one};
use prl_plantext::{PlanFault, read_plan};
use prl_schedules::{
    ScheduleFault, TaskNames, finding_at, left_after, push_finding, push_left, read_schedule,
    without_return,
};
use prl_sentences::word_at;
use prl_spots::{line_rest, line_start};
use prl_tablefaults::{overload_told, table_told};
use std::alloc::{AllocError, Global};

/// The same name once more, where there is one.
fn copied(alloc: Global, node: Option<&Label>) -> Result<Option<Label>, AllocError>
    ensures { IfOk result (λ copy. copy ≡ option_copied node.entry) }
{
    match node {
        None => Ok(None),
        Some(name) => Ok(Some(Label::new(alloc, name.bytes())?)),
    }
}

/// The plan of a program; None where none is named, and where it has none.
fn plan_in(
    alloc: Global,
    program: Option<&[u8]>,
    node: Option<&Label>,
) -> Result<Option<Plan>, AllocError>
    requires { IfSome program (λ text. length text.now ≤ MAX_PROGRAM) }
    ensures { IfOk result (IsPlanOf (option_map (λ text. text.now) program.entry) (option_copied node.entry)) }
{
    let Some(program) = program else {
        return Ok(None);
    };
    let text = Vec::from_slice(alloc, program)?;
    let node = copied(alloc, node)?;
    plan_of(alloc, text, node)
}

/// The plan whose text is named, or that of the program where none is.
pub(crate) fn plan_from(
    alloc: Global,
    text: Option<&[u8]>,
    program: Option<&[u8]>,
    node: Option<&Label>,
) -> Result<Option<Plan>, AllocError>
    requires { IfSome program (λ text. length text.now ≤ MAX_PROGRAM) }
    ensures { IfOk result (IsPlanFrom (option_map (λ text. text.now) text.entry)
        (option_map (λ text. text.now) program.entry) (option_copied node.entry)) }
{
    let Some(text) = text else {
        return plan_in(alloc, program, node);
    };
    match read_plan(alloc, text) {
        Ok(plan) => Ok(Some(plan)),
        Err(PlanFault::NotPlan) => Ok(None),
        Err(PlanFault::Memory) => Err(AllocError),
    }
}

/// What is told of the event of the line of this number.
fn of_line(
    alloc: Global,
    plan: &Plan,
    events: &[Event],
    argument: &[u8],
    rule: Rule,
) -> Result<Vec<u8>, AllocError>
    requires { All (IsEventOf plan.now) events.now }
    ensures { IfOk result (λ text. IsOfLine plan.now events.now (decimal_of argument.now) rule text.items) }
{
    let mut text = Vec::new(alloc);
    let Some(line) = decimal_of(argument) else {
        return Ok(text);
    };
    if line == 0 {
        return Ok(text);
    }
    match finding_at(alloc, plan, events, (line - 1) as usize, rule)? {
        None => Ok(text),
        Some(finding) => {
            push_finding(&mut text, plan, &finding)?;
            Ok(text)
        }
    }
}

/// What is told of a line of a schedule of the plan; nothing where none is named, and where the text is none.
pub(crate) fn broken_told(
    alloc: Global,
    plan: &Plan,
    schedule: Option<&[u8]>,
    argument: &[u8],
    rule: Rule,
) -> Result<Vec<u8>, AllocError>
    ensures { IfOk result (λ text. IsOfSchedule plan.now (option_map (λ text. text.now) schedule.entry) argument.now rule text.items) }
{
    let Some(schedule) = schedule else {
        return Ok(Vec::new(alloc));
    };
    match read_schedule(alloc, schedule, plan) {
        Ok(events) => of_line(alloc, plan, &events, argument, rule),
        Err(ScheduleFault::Syntax(_)) => Ok(Vec::new(alloc)),
        Err(ScheduleFault::Memory) => Err(AllocError),
    }
}

/// What is told of what a job is left to do after the events.
#[tactic(auto, using(crate::proofs::Lefts::left_is, crate::proofs::Lefts::nothing_left))]
fn left_of(
    alloc: Global,
    plan: &Plan,
    events: &[Event],
    name: &[u8],
    number: &[u8],
) -> Result<Vec<u8>, AllocError>
    requires { All (IsEventOf plan.now) events.now }
    ensures { IfOk result (λ text. IsLeftTold plan.now (Ok events.now) name.now number.now text.items) }
{
    plan_is_one(plan);
    let mut text = Vec::new(alloc);
    let names = TaskNames::new(alloc, plan.graph().tasks.as_slice())?;
    let Some(task) = names.task_of(name) else {
        return Ok(text);
    };
    match left_after(alloc, plan, events, task)? {
        Some(left) if decimal_of(number) == Some(left.number) => {
            push_left(&mut text, &left)?;
            Ok(text)
        }
        _ => Ok(text),
    }
}

/// What is told of what a job is left to do after a schedule of the plan; nothing where none is named.
pub(crate) fn left_told(
    alloc: Global,
    plan: &Plan,
    schedule: Option<&[u8]>,
    name: &[u8],
    number: &[u8],
) -> Result<Vec<u8>, AllocError>
    ensures { IfOk result (λ text. IsLeftIn plan.now (option_map (λ text. text.now) schedule.entry) name.now number.now text.items) }
{
    let Some(schedule) = schedule else {
        return Ok(Vec::new(alloc));
    };
    match read_schedule(alloc, schedule, plan) {
        Ok(events) => left_of(alloc, plan, &events, name, number),
        Err(ScheduleFault::Syntax(_)) => Ok(Vec::new(alloc)),
        Err(ScheduleFault::Memory) => Err(AllocError),
    }
}

/// What is told of the tasks of the plan.
pub(crate) fn tasks_told(alloc: Global, plan: &Plan) -> Result<Vec<u8>, AllocError>
    ensures { IfOk result (λ text. text.items ≡ tasks_text (task_names plan.now)) }
{
    let mut text = Vec::new(alloc);
    push_tasks(&mut text, plan.graph().tasks.as_slice())?;
    Ok(text)
}

/// What is told of a line of a text of processors, where it is the first that places no task.
#[tactic(auto, using(crate::proofs::Lefts::placing_is, crate::proofs::Lefts::no_placing))]
fn placing_of(alloc: Global, plan: &Plan, cores: &[u8], number: u64) -> Result<Vec<u8>, AllocError>
    ensures { IfOk result (λ text. IsPlacingTold plan.now cores.now (Some number) text.items) }
{
    plan_is_one(plan);
    let Some(at) = line_start(cores, number) else {
        return Ok(Vec::new(alloc));
    };
    match read_cores(alloc, cores, plan) {
        Err(CoresFault::Syntax(line)) if line == number => {
            let line = without_return(line_rest(cores, at));
            placing_told(alloc, plan.graph().tasks.as_slice(), line)
        }
        Err(CoresFault::Memory) => Err(AllocError),
        _ => Ok(Vec::new(alloc)),
    }
}

/// What is told of the line of a text of processors that a number tells; nothing where no text is named.
pub(crate) fn placing_in(
    alloc: Global,
    plan: &Plan,
    cores: Option<&[u8]>,
    argument: &[u8],
) -> Result<Vec<u8>, AllocError>
    ensures { IfOk result (λ text. IsPlacingIn plan.now (option_map (λ text. text.now) cores.entry) argument.now text.items) }
{
    let Some(cores) = cores else {
        return Ok(Vec::new(alloc));
    };
    match decimal_of(argument) {
        None => Ok(Vec::new(alloc)),
        Some(number) => placing_of(alloc, plan, cores, number),
    }
}

/// The overload that the words after the front of a line tell; None where they tell no numbers.
fn overload_of(rest: &[u8]) -> Option<Overload>
    ensures { IfSome result (λ told. IsOverloadOf (word_at 0 rest.now) (word_at 1 rest.now) (word_at 3 rest.now) told) }
{
    let from = decimal_of(word_at(rest, 0))?;
    let to = decimal_of(word_at(rest, 1))?;
    let demand = decimal_of(word_at(rest, 3))?;
    Some(Overload { from, to, demand })
}

/// What is told of the overload that the words after the front of a line tell.
#[tactic(auto, using(crate::proofs::Loads::overload_is, crate::proofs::Loads::no_overload))]
pub(crate) fn overload_in_plan(
    alloc: Global,
    plan: &Plan,
    rest: &[u8],
) -> Result<Vec<u8>, AllocError>
    ensures { IfOk result (λ text. IsOverloadIn plan.now (word_at 0 rest.now) (word_at 1 rest.now) (word_at 3 rest.now) text.items) }
{
    match overload_of(rest) {
        None => Ok(Vec::new(alloc)),
        Some(told) => overload_told(alloc, plan, told),
    }
}

/// What is told of a table of the plan that is not good; nothing where none is named.
pub(crate) fn table_in_plan(
    alloc: Global,
    plan: &Plan,
    table: Option<&[u8]>,
) -> Result<Vec<u8>, AllocError>
    ensures { IfOk result (λ text. IsTableIn plan.now (option_map (λ text. text.now) table.entry) text.items) }
{
    match table {
        None => Ok(Vec::new(alloc)),
        Some(table) => table_told(alloc, plan, table),
    }
}
