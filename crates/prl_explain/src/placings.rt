//! What is told of the tasks of a plan, and of a line of a text of processors that places none.

ghost use Rattle.std.specs.Prelude.{◌≡◌, ◌++◌, ◌<◌, ◌^◌, IfOk, OnOk, length};
ghost use Rattle.std.specs.List.{flat_map};
ghost use Rattle.prl_cores.specs.Processors.{processor_in};
ghost use Rattle.prl_schedules.specs.ScheduleTexts.{names_of};
ghost use Rattle.prl_explain.specs.Placings.{again_text, marks_text, name_text, no_blank_text, no_number_text, placing_text, tasks_text, unnamed_text, worded};

use prl_base::{TaskNo, len_before};
use prl_cores::processor_in;
use prl_plan::Task;
use prl_schedules::TaskNames;
use std::alloc::{AllocError, Global};

/// Appends names, each after a blank.
fn push_names(told: &mut Vec<u8>, tasks: &[Task]) -> Result<(), AllocError>
    ensures { OnOk result (told.new.items ≡ told.old.items ++ flat_map name_text (names_of tasks.now)) }
{
    for task in tasks {
        told.push(b' ')?;
        told.extend_from_slice(task.name.bytes())?;
    }
    Ok(())
}

/// Appends the names of the tasks, as a line.
#[tactic(auto, unfolding(crate::specs::Placings::tasks_text))]
pub(crate) fn push_tasks(told: &mut Vec<u8>, tasks: &[Task]) -> Result<(), AllocError>
    ensures { OnOk result (told.new.items ≡ told.old.items ++ tasks_text (names_of tasks.now)) }
{
    told.extend_from_slice(b"The tasks are")?;
    push_names(told, tasks)?;
    told.extend_from_slice(b".\n")
}

/// Appends a word between others.
#[tactic(auto, unfolding(crate::specs::Placings::worded))]
fn push_worded(told: &mut Vec<u8>, front: &str, word: &[u8], end: &str) -> Result<(), AllocError>
    ensures { OnOk result (told.new.items ≡ told.old.items ++ worded front.now word.now end.now) }
{
    told.extend_from_slice(front.as_bytes())?;
    told.extend_from_slice(word)?;
    told.extend_from_slice(end.as_bytes())
}

/// Appends that no task has a name.
#[tactic(auto, unfolding(crate::specs::Placings::unnamed_text))]
fn push_unnamed(told: &mut Vec<u8>, name: &[u8]) -> Result<(), AllocError>
    ensures { OnOk result (told.new.items ≡ told.old.items ++ unnamed_text name.now) }
{
    push_worded(told, "No task is named `", name, "`. ")
}

/// Appends that a text is no number of a processor.
#[tactic(auto, unfolding(crate::specs::Placings::no_number_text))]
fn push_no_number(told: &mut Vec<u8>, number: &[u8]) -> Result<(), AllocError>
    ensures { OnOk result (told.new.items ≡ told.old.items ++ no_number_text number.now) }
{
    push_worded(told, "`", number, "` is no number from 0 to 15.\n")
}

/// Appends that a task has a line already.
#[tactic(auto, unfolding(crate::specs::Placings::again_text))]
fn push_again(told: &mut Vec<u8>, name: &[u8]) -> Result<(), AllocError>
    ensures { OnOk result (told.new.items ≡ told.old.items ++ again_text name.now) }
{
    push_worded(told, "An earlier line places `", name, "` already.\n")
}

/// Appends that a line has no blank.
#[tactic(auto, unfolding(crate::specs::Placings::no_blank_text))]
fn push_no_blank(told: &mut Vec<u8>) -> Result<(), AllocError>
    ensures { OnOk result (told.new.items ≡ told.old.items ++ no_blank_text) }
{
    told.extend_from_slice(b"No blank stands in it.\n")
}

/// Appends which of the two marks of a line is wrong.
fn push_marks(
    told: &mut Vec<u8>,
    tasks: &[Task],
    name: &[u8],
    number: &[u8],
    task: Option<TaskNo>,
) -> Result<(), AllocError>
    ensures { OnOk result (told.new.items ≡ told.old.items ++ marks_text (names_of tasks.now) name.now number.now task (processor_in number.now)) }
{
    match task {
        None => {
            push_unnamed(told, name)?;
            push_tasks(told, tasks)
        }
        Some(_) => match processor_in(number) {
            None => push_no_number(told, number),
            Some(_) => push_again(told, name),
        },
    }
}

/// What is wrong in a line of a text of processors.
pub(crate) fn placing_told(
    alloc: Global,
    tasks: &[Task],
    line: &[u8],
) -> Result<Vec<u8>, AllocError>
    requires { length tasks.now < 2 ^ 32 }
    ensures { IfOk result (λ told. told.items ≡ placing_text (names_of tasks.now) line.now) }
{
    let mut told = Vec::new(alloc);
    let len = len_before(line, b' ');
    if len == line.len() {
        push_no_blank(&mut told)?;
        return Ok(told);
    }
    let names = TaskNames::new(alloc, tasks)?;
    let name = &line[..len];
    push_marks(
        &mut told,
        tasks,
        name,
        &line[len + 1..],
        names.task_of(name),
    )?;
    Ok(told)
}
