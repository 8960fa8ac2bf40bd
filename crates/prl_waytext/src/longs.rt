//! A task whose jobs need more time than they have, each alone.

ghost use Rattle.std.specs.Prelude.{◌≡◌, ◌++◌, ◌<◌, IfOk, IfSome, OnOk, length};
ghost use Rattle.prl_plan.specs.Jobs.{task_at};
ghost use Rattle.prl_waytext.specs.Longs.{IsTooLong, less_text, long_text, mend_text, needs_text, none_text, room_text};

use prl_base::{TaskNo, push_number};
use prl_overloads::push_numbered;
use prl_plan::{Task, TaskGraph};
use std::alloc::{AllocError, Global};

/// The first task whose WCET is above its due.
pub(crate) fn long_task(graph: &TaskGraph) -> Option<TaskNo>
    ensures { IfSome result (λ i. IsTooLong graph.now i.0) }
{
    for (i, task) in graph.tasks.as_slice().iter().enumerate() {
        if task.due < u64::from(task.wcet) && i < 64 {
            return Some(TaskNo(i as u32));
        }
    }
    None
}

/// Appends what a job of a task takes.
#[tactic(auto, unfolding(crate::specs::Longs::needs_text))]
fn push_needs(text: &mut Vec<u8>, task: &Task) -> Result<(), AllocError>
    ensures { OnOk result (text.new.items ≡ text.old.items ++ needs_text task.now) }
{
    text.extend_from_slice(b"A job of `")?;
    text.extend_from_slice(task.name.bytes())?;
    text.extend_from_slice(b"` takes ")?;
    push_number(text, u64::from(task.wcet))
}

/// Appends what it has.
#[tactic(auto, unfolding(crate::specs::Longs::room_text))]
fn push_room(text: &mut Vec<u8>, task: &Task) -> Result<(), AllocError>
    ensures { OnOk result (text.new.items ≡ text.old.items ++ room_text task.now) }
{
    push_numbered(
        text,
        b" ticks, and has to end ",
        task.due,
        b" after its release",
    )
}

/// Appends which WCET would do.
#[tactic(auto, unfolding(crate::specs::Longs::none_text))]
fn push_none(text: &mut Vec<u8>, task: &Task) -> Result<(), AllocError>
    ensures { OnOk result (text.new.items ≡ text.old.items ++ none_text task.now) }
{
    push_numbered(text, b": none can. Make its wcet ", task.due, b" or less")
}

/// Appends which due and which period would do.
#[tactic(auto, unfolding(crate::specs::Longs::less_text))]
fn push_less(text: &mut Vec<u8>, task: &Task) -> Result<(), AllocError>
    ensures { OnOk result (text.new.items ≡ text.old.items ++ less_text task.now) }
{
    let wcet = u64::from(task.wcet);
    push_numbered(text, b", or its due and its period ", wcet, b" or more.\n")
}

/// Appends what would mend it.
#[tactic(auto, unfolding(crate::specs::Longs::mend_text))]
fn push_mend(text: &mut Vec<u8>, task: &Task) -> Result<(), AllocError>
    ensures { OnOk result (text.new.items ≡ text.old.items ++ mend_text task.now) }
{
    push_none(text, task)?;
    push_less(text, task)
}

/// What is told of a task whose jobs need more than they have.
#[tactic(auto, unfolding(crate::specs::Longs::long_text))]
fn task_told(alloc: Global, task: &Task) -> Result<Vec<u8>, AllocError>
    ensures { IfOk result (λ text. text.items ≡ long_text task.now) }
{
    let mut text = Vec::new(alloc);
    push_needs(&mut text, task)?;
    push_room(&mut text, task)?;
    push_mend(&mut text, task)?;
    Ok(text)
}

/// What is told of a task of a graph whose jobs need more than they have.
pub(crate) fn long_told(alloc: Global, graph: &TaskGraph, i: TaskNo) -> Result<Vec<u8>, AllocError>
    requires { i.0 < length graph.now.tasks }
    ensures { IfOk result (λ text. text.items ≡ long_text (task_at graph.now i.0)) }
{
    task_told(alloc, &graph.tasks.as_slice()[i.0 as usize])
}
