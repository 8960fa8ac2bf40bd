//! The names of tasks.

ghost use Rattle.std.specs.Prelude.{◌≡◌, ◌++◌, OnOk};
ghost use Rattle.prl_plan.specs.Vocabulary.{task_at};
ghost use Rattle.prl_timetext.specs.Names.{names_joined};

use prl_base::TaskNo;
use prl_plan::Plan;
use std::alloc::AllocError;

/// The name of a task; no bytes where the plan has no such one.
pub(crate) fn name_of(plan: &Plan, i: TaskNo) -> &[u8]
    ensures { result.now ≡ (task_at plan.now.graph i.0).name }
{
    match plan.graph().tasks.as_slice().get(i.0 as usize) {
        Some(task) => task.name.bytes(),
        None => b"",
    }
}

/// Appends the names of some tasks, with commas between them.
pub fn push_names(text: &mut Vec<u8>, plan: &Plan, tasks: &[TaskNo]) -> Result<(), AllocError>
    ensures { OnOk result (text.new.items ≡ text.old.items ++ names_joined plan.now.graph tasks.now) }
{
    match tasks {
        [] => Ok(()),
        [task] => text.extend_from_slice(name_of(plan, *task)),
        [task, rest @ ..] => {
            text.extend_from_slice(name_of(plan, *task))?;
            text.extend_from_slice(b",")?;
            push_names(text, plan, rest)
        }
    }
}
