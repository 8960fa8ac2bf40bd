//! The names of tasks.

ghost use Rattle.std.specs.Prelude.{◌≡◌};
ghost use Rattle.prl_frametext.specs.Texts.{name_at};

use prl_base::TaskNo;
use prl_plan::{Plan, plan_is_one};

/// The name of a task; no bytes where the plan has no such one.
pub(crate) fn name_of(plan: &Plan, i: TaskNo) -> &[u8]
    ensures { result.now ≡ name_at plan.now.graph i }
{
    match plan.graph().tasks.as_slice().get(i.0 as usize) {
        Some(task) => task.name.bytes(),
        None => b"",
    }
}

/// The name of a task as a text, which the plan's names are.
pub(crate) fn text_of_name(plan: &Plan, i: TaskNo) -> &str
    ensures { result.now ≡ name_at plan.now.graph i }
{
    plan_is_one(plan);
    match std::str::from_utf8(name_of(plan, i)) {
        Ok(name) => name,
        Err(_) => unreachable!(),
    }
}
