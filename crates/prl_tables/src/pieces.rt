//! Whether the entries of a table are pieces of their jobs.

ghost use Rattle.std.specs.Prelude.{◌≡◌, ◌<◌, ◌≤◌, ◌^◌, ◌+◌, length, IfErr, OnOk};
ghost use Rattle.std.specs.Bool.{OnTrue, OnFalse};
ghost use Rattle.prl_plan.specs.Vocabulary.{task_at, release_at, deadline_at};
ghost use Rattle.prl_tables.specs.Checks.{IsFault};
ghost use Rattle.prl_tables.specs.Tables.{classes, ArePieces, IsPiece};

use crate::laws::classes_are_early;
use crate::reading::TableFault;
use prl_base::TaskNo;
use prl_overlaps::Entry;
use prl_plan::{Plan, look_ups_fit};

/// The period of a task, in ticks.
fn period(plan: &Plan, task: TaskNo) -> u64
    requires { task.0 < length plan.now.graph.tasks }
    ensures period { result ≡ (task_at plan.now.graph task.0).clock.period }
    ensures some { 0 < result }
{
    classes_are_early();
    plan.graph().tasks.as_slice()[task.0 as usize].clock.period
}

/// How many jobs of the task there are in a hyperperiod: its classes.
pub fn classes(plan: &Plan, task: TaskNo) -> u64
    requires { task.0 < length plan.now.graph.tasks }
    ensures { result ≡ classes plan.now.graph task.0 }
{
    plan.graph().hyper / period(plan, task)
}

/// The window of the first job of a class.
fn window(plan: &Plan, task: TaskNo, class: u64) -> (u64, u64)
    requires task { task.0 < length plan.now.graph.tasks }
    requires class { class < classes plan.now.graph task.0 }
    ensures release { result.0 ≡ release_at plan.now task.0 class }
    ensures deadline { result.1 ≡ deadline_at plan.now task.0 class }
    ensures small { result.1 < 2 ^ 33 }
{
    plan.graph();
    classes_are_early();
    look_ups_fit();
    (plan.release(task, class), plan.deadline(task, class))
}

/// Whether the entry is of a class and has units, and lies in the window of its job.
fn is_piece(plan: &Plan, entry: Entry) -> bool
    ensures yes { OnTrue result (IsPiece plan.now entry) }
    ensures no { OnFalse result (IsPiece plan.now entry → ⊥) }
{
    if entry.task.0 as usize >= plan.graph().tasks.len() {
        return false;
    }
    if entry.job >= classes(plan, entry.task) || entry.units == 0 {
        return false;
    }
    let (from, to) = window(plan, entry.task, entry.job);
    from <= entry.at && entry.at <= to && entry.units <= to - entry.at
}

/// `Piece` at the first entry that is no piece of its job.
pub(crate) fn check_pieces(plan: &Plan, entries: &[Entry]) -> Result<(), TableFault>
    ensures cause { IfErr result (IsFault plan.now entries.now) }
    ensures pieces { OnOk result (ArePieces plan.now entries.now) }
{
    for (k, entry) in entries.iter().enumerate() {
        if !is_piece(plan, *entry) {
            return Err(TableFault::Piece(k as u64 + 3));
        }
    }
    Ok(())
}
