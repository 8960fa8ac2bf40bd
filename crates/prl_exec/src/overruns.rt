//! Reads that were overrun, read once more by one thread that holds all seats.

ghost use Rattle.std.specs.Prelude.{◌≡◌, ◌<◌, IfSome, length};
ghost use Rattle.prl_board.specs.Lones.{IsLoneOf};
ghost use Rattle.prl_exec.specs.code.Overruns.{IsOverrunIn, IsReadingAt};

use prl_base::{CellNo, TaskNo};
use prl_board::{Board, Got, Lone, Place, Steps};
use std::sync::ledger::Ledger;

/// A read that finds a later instance than the wanted one.
#[derive(Clone, Copy)]
pub(crate) struct Missed {
    pub(crate) task: TaskNo,
    pub(crate) job: u64,
    pub(crate) port: u32,
    pub(crate) cell: CellNo,
    pub(crate) wanted: u32,
    pub(crate) found: u32,
}

/// Reads at this port of the task's open job. What was missed, where the read is overrun.
fn read_again<L: Ledger>(
    lone: &mut Lone,
    board: &Board,
    task: TaskNo,
    port: u32,
    steps: &mut Steps<L>,
) -> Option<Missed>
    requires lone { IsLoneOf board.now lone.old }
    requires place { IsReadingAt lone.old task.0 port }
    ensures lone { IsLoneOf board.now lone.new }
    ensures tasks { length lone.new.seats ≡ length lone.old.seats }
    ensures met { IfSome result (IsOverrunIn board.now.known lone.new) }
{
    lone.stands();
    match lone.read(board, task, steps) {
        Got::Half => None,
        Got::Value(_) => None,
        Got::NotYet { .. } => None,
        Got::Overrun {
            cell,
            wanted,
            found,
        } => Some(Missed {
            task,
            job: lone.job(task),
            port,
            cell,
            wanted,
            found,
        }),
    }
}

/// Reads, where the task's open job is to read. What was missed, where the read is overrun.
pub(crate) fn overrun_of<L: Ledger>(
    lone: &mut Lone,
    board: &Board,
    task: TaskNo,
    steps: &mut Steps<L>,
) -> Option<Missed>
    requires lone { IsLoneOf board.now lone.old }
    requires task { task.0 < length lone.old.seats }
    ensures lone { IsLoneOf board.now lone.new }
    ensures tasks { length lone.new.seats ≡ length lone.old.seats }
    ensures met { IfSome result (IsOverrunIn board.now.known lone.new) }
{
    match lone.place(task) {
        Place::Reading(port, _) => read_again(lone, board, task, port, steps),
        Place::Writing(_, _) => None,
        Place::Ending => None,
        Place::Idle => None,
        Place::Over => None,
    }
}

/// What was missed by the first task whose read is overrun.
pub(crate) fn first_overrun<L: Ledger>(
    lone: &mut Lone,
    board: &Board,
    steps: &mut Steps<L>,
) -> Option<Missed>
    requires lone { IsLoneOf board.now lone.old }
    ensures lone { IsLoneOf board.now lone.new }
    ensures met { IfSome result (IsOverrunIn board.now.known lone.new) }
{
    lone.stands();
    for i in 0..board.tasks() {
        if let Some(missed) = overrun_of(lone, board, TaskNo(i), steps) {
            return Some(missed);
        }
    }
    None
}
