//! What a thread does with a task's seat.

ghost use Rattle.std.specs.Prelude.{◌≡◌, ◌<◌, ℕ, length, slice_index_or};
ghost use Rattle.std.specs.List.{All};
ghost use Rattle.kebrunza.specs.Vocabulary.{IsSeatOf, JobSeatView};

use kebrunza::boards::{Board, Got, Place, Release, TaskSeat};
use std::thread;
use std::thread::Threads;

/// How many actions of a task are done on end.
const TURNS: u32 = 64;

/// Does what comes next for a task, where it can be done: whether it was. With a gated clock no read is overrun.
fn act(board: &Board, seat: &mut TaskSeat) -> bool
    requires { IsSeatOf board.now seat.old }
    ensures seat { IsSeatOf board.now seat.new }
    ensures same { seat.new.task ≡ seat.old.task }
{
    match seat.place() {
        Place::Over => false,
        Place::Idle => match seat.release(board) {
            Release::Open { .. } => true,
            Release::Early { .. } | Release::Over => false,
        },
        Place::Reading(_, _) => match seat.read(board) {
            Got::Half | Got::Value(_) => true,
            Got::NotYet { .. } | Got::Overrun { .. } => false,
        },
        Place::Writing(_, _) => {
            seat.write(board);
            true
        }
        Place::Ending => {
            seat.finish(board);
            true
        }
    }
}

/// Does what comes next for a task, until nothing can be done or its turn is over.
fn poll(board: &Board, seat: &mut TaskSeat)
    requires { IsSeatOf board.now seat.old }
    ensures seat { IsSeatOf board.now seat.new }
    ensures same { seat.new.task ≡ seat.old.task }
{
    for _ in 0..TURNS {
        if !act(board, seat) {
            return;
        }
    }
}

/// So many threads do what comes next for all tasks.
pub(crate) fn poll_each<R: Threads + Sync>(
    rt: &R,
    board: &Board,
    seats: &mut [TaskSeat],
    workers: usize,
)
    requires seats { All (IsSeatOf board.now) seats.old }
    ensures { (i : ℕ) (d : JobSeatView) → i < length seats.old →
        IsSeatOf board.now (slice_index_or seats.new i d) × ((slice_index_or seats.new i d).task ≡ (slice_index_or seats.old i d).task) }
{
    thread::for_each_mut(rt, seats, workers.max(1), &|_, seat| poll(board, seat));
}

/// Whether no task has a job left.
pub(crate) fn are_over(seats: &[TaskSeat]) -> bool {
    seats.iter().all(|seat| match seat.place() {
        Place::Over => true,
        Place::Idle | Place::Reading(_, _) | Place::Writing(_, _) | Place::Ending => false,
    })
}
