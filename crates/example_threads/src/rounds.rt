//! A run in rounds: all seats are served on several threads, and then the clock goes on as far as it may.

ghost use Rattle.std.specs.Prelude.{◌≡◌, ◌<◌, IfOk, Some, length};
ghost use Rattle.std.specs.Vec.{vec_items};
ghost use Rattle.kebrunza.specs.Vocabulary.{
  AreSeatsOf,
  ClockPart,
  HaveTaskBodies,
  HaveTypedRows,
  IsClockOf,
  IsHorizon,
  known,
};

use crate::polls::{are_over, poll_each};
use kebrunza::boards::{Board, ClockSeat, Closed, Gate, TaskSeat, Ticked, close, open_board};
use kebrunza::commands::Ready;
use kebrunza::values::TaskNo;
use std::alloc::{AllocError, Global};
use std::sync::Wait;
use std::thread::Threads;

/// Looks how many jobs of each task have ended.
fn look_at_all(board: &Board, clock: &mut ClockSeat)
    requires { (r : ClockPart) × IsClockOf board.now clock.old r }
    ensures { (r : ClockPart) × IsClockOf board.now clock.new r }
{
    for i in 0..board.tasks() {
        clock.look(board, TaskNo(i));
    }
}

/// The clock goes on up to where a job is due that was not seen to end.
fn go_on(board: &Board, clock: &mut ClockSeat)
    requires { (r : ClockPart) × IsClockOf board.now clock.old r }
    ensures { (r : ClockPart) × IsClockOf board.now clock.new r }
{
    look_at_all(board, clock);
    for _ in 0..board.end() {
        match clock.tick(board) {
            Ticked::Now(_) => {}
            Ticked::Behind { .. } | Ticked::End => return,
        }
    }
}

/// All seats serve the tasks of the board.
fn poll_all<R: Threads + Sync>(rt: &R, board: &Board, seats: &mut Vec<TaskSeat>, workers: usize)
    requires { AreSeatsOf board.now (vec_items seats.old) }
    ensures { AreSeatsOf board.now (vec_items seats.new) }
{
    poll_each(rt, board, seats.as_mut_slice(), workers);
}

/// Round after round until no task has a job left. It may wait.
fn served<R: Threads + Wait + Sync>(
    rt: &R,
    board: &Board,
    mut seats: Vec<TaskSeat>,
    mut clock: ClockSeat,
    workers: usize,
) -> (Vec<TaskSeat>, ClockSeat)
    requires seats { AreSeatsOf board.now (vec_items seats) }
    requires clock { (r : ClockPart) × IsClockOf board.now clock r }
    ensures seats { AreSeatsOf board.entry.now (vec_items result.0) }
    ensures clock { (r : ClockPart) × IsClockOf board.entry.now result.1 r }
{
    for _ in rt.forever() {
        poll_all(rt, board, &mut seats, workers);
        if are_over(&seats) {
            return (seats, clock);
        }
        go_on(board, &mut clock);
    }
    unreachable!()
}

/// The closed board after a run on so many threads. Where all jobs have ended it shows the rows that `prelude flows` writes
/// (`ended_boards_show_flows` of `prl_replay`).
pub(crate) fn closed_after<R: Threads + Wait + Sync>(
    rt: &R,
    alloc: Global,
    ready: &Ready,
    workers: usize,
) -> Result<Closed, AllocError>
    requires horizon { IsHorizon ready.now.plan ready.now.horizon }
    requires bodies { HaveTaskBodies ready.now.plan.graph ready.now.bodies }
    requires rows { HaveTypedRows ready.now.plan.graph ready.now.horizon.until ready.now.sensors }
    ensures { IfOk result (λ closed. closed.constants ≡ Some (known ready.now.plan ready.now.horizon Gate.Gated ready.now.sensors ready.now.bodies)) }
{
    let (board, seats, clock) = open_board(
        alloc,
        &ready.plan,
        &ready.bodies,
        &ready.sensors,
        ready.horizon,
        Gate::Gated,
    )?;
    let (seats, clock) = served(rt, &board, seats, clock, workers);
    Ok(close(board, seats, clock))
}
