//! Two threads that run the jobs of the pair, one task each.

ghost use Rattle.std.specs.Prelude.{◌≡◌, ◌<◌, ◌≤◌, ℕ, [], length, slice_index_or};
ghost use Rattle.std.specs.List.{All};
ghost use Rattle.std.specs.Vec.{vec_items};
ghost use Rattle.prl_plan.specs.Horizons.{IsHorizon};
ghost use Rattle.prl_values.specs.Fitting.{HaveTaskBodies, HaveTypedRows};
ghost use Rattle.prl_rule.specs.declared.views.ClockPart.{ClockPart};
ghost use Rattle.prl_board.specs.Vocabulary.{IsClockOf, AreSeatsOf};
ghost use Rattle.prl_seats.specs.JobSeats.{IsSeatOf, JobSeatView};
ghost use Rattle.test_threads.specs.Pairs.{IsPair};

use crate::cases::Shown;
use crate::pairs::{ROWS, pair, shown};
use crate::seats::{act, closed_pair, tick};
use prl_board::{Board, ClockSeat, Gate, TaskSeat, open_board};
use prl_body::Bodies;
use prl_flow::Sensors;
use prl_plan::{Horizon, Plan};
use std::alloc::Global;
use std::test::Fail;
use std::thread;
use std::thread::Threads;

/// Does what comes next for a task, so many times.
fn poll(board: &Board, seat: &mut TaskSeat, turns: u32)
    requires { IsSeatOf board.now seat.old }
    ensures seat { IsSeatOf board.now seat.new }
    ensures same { seat.new.task ≡ seat.old.task }
{
    for _ in 0..turns {
        act(board, seat);
    }
}

/// Two threads do what comes next for the tasks, so many times for each.
fn poll_each<R: Threads + Sync>(rt: &R, board: &Board, seats: &mut [TaskSeat], turns: u32)
    requires { All (IsSeatOf board.now) seats.old }
    ensures { (i : ℕ) (d : JobSeatView) → i < length seats.old →
        IsSeatOf board.now (slice_index_or seats.new i d) × ((slice_index_or seats.new i d).task ≡ (slice_index_or seats.old i d).task) }
{
    thread::for_each_mut(rt, seats, 2, &|_, seat| poll(board, seat, turns));
}

/// Two threads each do what comes next for one of the two tasks, so many times.
fn poll_both<R: Threads + Sync>(rt: &R, board: &Board, seats: &mut Vec<TaskSeat>, turns: u32)
    requires { AreSeatsOf board.now (vec_items seats.old) }
    ensures { AreSeatsOf board.now (vec_items seats.new) }
{
    poll_each(rt, board, seats.as_mut_slice(), turns);
}

/// What the board shows that is closed after one tick and then so many turns of each of two threads.
fn shown_after<R: Threads + Sync>(
    rt: &R,
    board: Board,
    mut seats: Vec<TaskSeat>,
    mut clock: ClockSeat,
    turns: u32,
) -> Shown
    requires seats { AreSeatsOf board (vec_items seats) }
    requires clock { (r : ClockPart) × IsClockOf board clock r }
    requires pair { IsPair board.known.plan }
{
    tick(&board, &mut clock);
    poll_both(rt, &board, &mut seats, turns);
    shown(&closed_pair(board, seats, clock))
}

/// What is shown where the actuator's task had no turn behind the sensor's, and where both tasks have ended their first jobs.
const WITHOUT_THE_READER: Shown = [1, 1, 0, 4294967297, 4294967296, 0, 0];

const WITH_THE_READER: Shown = [1, 1, 1, 4294967297, 4294967296, 0, 1];

/// Fails where a new board of the pair shows something else after so many turns.
fn run<R: Threads + Sync>(
    rt: &R,
    alloc: Global,
    plan: &Plan,
    sensors: &Sensors,
    horizon: Horizon,
    turns: u32,
) -> Result<(), Fail>
    requires pair { IsPair plan.now }
    requires horizon { IsHorizon plan.now horizon }
    requires bodies { HaveTaskBodies plan.now.graph [] }
    requires rows { HaveTypedRows plan.now.graph horizon.until sensors.now }
{
    let bodies = Bodies::none(alloc);
    let (board, seats, clock) = open_board(alloc, plan, &bodies, sensors, horizon, Gate::Gated)?;
    let seen = shown_after(rt, board, seats, clock, turns);
    if seen == WITHOUT_THE_READER || seen == WITH_THE_READER {
        Ok(())
    } else {
        Err("another board is shown".into())
    }
}

#[test]
fn two_threads_run_what_is_released(rt: HostRuntime) -> Result<(), Fail> {
    let made = pair(rt.alloc(), ROWS.as_slice(), 20)?;
    run(&rt, rt.alloc(), &made.0, &made.1, made.2, 64)
}
