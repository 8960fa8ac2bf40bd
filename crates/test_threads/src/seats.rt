//! Boards whose seats stay apart, run in one thread.

ghost use Rattle.std.specs.Prelude.{◌≡◌, ◌<◌, ◌≤◌, []};
ghost use Rattle.std.specs.Vec.{vec_items};
ghost use Rattle.prl_plan.specs.Horizons.{IsHorizon};
ghost use Rattle.prl_values.specs.Fitting.{HaveTaskBodies, HaveTypedRows};
ghost use Rattle.prl_rule.specs.Known.{run_of};
ghost use Rattle.prl_rule.specs.declared.views.ClockPart.{ClockPart};
ghost use Rattle.prl_seats.specs.JobSeats.{IsSeatOf};
ghost use Rattle.prl_board.specs.Vocabulary.{IsClockOf, AreSeatsOf, MayRead, place_of};
ghost use Rattle.test_threads.specs.Pairs.{IsClosedPair, IsPair};

use crate::cases::{Case, Did, is_last, told};
use crate::pairs::shown;
use prl_base::TaskNo;
use prl_board::{Board, ClockSeat, Closed, Got, Place, TaskSeat, Ticked, close, open_board};
use prl_body::Bodies;
use prl_flow::Sensors;
use prl_plan::{Horizon, Plan};
use std::alloc::Global;
use std::test::Fail;

/// Reads. Where the read is overrun it raises the stop.
fn read(board: &Board, seat: &mut TaskSeat) -> Got
    requires seat { IsSeatOf board.now seat.old }
    requires place { MayRead (place_of seat.old.stage) }
    ensures seat { IsSeatOf board.now seat.new }
    ensures same { seat.new.task ≡ seat.old.task }
{
    match seat.read(board) {
        Got::Half => Got::Half,
        Got::Value(value) => Got::Value(value),
        Got::NotYet {
            cell,
            wanted,
            found,
        } => Got::NotYet {
            cell,
            wanted,
            found,
        },
        Got::Overrun {
            cell,
            wanted,
            found,
        } => {
            seat.raise(board);
            Got::Overrun {
                cell,
                wanted,
                found,
            }
        }
    }
}

/// Does what comes next for a task.
pub(crate) fn act(board: &Board, seat: &mut TaskSeat) -> Did
    requires { IsSeatOf board.now seat.old }
    ensures seat { IsSeatOf board.now seat.new }
    ensures same { seat.new.task ≡ seat.old.task }
{
    match seat.place() {
        Place::Idle => Did::Released(seat.release(board)),
        Place::Over => Did::Released(seat.release(board)),
        Place::Reading(_, _) => Did::Read(read(board, seat)),
        Place::Writing(_, _) => Did::Wrote(seat.write(board)),
        Place::Ending => {
            seat.finish(board);
            Did::Ended
        }
    }
}

/// Does what comes next for one of the two tasks.
fn act_at(board: &Board, seats: &mut Vec<TaskSeat>, task: usize) -> Did
    requires seats { AreSeatsOf board.now (vec_items seats.old) }
    requires tasks { 2 ≤ (run_of board.now.known).tasks }
    requires task { task < 2 }
    ensures { AreSeatsOf board.now (vec_items seats.new) }
{
    act(board, &mut seats[task])
}

/// A tick, after a look at both tasks.
pub(crate) fn tick(board: &Board, clock: &mut ClockSeat) -> Ticked
    requires clock { (r : ClockPart) × IsClockOf board.now clock.old r }
    requires tasks { 2 ≤ (run_of board.now.known).tasks }
    ensures { (r : ClockPart) × IsClockOf board.now clock.new r }
{
    clock.look(board, TaskNo(0));
    clock.look(board, TaskNo(1));
    clock.tick(board)
}

/// Does what a letter says.
fn step(board: &Board, seats: &mut Vec<TaskSeat>, clock: &mut ClockSeat, letter: u8) -> Did
    requires seats { AreSeatsOf board.now (vec_items seats.old) }
    requires clock { (r : ClockPart) × IsClockOf board.now clock.old r }
    requires tasks { 2 ≤ (run_of board.now.known).tasks }
    ensures seats { AreSeatsOf board.now (vec_items seats.new) }
    ensures clock { (r : ClockPart) × IsClockOf board.now clock.new r }
{
    match letter {
        b'i' => act_at(board, seats, 0),
        b'o' => act_at(board, seats, 1),
        _ => Did::Ticked(tick(board, clock)),
    }
}

/// Does the moves of a case. What the last one did, where each did what its letter says.
fn play(board: &Board, seats: &mut Vec<TaskSeat>, clock: &mut ClockSeat, case: &Case) -> Option<Did>
    requires seats { AreSeatsOf board.now (vec_items seats.old) }
    requires clock { (r : ClockPart) × IsClockOf board.now clock.old r }
    requires tasks { 2 ≤ (run_of board.now.known).tasks }
    ensures seats { AreSeatsOf board.now (vec_items seats.new) }
    ensures clock { (r : ClockPart) × IsClockOf board.now clock.new r }
{
    let mut last = Did::Ended;
    for n in 0..case.moves.len() {
        last = step(board, seats, clock, case.moves[n]);
        if case.letters.get(n) != Some(&told(last).0) {
            return None;
        }
    }
    Some(last)
}

/// Whether the seat of one of the two tasks is told of just this stop.
fn is_told(board: &Board, seats: &mut Vec<TaskSeat>, task: usize, stop: Option<TaskNo>) -> bool
    requires seats { AreSeatsOf board.now (vec_items seats.old) }
    requires tasks { 2 ≤ (run_of board.now.known).tasks }
    requires task { task < 2 }
    ensures { AreSeatsOf board.now (vec_items seats.new) }
{
    let seat = &mut seats[task];
    seat.stopped(board) == stop
}

/// Whether the moves of a case come to what it says, and each seat is then told of its stop.
fn comes_to(board: &Board, seats: &mut Vec<TaskSeat>, clock: &mut ClockSeat, case: &Case) -> bool
    requires seats { AreSeatsOf board.now (vec_items seats.old) }
    requires clock { (r : ClockPart) × IsClockOf board.now clock.old r }
    requires tasks { 2 ≤ (run_of board.now.known).tasks }
    ensures seats { AreSeatsOf board.now (vec_items seats.new) }
    ensures clock { (r : ClockPart) × IsClockOf board.now clock.new r }
{
    let last = play(board, seats, clock, case);
    let i = is_told(board, seats, 0, case.stop);
    let o = is_told(board, seats, 1, case.stop);
    let told = clock.stopped(board) == case.stop;
    is_last(last, case) && i && o && told
}

/// Closes a board of the pair.
pub(crate) fn closed_pair(board: Board, seats: Vec<TaskSeat>, clock: ClockSeat) -> Closed
    requires seats { AreSeatsOf board (vec_items seats) }
    requires clock { (r : ClockPart) × IsClockOf board clock r }
    requires pair { IsPair board.known.plan }
    ensures { IsClosedPair result }
{
    close(board, seats, clock)
}

/// Whether the moves of a case on this board come to what it says, and the closed board shows it.
fn holds_on(board: Board, mut seats: Vec<TaskSeat>, mut clock: ClockSeat, case: &Case) -> bool
    requires seats { AreSeatsOf board (vec_items seats) }
    requires clock { (r : ClockPart) × IsClockOf board clock r }
    requires pair { IsPair board.known.plan }
{
    let same = comes_to(&board, &mut seats, &mut clock, case);
    shown(&closed_pair(board, seats, clock)) == case.shown && same
}

/// Whether a case holds on a new board of the pair.
pub(crate) fn holds(
    alloc: Global,
    plan: &Plan,
    sensors: &Sensors,
    horizon: Horizon,
    case: &Case,
) -> Result<bool, Fail>
    requires pair { IsPair plan.now }
    requires horizon { IsHorizon plan.now horizon }
    requires bodies { HaveTaskBodies plan.now.graph [] }
    requires rows { HaveTypedRows plan.now.graph horizon.until sensors.now }
{
    let bodies = Bodies::none(alloc);
    let (board, seats, clock) = open_board(alloc, plan, &bodies, sensors, horizon, case.gate)?;
    Ok(holds_on(board, seats, clock, case))
}
