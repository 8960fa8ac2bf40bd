//! Boards that one thread runs with all seats in one hand.

ghost use Rattle.std.specs.Prelude.{◌≡◌, ◌<◌, ◌≤◌, [], length};
ghost use Rattle.std.specs.Vec.{vec_items};
ghost use Rattle.prl_plan.specs.Horizons.{IsHorizon};
ghost use Rattle.prl_values.specs.Fitting.{HaveTaskBodies, HaveTypedRows};
ghost use Rattle.prl_rule.specs.declared.views.ClockPart.{ClockPart};
ghost use Rattle.prl_board.specs.Vocabulary.{IsClockOf, AreSeatsOf, IsLoneOf};
ghost use Rattle.test_threads.specs.Pairs.{IsClosedPair, IsPair};

use crate::cases::{Case, Did, is_last, told};
use crate::pairs::shown;
use prl_base::TaskNo;
use prl_board::{Board, ClockSeat, Closed, Lone, Place, Steps, TaskSeat, gather, open_board};
use prl_body::Bodies;
use prl_flow::Sensors;
use prl_plan::{Horizon, Plan};
use std::alloc::Global;
use std::marker::Brand;
use std::sync::ledger::{Blank, Ledger};
use std::test::Fail;

/// Does what comes next for a task.
fn act<L: Ledger>(lone: &mut Lone, board: &Board, task: TaskNo, steps: &mut Steps<L>) -> Did
    requires lone { IsLoneOf board.now lone.old }
    requires task { task.0 < length lone.old.seats }
    ensures lone { IsLoneOf board.now lone.new }
    ensures tasks { length lone.new.seats ≡ length lone.old.seats }
{
    match lone.place(task) {
        Place::Idle => Did::Released(lone.release(board, task, steps)),
        Place::Over => Did::Released(lone.release(board, task, steps)),
        Place::Reading(_, _) => Did::Read(lone.read(board, task, steps)),
        Place::Writing(_, _) => Did::Wrote(lone.write(board, task, steps)),
        Place::Ending => {
            lone.finish(board, task, steps);
            Did::Ended
        }
    }
}

/// A tick, after a look at both tasks.
fn tick<L: Ledger>(lone: &mut Lone, board: &Board, steps: &mut Steps<L>) -> Did
    requires lone { IsLoneOf board.now lone.old }
    requires tasks { 2 ≤ length lone.old.seats }
    ensures lone { IsLoneOf board.now lone.new }
    ensures tasks { length lone.new.seats ≡ length lone.old.seats }
{
    lone.look(board, TaskNo(0), steps);
    lone.look(board, TaskNo(1), steps);
    Did::Ticked(lone.tick(board, steps))
}

/// Does what a letter says.
fn step<L: Ledger>(lone: &mut Lone, board: &Board, letter: u8, steps: &mut Steps<L>) -> Did
    requires lone { IsLoneOf board.now lone.old }
    requires tasks { 2 ≤ length lone.old.seats }
    ensures lone { IsLoneOf board.now lone.new }
    ensures tasks { length lone.new.seats ≡ length lone.old.seats }
{
    match letter {
        b'i' => act(lone, board, TaskNo(0), steps),
        b'o' => act(lone, board, TaskNo(1), steps),
        _ => tick(lone, board, steps),
    }
}

/// Does the moves of a case. What the last one did, where each did what its letter says.
fn play<L: Ledger>(lone: &mut Lone, board: &Board, case: &Case, steps: &mut Steps<L>) -> Option<Did>
    requires lone { IsLoneOf board.now lone.old }
    requires tasks { 2 ≤ length lone.old.seats }
    ensures lone { IsLoneOf board.now lone.new }
    ensures tasks { length lone.new.seats ≡ length lone.old.seats }
{
    let mut last = Did::Ended;
    for n in 0..case.moves.len() {
        last = step(lone, board, case.moves[n], steps);
        if case.letters.get(n) != Some(&told(last).0) {
            return None;
        }
    }
    Some(last)
}

/// Closes a board of the pair.
fn closed_pair(lone: Lone, board: Board) -> Closed
    requires lone { IsLoneOf board lone }
    requires tasks { 2 ≤ length lone.seats }
    requires pair { IsPair board.known.plan }
    ensures { IsClosedPair result }
{
    lone.close(board)
}

/// Whether the moves of a case on this board come to what it says, and the closed board shows it.
fn holds_on<L: Ledger>(
    blank: Blank,
    board: Board,
    seats: Vec<TaskSeat>,
    clock: ClockSeat,
    case: &Case,
) -> bool
    requires name { blank.name ≡ L.name }
    requires parts { (blank.parts ≡ L.parts) × (0 < blank.parts) }
    requires seats { AreSeatsOf board (vec_items seats) }
    requires clock { (r : ClockPart) × IsClockOf board clock r }
    requires pair { IsPair board.known.plan }
{
    let mut steps = Steps::<L>::new(blank);
    let mut lone = gather(&board, seats, clock);
    let last = play(&mut lone, &board, case, &mut steps);
    shown(&closed_pair(lone, board)) == case.shown && is_last(last, case)
}

/// Whether a case holds on a new board of the pair.
pub(crate) fn holds(
    alloc: Global,
    plan: &Plan,
    sensors: &Sensors,
    horizon: Horizon,
    case: &Case,
) -> Result<bool, Fail>
    requires pair { IsPair plan.now }
    requires horizon { IsHorizon plan.now horizon }
    requires bodies { HaveTaskBodies plan.now.graph [] }
    requires rows { HaveTypedRows plan.now.graph horizon.until sensors.now }
{
    let bodies = Bodies::none(alloc);
    let (board, seats, clock) = open_board(alloc, plan, &bodies, sensors, horizon, case.gate)?;
    Ok(holds_on::<Brand>(Blank::new(1), board, seats, clock, case))
}
