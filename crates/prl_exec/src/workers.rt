//! What workers do with the seats that they have.

ghost use Rattle.std.specs.Prelude.{◌≡◌, ◌<◌};
ghost use Rattle.std.specs.Vec.{vec_items};
ghost use Rattle.prl_rule.specs.Known.{run_of};
ghost use Rattle.prl_rule.specs.declared.views.ClockPart.{ClockPart};
ghost use Rattle.prl_board.specs.ClockSeats.{IsClockOf};
ghost use Rattle.prl_exec.specs.code.Hands.{AreHeld, KeepSeats};
ghost use Rattle.prl_exec.specs.code.Polls.{IsSlotOf, IsSlotPolled};

use crate::polls::{Polled, Watch, poll_awake};
use crate::rests::{Others, Patience, Rest};
use crate::waits::Waits;
use prl_base::TaskNo;
use prl_board::{Board, ClockSeat, Place, TaskSeat, Ticked};
use std::sync::Wait;

/// What a round of polls did.
#[derive(Clone, Copy)]
enum Round {
    /// An event.
    Events,
    Nothing,
    /// A read of this task was overrun.
    Overrun(TaskNo),
}

/// The seats that a worker gives back, and the task that an overrun was met of.
#[derive(Drop)]
pub(crate) struct Hand {
    pub(crate) seats: Vec<Option<TaskSeat>>,
    pub(crate) overrun: Option<TaskNo>,
}

impl Hand {
    /// These seats, and the task that an overrun was met of.
    pub(crate) fn new(seats: Vec<Option<TaskSeat>>, overrun: Option<TaskNo>) -> Hand
        ensures { result.seats ≡ seats }
    {
        Hand { seats, overrun }
    }
}

/// Does what comes next for each task whose seat is there, one after another, but for those that are known to
/// wait for the clock.
fn poll_all<W: Watch>(
    seats: &mut Vec<Option<TaskSeat>>,
    board: &Board,
    probe: &W,
    waits: &mut Waits,
) -> Round
    requires { AreHeld board.now (vec_items seats.old) }
    ensures held { AreHeld board.now (vec_items seats.new) }
    ensures kept { KeepSeats (vec_items seats.old) (vec_items seats.new) }
{
    let mut round = Round::Nothing;
    for i in 0..seats.len() {
        match poll_awake(&mut seats[i], board, probe, waits, i) {
            Polled::Event => round = Round::Events,
            Polled::Nothing => {}
            Polled::Early { .. } => {}
            Polled::Overrun(task) => return Round::Overrun(task),
        }
    }
    round
}

/// Whether the task of the seat, where one is there, has no more jobs to do.
fn is_over(slot: &Option<TaskSeat>) -> bool {
    match slot {
        Some(seat) => match seat.place() {
            Place::Over => true,
            Place::Idle => false,
            Place::Reading(_, _) => false,
            Place::Writing(_, _) => false,
            Place::Ending => false,
        },
        None => true,
    }
}

/// Loads the stop word by the seat that is there, if one is. Whether the stop was raised.
fn ask_slot(slot: &mut Option<TaskSeat>, board: &Board) -> bool
    requires { IsSlotOf board.now slot.old }
    ensures { IsSlotPolled board.now slot.old slot.new }
{
    match slot {
        Some(seat) => match seat.stopped(board) {
            Some(_) => true,
            None => false,
        },
        None => false,
    }
}

/// Whether the stop was raised, as the first seat that is there loads it.
fn is_stopped(seats: &mut Vec<Option<TaskSeat>>, board: &Board) -> bool
    requires { AreHeld board.now (vec_items seats.old) }
    ensures held { AreHeld board.now (vec_items seats.new) }
    ensures kept { KeepSeats (vec_items seats.old) (vec_items seats.new) }
{
    for i in 0..seats.len() {
        if seats[i].is_some() {
            return ask_slot(&mut seats[i], board);
        }
    }
    false
}

/// Whether nothing is left to do: where the caller is at its end too no job, or the stop was
/// raised.
fn is_done(seats: &mut Vec<Option<TaskSeat>>, board: &Board, at_end: bool) -> bool
    requires { AreHeld board.now (vec_items seats.old) }
    ensures held { AreHeld board.now (vec_items seats.new) }
    ensures kept { KeepSeats (vec_items seats.old) (vec_items seats.new) }
{
    if at_end && seats.iter().all(|slot| is_over(slot)) {
        return true;
    }
    is_stopped(seats, board)
}

/// Runs the jobs of the tasks whose seats are there, until none is left, a read is overrun, or the
/// stop is raised.
pub(crate) fn work<R: Wait, W: Watch>(
    rt: &R,
    board: &Board,
    probe: &W,
    mut seats: Vec<Option<TaskSeat>>,
) -> Hand
    requires { AreHeld board.now (vec_items seats) }
    ensures held { AreHeld board.entry.now (vec_items result.seats) }
    ensures kept { KeepSeats (vec_items seats) (vec_items result.seats) }
{
    let mut rest = Rest::new();
    let mut waits = Waits::new();
    for _ in rt.forever() {
        waits.begin(None);
        match poll_all(&mut seats, board, probe, &mut waits) {
            Round::Events => rest.reset(),
            Round::Overrun(task) => {
                return Hand::new(seats, Some(task));
            }
            Round::Nothing => {
                if is_done(&mut seats, board, true) {
                    return Hand::new(seats, None);
                }
                rest.take(rt);
            }
        }
    }
    unreachable!()
}

/// How many jobs of the task have been seen to end, where one more is due by the next tick.
fn due_of(clock: &mut ClockSeat, board: &Board, task: TaskNo) -> Option<u64>
    requires clock { (r : ClockPart) × IsClockOf board.now clock.old r }
    requires task { task.0 < (run_of board.now.known).tasks }
    ensures { (r : ClockPart) × IsClockOf board.now clock.new r }
{
    let ended = clock.look(board, task);
    if ended < board.jobs_of(task) && board.deadline(task, ended) - 1 <= clock.now() {
        Some(ended)
    } else {
        None
    }
}

/// Whether a job that is due by the next tick has not been seen to end, and there is patience left
/// for it. It looks at the tasks up to the first of which there is one.
fn are_due(clock: &mut ClockSeat, board: &Board, others: &Others, patience: &mut Patience) -> bool
    requires { (r : ClockPart) × IsClockOf board.now clock.old r }
    ensures { (r : ClockPart) × IsClockOf board.now clock.new r }
{
    for i in 0..board.tasks() {
        if let Some(ended) = due_of(clock, board, TaskNo(i)) {
            if patience.is_left(others, i as usize, ended) {
                return true;
            }
        }
    }
    false
}

/// Ticks. Whether the clock went on.
fn goes_on(clock: &mut ClockSeat, board: &Board) -> bool
    requires { (r : ClockPart) × IsClockOf board.now clock.old r }
    ensures { (r : ClockPart) × IsClockOf board.now clock.new r }
{
    match clock.tick(board) {
        Ticked::Now(_) => true,
        Ticked::Behind { .. } => false,
        Ticked::End => false,
    }
}

/// Ticks, on a free board though jobs are due where there is no patience left. Whether the clock
/// went on. A gated clock knows by itself where a job is due, and looks at the tasks there alone.
fn tick(clock: &mut ClockSeat, board: &Board, others: &Others, patience: &mut Patience) -> bool
    requires { (r : ClockPart) × IsClockOf board.now clock.old r }
    ensures { (r : ClockPart) × IsClockOf board.now clock.new r }
{
    if board.is_gated() && goes_on(clock, board) {
        return true;
    }
    if are_due(clock, board, others, patience) {
        return false;
    }
    goes_on(clock, board)
}

/// Does what `work` does, and the clock ticks meanwhile.
pub(crate) fn lead<R: Wait, W: Watch>(
    rt: &R,
    board: &Board,
    probe: &W,
    others: &Others,
    mut seats: Vec<Option<TaskSeat>>,
    mut clock: ClockSeat,
) -> (Hand, ClockSeat)
    requires seats { AreHeld board.now (vec_items seats) }
    requires clock { (r : ClockPart) × IsClockOf board.now clock r }
    ensures held { AreHeld board.entry.now (vec_items result.0.seats) }
    ensures kept { KeepSeats (vec_items seats) (vec_items result.0.seats) }
    ensures clock { (r : ClockPart) × IsClockOf board.entry.now result.1 r }
{
    let mut rest = Rest::new();
    let mut waits = Waits::new();
    let mut patience = Patience::new();
    for _ in rt.forever() {
        waits.begin(Some(clock.now()));
        match poll_all(&mut seats, board, probe, &mut waits) {
            Round::Events => rest.reset(),
            Round::Overrun(task) => {
                return (Hand::new(seats, Some(task)), clock);
            }
            Round::Nothing => {
                if tick(&mut clock, board, others, &mut patience) {
                    rest.reset();
                } else {
                    let at_end = clock.now() >= board.end();
                    if is_done(&mut seats, board, at_end) {
                        return (Hand::new(seats, None), clock);
                    }
                    patience.note(rest.take(rt));
                }
            }
        }
    }
    unreachable!()
}
