//! Polls of tasks by workers.

ghost use Rattle.std.specs.Prelude.{◌≡◌};
ghost use Rattle.prl_seats.specs.JobSeats.{IsSeatOf};
ghost use Rattle.prl_board.specs.TaskSeats.{MayRead, place_of};
ghost use Rattle.prl_exec.specs.code.Alone.{IsIdle, MayAct};
ghost use Rattle.prl_exec.specs.code.Polls.{IsSlotOf, IsSlotPolled};

use crate::waits::Waits;
use prl_base::TaskNo;
use prl_board::{Board, Got, Place, Release, TaskSeat};
use prl_io::Probe;

/// What one worker calls for each job that it opens, ahead of what the job does.
pub(crate) trait Watch {
    fn before(&self, task: TaskNo, job: u64);
}

/// A probe, as one worker calls it.
#[derive(Drop)]
pub(crate) struct Eye<'b, P> {
    pub(crate) probe: &'b P,
}

impl<'b, P: Probe> Watch for Eye<'b, P> {
    fn before(&self, task: TaskNo, job: u64) {
        self.probe.before(task, job);
    }
}

/// What a poll of a task did.
#[derive(Clone, Copy)]
pub(crate) enum Polled {
    /// An event.
    Event,
    /// Nothing: no job is left, or what it is to read is not there yet.
    Nothing,
    /// Nothing: the clock was at `now`, and the next job is released at the later date `at`.
    Early { now: u64, at: u64 },
    /// It found a read of this task overrun, and raised the stop.
    Overrun(TaskNo),
}

/// Reads. Where the read was overrun it raises the stop.
fn read(seat: &mut TaskSeat, board: &Board) -> Polled
    requires seat { IsSeatOf board.now seat.old }
    requires place { MayRead (place_of seat.old.stage) }
    ensures seat { IsSeatOf board.now seat.new }
    ensures task { seat.new.task ≡ seat.old.task }
{
    match seat.read(board) {
        Got::Half => Polled::Event,
        Got::Value(_) => Polled::Event,
        Got::NotYet { .. } => Polled::Nothing,
        Got::Overrun { .. } => {
            seat.raise(board);
            Polled::Overrun(seat.task())
        }
    }
}

/// Does the next action of an open job.
fn act(seat: &mut TaskSeat, board: &Board) -> Polled
    requires seat { IsSeatOf board.now seat.old }
    requires place { MayAct (place_of seat.old.stage) }
    ensures seat { IsSeatOf board.now seat.new }
    ensures task { seat.new.task ≡ seat.old.task }
{
    match seat.place() {
        Place::Reading(_, _) => read(seat, board),
        Place::Writing(_, _) => {
            seat.write(board);
            Polled::Event
        }
        Place::Ending => {
            seat.finish(board);
            Polled::Event
        }
        Place::Idle => unreachable!(),
        Place::Over => unreachable!(),
    }
}

/// Opens the next job, where it is released, and does its first action.
fn begin<W: Watch>(seat: &mut TaskSeat, board: &Board, probe: &W) -> Polled
    requires seat { IsSeatOf board.now seat.old }
    requires place { IsIdle (place_of seat.old.stage) }
    ensures seat { IsSeatOf board.now seat.new }
    ensures task { seat.new.task ≡ seat.old.task }
{
    match seat.release(board) {
        Release::Open { job } => {
            probe.before(seat.task(), job);
            act(seat, board)
        }
        Release::Early { now, at } => Polled::Early { now, at },
        Release::Over => Polled::Nothing,
    }
}

/// Does what comes next for a task.
fn poll<W: Watch>(seat: &mut TaskSeat, board: &Board, probe: &W) -> Polled
    requires seat { IsSeatOf board.now seat.old }
    ensures seat { IsSeatOf board.now seat.new }
    ensures task { seat.new.task ≡ seat.old.task }
{
    match seat.place() {
        Place::Over => Polled::Nothing,
        Place::Idle => begin(seat, board, probe),
        Place::Reading(_, _) => act(seat, board),
        Place::Writing(_, _) => act(seat, board),
        Place::Ending => act(seat, board),
    }
}

/// Does what comes next for the task whose seat is there, if one is.
fn poll_slot<W: Watch>(slot: &mut Option<TaskSeat>, board: &Board, probe: &W) -> Polled
    requires { IsSlotOf board.now slot.old }
    ensures { IsSlotPolled board.now slot.old slot.new }
{
    match slot {
        Some(seat) => poll(seat, board, probe),
        None => Polled::Nothing,
    }
}

/// Does so where the task is not known to wait for the clock.
pub(crate) fn poll_awake<W: Watch>(
    slot: &mut Option<TaskSeat>,
    board: &Board,
    probe: &W,
    waits: &mut Waits,
    task: usize,
) -> Polled
    requires { IsSlotOf board.now slot.old }
    ensures { IsSlotPolled board.now slot.old slot.new }
{
    if waits.is_waiting(task) {
        return Polled::Nothing;
    }
    let polled = poll_slot(slot, board, probe);
    if let Polled::Early { now, at } = polled {
        waits.note(task, now, at);
    }
    polled
}
