//! The seats of tasks: through them callers' own threads run the jobs of a plan.

ghost use Rattle.std.specs.Prelude.{◌≡◌, ◌%◌, ◌<◌, ◌≤◌, ℕ, [], IfOk, Some};
ghost use Rattle.std.specs.Bool.{OnFalse, OnTrue};
ghost use Rattle.prl_plan.specs.declared.events.Action.TheVariants as actions;
ghost use Rattle.prl_seats.specs.declared.jobs.Stage.TheVariants as stages;
ghost use Rattle.prl_rule.specs.Vocabulary.{RaiseTold, run_of};
ghost use Rattle.prl_rule.specs.declared.views.Constants.{Constants};
ghost use Rattle.prl_values.specs.Workers.{HasBegun};
ghost use Rattle.prl_seats.specs.JobSeats.{AnswersRelease, Ends, Follows, HasFirstPart, HasPartOf, IsFirstSeat, IsSameSeat, IsSeatOf, MayRaise, StaysAt, TellsStop, reseated};
ghost use Rattle.prl_board.specs.code.Lows.{Gives, MayGive};
ghost use Rattle.prl_board.specs.Closings.{AreOutputs, Drives, IsNoActuator};
ghost use Rattle.prl_plan.specs.declared.graphs.Kind.TheVariants as kinds;
ghost use Rattle.prl_plan.specs.Jobs.{task_at};
ghost use Rattle.prl_board.specs.TaskSeats.{AnswersAction, AnswersRead, AnswersWrite, IsMachineOf, IsNodeTask, MayFinish, MayRead, MayRelease, MayWrite, Misses, ReadsHalf, WritesAction, half_at, place_of};

use crate::clocks::ClockSeat;
use prl_base::{CellNo, EdgeNo, TaskNo, Value};
use prl_body::Machine;
use prl_plan::{Action, SlotNo};
use prl_rule::{halves, halves_are_exact, unpack, whole};
use prl_seats::{Board, JobSeat, Release, Seat, Stage};
use prl_values::{Work, Worker};
use std::alloc::{AllocError, Global};
use std::marker::Model;

/// A half of a value.
#[derive(Clone, Copy)]
pub enum Half {
    Low,
    High,
}

/// Where a task stands.
#[derive(Clone, Copy)]
pub enum Place {
    /// The next job has not begun.
    Idle,
    /// The open job is to read at this port: a constant, or this half of an instance.
    Reading(u32, Half),
    /// The open job is to write this half of its instance to the edge.
    Writing(EdgeNo, Half),
    /// The open job is to end.
    Ending,
    /// No horizon job is left.
    Over,
}

/// What a read answers.
#[derive(Clone, Copy)]
pub enum Got {
    /// The low half of the wanted instance was there.
    Half,
    /// The value of the wanted instance, or the constant.
    Value(Value),
    /// The half holds an earlier instance, or none; of both the tag is told.
    NotYet {
        cell: CellNo,
        wanted: u32,
        found: u32,
    },
    /// The half holds a later instance.
    Overrun {
        cell: CellNo,
        wanted: u32,
        found: u32,
    },
}

/// What a write did.
#[derive(Clone, Copy)]
pub struct Wrote {
    pub edge: EdgeNo,
    pub cell: CellNo,
    pub half: Half,
}

/// The seat of a task. Contracts see a `JobSeatView`.
pub struct TaskSeat {
    job: JobSeat,
    /// The low half of the instance of which the high half is to be read.
    low: u32,
    worker: Worker,
}

impl Model for TaskSeat {
    ghost use Rattle.std.specs.Prelude.{◌≡◌, Some};
    ghost use Rattle.prl_rule.specs.declared.views.Constants.{Constants};
    ghost use Rattle.prl_seats.specs.JobSeats.{JobSeatView};
    ghost use Rattle.prl_board.specs.code.Lows.{IsLow, Works};
    ghost use Rattle.prl_body.specs.contracts.codes.Code as code;
    ghost use Rattle.std.specs.Coded.{codes};

    ghost Value = { JobSeatView };

    ghost coded = { Prim.hlevel (codes, code.the_row.coded) };

    ghost view = { λ s. s.job };

    ghost invariant = { λ s. (k : Constants) → s.job.view.constants ≡ Some k → IsLow k s.job.stage s.low × Works k s.job s.worker };
}

/// Which half of its cell a slot is.
fn half_of(slot: SlotNo) -> Half
    ensures { result ≡ half_at (slot.0 % 2) }
{
    if slot.is_low() { Half::Low } else { Half::High }
}

/// What a read answers that finds another tag than the wanted one.
fn missed(cell: CellNo, wanted: u32, found: u32) -> Got
    requires { wanted ≡ found → ⊥ }
    ensures { Misses cell wanted found result }
{
    if found < wanted {
        Got::NotYet {
            cell,
            wanted,
            found,
        }
    } else {
        Got::Overrun {
            cell,
            wanted,
            found,
        }
    }
}

/// The half of its instance that a job is to write to the edge: before, its body runs, where it has not.
fn half_given(
    worker: &mut Worker,
    board: &Board,
    task: TaskNo,
    job: u64,
    edge: EdgeNo,
    slot: SlotNo,
) -> u32
    requires { MayGive board.now.known task.0 job edge slot worker.old }
    ensures begun { HasBegun board.now.known.sensors board.now.known.bodies job worker.old worker.new }
    ensures half { Gives board.now.known job slot result }
{
    board.keeps_values();
    let _ = task;
    worker.begin(board.sensors(), board.bodies(), job);
    let (low, high) = halves(worker.given(board.output_of(edge)));
    if slot.is_low() { low } else { high }
}

impl TaskSeat {
    /// The seat of a task at the opening.
    pub(crate) fn first(
        alloc: Global,
        board: &Board,
        seat: Seat,
        task: TaskNo,
    ) -> Result<TaskSeat, AllocError>
        requires table { seat.table_id ≡ board.now.table }
        requires task { task.0 < (run_of board.now.known).tasks }
        requires part { HasFirstPart board.now.known task.0 seat.me.0 × (seat.me.1 ≡ []) }
        ensures seat { IfOk result (IsSeatOf board.now) }
        ensures first { IfOk result (IsFirstSeat board.now.known task) }
    {
        let worker = board.worker(alloc, task)?;
        Ok(TaskSeat {
            job: JobSeat::first(board, seat, task),
            low: 0,
            worker,
        })
    }

    /// Gives its seat of the table away for another one of the same run, by which the job stands where it stood.
    pub(crate) fn exchange(&mut self, other: &mut Seat)
        requires slots { other.old.me.1 ≡ [] }
        requires run { (k : Constants) → other.old.me.0.constants ≡ Some k → self.old.view.constants ≡ Some k }
        requires stands { (k : Constants) → other.old.me.0.constants ≡ Some k → HasPartOf self.old.task.0 other.old.me.0 →
            Follows k other.old.me.0 self.old.task.0 self.old.job self.old.place self.old.stage }
        ensures given { (other.new.table_id ≡ self.old.table) × (other.new.id ≡ self.old.id) × (other.new.me ≡ (self.old.view, [])) }
        ensures taken { self.new ≡ reseated other.old.table_id other.old.id other.old.me.0 self.old }
    {
        self.job.exchange(other);
    }

    /// The task.
    pub fn task(&self) -> TaskNo
        ensures { result ≡ self.now.task }
    {
        self.job.task()
    }

    /// How many jobs of the task have ended.
    pub fn job(&self) -> u64
        ensures { result ≡ self.now.job }
    {
        self.job.job()
    }

    /// The seat stands as its view says.
    pub fn stands(&self)
        ensures { (k : Constants) → self.entry.now.view.constants ≡ Some k → HasPartOf self.entry.now.task.0 self.entry.now.view →
            Follows k self.entry.now.view self.entry.now.task.0 self.entry.now.job self.entry.now.place self.entry.now.stage }
    {
        self.job.stands();
    }

    /// Where the task stands: the next action of its open job, else `Idle` where a job of the horizon
    /// has still to come, and `Over` where none has.
    pub fn place(&self) -> Place
        ensures { result ≡ place_of self.now.stage }
    {
        match self.job.stage() {
            Stage::Over => Place::Over,
            Stage::Idle => Place::Idle,
            Stage::At(Action::ReadConst { port, .. }) => Place::Reading(port, Half::Low),
            Stage::At(Action::Read { port, slot, .. }) => Place::Reading(port, half_of(slot)),
            Stage::At(Action::Write { edge, slot, .. }) => Place::Writing(edge, half_of(slot)),
            Stage::At(Action::End) => Place::Ending,
        }
    }

    /// Loads `now`. The next job opens where it is one of the horizon, and released. Takes no memory.
    pub fn release(&mut self, board: &Board) -> Release
        requires seat { IsSeatOf board.now self.old }
        requires place { MayRelease (place_of self.old.stage) }
        ensures seat { IsSeatOf board.now self.new }
        ensures same { IsSameSeat self.old self.new }
        ensures answer { AnswersRelease board.now.known self.old self.new result }
        ensures place { self.new.place ≡ self.old.place }
    {
        board.keeps_facts();
        self.job.stands();
        self.job.release(board)
    }

    /// Reads a half of an instance: at the low half it keeps it, at the high half it answers the value.
    fn read_half(
        &mut self,
        board: &Board,
        port: u32,
        edge: EdgeNo,
        instance: u64,
        slot: SlotNo,
    ) -> Got
        requires seat { IsSeatOf board.now self.old }
        requires reads { self.old.stage ≡ stages.At (actions.Read port edge instance slot) }
        ensures seat { IsSeatOf board.now self.new }
        ensures same { IsSameSeat self.old self.new }
        ensures answer { ReadsHalf board.now.known edge instance slot self.old self.new result }
    {
        board.keeps_values();
        halves_are_exact();
        self.job.stands();
        let wanted = board.tag_read(instance);
        let word = self.job.load(board, instance, slot);
        let (found, half) = unpack(word);
        if found != wanted {
            return missed(slot.cell(), wanted, found);
        }
        if slot.is_low() {
            self.low = half;
            return Got::Half;
        }
        let value = whole(self.low, half, board.type_of(edge));
        self.worker.take(board.sensors(), board.bodies(), port, self.job.job(), value);
        Got::Value(value)
    }

    /// Reads a constant.
    fn read_constant(&mut self, board: &Board, port: u32, value: Value) -> Got
        requires seat { IsSeatOf board.now self.old }
        requires reads { self.old.stage ≡ stages.At (actions.ReadConst port value) }
        ensures seat { IsSeatOf board.now self.new }
        ensures same { IsSameSeat self.old self.new }
        ensures answer { AnswersAction board.now.known self.old self.new result (actions.ReadConst port value) }
    {
        board.keeps_values();
        self.job.stands();
        self.worker.take(board.sensors(), board.bodies(), port, self.job.job(), value);
        self.job.skip(board);
        Got::Value(value)
    }

    /// Does the next action of the job, which is a read: of one half of an instance, or of one constant, which makes no step
    /// on the table. After `NotYet` and `Overrun` the seat stands where it stood. Takes no memory.
    pub fn read(&mut self, board: &Board) -> Got
        requires seat { IsSeatOf board.now self.old }
        requires place { MayRead (place_of self.old.stage) }
        ensures seat { IsSeatOf board.now self.new }
        ensures same { IsSameSeat self.old self.new }
        ensures answer { AnswersRead board.now.known self.old self.new result self.old.stage }
    {
        match self.job.stage() {
            Stage::At(Action::ReadConst { port, value }) => self.read_constant(board, port, value),
            Stage::At(
                Action::Read {
                    port,
                    edge,
                    instance,
                    slot,
                },
            ) => self.read_half(board, port, edge, instance, slot),
            Stage::At(Action::Write { .. }) => unreachable!(),
            Stage::At(Action::End) => unreachable!(),
            Stage::Idle => unreachable!(),
            Stage::Over => unreachable!(),
        }
    }

    /// Writes a half of its instance, which is that of this number.
    fn write_half(&mut self, board: &Board, edge: EdgeNo, instance: u64, slot: SlotNo) -> Wrote
        requires seat { IsSeatOf board.now self.old }
        requires writes { self.old.stage ≡ stages.At (actions.Write edge instance slot) }
        ensures seat { IsSeatOf board.now self.new }
        ensures same { IsSameSeat self.old self.new }
        ensures answer { WritesAction board.now.known self.old self.new result (actions.Write edge instance slot) }
    {
        board.keeps_values();
        self.job.stands();
        let _ = instance;
        let half = half_given(
            &mut self.worker,
            board,
            self.job.task(),
            self.job.job(),
            edge,
            slot,
        );
        self.job.store(board, slot, half);
        Wrote {
            edge,
            cell: slot.cell(),
            half: half_of(slot),
        }
    }

    /// Does the next action of the job, which is the write of one half of its instance. Before the first one the body runs,
    /// where it has not. Takes no memory.
    pub fn write(&mut self, board: &Board) -> Wrote
        requires seat { IsSeatOf board.now self.old }
        requires place { MayWrite (place_of self.old.stage) }
        ensures seat { IsSeatOf board.now self.new }
        ensures same { IsSameSeat self.old self.new }
        ensures answer { AnswersWrite board.now.known self.old self.new result self.old.stage }
    {
        match self.job.stage() {
            Stage::At(
                Action::Write {
                    edge,
                    instance,
                    slot,
                },
            ) => self.write_half(board, edge, instance, slot),
            Stage::At(Action::ReadConst { .. }) => unreachable!(),
            Stage::At(Action::Read { .. }) => unreachable!(),
            Stage::At(Action::End) => unreachable!(),
            Stage::Idle => unreachable!(),
            Stage::Over => unreachable!(),
        }
    }

    /// Ends the job; the body runs, where it has not. Takes no memory.
    pub fn finish(&mut self, board: &Board)
        requires seat { IsSeatOf board.now self.old }
        requires place { MayFinish (place_of self.old.stage) }
        ensures seat { IsSeatOf board.now self.new }
        ensures same { IsSameSeat self.old self.new }
        ensures told { Ends board.now.known self.old self.new }
    {
        board.keeps_values();
        self.job.stands();
        self.worker
            .begin(board.sensors(), board.bodies(), self.job.job());
        self.job.finish(board);
        self.worker.end();
    }

    /// The machine of a node task's body, as many steps on as jobs have ended; and a step more once the
    /// open job has run its body.
    pub fn machine(&self) -> &Machine
        requires { (k : Constants) × (self.now.view.constants ≡ Some k) × IsNodeTask k self.now.task.0 }
        ensures { (k : Constants) → self.entry.now.view.constants ≡ Some k → IsMachineOf k self.entry.now result.now }
    {
        match self.worker.machine() {
            Some(machine) => machine,
            None => unreachable!(),
        }
    }

    /// Whether the task is an actuator's.
    pub(crate) fn has_output(&self) -> bool
        ensures yes { OnTrue result ((k : Constants) → self.entry.now.view.constants ≡ Some k → (actuator : ℕ) × ((task_at k.plan.graph self.entry.now.task.0).kind ≡ kinds.Actuator actuator)) }
        ensures no { OnFalse result ((k : Constants) → self.entry.now.view.constants ≡ Some k → IsNoActuator k self.entry.now.task.0) }
    {
        match &self.worker.work {
            Work::Actuator(_) => true,
            Work::Sensor(_) => false,
            Work::Node { .. } => false,
        }
    }

    /// What the ended jobs of an actuator's task have read.
    pub(crate) fn output(&self) -> &[Value]
        requires { (k : Constants) × (actuator : ℕ) × (self.now.view.constants ≡ Some k) × Drives k self.now.task.0 actuator × (self.now.job ≤ (run_of k).jobs self.now.task.0) }
        ensures { (k : Constants) → self.entry.now.view.constants ≡ Some k → AreOutputs k self.entry.now.task.0 self.entry.now.job result.now }
    {
        match &self.worker.work {
            Work::Actuator(column) => &column.as_slice()[..self.job.job() as usize],
            Work::Sensor(_) => unreachable!(),
            Work::Node { .. } => unreachable!(),
        }
    }

    /// Whether all jobs of the task within the horizon have ended.
    pub(crate) fn is_over(&self) -> bool
        ensures yes { OnTrue result (self.entry.now.stage ≡ stages.Over) }
        ensures no { OnFalse result (self.entry.now.stage ≡ stages.Over → ⊥) }
    {
        match self.job.stage() {
            Stage::Over => true,
            Stage::Idle => false,
            Stage::At(_) => false,
        }
    }

    /// Raises the stop: the board's threads may learn that a read of this task was overrun. Takes no memory.
    pub fn raise(&mut self, board: &Board)
        requires seat { IsSeatOf board.now self.old }
        requires over { MayRaise board.now.known self.old }
        ensures seat { IsSeatOf board.now self.new }
        ensures same { IsSameSeat self.old self.new }
        ensures told { RaiseTold board.now.known self.old.task.0 self.old.place self.old.view self.new.view }
        ensures stays { StaysAt self.old self.new }
    {
        self.job.raise(board);
    }

    /// The task whose stop was raised, if there is one. Takes no memory.
    pub fn stopped(&mut self, board: &Board) -> Option<TaskNo>
        requires seat { IsSeatOf board.now self.old }
        ensures seat { IsSeatOf board.now self.new }
        ensures same { IsSameSeat self.old self.new }
        ensures answer { TellsStop board.now.known self.old self.new result }
        ensures stays { StaysAt self.old self.new }
    {
        self.job.stopped(board)
    }
}

/// The seats of tasks and of the clock may go to other threads, and so may the machine of a task's body.
fn seats_are_sent() {
    is_sent::<Machine>();
    is_sent::<TaskSeat>();
    is_sent::<ClockSeat>();
}

fn is_sent<T: Send>() {}

impl Drop for TaskSeat {
    fn drop(self) {
        let TaskSeat {
            job,
            low: _,
            worker,
        } = self;
        drop(job);
        drop(worker);
    }
}
