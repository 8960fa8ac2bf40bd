//! A task's seat of the table, with where its job stands.

ghost use Rattle.std.specs.Prelude.{◌≡◌, ◌/◌, ◌<◌, ℕ, [], false, Some};
ghost use Rattle.prl_base.specs.Values.{FitsValue};
ghost use Rattle.prl_base.specs.declared.numbers.EdgeNo.{EdgeNo};
ghost use Rattle.prl_base.specs.declared.values.Value.{Value};
ghost use Rattle.prl_plan.specs.declared.events.Action.TheVariants as actions;
ghost use Rattle.prl_seats.specs.declared.jobs.Stage.TheVariants as stages;
ghost use Rattle.prl_rule.specs.Vocabulary.{RaiseTold, WriteTold, run_of, values_of, half_of};
ghost use Rattle.prl_rule.specs.declared.views.Constants.{Constants};
ghost use Rattle.prl_seats.specs.JobSeats.{AnswersRelease, Ends, Follows, GoesOn, HasFirstPart, HasPartOf, IsFirstSeat, IsSameSeat, IsSeatOf, IsShut, IsStage, LoadsHalf, MayRaise, StaysAt, TellsStop, reseated};

use crate::board::{Board, Seat};
use prl_base::TaskNo;
use prl_plan::{Action, SlotNo};
use prl_rule::{is_other, pack};
use std::marker::Model;
use std::mem;

/// What a release answers.
#[derive(Clone, Copy)]
pub enum Release {
    /// This job of the task is open now.
    Open { job: u64 },
    /// The next job is released at `at`, which is later than the `now` that was loaded.
    Early { now: u64, at: u64 },
    /// All jobs of the task within the horizon have ended.
    Over,
}

/// How far a task is.
#[derive(Clone, Copy)]
pub enum Stage {
    /// No horizon job is left.
    Over,
    /// The next job has not begun.
    Idle,
    /// The open job is to do this action.
    At(Action),
}

/// A task's seat of the table, with where its job stands. Contracts see a `JobSeatView`.
pub struct JobSeat {
    seat: Seat,
    task: TaskNo,
    job: u64,
    place: u32,
    stage: Stage,
}

impl Model for JobSeat {
    ghost use Rattle.std.specs.Prelude.{◌≡◌, [], Some};
    ghost use Rattle.prl_rule.specs.declared.views.Constants.{Constants};
    ghost use Rattle.prl_seats.specs.JobSeats.{Follows, HasPartOf, JobSeatView};
    ghost use Rattle.prl_body.specs.contracts.codes.Code as code;
    ghost use Rattle.std.specs.Coded.{codes};

    ghost Value = { JobSeatView };

    ghost coded = { Prim.hlevel (codes, code.the_row.coded) };

    ghost view = { λ s. record { table = s.seat.table_id; id = s.seat.id; view = s.seat.me.0; task = s.task; job = s.job; place = s.place; stage = s.stage } };

    ghost invariant = { λ s. (s.seat.me.1 ≡ []) × ((k : Constants) → s.seat.me.0.constants ≡ Some k → HasPartOf s.task.0 s.seat.me.0 → Follows k s.seat.me.0 s.task.0 s.job s.place s.stage) };
}

/// How far a task is before this job has begun.
fn stage_before(board: &Board, task: TaskNo, job: u64) -> Stage
    requires { task.0 < (run_of board.now.known).tasks }
    ensures { IsStage (run_of board.now.known) task.0 job 0 false result }
{
    if job < board.jobs_of(task) {
        Stage::Idle
    } else {
        Stage::Over
    }
}

impl JobSeat {
    /// The seat of a task at the opening: its first job has not begun.
    pub fn first(board: &Board, seat: Seat, task: TaskNo) -> JobSeat
        requires table { seat.table_id ≡ board.now.table }
        requires task { task.0 < (run_of board.now.known).tasks }
        requires part { HasFirstPart board.now.known task.0 seat.me.0 × (seat.me.1 ≡ []) }
        ensures seat { IsSeatOf board.now result }
        ensures first { IsFirstSeat board.now.known task result }
    {
        let stage = stage_before(board, task, 0);
        JobSeat {
            seat,
            task,
            job: 0,
            place: 0,
            stage,
        }
    }

    /// The seat stands as its view says.
    pub fn stands(&self)
        ensures { (k : Constants) → self.entry.now.view.constants ≡ Some k → HasPartOf self.entry.now.task.0 self.entry.now.view →
            Follows k self.entry.now.view self.entry.now.task.0 self.entry.now.job self.entry.now.place self.entry.now.stage }
    {
        let _ = &self.seat;
    }

    /// Gives its seat of the table away for another one, by which the job stands where it stood.
    pub fn exchange(&mut self, other: &mut Seat)
        requires slots { other.old.me.1 ≡ [] }
        requires stands { (k : Constants) → other.old.me.0.constants ≡ Some k → HasPartOf self.old.task.0 other.old.me.0 →
            Follows k other.old.me.0 self.old.task.0 self.old.job self.old.place self.old.stage }
        ensures given { (other.new.table_id ≡ self.old.table) × (other.new.id ≡ self.old.id) × (other.new.me ≡ (self.old.view, [])) }
        ensures taken { self.new ≡ reseated other.old.table_id other.old.id other.old.me.0 self.old }
    {
        mem::swap(&mut self.seat, other);
    }

    /// The task.
    pub fn task(&self) -> TaskNo
        ensures { result ≡ self.now.task }
    {
        self.task
    }

    /// How many of its jobs have ended.
    pub fn job(&self) -> u64
        ensures { result ≡ self.now.job }
    {
        self.job
    }

    /// How far it is.
    pub fn stage(&self) -> Stage
        ensures { result ≡ self.now.stage }
    {
        self.stage
    }

    /// Loads `now`. The next job, which is one of the horizon, opens where it is released.
    fn open(&mut self, board: &Board) -> Release
        requires seat { IsSeatOf board.now self.old }
        requires idle { self.old.stage ≡ stages.Idle }
        ensures seat { IsSeatOf board.now self.new }
        ensures same { IsSameSeat self.old self.new }
        ensures answer { AnswersRelease board.now.known self.old self.new result }
        ensures place { self.new.place ≡ self.old.place }
    {
        let at = board.release(self.task, self.job);
        let now = board.load_now(&mut self.seat, self.task);
        if now < at {
            return Release::Early { now, at };
        }
        self.stage = Stage::At(board.action(self.task, self.job, 0));
        Release::Open { job: self.job }
    }

    /// Loads `now`. The next job opens where it is one of the horizon and released.
    pub fn release(&mut self, board: &Board) -> Release
        requires seat { IsSeatOf board.now self.old }
        requires shut { IsShut self.old.stage }
        ensures seat { IsSeatOf board.now self.new }
        ensures same { IsSameSeat self.old self.new }
        ensures answer { AnswersRelease board.now.known self.old self.new result }
        ensures place { self.new.place ≡ self.old.place }
    {
        match self.stage {
            Stage::Over => Release::Over,
            Stage::Idle => self.open(board),
            Stage::At(_) => unreachable!(),
        }
    }

    /// Takes the constant that the job is to read, which makes no step on the table.
    pub fn skip(&mut self, board: &Board)
        requires seat { IsSeatOf board.now self.old }
        requires reads { (port : ℕ) × (value : Value) × (self.old.stage ≡ stages.At (actions.ReadConst port value)) }
        ensures seat { IsSeatOf board.now self.new }
        ensures same { IsSameSeat self.old self.new }
        ensures view { self.new.view ≡ self.old.view }
        ensures next { GoesOn board.now.known self.old self.new }
    {
        self.place = board.place_after(self.task, self.job, self.place);
        self.stage = Stage::At(board.action(self.task, self.job, self.place));
    }

    /// Loads the half that the job is to read, and goes on where it has the wanted tag.
    pub fn load(&mut self, board: &Board, instance: u64, slot: SlotNo) -> u64
        requires seat { IsSeatOf board.now self.old }
        requires reads { (port : ℕ) × (e : EdgeNo) × (self.old.stage ≡ stages.At (actions.Read port e instance slot)) }
        ensures seat { IsSeatOf board.now self.new }
        ensures same { IsSameSeat self.old self.new }
        ensures told { (port : ℕ) (e : EdgeNo) → self.old.stage ≡ stages.At (actions.Read port e instance slot) →
            LoadsHalf board.now.known e instance slot self.old self.new result }
    {
        let word = board.load_half(&mut self.seat, self.task, self.place, slot);
        if is_other(word, instance) {
            return word;
        }
        self.place = board.place_after(self.task, self.job, self.place);
        self.stage = Stage::At(board.action(self.task, self.job, self.place));
        word
    }

    /// Stores the half of its instance that the job is to write, and goes on.
    pub fn store(&mut self, board: &Board, slot: SlotNo, half: u32)
        requires seat { IsSeatOf board.now self.old }
        requires writes { (e : EdgeNo) × (m : ℕ) × (self.old.stage ≡ stages.At (actions.Write e m slot)) ×
            (half ≡ half_of (values_of board.now.known) slot.0 m) × FitsValue ((values_of board.now.known).stored (slot.0 / 2) m) }
        ensures seat { IsSeatOf board.now self.new }
        ensures same { IsSameSeat self.old self.new }
        ensures told { WriteTold board.now.known self.old.task.0 self.old.place self.old.view self.new.view }
        ensures next { GoesOn board.now.known self.old self.new }
    {
        board.keeps_facts();
        let word = pack(board.tag_of(self.task, self.job), half);
        board.store_half(&mut self.seat, self.task, self.place, slot, word);
        self.place = board.place_after(self.task, self.job, self.place);
        self.stage = Stage::At(board.action(self.task, self.job, self.place));
    }

    /// Ends the job.
    pub fn finish(&mut self, board: &Board)
        requires seat { IsSeatOf board.now self.old }
        requires end { self.old.stage ≡ stages.At actions.End }
        ensures seat { IsSeatOf board.now self.new }
        ensures same { IsSameSeat self.old self.new }
        ensures told { Ends board.now.known self.old self.new }
    {
        let ended = u64::from(board.tag_of(self.task, self.job));
        board.store_done(&mut self.seat, self.task, self.place, ended);
        self.job = ended;
        self.place = 0;
        self.stage = stage_before(board, self.task, ended);
    }

    /// Raises the stop, where the half that was loaded last holds a later instance than the wanted one.
    pub fn raise(&mut self, board: &Board)
        requires seat { IsSeatOf board.now self.old }
        requires over { MayRaise board.now.known self.old }
        ensures seat { IsSeatOf board.now self.new }
        ensures same { IsSameSeat self.old self.new }
        ensures told { RaiseTold board.now.known self.old.task.0 self.old.place self.old.view self.new.view }
        ensures stays { StaysAt self.old self.new }
    {
        board.raise(&mut self.seat, self.task, self.place);
    }

    /// The task whose stop was raised, if there is one.
    pub fn stopped(&mut self, board: &Board) -> Option<TaskNo>
        requires seat { IsSeatOf board.now self.old }
        ensures seat { IsSeatOf board.now self.new }
        ensures same { IsSameSeat self.old self.new }
        ensures answer { TellsStop board.now.known self.old self.new result }
        ensures stays { StaysAt self.old self.new }
    {
        let word = board.load_stop(&mut self.seat, self.task, self.place);
        board.task_named(word)
    }
}

impl Drop for JobSeat {
    fn drop(self) {
        let JobSeat {
            seat,
            task: _,
            job: _,
            place: _,
            stage: _,
        } = self;
        drop(seat);
    }
}
