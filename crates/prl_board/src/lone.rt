//! One thread that holds all seats of a board.

ghost use Rattle.std.specs.Prelude.{◌≡◌, ◌+◌, ◌<◌, ℕ, [], length, Some, slice_get, slice_index};
ghost use Rattle.std.specs.Bool.{OnFalse, OnTrue};
ghost use Rattle.std.specs.Vec.{vec_items};
ghost use mathlib.Core.Option.{some};
ghost use lib.ListN.{get_elem?};
ghost use Rattle.prl_rule.specs.Vocabulary.{now_word, run_of, bare, LookTold, part_of};
ghost use Rattle.prl_rule.specs.declared.views.ClockPart.{ClockPart};
ghost use Rattle.prl_rule.specs.declared.views.Constants.{Constants};
ghost use Rattle.prl_rule.specs.declared.views.TaskPart.{TaskPart};
ghost use Rattle.prl_board.specs.ClockSeats.{IsAllSeen, IsClockOf, IsUnseen};
ghost use Rattle.prl_seats.specs.JobSeats.{AnswersRelease, Ends, Follows, IsSeatOf, JobSeatView, StaysAt};
ghost use Rattle.prl_board.specs.Closings.{KeepsTag};
ghost use Rattle.prl_board.specs.Lones.{AreSeatsOf, FindsTag, IsClockCall, IsLoneOf, IsPlacedAt, IsReleasedBy, IsTaskCall, IsTicked, IsWhole, LeavesTag, StandAs};
ghost use Rattle.prl_board.specs.TaskSeats.{AnswersRead, AnswersWrite, MayFinish, MayRead, MayRelease, MayWrite, place_of};
ghost use Rattle.prl_board.specs.code.Lent.{IsLent, IsSettled, KeepHalves};

use crate::clocks::{ClockSeat, Ticked};
use crate::closing::Closed;
use crate::lends::{finish_lent, look_lent, read_lent, release_lent, tick_lent, write_lent};
use crate::seats::{Got, Place, TaskSeat, Wrote};
use crate::steps::Steps;
use prl_base::TaskNo;
use prl_rule::plan_laws;
use prl_seats::{Board, Release, Seat};
use std::marker::Model;
use std::sync::ledger::Ledger;

/// One thread that holds all seats of a board: each has lent its part to one seat of the table. Contracts see a `LoneView`.
pub struct Lone {
    seats: Vec<TaskSeat>,
    clock: ClockSeat,
    whole: Seat,
}

impl Model for Lone {
    ghost use Rattle.std.specs.Prelude.{◌≡◌, [], Some};
    ghost use Rattle.std.specs.Vec.{vec_items};
    ghost use Rattle.prl_rule.specs.declared.views.Constants.{Constants};
    ghost use Rattle.prl_board.specs.Lones.{LoneView};
    ghost use Rattle.prl_board.specs.code.Lent.{AreLent};
    ghost use Rattle.prl_body.specs.contracts.codes.Code as code;
    ghost use Rattle.std.specs.Coded.{codes};

    ghost Value = { LoneView };

    ghost coded = { Prim.hlevel (codes, code.the_row.coded) };

    ghost view = { λ l. record { table = l.whole.table_id; id = l.whole.id; view = l.whole.me.0; seats = vec_items l.seats } };

    ghost invariant = { λ l. (l.whole.me.1 ≡ []) × ((k : Constants) → l.whole.me.0.constants ≡ Some k → AreLent k l.whole.me.0 (vec_items l.seats) l.clock) };
}

/// Takes in the part of a task's seat.
fn take_in(board: &Board, whole: &mut Seat, seat: &mut TaskSeat)
    requires whole { (whole.old.table_id ≡ board.now.table) × (whole.old.me.0.constants ≡ Some board.now.known) }
    requires seat { IsSeatOf board.now seat.old }
    ensures same { (whole.new.table_id ≡ whole.old.table_id) × (whole.new.me.1 ≡ whole.old.me.1) × (whole.new.me.0.constants ≡ Some board.now.known) }
    ensures clock { (r : ClockPart) → whole.old.me.0.clock ≡ Some r → whole.new.me.0.clock ≡ Some r }
    ensures others { (j : ℕ) (p : TaskPart) → get_elem? whole.old.me.0.tasks j ≡ some (Some p) → get_elem? whole.new.me.0.tasks j ≡ some (Some p) }
    ensures part { get_elem? whole.new.me.0.tasks seat.old.task.0 ≡ some (Some (part_of seat.old.task.0 seat.old.view)) }
    ensures stands { Follows board.now.known whole.new.me.0 seat.old.task.0 seat.old.job seat.old.place seat.old.stage }
    ensures bare { (seat.new.view ≡ bare board.now.known) × (seat.new.task ≡ seat.old.task) × StaysAt seat.old seat.new }
{
    seat.stands();
    let mut own = board.bare();
    seat.exchange(&mut own);
    board.join(whole, own);
}

/// Takes in the parts of all tasks' seats.
fn take_in_all(board: &Board, whole: &mut Seat, seats: &mut Vec<TaskSeat>)
    requires whole { (whole.old.table_id ≡ board.now.table) × (whole.old.me.0.constants ≡ Some board.now.known) }
    requires seats { AreSeatsOf board.now (vec_items seats.old) }
    ensures same { (whole.new.table_id ≡ whole.old.table_id) × (whole.new.me.1 ≡ whole.old.me.1) × (whole.new.me.0.constants ≡ Some board.now.known) }
    ensures clock { (r : ClockPart) → whole.old.me.0.clock ≡ Some r → whole.new.me.0.clock ≡ Some r }
    ensures parts { (i : ℕ) (s : JobSeatView) → slice_get (vec_items seats.old) i ≡ Some s → get_elem? whole.new.me.0.tasks i ≡ some (Some (part_of i s.view)) }
    ensures stand { StandAs (vec_items seats.old) (vec_items seats.new) }
    ensures lent { (i : ℕ) (s : JobSeatView) → slice_get (vec_items seats.new) i ≡ Some s → IsLent board.now.known whole.new.me.0 i s }
{
    for i in 0..seats.len() {
        take_in(board, whole, &mut seats[i]);
    }
}

/// Lets the part that a task's seat has lent stand where the seat does, after the constants that it has read.
fn settle_seat(board: &Board, whole: &mut Seat, seat: &mut TaskSeat)
    requires whole { (whole.old.table_id ≡ board.now.table) × (whole.old.me.1 ≡ []) × (whole.old.me.0.constants ≡ Some board.now.known) }
    requires lent { IsLent board.now.known whole.old.me.0 seat.old.task.0 seat.old }
    ensures same { (whole.new.table_id ≡ whole.old.table_id) × (whole.new.me.1 ≡ []) × (whole.new.me.0.constants ≡ Some board.now.known) × (whole.new.me.0.clock ≡ whole.old.me.0.clock) }
    ensures others { (j : ℕ) (p : TaskPart) → (j ≡ seat.old.task.0 → ⊥) → get_elem? whole.old.me.0.tasks j ≡ some (Some p) → get_elem? whole.new.me.0.tasks j ≡ some (Some p) }
    ensures lent { IsLent board.now.known whole.new.me.0 seat.old.task.0 seat.new }
    ensures settled { IsSettled whole.new.me.0 seat.old.task.0 seat.new }
    ensures halves { KeepHalves whole.old.me.0 whole.new.me.0 }
    ensures stays { (seat.new.task ≡ seat.old.task) × StaysAt seat.old seat.new }
{
    seat.exchange(whole);
    seat.stopped(board);
    seat.stands();
    seat.exchange(whole);
}

/// One thread takes all seats of a board, with the part of each. Takes no memory.
pub fn gather(board: &Board, mut seats: Vec<TaskSeat>, mut clock: ClockSeat) -> Lone
    requires seats { AreSeatsOf board.now (vec_items seats) }
    requires clock { (r : ClockPart) × IsClockOf board.now clock r }
    ensures lone { IsLoneOf board.now result }
    ensures seats { StandAs (vec_items seats) result.seats }
    ensures parts { (i : ℕ) (s : JobSeatView) → slice_get (vec_items seats) i ≡ Some s → get_elem? result.view.tasks i ≡ some (Some (part_of i s.view)) }
    ensures clock { (r : ClockPart) → IsClockOf board.now clock r → result.view.clock ≡ Some r }
{
    let mut whole = board.bare();
    clock.exchange(&mut whole);
    take_in_all(board, &mut whole, &mut seats);
    Lone {
        seats,
        clock,
        whole,
    }
}

impl Lone {
    /// How many jobs of the task have ended.
    pub fn job(&self, task: TaskNo) -> u64
        requires { task.0 < length self.now.seats }
        ensures { (s : JobSeatView) → slice_get self.now.seats task.0 ≡ Some s → result ≡ s.job }
    {
        self.seats[task.0 as usize].job()
    }

    /// Where the task stands.
    pub fn place(&self, task: TaskNo) -> Place
        requires { task.0 < length self.now.seats }
        ensures { (s : JobSeatView) → slice_get self.now.seats task.0 ≡ Some s → result ≡ place_of s.stage }
    {
        self.seats[task.0 as usize].place()
    }

    /// The clock's `now`.
    pub fn now(&self) -> u64
        requires { (k : Constants) × (self.now.view.constants ≡ Some k) }
        ensures { (r : ClockPart) → self.now.view.clock ≡ Some r → result ≡ r.now }
    {
        self.clock.shown()
    }

    /// Lets the task's part stand where its seat does.
    fn settle(&mut self, board: &Board, i: usize)
        requires lone { IsLoneOf board.now self.old }
        requires task { i < length self.old.seats }
        ensures lone { IsLoneOf board.now self.new }
        ensures seats { StandAs self.old.seats self.new.seats }
        ensures clock { self.new.view.clock ≡ self.old.view.clock }
        ensures settled { (s : JobSeatView) → slice_get self.new.seats i ≡ Some s → IsSettled self.new.view i s }
        ensures halves { KeepHalves self.old.view self.new.view }
        ensures others { (j : ℕ) (p : TaskPart) → (j ≡ i → ⊥) → get_elem? self.old.view.tasks j ≡ some (Some p) → get_elem? self.new.view.tasks j ≡ some (Some p) }
    {
        settle_seat(board, &mut self.whole, &mut self.seats[i]);
    }

    /// Whether it is known without a look at each task that no horizon job that is due by the next tick is left to be seen.
    pub fn is_ahead(&self) -> bool
        requires { (k : Constants) × (self.now.view.constants ≡ Some k) }
        ensures { OnTrue result ((k : Constants) (r : ClockPart) → self.entry.now.view.constants ≡ Some k → self.entry.now.view.clock ≡ Some r → IsAllSeen k r) }
    {
        self.clock.is_ahead()
    }

    /// Whether a horizon job of the task that is due by the next tick has not been seen to end.
    pub fn is_due(&self, board: &Board, task: TaskNo) -> bool
        requires lone { IsLoneOf board.now self.now }
        requires task { task.0 < (run_of board.now.known).tasks }
        ensures { OnFalse result ((r : ClockPart) → self.entry.now.view.clock ≡ Some r → (n : ℕ) → IsUnseen board.now.known r task.0 n → ⊥) }
    {
        match self.clock.unseen(board, task) {
            Some(_) => true,
            None => false,
        }
    }

    /// The clock notes when the next job is due that has not been seen to end. Takes no memory.
    pub fn note_due(&mut self, board: &Board)
        requires { IsLoneOf board.now self.old }
        ensures { self.new ≡ self.old }
    {
        self.clock.note_due(board);
    }

    /// Each task's part stands where its seat does.
    fn settle_all(&mut self, board: &Board)
        requires { IsLoneOf board.now self.old }
        ensures lone { IsLoneOf board.now self.new }
        ensures seats { StandAs self.old.seats self.new.seats }
        ensures clock { self.new.view.clock ≡ self.old.view.clock }
        ensures settled { (i : ℕ) (s : JobSeatView) → slice_get self.new.seats i ≡ Some s → IsSettled self.new.view i s }
        ensures halves { KeepHalves self.old.view self.new.view }
    {
        for i in 0..self.seats.len() {
            self.stands();
            self.settle(board, i);
        }
    }

    /// Loads `now`, which is the clock's. The task's next job opens where it is one of the
    /// horizon, and released. Takes no memory.
    pub fn release<L: Ledger>(
        &mut self,
        board: &Board,
        task: TaskNo,
        steps: &mut Steps<L>,
    ) -> Release
        requires lone { IsLoneOf board.now self.old }
        requires place { IsPlacedAt MayRelease self.old task.0 }
        ensures lone { IsLoneOf board.now self.new }
        ensures call { IsTaskCall task.0 self.old self.new (λ s t. AnswersRelease board.now.known s t result × (t.place ≡ s.place)) }
        ensures exact { (s : JobSeatView) (r : ClockPart) → slice_get self.old.seats task.0 ≡ Some s → self.old.view.clock ≡ Some r →
            IsReleasedBy board.now.known s r.now result }
        ensures step { steps.new ≡ steps.old + 1 }
    {
        steps.tick();
        release_lent(board, &mut self.whole, &mut self.seats[task.0 as usize])
    }

    /// Does the next action of the task's job, which is a read, as `TaskSeat::read` does. What it
    /// finds of a half is what the task left there that alone writes it. Takes no memory.
    pub fn read<L: Ledger>(&mut self, board: &Board, task: TaskNo, steps: &mut Steps<L>) -> Got
        requires lone { IsLoneOf board.now self.old }
        requires place { IsPlacedAt MayRead self.old task.0 }
        ensures lone { IsLoneOf board.now self.new }
        ensures call { IsTaskCall task.0 self.old self.new (λ s t. AnswersRead board.now.known s t result s.stage) }
        ensures exact { (s : JobSeatView) → slice_get self.old.seats task.0 ≡ Some s →
            FindsTag (run_of board.now.known) self.old.seats s.stage result }
        ensures step { steps.new ≡ steps.old + 1 }
    {
        steps.tick();
        read_lent(board, &mut self.whole, &mut self.seats[task.0 as usize])
    }

    /// Does the next action of the task's job, which is the write of one half of its instance, as
    /// `TaskSeat::write` does. After it this half holds the tag of the instance. Takes no memory.
    pub fn write<L: Ledger>(&mut self, board: &Board, task: TaskNo, steps: &mut Steps<L>) -> Wrote
        requires lone { IsLoneOf board.now self.old }
        requires place { IsPlacedAt MayWrite self.old task.0 }
        ensures lone { IsLoneOf board.now self.new }
        ensures call { IsTaskCall task.0 self.old self.new (λ s t. AnswersWrite board.now.known s t result s.stage) }
        ensures exact { (s : JobSeatView) → slice_get self.old.seats task.0 ≡ Some s → LeavesTag (run_of board.now.known) self.new.seats s.stage }
        ensures step { steps.new ≡ steps.old + 1 }
    {
        board.keeps_facts();
        steps.tick();
        write_lent(board, &mut self.whole, &mut self.seats[task.0 as usize])
    }

    /// Ends the task's job, as `TaskSeat::finish` does. Takes no memory.
    pub fn finish<L: Ledger>(&mut self, board: &Board, task: TaskNo, steps: &mut Steps<L>)
        requires lone { IsLoneOf board.now self.old }
        requires place { IsPlacedAt MayFinish self.old task.0 }
        ensures lone { IsLoneOf board.now self.new }
        ensures call { IsTaskCall task.0 self.old self.new (λ s t. Ends board.now.known s t) }
        ensures step { steps.new ≡ steps.old + 1 }
    {
        steps.tick();
        finish_lent(board, &mut self.whole, &mut self.seats[task.0 as usize]);
    }

    /// Loads how many jobs of the task have ended, and the clock keeps it. Takes no memory.
    pub fn look<L: Ledger>(&mut self, board: &Board, task: TaskNo, steps: &mut Steps<L>) -> u64
        requires lone { IsLoneOf board.now self.old }
        requires task { task.0 < length self.old.seats }
        ensures lone { IsLoneOf board.now self.new }
        ensures call { IsClockCall self.old self.new }
        ensures told { (r : ClockPart) → self.old.view.clock ≡ Some r → LookTold board.now.known task.0 r self.old.view result self.new.view }
        ensures exact { (s : JobSeatView) → slice_get self.old.seats task.0 ≡ Some s → result ≡ s.job }
        ensures step { steps.new ≡ steps.old + 1 }
    {
        steps.tick();
        look_lent(board, &mut self.whole, &mut self.clock, task)
    }

    /// Where no horizon job that is due by then is left to be seen, `now` grows by 1; on a free
    /// board it grows in any case. Takes no memory.
    pub fn tick<L: Ledger>(&mut self, board: &Board, steps: &mut Steps<L>) -> Ticked
        requires lone { IsLoneOf board.now self.old }
        ensures lone { IsLoneOf board.now self.new }
        ensures call { IsClockCall self.old self.new }
        ensures answer { (r : ClockPart) → self.old.view.clock ≡ Some r → IsTicked board.now.known r self.old.view self.new.view result }
        ensures step { steps.new ≡ steps.old + 1 }
    {
        steps.tick();
        tick_lent(board, &mut self.whole, &mut self.clock)
    }

    /// Closes the board, which is the one that the seats belong to. What was loaded of a half, its word at the end has not
    /// fallen below. Takes no memory, and cannot be refused.
    pub fn close(mut self, board: Board) -> Closed
        requires { IsLoneOf board self }
        ensures known { result.constants ≡ Some board.entry.known }
        ensures seats { StandAs self.seats result.seats }
        ensures tags { (i : ℕ) (p : TaskPart) → get_elem? self.view.tasks i ≡ some (Some p) → KeepsTag board.entry.known p.kept result.words }
        ensures clock { (r : ClockPart) → self.view.clock ≡ Some r → slice_index result.words now_word ≡ r.now }
    {
        self.settle_all(&board);
        board.keeps_values();
        plan_laws();
        let Lone {
            seats,
            clock,
            whole,
        } = self;
        Closed::new(board.close(whole), seats, clock)
    }

    /// It has all parts, and each task stands as they say.
    pub fn stands(&self)
        ensures { (k : Constants) → self.entry.now.view.constants ≡ Some k → IsWhole k self.entry.now }
    {
        let _ = &self.whole;
    }
}

impl Drop for Lone {
    fn drop(self) {
        let Lone {
            seats,
            clock,
            whole,
        } = self;
        drop(seats);
        drop(clock);
        drop(whole);
    }
}
