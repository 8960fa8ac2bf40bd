//! The clock's seat.

ghost use Rattle.std.specs.Prelude.{◌≡◌, ◌+◌, ◌<◌, ◌≤◌, ℕ, [], replicate, slice_index, MatchOption, Some};
ghost use Rattle.std.specs.Bool.{OnTrue};
ghost use Rattle.prl_plan.specs.Facts.{IsJob};
ghost use Rattle.prl_rule.specs.Vocabulary.{LookTold, run_of};
ghost use Rattle.prl_rule.specs.declared.views.ClockPart.{ClockPart};
ghost use Rattle.prl_rule.specs.declared.views.Constants.{Constants};
ghost use Rattle.prl_rule.specs.declared.views.Gate.TheVariants as gates;
ghost use Rattle.prl_board.specs.ClockSeats.{AnswersStop, AnswersTick, AreDueBy, IsAllSeen, IsBehind, IsClockData, IsClockOf, IsSaidBy, IsUnseen};
ghost use Rattle.prl_board.specs.Openings.{IsFirstClock};

use prl_base::TaskNo;
use prl_seats::{Board, Seat};
use std::marker::Model;
use std::mem;

/// What a tick answers.
#[derive(Clone, Copy)]
pub enum Ticked {
    /// The clock went on to this `now`.
    Now(u64),
    /// A job of the horizon is due by the next tick and has not been seen to end: the first one of
    /// the lowest task that has one.
    Behind { task: TaskNo, job: u64 },
    /// The clock is at the end of the horizon.
    End,
}

/// The seat of the clock. Contracts see a `ClockSeatView`.
pub struct ClockSeat {
    seat: Seat,
    now: u64,
    /// By task, the number of ended jobs that was loaded last.
    looks: Vec<u64>,
    /// A date that is no later than the deadline of any horizon job which has not been seen to end.
    due: u64,
}

impl Model for ClockSeat {
    ghost use Rattle.std.specs.Prelude.{◌≡◌, [], Some};
    ghost use Rattle.prl_board.specs.ClockSeats.{AreDueBy, ClockSeatView, IsClockData};
    ghost use Rattle.prl_rule.specs.declared.views.Constants.{Constants};
    ghost use Rattle.prl_body.specs.contracts.codes.Code as code;
    ghost use Rattle.std.specs.Coded.{codes};

    ghost Value = { ClockSeatView };

    ghost coded = { Prim.hlevel (codes, code.the_row.coded) };

    ghost view = { λ s. record { table = s.seat.table_id; id = s.seat.id; view = s.seat.me.0; now = s.now; looks = s.looks.items } };

    ghost invariant = { λ s. (s.seat.me.1 ≡ []) × IsClockData s.seat.me.0 s.now s.looks.items
        × ((k : Constants) → s.seat.me.0.constants ≡ Some k → AreDueBy k s.looks.items s.due) };
}

/// What is known of the next deadline after a look which found so many ended jobs; a word of ended jobs does not fall.
fn due_after(due: u64, before: u64, ended: u64) -> u64
    ensures { (result ≤ due) × (ended < before → result ≡ 0) }
{
    if ended < before { 0 } else { due }
}

impl ClockSeat {
    /// The clock's seat at the opening: nothing has been looked at.
    pub(crate) fn first(seat: Seat, looks: Vec<u64>) -> ClockSeat
        requires part { (k : Constants) × IsFirstClock k seat.me.0 × (looks.items ≡ replicate (run_of k).tasks 0) }
        requires slots { seat.me.1 ≡ [] }
        ensures { (result.table ≡ seat.table_id) × (result.id ≡ seat.id) × (result.view ≡ seat.me.0) }
    {
        ClockSeat {
            seat,
            now: 0,
            looks,
            due: 0,
        }
    }

    /// Gives its seat of the table away for another one of the same run, which says the same of the clock.
    pub(crate) fn exchange(&mut self, other: &mut Seat)
        requires slots { other.old.me.1 ≡ [] }
        requires run { (k : Constants) → other.old.me.0.constants ≡ Some k → self.old.view.constants ≡ Some k }
        requires same { (r : ClockPart) → other.old.me.0.clock ≡ Some r → (r.now ≡ self.old.now) × (r.looks ≡ self.old.looks) }
        ensures given { (other.new.table_id ≡ self.old.table) × (other.new.id ≡ self.old.id) × (other.new.me ≡ (self.old.view, [])) }
        ensures data { IsClockData self.old.view self.old.now self.old.looks }
        ensures taken { self.new ≡ record { table = other.old.table_id; id = other.old.id; view = other.old.me.0; now = self.old.now; looks = self.old.looks } }
    {
        mem::swap(&mut self.seat, other);
    }

    /// The clock's `now`.
    pub fn now(&self) -> u64
        ensures { (r : ClockPart) → self.entry.now.view.clock ≡ Some r → result ≡ r.now }
    {
        self.now
    }

    /// The clock's `now`, which the seat keeps while it has lent its part.
    pub(crate) fn shown(&self) -> u64
        ensures { result ≡ self.entry.now.now }
    {
        self.now
    }

    /// Loads how many jobs of the task have ended, and keeps it. Takes no memory.
    #[tactic(auto, using(crate::proofs::Unseen::still_due))]
    pub fn look(&mut self, board: &Board, task: TaskNo) -> u64
        requires seat { (r : ClockPart) × IsClockOf board.now self.old r }
        requires task { task.0 < (run_of board.now.known).tasks }
        ensures seat { (r : ClockPart) × IsClockOf board.now self.new r }
        ensures same { (self.new.table ≡ self.old.table) × (self.new.id ≡ self.old.id) }
        ensures told { (r : ClockPart) → IsClockOf board.now self.old r → LookTold board.now.known task.0 r self.old.view result self.new.view }
    {
        let ended = board.load_done(&mut self.seat, task);
        self.due = due_after(self.due, self.looks[task.0 as usize], ended);
        self.looks[task.0 as usize] = ended;
        ended
    }

    /// Whether it is known without a look at each task that no horizon job that is due by the next tick is left to be seen.
    pub(crate) fn is_ahead(&self) -> bool
        ensures { OnTrue result ((k : Constants) (r : ClockPart) → self.entry.now.view.constants ≡ Some k → IsSaidBy self.entry.now r → IsAllSeen k r) }
    {
        self.now < self.due && self.due - self.now > 1
    }

    /// The first horizon job of the task that is due by the next tick and has not been seen to end.
    pub(crate) fn unseen(&self, board: &Board, task: TaskNo) -> Option<u64>
        requires seat { self.now.view.constants ≡ Some board.now.known }
        requires task { task.0 < (run_of board.now.known).tasks }
        ensures { (r : ClockPart) → IsSaidBy self.entry.now r →
            MatchOption result ((n : ℕ) → IsUnseen board.now.known r task.0 n → ⊥)
            (λ n. IsUnseen board.now.known r task.0 n × ((m : ℕ) → IsUnseen board.now.known r task.0 m → n ≤ m)) }
    {
        board.keeps_facts();
        let job = self.looks[task.0 as usize];
        if job < board.jobs_of(task) && board.deadline(task, job) - 1 <= self.now {
            Some(job)
        } else {
            None
        }
    }

    /// The first such job of the lowest task that has one.
    fn behind(&self, board: &Board) -> Option<(TaskNo, u64)>
        requires { self.now.view.constants ≡ Some board.now.known }
        ensures { (r : ClockPart) → IsSaidBy self.entry.now r →
            MatchOption result (IsAllSeen board.now.known r) (λ found. IsBehind board.now.known r found.0.0 found.1) }
    {
        for i in 0..board.tasks() {
            if let Some(job) = self.unseen(board, TaskNo(i)) {
                return Some((TaskNo(i), job));
            }
        }
        None
    }

    /// The deadline of the task's first horizon job that has not been seen to end, where one is left.
    fn next_due(&self, board: &Board, task: TaskNo) -> u64
        requires seat { self.now.view.constants ≡ Some board.now.known }
        requires task { task.0 < (run_of board.now.known).tasks }
        ensures { (n : ℕ) → IsJob (run_of board.now.known) task.0 n → slice_index self.entry.now.looks task.0 ≤ n → result ≤ (run_of board.now.known).deadline task.0 n }
    {
        board.keeps_facts();
        let job = self.looks[task.0 as usize];
        if job < board.jobs_of(task) {
            board.deadline(task, job)
        } else {
            u64::MAX
        }
    }

    /// The least deadline of a horizon job that has not been seen to end.
    fn least_due(&self, board: &Board) -> u64
        requires { self.now.view.constants ≡ Some board.now.known }
        ensures { AreDueBy board.now.known self.entry.now.looks result }
    {
        board.keeps_facts();
        let mut least = u64::MAX;
        for i in 0..board.tasks() {
            let at = self.next_due(board, TaskNo(i));
            if at < least {
                least = at;
            }
        }
        least
    }

    /// Notes when the next job is due that has not been seen to end, so that it need not be asked of each task before. Takes no memory.
    pub(crate) fn note_due(&mut self, board: &Board)
        requires { self.old.view.constants ≡ Some board.now.known }
        ensures { self.new ≡ self.old }
    {
        self.due = self.least_due(board);
    }

    /// Where no horizon job that is due by then is left to be seen, `now` grows by 1; on a free board
    /// it grows in any case. Takes no memory.
    pub fn tick(&mut self, board: &Board) -> Ticked
        requires { (r : ClockPart) × IsClockOf board.now self.old r }
        ensures seat { (r : ClockPart) × IsClockOf board.now self.new r }
        ensures same { (self.new.table ≡ self.old.table) × (self.new.id ≡ self.old.id) }
        ensures answer { (r : ClockPart) → IsClockOf board.now self.old r → AnswersTick board.now.known r self.old self.new result }
    {
        if self.now >= board.end() {
            return Ticked::End;
        }
        if board.is_gated() && !self.is_ahead() {
            if let Some((task, job)) = self.behind(board) {
                return Ticked::Behind { task, job };
            }
            self.note_due(board);
        }
        self.now += 1;
        board.store_now(&mut self.seat, self.now);
        Ticked::Now(self.now)
    }

    /// The task whose stop was raised, if there is one. Takes no memory.
    pub fn stopped(&mut self, board: &Board) -> Option<TaskNo>
        requires { (r : ClockPart) × IsClockOf board.now self.old r }
        ensures seat { (r : ClockPart) × IsClockOf board.now self.new r }
        ensures same { (self.new.table ≡ self.old.table) × (self.new.id ≡ self.old.id) }
        ensures answer { (r : ClockPart) → IsClockOf board.now self.old r → AnswersStop board.now.known r self.old self.new result }
    {
        let word = board.load_clock_stop(&mut self.seat);
        board.task_named(word)
    }
}

impl Drop for ClockSeat {
    fn drop(self) {
        let ClockSeat {
            seat,
            now: _,
            looks,
            due: _,
        } = self;
        drop(seat);
        drop(looks);
    }
}
