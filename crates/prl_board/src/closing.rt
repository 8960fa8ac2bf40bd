//! Closed boards: what a run has come to.

ghost use Rattle.std.specs.Prelude.{◌≡◌, ◌<◌, ℕ, length, Some, slice_get, slice_index};
ghost use Rattle.std.specs.Bool.{OnFalse, OnTrue};
ghost use Rattle.std.specs.Mem.Slots.{slots_items, slots_len, IsFull};
ghost use Rattle.std.specs.Vec.{vec_items};
ghost use Rattle.prl_plan.specs.Vocabulary.{IsComplete, ExecState};
ghost use Rattle.prl_rule.specs.Vocabulary.{done_word, now_word, slot_word, run_of, part_of};
ghost use Rattle.prl_rule.specs.declared.views.ClockPart.{ClockPart};
ghost use Rattle.prl_rule.specs.declared.views.Constants.{Constants};
ghost use Rattle.prl_board.specs.ClockSeats.{IsClockOf};
ghost use Rattle.prl_board.specs.Closings.{AreOutputs, Drives, IsClosed, IsLastState, KeepsTag, slot_of};
ghost use Rattle.prl_seats.specs.JobSeats.{JobSeatView};
ghost use Rattle.prl_board.specs.Lones.{AreSeatsOf, IsLoneOf, StandAs};
ghost use Rattle.prl_board.specs.TaskSeats.{IsMachineOf, IsNodeTask};
ghost use Rattle.prl_board.specs.code.Lent.{IsLeft};

use crate::clocks::ClockSeat;
use crate::lone::gather;
use crate::seats::{Half, TaskSeat};
use prl_base::{CellNo, TaskNo, Value};
use prl_body::Machine;
use prl_seats::{Board, Words};
use std::marker::Model;

/// A closed board: what a run has come to. Contracts see a `ClosedView`.
pub struct Closed {
    words: Words,
    seats: Vec<TaskSeat>,
    clock: ClockSeat,
}

impl Model for Closed {
    ghost use Rattle.std.specs.Prelude.{◌≡◌, Some};
    ghost use Rattle.std.specs.Mem.Slots.{slots_items, slots_len, IsFull};
    ghost use Rattle.std.specs.Vec.{vec_items};
    ghost use Rattle.prl_rule.specs.declared.views.Constants.{Constants};
    ghost use Rattle.prl_board.specs.Closings.{ClosedView};
    ghost use Rattle.prl_board.specs.code.Lent.{IsLeft};
    ghost use Rattle.prl_body.specs.contracts.codes.Code as code;
    ghost use Rattle.std.specs.Coded.{codes};

    ghost Value = { ClosedView };

    ghost coded = { Prim.hlevel (codes, code.the_row.coded) };

    ghost view = { λ c. record { constants = c.clock.view.constants; words = slots_items c.words.words; seats = vec_items c.seats } };

    ghost invariant = { λ c. IsFull c.words.words × (slots_len c.words.slots ≡ 0) × ((k : Constants) × IsLeft k c.clock.view (slots_items c.words.words) (slots_len c.words.words) (vec_items c.seats)) };
}

impl Drop for Closed {
    fn drop(self) {
        let Closed {
            words,
            seats,
            clock,
        } = self;
        words.free();
        drop(seats);
        drop(clock);
    }
}

/// The slot of a half of a cell.
fn slot(cell: CellNo, half: Half) -> usize
    ensures { result ≡ slot_of cell.0 half }
{
    match half {
        Half::Low => 2 * cell.0 as usize,
        Half::High => 2 * cell.0 as usize + 1,
    }
}

/// Closes a board with its seats, which are exactly those that came with it. What a seat has loaded of a half, its word at the
/// end has not fallen below. Takes no memory, and cannot be refused.
pub fn close(board: Board, seats: Vec<TaskSeat>, clock: ClockSeat) -> Closed
    requires seats { AreSeatsOf board (vec_items seats) }
    requires clock { (r : ClockPart) × IsClockOf board clock r }
    ensures known { result.constants ≡ Some board.entry.known }
    ensures seats { StandAs (vec_items seats) result.seats }
    ensures tags { (i : ℕ) (s : JobSeatView) → slice_get (vec_items seats) i ≡ Some s → KeepsTag board.entry.known (part_of i s.view).kept result.words }
    ensures clock { (r : ClockPart) → IsClockOf board.entry clock r → slice_index result.words now_word ≡ r.now }
{
    gather(&board, seats, clock).close(board)
}

impl Closed {
    /// What the run of seats that have lent what they knew has come to, by the words of its table.
    pub(crate) fn new(words: Words, seats: Vec<TaskSeat>, clock: ClockSeat) -> Closed
        requires words { IsFull words.words × (slots_len words.slots ≡ 0) }
        requires left { (k : Constants) × IsLeft k clock.view (slots_items words.words) (slots_len words.words) (vec_items seats) }
        ensures { result ≡ record { constants = clock.view.constants; words = slots_items words.words; seats = vec_items seats } }
    {
        Closed {
            words,
            seats,
            clock,
        }
    }

    /// The words and the seats show a state that the run has come to.
    pub fn stands(&self)
        ensures { (k : Constants) → self.entry.now.constants ≡ Some k → IsClosed k self.entry.now.words self.entry.now.seats }
    {
        let _ = &self.words;
    }

    /// The clock's `now` at the end.
    pub fn now(&self) -> u64
        ensures { result ≡ slice_index self.now.words now_word }
    {
        self.words.word(0)
    }

    /// How many jobs of the task have ended, as its done word says.
    pub fn done(&self, task: TaskNo) -> u64
        requires { task.0 < length self.now.seats }
        ensures word { result ≡ slice_index self.now.words (done_word task.0) }
        ensures seat { (s : JobSeatView) → slice_get self.now.seats task.0 ≡ Some s → result ≡ s.job }
    {
        self.words.word(1 + task.0 as usize)
    }

    /// The word of a half of a cell.
    pub fn word(&self, cell: CellNo, half: Half) -> u64
        requires { (k : Constants) × (self.now.constants ≡ Some k) × (slot_of cell.0 half < (run_of k).slots) }
        ensures { (k : Constants) → self.now.constants ≡ Some k → result ≡ slice_index self.now.words (slot_word (run_of k) (slot_of cell.0 half)) }
    {
        let offset = slot(cell, half);
        self.words.word(1 + self.seats.len() + offset)
    }

    /// Whether every horizon job has ended.
    pub fn ended(&self) -> bool
        ensures yes { OnTrue result ((k : Constants) (s : ExecState) → self.entry.now.constants ≡ Some k → IsLastState k self.entry.now.words self.entry.now.seats s → IsComplete (run_of k) s) }
        ensures no { OnFalse result ((k : Constants) (s : ExecState) → self.entry.now.constants ≡ Some k → IsLastState k self.entry.now.words self.entry.now.seats s → IsComplete (run_of k) s → ⊥) }
    {
        self.stands();
        for i in 0..self.seats.len() {
            if !self.seats[i].is_over() {
                return false;
            }
        }
        true
    }

    /// The machine of a node task's body.
    pub fn machine(&self, task: TaskNo) -> &Machine
        requires task { task.0 < length self.now.seats }
        requires node { (k : Constants) × (self.now.constants ≡ Some k) × IsNodeTask k task.0 }
        ensures { (k : Constants) (s : JobSeatView) → self.entry.now.constants ≡ Some k → slice_get self.entry.now.seats task.0 ≡ Some s →
            IsMachineOf k s result.now }
    {
        self.seats[task.0 as usize].machine()
    }

    /// The task of the first actuator.
    fn first_actuator(&self) -> usize
        requires { (k : Constants) × (i : ℕ) × (actuator : ℕ) × (self.now.constants ≡ Some k) × Drives k i actuator }
        ensures { (k : Constants) → self.entry.now.constants ≡ Some k → Drives k result 0 }
    {
        for i in 0..self.seats.len() {
            if self.seats[i].has_output() {
                return i;
            }
        }
        unreachable!()
    }

    /// The values that the ended jobs of the actuator of main's output of this number have read, in order.
    pub fn output(&self, actuator: u32) -> &[Value]
        requires { (k : Constants) × (i : ℕ) × (self.now.constants ≡ Some k) × Drives k i actuator }
        ensures { (k : Constants) (i : ℕ) (s : JobSeatView) → self.entry.now.constants ≡ Some k → Drives k i actuator → slice_get self.entry.now.seats i ≡ Some s →
            AreOutputs k i s.job result.now }
    {
        let seats = &self.seats;
        let task = self.first_actuator() + actuator as usize;
        seats[task].output()
    }
}
