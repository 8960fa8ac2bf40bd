//! At which tick one thread has done each job.

ghost use Rattle.std.specs.Prelude.{◌≡◌, ◌<◌, [], length, slice_get, slice_index_or, IfOk, Some};
ghost use Rattle.std.specs.Vec.{vec_items};
ghost use Rattle.prl_plan.specs.Horizons.{constants_of, IsHorizon};
ghost use Rattle.prl_rule.specs.Known.{run_of};
ghost use Rattle.prl_rule.specs.Told.{LookTold};
ghost use Rattle.prl_rule.specs.declared.views.ClockPart.{ClockPart};
ghost use Rattle.prl_rule.specs.declared.views.Constants.{Constants};
ghost use Rattle.prl_seats.specs.JobSeats.{JobSeatView};
ghost use Rattle.prl_board.specs.ClockSeats.{IsClockOf};
ghost use Rattle.prl_board.specs.Closings.{IsClosed};
ghost use Rattle.prl_board.specs.Lones.{AreSeatsOf, IsClockCall, IsLoneOf, IsTicked, IsWhole, StandAs};
ghost use Rattle.prl_table.specs.Noted.{noted_at, with_noted, HaveRoom};
ghost use Rattle.prl_table.specs.code.Driving.{IsBoardOf, IsDriven, IsJobDone, IsNextJob};

use prl_base::TaskNo;
use prl_board::{Board, ClockSeat, Closed, Lone, Steps, TaskSeat, Ticked, gather};
use prl_exec::poll;
use prl_plan::{Horizon, Plan, run_of_two_lists};
use prl_tables::Checked;
use std::alloc::{AllocError, Global};
use std::marker::Model;
use std::sync::ledger::Ledger;

/// By task and job, the tick at which the job was done. It is written by a `Driver` alone, which does the job there on its board.
/// Contracts see the lists.
pub(crate) struct Noted {
    ticks: Vec<Vec<Option<u64>>>,
}

impl Model for Noted {
    ghost use Rattle.std.specs.Prelude.{ℕ, List, Option, map, vec_items};

    ghost Value = { List (List (Option ℕ)) };

    ghost view = { λ n. map vec_items n.ticks.items };
}

impl Noted {
    /// No job was done.
    fn new(alloc: Global, plan: &Plan, horizon: Horizon) -> Result<Noted, AllocError>
        requires { IsHorizon plan.now horizon }
        ensures { IfOk result (HaveRoom (constants_of plan.now horizon)) }
    {
        let mut ticks = Vec::new(alloc);
        for i in 0..plan.graph().tasks.len() {
            let jobs = horizon.jobs_of(plan, TaskNo(i as u32)) as usize;
            ticks.push(vec![in alloc; None; jobs]?)?;
        }
        Ok(Noted { ticks })
    }

    /// The tick at which a job was done; None where it was not.
    fn tick(&self, task: TaskNo, job: u64) -> Option<u64>
        ensures { result ≡ noted_at self.now task.0 job }
    {
        match self.ticks.get(task.0 as usize) {
            Some(jobs) => match jobs.get(job as usize) {
                Some(tick) => *tick,
                None => None,
            },
            None => None,
        }
    }

    /// Notes the tick of a job.
    fn note(&mut self, task: TaskNo, job: u64, now: u64)
        requires task { task.0 < length self.old }
        requires job { job < length (slice_index_or self.old task.0 []) }
        ensures { self.new ≡ with_noted self.old task.0 job now }
    {
        self.ticks[task.0 as usize][job as usize] = Some(now);
    }
}

impl Drop for Noted {
    fn drop(self) {
        let Noted { ticks } = self;
        drop(ticks);
    }
}

/// Does all acts of a task's next job, which acts now.
fn do_all<L: Ledger>(
    lone: &mut Lone,
    board: &Board,
    table: &Checked<'_>,
    next: &Vec<Option<u64>>,
    now: u64,
    task: TaskNo,
    job: u64,
    steps: &mut Steps<L>,
)
    requires lone { IsLoneOf board.now lone.old }
    requires board { IsBoardOf board.now.known table.now }
    requires task { task.0 < length lone.old.seats }
    requires driven { IsDriven board.now.known table.now lone.old next.now.items now task.0 }
    requires next { IsNextJob board.now.known table.now lone.old now task.0 job }
    ensures lone { IsLoneOf board.now lone.new }
    ensures tasks { length lone.new.seats ≡ length lone.old.seats }
    ensures done { IsJobDone board.now.known table.now lone.new next.now.items now task.0 }
{
    board.keeps_facts();
    run_of_two_lists();
    let _ = table;
    let _ = next;
    let _ = now;
    for _place in 0..u32::MAX {
        poll(lone, board, task, steps);
        if lone.job(task) != job {
            return;
        }
    }
    unreachable!()
}

/// What one thread has come to by a table: the board, which is closed, and at which tick each job was done on it. A `Driver` alone
/// makes it. Contracts see both.
#[derive(Drop)]
pub struct TableRun {
    closed: Closed,
    noted: Noted,
}

impl Model for TableRun {
    ghost use Rattle.std.specs.Prelude.{ℕ, List, Option};
    ghost use Rattle.prl_board.specs.Closings.{ClosedView};
    ghost use Rattle.prl_body.specs.contracts.codes.Code as code;
    ghost use Rattle.std.specs.Coded.{codes};

    ghost Value = { ClosedView × List (List (Option ℕ)) };

    ghost coded = { Prim.hlevel (codes, code.the_row.coded) };

    ghost view = { λ d. (d.closed, d.noted) };
}

impl TableRun {
    /// The board.
    pub fn closed(&self) -> &Closed
        ensures { result.now ≡ self.now.0 }
    {
        &self.closed
    }

    /// The tick at which a job was done; None where it was not.
    pub fn tick(&self, task: TaskNo, job: u64) -> Option<u64>
        ensures { result ≡ noted_at self.now.1 task.0 job }
    {
        self.noted.tick(task, job)
    }
}

/// Room for the notes of a run that has not begun.
#[derive(Drop)]
pub(crate) struct Room {
    noted: Noted,
}

impl Room {
    /// A place for each job of the horizon.
    pub(crate) fn new(alloc: Global, plan: &Plan, horizon: Horizon) -> Result<Room, AllocError>
        requires { IsHorizon plan.now horizon }
        ensures { IfOk result (λ room. HaveRoom (constants_of plan.now horizon) room.noted) }
    {
        let noted = Noted::new(alloc, plan, horizon)?;
        Ok(Room { noted })
    }
}

/// One thread that holds all seats of a board, and what it has noted of it.
pub(crate) struct Driver {
    lone: Lone,
    noted: Noted,
}

impl Driver {
    /// One thread takes all seats of a board, and no job was done.
    pub(crate) fn new(board: &Board, seats: Vec<TaskSeat>, clock: ClockSeat, room: Room) -> Driver
        requires seats { AreSeatsOf board.now (vec_items seats) }
        requires clock { (r : ClockPart) × IsClockOf board.now clock r }
        ensures lone { IsLoneOf board.now result.lone }
        ensures seats { StandAs (vec_items seats) result.lone.seats }
        ensures clock { (r : ClockPart) → IsClockOf board.now clock r → result.lone.view.clock ≡ Some r }
        ensures noted { result.noted ≡ room.noted }
    {
        let Room { noted } = room;
        Driver {
            lone: gather(board, seats, clock),
            noted,
        }
    }

    /// How many jobs of the task have ended.
    pub(crate) fn job(&self, task: TaskNo) -> u64
        requires { task.0 < length self.now.lone.seats }
        ensures { (s : JobSeatView) → slice_get self.now.lone.seats task.0 ≡ Some s → result ≡ s.job }
    {
        self.lone.job(task)
    }

    /// It has all parts, and each task stands as they say.
    pub(crate) fn stands(&self)
        ensures { (k : Constants) → self.entry.now.lone.view.constants ≡ Some k → IsWhole k self.entry.now.lone }
    {
        self.lone.stands();
    }

    /// Does all acts of a task's next job, which acts now, and notes the tick.
    pub(crate) fn do_job<L: Ledger>(
        &mut self,
        board: &Board,
        table: &Checked<'_>,
        next: &Vec<Option<u64>>,
        now: u64,
        task: TaskNo,
        job: u64,
        steps: &mut Steps<L>,
    )
        requires lone { IsLoneOf board.now self.old.lone }
        requires board { IsBoardOf board.now.known table.now }
        requires room { HaveRoom (run_of board.now.known) self.old.noted }
        requires task { task.0 < length self.old.lone.seats }
        requires driven { IsDriven board.now.known table.now self.old.lone next.now.items now task.0 }
        requires next { IsNextJob board.now.known table.now self.old.lone now task.0 job }
        ensures lone { IsLoneOf board.now self.new.lone }
        ensures tasks { length self.new.lone.seats ≡ length self.old.lone.seats }
        ensures done { IsJobDone board.now.known table.now self.new.lone next.now.items now task.0 }
        ensures noted { self.new.noted ≡ with_noted self.old.noted task.0 job now }
    {
        do_all(&mut self.lone, board, table, next, now, task, job, steps);
        self.noted.note(task, job, now);
    }

    /// The clock sees how many jobs of the task have ended.
    pub(crate) fn look<L: Ledger>(
        &mut self,
        board: &Board,
        task: TaskNo,
        steps: &mut Steps<L>,
    ) -> u64
        requires lone { IsLoneOf board.now self.old.lone }
        requires task { task.0 < length self.old.lone.seats }
        ensures lone { IsLoneOf board.now self.new.lone }
        ensures call { IsClockCall self.old.lone self.new.lone }
        ensures told { (r : ClockPart) → self.old.lone.view.clock ≡ Some r → LookTold board.now.known task.0 r self.old.lone.view result self.new.lone.view }
        ensures exact { (s : JobSeatView) → slice_get self.old.lone.seats task.0 ≡ Some s → result ≡ s.job }
        ensures noted { self.new.noted ≡ self.old.noted }
    {
        self.lone.look(board, task, steps)
    }

    /// The clock's tick.
    pub(crate) fn tick<L: Ledger>(&mut self, board: &Board, steps: &mut Steps<L>) -> Ticked
        requires lone { IsLoneOf board.now self.old.lone }
        ensures lone { IsLoneOf board.now self.new.lone }
        ensures call { IsClockCall self.old.lone self.new.lone }
        ensures answer { (r : ClockPart) → self.old.lone.view.clock ≡ Some r → IsTicked board.now.known r self.old.lone.view self.new.lone.view result }
        ensures noted { self.new.noted ≡ self.old.noted }
    {
        self.lone.tick(board, steps)
    }

    /// Closes the board, with what was noted of it.
    pub(crate) fn close(self, board: Board) -> TableRun
        requires { IsLoneOf board self.lone }
        ensures known { result.0.constants ≡ Some board.entry.known }
        ensures is { (k : Constants) → result.0.constants ≡ Some k → IsClosed k result.0.words result.0.seats }
        ensures seats { StandAs self.lone.seats result.0.seats }
        ensures noted { result.1 ≡ self.noted }
    {
        let Driver { lone, noted } = self;
        let closed = lone.close(board);
        closed.stands();
        TableRun { closed, noted }
    }
}
