//! Several threads run all jobs of a horizon.

ghost use Rattle.std.specs.Prelude.{◌≡◌, ◌+◌, ◌<◌, ◌≤◌, [], IfErr, IfNone, IfOk, IfSome, Some, length, vec_capacity};
ghost use Rattle.std.specs.Vec.{vec_items};
ghost use Rattle.prl_plan.specs.Horizons.{IsHorizon};
ghost use Rattle.prl_values.specs.Fitting.{HaveTaskBodies, HaveTypedRows};
ghost use Rattle.prl_rule.specs.Known.{known, run_of};
ghost use Rattle.prl_rule.specs.declared.views.ClockPart.{ClockPart};
ghost use Rattle.prl_board.specs.Vocabulary.{IsClockOf, AreSeatsOf, IsLoneOf};
ghost use Rattle.prl_exec.specs.Runs.{HasEnded, IsRunFault, HasStopped};
ghost use Rattle.prl_exec.specs.code.Alone.{IsOver};
ghost use Rattle.prl_exec.specs.code.Hands.{AreDealt, AreHeld, HasOwn};
ghost use Rattle.prl_exec.specs.code.Overruns.{IsOverrunIn};

use crate::alone::{act_first, is_over, look_due, tick};
use crate::crews::{Crew, Served, serve_all};
use crate::dealing::{collected, dealt, put_back};
use crate::laws::run_laws;
use crate::overruns::{Missed, first_overrun, overrun_of};
use crate::polls::Eye;
use crate::rests::Others;
use crate::workers::{Hand, lead, work};
use prl_base::{CellNo, TaskNo};
use prl_board::{Board, ClockSeat, Closed, Gate, Lone, Steps, TaskSeat, gather, open_board};
use prl_body::Bodies;
use prl_flow::Sensors;
use prl_io::Probe;
use prl_plan::{Horizon, Plan, actions_are_as_defined, free_events_keep_tags};
use std::alloc::{AllocError, Global};
use std::marker::Brand;
use std::sync::Wait;
use std::sync::atomic::AtomicBool;
use std::sync::ledger::{Blank, Ledger};
use std::thread::Threads;

/// Workers of a board.
#[derive(Drop)]
struct BoardCrew<'b, B, P> {
    board: &'b B,
    probe: &'b P,
    others: Others,
}

impl<'a, 'b, P: Probe> Crew for BoardCrew<'b, Board<'a>, P> {
    ghost use Rattle.prl_rule.specs.declared.views.ClockPart.{ClockPart};
    ghost use Rattle.prl_rule.specs.Known.{run_of};
    ghost use Rattle.prl_board.specs.ClockSeats.{IsClockOf};
    ghost use Rattle.prl_exec.specs.code.Hands.{AreHeld};

    ghost tasks = { λ s. (run_of s.board.now.known).tasks };

    ghost holds = { λ s seats. AreHeld s.board.now seats };

    ghost ticks = { λ s clock. (r : ClockPart) × IsClockOf s.board.now clock r };

    fn begin(&self) {
        self.others.begin();
    }

    fn serve<R: Wait>(&self, rt: &R, seats: Vec<Option<TaskSeat>>) -> Hand {
        work(rt, self.board, &Eye { probe: self.probe }, seats)
    }

    fn lead<R: Wait>(
        &self,
        rt: &R,
        seats: Vec<Option<TaskSeat>>,
        clock: ClockSeat,
    ) -> (Hand, ClockSeat) {
        let eye = Eye { probe: self.probe };
        lead(rt, self.board, &eye, &self.others, seats, clock)
    }

    fn put_back(&self, all: &mut Vec<Option<TaskSeat>>, seats: Vec<Option<TaskSeat>>) {
        put_back(all, seats);
    }
}

/// Where a run on a free board stopped: this job of the task was to read at this port, and the
/// cell of its operand holds a later instance than the operand. `wanted` and `found` are tags: the
/// number of an instance, plus 1.
#[derive(Drop)]
pub struct Stopped {
    /// The board, closed where the run stopped.
    pub closed: Closed,
    pub task: TaskNo,
    pub job: u64,
    pub port: u32,
    pub cell: CellNo,
    pub wanted: u32,
    pub found: u32,
}

/// Why a run of several threads did not end.
#[derive(Drop)]
pub enum RunFault {
    /// A read was overrun, which comes on a free board alone.
    Overrun(Stopped),
    /// Memory ran out before the first job.
    Memory,
}

/// A flag for each worker.
fn flags(alloc: Global, workers: u32) -> Result<Vec<AtomicBool>, AllocError>
    ensures { IfOk result (λ flags. length (vec_items flags) ≡ workers) }
{
    let mut flags = Vec::with_capacity(alloc, workers as usize)?;
    for _ in 0..workers {
        flags.push(AtomicBool::new(false))?;
    }
    Ok(flags)
}

/// What was missed by the task of which a worker told that its read was overrun.
fn told_overrun<L: Ledger>(
    lone: &mut Lone,
    board: &Board,
    told: Option<TaskNo>,
    steps: &mut Steps<L>,
) -> Option<Missed>
    requires { IsLoneOf board.now lone.old }
    ensures lone { IsLoneOf board.now lone.new }
    ensures met { IfSome result (IsOverrunIn board.now.known lone.new) }
{
    lone.stands();
    match told {
        None => None,
        Some(task) => {
            if task.0 < board.tasks() {
                overrun_of(lone, board, task, steps)
            } else {
                None
            }
        }
    }
}

/// Does one event, or finds what a read missed that is overrun.
fn go_on<L: Ledger>(lone: &mut Lone, board: &Board, steps: &mut Steps<L>) -> Option<Missed>
    requires { IsLoneOf board.now lone.old }
    ensures lone { IsLoneOf board.now lone.new }
    ensures met { IfSome result (IsOverrunIn board.now.known lone.new) }
{
    if act_first(lone, board, steps) {
        return None;
    }
    if let Some(missed) = first_overrun(lone, board, steps) {
        return Some(missed);
    }
    look_due(lone, board, steps);
    tick(lone, board, steps);
    None
}

/// Goes on with all seats until no horizon job is left, or a read is overrun. Where a worker told
/// of an overrun, that is read first.
fn run_on<L: Ledger, R: Wait>(
    rt: &R,
    lone: &mut Lone,
    board: &Board,
    told: Option<TaskNo>,
    steps: &mut Steps<L>,
) -> Option<Missed>
    requires { IsLoneOf board.now lone.old }
    ensures lone { IsLoneOf board.now lone.new }
    ensures over { IfNone result (IsOver lone.new) }
    ensures met { IfSome result (IsOverrunIn board.now.known lone.new) }
{
    if let Some(missed) = told_overrun(lone, board, told, steps) {
        return Some(missed);
    }
    for _ in rt.forever() {
        if is_over(lone, board) {
            return None;
        }
        if let Some(missed) = go_on(lone, board, steps) {
            return Some(missed);
        }
    }
    unreachable!()
}

/// Closes the board where a run has ended or, where a read was overrun, has stopped.
fn closed_with(lone: Lone, board: Board, missed: Option<Missed>) -> Result<Closed, Stopped>
    requires lone { IsLoneOf board lone }
    requires over { IfNone missed (IsOver lone) }
    requires met { IfSome missed (IsOverrunIn board.known lone) }
    ensures known { IfOk result (λ closed. closed.constants ≡ Some board.entry.known) }
    ensures ended { IfOk result HasEnded }
    ensures stopped { IfErr result (HasStopped board.entry.known) }
{
    run_laws(&board);
    free_events_keep_tags();
    actions_are_as_defined();
    let closed = lone.close(board);
    closed.stands();
    match missed {
        None => Ok(closed),
        Some(missed) => Err(Stopped {
            closed,
            task: missed.task,
            job: missed.job,
            port: missed.port,
            cell: missed.cell,
            wanted: missed.wanted,
            found: missed.found,
        }),
    }
}

/// Workers serve the seats that were dealt, and all come back, with the clock's. The task that an
/// overrun was met of, if one was.
fn served<R: Threads + Wait + Sync, P: Probe>(
    rt: &R,
    board: &Board,
    probe: &P,
    unserved: &[AtomicBool],
    workers: u32,
    dealt: (
        Vec<Option<TaskSeat>>,
        Vec<Vec<Option<TaskSeat>>>,
        Vec<TaskSeat>,
    ),
    clock: ClockSeat,
) -> (Vec<TaskSeat>, ClockSeat, Option<TaskNo>)
    requires workers { (1 ≤ workers) × (workers ≤ 16) × (length (vec_items dealt.1) + 1 ≡ workers) × (workers ≤ length unserved.now) }
    requires own { AreHeld board.now (vec_items dealt.0) × HasOwn (run_of board.now.known).tasks workers 0 (vec_items dealt.0) }
    requires hands { AreDealt (AreHeld board.now) (run_of board.now.known).tasks workers (vec_items dealt.1) }
    requires room { (vec_items dealt.2 ≡ []) × ((run_of board.now.known).tasks ≤ vec_capacity dealt.2) }
    requires clock { (r : ClockPart) × IsClockOf board.now clock r }
    ensures seats { AreSeatsOf board.entry.now (vec_items result.0) }
    ensures clock { (r : ClockPart) × IsClockOf board.entry.now result.1 r }
{
    let crew = BoardCrew {
        board,
        probe,
        others: Others::new(workers - 1),
    };
    let (own, hands, room) = dealt;
    let Served { hand, clock } = serve_all(rt, &crew, unserved, workers, hands, own, clock);
    let Hand { seats, overrun } = hand;
    (collected(seats, room), clock, overrun)
}

/// The caller goes on with what is left, and closes the board.
fn closed_after<L: Ledger, R: Wait>(
    rt: &R,
    board: Board,
    back: (Vec<TaskSeat>, ClockSeat, Option<TaskNo>),
    blank: Blank,
) -> Result<Closed, Stopped>
    requires seats { AreSeatsOf board (vec_items back.0) }
    requires clock { (r : ClockPart) × IsClockOf board back.1 r }
    requires name { blank.name ≡ L.name }
    requires parts { (blank.parts ≡ L.parts) × (0 < blank.parts) }
    ensures known { IfOk result (λ closed. closed.constants ≡ Some board.entry.known) }
    ensures ended { IfOk result HasEnded }
    ensures stopped { IfErr result (HasStopped board.entry.known) }
{
    let (seats, clock, told) = back;
    let mut steps = Steps::<L>::new(blank);
    let mut lone = gather(&board, seats, clock);
    let missed = run_on(rt, &mut lone, &board, told, &mut steps);
    closed_with(lone, board, missed)
}

/// Several threads run all jobs of the horizon; then the caller goes on with what is left.
fn run_dealt<R: Threads + Wait + Sync, P: Probe>(
    rt: &R,
    alloc: Global,
    plan: &Plan,
    bodies: &Bodies,
    sensors: &Sensors,
    horizon: Horizon,
    gate: Gate,
    workers: u32,
    probe: &P,
) -> Result<Result<Closed, Stopped>, AllocError>
    requires horizon { IsHorizon plan.now horizon }
    requires bodies { HaveTaskBodies plan.now.graph bodies.now }
    requires rows { HaveTypedRows plan.now.graph horizon.until sensors.now }
    requires workers { (1 ≤ workers) × (workers ≤ 16) }
    ensures known { IfOk result (λ run. IfOk run (λ closed. closed.constants ≡ Some (known plan.now horizon gate sensors.now bodies.now))) }
    ensures ended { IfOk result (λ run. IfOk run HasEnded) }
    ensures stopped { IfOk result (λ run. IfErr run (HasStopped (known plan.now horizon gate sensors.now bodies.now))) }
{
    let unserved = flags(alloc, workers)?;
    let (board, seats, clock) = open_board(alloc, plan, bodies, sensors, horizon, gate)?;
    let dealt = dealt(alloc, seats, workers)?;
    let back = served(
        rt,
        &board,
        probe,
        unserved.as_slice(),
        workers,
        dealt,
        clock,
    );
    Ok(closed_after::<Brand, R>(rt, board, back, Blank::new(1)))
}

/// Several threads run all jobs of the horizon: worker `w` those of each task `i` with `i %
/// workers == w`. The caller's thread is the first of them; it ticks too, and does what a worker was to
/// do that got no thread. A worker calls the probe before the first action of each job that it
/// does. It may wait, and takes no memory after the first job has begun. On a gated board it
/// answers no overrun.
pub fn run_threads<R: Threads + Wait + Sync, P: Probe>(
    rt: &R,
    alloc: Global,
    plan: &Plan,
    bodies: &Bodies,
    sensors: &Sensors,
    horizon: Horizon,
    gate: Gate,
    workers: u32,
    probe: &P,
) -> Result<Closed, RunFault>
    requires horizon { IsHorizon plan.now horizon }
    requires bodies { HaveTaskBodies plan.now.graph bodies.now }
    requires rows { HaveTypedRows plan.now.graph horizon.until sensors.now }
    requires workers { (1 ≤ workers) × (workers ≤ 16) }
    ensures known { IfOk result (λ closed. closed.constants ≡ Some (known plan.now horizon gate sensors.now bodies.now)) }
    ensures ended { IfOk result HasEnded }
    ensures fault { IfErr result (IsRunFault (known plan.now horizon gate sensors.now bodies.now)) }
{
    match run_dealt(
        rt, alloc, plan, bodies, sensors, horizon, gate, workers, probe,
    ) {
        Ok(Ok(closed)) => Ok(closed),
        Ok(Err(stopped)) => Err(RunFault::Overrun(stopped)),
        Err(_) => Err(RunFault::Memory),
    }
}
