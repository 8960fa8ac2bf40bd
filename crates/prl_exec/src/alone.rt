//! One thread runs a board to its end.

ghost use Rattle.std.specs.Prelude.{◌≡◌, ◌+◌, ◌*◌, ◌<◌, ◌≤◌, ◌++◌, List, [], ◌∷◌, IfErr, IfOk, Some, length, replicate, slice_get};
ghost use Rattle.std.specs.Bool.{OnFalse, OnTrue};
ghost use Rattle.prl_plan.specs.Vocabulary.{IsHorizon, KeepsGated};
ghost use Rattle.prl_plan.specs.declared.events.Event.{Event};
ghost use Rattle.prl_plan.specs.declared.events.Event.TheVariants as events;
ghost use Rattle.prl_values.specs.Fitting.{HaveTaskBodies, HaveTypedRows};
ghost use Rattle.prl_rule.specs.Vocabulary.{known, run_of, reached};
ghost use Rattle.prl_rule.specs.declared.views.ClockPart.{ClockPart};
ghost use Rattle.prl_seats.specs.JobSeats.{JobSeatView};
ghost use Rattle.prl_board.specs.Vocabulary.{IsLoneOf, IsPlacedAt, MayRead};
ghost use Rattle.prl_exec.specs.Runs.{HasEnded};
ghost use Rattle.prl_exec.specs.Standing.{HasSeenDue, StandsIn, TellsPoll};
ghost use Rattle.prl_exec.specs.code.Alone.{AreNoted, HasActed, HasGoneOn, HasRunOn, HasTurned, IsIdle, IsLeftOver, IsOver, KeepsNoted, MayAct, Sweeps};

use crate::laws::run_laws;
use prl_base::TaskNo;
use prl_board::{Board, Closed, Gate, Got, Lone, Place, Release, Steps, gather, open_board};
use prl_body::Bodies;
use prl_flow::Sensors;
use prl_plan::{Horizon, Plan, free_list_is_short};
use prl_seats::zeros;
use std::alloc::{AllocError, Global};
use std::sync::ledger::Ledger;

/// Reads, where what is wanted is there.
fn read<L: Ledger>(lone: &mut Lone, board: &Board, task: TaskNo, steps: &mut Steps<L>) -> bool
    requires lone { IsLoneOf board.now lone.old }
    requires place { IsPlacedAt MayRead lone.old task.0 }
    ensures lone { IsLoneOf board.now lone.new }
    ensures tasks { length lone.new.seats ≡ length lone.old.seats }
    ensures step { steps.new ≡ steps.old + 1 }
    ensures told { TellsPoll (run_of board.now.known) task.0 lone.old lone.new result }
{
    run_laws(board);
    lone.stands();
    match lone.read(board, task, steps) {
        Got::Half => true,
        Got::Value(_) => true,
        Got::NotYet { .. } => false,
        Got::Overrun { .. } => false,
    }
}

/// Does the next action of a task whose job is open.
fn act<L: Ledger>(lone: &mut Lone, board: &Board, task: TaskNo, steps: &mut Steps<L>) -> bool
    requires lone { IsLoneOf board.now lone.old }
    requires place { IsPlacedAt MayAct lone.old task.0 }
    ensures lone { IsLoneOf board.now lone.new }
    ensures tasks { length lone.new.seats ≡ length lone.old.seats }
    ensures step { steps.new ≡ steps.old + 1 }
    ensures told { TellsPoll (run_of board.now.known) task.0 lone.old lone.new result }
{
    run_laws(board);
    lone.stands();
    match lone.place(task) {
        Place::Reading(_, _) => read(lone, board, task, steps),
        Place::Writing(_, _) => {
            lone.write(board, task, steps);
            true
        }
        Place::Ending => {
            lone.finish(board, task, steps);
            true
        }
        Place::Idle => unreachable!(),
        Place::Over => unreachable!(),
    }
}

/// Opens the task's next job, where it is released, and does its first action.
fn begin<L: Ledger>(lone: &mut Lone, board: &Board, task: TaskNo, steps: &mut Steps<L>) -> bool
    requires lone { IsLoneOf board.now lone.old }
    requires place { IsPlacedAt IsIdle lone.old task.0 }
    ensures lone { IsLoneOf board.now lone.new }
    ensures tasks { length lone.new.seats ≡ length lone.old.seats }
    ensures steps { steps.new ≤ steps.old + 2 }
    ensures told { TellsPoll (run_of board.now.known) task.0 lone.old lone.new result }
{
    run_laws(board);
    lone.stands();
    match lone.release(board, task, steps) {
        Release::Open { .. } => act(lone, board, task, steps),
        Release::Early { .. } => false,
        Release::Over => false,
    }
}

/// Does what comes next for the task: its next action, before which its next job is opened where
/// it is released. Whether the action was done. Where all seats stand as after some list of
/// events, it is the one event more, or it may not come.
pub fn poll<L: Ledger>(lone: &mut Lone, board: &Board, task: TaskNo, steps: &mut Steps<L>) -> bool
    requires lone { IsLoneOf board.now lone.old }
    requires task { task.0 < length lone.old.seats }
    ensures lone { IsLoneOf board.now lone.new }
    ensures tasks { length lone.new.seats ≡ length lone.old.seats }
    ensures steps { steps.new ≤ steps.old + 2 }
    ensures told { TellsPoll (run_of board.now.known) task.0 lone.old lone.new result }
{
    lone.stands();
    match lone.place(task) {
        Place::Over => false,
        Place::Idle => begin(lone, board, task, steps),
        Place::Reading(_, _) => act(lone, board, task, steps),
        Place::Writing(_, _) => act(lone, board, task, steps),
        Place::Ending => act(lone, board, task, steps),
    }
}

/// Does the next action of the first task whose next action may come.
pub(crate) fn act_first<L: Ledger>(lone: &mut Lone, board: &Board, steps: &mut Steps<L>) -> bool
    requires lone { IsLoneOf board.now lone.old }
    ensures lone { IsLoneOf board.now lone.new }
    ensures steps { steps.new ≤ steps.old + 2 * (run_of board.now.known).tasks }
    ensures told { (r : ClockPart) (list : List Event) → StandsIn (run_of board.now.known) lone.old r list →
        HasActed (run_of board.now.known) lone.new r list result }
{
    lone.stands();
    for i in 0..board.tasks() {
        if poll(lone, board, TaskNo(i), steps) {
            return true;
        }
    }
    false
}

/// Whether no horizon job is left.
pub(crate) fn is_over(lone: &Lone, board: &Board) -> bool
    requires { IsLoneOf board.now lone.now }
    ensures yes { OnTrue result (IsOver lone.now) }
    ensures no { OnFalse result (IsLeftOver lone.now) }
{
    lone.stands();
    for i in 0..board.tasks() {
        match lone.place(TaskNo(i)) {
            Place::Over => {}
            Place::Idle => return false,
            Place::Reading(_, _) => return false,
            Place::Writing(_, _) => return false,
            Place::Ending => return false,
        }
    }
    true
}

/// The clock looks at a task, where a job of it that is due by the next tick has not been seen to end.
fn look_at<L: Ledger>(lone: &mut Lone, board: &Board, task: TaskNo, steps: &mut Steps<L>)
    requires lone { IsLoneOf board.now lone.old }
    requires task { task.0 < (run_of board.now.known).tasks }
    ensures lone { IsLoneOf board.now lone.new }
    ensures seats { lone.new.seats ≡ lone.old.seats }
    ensures steps { steps.new ≤ steps.old + 1 }
    ensures told { (r : ClockPart) (list : List Event) → StandsIn (run_of board.now.known) lone.old r list → HasSeenDue board.now.known lone.old r task.0 →
        (q : ClockPart) × StandsIn (run_of board.now.known) lone.new q list × HasSeenDue board.now.known lone.new q (task.0 + 1) }
{
    lone.stands();
    if !lone.is_due(board, task) {
        return;
    }
    lone.look(board, task, steps);
}

/// The clock looks at the tasks of which a job that is due by the next tick has not been seen to end.
pub fn look_due<L: Ledger>(lone: &mut Lone, board: &Board, steps: &mut Steps<L>)
    requires lone { IsLoneOf board.now lone.old }
    ensures lone { IsLoneOf board.now lone.new }
    ensures seats { lone.new.seats ≡ lone.old.seats }
    ensures steps { steps.new ≤ steps.old + (run_of board.now.known).tasks }
    ensures told { (r : ClockPart) (list : List Event) → StandsIn (run_of board.now.known) lone.old r list →
        (q : ClockPart) × StandsIn (run_of board.now.known) lone.new q list × HasSeenDue board.now.known lone.new q (run_of board.now.known).tasks }
{
    lone.stands();
    if lone.is_ahead() {
        return;
    }
    for i in 0..board.tasks() {
        look_at(lone, board, TaskNo(i), steps);
    }
    lone.note_due(board);
}

/// The clock goes on, where every job that is due has ended and it has seen that.
pub fn tick<L: Ledger>(lone: &mut Lone, board: &Board, steps: &mut Steps<L>)
    requires lone { IsLoneOf board.now lone.old }
    ensures lone { IsLoneOf board.now lone.new }
    ensures steps { steps.new ≡ steps.old + 1 }
    ensures told { (r : ClockPart) (list : List Event) → StandsIn (run_of board.now.known) lone.old r list →
        HasSeenDue board.now.known lone.old r (run_of board.now.known).tasks → KeepsGated (run_of board.now.known) (reached (run_of board.now.known) list) events.Tick →
        (q : ClockPart) × StandsIn (run_of board.now.known) lone.new q (list ++ events.Tick ∷ []) }
{
    run_laws(board);
    let ticked = lone.tick(board, steps);
    let _ = ticked;
}

/// How many actions a task does at most before the next one has its turn.
const TURN: u64 = 1_024;

/// What one thread knows of the tasks that wait for the clock.
#[derive(Drop)]
struct Noted {
    /// By task, a date before which its next job is not released.
    until: Vec<u64>,
    /// The least of them, or less.
    soon: u64,
}

/// Whether no job of the task is open.
fn is_shut(lone: &Lone, task: TaskNo) -> bool
    requires { task.0 < length lone.now.seats }
{
    match lone.place(task) {
        Place::Over => true,
        Place::Idle => true,
        Place::Reading(_, _) => false,
        Place::Writing(_, _) => false,
        Place::Ending => false,
    }
}

/// Does what comes next for a task, one action after another, until its job has ended or the next action may not come. How many
/// actions were done.
fn act_long<L: Ledger>(lone: &mut Lone, board: &Board, task: TaskNo, steps: &mut Steps<L>) -> u64
    requires lone { IsLoneOf board.now lone.old }
    requires task { task.0 < length lone.old.seats }
    ensures lone { IsLoneOf board.now lone.new }
    ensures tasks { length lone.new.seats ≡ length lone.old.seats }
    ensures few { result ≤ 1024 }
    ensures steps { steps.new ≤ steps.old + 2 * (result + 1) }
    ensures told { (r : ClockPart) (list : List Event) → StandsIn (run_of board.now.known) lone.old r list →
        HasRunOn (run_of board.now.known) task.0 lone.new r list result }
{
    run_laws(board);
    for did in 0..TURN {
        if !poll(lone, board, task, steps) {
            return did;
        }
        if is_shut(lone, task) {
            return did + 1;
        }
    }
    TURN
}

/// When the task's next job is released, where one is left.
fn next_release(lone: &Lone, board: &Board, task: TaskNo) -> u64
    requires lone { IsLoneOf board.now lone.now }
    requires task { task.0 < length lone.now.seats }
    ensures { (s : JobSeatView) → slice_get lone.now.seats task.0 ≡ Some s → s.job < (run_of board.now.known).jobs task.0 →
        result ≡ (run_of board.now.known).release task.0 s.job }
{
    lone.stands();
    let job = lone.job(task);
    if job < board.jobs_of(task) {
        board.release(task, job)
    } else {
        u64::MAX
    }
}

/// A task's turn: does what may come for it, where it is not known to wait for the clock, and notes when its next job is released.
/// How many actions were done.
fn turn<L: Ledger>(
    lone: &mut Lone,
    board: &Board,
    until: &mut Vec<u64>,
    now: u64,
    task: TaskNo,
    steps: &mut Steps<L>,
) -> u64
    requires lone { IsLoneOf board.now lone.old }
    requires task { (task.0 < length lone.old.seats) × (task.0 < length until.old.items) }
    ensures lone { IsLoneOf board.now lone.new }
    ensures tasks { length lone.new.seats ≡ length lone.old.seats }
    ensures wide { length until.new.items ≡ length until.old.items }
    ensures few { result ≤ 1024 }
    ensures steps { steps.new ≤ steps.old + 2 * (result + 1) }
    ensures told { (r : ClockPart) (list : List Event) → StandsIn (run_of board.now.known) lone.old r list → now ≡ r.now →
        AreNoted (run_of board.now.known) until.old.items (reached (run_of board.now.known) list) →
        HasTurned (run_of board.now.known) task.0 lone.new r list until.old.items until.new.items result }
{
    if now < until[task.0 as usize] {
        return 0;
    }
    let did = act_long(lone, board, task, steps);
    until[task.0 as usize] = next_release(lone, board, task);
    did
}

fn lesser(a: u64, b: u64) -> u64
    ensures { (result ≤ a) × (result ≤ b) }
{
    if a < b { a } else { b }
}

/// Each task has its turn. How many actions were done.
fn sweep<L: Ledger>(lone: &mut Lone, board: &Board, noted: &mut Noted, steps: &mut Steps<L>) -> u64
    requires lone { IsLoneOf board.now lone.old }
    requires wide { length noted.old.until.items ≡ (run_of board.now.known).tasks }
    ensures lone { IsLoneOf board.now lone.new }
    ensures wide { length noted.new.until.items ≡ (run_of board.now.known).tasks }
    ensures few { result ≤ 1024 * (run_of board.now.known).tasks }
    ensures steps { steps.new ≤ steps.old + 2 * ((run_of board.now.known).tasks + result) }
    ensures told { (r : ClockPart) (list : List Event) → StandsIn (run_of board.now.known) lone.old r list →
        AreNoted (run_of board.now.known) noted.old.until.items (reached (run_of board.now.known) list) →
        Sweeps (run_of board.now.known) lone.new r list noted.new.until.items noted.new.soon result (run_of board.now.known).tasks }
{
    run_laws(board);
    lone.stands();
    let now = lone.now();
    let mut did: u64 = 0;
    noted.soon = u64::MAX;
    for i in 0..board.tasks() {
        did += turn(lone, board, &mut noted.until, now, TaskNo(i), steps);
        noted.soon = lesser(noted.soon, noted.until[i as usize]);
    }
    did
}

/// Does so, where not all tasks are known to wait for the clock.
fn act_all<L: Ledger>(
    lone: &mut Lone,
    board: &Board,
    noted: &mut Noted,
    steps: &mut Steps<L>,
) -> u64
    requires lone { IsLoneOf board.now lone.old }
    requires wide { length noted.old.until.items ≡ (run_of board.now.known).tasks }
    ensures lone { IsLoneOf board.now lone.new }
    ensures wide { length noted.new.until.items ≡ (run_of board.now.known).tasks }
    ensures few { result ≤ 1024 * (run_of board.now.known).tasks }
    ensures steps { steps.new ≤ steps.old + 2 * ((run_of board.now.known).tasks + result) }
    ensures told { (r : ClockPart) (list : List Event) → StandsIn (run_of board.now.known) lone.old r list →
        KeepsNoted (run_of board.now.known) noted.old.until.items noted.old.soon (reached (run_of board.now.known) list) →
        Sweeps (run_of board.now.known) lone.new r list noted.new.until.items noted.new.soon result (run_of board.now.known).tasks }
{
    lone.stands();
    if lone.now() < noted.soon {
        return 0;
    }
    sweep(lone, board, noted, steps)
}

/// Does one event or more, where a horizon job is left. How many were done.
fn go_on<L: Ledger>(lone: &mut Lone, board: &Board, noted: &mut Noted, steps: &mut Steps<L>) -> u64
    requires lone { IsLoneOf board.now lone.old }
    requires wide { length noted.old.until.items ≡ (run_of board.now.known).tasks }
    ensures lone { IsLoneOf board.now lone.new }
    ensures wide { length noted.new.until.items ≡ (run_of board.now.known).tasks }
    ensures steps { steps.new ≤ steps.old + (3 * (run_of board.now.known).tasks + 1) * result }
    ensures told { (r : ClockPart) (list : List Event) → StandsIn (run_of board.now.known) lone.old r list →
        KeepsNoted (run_of board.now.known) noted.old.until.items noted.old.soon (reached (run_of board.now.known) list) →
        HasGoneOn (run_of board.now.known) lone.new list noted.new.until.items noted.new.soon result }
{
    run_laws(board);
    lone.stands();
    if is_over(lone, board) {
        return 0;
    }
    let did = act_all(lone, board, noted, steps);
    if did > 0 {
        return did;
    }
    look_due(lone, board, steps);
    tick(lone, board, steps);
    1
}

/// Does one event after another, until no horizon job is left.
fn run_to_end<L: Ledger>(
    lone: &mut Lone,
    board: &Board,
    horizon: Horizon,
    noted: &mut Noted,
    steps: &mut Steps<L>,
)
    requires lone { IsLoneOf board.now lone.old }
    requires horizon { (horizon ≡ board.now.known.horizon) × IsHorizon board.now.known.plan board.now.known.horizon }
    requires noted { (noted.old.until.items ≡ replicate (run_of board.now.known).tasks 0) × (noted.old.soon ≡ 0) }
    requires stands { (r : ClockPart) × StandsIn (run_of board.now.known) lone.old r [] }
    ensures lone { IsLoneOf board.now lone.new }
    ensures over { IsOver lone.new }
    ensures steps { steps.new ≤ steps.old + (3 * (run_of board.now.known).tasks + 1) * horizon.events }
{
    free_list_is_short();
    let mut done: u64 = 0;
    loop {
        let did = go_on(lone, board, noted, steps);
        if did == 0 {
            return;
        }
        done += did;
    }
}

/// One thread runs all jobs of the horizon.
pub fn run_alone<L: Ledger>(
    alloc: Global,
    plan: &Plan,
    bodies: &Bodies,
    sensors: &Sensors,
    horizon: Horizon,
    gate: Gate,
    steps: &mut Steps<L>,
) -> Result<Closed, AllocError>
    requires horizon { IsHorizon plan.now horizon }
    requires bodies { HaveTaskBodies plan.now.graph bodies.now }
    requires rows { HaveTypedRows plan.now.graph horizon.until sensors.now }
    ensures known { IfOk result (λ closed. closed.constants ≡ Some (known plan.now horizon gate sensors.now bodies.now)) }
    ensures ended { IfOk result HasEnded }
    ensures steps { steps.new ≤ steps.old + (3 * length plan.now.graph.tasks + 1) * horizon.events }
    ensures memory { IfErr result (λ _. steps.new ≡ steps.old) }
{
    let (board, seats, clock) = open_board(alloc, plan, bodies, sensors, horizon, gate)?;
    run_laws(&board);
    let mut lone = gather(&board, seats, clock);
    let mut noted = Noted {
        until: zeros(alloc, board.tasks() as usize)?,
        soon: 0,
    };
    run_to_end(&mut lone, &board, horizon, &mut noted, steps);
    let closed = lone.close(board);
    closed.stands();
    Ok(closed)
}
