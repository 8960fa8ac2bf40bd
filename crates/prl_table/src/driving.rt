//! One thread does the unrolled list of a table.

ghost use Rattle.std.specs.Prelude.{◌≡◌, ◌+◌, ◌<◌, IfOk, Some, length};
ghost use Rattle.std.specs.Bool.{OnTrue, OnFalse};
ghost use Rattle.prl_plan.specs.Horizons.{constants_of, IsHorizon};
ghost use Rattle.prl_tables.specs.Tables.{last_unit};
ghost use Rattle.prl_values.specs.Fitting.{HaveTaskBodies, HaveTypedRows};
ghost use Rattle.prl_rule.specs.declared.views.Gate.TheVariants as gates;
ghost use Rattle.prl_rule.specs.Known.{known, run_of};
ghost use Rattle.prl_board.specs.Lones.{IsLoneOf};
ghost use Rattle.prl_exec.specs.Runs.{HasEnded};
ghost use Rattle.prl_table.specs.Noted.{AreAllNoted, AreNoted, HaveRoom};
ghost use Rattle.prl_table.specs.code.Driving.{next_act, AreFirst, IsBoardOf, IsDriven, IsJobDone, IsNextJob};

use crate::noted::{Driver, Room, TableRun};
use prl_base::TaskNo;
use prl_board::{Board, Gate, Steps, open_board};
use prl_body::Bodies;
use prl_edf::actions_end_once;
use prl_exec::run_laws;
use prl_flow::Sensors;
use prl_plan::{
    Horizon, Plan, horizon_jobs_are_counted, look_ups_fit, plan_is_one, run_of_two_lists,
};
use prl_tables::{Checked, classes_are_early, good_table_is_placing};
use std::alloc::{AllocError, Global};
use std::sync::ledger::Ledger;

/// When a task's job acts, if it is one of the horizon.
fn next_act(
    plan: &Plan,
    horizon: Horizon,
    table: &Checked<'_>,
    task: TaskNo,
    job: u64,
) -> Option<u64>
    requires plan { table.now.plan ≡ plan.now }
    requires horizon { IsHorizon plan.now horizon }
    requires task { task.0 < length plan.now.graph.tasks }
    ensures { result ≡ next_act (constants_of plan.now horizon) (last_unit plan.now.graph table.now.entries) task.0 job }
{
    plan.graph();
    classes_are_early();
    horizon_jobs_are_counted();
    look_ups_fit();
    if job >= horizon.jobs_of(plan, task) {
        return None;
    }
    Some(table.last_unit(task, job))
}

/// When the first job of each task acts.
fn first_acts(
    alloc: Global,
    plan: &Plan,
    horizon: Horizon,
    table: &Checked<'_>,
) -> Result<Vec<Option<u64>>, AllocError>
    requires plan { table.now.plan ≡ plan.now }
    requires horizon { IsHorizon plan.now horizon }
    ensures { IfOk result (λ next. AreFirst (constants_of plan.now horizon) (last_unit plan.now.graph table.now.entries) next.items) }
{
    let mut next = Vec::new(alloc);
    for i in 0..plan.graph().tasks.len() {
        next.push(next_act(plan, horizon, table, TaskNo(i as u32), 0))?;
    }
    Ok(next)
}

/// The clock sees that a task's job has ended, and notes when the next one acts.
fn note<L: Ledger>(
    driver: &mut Driver,
    board: &Board,
    plan: &Plan,
    horizon: Horizon,
    table: &Checked<'_>,
    next: &mut Vec<Option<u64>>,
    now: u64,
    task: TaskNo,
    steps: &mut Steps<L>,
)
    requires lone { IsLoneOf board.now driver.old.lone }
    requires board { IsBoardOf board.now.known table.now }
    requires plan { plan.now ≡ board.now.known.plan }
    requires horizon { (horizon ≡ board.now.known.horizon) × IsHorizon board.now.known.plan board.now.known.horizon }
    requires task { task.0 < length driver.old.lone.seats }
    requires noted { length next.old.items ≡ (run_of board.now.known).tasks }
    requires done { IsJobDone board.now.known table.now driver.old.lone next.old.items now task.0 }
    ensures lone { IsLoneOf board.now driver.new.lone }
    ensures tasks { length driver.new.lone.seats ≡ length driver.old.lone.seats }
    ensures noted { length next.new.items ≡ length next.old.items }
    ensures driven { IsDriven board.now.known table.now driver.new.lone next.new.items now (task.0 + 1) }
    ensures same { driver.new.noted ≡ driver.old.noted }
{
    board.keeps_facts();
    run_of_two_lists();
    let _ = now;
    let ended = driver.look(board, task, steps);
    next[task.0 as usize] = next_act(plan, horizon, table, task, ended);
}

/// Whether what is noted is this tick.
fn is_now(noted: Option<u64>, now: u64) -> bool
    ensures yes { OnTrue result (noted ≡ Some now) }
    ensures no { OnFalse result (noted ≡ Some now → ⊥) }
{
    match noted {
        Some(tick) => tick == now,
        None => false,
    }
}

/// Does all acts of a task that come now.
fn act_at<L: Ledger>(
    driver: &mut Driver,
    board: &Board,
    plan: &Plan,
    horizon: Horizon,
    table: &Checked<'_>,
    next: &mut Vec<Option<u64>>,
    now: u64,
    task: TaskNo,
    steps: &mut Steps<L>,
)
    requires lone { IsLoneOf board.now driver.old.lone }
    requires board { IsBoardOf board.now.known table.now }
    requires plan { plan.now ≡ board.now.known.plan }
    requires horizon { (horizon ≡ board.now.known.horizon) × IsHorizon board.now.known.plan board.now.known.horizon }
    requires task { task.0 < length driver.old.lone.seats }
    requires noted { length next.old.items ≡ (run_of board.now.known).tasks }
    requires driven { IsDriven board.now.known table.now driver.old.lone next.old.items now task.0 }
    requires room { HaveRoom (run_of board.now.known) driver.old.noted }
    requires before { AreNoted (run_of board.now.known) (last_unit board.now.known.plan.graph table.now.entries) now task.0 driver.old.noted }
    ensures lone { IsLoneOf board.now driver.new.lone }
    ensures tasks { length driver.new.lone.seats ≡ length driver.old.lone.seats }
    ensures noted { length next.new.items ≡ length next.old.items }
    ensures driven { IsDriven board.now.known table.now driver.new.lone next.new.items now (task.0 + 1) }
    ensures room { HaveRoom (run_of board.now.known) driver.new.noted }
    ensures after { AreNoted (run_of board.now.known) (last_unit board.now.known.plan.graph table.now.entries) now (task.0 + 1) driver.new.noted }
{
    board.keeps_facts();
    run_of_two_lists();
    if is_now(next[task.0 as usize], now) {
        let job = driver.job(task);
        driver.do_job(board, table, next, now, task, job, steps);
        note(driver, board, plan, horizon, table, next, now, task, steps);
    }
}

/// The tick after all acts that come before it.
fn go_on<L: Ledger>(
    driver: &mut Driver,
    board: &Board,
    table: &Checked<'_>,
    next: &Vec<Option<u64>>,
    now: u64,
    steps: &mut Steps<L>,
)
    requires lone { IsLoneOf board.now driver.old.lone }
    requires board { IsBoardOf board.now.known table.now }
    requires now { now < (run_of board.now.known).end }
    requires driven { IsDriven board.now.known table.now driver.old.lone next.now.items now (run_of board.now.known).tasks }
    ensures lone { IsLoneOf board.now driver.new.lone }
    ensures driven { IsDriven board.now.known table.now driver.new.lone next.now.items (now + 1) 0 }
    ensures same { driver.new.noted ≡ driver.old.noted }
{
    run_laws(board);
    let _ = table;
    let _ = next;
    let _ = now;
    let ticked = driver.tick(board, steps);
    let _ = ticked;
}

/// Does all acts that come at a tick, and then the tick.
fn do_tick<L: Ledger>(
    driver: &mut Driver,
    board: &Board,
    plan: &Plan,
    horizon: Horizon,
    table: &Checked<'_>,
    next: &mut Vec<Option<u64>>,
    now: u64,
    steps: &mut Steps<L>,
)
    requires lone { IsLoneOf board.now driver.old.lone }
    requires board { IsBoardOf board.now.known table.now }
    requires plan { plan.now ≡ board.now.known.plan }
    requires horizon { (horizon ≡ board.now.known.horizon) × IsHorizon board.now.known.plan board.now.known.horizon }
    requires now { now < horizon.end }
    requires noted { length next.old.items ≡ (run_of board.now.known).tasks }
    requires driven { IsDriven board.now.known table.now driver.old.lone next.old.items now 0 }
    requires room { HaveRoom (run_of board.now.known) driver.old.noted }
    requires before { AreNoted (run_of board.now.known) (last_unit board.now.known.plan.graph table.now.entries) now 0 driver.old.noted }
    ensures lone { IsLoneOf board.now driver.new.lone }
    ensures noted { length next.new.items ≡ length next.old.items }
    ensures driven { IsDriven board.now.known table.now driver.new.lone next.new.items (now + 1) 0 }
    ensures room { HaveRoom (run_of board.now.known) driver.new.noted }
    ensures after { AreNoted (run_of board.now.known) (last_unit board.now.known.plan.graph table.now.entries) (now + 1) 0 driver.new.noted }
{
    driver.stands();
    for i in 0..board.tasks() {
        act_at(
            driver,
            board,
            plan,
            horizon,
            table,
            next,
            now,
            TaskNo(i),
            steps,
        );
    }
    go_on(driver, board, table, next, now, steps);
}

/// The table places the jobs of the board's run.
fn table_places(board: &Board, plan: &Plan, horizon: Horizon, table: &Checked<'_>)
    requires plan { plan.now ≡ board.now.known.plan }
    requires horizon { (horizon ≡ board.now.known.horizon) × IsHorizon board.now.known.plan board.now.known.horizon }
    requires table { table.now.plan ≡ plan.now }
    ensures { IsBoardOf board.now.known table.now }
{
    let _ = board;
    let _ = horizon;
    plan_is_one(plan);
    table.is_good();
    good_table_is_placing();
    actions_end_once();
}

/// Does the whole list.
fn run_table<L: Ledger>(
    driver: &mut Driver,
    board: &Board,
    plan: &Plan,
    horizon: Horizon,
    table: &Checked<'_>,
    next: &mut Vec<Option<u64>>,
    steps: &mut Steps<L>,
)
    requires lone { IsLoneOf board.now driver.old.lone }
    requires board { IsBoardOf board.now.known table.now }
    requires plan { plan.now ≡ board.now.known.plan }
    requires horizon { (horizon ≡ board.now.known.horizon) × IsHorizon board.now.known.plan board.now.known.horizon }
    requires noted { length next.old.items ≡ (run_of board.now.known).tasks }
    requires driven { IsDriven board.now.known table.now driver.old.lone next.old.items 0 0 }
    requires room { HaveRoom (run_of board.now.known) driver.old.noted }
    ensures lone { IsLoneOf board.now driver.new.lone }
    ensures driven { IsDriven board.now.known table.now driver.new.lone next.new.items horizon.end 0 }
    ensures after { AreNoted (run_of board.now.known) (last_unit board.now.known.plan.graph table.now.entries) horizon.end 0 driver.new.noted }
{
    for now in 0..horizon.end {
        do_tick(driver, board, plan, horizon, table, next, now, steps);
    }
}

/// One thread runs all jobs of the horizon by the table, which is a good one of the plan: each job
/// does all its acts at the beginning of its last unit. It is told at which tick each job was done.
pub fn drive<L: Ledger>(
    alloc: Global,
    plan: &Plan,
    bodies: &Bodies,
    sensors: &Sensors,
    horizon: Horizon,
    table: &Checked<'_>,
    steps: &mut Steps<L>,
) -> Result<TableRun, AllocError>
    requires horizon { IsHorizon plan.now horizon }
    requires bodies { HaveTaskBodies plan.now.graph bodies.now }
    requires rows { HaveTypedRows plan.now.graph horizon.until sensors.now }
    requires table { table.now.plan ≡ plan.now }
    ensures known { IfOk result (λ run. run.0.constants ≡ Some (known plan.now horizon gates.Gated sensors.now bodies.now)) }
    ensures ended { IfOk result (λ run. HasEnded run.0) }
    ensures ticks { IfOk result (λ run. AreAllNoted (constants_of plan.now horizon) (last_unit plan.now.graph table.now.entries) run.1) }
{
    let mut next = first_acts(alloc, plan, horizon, table)?;
    let room = Room::new(alloc, plan, horizon)?;
    let (board, seats, clock) = open_board(alloc, plan, bodies, sensors, horizon, Gate::Gated)?;
    run_laws(&board);
    table_places(&board, plan, horizon, table);
    let mut driver = Driver::new(&board, seats, clock, room);
    run_table(&mut driver, &board, plan, horizon, table, &mut next, steps);
    driver.stands();
    Ok(driver.close(board))
}
