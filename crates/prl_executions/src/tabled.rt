//! Mode `cycle`: the run of the tasks by the static cyclic table of a text.

ghost use Rattle.std.specs.Prelude.{◌≡◌, ◌≢◌, ◌<◌, ◌≤◌, ◌++◌, Ok, Some, [], ◌∷◌, IfOk, IfErr, IfSome, length};
ghost use Rattle.prl_exec.specs.Runs.{HasEnded};
ghost use Rattle.prl_plan.specs.Horizons.{IsHorizon, constants_of};
ghost use Rattle.prl_rule.specs.Known.{known};
ghost use Rattle.prl_rule.specs.declared.views.Gate.TheVariants as gates;
ghost use Rattle.prl_stages.specs.Vocabulary.{HasPlan, IsCycleText, front, ran};
ghost use Rattle.prl_stages.specs.Vocabulary.{table_refusal, IsTableFault};
ghost use Rattle.prl_tables.specs.declared.reading.TableFault.TheVariants as checking;
ghost use Rattle.prl_table.specs.Noted.{AreAllNoted};
ghost use Rattle.prl_tables.specs.Vocabulary.{entries_of, last_unit};
ghost use Rattle.prl_values.specs.Fitting.{HaveTaskBodies, HaveTypedRows};
ghost use Rattle.prl_executions.specs.Ready.{IsReady, IsDrivenTextOf};
ghost use Rattle.prl_calls.specs.Stops.{given_of, StopsAt, Passes};
ghost use Rattle.prl_executions.specs.code.Faults.{AreOfTask};

use crate::ready::{Ready, make_ready};
use crate::running::text_of;
use prl_arguments::Gate;
use prl_board::Steps;
use prl_calls::{Request, task_name};
use prl_plan::{Plan, TaskGraph, plan_is_one};
use prl_stages::{Fault, MAX_BODIES, MAX_PROGRAM, Ran, Stage, Stop, TableRefusal};
use prl_table::{
    Checked, Table, TableFault, TableRun, check_table, drive, read_table, unrolled_table_is_gated,
};
use std::alloc::{AllocError, Global};
use std::marker::Brand;
use std::sync::ledger::{Blank, Ledger};

/// The refusal that a fault of a table is; None is want of memory.
fn table_refusal(alloc: Global, graph: &TaskGraph, fault: TableFault) -> Option<TableRefusal>
    requires { AreOfTask (length graph.now.tasks) fault }
    ensures { IfSome result (λ refusal. table_refusal graph.now fault ≡ Some refusal) }
{
    match fault {
        TableFault::Syntax(line) => Some(TableRefusal::Syntax(line)),
        TableFault::Piece(line) => Some(TableRefusal::Piece(line)),
        TableFault::Units { task, job } => {
            let name = task_name(alloc, graph, task).ok()?;
            Some(TableRefusal::Units { name, job })
        }
        TableFault::Clash { first, second } => Some(TableRefusal::Clash { first, second }),
        TableFault::Order { edge, job } => Some(TableRefusal::Order { edge, job }),
        TableFault::Memory => None,
    }
}

/// The stop that a fault of the text's table is.
fn table_stop(alloc: Global, request: &Request, plan: &Plan, fault: TableFault) -> Stop
    requires plan { HasPlan (given_of request.now) plan.now }
    requires cause { fault ≢ checking.Memory → IsTableFault plan.now request.now.texts.table.items fault }
    ensures { StopsAt (given_of request.now) Stage.Table result }
{
    let _ = request;
    match table_refusal(alloc, plan.graph(), fault) {
        Some(refusal) => Stop::Refused(Stage::Table, Fault::Table(refusal)),
        None => Stop::Memory,
    }
}

/// The table that the text tells, good or not.
fn told_table(alloc: Global, request: &Request, plan: &Plan) -> Result<Table, Stop>
    requires { HasPlan (given_of request.now) plan.now }
    ensures told { IfOk result (λ table. entries_of plan.now.graph.hyper request.now.texts.table.items ≡ Ok table.entries) }
    ensures stop { IfErr result (StopsAt (given_of request.now) Stage.Table) }
{
    match read_table(alloc, &request.texts.table, plan) {
        Ok(table) => Ok(table),
        Err(fault) => Err(table_stop(alloc, request, plan, fault)),
    }
}

/// One thread runs all jobs by the table, and its steps are counted; and at which tick each job was done.
fn driven<L: Ledger>(
    alloc: Global,
    ready: &Ready,
    table: &Checked<'_>,
    blank: Blank,
) -> Result<TableRun, AllocError>
    requires horizon { IsHorizon ready.now.plan ready.now.horizon }
    requires bodies { HaveTaskBodies ready.now.plan.graph ready.now.bodies }
    requires rows { HaveTypedRows ready.now.plan.graph ready.now.horizon.until ready.now.sensors }
    requires table { table.now.plan ≡ ready.now.plan }
    requires name { blank.name ≡ L.name }
    requires parts { (blank.parts ≡ L.parts) × (0 < blank.parts) }
    ensures known { IfOk result (λ run. run.0.constants ≡ Some (known ready.now.plan ready.now.horizon gates.Gated ready.now.sensors ready.now.bodies)) }
    ensures ended { IfOk result (λ run. HasEnded run.0) }
    ensures ticks { IfOk result (λ run. AreAllNoted (constants_of ready.now.plan ready.now.horizon) (last_unit ready.now.plan.graph table.now.entries) run.1) }
{
    let mut steps = Steps::<L>::new(blank);
    drive(
        alloc,
        &ready.plan,
        &ready.bodies,
        &ready.sensors,
        ready.horizon,
        table,
        &mut steps,
    )
}

/// The text of the actuators of a run by the table, and the board.
fn driven_text(
    alloc: Global,
    request: &Request,
    ready: &Ready,
    table: &Checked<'_>,
) -> Result<(Vec<u8>, Ran), AllocError>
    requires ready { IsReady (given_of request.now) ready.now }
    requires table { table.now.plan ≡ ready.now.plan }
    ensures { IfOk result (λ made. IsDrivenTextOf (given_of request.now) ready.now table.now.entries made.0.items made.1) }
{
    let blank = Blank::new(1);
    let run = driven::<Brand>(alloc, ready, table, blank)?;
    let text = text_of(alloc, request, ready, Gate::Gated, run.closed())?;
    Ok((text, Ran::Driven(run)))
}

/// Mode `cycle`.
pub fn cycle_text(alloc: Global, request: &Request) -> Result<(Vec<u8>, Ran), Stop>
    requires program { length request.now.texts.program.items ≤ MAX_PROGRAM }
    requires bodies { length request.now.texts.bodies.items ≤ MAX_BODIES }
    ensures { Passes (given_of request.now) ((front ++ ran) ++ (Stage.Table ∷ [])) (λ made. IsCycleText (given_of request.now) made.0.items made.1) result }
{
    let ready = make_ready(alloc, request)?;
    let table = told_table(alloc, request, &ready.plan)?;
    plan_is_one(&ready.plan);
    unrolled_table_is_gated();
    match check_table(alloc, &ready.plan, &table) {
        Ok(checked) => Ok(driven_text(alloc, request, &ready, &checked)?),
        Err(fault) => Err(table_stop(alloc, request, &ready.plan, fault)),
    }
}
