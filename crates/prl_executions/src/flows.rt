//! Mode `flows`: the values of all flows, and the text of main's outputs.

ghost use Rattle.std.specs.Prelude.{◌≡◌, ◌<◌, ◌≤◌, ◌^◌, IfOk, [], ◌∷◌, length, map};
ghost use Rattle.std.specs.Vec.{vec_items};
ghost use Rattle.prl_ast.specs.Trees.{program_tree};
ghost use Rattle.prl_body.specs.Vocabulary.{body_tree, HaveBodiesOf};
ghost use Rattle.prl_expand.specs.Expanding.{IsExpanded};
ghost use Rattle.prl_flow.specs.Vocabulary.{IsOrder};
ghost use Rattle.prl_names.specs.Uses.{used_imports};
ghost use Rattle.prl_replay.specs.Outputs.{out_flow, out_flows};
ghost use Rattle.prl_types.specs.Typing.{IsTyped};
ghost use Rattle.prl_stages.specs.Vocabulary.{Given, AreBodies, IsMain, IsProgram, HasRows};
ghost use Rattle.prl_stages.specs.Vocabulary.{IsText, stages_after};
ghost use Rattle.prl_calls.specs.Stops.{given_of, Passes, PassesAt};
ghost use Rattle.prl_executions.specs.code.Flows.{IsEvaluated};

use prl_arguments::Mode;
use prl_base::FlowNo;
use prl_calls::{Request, Run, check_types, flat_of, read_bodies, read_program, run_with};
use prl_evaluation::{FlowTable, evaluate};
use prl_sensors::{OutRows, lent_text, rows_are_typed_and_enough};
use prl_stages::{MAX_BODIES, MAX_PROGRAM, Stage, Stop, runs_tell_of_behaviours};
use prl_types::Typed;
use std::alloc::{AllocError, Global};

/// The flow of main's output `k`, with its name and clock.
fn out_flow<'a>(run: &'a Run, table: &'a FlowTable<'_>, k: u32, flow: FlowNo) -> OutRows<'a>
    requires output { k < length run.now.flat.outs }
    requires flow { flow.0 < length run.now.flat.flows }
    requires clocks { length run.now.clocks.of ≡ length run.now.flat.flows }
    requires table { length table.now ≡ length run.now.flat.flows }
    ensures { result ≡ out_flow run.now.flat.out_devices run.now.clocks.of table.now k flow }
{
    let clock = run.clocks.of.as_slice()[flow.0 as usize];
    OutRows::new(run.flat.out_name(k), clock, table.values(flow))
}

/// The flows of main's outputs, with their names and clocks, in order.
fn out_flows<'a>(
    alloc: Global,
    run: &'a Run,
    table: &'a FlowTable<'_>,
) -> Result<Vec<OutRows<'a>>, AllocError>
    requires clocks { length run.now.clocks.of ≡ length run.now.flat.flows }
    requires table { length table.now ≡ length run.now.flat.flows }
    requires few { length run.now.flat.outs ≤ 4096 }
    ensures { IfOk result (λ outs. vec_items outs ≡ out_flows run.now.flat.out_devices run.now.clocks.of table.now 0 run.now.flat.outs) }
{
    let flows = run.flat.outs();
    let mut outs = Vec::with_capacity(alloc, flows.len())?;
    let mut k: u32 = 0;
    for flow in flows {
        outs.push(out_flow(run, table, k, *flow))?;
        k += 1;
    }
    Ok(outs)
}

/// The text of the flows of main's outputs. It needs none of the texts any more.
fn flows_of(alloc: Global, until: u32, typed: &Typed<'_>, run: &Run) -> Result<Vec<u8>, Stop>
    requires until { until < 2 ^ 31 }
    requires given { (g : Given) × IsEvaluated g until (program_tree typed.now.program) typed.now.main typed.now.types run.now }
    requires expanded { IsExpanded (program_tree typed.now.program) typed.now.main typed.now.types run.now.flat }
    requires order { IsOrder run.now.flat run.now.order.flows }
    requires have { HaveBodiesOf (program_tree typed.now.program).imports (used_imports (program_tree typed.now.program) typed.now.main) run.now.bodies }
    ensures { (g : Given) → IsEvaluated g until (program_tree typed.now.program) typed.now.main typed.now.types run.now
        → PassesAt g Stage.Values (λ text. IsText g Mode.Flows text.items) result }
{
    runs_tell_of_behaviours();
    rows_are_typed_and_enough();
    let _main = typed.main();
    let _flows = run.flat.flows();
    let table = evaluate(
        alloc,
        &run.flat,
        &run.clocks,
        &run.order,
        &run.bodies,
        &run.sensors,
        until as u64,
    )?;
    let outs = out_flows(alloc, run, &table)?;
    Ok(lent_text(alloc, &outs)?)
}

/// What mode `flows` evaluates.
fn run_of(alloc: Global, request: &Request, typed: &Typed<'_>) -> Result<Run, Stop>
    requires program { IsProgram (given_of request.now) (program_tree typed.now.program) }
    requires bodies { length request.now.texts.bodies.items ≤ MAX_BODIES }
    requires main { IsMain (given_of request.now) (program_tree typed.now.program) typed.now.main }
    requires typed { IsTyped (program_tree typed.now.program) (given_of request.now).node typed.now.main typed.now.types }
    ensures { Passes (given_of request.now) (Stage.Expansion ∷ Stage.Causality ∷ Stage.Clocks ∷ Stage.Bodies ∷ Stage.Rows ∷ [])
        (λ run. IsExpanded (program_tree typed.now.program) typed.now.main typed.now.types run.flat × IsOrder run.flat run.order.flows
        × AreBodies (given_of request.now) (map body_tree run.bodies)
        × HaveBodiesOf (program_tree typed.now.program).imports (used_imports (program_tree typed.now.program) typed.now.main) run.bodies
        × HasRows (given_of request.now) run.flat run.clocks.of run.sensors) result }
{
    let front = flat_of(alloc, request, typed)?;
    let bodies = read_bodies(alloc, request, typed.program(), typed.main())?;
    run_with(alloc, request, front, bodies)
}

/// Mode `flows`.
pub fn flows_text(alloc: Global, request: Request) -> Result<Vec<u8>, Stop>
    requires program { length request.texts.program.items ≤ MAX_PROGRAM }
    requires bodies { length request.texts.bodies.items ≤ MAX_BODIES }
    requires until { request.until < 2 ^ 31 }
    ensures { Passes (given_of request) (stages_after Mode.Flows request.named) (λ text. IsText (given_of request) Mode.Flows text.items) result }
{
    let program = read_program(alloc, &request)?;
    let typed = check_types(alloc, &request, &program)?;
    let made = run_of(alloc, &request, &typed);
    let until = request.until;
    // What comes now needs no text any more, and the rows' text may be long.
    drop(request);
    let run = made?;
    flows_of(alloc, until, &typed, &run)
}
