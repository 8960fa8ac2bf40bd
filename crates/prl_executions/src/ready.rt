//! What the modes that run tasks have in common: all stages up to the rows, and what a run needs.

ghost use Rattle.std.specs.Prelude.{◌≤◌, ◌++◌, [], ◌∷◌, length, map};
ghost use Rattle.prl_ast.specs.Trees.{program_tree};
ghost use Rattle.prl_body.specs.Vocabulary.{body_tree, HaveBodiesOf};
ghost use Rattle.prl_expand.specs.Expanding.{IsExpanded};
ghost use Rattle.prl_flow.specs.Uses.{IsOrder};
ghost use Rattle.prl_graph.specs.TaskGraphs.{IsGraphOf};
ghost use Rattle.prl_names.specs.Uses.{used_imports};
ghost use Rattle.prl_types.specs.Typing.{IsTyped};
ghost use Rattle.prl_stages.specs.Vocabulary.{HasClocks, AreBodies, IsMain};
ghost use Rattle.prl_stages.specs.Vocabulary.{HasRows, HasHorizon, front, graphed, planned, ran};
ghost use Rattle.prl_calls.specs.Stops.{given_of, Passes};
ghost use Rattle.prl_executions.specs.Ready.{IsReady};

use prl_body::Bodies;
use prl_calls::{
    Request, Run, check_types, flat_of, make_graphed, make_horizon, make_planned, read_bodies,
    read_program, run_with,
};
use prl_flow::{Clocks, Flat, Order, Sensors};
use prl_plan::{Horizon, Plan, plan_is_one};
use prl_stages::{MAX_BODIES, MAX_PROGRAM, Stage, Stop, runs_tell_of_behaviours};
use prl_types::Typed;
use std::alloc::Global;

/// What a run of the tasks of a program needs: its plan with the horizon, the bodies, and the rows of the sensors.
#[derive(Drop)]
pub struct Ready {
    pub plan: Plan,
    pub bodies: Bodies,
    pub sensors: Sensors,
    pub horizon: Horizon,
}

/// What a run needs has come of the texts, and what it tells is of the one behaviour.
fn program_is_ready(request: &Request, typed: &Typed<'_>, run: &Run, plan: &Plan, horizon: Horizon)
    requires main { IsMain (given_of request.now) (program_tree typed.now.program) typed.now.main }
    requires typed { IsTyped (program_tree typed.now.program) (given_of request.now).node typed.now.main typed.now.types }
    requires expanded { IsExpanded (program_tree typed.now.program) typed.now.main typed.now.types run.now.flat }
    requires order { IsOrder run.now.flat run.now.order.flows }
    requires bodies { AreBodies (given_of request.now) (map body_tree run.now.bodies) }
    requires have { HaveBodiesOf (program_tree typed.now.program).imports (used_imports (program_tree typed.now.program) typed.now.main) run.now.bodies }
    requires rows { HasRows (given_of request.now) run.now.flat run.now.clocks.of run.now.sensors }
    requires graph { IsGraphOf run.now.flat run.now.clocks.of plan.now.graph }
    requires horizon { HasHorizon (given_of request.now) plan.now horizon }
    ensures { IsReady (given_of request.now) (record { plan = plan.now; bodies = run.now.bodies; sensors = run.now.sensors; horizon = horizon }) }
{
    runs_tell_of_behaviours();
    let _main = typed.main();
    let _flows = run.flat.flows();
    plan_is_one(plan);
}

/// The bodies, and the plan with its horizon.
fn plan_of_replay(
    alloc: Global,
    request: &Request,
    typed: &Typed<'_>,
    flat: &Flat,
    clocks: &Clocks,
) -> Result<(Bodies, (Plan, Horizon)), Stop>
    requires bodies { length request.now.texts.bodies.items ≤ MAX_BODIES }
    requires main { IsMain (given_of request.now) (program_tree typed.now.program) typed.now.main }
    requires clocks { HasClocks (given_of request.now) flat.now clocks.now.of }
    ensures { Passes (given_of request.now) (graphed ++ (Stage.Bodies ∷ []) ++ planned ++ (Stage.Horizon ∷ []))
        (λ made. AreBodies (given_of request.now) (map body_tree made.0)
        × HaveBodiesOf (program_tree typed.now.program).imports (used_imports (program_tree typed.now.program) typed.now.main) made.0 × IsGraphOf flat.now clocks.now.of made.1.0.graph
        × HasHorizon (given_of request.now) made.1.0 made.1.1) result }
{
    let graphed = make_graphed(alloc, request, flat, clocks)?;
    let bodies = read_bodies(alloc, request, typed.program(), typed.main())?;
    let plan = make_planned(alloc, request, graphed)?;
    let horizon = make_horizon(request, &plan)?;
    Ok((bodies, (plan, horizon)))
}

/// What a run needs, after the clocks of the flows.
fn ready_with(
    alloc: Global,
    request: &Request,
    typed: &Typed<'_>,
    front: (Flat, Order, Clocks),
) -> Result<Ready, Stop>
    requires bodies { length request.now.texts.bodies.items ≤ MAX_BODIES }
    requires main { IsMain (given_of request.now) (program_tree typed.now.program) typed.now.main }
    requires typed { IsTyped (program_tree typed.now.program) (given_of request.now).node typed.now.main typed.now.types }
    requires expanded { IsExpanded (program_tree typed.now.program) typed.now.main typed.now.types front.0 }
    requires order { IsOrder front.0 front.1.flows }
    requires clocks { HasClocks (given_of request.now) front.0 front.2.of }
    ensures { Passes (given_of request.now) ran (IsReady (given_of request.now)) result }
{
    let (bodies, plan) = plan_of_replay(alloc, request, typed, &front.0, &front.2)?;
    let run = run_with(alloc, request, front, bodies)?;
    program_is_ready(request, typed, &run, &plan.0, plan.1);
    Ok(Ready {
        plan: plan.0,
        bodies: run.bodies,
        sensors: run.sensors,
        horizon: plan.1,
    })
}

/// What a run needs: the stages of the modes that run tasks.
pub fn make_ready(alloc: Global, request: &Request) -> Result<Ready, Stop>
    requires program { length request.now.texts.program.items ≤ MAX_PROGRAM }
    requires bodies { length request.now.texts.bodies.items ≤ MAX_BODIES }
    ensures { Passes (given_of request.now) (front ++ ran) (IsReady (given_of request.now)) result }
{
    let program = read_program(alloc, request)?;
    let typed = check_types(alloc, request, &program)?;
    let front = flat_of(alloc, request, &typed)?;
    ready_with(alloc, request, &typed, front)
}
