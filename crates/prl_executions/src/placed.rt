//! The last stages of mode `cores`: the tasks are placed on the processors of the text, the schedule is done on the machine of the
//! plan that is spread so, or the dispatched list where no schedule is named, and what this tells is written.

ghost use Rattle.std.specs.Prelude.{◌≡◌, ◌≢◌, ◌≤◌, List, Some, Ok, IfOk, IfErr, IfSome, length};
ghost use Rattle.prl_core.specs.Cores.{opened_on};
ghost use Rattle.prl_cores.specs.Processors.{IsOfTasks};
ghost use Rattle.prl_cores.specs.Spreads.{IsSpreadOf};
ghost use Rattle.prl_plan.specs.Vocabulary.{IsHorizon, constants_on, opening, IsSpread};
ghost use Rattle.prl_plan.specs.declared.events.Event.{Event as AnyEvent};
ghost use Rattle.prl_replay.specs.declared.faults.ReplayFault.TheVariants as causes;
ghost use Rattle.prl_replay.specs.Replays.{IsReplayFault};
ghost use Rattle.prl_schedules.specs.Vocabulary.{IsDispatched, schedule_of, task_names};
ghost use Rattle.prl_values.specs.Fitting.{HaveTaskBodies, HaveTypedRows};
ghost use Rattle.prl_stages.specs.Vocabulary.{HasPlacement, cores_refusal, HasPlan, IsText};
ghost use Rattle.prl_stages.specs.Vocabulary.{stages_after};
ghost use Rattle.prl_executions.specs.code.Placed.{FailsPlaced, IsPlacedTrace, IsTraceOn};
ghost use Rattle.prl_calls.specs.Stops.{given_of, Passes, PassesAt};

use crate::ready::{Ready, make_ready};
use crate::replayed::schedule_refusal;
use prl_arguments::Mode;
use prl_calls::{Request, task_name};
use prl_cores::{
    CoresFault, Spread, read_cores, spread, spread_list_is_gated, spread_plans_keep_facts,
};
use prl_plan::{Plan, TaskGraph, plan_is_one};
use prl_replay::{
    ReplayFault, Trace, dispatch_on, read_schedule, replays_end_one_way, run_list, trace_text,
};
use prl_stages::{CoresRefusal, Fault, MAX_BODIES, MAX_PROGRAM, Stage, Stop};
use std::alloc::Global;

/// The refusal that a fault of a text of processors is; None is want of memory.
fn cores_refusal(alloc: Global, graph: &TaskGraph, fault: CoresFault) -> Option<CoresRefusal>
    requires { IsOfTasks (length graph.now.tasks) fault }
    ensures { IfSome result (λ refusal. cores_refusal graph.now fault ≡ Some refusal) }
{
    match fault {
        CoresFault::Syntax(line) => Some(CoresRefusal::Syntax(line)),
        CoresFault::Missing(task) => {
            let name = task_name(alloc, graph, task).ok()?;
            Some(CoresRefusal::Missing(name))
        }
        CoresFault::Memory => None,
    }
}

/// The plan with its tasks on the processors of the text.
fn make_placement(alloc: Global, request: &Request, plan: &Plan) -> Result<Spread, Stop>
    requires { HasPlan (given_of request.now) plan.now }
    ensures { PassesAt (given_of request.now) Stage.Cores (λ spread. IsSpreadOf plan.now spread × HasPlacement (given_of request.now) plan.now spread.placement) result }
{
    match read_cores(alloc, &request.texts.cores, plan) {
        Ok(processors) => Ok(spread(alloc, plan, processors.as_slice())?),
        Err(fault) => match cores_refusal(alloc, plan.graph(), fault) {
            Some(refusal) => Err(Stop::Refused(Stage::Cores, Fault::Cores(refusal))),
            None => Err(Stop::Memory),
        },
    }
}

/// What the schedule tells on the machine of the spread plan.
fn scheduled_trace(
    alloc: Global,
    request: &Request,
    ready: &Ready,
    spread: &Spread,
) -> Result<Trace, ReplayFault>
    requires horizon { IsHorizon ready.now.plan ready.now.horizon }
    requires spread { IsSpread ready.now.plan spread.now.placement }
    requires bodies { HaveTaskBodies ready.now.plan.graph ready.now.bodies }
    requires rows { HaveTypedRows ready.now.plan.graph ready.now.horizon.until ready.now.sensors }
    ensures found { IfOk result (λ trace. (events : List AnyEvent) × (schedule_of (task_names ready.now.plan) request.now.texts.schedule.items ≡ Ok events)
        × IsTraceOn ready.now spread.now.placement events trace) }
    ensures fault { IfErr result (λ fault. fault ≢ causes.Memory →
        IsReplayFault (opened_on ready.now.plan spread.now.placement ready.now.bodies ready.now.sensors ready.now.horizon) request.now.texts.schedule.items fault) }
{
    plan_is_one(&ready.plan);
    spread_plans_keep_facts();
    let events = read_schedule(alloc, &request.texts.schedule, &ready.plan)?;
    run_list(
        alloc,
        &ready.plan,
        spread.placed(),
        &ready.bodies,
        &ready.sensors,
        ready.horizon,
        &events,
    )
}

/// What the dispatched list tells on the machine of the spread plan.
fn dispatched_trace(alloc: Global, ready: &Ready, spread: &Spread) -> Result<Trace, ReplayFault>
    requires horizon { IsHorizon ready.now.plan ready.now.horizon }
    requires spread { IsSpread ready.now.plan spread.now.placement }
    requires bodies { HaveTaskBodies ready.now.plan.graph ready.now.bodies }
    requires rows { HaveTypedRows ready.now.plan.graph ready.now.horizon.until ready.now.sensors }
    ensures found { IfOk result (λ trace. (events : List AnyEvent)
        × IsDispatched (constants_on ready.now.plan spread.now.placement ready.now.horizon)
        (opening (constants_on ready.now.plan spread.now.placement ready.now.horizon)) events
        × IsTraceOn ready.now spread.now.placement events trace) }
    ensures fault { IfErr result (λ fault. fault ≢ causes.Memory → ⊥) }
{
    plan_is_one(&ready.plan);
    spread_plans_keep_facts();
    replays_end_one_way();
    let events = dispatch_on(alloc, &ready.plan, spread.placed(), ready.horizon)?;
    run_list(
        alloc,
        &ready.plan,
        spread.placed(),
        &ready.bodies,
        &ready.sensors,
        ready.horizon,
        &events,
    )
}

/// What the run tells: that of the schedule, where one is named, else that of the dispatched list.
fn placed_trace(
    alloc: Global,
    request: &Request,
    ready: &Ready,
    spread: &Spread,
) -> Result<Trace, ReplayFault>
    requires horizon { IsHorizon ready.now.plan ready.now.horizon }
    requires spread { IsSpread ready.now.plan spread.now.placement }
    requires bodies { HaveTaskBodies ready.now.plan.graph ready.now.bodies }
    requires rows { HaveTypedRows ready.now.plan.graph ready.now.horizon.until ready.now.sensors }
    ensures found { IfOk result (IsPlacedTrace (given_of request.now) ready.now spread.now.placement) }
    ensures fault { IfErr result (FailsPlaced (given_of request.now) ready.now spread.now.placement) }
{
    if request.listed {
        scheduled_trace(alloc, request, ready, spread)
    } else {
        dispatched_trace(alloc, ready, spread)
    }
}

/// Mode `cores`.
pub fn cores_text(alloc: Global, request: &Request) -> Result<Vec<u8>, Stop>
    requires program { length request.now.texts.program.items ≤ MAX_PROGRAM }
    requires bodies { length request.now.texts.bodies.items ≤ MAX_BODIES }
    ensures { Passes (given_of request.now) (stages_after Mode.Cores request.now.named) (λ text. IsText (given_of request.now) Mode.Cores text.items) result }
{
    let ready = make_ready(alloc, request)?;
    let spread = make_placement(alloc, request, &ready.plan)?;
    plan_is_one(&ready.plan);
    spread_list_is_gated();
    match placed_trace(alloc, request, &ready, &spread) {
        Ok(trace) => Ok(trace_text(alloc, &ready.plan, &trace)?),
        Err(fault) => match schedule_refusal(alloc, ready.plan.graph(), fault) {
            Some(refusal) => Err(Stop::Refused(Stage::Placed, Fault::Schedule(refusal))),
            None => Err(Stop::Memory),
        },
    }
}
