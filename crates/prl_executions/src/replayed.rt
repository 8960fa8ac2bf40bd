//! The last stage of mode `replay`: the schedule is done on the machine of the plan, and what this tells is written.

ghost use Rattle.std.specs.Prelude.{◌≡◌, ◌≤◌, Some, IfSome, length};
ghost use Rattle.prl_stages.specs.Vocabulary.{schedule_refusal, IsText, stages_after};
ghost use Rattle.prl_calls.specs.Stops.{given_of, Passes};
ghost use Rattle.prl_executions.specs.code.Faults.{IsOfTask};

use crate::ready::make_ready;
use prl_arguments::Mode;
use prl_calls::{Request, task_name};
use prl_plan::TaskGraph;
use prl_replay::{ReplayFault, replay, trace_text};
use prl_stages::{Fault, MAX_BODIES, MAX_PROGRAM, ScheduleRefusal, Stage, Stop};
use std::alloc::Global;

/// The refusal that a fault of a schedule is; None is want of memory.
pub(crate) fn schedule_refusal(
    alloc: Global,
    graph: &TaskGraph,
    fault: ReplayFault,
) -> Option<ScheduleRefusal>
    requires { IsOfTask (length graph.now.tasks) fault }
    ensures { IfSome result (λ refusal. schedule_refusal graph.now fault ≡ Some refusal) }
{
    match fault {
        ReplayFault::Syntax(line) => Some(ScheduleRefusal::Syntax(line)),
        ReplayFault::Illegal { line, rule } => Some(ScheduleRefusal::Illegal { line, rule }),
        ReplayFault::Unfinished { task, job } => {
            let name = task_name(alloc, graph, task).ok()?;
            Some(ScheduleRefusal::Unfinished { name, job })
        }
        ReplayFault::Memory => None,
    }
}

/// Mode `replay`.
pub fn replayed_text(alloc: Global, request: &Request) -> Result<Vec<u8>, Stop>
    requires program { length request.now.texts.program.items ≤ MAX_PROGRAM }
    requires bodies { length request.now.texts.bodies.items ≤ MAX_BODIES }
    ensures { Passes (given_of request.now) (stages_after Mode.Replay request.now.named) (λ text. IsText (given_of request.now) Mode.Replay text.items) result }
{
    let ready = make_ready(alloc, request)?;
    match replay(
        alloc,
        &ready.plan,
        &ready.bodies,
        &ready.sensors,
        ready.horizon,
        &request.texts.schedule,
    ) {
        Ok(trace) => Ok(trace_text(alloc, &ready.plan, &trace)?),
        Err(fault) => match schedule_refusal(alloc, ready.plan.graph(), fault) {
            Some(refusal) => Err(Stop::Refused(Stage::Schedule, Fault::Schedule(refusal))),
            None => Err(Stop::Memory),
        },
    }
}
