//! The names of tasks, the encoded dates of a task graph, and the horizon of a plan.

ghost use Rattle.std.specs.Prelude.{◌≡◌, ◌<◌, Some, IfOk, IfSome, length};
ghost use Rattle.prl_dates.specs.Faults.{IsDateFault};
ghost use Rattle.prl_plan.specs.Jobs.{task_at};
ghost use Rattle.prl_stages.specs.Vocabulary.{HasGraph, HasDates, HasPlan};
ghost use Rattle.prl_stages.specs.Vocabulary.{dates_refusal, HasHorizon};
ghost use Rattle.prl_calls.specs.Stops.{given_of, PassesAt};

use crate::reading::Request;
use prl_base::{Label, TaskNo};
use prl_dates::{DateFault, encode};
use prl_plan::{Dates, Horizon, Plan, TaskGraph};
use prl_stages::{DatesRefusal, Fault, Stage, Stop};
use std::alloc::{AllocError, Global};

/// The name of a task.
pub fn task_name(alloc: Global, graph: &TaskGraph, task: TaskNo) -> Result<Label, AllocError>
    requires { task.0 < length graph.now.tasks }
    ensures { IfOk result (λ name. name ≡ (task_at graph.now task.0).name) }
{
    Label::new(alloc, graph.tasks.as_slice()[task.0 as usize].name.bytes())
}

/// The refusal that a fault of dates is; None is want of memory.
fn dates_refusal(alloc: Global, graph: &TaskGraph, fault: DateFault) -> Option<DatesRefusal>
    requires { IsDateFault graph.now fault }
    ensures { IfSome result (λ refusal. dates_refusal graph.now fault ≡ Some refusal) }
{
    match fault {
        DateFault::Narrow {
            task,
            job,
            needs,
            has,
        } => {
            let name = task_name(alloc, graph, task).ok()?;
            Some(DatesRefusal::Narrow {
                name,
                job,
                needs,
                has,
            })
        }
        DateFault::Loop { task, job } => {
            let name = task_name(alloc, graph, task).ok()?;
            Some(DatesRefusal::Loop { name, job })
        }
        DateFault::Memory => None,
    }
}

/// The encoded dates of the graph's jobs.
pub fn make_dates(alloc: Global, request: &Request, graph: &TaskGraph) -> Result<Dates, Stop>
    requires { HasGraph (given_of request.now) graph.now }
    ensures { PassesAt (given_of request.now) Stage.Dates (HasDates (given_of request.now) graph.now) result }
{
    match encode(alloc, graph) {
        Ok(dates) => Ok(dates),
        Err(fault) => match dates_refusal(alloc, graph, fault) {
            Some(refusal) => Err(Stop::Refused(Stage::Dates, Fault::Dates(refusal))),
            None => Err(Stop::Memory),
        },
    }
}

/// The horizon of the plan up to the date of the command.
pub fn make_horizon(request: &Request, plan: &Plan) -> Result<Horizon, Stop>
    requires { HasPlan (given_of request.now) plan.now }
    ensures { PassesAt (given_of request.now) Stage.Horizon (HasHorizon (given_of request.now) plan.now) result }
{
    match Horizon::new(plan, request.until) {
        Ok(horizon) => Ok(horizon),
        Err(limit) => Err(Stop::Refused(Stage::Horizon, Fault::Limit(limit))),
    }
}
