//! The texts of modes that run no task: of the program (`print`), of its plan (`plan`, `check`), and of what is made of it
//! (`schedule`, `edf`, `table`).

ghost use Rattle.std.specs.Prelude.{◌≡◌, ◌≤◌, length};
ghost use Rattle.prl_stages.specs.Vocabulary.{HasHorizon, stages_after};
ghost use Rattle.prl_stages.specs.Vocabulary.{IsText, make_refusal};
ghost use Rattle.prl_calls.specs.Stops.{given_of, Passes};

use crate::lines::accepted;
use prl_arguments::Mode;
use prl_calls::{Request, make_horizon, planned_program, read_program};
use prl_edf::{analyse, verdict_text};
use prl_plan::{Horizon, Plan};
use prl_plantext::plan_text;
use prl_print::print;
use prl_schedules::{dispatch, schedule_text};
use prl_stages::{Fault, MAX_BODIES, MAX_PROGRAM, MakeRefusal, Stage, Stop};
use prl_table::{MakeFault, Table, make, table_text};
use std::alloc::Global;

/// Mode `print`.
pub fn print_text(alloc: Global, request: &Request) -> Result<Vec<u8>, Stop>
    requires program { length request.now.texts.program.items ≤ MAX_PROGRAM }
    ensures { Passes (given_of request.now) (stages_after Mode.Print request.now.named) (λ text. IsText (given_of request.now) Mode.Print text.items) result }
{
    let program = read_program(alloc, request)?;
    Ok(print(alloc, &program)?)
}

/// Mode `plan`.
pub fn planned_text(alloc: Global, request: &Request) -> Result<Vec<u8>, Stop>
    requires program { length request.now.texts.program.items ≤ MAX_PROGRAM }
    ensures { Passes (given_of request.now) (stages_after Mode.Plan request.now.named) (λ text. IsText (given_of request.now) Mode.Plan text.items) result }
{
    let plan = planned_program(alloc, request, false)?;
    Ok(plan_text(alloc, &plan)?)
}

/// Mode `check`.
pub fn accepted_text(alloc: Global, request: &Request) -> Result<Vec<u8>, Stop>
    requires program { length request.now.texts.program.items ≤ MAX_PROGRAM }
    requires bodies { length request.now.texts.bodies.items ≤ MAX_BODIES }
    ensures { Passes (given_of request.now) (stages_after Mode.Check request.now.named) (λ text. IsText (given_of request.now) Mode.Check text.items) result }
{
    let plan = planned_program(alloc, request, request.named)?;
    Ok(accepted(alloc, &plan)?)
}

/// The plan of the program, and its horizon.
fn plan_and_horizon(alloc: Global, request: &Request) -> Result<(Plan, Horizon), Stop>
    requires program { length request.now.texts.program.items ≤ MAX_PROGRAM }
    ensures { Passes (given_of request.now) (stages_after Mode.Schedule request.now.named) (λ made. HasHorizon (given_of request.now) made.0 made.1) result }
{
    let plan = planned_program(alloc, request, false)?;
    let horizon = make_horizon(request, &plan)?;
    Ok((plan, horizon))
}

/// Mode `schedule`.
pub fn scheduled_text(alloc: Global, request: &Request) -> Result<Vec<u8>, Stop>
    requires program { length request.now.texts.program.items ≤ MAX_PROGRAM }
    ensures { Passes (given_of request.now) (stages_after Mode.Schedule request.now.named) (λ text. IsText (given_of request.now) Mode.Schedule text.items) result }
{
    let (plan, horizon) = plan_and_horizon(alloc, request)?;
    let events = dispatch(alloc, &plan, horizon)?;
    Ok(schedule_text(alloc, &plan, &events)?)
}

/// Mode `edf`.
pub fn edf_text(alloc: Global, request: &Request) -> Result<Vec<u8>, Stop>
    requires program { length request.now.texts.program.items ≤ MAX_PROGRAM }
    ensures { Passes (given_of request.now) (stages_after Mode.Edf request.now.named) (λ text. IsText (given_of request.now) Mode.Edf text.items) result }
{
    let (plan, horizon) = plan_and_horizon(alloc, request)?;
    let verdict = analyse(alloc, &plan, horizon)?;
    Ok(verdict_text(alloc, &plan, horizon, &verdict)?)
}

/// The refusal that a fault of making is; None is want of memory.
fn make_refusal(fault: MakeFault) -> Option<MakeRefusal>
    ensures { result ≡ make_refusal fault }
{
    match fault {
        MakeFault::TooFar(tick) => Some(MakeRefusal::TooFar(tick)),
        MakeFault::Limit(limit) => Some(MakeRefusal::Limit(limit)),
        MakeFault::Overload { from, to, demand } => {
            Some(MakeRefusal::Overload { from, to, demand })
        }
        MakeFault::Unsteady { at, .. } => Some(MakeRefusal::Unsteady(at)),
        MakeFault::Memory => None,
    }
}

/// Mode `table`.
pub fn made_text(alloc: Global, request: &Request) -> Result<Vec<u8>, Stop>
    requires program { length request.now.texts.program.items ≤ MAX_PROGRAM }
    ensures { Passes (given_of request.now) (stages_after Mode.Table request.now.named) (λ text. IsText (given_of request.now) Mode.Table text.items) result }
{
    let plan = planned_program(alloc, request, false)?;
    match make(alloc, &plan) {
        Ok(table) => Ok(table_text(alloc, &plan, &table)?),
        Err(fault) => match make_refusal(fault) {
            Some(refusal) => Err(Stop::Refused(Stage::Made, Fault::Made(refusal))),
            None => Err(Stop::Memory),
        },
    }
}
