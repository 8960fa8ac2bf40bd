//! The plan of a program alone, which the programs beside `prelude` ask for.

ghost use Rattle.std.specs.Prelude.{◌≤◌, IfOk, length};
ghost use Rattle.prl_stages.specs.Vocabulary.{IsPlanOrNone, program_alone};
ghost use Rattle.prl_calls.specs.Stops.{given_of};

use crate::fronts::planned_program;
use crate::reading::{Request, Texts};
use prl_base::Label;
use prl_plan::Plan;
use prl_stages::MAX_PROGRAM;
use std::alloc::{AllocError, Global};

/// The plan of the program that is asked about; None where it has none.
#[tactic(auto, using(crate::proofs::Stops::stops_plan_or_none))]
fn plan_for(alloc: Global, request: &Request) -> Result<Option<Plan>, AllocError>
    requires { length request.now.texts.program.items ≤ MAX_PROGRAM }
    ensures { IfOk result (IsPlanOrNone (given_of request.now)) }
{
    match planned_program(alloc, request, false) {
        Ok(plan) => Ok(Some(plan)),
        Err(stop) => {
            let memory = stop.is_memory();
            drop(stop);
            if memory { Err(AllocError) } else { Ok(None) }
        }
    }
}

/// The plan of the program of this text, of at most `MAX_PROGRAM` bytes, by the stages that `prelude plan` has. Main is the
/// node of this name, or the last one where none is given. None where one of these stages refuses.
pub fn plan_of(
    alloc: Global,
    program: Vec<u8>,
    node: Option<Label>,
) -> Result<Option<Plan>, AllocError>
    requires { length program.items ≤ MAX_PROGRAM }
    ensures { IfOk result (IsPlanOrNone (program_alone program.items node)) }
{
    let texts = Texts {
        program,
        bodies: Vec::new(alloc),
        sensors: Vec::new(alloc),
        schedule: Vec::new(alloc),
        table: Vec::new(alloc),
        cores: Vec::new(alloc),
    };
    let request = Request {
        texts,
        named: false,
        listed: false,
        node,
        until: 0,
    };
    let plan = plan_for(alloc, &request);
    drop(request);
    plan
}
