//! What the page calls the text of the plan, and the end of its first hyperperiod.

use prl_plantext::read_plan;
use std::alloc::{AllocError, Global};

/// The name of the text of the plan, and the tick at which the first hyperperiod ends.
#[derive(Drop)]
pub(crate) struct Names {
    pub plan: String,
    pub end: String,
}

/// The name of a program's file without its ending.
fn stem_of(name: &str) -> &str {
    match name.strip_suffix(".prl") {
        Some(stem) => stem,
        None => name,
    }
}

/// The name of the plan's text.
fn plan_name(alloc: Global, program: &str) -> Result<String, AllocError> {
    let mut name = String::from_str(alloc, stem_of(program))?;
    name.push_str(".plan")?;
    Ok(name)
}

/// How many ticks the hyperperiod of a plan's text has.
fn hyperperiod(alloc: Global, plan: &[u8]) -> u64 {
    match read_plan(alloc, plan) {
        Ok(plan) => plan.graph().hyper,
        Err(_) => 1,
    }
}

/// The names for the plan of a program.
pub(crate) fn names_of(alloc: Global, program: &str, plan: &[u8]) -> Result<Names, AllocError> {
    let hyper = hyperperiod(alloc, plan);
    Ok(Names {
        plan: plan_name(alloc, program)?,
        end: format!(in alloc; "{hyper}")?,
    })
}
