//! What is told of an overload, and of a hyperperiod that asks for more than it has.

ghost use Rattle.std.specs.Prelude.{◌≡◌, ◌<◌, ◌^◌, ℕ, IfOk, length};
ghost use Rattle.prl_overloads.specs.Overloads.{IsOverload};
ghost use Rattle.prl_overloads.specs.Shares.{cost_of, cost_of_all};
ghost use Rattle.prl_tablefaults.specs.LoadTexts.{AreClasses, IsOverloadTold, IsUnsteadyTold, overload_text, unsteady_text};

use prl_base::TaskNo;
use prl_forever::load_of;
use prl_overloads::{
    Overload, heaviest, overload_of, push_each, push_load, push_shared, push_within,
};
use prl_plan::{Plan, plan_is_one};
use prl_tables::classes;
use std::alloc::{AllocError, Global};

/// By task, how many of its jobs a hyperperiod has.
fn all_classes(alloc: Global, plan: &Plan) -> Result<Vec<u64>, AllocError>
    ensures { IfOk result (λ counts. AreClasses plan.now.graph counts.items) }
{
    let mut counts = Vec::new(alloc);
    for i in 0..plan.graph().tasks.len() {
        counts.push(classes(plan, TaskNo(i as u32)))?;
    }
    Ok(counts)
}

/// What is told of an overload whose jobs are these.
fn overload_text(
    alloc: Global,
    plan: &Plan,
    told: Overload,
    counts: &[u64],
    heaviest: TaskNo,
) -> Result<Vec<u8>, AllocError>
    requires { (i : ℕ) → i < length plan.now.graph.tasks → cost_of plan.now.graph counts.now i < 2 ^ 64 }
    ensures { IfOk result (λ text. text.items ≡ overload_text plan.now told.from told.to told.demand counts.now heaviest.0) }
{
    let mut text = Vec::new(alloc);
    let has = told.to.saturating_sub(told.from);
    push_within(&mut text, told.from, told.to)?;
    push_shared(&mut text, plan.graph(), counts, heaviest, told.demand, has)?;
    push_load(&mut text, load_of(plan), plan.graph().hyper)?;
    Ok(text)
}

/// What is told of an overload: the jobs that have to run in the interval, by task, and the load of the hyperperiod. Nothing where
/// no horizon of the plan has it.
#[tactic(auto, using(crate::proofs::LoadParts::overload_is, crate::proofs::LoadParts::no_overload, crate::proofs::LoadParts::overload_fits))]
pub fn overload_told(alloc: Global, plan: &Plan, told: Overload) -> Result<Vec<u8>, AllocError>
    ensures { IfOk result (λ text. IsOverloadTold plan.now told.from told.to told.demand text.items) }
{
    let Some(counts) = overload_of(alloc, plan, told)? else {
        return Ok(Vec::new(alloc));
    };
    match heaviest(plan.graph(), &counts) {
        None => Ok(Vec::new(alloc)),
        Some(task) => overload_text(alloc, plan, told, &counts, task),
    }
}

/// What is told of a hyperperiod whose jobs are these.
fn unsteady_text(
    alloc: Global,
    plan: &Plan,
    counts: &[u64],
    heaviest: TaskNo,
    load: u64,
) -> Result<Vec<u8>, AllocError>
    requires { (i : ℕ) → i < length plan.now.graph.tasks → cost_of plan.now.graph counts.now i < 2 ^ 64 }
    ensures { IfOk result (λ text. text.items ≡ unsteady_text plan.now counts.now heaviest.0 load) }
{
    let mut text = Vec::new(alloc);
    let hyper = plan.graph().hyper;
    push_each(&mut text, hyper)?;
    push_shared(&mut text, plan.graph(), counts, heaviest, load, hyper)?;
    Ok(text)
}

/// What is told of a plan whose hyperperiod asks for more ticks than it has: its jobs by task. Nothing where it does not.
#[tactic(auto, using(crate::proofs::LoadParts::unsteady_is, crate::proofs::LoadParts::no_unsteady, crate::proofs::LoadParts::load_fits))]
pub fn unsteady_told(alloc: Global, plan: &Plan) -> Result<Vec<u8>, AllocError>
    ensures { IfOk result (λ text. IsUnsteadyTold plan.now text.items) }
{
    let load = load_of(plan);
    if load <= plan.graph().hyper {
        return Ok(Vec::new(alloc));
    }
    let counts = all_classes(alloc, plan)?;
    match heaviest(plan.graph(), &counts) {
        None => Ok(Vec::new(alloc)),
        Some(task) => unsteady_text(alloc, plan, &counts, task, load),
    }
}
