//! Tasks, classes and windows of a plan.

ghost use Rattle.std.specs.Prelude.{◌≡◌, ◌<◌, IfSome, length};
ghost use Rattle.prl_plan.specs.Vocabulary.{ComesFrom, deadline_at, edge_at, operand_of, release_at};
ghost use Rattle.prl_plan.specs.declared.walks.Operand.TheVariants as operands;
ghost use Rattle.prl_tables.specs.Tables.{classes};
ghost use Rattle.prl_tablefaults.specs.EntryTexts.{name_of};

use prl_base::{EdgeNo, TaskNo};
use prl_plan::{Operand, Plan, Producer, look_ups_fit, plan_is_one};
use prl_tables::classes_are_early;

/// The name of a task; no bytes where it is not there.
pub(crate) fn name_of(plan: &Plan, i: TaskNo) -> &[u8]
    ensures { result.now ≡ name_of plan.now i.0 }
{
    match plan.graph().tasks.as_slice().get(i.0 as usize) {
        None => &[],
        Some(task) => task.name.bytes(),
    }
}

/// How many tasks a plan has.
pub(crate) fn tasks_of(plan: &Plan) -> u64
    ensures { result ≡ length plan.now.graph.tasks }
{
    plan.graph().tasks.len() as u64
}

/// The hyperperiod of a plan.
pub(crate) fn hyper_of(plan: &Plan) -> u64
    ensures { result ≡ plan.now.graph.hyper }
{
    plan.graph().hyper
}

/// The window of a job of the first hyperperiod.
pub(crate) fn window_of(plan: &Plan, i: TaskNo, c: u64) -> (u64, u64)
    requires task { i.0 < length plan.now.graph.tasks }
    requires class { c < classes plan.now.graph i.0 }
    ensures release { result.0 ≡ release_at plan.now i.0 c }
    ensures deadline { result.1 ≡ deadline_at plan.now i.0 c }
{
    plan.graph();
    classes_are_early();
    look_ups_fit();
    (plan.release(i, c), plan.deadline(i, c))
}

/// The task that an edge goes to.
pub(crate) fn consumer_of(plan: &Plan, e: EdgeNo) -> TaskNo
    requires { e.0 < length plan.now.graph.edges }
    ensures { result ≡ (edge_at plan.now.graph e.0).to }
{
    plan.graph().edges.as_slice()[e.0 as usize].to
}

/// The task that an edge comes from; None where it comes from a constant.
pub(crate) fn producer_of(plan: &Plan, e: EdgeNo) -> Option<TaskNo>
    requires { e.0 < length plan.now.graph.edges }
    ensures { IfSome result (λ i. ComesFrom (edge_at plan.now.graph e.0).from i.0) }
{
    match plan.graph().edges.as_slice()[e.0 as usize].from {
        Producer::Port { task, .. } => Some(task),
        Producer::Constant(_) => None,
    }
}

/// The number of the producer's job whose instance job `c` of the consumer reads on an edge; None where it reads a constant.
pub(crate) fn waits_for(plan: &Plan, e: EdgeNo, c: u64) -> Option<u64>
    requires edge { e.0 < length plan.now.graph.edges }
    requires class { c < classes plan.now.graph (edge_at plan.now.graph e.0).to.0 }
    ensures { IfSome result (λ m. operand_of (edge_at plan.now.graph e.0) c ≡ operands.From m) }
{
    plan_is_one(plan);
    classes_are_early();
    look_ups_fit();
    match plan.operand(e, c) {
        Operand::From(m) => Some(m),
        Operand::Const(_) => None,
    }
}
