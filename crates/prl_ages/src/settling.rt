//! From which hyperperiod on the ages of an actuator come again exactly.

ghost use Rattle.std.specs.Prelude.{◌≡◌, ◌+◌, ◌*◌, ◌<◌, ◌≤◌, ℕ, length, slice_index, IfOk};
ghost use Rattle.prl_plan.specs.declared.limits.TheConstants.{MAX_PREFIX};
ghost use Rattle.prl_plan.specs.Vocabulary.{sum_below};
ghost use Rattle.prl_ages.specs.code.Windows.{AreTurns, IsSettledAfter};

use crate::lags::turns_of_constants;
use crate::needs::consumer_of;
use prl_base::EdgeNo;
use prl_plan::Plan;
use std::alloc::{AllocError, Global};

/// The turns of the tasks with those that the constants on one edge more take.
fn take_turns(plan: &Plan, e: EdgeNo, turns: &mut [u64])
    requires edge { e.0 < length plan.now.graph.edges }
    requires are { AreTurns plan.now.graph e.0 turns.old }
    ensures { AreTurns plan.now.graph (e.0 + 1) turns.new }
{
    let to = consumer_of(plan, e);
    let here = turns_of_constants(plan, e);
    turns[to.0 as usize] = here.max(turns[to.0 as usize]);
}

/// By task, within how many hyperperiods it has read the constants that come first on all its edges.
fn turns_of_tasks(alloc: Global, plan: &Plan) -> Result<Vec<u64>, AllocError>
    ensures { IfOk result (λ turns. AreTurns plan.now.graph (length plan.now.graph.edges) turns.items) }
{
    let mut turns = vec![in alloc; 0; plan.graph().tasks.len()]?;
    for e in 0..plan.graph().edges.len() {
        take_turns(plan, EdgeNo(e as u32), turns.as_mut_slice());
    }
    Ok(turns)
}

/// The sum of the turns of all tasks.
fn sum_of(plan: &Plan, turns: &[u64]) -> u64
    requires { AreTurns plan.now.graph (length plan.now.graph.edges) turns.now }
    ensures exact { result ≡ sum_below (λ t. slice_index turns.now t) (length plan.now.graph.tasks) }
    ensures few { result ≤ length plan.now.graph.tasks * MAX_PREFIX }
{
    let _graph = plan.graph();
    let mut sum = 0;
    for t in 0..plan.graph().tasks.len() {
        sum += turns[t];
    }
    sum
}

/// Within how many hyperperiods all ages have settled.
pub(crate) fn settled_after(alloc: Global, plan: &Plan) -> Result<u64, AllocError>
    ensures settled { IfOk result (IsSettledAfter plan.now.graph) }
    ensures few { IfOk result (λ turns. turns ≤ length plan.now.graph.tasks * MAX_PREFIX) }
{
    let turns = turns_of_tasks(alloc, plan)?;
    Ok(sum_of(plan, &turns))
}
