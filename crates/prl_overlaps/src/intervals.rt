//! The demand of intervals, by their beginnings.

ghost use Rattle.std.specs.Prelude.{◌≡◌, ◌+◌, ◌*◌, ◌<◌, ◌≤◌, ◌^◌, ℕ, length, slice_index, IfOk};
ghost use Rattle.prl_plan.specs.Vocabulary.{IsHorizon, constants_of, sum_below, task_at, IsPlan};
ghost use Rattle.prl_overlaps.specs.Demand.{demand, wcets_of, IsGreatest, IsOverloaded};
ghost use Rattle.prl_overlaps.specs.code.Starts.{cost_at, starts_at};

use prl_base::TaskNo;
use prl_plan::{Horizon, Plan, look_ups_fit, plan_facts, plan_is_one};
use std::alloc::{AllocError, Global};

/// The WCET of a task, in ticks.
pub fn wcet_of(plan: &Plan, i: TaskNo) -> u32
    requires { i.0 < length plan.now.graph.tasks }
    ensures wcet { result ≡ (task_at plan.now.graph i.0).wcet }
    ensures plan { IsPlan plan.now }
{
    plan.graph().tasks.as_slice()[i.0 as usize].wcet
}

/// Adds the WCETs of a task's jobs that are due by `to`, each at its release.
fn add_task(starts: &mut [u64], plan: &Plan, horizon: Horizon, i: TaskNo, to: u64)
    requires horizon { IsHorizon plan.now horizon }
    requires task { i.0 < length plan.now.graph.tasks }
    requires length { length starts.old ≡ to + 1 }
    requires room { (a : ℕ) → a ≤ to → slice_index starts.old a + 2 ^ 31 * (constants_of plan.now horizon).jobs i.0 < 2 ^ 62 }
    ensures { (a : ℕ) → a ≤ to → slice_index starts.new a
        ≡ slice_index starts.old a + sum_below (cost_at (constants_of plan.now horizon) (wcets_of plan.now) to a i.0) ((constants_of plan.now horizon).jobs i.0) }
{
    plan_facts(plan, horizon);
    look_ups_fit();
    let cost = u64::from(wcet_of(plan, i));
    for n in 0..horizon.jobs_of(plan, i) {
        let release = plan.release(i, n);
        if plan.deadline(i, n) <= to {
            starts[release as usize] += cost;
        }
    }
}

/// By tick up to `to`, what the jobs cost together that are released then and due by `to`.
fn starts(alloc: Global, plan: &Plan, horizon: Horizon, to: u64) -> Result<Vec<u64>, AllocError>
    requires horizon { IsHorizon plan.now horizon }
    requires to { to ≤ horizon.end }
    ensures length { IfOk result (λ starts. length starts.items ≡ to + 1) }
    ensures sums { IfOk result (λ starts. (a : ℕ) → a ≤ to → slice_index starts.items a ≡ starts_at (constants_of plan.now horizon) (wcets_of plan.now) to a) }
{
    plan_facts(plan, horizon);
    plan_is_one(plan);
    let mut starts = vec![in alloc; 0; to as usize + 1]?;
    for i in 0..plan.graph().tasks.len() {
        add_task(&mut starts, plan, horizon, TaskNo(i as u32), to);
    }
    Ok(starts)
}

/// The greatest beginning of an overloaded interval that ends at `to`, with its demand.
fn greatest(starts: &[u64], to: u64, plan: &Plan, horizon: Horizon) -> (u64, u64)
    requires horizon { IsHorizon plan.now horizon }
    requires starts { (a : ℕ) → a ≤ to → slice_index starts.now a ≡ starts_at (constants_of plan.now horizon) (wcets_of plan.now) to a }
    requires length { length starts.now ≡ to + 1 }
    requires some { (a : ℕ) × (a ≤ to) × IsOverloaded (constants_of plan.now horizon) (wcets_of plan.now) a to }
    requires small { demand (constants_of plan.now horizon) (wcets_of plan.now) 0 to < 2 ^ 62 }
    ensures { IsGreatest (constants_of plan.now horizon) (wcets_of plan.now) to result.0 result.1 }
{
    plan_facts(plan, horizon);
    let mut demand = 0;
    for back in 0..starts.len() {
        let from = to - back as u64;
        demand += starts[from as usize];
        if demand > back as u64 {
            return (from, demand);
        }
    }
    unreachable!()
}

/// Of the overloaded intervals that end at `to`, the one that begins last: its beginning, and its
/// demand.
pub fn last_overload(
    alloc: Global,
    plan: &Plan,
    horizon: Horizon,
    to: u64,
) -> Result<(u64, u64), AllocError>
    requires horizon { IsHorizon plan.now horizon }
    requires to { to ≤ horizon.end }
    requires some { (a : ℕ) × (a ≤ to) × IsOverloaded (constants_of plan.now horizon) (wcets_of plan.now) a to }
    requires small { demand (constants_of plan.now horizon) (wcets_of plan.now) 0 to < 2 ^ 62 }
    ensures { IfOk result (λ told. IsGreatest (constants_of plan.now horizon) (wcets_of plan.now) to told.0 told.1) }
{
    let starts = starts(alloc, plan, horizon, to)?;
    Ok(greatest(&starts, to, plan, horizon))
}
