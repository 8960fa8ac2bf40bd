//! Whether one processor serves a plan for ever, by the load and by one horizon.

ghost use Rattle.std.specs.Prelude.{◌≡◌, ◌<◌, ◌^◌, length, IfOk, IfErr};
ghost use Rattle.prl_plan.specs.Jobs.{task_at};
ghost use Rattle.prl_forever.specs.Answers.{IsAnswer, IsAnswerFault};
ghost use Rattle.prl_forever.specs.Forever.{load_of, IsLatestStart};

use crate::laws::served_for_ever;
use prl_base::{Limit, TaskNo};
use prl_edf::{Verdict, analyse};
use prl_overlaps::wcet_of;
use prl_plan::{Horizon, Plan, plan_is_one};
use prl_tables::classes;
use std::alloc::Global;

/// What is found.
#[derive(Clone, Copy)]
pub enum ForEver {
    /// One processor serves the jobs of each horizon.
    Served,
    /// The jobs of a hyperperiod cost this many ticks, which is more than it has.
    Heavy(u64),
    /// This interval is overloaded.
    Overload { from: u64, to: u64, demand: u64 },
}

/// Why nothing is found.
#[derive(Clone, Copy)]
pub enum ForEverFault {
    /// The horizon has too many jobs or events.
    Limit(Limit),
    Memory,
}

/// How many ticks the jobs of a hyperperiod cost.
pub fn load_of(plan: &Plan) -> u64
    ensures { result ≡ load_of plan.now }
{
    plan_is_one(plan);
    let mut load = 0;
    for i in 0..plan.graph().tasks.len() {
        let task = TaskNo(i as u32);
        load += classes(plan, task) * u64::from(wcet_of(plan, task));
    }
    load
}

/// When a task starts.
fn start_of(plan: &Plan, i: TaskNo) -> u64
    requires { i.0 < length plan.now.graph.tasks }
    ensures { result ≡ (task_at plan.now.graph i.0).clock.start }
{
    plan.graph().tasks.as_slice()[i.0 as usize].clock.start
}

/// The greatest start of a task.
fn latest_start(plan: &Plan) -> u64
    ensures start { IsLatestStart plan.now result }
    ensures small { result < 2 ^ 31 }
{
    plan_is_one(plan);
    let mut start = 0;
    for i in 0..plan.graph().tasks.len() {
        start = start_of(plan, TaskNo(i as u32)).max(start);
    }
    start
}

/// Whether one processor serves a plan for ever, each job with its WCET: by its load, and by the horizon
/// up to two hyperperiods after all tasks have started.
pub fn serves_for_ever(alloc: Global, plan: &Plan) -> Result<ForEver, ForEverFault>
    ensures found { IfOk result (IsAnswer plan.now) }
    ensures cause { IfErr result (IsAnswerFault plan.now) }
{
    plan_is_one(plan);
    served_for_ever();
    let load = load_of(plan);
    let hyper = plan.graph().hyper;
    if load > hyper {
        return Ok(ForEver::Heavy(load));
    }
    let until = latest_start(plan) + 2 * hyper;
    match Horizon::new(plan, until as u32) {
        Err(limit) => Err(ForEverFault::Limit(limit)),
        Ok(horizon) => match analyse(alloc, plan, horizon) {
            Ok(Verdict::Run(_)) => Ok(ForEver::Served),
            Ok(Verdict::Overload { from, to, demand }) => {
                Ok(ForEver::Overload { from, to, demand })
            }
            Err(_) => Err(ForEverFault::Memory),
        },
    }
}
