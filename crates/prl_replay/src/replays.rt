//! A schedule's text, done event by event on the machine of a plan.

ghost use Rattle.std.specs.Prelude.{◌≡◌, ◌≢◌, ◌++◌, ◌∷◌, ◌<◌, ◌^◌, [], ℕ, List, Ok, All, IfOk, OnOk, MatchResult, filter, length};
ghost use Rattle.std.specs.Vec.{vec_items};
ghost use Rattle.prl_flow.specs.Actuators.{AreUpTo};
ghost use Rattle.prl_plan.specs.Vocabulary.{HasPlanFacts, IsHorizon, Placement, constants_on};
ghost use Rattle.prl_plan.specs.declared.events.Event.{Event as AnyEvent};
ghost use Rattle.prl_values.specs.Fitting.{HaveTaskBodies, HaveTypedRows};
ghost use Rattle.prl_track.specs.Machine.{IsOfPlan};
ghost use Rattle.prl_core.specs.Cores.{opened, opened_on};
ghost use Rattle.prl_schedules.specs.Vocabulary.{ReadsOfTasks, task_names, schedule_of};
ghost use Rattle.prl_replay.specs.declared.faults.ReplayFault.TheVariants as faults;
ghost use Rattle.prl_replay.specs.Replays.{is_read, after_all, IsReplay, FailsWith, IsTrace, IsReplayFault};

use crate::ReplayFault;
use crate::flows::flows_of;
use prl_base::Seq;
use prl_body::Bodies;
use prl_core::{Core, Seen, Unfinished};
use prl_flow::{OutFlow, Sensors};
use prl_plan::{
    Event, Horizon, Placed, Plan, gated_list_keeps_halves, horizon_jobs_are_counted,
    legal_list_is_gated, plan_facts, plan_is_one,
};
use prl_schedules::read_schedule;
use std::alloc::{AllocError, Global};

/// What a whole run tells.
pub struct Trace {
    /// What its jobs read, instances and constants, in the order of the events.
    pub reads: Seq<Seen>,
    /// The flows of the actuators up to the horizon's date, in the order of main's outputs.
    pub outputs: Seq<OutFlow>,
}

/// Whether a job read something.
fn is_read(seen: &Seen) -> bool
    ensures { result ≡ is_read seen.now }
{
    match seen {
        Seen::Read { .. } => true,
        Seen::ReadConst { .. } => true,
        Seen::Ticked(_) => false,
        Seen::Half { .. } => false,
        Seen::Wrote { .. } => false,
        Seen::Ended { .. } => false,
    }
}

/// Keeps what was seen, where it is a read.
fn keep_read(reads: &mut Vec<Seen>, seen: Seen) -> Result<(), AllocError>
    ensures { OnOk result (reads.new.items ≡ reads.old.items ++ filter is_read (seen ∷ [])) }
{
    if is_read(&seen) {
        reads.push(seen)?;
    }
    Ok(())
}

/// Does the events in order, from the state of the machine on, and tells what their jobs read.
fn reads_of(alloc: Global, core: &mut Core<'_>, events: &[Event]) -> Result<Vec<Seen>, ReplayFault>
    requires { All (IsOfPlan core.old.plan) events.now }
    ensures run { MatchResult result (λ reads. IsReplay core.entry.now events.now reads.items) (FailsWith core.entry.now events.now) }
    ensures state { IfOk result (λ _. core.exit.now ≡ after_all core.entry.now events.now) }
{
    let mut reads = Vec::new(alloc);
    for (i, event) in events.iter().enumerate() {
        match core.step(*event) {
            Ok(seen) => keep_read(&mut reads, seen)?,
            Err(illegal) => {
                return Err(ReplayFault::Illegal {
                    line: i as u64 + 1,
                    rule: illegal.rule,
                });
            }
        }
    }
    match core.finished() {
        Ok(()) => Ok(reads),
        Err(Unfinished { task, job }) => Err(ReplayFault::Unfinished { task, job }),
    }
}

/// What a whole list of events tells in a horizon of the plan, where each task runs on its processor and jobs are released by
/// these windows. Refused are, in this order: the first event that breaks a rule, and the first job that has not ended.
pub fn run_list(
    alloc: Global,
    plan: &Plan,
    placed: Placed<'_>,
    bodies: &Bodies,
    sensors: &Sensors,
    horizon: Horizon,
    events: &[Event],
) -> Result<Trace, ReplayFault>
    requires horizon { IsHorizon plan.now horizon }
    requires windows { length placed.windows ≡ length plan.now.graph.tasks }
    requires facts { HasPlanFacts (constants_on plan.now placed horizon) }
    requires bodies { HaveTaskBodies plan.now.graph bodies.now }
    requires rows { HaveTypedRows plan.now.graph horizon.until sensors.now }
    requires events { All (IsOfPlan plan.now) events.now }
    ensures run { MatchResult result
        (λ trace. IsTrace (opened_on plan.now placed.entry bodies.now sensors.now horizon) events.now trace.reads trace.outputs)
        (FailsWith (opened_on plan.now placed.entry bodies.now sensors.now horizon) events.now) }
    ensures reads { IfOk result (λ trace. All (ReadsOfTasks (length plan.now.graph.tasks)) trace.reads) }
    ensures outputs { IfOk result (λ trace. AreUpTo horizon.until trace.outputs) }
{
    plan_is_one(plan);
    legal_list_is_gated();
    gated_list_keeps_halves();
    horizon_jobs_are_counted();
    let mut core = Core::on(alloc, plan, placed, bodies, sensors, horizon)?;
    let reads = reads_of(alloc, &mut core, events)?;
    let outputs = flows_of(alloc, plan, &core)?;
    Ok(Trace {
        reads: Seq::new(reads),
        outputs: Seq::new(outputs),
    })
}

/// The replay of a schedule's text in a horizon of the plan: what the jobs read, in the order of the events, and the flows of
/// the actuators. Each node task has a body that fits it, and each sensor a row of its type for each job of the horizon.
/// Refused are, in this order: a line that is no event, the first event that breaks a rule, and the first job that has not
/// ended.
pub fn replay(
    alloc: Global,
    plan: &Plan,
    bodies: &Bodies,
    sensors: &Sensors,
    horizon: Horizon,
    text: &[u8],
) -> Result<Trace, ReplayFault>
    requires horizon { IsHorizon plan.now horizon }
    requires bodies { HaveTaskBodies plan.now.graph bodies.now }
    requires rows { HaveTypedRows plan.now.graph horizon.until sensors.now }
    ensures run { MatchResult result
        (λ trace. (events : List AnyEvent) × (schedule_of (task_names plan.now) text.now ≡ Ok events)
        × IsTrace (opened plan.now bodies.now sensors.now horizon) events trace.reads trace.outputs)
        (λ fault. fault ≢ faults.Memory → IsReplayFault (opened plan.now bodies.now sensors.now horizon) text.now fault) }
    ensures reads { IfOk result (λ trace. All (ReadsOfTasks (length plan.now.graph.tasks)) trace.reads) }
    ensures outputs { IfOk result (λ trace. AreUpTo horizon.until trace.outputs) }
{
    let events = read_schedule(alloc, text, plan)?;
    plan_is_one(plan);
    plan_facts(plan, horizon);
    run_list(
        alloc,
        plan,
        Placed::alone(plan),
        bodies,
        sensors,
        horizon,
        &events,
    )
}

impl Drop for Trace {
    fn drop(self) {
        let Trace { reads, outputs } = self;
        drop(reads);
        drop(outputs);
    }
}
