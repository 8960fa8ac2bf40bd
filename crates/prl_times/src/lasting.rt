//! The rows of what holds for ever.

ghost use Rattle.std.specs.Prelude.{◌≡◌, ◌<◌, ◌^◌, ◌++◌, ◌∷◌, ℕ, List, [], All, IfErr, OnOk, cond, length, map, nat_lt};
ghost use Rattle.std.specs.String.{string_bytes};
ghost use Rattle.prl_plan.specs.Vocabulary.{IsHorizon, PlanView};
ghost use Rattle.prl_forever.specs.Answers.{IsAnswer, IsAnswerFault};
ghost use Rattle.prl_forever.specs.Forever.{ServesForEver};
ghost use Rattle.prl_forever.specs.declared.deciding.ForEver.TheVariants as answers;
ghost use Rattle.prl_responses.specs.Responses.{times_at};
ghost use Rattle.prl_steady.specs.Shares.{sum_within, told_until};
ghost use Rattle.prl_steady.specs.Times.{IsTimesFault, IsTimesForEver};
ghost use Rattle.prl_times.specs.Refused.{IsEverLong, IsLongWhere, IsRefusedOf};
ghost use Rattle.prl_times.specs.Rows.{about, each_to, heavy, hyper_share, lasting_overload, lasting_task, served, share_within, withins_to, IsRow, Subject};
ghost use Rattle.prl_times.specs.Told.{AreLasting, IsEverAsked};

use crate::options::has;
use prl_base::TaskNo;
use prl_forever::{ForEver, ForEverFault, serves_for_ever};
use prl_io::{Fault, Stop};
use prl_plan::{Horizon, Plan, plan_is_one};
use prl_responses::Times;
use prl_steady::{TimesFault, horizon_told, share_of_hyper, share_within, times_for_ever};
use prl_timetext::{Lasting, Row};
use std::alloc::{AllocError, Global};

/// Why nothing is told for ever.
const TOO_LONG: &str = "too many jobs or events up to the tick by which it is told for ever";

/// Appends the rows of how soon the jobs of the tasks end for ever.
fn push_times(rows: &mut Vec<Row>, plan: &Plan, times: &[Option<Times>]) -> Result<(), AllocError>
    requires long { length times.now ≡ length plan.now.graph.tasks }
    requires times { (i : ℕ) → i < length plan.now.graph.tasks → IsTimesForEver plan.now i (times_at times.now i) }
    ensures about { OnOk result (map about rows.new.items ≡ map about rows.old.items ++ each_to lasting_task (length plan.now.graph.tasks)) }
    ensures rows { OnOk result ((until : ℕ) → All (IsRow plan.now [] until) rows.old.items → All (IsRow plan.now [] until) rows.new.items) }
{
    plan_is_one(plan);
    for i in 0..plan.graph().tasks.len() {
        rows.push(Row::ForEver(Lasting::Task {
            task: TaskNo(i as u32),
            times: times[i],
        }))?;
    }
    Ok(())
}

/// Appends the rows of the tasks' jobs in a hyperperiod.
fn push_hypers(rows: &mut Vec<Row>, plan: &Plan) -> Result<(), AllocError>
    ensures about { OnOk result (map about rows.new.items ≡ map about rows.old.items ++ each_to hyper_share (length plan.now.graph.tasks)) }
    ensures rows { OnOk result ((until : ℕ) → All (IsRow plan.now [] until) rows.old.items → All (IsRow plan.now [] until) rows.new.items) }
{
    plan_is_one(plan);
    for i in 0..plan.graph().tasks.len() {
        let task = TaskNo(i as u32);
        rows.push(Row::ForEver(Lasting::Hyper {
            task,
            share: share_of_hyper(plan, task),
        }))?;
    }
    Ok(())
}

/// Appends the row of a task's jobs that have to run within these ticks, if there are any.
fn push_within(
    rows: &mut Vec<Row>,
    plan: &Plan,
    horizon: Horizon,
    task: TaskNo,
    from: u64,
    to: u64,
) -> Result<(), AllocError>
    requires horizon { IsHorizon plan.now horizon }
    requires until { horizon.until ≡ told_until plan.now }
    requires task { task.0 < length plan.now.graph.tasks }
    ensures about { OnOk result (map about rows.new.items ≡ map about rows.old.items
        ++ cond (nat_lt 0 (sum_within plan.now (λ i n. 1) (told_until plan.now) from to task.0)) (share_within from to task.0 ∷ []) []) }
    ensures rows { OnOk result ((until : ℕ) → All (IsRow plan.now [] until) rows.old.items → All (IsRow plan.now [] until) rows.new.items) }
{
    let share = share_within(plan, horizon, task, from, to);
    if share.jobs == 0 {
        return Ok(());
    }
    rows.push(Row::ForEver(Lasting::Within {
        from,
        to,
        task,
        share,
    }))?;
    Ok(())
}

/// Appends the rows of the tasks' jobs that have to run within these ticks.
fn push_withins(
    rows: &mut Vec<Row>,
    plan: &Plan,
    horizon: Horizon,
    from: u64,
    to: u64,
) -> Result<(), AllocError>
    requires horizon { IsHorizon plan.now horizon }
    requires until { horizon.until ≡ told_until plan.now }
    ensures about { OnOk result (map about rows.new.items ≡ map about rows.old.items ++ withins_to plan.now from to (length plan.now.graph.tasks)) }
    ensures rows { OnOk result ((until : ℕ) → All (IsRow plan.now [] until) rows.old.items → All (IsRow plan.now [] until) rows.new.items) }
{
    plan_is_one(plan);
    for i in 0..plan.graph().tasks.len() {
        push_within(rows, plan, horizon, TaskNo(i as u32), from, to)?;
    }
    Ok(())
}

/// Says why the times for ever are not told.
fn no_times(fault: TimesFault) -> Fault
    ensures { (plan : PlanView) → ServesForEver plan → IsTimesFault plan fault → IsLongWhere (IsEverLong plan) result }
{
    match fault {
        TimesFault::TooFar => Fault::Stop(Stop::Refused(TOO_LONG)),
        TimesFault::Limit(_) => Fault::Stop(Stop::Refused(TOO_LONG)),
        TimesFault::Memory => Fault::Stop(Stop::Memory),
    }
}

/// Says why it is not told whether one processor serves for ever.
fn no_answer(fault: ForEverFault) -> Fault
    ensures { (plan : PlanView) → IsAnswerFault plan fault → IsLongWhere (IsEverLong plan) result }
{
    match fault {
        ForEverFault::Limit(_) => Fault::Stop(Stop::Refused(TOO_LONG)),
        ForEverFault::Memory => Fault::Stop(Stop::Memory),
    }
}

/// Appends the rows of a plan that is served for ever, of which these are the times.
fn push_steady(rows: &mut Vec<Row>, plan: &Plan, times: &[Option<Times>]) -> Result<(), AllocError>
    requires serves { ServesForEver plan.now }
    requires long { length times.now ≡ length plan.now.graph.tasks }
    requires times { (i : ℕ) → i < length plan.now.graph.tasks → IsTimesForEver plan.now i (times_at times.now i) }
    ensures about { OnOk result (map about rows.new.items ≡ map about rows.old.items ++ served ∷ each_to lasting_task (length plan.now.graph.tasks)) }
    ensures rows { OnOk result ((until : ℕ) → All (IsRow plan.now [] until) rows.old.items → All (IsRow plan.now [] until) rows.new.items) }
{
    rows.push(Row::ForEver(Lasting::Served))?;
    push_times(rows, plan, times)?;
    Ok(())
}

/// Appends the rows of a plan that is served for ever.
fn push_served(alloc: Global, rows: &mut Vec<Row>, plan: &Plan) -> Result<(), Fault>
    requires { ServesForEver plan.now }
    ensures about { OnOk result (map about rows.new.items ≡ map about rows.old.items ++ served ∷ each_to lasting_task (length plan.now.graph.tasks)) }
    ensures rows { OnOk result ((until : ℕ) → All (IsRow plan.now [] until) rows.old.items → All (IsRow plan.now [] until) rows.new.items) }
    ensures refused { IfErr result (IsLongWhere (IsEverLong plan.now)) }
{
    match times_for_ever(alloc, plan) {
        Ok(times) => Ok(push_steady(rows, plan, &times)?),
        Err(fault) => Err(no_times(fault)),
    }
}

/// Appends the rows of a load that is too much.
fn push_heavy(rows: &mut Vec<Row>, plan: &Plan, load: u64) -> Result<(), AllocError>
    requires { IsAnswer plan.now (answers.Heavy load) }
    ensures about { OnOk result (map about rows.new.items ≡ map about rows.old.items ++ heavy ∷ each_to hyper_share (length plan.now.graph.tasks)) }
    ensures rows { OnOk result ((until : ℕ) → All (IsRow plan.now [] until) rows.old.items → All (IsRow plan.now [] until) rows.new.items) }
{
    let hyper = plan.graph().hyper;
    rows.push(Row::ForEver(Lasting::Heavy { load, hyper }))?;
    push_hypers(rows, plan)?;
    Ok(())
}

/// Appends the rows of an overload.
fn push_overload(
    rows: &mut Vec<Row>,
    plan: &Plan,
    from: u64,
    to: u64,
    demand: u64,
) -> Result<(), AllocError>
    requires { IsAnswer plan.now (answers.Overload from to demand) }
    ensures about { OnOk result (map about rows.new.items ≡ map about rows.old.items ++ lasting_overload from to ∷ withins_to plan.now from to (length plan.now.graph.tasks)) }
    ensures rows { OnOk result ((until : ℕ) → All (IsRow plan.now [] until) rows.old.items → All (IsRow plan.now [] until) rows.new.items) }
{
    rows.push(Row::ForEver(Lasting::Overload { from, to, demand }))?;
    push_withins(rows, plan, horizon_told(plan), from, to)?;
    Ok(())
}

/// Appends the rows of what is found for ever.
fn push_found(alloc: Global, rows: &mut Vec<Row>, plan: &Plan, found: ForEver) -> Result<(), Fault>
    requires { IsAnswer plan.now found }
    ensures about { OnOk result ((ever : List Subject) × AreLasting plan.now ever × (map about rows.new.items ≡ map about rows.old.items ++ ever)) }
    ensures rows { OnOk result ((until : ℕ) → All (IsRow plan.now [] until) rows.old.items → All (IsRow plan.now [] until) rows.new.items) }
    ensures refused { IfErr result (IsLongWhere (IsEverLong plan.now)) }
{
    match found {
        ForEver::Served => push_served(alloc, rows, plan),
        ForEver::Heavy(load) => Ok(push_heavy(rows, plan, load)?),
        ForEver::Overload { from, to, demand } => Ok(push_overload(rows, plan, from, to, demand)?),
    }
}

/// Appends the rows of what holds for ever, if the words ask for it.
pub(crate) fn push_asked(
    alloc: Global,
    rows: &mut Vec<Row>,
    words: &[String],
    plan: &Plan,
) -> Result<(), Fault>
    ensures about { OnOk result ((ever : List Subject) × IsEverAsked plan.now (map string_bytes words.now) ever × (map about rows.new.items ≡ map about rows.old.items ++ ever)) }
    ensures rows { OnOk result ((until : ℕ) → All (IsRow plan.now [] until) rows.old.items → All (IsRow plan.now [] until) rows.new.items) }
    ensures refused { IfErr result (IsRefusedOf plan.now (map string_bytes words.now)) }
{
    if !has(b"--for-ever", words) {
        return Ok(());
    }
    match serves_for_ever(alloc, plan) {
        Ok(found) => push_found(alloc, rows, plan, found),
        Err(fault) => Err(no_answer(fault)),
    }
}
