//! Tables that are made of the plain run by earliest deadline first.

ghost use Rattle.std.specs.Prelude.{◌≡◌, ◌+◌, ◌*◌, ◌/◌, ◌<◌, ◌≤◌, ◌^◌, ℕ, Option, None, length, IfErr, IfOk, IfSome, OnOk};
ghost use Rattle.std.specs.Bool.{OnTrue, OnFalse};
ghost use Rattle.std.specs.List.Sorted.{IsNonDecreasingBy, IsPermutation};
ghost use Rattle.prl_base.specs.declared.numbers.TaskNo.{TaskNo as AnyTask};
ghost use Rattle.prl_edf.specs.Pieces.{run_of};
ghost use Rattle.prl_table.specs.declared.making.MakeFault.TheVariants as faults;
ghost use Rattle.prl_table.specs.Made.{cut_from, cut_to, greatest_start, is_same, later, lengthened, run_until, unit_at, with_tick, IsSteadyRun};
ghost use Rattle.prl_table.specs.MakeFaults.{job_in, IsFirstUnsteady, IsLongRun, IsMade, IsMakeFault, IsUnsteadyAt};
ghost use Rattle.prl_tables.specs.Tables.{classes, IsGood};
ghost use Rattle.prl_table.specs.code.Ticks.{AreOfPlan, HasTicks, HaveAtMost};

use crate::laws::made_table_is_good;
use crate::ticks::{Tick, ticks_of};
use prl_base::{Limit, Seq, TaskNo};
use prl_edf::{Timed, Verdict, analyse};
use prl_plan::{Horizon, Plan, Task};
use prl_tables::{Entry, Table, classes, classes_are_early};
use std::alloc::{AllocError, Global};

/// Why no table is made of a plan.
#[derive(Clone, Copy)]
pub enum MakeFault {
    /// The run would go up to this tick, which is above 2147483647.
    TooFar(u64),
    /// The run would have too many jobs or events.
    Limit(Limit),
    /// One processor does not serve: the overloaded interval that the analysis tells.
    Overload {
        from: u64,
        to: u64,
        demand: u64,
    },
    /// The first tick of the hyperperiod that does not go to the job that the tick a hyperperiod
    /// later goes to, moved back by one, with what both go to.
    Unsteady {
        at: u64,
        first: Option<(TaskNo, u64)>,
        second: Option<(TaskNo, u64)>,
    },
    Memory,
}

/// The greatest start of a task, in ticks.
fn greatest_start(tasks: &[Task]) -> u64
    ensures { result ≡ greatest_start tasks.now }
{
    let mut greatest = 0;
    for back in 0..tasks.len() {
        greatest = tasks[tasks.len() - 1 - back].clock.start.max(greatest);
    }
    greatest
}

/// The first tick of the hyperperiod that is cut out.
fn cut_from(plan: &Plan) -> u64
    ensures tick { result ≡ cut_from plan.now }
    ensures small { result < 2 ^ 33 }
{
    let graph = plan.graph();
    let before = greatest_start(graph.tasks.as_slice()).div_ceil(graph.hyper);
    (1 + before) * graph.hyper
}

/// Whether a job is another one a hyperperiod later.
fn is_later_job(plan: &Plan, task: TaskNo, job: u64, other: TaskNo, next: u64) -> bool
    requires { task.0 < length plan.now.graph.tasks }
    ensures yes { OnTrue result ((task.0 ≡ other.0) × (job + classes plan.now.graph task.0 ≡ next)) }
    ensures no { OnFalse result (task.0 ≡ other.0 → job + classes plan.now.graph task.0 ≡ next → ⊥) }
{
    if task.0 != other.0 {
        return false;
    }
    let per = classes(plan, task);
    if next < per {
        return false;
    }
    next - per == job
}

/// Whether the second tick goes to the job that the first one goes to, a hyperperiod later.
fn is_later(plan: &Plan, first: Tick, second: Tick) -> bool
    requires { IfSome first (λ job. job.0.0 < length plan.now.graph.tasks) }
    ensures yes { OnTrue result (later plan.now (job_in first) ≡ job_in second) }
    ensures no { OnFalse result (later plan.now (job_in first) ≡ job_in second → ⊥) }
{
    match first {
        None => match second {
            None => true,
            Some(_) => false,
        },
        Some((task, job)) => match second {
            None => false,
            Some((other, next)) => is_later_job(plan, task, job, other, next),
        },
    }
}

/// The first tick at which the run is not steady.
fn first_unsteady(plan: &Plan, ticks: &[Tick], start: u64) -> Option<u64>
    requires start { start ≡ cut_from plan.now }
    requires length { length ticks.now ≡ run_until plan.now }
    requires jobs { AreOfPlan plan.now ticks.now }
    ensures none { (run : ℕ → Option (ℕ × ℕ)) → HasTicks run ticks.now → result ≡ None → IsSteadyRun plan.now run }
    ensures some { (run : ℕ → Option (ℕ × ℕ)) → HasTicks run ticks.now → IfSome result (IsUnsteadyAt plan.now run) }
{
    let hyper = plan.graph().hyper;
    for t in start..start + hyper {
        if !is_later(plan, ticks[t as usize], ticks[(t + hyper) as usize]) {
            return Some(t);
        }
    }
    None
}

/// A unit of a job at a tick, moved back by hyperperiods to the job's class.
fn unit_at(plan: &Plan, t: u64, task: TaskNo, job: u64) -> Entry
    requires task { task.0 < length plan.now.graph.tasks }
    requires back { job / classes plan.now.graph task.0 * plan.now.graph.hyper ≤ t }
    ensures { result ≡ unit_at plan.now t (task.0, job) }
{
    classes_are_early();
    let hyper = plan.graph().hyper;
    let per = classes(plan, task);
    Entry {
        at: t - job / per * hyper,
        task,
        job: job % per,
        units: 1,
    }
}

/// The last entry gets one unit more.
fn lengthen(entries: &mut Vec<Entry>) -> Result<(), AllocError>
    requires { HaveAtMost (2 ^ 62) entries.old.items }
    ensures { OnOk result (entries.new.items ≡ lengthened entries.old.items) }
{
    match entries.pop() {
        None => {}
        Some(last) => {
            entries.push(Entry {
                units: last.units + 1,
                ..last
            })?;
        }
    }
    Ok(())
}

/// Whether the tick before went to the job, too.
fn is_same(last: Tick, task: TaskNo, job: u64) -> bool
    ensures { result ≡ is_same (job_in last) (task.0, job) }
{
    match last {
        None => false,
        Some((other, number)) => other.0 == task.0 && number == job,
    }
}

/// Adds what a tick goes to, where the tick before went to `last`.
fn add_tick(
    entries: &mut Vec<Entry>,
    plan: &Plan,
    t: u64,
    last: Tick,
    this: Tick,
) -> Result<(), AllocError>
    requires few { HaveAtMost (2 ^ 62) entries.old.items }
    requires this { IfSome this (λ job. (job.0.0 < length plan.now.graph.tasks) × (job.1 / classes plan.now.graph job.0.0 * plan.now.graph.hyper ≤ t)) }
    ensures { OnOk result (entries.new.items ≡ with_tick plan.now entries.old.items t (job_in last) (job_in this)) }
{
    match this {
        None => Ok(()),
        Some((task, job)) => {
            if is_same(last, task, job) {
                lengthen(entries)
            } else {
                entries.push(unit_at(plan, t, task, job))?;
                Ok(())
            }
        }
    }
}

/// The pieces of a steady run in the hyperperiod that is cut out.
fn cut(alloc: Global, plan: &Plan, ticks: &[Tick], start: u64) -> Result<Vec<Entry>, AllocError>
    requires start { start ≡ cut_from plan.now }
    requires length { length ticks.now ≡ run_until plan.now }
    requires jobs { AreOfPlan plan.now ticks.now }
    ensures { IfOk result (λ entries. (run : ℕ → Option (ℕ × ℕ)) → HasTicks run ticks.now → entries.items ≡ cut_to plan.now run (cut_from plan.now) plan.now.graph.hyper) }
{
    let mut entries = Vec::new(alloc);
    let mut last = None;
    for n in 0..plan.graph().hyper {
        let this = ticks[(start + n) as usize];
        add_tick(&mut entries, plan, start + n, last, this)?;
        last = this;
    }
    Ok(entries)
}

/// Puts the entries in the order of time.
fn sort(entries: &mut Vec<Entry>)
    ensures same { IsPermutation entries.old.items entries.new.items }
    ensures sorted { IsNonDecreasingBy (λ entry. entry.at) entries.new.items }
{
    entries.sort_unstable_by_key(|entry| entry.at);
}

/// What each tick of a long run goes to.
fn ticks_of_run(
    alloc: Global,
    plan: &Plan,
    horizon: Horizon,
    timed: &Timed,
) -> Result<Vec<Tick>, AllocError>
    requires { IsLongRun plan.now horizon timed.now }
    ensures length { IfOk result (λ ticks. length ticks.items ≡ run_until plan.now) }
    ensures ticks { IfOk result (λ ticks. HasTicks (run_of timed.now.pieces) ticks.items) }
    ensures jobs { IfOk result (λ ticks. AreOfPlan plan.now ticks.items) }
{
    plan.graph();
    let ticks = ticks_of(alloc, timed.pieces.as_slice(), horizon.until)?;
    Ok(ticks)
}

/// That a run is not steady at this tick.
fn unsteady(plan: &Plan, timed: &Timed, ticks: &[Tick], at: u64) -> MakeFault
    requires length { length ticks.now ≡ run_until plan.now }
    requires ticks { HasTicks (run_of timed.now.pieces) ticks.now }
    requires at { IsUnsteadyAt plan.now (run_of timed.now.pieces) at }
    ensures { (first : Option (AnyTask × ℕ)) × (second : Option (AnyTask × ℕ)) × (result ≡ faults.Unsteady at first second)
        × IsFirstUnsteady plan.now (run_of timed.now.pieces) at first second }
{
    let _ = timed;
    let hyper = plan.graph().hyper;
    MakeFault::Unsteady {
        at,
        first: ticks[at as usize],
        second: ticks[(at + hyper) as usize],
    }
}

/// The table of a long run that is steady.
fn table_of(
    alloc: Global,
    plan: &Plan,
    horizon: Horizon,
    start: u64,
    timed: &Timed,
    ticks: &[Tick],
) -> Result<Table, AllocError>
    requires start { start ≡ cut_from plan.now }
    requires run { IsLongRun plan.now horizon timed.now }
    requires length { length ticks.now ≡ run_until plan.now }
    requires ticks { HasTicks (run_of timed.now.pieces) ticks.now }
    requires jobs { AreOfPlan plan.now ticks.now }
    requires steady { IsSteadyRun plan.now (run_of timed.now.pieces) }
    ensures made { IfOk result (λ table. IsMade plan.now table.entries) }
    ensures good { IfOk result (λ table. IsGood plan.now table.entries) }
{
    plan.graph();
    made_table_is_good();
    let _ = horizon;
    let _ = timed;
    let mut entries = cut(alloc, plan, ticks, start)?;
    sort(&mut entries);
    Ok(Table {
        entries: Seq::new(entries),
    })
}

/// The table of a long run, where it is steady.
fn steady_table(
    alloc: Global,
    plan: &Plan,
    horizon: Horizon,
    start: u64,
    timed: &Timed,
) -> Result<Table, MakeFault>
    requires start { start ≡ cut_from plan.now }
    requires run { IsLongRun plan.now horizon timed.now }
    ensures cause { IfErr result (IsMakeFault plan.now) }
    ensures made { IfOk result (λ table. IsMade plan.now table.entries) }
    ensures good { IfOk result (λ table. IsGood plan.now table.entries) }
{
    let Ok(ticks) = ticks_of_run(alloc, plan, horizon, timed) else {
        return Err(MakeFault::Memory);
    };
    if let Some(at) = first_unsteady(plan, &ticks, start) {
        return Err(unsteady(plan, timed, &ticks, at));
    }
    match table_of(alloc, plan, horizon, start, timed, &ticks) {
        Ok(table) => Ok(table),
        Err(_) => Err(MakeFault::Memory),
    }
}

/// The table of the plain run by earliest deadline first: its pieces in a hyperperiod after all
/// tasks have started, each moved back by hyperperiods to its job's class.
pub fn make(alloc: Global, plan: &Plan) -> Result<Table, MakeFault>
    ensures cause { IfErr result (IsMakeFault plan.now) }
    ensures made { IfOk result (λ table. IsMade plan.now table.entries) }
    ensures good { IfOk result (λ table. IsGood plan.now table.entries) }
{
    let start = cut_from(plan);
    let until = start + 2 * plan.graph().hyper;
    if until > 2_147_483_647 {
        return Err(MakeFault::TooFar(until));
    }
    match Horizon::new(plan, until as u32) {
        Err(limit) => Err(MakeFault::Limit(limit)),
        Ok(horizon) => match analyse(alloc, plan, horizon) {
            Ok(Verdict::Overload { from, to, demand }) => {
                Err(MakeFault::Overload { from, to, demand })
            }
            Ok(Verdict::Run(timed)) => steady_table(alloc, plan, horizon, start, &timed),
            Err(_) => Err(MakeFault::Memory),
        },
    }
}
