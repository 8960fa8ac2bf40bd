//! What the words ask for beside the windows, and the files that they name for it.

ghost use Rattle.std.specs.Prelude.{◌≡◌, ◌<◌, ◌^◌, IfOk, Ok, length, map};
ghost use Rattle.std.specs.String.{string_bytes};
ghost use Rattle.prl_cores.specs.Spreads.{IsSpreadOf, LeavesRoom};
ghost use Rattle.prl_cores.specs.Processors.{IsOfTasks};
ghost use Rattle.prl_picture.specs.Asked.{IsAsked, IsDispatchedList, IsListed, IsPlacedEvents, IsPlacedRun, IsSchedule, IsTableOf, IsUpTo, TellsProcessors};
ghost use Rattle.prl_tables.specs.Vocabulary.{entries_of, IsGood};
ghost use Rattle.prl_shapes.specs.Shown.{IsOfPlan};

use crate::ranges::MAX_UNTIL;
use crate::words::FORM;
use prl_base::TaskNo;
use prl_cores::{CoresFault, Spread, read_cores, spread, spread_plans_keep_facts};
use prl_edf::analyse;
use prl_io::{
    Fault, Files, Piece, Stop, number_up_to, read_named, unfit, unfit_for, value_of, why_of,
    why_with,
};
use prl_plan::{Event, Horizon, Plan, plan_is_one};
use prl_schedules::{ScheduleFault, dispatch_on, read_schedule};
use prl_tables::{Table, TableFault, check_table, read_table};
use prl_views::{Shown, task_of};
use std::alloc::{AllocError, Global};

/// The most bytes of a schedule.
pub const MAX_SCHEDULE: u64 = 83_886_080;

/// The most bytes of a text of processors.
pub const MAX_CORES: u64 = 65_536;

/// The most bytes of a table.
pub const MAX_TABLE: u64 = 16_777_216;

/// Why there is no picture of a run.
const TOO_MANY: &str = "too many jobs or events up to the tick of --edf";

/// Why there is no picture of a run on processors.
const TOO_MANY_PLACED: &str = "too many jobs or events up to the end of the range";

/// The events of a run, or a fault.
type Events = Result<Vec<Event>, Fault>;

/// What is drawn beside the windows, or a fault.
type Drawn = Result<Shown, Fault>;

/// The events of the schedule in the file of this name.
fn events_in<F: Files>(alloc: Global, files: &mut F, plan: &Plan, name: &[u8]) -> Events
    ensures schedule { IfOk result (λ events. IsSchedule (F.seen files.old).folder plan.now events.items name.now) }
    ensures kept { (F.seen files.new).folder ≡ (F.seen files.old).folder }
{
    let source = read_named(alloc, files, name, MAX_SCHEDULE)?;
    match read_schedule(alloc, &source, plan) {
        Ok(events) => Ok(events),
        Err(ScheduleFault::Syntax(line)) => {
            Err(unfit(alloc, name, "70 schedule syntax line ", line))
        }
        Err(ScheduleFault::Memory) => Err(Fault::Stop(Stop::Memory)),
    }
}

/// The words `99 core missing` and the name of a task.
fn missing(alloc: Global, plan: &Plan, task: TaskNo) -> Result<Vec<u8>, AllocError>
    requires { task.0 < length plan.now.graph.tasks }
{
    let front = Piece::Text(b"99 core missing ");
    why_with(
        alloc,
        &[front, Piece::Text(task_of(plan, task).name.bytes())],
    )
}

/// Why a text of processors does not fit.
fn unplaced(alloc: Global, plan: &Plan, name: &[u8], fault: CoresFault) -> Fault
    requires { IsOfTasks (length plan.now.graph.tasks) fault }
{
    match fault {
        CoresFault::Syntax(line) => unfit(alloc, name, "98 core syntax line ", line),
        CoresFault::Missing(task) => unfit_for(alloc, name, missing(alloc, plan, task)),
        CoresFault::Memory => Fault::Stop(Stop::Memory),
    }
}

/// The plan on the processors that the file of this name tells.
fn spread_in<F: Files>(
    alloc: Global,
    files: &mut F,
    plan: &Plan,
    name: &[u8],
) -> Result<Spread, Fault>
    ensures spread { IfOk result (λ spread. IsSpreadOf plan.now spread × LeavesRoom plan.now spread.placement) }
    ensures told { IfOk result (λ spread. TellsProcessors (F.seen files.old).folder plan.now spread.placement.processors name.now) }
    ensures kept { (F.seen files.new).folder ≡ (F.seen files.old).folder }
{
    let source = read_named(alloc, files, name, MAX_CORES)?;
    match read_cores(alloc, &source, plan) {
        Ok(processors) => Ok(spread(alloc, plan, &processors)?),
        Err(fault) => Err(unplaced(alloc, plan, name, fault)),
    }
}

/// The dispatched list of the jobs that are released before a tick, on the processors of a spread plan.
fn dispatched(alloc: Global, plan: &Plan, spread: &Spread, until: u64) -> Events
    requires spread { IsSpreadOf plan.now spread.now }
    requires until { until < 2 ^ 32 }
    ensures { IfOk result (λ events. IsDispatchedList plan.now spread.now.placement until events.items) }
{
    plan_is_one(plan);
    spread_plans_keep_facts();
    let Ok(horizon) = Horizon::new(plan, until as u32) else {
        return Err(Fault::Stop(Stop::Refused(TOO_MANY_PLACED)));
    };
    Ok(dispatch_on(alloc, plan, spread.placed(), horizon)?)
}

/// What a run does on the processors of a spread plan: the schedule that the words name, or the
/// dispatched list.
fn placed_events<F: Files>(
    alloc: Global,
    words: &[String],
    files: &mut F,
    plan: &Plan,
    spread: &Spread,
    until: u64,
) -> Events
    requires spread { IsSpreadOf plan.now spread.now }
    requires until { until < 2 ^ 32 }
    ensures events { IfOk result (λ events. IsPlacedEvents (F.seen files.old).folder plan.now (map string_bytes words.now) until spread.now.placement events.items) }
    ensures kept { (F.seen files.new).folder ≡ (F.seen files.old).folder }
{
    match value_of(b"--schedule", words) {
        Some(name) => events_in(alloc, files, plan, name),
        None => dispatched(alloc, plan, spread, until),
    }
}

/// A run on the processors that the file of this name tells.
fn placed_run<F: Files>(
    alloc: Global,
    words: &[String],
    files: &mut F,
    plan: &Plan,
    until: u64,
    name: &[u8],
) -> Drawn
    requires until { until < 2 ^ 32 }
    ensures plan { IfOk result (IsOfPlan plan.now) }
    ensures run { IfOk result (λ shown. IsPlacedRun (F.seen files.old).folder plan.now (map string_bytes words.now) until shown name.now) }
    ensures kept { (F.seen files.new).folder ≡ (F.seen files.old).folder }
{
    let spread = spread_in(alloc, files, plan, name)?;
    let events = placed_events(alloc, words, files, plan, &spread, until)?;
    Ok(Shown::Cores(spread, events))
}

/// What the analysis finds of the jobs up to the tick that a word writes.
fn verdict_of(alloc: Global, word: &[u8], plan: &Plan) -> Drawn
    ensures plan { IfOk result (IsOfPlan plan.now) }
    ensures until { IfOk result (IsUpTo word.now) }
{
    let Some(until) = number_up_to(MAX_UNTIL, word) else {
        return Err(Fault::Stop(Stop::Words(FORM)));
    };
    let Ok(horizon) = Horizon::new(plan, until as u32) else {
        return Err(Fault::Stop(Stop::Refused(TOO_MANY)));
    };
    let verdict = analyse(alloc, plan, horizon)?;
    Ok(Shown::Verdict(horizon, verdict))
}

/// What a schedule does: that of the file that the words name, or an empty one.
fn listed<F: Files>(alloc: Global, words: &[String], files: &mut F, plan: &Plan) -> Drawn
    ensures plan { IfOk result (IsOfPlan plan.now) }
    ensures listed { IfOk result (IsListed (F.seen files.old).folder plan.now (map string_bytes words.now)) }
    ensures kept { (F.seen files.new).folder ≡ (F.seen files.old).folder }
{
    match value_of(b"--schedule", words) {
        Some(name) => Ok(Shown::Events(events_in(alloc, files, plan, name)?)),
        None => Ok(Shown::Events(Vec::new(alloc))),
    }
}

/// The name of a task; no bytes where the plan has no such one.
fn name_of(plan: &Plan, task: TaskNo) -> &[u8] {
    if (task.0 as usize) < plan.graph().tasks.len() {
        task_of(plan, task).name.bytes()
    } else {
        b""
    }
}

/// The words `95 units`, the name of a task and the number of a job.
fn units_of(alloc: Global, plan: &Plan, task: TaskNo, job: u64) -> Result<Vec<u8>, AllocError> {
    let front = Piece::Text(b"95 units ");
    let name = Piece::Text(name_of(plan, task));
    why_with(alloc, &[front, name, Piece::Text(b" "), Piece::Number(job)])
}

/// A text with a number, words and another number.
fn two_numbers<'x>(
    alloc: Global,
    front: &'x [u8],
    first: u64,
    middle: &'x [u8],
    second: u64,
) -> Result<Vec<u8>, AllocError> {
    let (front, middle) = (Piece::Text(front), Piece::Text(middle));
    why_with(
        alloc,
        &[front, Piece::Number(first), middle, Piece::Number(second)],
    )
}

/// The line that `prelude` tells of a table that is refused.
fn table_line(alloc: Global, plan: &Plan, fault: TableFault) -> Result<Vec<u8>, AllocError> {
    match fault {
        TableFault::Syntax(line) => why_of(alloc, "93 table syntax line ", line),
        TableFault::Piece(line) => why_of(alloc, "94 piece ", line),
        TableFault::Units { task, job } => units_of(alloc, plan, task, job),
        TableFault::Clash { first, second } => {
            two_numbers(alloc, b"96 clash ", first, b" ", second)
        }
        TableFault::Order { edge, job } => {
            two_numbers(alloc, b"97 order edge ", u64::from(edge.0), b" job ", job)
        }
        TableFault::Memory => Err(AllocError),
    }
}

/// Why a table does not fit.
fn unfit_table(alloc: Global, plan: &Plan, name: &[u8], fault: TableFault) -> Fault {
    unfit_for(alloc, name, table_line(alloc, plan, fault))
}

/// The good table of this text.
fn good_table(alloc: Global, source: &[u8], plan: &Plan) -> Result<Table, TableFault>
    ensures good { IfOk result (λ table. IsGood plan.now table.entries) }
    ensures told { IfOk result (λ table. entries_of plan.now.graph.hyper source.now ≡ Ok table.entries) }
{
    let table = read_table(alloc, source, plan)?;
    match check_table(alloc, plan, &table) {
        Ok(_) => {}
        Err(fault) => return Err(fault),
    }
    Ok(table)
}

/// The table in the file of this name.
fn table_in<F: Files>(alloc: Global, files: &mut F, plan: &Plan, name: &[u8]) -> Drawn
    ensures plan { IfOk result (IsOfPlan plan.now) }
    ensures table { IfOk result (λ shown. IsTableOf (F.seen files.old).folder plan.now shown name.now) }
    ensures kept { (F.seen files.new).folder ≡ (F.seen files.old).folder }
{
    let source = read_named(alloc, files, name, MAX_TABLE)?;
    match good_table(alloc, &source, plan) {
        Ok(table) => Ok(Shown::Table(table)),
        Err(fault) => Err(unfit_table(alloc, plan, name, fault)),
    }
}

/// Whether the words ask for one thing at most beside the windows: a run up to a tick, or a table, or
/// processors and a schedule.
fn are_apart(words: &[String]) -> bool {
    let edf = value_of(b"--edf", words).is_some();
    let table = value_of(b"--table", words).is_some();
    let placed = value_of(b"--cores", words).is_some() || value_of(b"--schedule", words).is_some();
    !(edf && table) && !(edf && placed) && !(table && placed)
}

/// What the words ask for beside the windows of a range that ends at a tick: the run of one processor,
/// a table, a run on several processors, or a schedule.
pub(crate) fn shown<F: Files>(
    alloc: Global,
    words: &[String],
    files: &mut F,
    plan: &Plan,
    until: u64,
) -> Drawn
    requires until { until < 2 ^ 32 }
    ensures plan { IfOk result (IsOfPlan plan.now) }
    ensures asked { IfOk result (IsAsked (F.seen files.old).folder plan.now (map string_bytes words.now) until) }
    ensures kept { (F.seen files.new).folder ≡ (F.seen files.old).folder }
{
    if !are_apart(words) {
        return Err(Fault::Stop(Stop::Words(FORM)));
    }
    let edf = value_of(b"--edf", words);
    match (
        edf,
        value_of(b"--table", words),
        value_of(b"--cores", words),
    ) {
        (Some(word), _, _) => verdict_of(alloc, word, plan),
        (None, Some(name), _) => table_in(alloc, files, plan, name),
        (None, None, Some(name)) => placed_run(alloc, words, files, plan, until, name),
        (None, None, None) => listed(alloc, words, files, plan),
    }
}
