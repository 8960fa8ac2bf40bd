//! The rows that the words ask for.

ghost use Rattle.std.specs.Prelude.{◌≡◌, ◌≢◌, ◌<◌, ◌++◌, ◌∷◌, ◌⊎◌, ℕ, List, [], All, IfErr, IfOk, IfSome, None, OnOk, Some, codes, false, length, map, true};
ghost use Rattle.std.specs.String.{string_bytes};
ghost use Rattle.prl_io.specs.Pairs.{value_of};
ghost use Rattle.prl_base.specs.declared.numbers.TaskNo.{TaskNo as AnyTask};
ghost use Rattle.prl_times.specs.Rows.{about, skew, IsRow, Subject};
ghost use Rattle.prl_times.specs.Names.{has_twice, AreOfPlan};
ghost use Rattle.prl_times.specs.Options.{file_of, has};
ghost use Rattle.prl_times.specs.Refused.{IsRefusedOf, IsUnfitWhere, IsUsageWhere, LacksTask};
ghost use Rattle.prl_io.specs.Faults.{IsUnfit};
ghost use Rattle.prl_times.specs.Told.{AreAllRows, AreRowsAsked, AreTasksAsked, IsActuatorAsked, IsChainRow, IsRunAsked, IsSensorAsked, IsSkewRow};

use crate::collected::{chain_row, load_row, one_row, push_ages, push_run, skew_row};
use crate::lasting::push_asked;
use crate::names::{actuator_named, has_twice, sensor_named, tasks_named};
use crate::options::{FORM, file_of, number_in};
use prl_base::TaskNo;
use prl_io::{Fault, Piece, Stop, unfit_for, value_of, why_with};
use prl_plan::{Horizon, Plan};
use prl_timetext::Row;
use std::alloc::Global;

/// The greatest tick that may be asked for.
pub const MAX_UNTIL: u64 = 2_147_483_647;

/// Why there are no times of a run.
const TOO_MANY: &str = "too many jobs or events up to the tick of --until";

/// Why a chain is refused.
const TWICE: &str = "a chain that names each task once";

/// What the plan does not have.
fn no_task(alloc: Global, words: &[String], what: &[u8], name: &[u8]) -> Fault
    ensures { IsUnfit (file_of (map string_bytes words.now)) (what.now ++ name.now) result }
{
    let why = why_with(alloc, &[Piece::Text(what), Piece::Text(name)]);
    unfit_for(alloc, file_of(words), why)
}

/// The sensor that the words name, if they name one.
fn sensor_asked(alloc: Global, words: &[String], plan: &Plan) -> Result<Option<TaskNo>, Fault>
    ensures told { IfOk result (IsSensorAsked plan.now (map string_bytes words.now)) }
    ensures refused { IfErr result (IsRefusedOf plan.now (map string_bytes words.now)) }
{
    let Some(name) = value_of(b"--sensor", words) else {
        return Ok(None);
    };
    match sensor_named(plan, name) {
        Some(task) => Ok(Some(task)),
        None => Err(no_task(alloc, words, b"no sensor ", name)),
    }
}

/// The actuator that the words name, if they name one.
fn actuator_asked(alloc: Global, words: &[String], plan: &Plan) -> Result<Option<TaskNo>, Fault>
    ensures told { IfOk result (IsActuatorAsked plan.now (map string_bytes words.now)) }
    ensures refused { IfErr result (IsRefusedOf plan.now (map string_bytes words.now)) }
{
    let Some(name) = value_of(b"--actuator", words) else {
        return Ok(None);
    };
    match actuator_named(plan, name) {
        Some(task) => Ok(Some(task)),
        None => Err(no_task(alloc, words, b"no actuator ", name)),
    }
}

/// Appends the rows of the run up to the tick that the words name, if they name one.
fn push_until(
    alloc: Global,
    rows: &mut Vec<Row>,
    words: &[String],
    plan: &Plan,
) -> Result<(), Fault>
    ensures told { OnOk result ((until : ℕ) × (run : List Subject) × IsRunAsked plan.now (map string_bytes words.now) until run × (map about rows.new.items ≡ map about rows.old.items ++ run)
        × (All (IsRow plan.now [] until) rows.old.items → All (IsRow plan.now [] until) rows.new.items)) }
    ensures refused { IfErr result (IsRefusedOf plan.now (map string_bytes words.now)) }
{
    let Some(word) = value_of(b"--until", words) else {
        return Ok(());
    };
    let Some(until) = number_in(word, MAX_UNTIL) else {
        return Err(Fault::Stop(Stop::Words(FORM)));
    };
    let Ok(horizon) = Horizon::new(plan, until as u32) else {
        return Err(Fault::Stop(Stop::Refused(TOO_MANY)));
    };
    Ok(push_run(alloc, rows, plan, horizon)?)
}

/// The rows of a plan: the load, what holds for ever, the ages, and the run.
fn all_rows(alloc: Global, words: &[String], plan: &Plan) -> Result<Vec<Row>, Fault>
    ensures told { IfOk result (λ rows. (until : ℕ) × AreAllRows plan.now (map string_bytes words.now) [] until rows.items × All (IsRow plan.now [] until) rows.items) }
    ensures refused { IfErr result (IsRefusedOf plan.now (map string_bytes words.now)) }
{
    let sensor = sensor_asked(alloc, words, plan)?;
    let actuator = actuator_asked(alloc, words, plan)?;
    let mut rows = one_row(alloc, load_row(plan))?;
    push_asked(alloc, &mut rows, words, plan)?;
    push_ages(alloc, &mut rows, plan, sensor, actuator)?;
    push_until(alloc, &mut rows, words, plan)?;
    Ok(rows)
}

/// The row of a chain, whose names stand in a word.
fn chain_rows(alloc: Global, plan: &Plan, chain: &[TaskNo]) -> Result<Vec<Row>, Fault>
    requires { AreOfPlan plan.now.graph chain.now }
    ensures shape { IfOk result (λ rows. IsChainRow chain.now rows.items) }
    ensures right { IfOk result (λ rows. (until : ℕ) → All (IsRow plan.now chain.now until) rows.items) }
    ensures short { IfErr result (IsUsageWhere (length chain.now < 2)) }
{
    match chain {
        [first, .., last] => Ok(one_row(alloc, chain_row(alloc, plan, chain, *first, *last)?)?),
        _ => Err(Fault::Stop(Stop::Words(FORM))),
    }
}

/// The row of a skew, of two sensors.
fn skew_rows(
    alloc: Global,
    plan: &Plan,
    sensors: &[TaskNo],
    actuator: Option<TaskNo>,
) -> Result<Vec<Row>, Fault>
    requires sensors { AreOfPlan plan.now.graph sensors.now }
    requires actuator { IfSome actuator (λ task. task.0 < length plan.now.graph.tasks) }
    ensures shape { IfOk result (λ rows. (first : AnyTask) × (second : AnyTask) × (a : AnyTask) × (sensors.now ≡ first ∷ second ∷ []) × (actuator ≡ Some a)
        × (map about rows.items ≡ skew first.0 second.0 a.0 ∷ [])) }
    ensures right { IfOk result (λ rows. (tasks : List AnyTask) (until : ℕ) → All (IsRow plan.now tasks until) rows.items) }
    ensures other { IfErr result (IsUsageWhere ((length sensors.now ≢ 2) ⊎ (actuator ≡ None))) }
{
    match (sensors, actuator) {
        ([first, second], Some(a)) => {
            Ok(one_row(alloc, skew_row(alloc, plan, *first, *second, a)?)?)
        }
        _ => Err(Fault::Stop(Stop::Words(FORM))),
    }
}

/// The tasks whose names stand in the word of an option; none where the words do not have it.
fn tasks_asked(
    alloc: Global,
    words: &[String],
    plan: &Plan,
    option: &[u8],
) -> Result<Vec<TaskNo>, Fault>
    ensures told { IfOk result (λ tasks. AreTasksAsked plan.now (map string_bytes words.now) option.now tasks.items) }
    ensures lacks { IfErr result (IsUnfitWhere (file_of (map string_bytes words.now)) (LacksTask plan.now (map string_bytes words.now) option.now)) }
{
    let Some(word) = value_of(option, words) else {
        return Ok(Vec::new(alloc));
    };
    match tasks_named(alloc, plan, word)? {
        Some(tasks) => Ok(tasks),
        None => Err(no_task(alloc, words, b"no such tasks ", word)),
    }
}

/// The chain of tasks that the words name; empty where they name none.
pub(crate) fn chain_asked(
    alloc: Global,
    words: &[String],
    plan: &Plan,
) -> Result<Vec<TaskNo>, Fault>
    ensures asked { IfOk result (λ tasks. AreTasksAsked plan.now (map string_bytes words.now) (codes "--chain") tasks.items) }
    ensures once { IfOk result (λ tasks. has_twice tasks.items ≡ false) }
    ensures refused { IfErr result (IsRefusedOf plan.now (map string_bytes words.now)) }
{
    let tasks = tasks_asked(alloc, words, plan, b"--chain")?;
    if has_twice(&tasks) {
        return Err(Fault::Stop(Stop::Words(TWICE)));
    }
    Ok(tasks)
}

/// The row of the skew of the sensors that the words name.
fn skew_asked(alloc: Global, words: &[String], plan: &Plan) -> Result<Vec<Row>, Fault>
    requires { has (codes "--skew") (map string_bytes words.now) ≡ true }
    ensures shape { IfOk result (λ rows. IsSkewRow plan.now (map string_bytes words.now) rows.items) }
    ensures right { IfOk result (λ rows. (tasks : List AnyTask) (until : ℕ) → All (IsRow plan.now tasks until) rows.items) }
    ensures refused { IfErr result (IsRefusedOf plan.now (map string_bytes words.now)) }
{
    let sensors = tasks_asked(alloc, words, plan, b"--skew")?;
    let actuator = actuator_asked(alloc, words, plan)?;
    skew_rows(alloc, plan, &sensors, actuator)
}

/// The rows that the words ask for, which name this chain of tasks, empty where they name none.
pub(crate) fn rows_asked(
    alloc: Global,
    words: &[String],
    plan: &Plan,
    chain: &[TaskNo],
) -> Result<Vec<Row>, Fault>
    requires asked { AreTasksAsked plan.now (map string_bytes words.now) (codes "--chain") chain.now }
    requires once { has_twice chain.now ≡ false }
    ensures told { IfOk result (λ rows. AreRowsAsked plan.now (map string_bytes words.now) chain.now rows.items) }
    ensures refused { IfErr result (IsRefusedOf plan.now (map string_bytes words.now)) }
{
    match (value_of(b"--chain", words), value_of(b"--skew", words)) {
        (Some(_), _) => chain_rows(alloc, plan, chain),
        (None, Some(_)) => skew_asked(alloc, words, plan),
        (None, None) => all_rows(alloc, words, plan),
    }
}
