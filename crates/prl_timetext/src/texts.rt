//! The lines of rows.

ghost use Rattle.std.specs.Prelude.{◌≡◌, ◌++◌, codes, IfOk, OnOk};
ghost use Rattle.std.specs.Fmt.{decimal};
ghost use Rattle.prl_timetext.specs.Names.{name_at};
ghost use Rattle.prl_timetext.specs.Texts.{age_words, ages_words, apart_words, chain_words, greatest_words, head_words, instances_words, known_times, known_words, load_words, many_words, overload_words};
ghost use Rattle.prl_timetext.specs.Texts.{pair_words, row_words, rows_text, skew_words, task_words, times_words, verdict_words};

use crate::lasting_texts::push_lasting;
use crate::names::{name_of, push_names};
use crate::rows::Row;
use prl_ages::{Age, AgeBounds, Skew, SkewVerdict, Verdict};
use prl_base::{TaskNo, push_number};
use prl_plan::Plan;
use prl_responses::Times;
use std::alloc::{AllocError, Global};

/// Appends some words and a number.
pub(crate) fn push_field(text: &mut Vec<u8>, words: &[u8], number: u64) -> Result<(), AllocError>
    ensures { OnOk result (text.new.items ≡ text.old.items ++ words.now ++ decimal number) }
{
    text.extend_from_slice(words)?;
    push_number(text, number)
}

/// Appends an age, and where it stands.
fn push_age(text: &mut Vec<u8>, age: Age) -> Result<(), AllocError>
    ensures { OnOk result (text.new.items ≡ text.old.items ++ age_words age) }
{
    push_field(text, b" ", age.ticks)?;
    push_field(text, b" job ", age.job)?;
    push_field(text, b" instance ", age.instance)?;
    Ok(())
}

/// Appends the ages over all jobs.
fn push_known(text: &mut Vec<u8>, ages: AgeBounds) -> Result<(), AllocError>
    ensures { OnOk result (text.new.items ≡ text.old.items ++ known_words ages) }
{
    push_age(text, ages.used)?;
    text.extend_from_slice(b" reaction")?;
    push_age(text, ages.replaced)?;
    push_field(text, b" settled ", ages.settled)?;
    push_field(text, b" best ", ages.best)?;
    Ok(())
}

/// Appends what is told of the ages of a task's values at an actuator.
fn push_verdict(text: &mut Vec<u8>, verdict: Verdict) -> Result<(), AllocError>
    ensures { OnOk result (text.new.items ≡ text.old.items ++ verdict_words verdict) }
{
    match verdict {
        Verdict::Never => text.extend_from_slice(b" none"),
        Verdict::Late(job) => push_field(text, b" late ", job),
        Verdict::Known(ages) => push_known(text, ages),
    }
}

/// Appends a skew, and the job that has it.
fn push_head(text: &mut Vec<u8>, skew: Skew) -> Result<(), AllocError>
    ensures { OnOk result (text.new.items ≡ text.old.items ++ head_words skew) }
{
    push_field(text, b" ", skew.ticks)?;
    push_field(text, b" job ", skew.job)?;
    Ok(())
}

/// Appends the two instances of a skew.
fn push_instances(text: &mut Vec<u8>, skew: Skew) -> Result<(), AllocError>
    ensures { OnOk result (text.new.items ≡ text.old.items ++ instances_words skew) }
{
    push_field(text, b" instances ", skew.first)?;
    push_field(text, b" ", skew.second)?;
    Ok(())
}

/// Appends how many jobs would have to be looked at.
fn push_many(text: &mut Vec<u8>, jobs: u64) -> Result<(), AllocError>
    ensures { OnOk result (text.new.items ≡ text.old.items ++ many_words jobs) }
{
    push_field(text, b" too many jobs ", jobs)?;
    Ok(())
}

/// Appends the greatest skew.
fn push_greatest(text: &mut Vec<u8>, skew: Skew) -> Result<(), AllocError>
    ensures { OnOk result (text.new.items ≡ text.old.items ++ greatest_words skew) }
{
    push_head(text, skew)?;
    push_instances(text, skew)?;
    Ok(())
}

/// Appends what is told of the skew of two sensors.
fn push_skew(text: &mut Vec<u8>, verdict: SkewVerdict) -> Result<(), AllocError>
    ensures { OnOk result (text.new.items ≡ text.old.items ++ skew_words verdict) }
{
    match verdict {
        SkewVerdict::Apart => text.extend_from_slice(b" none"),
        SkewVerdict::TooMany(jobs) => push_many(text, jobs),
        SkewVerdict::Greatest(skew) => push_greatest(text, skew),
    }
}

/// Appends how soon the jobs of a task end, where the run has one.
fn push_ends(text: &mut Vec<u8>, times: Times) -> Result<(), AllocError>
    ensures { OnOk result (text.new.items ≡ text.old.items ++ known_times times) }
{
    push_field(text, b" response ", times.response)?;
    push_field(text, b" job ", times.slowest)?;
    push_field(text, b" slack ", times.slack)?;
    push_field(text, b" job ", times.tightest)?;
    Ok(())
}

/// Appends how soon the jobs of a task end.
fn push_times(text: &mut Vec<u8>, times: Option<Times>) -> Result<(), AllocError>
    ensures { OnOk result (text.new.items ≡ text.old.items ++ times_words times) }
{
    match times {
        None => text.extend_from_slice(b" none"),
        Some(times) => push_ends(text, times),
    }
}

/// Appends the name of a task, after a space.
pub(crate) fn push_name(text: &mut Vec<u8>, plan: &Plan, task: TaskNo) -> Result<(), AllocError>
    ensures { OnOk result (text.new.items ≡ text.old.items ++ codes " " ++ name_at plan.now.graph task) }
{
    text.extend_from_slice(b" ")?;
    text.extend_from_slice(name_of(plan, task))?;
    Ok(())
}

/// Appends a word and the names of two tasks.
fn push_pair(
    text: &mut Vec<u8>,
    plan: &Plan,
    word: &[u8],
    first: TaskNo,
    second: TaskNo,
) -> Result<(), AllocError>
    ensures { OnOk result (text.new.items ≡ text.old.items ++ word.now ++ pair_words plan.now.graph first second) }
{
    text.extend_from_slice(word)?;
    push_name(text, plan, first)?;
    push_name(text, plan, second)?;
    Ok(())
}

/// Appends an overloaded interval, its demand, and how many ticks it has.
pub(crate) fn push_overload(
    text: &mut Vec<u8>,
    from: u64,
    to: u64,
    demand: u64,
) -> Result<(), AllocError>
    ensures { OnOk result (text.new.items ≡ text.old.items ++ overload_words from to demand) }
{
    push_field(text, b"overload ", from)?;
    push_field(text, b" ", to)?;
    push_field(text, b" demand ", demand)?;
    push_field(text, b" has ", to.saturating_sub(from))?;
    Ok(())
}

/// Appends the row of a load.
fn push_load(text: &mut Vec<u8>, load: u64, hyper: u64) -> Result<(), AllocError>
    ensures { OnOk result (text.new.items ≡ text.old.items ++ load_words load hyper) }
{
    push_field(text, b"load ", load)?;
    push_field(text, b" has ", hyper)?;
    Ok(())
}

/// Appends the row of the ages of a sensor's values at an actuator.
fn push_ages(
    text: &mut Vec<u8>,
    plan: &Plan,
    sensor: TaskNo,
    actuator: TaskNo,
    verdict: Verdict,
) -> Result<(), AllocError>
    ensures { OnOk result (text.new.items ≡ text.old.items ++ ages_words plan.now.graph sensor actuator verdict) }
{
    push_pair(text, plan, b"age", sensor, actuator)?;
    push_verdict(text, verdict)?;
    Ok(())
}

/// Appends the row of a chain.
fn push_chain(
    text: &mut Vec<u8>,
    plan: &Plan,
    chain: &[TaskNo],
    verdict: Verdict,
) -> Result<(), AllocError>
    ensures { OnOk result (text.new.items ≡ text.old.items ++ chain_words plan.now.graph chain.now verdict) }
{
    text.extend_from_slice(b"chain ")?;
    push_names(text, plan, chain)?;
    push_verdict(text, verdict)?;
    Ok(())
}

/// Appends the row of the skew of two sensors at an actuator.
fn push_apart(
    text: &mut Vec<u8>,
    plan: &Plan,
    first: TaskNo,
    second: TaskNo,
    actuator: TaskNo,
    verdict: SkewVerdict,
) -> Result<(), AllocError>
    ensures { OnOk result (text.new.items ≡ text.old.items ++ apart_words plan.now.graph first second actuator verdict) }
{
    push_pair(text, plan, b"skew", first, second)?;
    push_name(text, plan, actuator)?;
    push_skew(text, verdict)?;
    Ok(())
}

/// Appends the row of how soon the jobs of a task end.
pub(crate) fn push_task(
    text: &mut Vec<u8>,
    plan: &Plan,
    task: TaskNo,
    times: Option<Times>,
) -> Result<(), AllocError>
    ensures { OnOk result (text.new.items ≡ text.old.items ++ task_words plan.now.graph task times) }
{
    text.extend_from_slice(b"task")?;
    push_name(text, plan, task)?;
    push_times(text, times)?;
    Ok(())
}

/// Appends a row, without an end of the line.
pub fn push_row(
    text: &mut Vec<u8>,
    plan: &Plan,
    chain: &[TaskNo],
    row: &Row,
) -> Result<(), AllocError>
    ensures { OnOk result (text.new.items ≡ text.old.items ++ row_words plan.now.graph chain.now row.now) }
{
    match *row {
        Row::Load { load, hyper } => push_load(text, load, hyper),
        Row::Age {
            sensor,
            actuator,
            verdict,
        } => push_ages(text, plan, sensor, actuator, verdict),
        Row::Chain { verdict, .. } => push_chain(text, plan, chain, verdict),
        Row::Skew {
            first,
            second,
            actuator,
            verdict,
        } => push_apart(text, plan, first, second, actuator, verdict),
        Row::Task { task, times } => push_task(text, plan, task, times),
        Row::Overload { from, to, demand } => push_overload(text, from, to, demand),
        Row::ForEver(row) => push_lasting(text, plan, &row),
    }
}

/// Appends the line of a row.
fn push_line(text: &mut Vec<u8>, plan: &Plan, chain: &[TaskNo], row: &Row) -> Result<(), AllocError>
    ensures { OnOk result (text.new.items ≡ text.old.items ++ row_words plan.now.graph chain.now row.now ++ codes "\n") }
{
    push_row(text, plan, chain, row)?;
    text.push(b'\n')?;
    Ok(())
}

/// The lines of some rows.
pub fn text_of(
    alloc: Global,
    plan: &Plan,
    chain: &[TaskNo],
    rows: &[Row],
) -> Result<Vec<u8>, AllocError>
    ensures { IfOk result (λ text. text.items ≡ rows_text plan.now.graph chain.now rows.now) }
{
    let mut text = Vec::new(alloc);
    for row in rows {
        push_line(&mut text, plan, chain, row)?;
    }
    Ok(text)
}
