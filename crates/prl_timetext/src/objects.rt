//! Rows as JSON: an array with an object for each row.

ghost use Rattle.std.specs.Prelude.{◌≡◌, ◌++◌, IfOk, OnOk};
ghost use Rattle.prl_plan.specs.Vocabulary.{task_at};
ghost use Rattle.prl_timetext.specs.Objects.{ages_tokens, count, fields, json_text, json_tokens, known_tokens, load_tokens, nothing, overload_tokens, reaction_tokens};
ghost use Rattle.prl_timetext.specs.Objects.{instances_tokens, interval_tokens, others_tokens, pair_tokens, response_tokens, sensors_tokens};
ghost use Rattle.prl_timetext.specs.Objects.{row_tokens, rows_tokens, skew_tokens, times_tokens, used_tokens, verdict_tokens, word, apart_tokens, ends_tokens, greatest_tokens, task_tokens};

use crate::lasting_objects::put_lasting;
use crate::names::name_of;
use crate::rows::Row;
use json::Writer;
use prl_ages::{AgeBounds, Skew, SkewVerdict, Verdict};
use prl_base::TaskNo;
use prl_plan::{Plan, plan_is_one};
use prl_responses::Times;
use std::alloc::{AllocError, Global};

/// The name of a task as a text, which the plan's names are.
pub(crate) fn text_of_name(plan: &Plan, i: TaskNo) -> &str
    ensures { result.now ≡ (task_at plan.now.graph i.0).name }
{
    plan_is_one(plan);
    match std::str::from_utf8(name_of(plan, i)) {
        Ok(name) => name,
        Err(_) => unreachable!(),
    }
}

/// Writes a member with a number.
pub(crate) fn put_count(w: &mut Writer, key: &str, number: u64) -> Result<(), AllocError>
    ensures tokens { OnOk result (w.new.tokens ≡ w.old.tokens ++ count key.now number) }
    ensures before { w.new.before ≡ w.old.before }
{
    w.key(key)?;
    w.u64(number)?;
    Ok(())
}

/// Writes a member with a text.
pub(crate) fn put_word(w: &mut Writer, key: &str, text: &str) -> Result<(), AllocError>
    ensures tokens { OnOk result (w.new.tokens ≡ w.old.tokens ++ word key.now text.now) }
    ensures before { w.new.before ≡ w.old.before }
{
    w.key(key)?;
    w.string(text)?;
    Ok(())
}

/// Writes a member with nothing.
fn put_none(w: &mut Writer, key: &str) -> Result<(), AllocError>
    ensures tokens { OnOk result (w.new.tokens ≡ w.old.tokens ++ nothing key.now) }
    ensures before { w.new.before ≡ w.old.before }
{
    w.key(key)?;
    w.null()?;
    Ok(())
}

/// Writes the worst age.
fn put_used(w: &mut Writer, ages: AgeBounds) -> Result<(), AllocError>
    ensures tokens { OnOk result (w.new.tokens ≡ w.old.tokens ++ used_tokens ages) }
    ensures before { w.new.before ≡ w.old.before }
{
    put_count(w, "age", ages.used.ticks)?;
    put_count(w, "job", ages.used.job)?;
    put_count(w, "instance", ages.used.instance)?;
    Ok(())
}

/// Writes the worst reaction.
fn put_reaction(w: &mut Writer, ages: AgeBounds) -> Result<(), AllocError>
    ensures tokens { OnOk result (w.new.tokens ≡ w.old.tokens ++ reaction_tokens ages) }
    ensures before { w.new.before ≡ w.old.before }
{
    put_count(w, "reaction", ages.replaced.ticks)?;
    put_count(w, "reaction_job", ages.replaced.job)?;
    put_count(w, "reaction_instance", ages.replaced.instance)?;
    Ok(())
}

/// Writes the settled age and the best one.
fn put_others(w: &mut Writer, ages: AgeBounds) -> Result<(), AllocError>
    ensures tokens { OnOk result (w.new.tokens ≡ w.old.tokens ++ others_tokens ages) }
    ensures before { w.new.before ≡ w.old.before }
{
    put_count(w, "settled", ages.settled)?;
    put_count(w, "best", ages.best)?;
    Ok(())
}

/// Writes the ages over all jobs.
fn put_known(w: &mut Writer, ages: AgeBounds) -> Result<(), AllocError>
    ensures tokens { OnOk result (w.new.tokens ≡ w.old.tokens ++ known_tokens ages) }
    ensures before { w.new.before ≡ w.old.before }
{
    put_used(w, ages)?;
    put_reaction(w, ages)?;
    put_others(w, ages)?;
    Ok(())
}

/// Writes what is told of the ages of a task's values at another.
fn put_verdict(w: &mut Writer, verdict: Verdict) -> Result<(), AllocError>
    ensures tokens { OnOk result (w.new.tokens ≡ w.old.tokens ++ verdict_tokens verdict) }
    ensures before { w.new.before ≡ w.old.before }
{
    match verdict {
        Verdict::Never => put_none(w, "age"),
        Verdict::Late(job) => put_count(w, "late", job),
        Verdict::Known(ages) => put_known(w, ages),
    }
}

/// Writes what a row is, and a name.
fn put_pair(w: &mut Writer, row: &str, key: &str, name: &str) -> Result<(), AllocError>
    ensures tokens { OnOk result (w.new.tokens ≡ w.old.tokens ++ pair_tokens row.now key.now name.now) }
    ensures before { w.new.before ≡ w.old.before }
{
    put_word(w, "row", row)?;
    put_word(w, key, name)?;
    Ok(())
}

/// Writes the load of a hyperperiod.
fn put_load(w: &mut Writer, load: u64, hyper: u64) -> Result<(), AllocError>
    ensures tokens { OnOk result (w.new.tokens ≡ w.old.tokens ++ load_tokens load hyper) }
    ensures before { w.new.before ≡ w.old.before }
{
    put_word(w, "row", "load")?;
    put_count(w, "load", load)?;
    put_count(w, "has", hyper)?;
    Ok(())
}

/// Writes the ages of a task's values at another.
fn put_ages(
    w: &mut Writer,
    row: &str,
    sensor: &str,
    actuator: &str,
    verdict: Verdict,
) -> Result<(), AllocError>
    ensures tokens { OnOk result (w.new.tokens ≡ w.old.tokens ++ ages_tokens row.now sensor.now actuator.now verdict) }
    ensures before { w.new.before ≡ w.old.before }
{
    put_pair(w, row, "sensor", sensor)?;
    put_word(w, "actuator", actuator)?;
    put_verdict(w, verdict)?;
    Ok(())
}

/// Writes the two instances of a skew.
fn put_instances(w: &mut Writer, skew: Skew) -> Result<(), AllocError>
    ensures tokens { OnOk result (w.new.tokens ≡ w.old.tokens ++ instances_tokens skew) }
    ensures before { w.new.before ≡ w.old.before }
{
    put_count(w, "first_instance", skew.first)?;
    put_count(w, "second_instance", skew.second)?;
    Ok(())
}

/// Writes the greatest skew.
fn put_greatest(w: &mut Writer, skew: Skew) -> Result<(), AllocError>
    ensures tokens { OnOk result (w.new.tokens ≡ w.old.tokens ++ greatest_tokens skew) }
    ensures before { w.new.before ≡ w.old.before }
{
    put_count(w, "skew", skew.ticks)?;
    put_count(w, "job", skew.job)?;
    put_instances(w, skew)?;
    Ok(())
}

/// Writes what is told of the skew of two sensors.
fn put_skew(w: &mut Writer, verdict: SkewVerdict) -> Result<(), AllocError>
    ensures tokens { OnOk result (w.new.tokens ≡ w.old.tokens ++ skew_tokens verdict) }
    ensures before { w.new.before ≡ w.old.before }
{
    match verdict {
        SkewVerdict::Apart => put_none(w, "skew"),
        SkewVerdict::TooMany(jobs) => put_count(w, "too_many_jobs", jobs),
        SkewVerdict::Greatest(skew) => put_greatest(w, skew),
    }
}

/// Writes the two sensors of a skew.
fn put_sensors(w: &mut Writer, first: &str, second: &str) -> Result<(), AllocError>
    ensures tokens { OnOk result (w.new.tokens ≡ w.old.tokens ++ sensors_tokens first.now second.now) }
    ensures before { w.new.before ≡ w.old.before }
{
    put_pair(w, "skew", "first", first)?;
    put_word(w, "second", second)?;
    Ok(())
}

/// Writes the skew of two sensors at an actuator.
fn put_apart(
    w: &mut Writer,
    first: &str,
    second: &str,
    actuator: &str,
    verdict: SkewVerdict,
) -> Result<(), AllocError>
    ensures tokens { OnOk result (w.new.tokens ≡ w.old.tokens ++ apart_tokens first.now second.now actuator.now verdict) }
    ensures before { w.new.before ≡ w.old.before }
{
    put_sensors(w, first, second)?;
    put_word(w, "actuator", actuator)?;
    put_skew(w, verdict)?;
    Ok(())
}

/// Writes the worst response.
fn put_response(w: &mut Writer, times: Times) -> Result<(), AllocError>
    ensures tokens { OnOk result (w.new.tokens ≡ w.old.tokens ++ response_tokens times) }
    ensures before { w.new.before ≡ w.old.before }
{
    put_count(w, "response", times.response)?;
    put_count(w, "response_job", times.slowest)?;
    Ok(())
}

/// Writes how soon the jobs of a task end, where the run has one.
fn put_ends(w: &mut Writer, times: Times) -> Result<(), AllocError>
    ensures tokens { OnOk result (w.new.tokens ≡ w.old.tokens ++ ends_tokens times) }
    ensures before { w.new.before ≡ w.old.before }
{
    put_response(w, times)?;
    put_count(w, "slack", times.slack)?;
    put_count(w, "slack_job", times.tightest)?;
    Ok(())
}

/// Writes how soon the jobs of a task end.
fn put_times(w: &mut Writer, times: Option<Times>) -> Result<(), AllocError>
    ensures tokens { OnOk result (w.new.tokens ≡ w.old.tokens ++ times_tokens times) }
    ensures before { w.new.before ≡ w.old.before }
{
    match times {
        None => put_none(w, "response"),
        Some(times) => put_ends(w, times),
    }
}

/// Writes a task, and how soon its jobs end.
pub(crate) fn put_task(w: &mut Writer, task: &str, times: Option<Times>) -> Result<(), AllocError>
    ensures tokens { OnOk result (w.new.tokens ≡ w.old.tokens ++ task_tokens task.now times) }
    ensures before { w.new.before ≡ w.old.before }
{
    put_word(w, "row", "task")?;
    put_word(w, "task", task)?;
    put_times(w, times)?;
    Ok(())
}

/// Writes the interval of an overload.
fn put_interval(w: &mut Writer, from: u64, to: u64) -> Result<(), AllocError>
    ensures tokens { OnOk result (w.new.tokens ≡ w.old.tokens ++ interval_tokens from to) }
    ensures before { w.new.before ≡ w.old.before }
{
    put_word(w, "row", "overload")?;
    put_count(w, "from", from)?;
    put_count(w, "to", to)?;
    Ok(())
}

/// Writes an overloaded interval.
pub(crate) fn put_overload(
    w: &mut Writer,
    from: u64,
    to: u64,
    demand: u64,
) -> Result<(), AllocError>
    ensures tokens { OnOk result (w.new.tokens ≡ w.old.tokens ++ overload_tokens from to demand) }
    ensures before { w.new.before ≡ w.old.before }
{
    put_interval(w, from, to)?;
    put_count(w, "demand", demand)?;
    Ok(())
}

/// Writes the members of a row.
fn put_fields(w: &mut Writer, plan: &Plan, row: &Row) -> Result<(), AllocError>
    ensures tokens { OnOk result (w.new.tokens ≡ w.old.tokens ++ fields plan.now.graph row.now) }
    ensures before { w.new.before ≡ w.old.before }
{
    match *row {
        Row::Load { load, hyper } => put_load(w, load, hyper)?,
        Row::Age {
            sensor,
            actuator,
            verdict,
        } => {
            let (s, a) = (text_of_name(plan, sensor), text_of_name(plan, actuator));
            put_ages(w, "age", s, a, verdict)?
        }
        Row::Chain {
            first,
            last,
            verdict,
        } => {
            let (s, a) = (text_of_name(plan, first), text_of_name(plan, last));
            put_ages(w, "chain", s, a, verdict)?
        }
        Row::Skew {
            first,
            second,
            actuator,
            verdict,
        } => {
            let (s, r) = (text_of_name(plan, first), text_of_name(plan, second));
            put_apart(w, s, r, text_of_name(plan, actuator), verdict)?
        }
        Row::Task { task, times } => put_task(w, text_of_name(plan, task), times)?,
        Row::Overload { from, to, demand } => put_overload(w, from, to, demand)?,
        Row::ForEver(row) => put_lasting(w, plan, &row)?,
    }
    Ok(())
}

/// Writes the object of a row.
fn put_row(w: &mut Writer, plan: &Plan, row: &Row) -> Result<(), AllocError>
    ensures tokens { OnOk result (w.new.tokens ≡ w.old.tokens ++ row_tokens plan.now.graph row.now) }
    ensures before { w.new.before ≡ w.old.before }
{
    w.begin_object()?;
    put_fields(w, plan, row)?;
    w.end_object()?;
    Ok(())
}

/// Writes the objects of some rows.
fn put_rows(w: &mut Writer, plan: &Plan, rows: &[Row]) -> Result<(), AllocError>
    ensures tokens { OnOk result (w.new.tokens ≡ w.old.tokens ++ rows_tokens plan.now.graph rows.now) }
    ensures before { w.new.before ≡ w.old.before }
{
    for row in rows {
        put_row(w, plan, row)?;
    }
    Ok(())
}

/// Writes the array of some rows.
fn put_array(w: &mut Writer, plan: &Plan, rows: &[Row]) -> Result<(), AllocError>
    ensures tokens { OnOk result (w.new.tokens ≡ w.old.tokens ++ json_tokens plan.now.graph rows.now) }
    ensures before { w.new.before ≡ w.old.before }
{
    w.begin_array()?;
    put_rows(w, plan, rows)?;
    w.end_array()?;
    Ok(())
}

/// The rows as JSON.
pub fn json_of(alloc: Global, plan: &Plan, rows: &[Row]) -> Result<Vec<u8>, AllocError>
    ensures { IfOk result (λ text. text.items ≡ json_text plan.now.graph rows.now) }
{
    let mut writer = Writer::new(Vec::new(alloc));
    put_array(&mut writer, plan, rows)?;
    let mut text = writer.into_inner();
    text.push(b'\n')?;
    Ok(text)
}
