//! What is told of one processor for ever, as JSON.

ghost use Rattle.std.specs.Prelude.{◌≡◌, ◌++◌, codes, OnOk};
ghost use Rattle.prl_timetext.specs.Objects.{heavy_tokens, lasting_fields, share_tokens, share_within_tokens, within_tokens, word};

use crate::objects::{put_count, put_overload, put_task, put_word, text_of_name};
use crate::rows::Lasting;
use json::Writer;
use prl_plan::Plan;
use prl_steady::Share;
use std::alloc::AllocError;

/// Writes some jobs of a task, and what they cost.
fn put_share(w: &mut Writer, task: &str, share: Share) -> Result<(), AllocError>
    ensures tokens { OnOk result (w.new.tokens ≡ w.old.tokens ++ share_tokens task.now share) }
    ensures before { w.new.before ≡ w.old.before }
{
    put_word(w, "task", task)?;
    put_count(w, "jobs", share.jobs)?;
    put_count(w, "units", share.units)?;
    Ok(())
}

/// Writes a load that is too much.
fn put_heavy(w: &mut Writer, load: u64, hyper: u64) -> Result<(), AllocError>
    ensures tokens { OnOk result (w.new.tokens ≡ w.old.tokens ++ heavy_tokens load hyper) }
    ensures before { w.new.before ≡ w.old.before }
{
    put_word(w, "row", "heavy")?;
    put_count(w, "load", load)?;
    put_count(w, "has", hyper)?;
    Ok(())
}

/// Writes the interval in which some jobs have to run.
fn put_within(w: &mut Writer, from: u64, to: u64) -> Result<(), AllocError>
    ensures tokens { OnOk result (w.new.tokens ≡ w.old.tokens ++ within_tokens from to) }
    ensures before { w.new.before ≡ w.old.before }
{
    put_word(w, "row", "within")?;
    put_count(w, "from", from)?;
    put_count(w, "to", to)?;
    Ok(())
}

/// Writes the jobs of a task in a hyperperiod.
fn put_hyper_share(w: &mut Writer, task: &str, share: Share) -> Result<(), AllocError>
    ensures tokens { OnOk result (w.new.tokens ≡ w.old.tokens ++ word (codes "row") (codes "hyperperiod") ++ share_tokens task.now share) }
    ensures before { w.new.before ≡ w.old.before }
{
    put_word(w, "row", "hyperperiod")?;
    put_share(w, task, share)?;
    Ok(())
}

/// Writes the jobs of a task that have to run within an interval.
fn put_share_within(
    w: &mut Writer,
    from: u64,
    to: u64,
    task: &str,
    share: Share,
) -> Result<(), AllocError>
    ensures tokens { OnOk result (w.new.tokens ≡ w.old.tokens ++ share_within_tokens from to task.now share) }
    ensures before { w.new.before ≡ w.old.before }
{
    put_within(w, from, to)?;
    put_share(w, task, share)?;
    Ok(())
}

/// Writes the members of a row of what is told for ever.
pub(crate) fn put_lasting(w: &mut Writer, plan: &Plan, row: &Lasting) -> Result<(), AllocError>
    ensures tokens { OnOk result (w.new.tokens ≡ w.old.tokens ++ lasting_fields plan.now.graph row.now) }
    ensures before { w.new.before ≡ w.old.before }
{
    match *row {
        Lasting::Served => put_word(w, "row", "serves")?,
        Lasting::Heavy { load, hyper } => put_heavy(w, load, hyper)?,
        Lasting::Hyper { task, share } => put_hyper_share(w, text_of_name(plan, task), share)?,
        Lasting::Overload { from, to, demand } => put_overload(w, from, to, demand)?,
        Lasting::Within {
            from,
            to,
            task,
            share,
        } => put_share_within(w, from, to, text_of_name(plan, task), share)?,
        Lasting::Task { task, times } => put_task(w, text_of_name(plan, task), times)?,
    }
    Ok(())
}
