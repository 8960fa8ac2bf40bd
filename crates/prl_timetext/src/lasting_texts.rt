//! The lines of what is told of one processor for ever.

ghost use Rattle.std.specs.Prelude.{◌≡◌, ◌++◌, codes, OnOk};
ghost use Rattle.prl_timetext.specs.Texts.{heavy_words, lasting_words, share_words, within_words};

use crate::rows::Lasting;
use crate::texts::{push_field, push_name, push_overload, push_task};
use prl_base::TaskNo;
use prl_plan::Plan;
use prl_steady::Share;
use std::alloc::AllocError;

/// Appends some jobs of a task, and what they cost.
fn push_share(text: &mut Vec<u8>, plan: &Plan, task: TaskNo, share: Share) -> Result<(), AllocError>
    ensures { OnOk result (text.new.items ≡ text.old.items ++ share_words plan.now.graph task share) }
{
    text.extend_from_slice(b"task")?;
    push_name(text, plan, task)?;
    push_field(text, b" jobs ", share.jobs)?;
    push_field(text, b" units ", share.units)?;
    Ok(())
}

/// Appends a load that is too much.
fn push_heavy(text: &mut Vec<u8>, load: u64, hyper: u64) -> Result<(), AllocError>
    ensures { OnOk result (text.new.items ≡ text.old.items ++ heavy_words load hyper) }
{
    push_field(text, b"heavy load ", load)?;
    push_field(text, b" has ", hyper)?;
    Ok(())
}

/// Appends the interval in which some jobs have to run.
fn push_within(text: &mut Vec<u8>, from: u64, to: u64) -> Result<(), AllocError>
    ensures { OnOk result (text.new.items ≡ text.old.items ++ within_words from to) }
{
    push_field(text, b"within ", from)?;
    push_field(text, b" ", to)?;
    text.extend_from_slice(b" ")?;
    Ok(())
}

/// Appends the jobs of a task in a hyperperiod.
fn push_hyper_share(
    text: &mut Vec<u8>,
    plan: &Plan,
    task: TaskNo,
    share: Share,
) -> Result<(), AllocError>
    ensures { OnOk result (text.new.items ≡ text.old.items ++ codes "hyperperiod " ++ share_words plan.now.graph task share) }
{
    text.extend_from_slice(b"hyperperiod ")?;
    push_share(text, plan, task, share)
}

/// Appends the jobs of a task that have to run within an interval.
fn push_share_within(
    text: &mut Vec<u8>,
    plan: &Plan,
    from: u64,
    to: u64,
    task: TaskNo,
    share: Share,
) -> Result<(), AllocError>
    ensures { OnOk result (text.new.items ≡ text.old.items ++ within_words from to ++ share_words plan.now.graph task share) }
{
    push_within(text, from, to)?;
    push_share(text, plan, task, share)
}

/// Appends a row of what is told for ever.
pub(crate) fn push_lasting(text: &mut Vec<u8>, plan: &Plan, row: &Lasting) -> Result<(), AllocError>
    ensures { OnOk result (text.new.items ≡ text.old.items ++ lasting_words plan.now.graph row.now) }
{
    match *row {
        Lasting::Served => text.extend_from_slice(b"serves for ever"),
        Lasting::Heavy { load, hyper } => push_heavy(text, load, hyper),
        Lasting::Hyper { task, share } => push_hyper_share(text, plan, task, share),
        Lasting::Overload { from, to, demand } => push_overload(text, from, to, demand),
        Lasting::Within {
            from,
            to,
            task,
            share,
        } => push_share_within(text, plan, from, to, task, share),
        Lasting::Task { task, times } => push_task(text, plan, task, times),
    }
}
