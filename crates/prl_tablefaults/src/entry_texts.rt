//! Entries and jobs in words.

ghost use Rattle.std.specs.Prelude.{◌≡◌, ◌++◌, ◌+◌, ◌<◌, length, OnOk};
ghost use Rattle.prl_tables.specs.Tables.{classes, is_of};
ghost use Rattle.prl_tablefaults.specs.EntryTexts.{between_text, classes_text, dates_text, entries_text, entry_of, entry_text, from_text, job_text, name_of, named, no_job_text, no_task_text, span_text, window_text};

use crate::lookups::{name_of, tasks_of, window_of};
use prl_base::{TaskNo, push_number};
use prl_overloads::push_numbered;
use prl_plan::Plan;
use prl_tables::{Entry, classes};
use std::alloc::AllocError;

/// Appends words, a number and a name.
#[tactic(auto, unfolding(crate::specs::EntryTexts::named))]
pub(crate) fn push_named(
    text: &mut Vec<u8>,
    front: &[u8],
    n: u64,
    name: &[u8],
) -> Result<(), AllocError>
    ensures { OnOk result (text.new.items ≡ text.old.items ++ named front.now n name.now) }
{
    text.extend_from_slice(front)?;
    push_number(text, n)?;
    text.extend_from_slice(b" of `")?;
    text.extend_from_slice(name)
}

/// Appends from when on, and how long.
fn push_ticks(text: &mut Vec<u8>, at: u64, units: u64) -> Result<(), AllocError>
    ensures { OnOk result (text.new.items ≡ text.old.items ++ span_text at units) }
{
    push_numbered(text, b"` from tick ", at, b", units ")?;
    push_numbered(text, b"", units, b".\n")
}

/// Appends words, and a job of a task.
pub(crate) fn push_job_of(
    text: &mut Vec<u8>,
    front: &[u8],
    n: u64,
    plan: &Plan,
    i: TaskNo,
) -> Result<(), AllocError>
    ensures { OnOk result (text.new.items ≡ text.old.items ++ named front.now n (name_of plan.now i.0)) }
{
    push_named(text, front, n, name_of(plan, i))
}

/// Appends the job of an entry, and its ticks.
fn push_from(text: &mut Vec<u8>, plan: &Plan, entry: Entry) -> Result<(), AllocError>
    ensures { OnOk result (text.new.items ≡ text.old.items ++ from_text plan.now entry) }
{
    push_job_of(text, b"job ", entry.job, plan, entry.task)?;
    push_ticks(text, entry.at, entry.units)
}

/// Appends the entry of a line.
pub(crate) fn push_entry(
    text: &mut Vec<u8>,
    plan: &Plan,
    line: u64,
    entry: Entry,
) -> Result<(), AllocError>
    ensures { OnOk result (text.new.items ≡ text.old.items ++ entry_text plan.now line entry) }
{
    push_numbered(text, b"Line ", line, b": ")?;
    push_from(text, plan, entry)
}

/// Appends two dates of a job.
fn push_between(text: &mut Vec<u8>, release: u64, deadline: u64) -> Result<(), AllocError>
    ensures { OnOk result (text.new.items ≡ text.old.items ++ between_text release deadline) }
{
    push_numbered(text, b"` is released at ", release, b"")?;
    push_numbered(text, b" and due by ", deadline, b".\n")
}

/// Appends the dates of a job.
fn push_dates(text: &mut Vec<u8>, plan: &Plan, i: TaskNo, c: u64) -> Result<(), AllocError>
    requires task { i.0 < length plan.now.graph.tasks }
    requires class { c < classes plan.now.graph i.0 }
    ensures { OnOk result (text.new.items ≡ text.old.items ++ dates_text plan.now i.0 c) }
{
    let (release, deadline) = window_of(plan, i, c);
    push_between(text, release, deadline)
}

/// Appends when a job has to run.
fn push_window(text: &mut Vec<u8>, plan: &Plan, i: TaskNo, c: u64) -> Result<(), AllocError>
    requires task { i.0 < length plan.now.graph.tasks }
    requires class { c < classes plan.now.graph i.0 }
    ensures { OnOk result (text.new.items ≡ text.old.items ++ window_text plan.now i.0 c) }
{
    push_job_of(text, b"Job ", c, plan, i)?;
    push_dates(text, plan, i, c)
}

/// Appends that there is no task of a number.
pub(crate) fn push_no_task(text: &mut Vec<u8>, i: u64, tasks: u64) -> Result<(), AllocError>
    ensures { OnOk result (text.new.items ≡ text.old.items ++ no_task_text i tasks) }
{
    push_numbered(text, b"There is no task ", i, b": the plan has ")?;
    push_numbered(text, b"", tasks, b", which count from 0.\n")
}

/// Appends how many jobs of a task a hyperperiod has.
fn push_classes(text: &mut Vec<u8>, plan: &Plan, i: TaskNo) -> Result<(), AllocError>
    requires { i.0 < length plan.now.graph.tasks }
    ensures { OnOk result (text.new.items ≡ text.old.items ++ classes_text plan.now i.0) }
{
    let count = classes(plan, i);
    push_numbered(
        text,
        b"`: a hyperperiod has ",
        count,
        b", which count from 0.\n",
    )
}

/// Appends that a hyperperiod has no job of a number.
fn push_no_job(text: &mut Vec<u8>, plan: &Plan, i: TaskNo, c: u64) -> Result<(), AllocError>
    requires { i.0 < length plan.now.graph.tasks }
    ensures { OnOk result (text.new.items ≡ text.old.items ++ no_job_text plan.now i.0 c) }
{
    push_job_of(text, b"There is no job ", c, plan, i)?;
    push_classes(text, plan, i)
}

/// Appends when a job has to run, or why there is none.
pub(crate) fn push_job(text: &mut Vec<u8>, plan: &Plan, i: TaskNo, c: u64) -> Result<(), AllocError>
    ensures { OnOk result (text.new.items ≡ text.old.items ++ job_text plan.now i.0 c) }
{
    if u64::from(i.0) >= tasks_of(plan) {
        return push_no_task(text, u64::from(i.0), tasks_of(plan));
    }
    if c < classes(plan, i) {
        push_window(text, plan, i, c)
    } else {
        push_no_job(text, plan, i, c)
    }
}

/// Whether an entry is of this job.
pub(crate) fn is_of(entry: Entry, i: TaskNo, c: u64) -> bool
    ensures { result ≡ is_of i.0 c entry }
{
    entry.task.0 == i.0 && entry.job == c
}

/// Appends an entry, where it is of this job.
fn push_entry_of(
    text: &mut Vec<u8>,
    plan: &Plan,
    entries: &[Entry],
    i: TaskNo,
    c: u64,
    k: usize,
) -> Result<(), AllocError>
    ensures { OnOk result (text.new.items ≡ text.old.items ++ entry_of plan.now entries.now i.0 c k) }
{
    match entries.get(k) {
        Some(entry) if is_of(*entry, i, c) => push_entry(text, plan, k as u64 + 3, *entry),
        _ => Ok(()),
    }
}

/// Appends the entries of a job.
pub(crate) fn push_entries(
    text: &mut Vec<u8>,
    plan: &Plan,
    entries: &[Entry],
    i: TaskNo,
    c: u64,
) -> Result<(), AllocError>
    ensures { OnOk result (text.new.items ≡ text.old.items ++ entries_text plan.now entries.now i.0 c) }
{
    for k in 0..entries.len() {
        push_entry_of(text, plan, entries, i, c, k)?;
    }
    Ok(())
}
