//! What is told of a fault of a table.

ghost use Rattle.std.specs.Prelude.{◌≡◌, ◌++◌, ◌<◌, ◌⊎◌, [], IfOk, IfSome, OnOk, Some, length};
ghost use Rattle.prl_plan.specs.Vocabulary.{edge_at};
ghost use Rattle.prl_tables.specs.Tables.{classes, units_of};
ghost use Rattle.prl_tablefaults.specs.FaultTexts.{IsOrderTold, again_text, clash_text, consumer_text, edge_no_text, edge_text, entries_to, have_text, line_text, mend_text, order_text, pair_text, stands_text, sum_text, units_in, waits_text, whole_text};

use crate::entry_texts::{is_of, push_entries, push_entry, push_job, push_job_of, push_no_task};
use crate::lookups::{consumer_of, hyper_of, producer_of, tasks_of, waits_for};
use prl_base::{EdgeNo, TaskNo};
use prl_overloads::{push_numbered, wcet_at};
use prl_plan::Plan;
use prl_tables::Entry;
use std::alloc::{AllocError, Global};

/// Appends an entry, and its job; that its task is none.
fn push_stands(text: &mut Vec<u8>, plan: &Plan, line: u64, entry: Entry) -> Result<(), AllocError>
    ensures { OnOk result (text.new.items ≡ text.old.items ++ stands_text plan.now line (Some entry)) }
{
    if u64::from(entry.task.0) >= tasks_of(plan) {
        return push_no_task(text, u64::from(entry.task.0), tasks_of(plan));
    }
    push_entry(text, plan, line, entry)?;
    push_job(text, plan, entry.task, entry.job)
}

/// Appends what stands in a line.
fn push_line(
    text: &mut Vec<u8>,
    plan: &Plan,
    entries: &[Entry],
    line: u64,
) -> Result<(), AllocError>
    ensures { OnOk result (text.new.items ≡ text.old.items ++ line_text plan.now entries.now line) }
{
    match entries.get(line.saturating_sub(3) as usize) {
        None => Ok(()),
        Some(entry) => push_stands(text, plan, line, *entry),
    }
}

/// Appends the units of a job's lines, and its WCET.
fn push_have(text: &mut Vec<u8>, units: u64, wcet: u64) -> Result<(), AllocError>
    ensures { OnOk result (text.new.items ≡ text.old.items ++ have_text units wcet) }
{
    push_numbered(text, b"Its lines have ", units, b" units in all, ")?;
    push_numbered(text, b"and its wcet is ", wcet, b": ")
}

/// Appends how many units are to come or to go.
fn push_mend(text: &mut Vec<u8>, units: u64, wcet: u64) -> Result<(), AllocError>
    ensures { OnOk result (text.new.items ≡ text.old.items ++ mend_text units wcet) }
{
    if units < wcet {
        push_numbered(text, b"add ", wcet - units, b".\n")
    } else {
        push_numbered(text, b"take out ", units - wcet, b".\n")
    }
}

/// Appends the units of a job's lines, its WCET, and how many are to come or to go.
fn push_sum(text: &mut Vec<u8>, units: u64, wcet: u64) -> Result<(), AllocError>
    ensures { OnOk result (text.new.items ≡ text.old.items ++ sum_text units wcet) }
{
    push_have(text, units, wcet)?;
    push_mend(text, units, wcet)
}

/// The units of an entry, where it is of this job.
fn units_in(entry: Entry, i: TaskNo, c: u64) -> u64
    ensures { result ≡ units_in i.0 c entry }
{
    if is_of(entry, i, c) { entry.units } else { 0 }
}

/// How many units a job has in a table; None past 64 bits.
#[tactic(auto, using(crate::proofs::UnitSums::one_more))]
fn units_of(entries: &[Entry], i: TaskNo, c: u64) -> Option<u64>
    ensures { IfSome result (λ units. units ≡ units_of entries.now i.0 c) }
{
    let mut sum: u64 = 0;
    for k in 0..entries.len() {
        sum = sum.checked_add(units_in(entries[k], i, c))?;
    }
    Some(sum)
}

/// Appends a job, its entries, their units and its WCET.
fn push_whole(
    text: &mut Vec<u8>,
    plan: &Plan,
    entries: &[Entry],
    i: TaskNo,
    c: u64,
    units: u64,
) -> Result<(), AllocError>
    requires { units ≡ units_of entries.now i.0 c }
    ensures { OnOk result (text.new.items ≡ text.old.items ++ whole_text plan.now entries.now i.0 c) }
{
    push_job(text, plan, i, c)?;
    push_entries(text, plan, entries, i, c)?;
    push_sum(text, units, wcet_at(plan.graph(), i.0 as usize))
}

/// Appends when the table comes again.
fn push_again(text: &mut Vec<u8>, plan: &Plan) -> Result<(), AllocError>
    ensures { OnOk result (text.new.items ≡ text.old.items ++ again_text plan.now) }
{
    let hyper = hyper_of(plan);
    push_numbered(text, b"The table comes again after ", hyper, b" ticks.\n")
}

/// Appends what stands in two lines.
fn push_pair(
    text: &mut Vec<u8>,
    plan: &Plan,
    entries: &[Entry],
    first: u64,
    second: u64,
) -> Result<(), AllocError>
    ensures { OnOk result (text.new.items ≡ text.old.items ++ pair_text plan.now entries.now first second) }
{
    push_line(text, plan, entries, first)?;
    push_line(text, plan, entries, second)
}

/// Appends the entries of two lines with their jobs.
fn push_clash(
    text: &mut Vec<u8>,
    plan: &Plan,
    entries: &[Entry],
    first: u64,
    second: u64,
) -> Result<(), AllocError>
    ensures { OnOk result (text.new.items ≡ text.old.items ++ clash_text plan.now entries.now first second) }
{
    push_pair(text, plan, entries, first, second)?;
    push_again(text, plan)
}

/// Appends a job of the consumer of an edge.
fn push_consumer(text: &mut Vec<u8>, plan: &Plan, e: EdgeNo, c: u64) -> Result<(), AllocError>
    requires { e.0 < length plan.now.graph.edges }
    ensures { OnOk result (text.new.items ≡ text.old.items ++ consumer_text plan.now e.0 c) }
{
    push_job_of(text, b"Job ", c, plan, consumer_of(plan, e))
}

/// Appends the number of an edge.
fn push_edge_no(text: &mut Vec<u8>, e: EdgeNo) -> Result<(), AllocError>
    ensures { OnOk result (text.new.items ≡ text.old.items ++ edge_no_text e.0) }
{
    push_numbered(text, b"` waits on edge ", u64::from(e.0), b"")
}

/// Appends which job waits on an edge.
fn push_edge(text: &mut Vec<u8>, plan: &Plan, e: EdgeNo, c: u64) -> Result<(), AllocError>
    requires { e.0 < length plan.now.graph.edges }
    ensures { OnOk result (text.new.items ≡ text.old.items ++ edge_text plan.now e.0 c) }
{
    push_consumer(text, plan, e, c)?;
    push_edge_no(text, e)
}

/// Appends which job waits for which.
#[tactic(auto, unfolding(crate::specs::FaultTexts::waits_text))]
fn push_waits(
    text: &mut Vec<u8>,
    plan: &Plan,
    e: EdgeNo,
    c: u64,
    i: TaskNo,
    m: u64,
) -> Result<(), AllocError>
    requires { e.0 < length plan.now.graph.edges }
    ensures { OnOk result (text.new.items ≡ text.old.items ++ waits_text plan.now e.0 c i.0 m) }
{
    push_edge(text, plan, e, c)?;
    push_job_of(text, b" for job ", m, plan, i)?;
    text.extend_from_slice(b"`.\n")
}

/// Appends the entries of a job of the consumer of an edge.
fn push_entries_to(
    text: &mut Vec<u8>,
    plan: &Plan,
    entries: &[Entry],
    e: EdgeNo,
    c: u64,
) -> Result<(), AllocError>
    requires { e.0 < length plan.now.graph.edges }
    ensures { OnOk result (text.new.items ≡ text.old.items ++ entries_to plan.now entries.now e.0 c) }
{
    push_entries(text, plan, entries, consumer_of(plan, e), c)
}

/// Appends which job waits for which, and the entries of both.
#[tactic(auto, unfolding(crate::specs::FaultTexts::order_text))]
fn push_order(
    text: &mut Vec<u8>,
    plan: &Plan,
    entries: &[Entry],
    e: EdgeNo,
    c: u64,
    i: TaskNo,
    m: u64,
) -> Result<(), AllocError>
    requires { e.0 < length plan.now.graph.edges }
    ensures { OnOk result (text.new.items ≡ text.old.items ++ order_text plan.now entries.now e.0 c i.0 m) }
{
    push_waits(text, plan, e, c, i, m)?;
    push_entries_to(text, plan, entries, e, c)?;
    push_entries(text, plan, entries, i, m)
}

/// What is told of a line.
pub(crate) fn line_told(
    alloc: Global,
    plan: &Plan,
    entries: &[Entry],
    line: u64,
) -> Result<Vec<u8>, AllocError>
    ensures { IfOk result (λ text. text.items ≡ line_text plan.now entries.now line) }
{
    let mut text = Vec::new(alloc);
    push_line(&mut text, plan, entries, line)?;
    Ok(text)
}

/// What is told of two lines.
pub(crate) fn clash_told(
    alloc: Global,
    plan: &Plan,
    entries: &[Entry],
    first: u64,
    second: u64,
) -> Result<Vec<u8>, AllocError>
    ensures { IfOk result (λ text. text.items ≡ clash_text plan.now entries.now first second) }
{
    let mut text = Vec::new(alloc);
    push_clash(&mut text, plan, entries, first, second)?;
    Ok(text)
}

/// What is told of the units of a job; nothing where they are past 64 bits.
pub(crate) fn whole_told(
    alloc: Global,
    plan: &Plan,
    entries: &[Entry],
    i: TaskNo,
    c: u64,
) -> Result<Vec<u8>, AllocError>
    ensures { IfOk result (λ text. (text.items ≡ []) ⊎ (text.items ≡ whole_text plan.now entries.now i.0 c)) }
{
    let mut text = Vec::new(alloc);
    match units_of(entries, i, c) {
        None => Ok(text),
        Some(units) => {
            push_whole(&mut text, plan, entries, i, c, units)?;
            Ok(text)
        }
    }
}

/// What is told of a job that waits for another one.
fn waiting_told(
    alloc: Global,
    plan: &Plan,
    entries: &[Entry],
    e: EdgeNo,
    c: u64,
    i: TaskNo,
    m: u64,
) -> Result<Vec<u8>, AllocError>
    requires { e.0 < length plan.now.graph.edges }
    ensures { IfOk result (λ text. text.items ≡ order_text plan.now entries.now e.0 c i.0 m) }
{
    let mut text = Vec::new(alloc);
    push_order(&mut text, plan, entries, e, c, i, m)?;
    Ok(text)
}

/// What is told of a job of the consumer of an edge, and of the job that it waits for; nothing where it reads a constant.
#[tactic(auto, using(crate::proofs::Faults::order_is))]
pub(crate) fn order_told(
    alloc: Global,
    plan: &Plan,
    entries: &[Entry],
    e: EdgeNo,
    c: u64,
) -> Result<Vec<u8>, AllocError>
    requires edge { e.0 < length plan.now.graph.edges }
    requires class { c < classes plan.now.graph (edge_at plan.now.graph e.0).to.0 }
    ensures { IfOk result (λ text. (text.items ≡ []) ⊎ IsOrderTold plan.now entries.now e.0 c text.items) }
{
    let Some(i) = producer_of(plan, e) else {
        return Ok(Vec::new(alloc));
    };
    match waits_for(plan, e, c) {
        None => Ok(Vec::new(alloc)),
        Some(m) => waiting_told(alloc, plan, entries, e, c, i, m),
    }
}
