//! A static cyclic table in each hyperperiod, entry by entry: its pieces, where its jobs are done, and
//! the load of the processor that it runs on.

ghost use Rattle.std.specs.Prelude.{◌≡◌, ◌+◌, ◌*◌, ◌/◌, ◌%◌, ◌==◌, ◌<◌, ◌++◌, ◌^◌, IfOk, OnOk, length};
ghost use Rattle.prl_tables.specs.Tables.{IsGood, classes};
ghost use Rattle.prl_views.specs.Pieces.{done_text, entry_pieces, marks_text, piece_if, piece_of, row_marks, table_pieces};
ghost use Rattle.prl_shapes.specs.Views.{IsView};

use crate::verdicts::{BELOW, LOW};
use prl_base::TaskNo;
use prl_drawing::{Load, push_mark, row_of, x_within};
use prl_edf::Piece;
use prl_plan::{Plan, plan_is_one};
use prl_shapes::{View, first_shown, job_count};
use prl_tables::{
    Checked, Entry, Table, check_table, classes, classes_are_early, pieces_are_short,
};
use std::alloc::{AllocError, Global};

/// What the pieces of a table mean, and the marks below the windows.
const LEGEND: &str = "<rect class=\"s t7\" x=\"1600\" y=\"590\" width=\"300\" height=\"80\"/>\
    <text x=\"1960\" y=\"670\">entry of the table</text>\
    <path class=\"m e7\" d=\"M3400 590v80\"/>\
    <text x=\"3460\" y=\"670\">its last unit begins: `cycle` does the job</text>\n";

/// How much later than in the first hyperperiod a job of a task has its entries.
fn later_of(plan: &Plan, task: TaskNo, n: u64) -> u64
    requires task { task.0 < length plan.now.graph.tasks }
    requires job { n < 2 ^ 32 }
    ensures exact { result ≡ n / classes plan.now.graph task.0 * plan.now.graph.hyper }
    ensures small { result < 2 ^ 63 }
{
    let hyper = plan.graph().hyper;
    classes_are_early();
    n / classes(plan, task) * hyper
}

/// An entry as a piece of a job of its class.
fn piece_of(plan: &Plan, entry: Entry, n: u64) -> Piece
    requires task { entry.task.0 < length plan.now.graph.tasks }
    requires end { entry.at + entry.units < 2 ^ 33 }
    requires job { n < 2 ^ 32 }
    ensures { result ≡ piece_of plan.now.graph entry n }
{
    let later = later_of(plan, entry.task, n);
    Piece {
        task: entry.task,
        job: n,
        from: entry.at + later,
        to: entry.at + entry.units + later,
    }
}

/// Whether a job of its task is of the class of an entry.
fn is_of_class(plan: &Plan, entry: Entry, n: u64) -> bool
    requires { entry.task.0 < length plan.now.graph.tasks }
    ensures { result ≡ (n % classes plan.now.graph entry.task.0 == entry.job) }
{
    plan.graph();
    classes_are_early();
    n % classes(plan, entry.task) == entry.job
}

/// Adds an entry as a piece of a job, where that is of its class.
fn push_job(pieces: &mut Vec<Piece>, plan: &Plan, entry: Entry, n: u64) -> Result<(), AllocError>
    requires task { entry.task.0 < length plan.now.graph.tasks }
    requires end { entry.at + entry.units < 2 ^ 33 }
    requires job { n < 2 ^ 32 }
    ensures { OnOk result (pieces.new.items ≡ pieces.old.items ++ piece_if plan.now.graph entry n) }
{
    if is_of_class(plan, entry, n) {
        pieces.push(piece_of(plan, entry, n))?;
    }
    Ok(())
}

/// Adds the pieces of an entry: of each job of its class that is shown.
fn push_entry(
    pieces: &mut Vec<Piece>,
    plan: &Plan,
    view: &View,
    entry: Entry,
) -> Result<(), AllocError>
    requires view { IsView plan.now view.now }
    requires task { entry.task.0 < length plan.now.graph.tasks }
    requires end { entry.at + entry.units < 2 ^ 33 }
    ensures { OnOk result (pieces.new.items ≡ pieces.old.items ++ entry_pieces plan.now view.now entry) }
{
    let first = first_shown(plan, entry.task, view.scale.from);
    let last = job_count(plan, entry.task, view.scale.until);
    for n in first..last {
        push_job(pieces, plan, entry, n)?;
    }
    Ok(())
}

/// The pieces of a table: of each entry, in order, one of each job of its class that is shown.
pub(crate) fn pieces_of(
    alloc: Global,
    plan: &Plan,
    view: &View,
    table: &Table,
) -> Result<Vec<Piece>, AllocError>
    requires view { IsView plan.now view.now }
    requires good { IsGood plan.now table.now.entries }
    ensures { IfOk result (λ pieces. pieces.items ≡ table_pieces plan.now view.now table.now.entries) }
{
    plan_is_one(plan);
    pieces_are_short();
    let entries = table.entries.as_slice();
    let mut pieces = Vec::new(alloc);
    for entry in entries {
        push_entry(&mut pieces, plan, view, *entry)?;
    }
    Ok(pieces)
}

/// Appends a mark below the window of a job of a row where its last unit begins, where that tick is drawn.
fn push_done(
    text: &mut Vec<u8>,
    checked: &Checked<'_>,
    view: &View,
    row: u32,
    n: u64,
) -> Result<(), AllocError>
    requires view { IsView checked.now.plan view.now }
    requires row { row < length view.now.rows }
    requires job { n < 2 ^ 32 }
    ensures { OnOk result (text.new.items ≡ text.old.items ++ done_text checked.now.plan view.now checked.now.entries row n) }
{
    let task = view.task(row);
    let tick = checked.last_unit(task, n);
    if view.scale.from <= tick && tick < view.scale.from + view.scale.span {
        let x = x_within(view.scale, tick);
        push_mark(text, task.0, x, row_of(row) + BELOW, LOW)
    } else {
        Ok(())
    }
}

/// Appends the marks of the jobs of a row that are shown.
fn push_row_marks(
    text: &mut Vec<u8>,
    checked: &Checked<'_>,
    view: &View,
    row: u32,
) -> Result<(), AllocError>
    requires view { IsView checked.now.plan view.now }
    requires row { row < length view.now.rows }
    ensures { OnOk result (text.new.items ≡ text.old.items ++ row_marks checked.now.plan view.now checked.now.entries row) }
{
    let task = view.task(row);
    let first = first_shown(checked.plan(), task, view.scale.from);
    let last = job_count(checked.plan(), task, view.scale.until);
    for n in first..last {
        push_done(text, checked, view, row, n)?;
    }
    Ok(())
}

/// The marks of the jobs that are shown.
fn all_marks(alloc: Global, checked: &Checked<'_>, view: &View) -> Result<Vec<u8>, AllocError>
    requires view { IsView checked.now.plan view.now }
    ensures { IfOk result (λ text. text.items ≡ marks_text checked.now.plan view.now checked.now.entries) }
{
    let mut text = Vec::new(alloc);
    for row in 0..view.count() {
        push_row_marks(&mut text, checked, view, row)?;
    }
    Ok(text)
}

/// The marks of the jobs that are shown where their last units begin in a good table.
pub(crate) fn marks_of(
    alloc: Global,
    plan: &Plan,
    view: &View,
    table: &Table,
) -> Result<Vec<u8>, AllocError>
    requires view { IsView plan.now view.now }
    requires good { IsGood plan.now table.now.entries }
    ensures { IfOk result (λ text. text.items ≡ marks_text plan.now view.now table.now.entries) }
{
    match check_table(alloc, plan, table) {
        Ok(checked) => all_marks(alloc, &checked, view),
        Err(_) => Err(AllocError),
    }
}

/// How many ticks the entries have together.
fn busy_of(entries: &[Entry]) -> u64 {
    let mut busy: u64 = 0;
    for entry in entries {
        busy = busy.saturating_add(entry.units);
    }
    busy
}

/// For how many ticks of a hyperperiod the processor is busy.
pub(crate) fn load_of(entries: &[Entry], hyper: u64) -> Load {
    Load {
        legend: LEGEND,
        name: ": table ",
        busy: busy_of(entries),
        ticks: hyper,
    }
}
