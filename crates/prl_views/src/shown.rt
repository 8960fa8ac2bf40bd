//! What is drawn beside the windows: what a schedule does, the run of one processor, a run on several
//! processors, or a static cyclic table.

ghost use Rattle.std.specs.Prelude.{◌≡◌, ◌-◌, ◌++◌, ◌≤◌, ◌^◌, IfOk, length, min};
ghost use Rattle.std.specs.List.{flat_map};
ghost use Rattle.prl_plan.specs.declared.limits.TheConstants.{MAX_TASKS};
ghost use Rattle.prl_views.specs.Loads.{busy_before};
ghost use Rattle.prl_views.specs.Pieces.{IsPartsText, IsPiecesText, piece_text, marks_text, table_pieces};
ghost use Rattle.prl_shapes.specs.Shown.{IsOfPlan};
ghost use Rattle.prl_shapes.specs.Views.{IsView};
ghost use Rattle.prl_drawing.specs.Scales.{IsScale};
ghost use Rattle.prl_tables.specs.Tables.{IsGood};

use crate::parts::{part_texts, parts_of, used_of};
use crate::processors::{push_labels, push_rows};
use crate::signs::push_signs;
use crate::tables::{load_of, marks_of, pieces_of};
use crate::verdicts::{busy_before, push_names, push_piece};
use prl_cores::Spread;
use prl_drawing::{Load, Overload, Shape, Unit, push_all_counted, push_load, push_overload};
use prl_edf::{Piece, Verdict};
use prl_plan::{Event, Horizon, Plan};
use prl_shapes::{Shown, View, acts_of};
use prl_tables::Table;
use std::alloc::{AllocError, Global};

/// What the pieces of a run mean.
const LEGEND: &str = "<rect class=\"s t7\" x=\"1600\" y=\"590\" width=\"300\" height=\"80\"/>\
    <text x=\"1960\" y=\"670\">processor's time, earliest deadline first</text>\n";

/// How many rows are drawn: one for each task of the view, and one for each processor where these are
/// shown.
pub(crate) fn rows_of(alloc: Global, view: &View, shown: &Shown) -> Result<u32, AllocError>
    requires { length view.now.rows ≤ MAX_TASKS }
{
    let rows = view.count();
    match shown {
        Shown::Events(_) => Ok(rows),
        Shown::Verdict(..) => Ok(rows + 1),
        Shown::Table(_) => Ok(rows + 1),
        Shown::Cores(spread, _) => {
            let used = used_of(alloc, spread.processors())?;
            Ok(rows + used.len() as u32)
        }
    }
}

/// What is drawn, or want of memory.
type Text = Result<Vec<u8>, AllocError>;

/// The pieces of a run of one processor, each once.
fn run_pieces(alloc: Global, view: &View, pieces: &[Piece]) -> Text
    requires range { IsScale view.now.scale }
    requires few { length view.now.rows ≤ MAX_TASKS }
    ensures { IfOk result (λ text. text.items ≡ flat_map (piece_text view.now) pieces.now) }
{
    let mut text = Vec::new(alloc);
    for piece in pieces {
        push_piece(&mut text, view, piece)?;
    }
    Ok(text)
}

/// The parts of ticks in which tasks act in a run, each once, in the rows of their processors.
fn run_parts(alloc: Global, view: &View, spread: &Spread, events: &[Event]) -> Text
    requires range { IsScale view.now.scale }
    requires few { length view.now.rows ≤ MAX_TASKS }
    ensures { IfOk result (λ text. IsPartsText view.now spread.now events.now text.items) }
{
    let acts = acts_of(alloc, events)?;
    let parts = parts_of(alloc, view.scale, spread.processors(), &acts)?;
    part_texts(alloc, view.count(), spread.processors(), &parts)
}

/// The pieces of a table in each hyperperiod, each once, and the marks where jobs are done.
fn table_text(alloc: Global, plan: &Plan, view: &View, table: &Table) -> Text
    requires view { IsView plan.now view.now }
    requires good { IsGood plan.now table.now.entries }
    ensures { IfOk result (λ text. text.items ≡ flat_map (piece_text view.now) (table_pieces plan.now view.now table.now.entries)
        ++ marks_text plan.now view.now table.now.entries) }
{
    let pieces = pieces_of(alloc, plan, view, table)?;
    let mut text = run_pieces(alloc, view, &pieces)?;
    text.extend_from_slice(&marks_of(alloc, plan, view, table)?)?;
    Ok(text)
}

/// The pieces of the run, each once, where there is one; or those of the table, with the marks.
pub(crate) fn pieces(alloc: Global, plan: &Plan, view: &View, shown: &Shown) -> Text
    requires view { IsView plan.now view.now }
    requires shown { IsOfPlan plan.now shown.now }
    ensures { IfOk result (λ text. IsPiecesText plan.now view.now shown.now text.items) }
{
    match shown {
        Shown::Events(_) => Ok(Vec::new(alloc)),
        Shown::Verdict(_, Verdict::Overload { .. }) => Ok(Vec::new(alloc)),
        Shown::Verdict(_, Verdict::Run(timed)) => run_pieces(alloc, view, timed.pieces.as_slice()),
        Shown::Cores(spread, events) => run_parts(alloc, view, spread, events),
        Shown::Table(table) => table_text(alloc, plan, view, table),
    }
}

/// Appends what a run on processors does: signs below the windows of the tasks, and what the rows of
/// the processors say.
fn push_run(
    alloc: Global,
    text: &mut Vec<u8>,
    plan: &Plan,
    view: &View,
    unit: &Unit,
    spread: &Spread,
    events: &[Event],
) -> Result<(), AllocError>
    requires { IsView plan.now view.now }
{
    let acts = acts_of(alloc, events)?;
    push_signs(text, plan, view, unit, &acts)?;
    let processors = spread.processors();
    let used = used_of(alloc, processors)?;
    let parts = parts_of(alloc, view.scale, processors, &acts)?;
    push_rows(text, view.count(), processors, &used)?;
    push_labels(text, plan, unit, view.count(), processors, &used, &parts)
}

/// The load of a processor over the ticks before the one up to which the run has its jobs.
fn load_of_run(horizon: &Horizon, pieces: &[Piece]) -> Load
    ensures busy { result.busy ≡ min (busy_before horizon.now.until pieces.now) (2 ^ 64 - 1) }
    ensures ticks { result.ticks ≡ horizon.now.until }
{
    Load {
        legend: LEGEND,
        name: ": load ",
        busy: busy_before(pieces, horizon.until),
        ticks: horizon.until,
    }
}

/// Appends the load of a table, and the names of the tasks in its pieces.
fn push_table(
    alloc: Global,
    text: &mut Vec<u8>,
    plan: &Plan,
    view: &View,
    unit: &Unit,
    table: &Table,
) -> Result<(), AllocError>
    requires view { IsView plan.now view.now }
    requires good { IsGood plan.now table.now.entries }
{
    let load = load_of(table.entries.as_slice(), plan.graph().hyper);
    push_load(text, unit, view.count(), load)?;
    let pieces = pieces_of(alloc, plan, view, table)?;
    push_names(text, plan, view, unit, &pieces)
}

/// Appends the mark of an overloaded interval, with frames round the windows inside it.
fn push_overloaded(
    text: &mut Vec<u8>,
    view: &View,
    unit: &Unit,
    shapes: &[Shape],
    overload: Overload,
) -> Result<(), AllocError>
    requires range { IsScale view.now.scale }
    requires few { length view.now.rows ≤ MAX_TASKS }
{
    push_overload(text, view.scale, unit, view.count(), overload)?;
    push_all_counted(text, shapes, overload)
}

/// Appends what a schedule does; or the load of the processor and the names in its row; or the mark of
/// an overloaded interval; or what a run on processors does; or the load and the names of a table.
pub(crate) fn push_shown(
    alloc: Global,
    text: &mut Vec<u8>,
    plan: &Plan,
    view: &View,
    unit: &Unit,
    shapes: &[Shape],
    shown: &Shown,
) -> Result<(), AllocError>
    requires view { IsView plan.now view.now }
    requires shown { IsOfPlan plan.now shown.now }
{
    match shown {
        Shown::Events(events) => push_signs(text, plan, view, unit, &acts_of(alloc, events)?),
        Shown::Verdict(horizon, Verdict::Run(timed)) => {
            let pieces = timed.pieces.as_slice();
            let load = load_of_run(horizon, pieces);
            push_load(text, unit, view.count(), load)?;
            push_names(text, plan, view, unit, pieces)
        }
        Shown::Verdict(_, Verdict::Overload { from, to, demand }) => {
            let overload = Overload {
                from: *from,
                to: *to,
                demand: *demand,
            };
            push_overloaded(text, view, unit, shapes, overload)
        }
        Shown::Cores(spread, events) => push_run(alloc, text, plan, view, unit, spread, events),
        Shown::Table(table) => push_table(alloc, text, plan, view, unit, table),
    }
}
