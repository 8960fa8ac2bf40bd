//! The picture of a plan, and the call that draws it.

ghost use Rattle.std.specs.Prelude.{◌≡◌, ◌<◌, ◌≤◌, drop, map, IfOk};
ghost use Rattle.std.specs.Bool.{OnFalse};
ghost use Rattle.std.specs.String.{string_bytes};
ghost use Rattle.prl_io.specs.Pairs.{asks_help};
ghost use Rattle.prl_picture.specs.Pictures.{Answers, AreAsked, AreRows, IsDrawn, IsNearRows, IsPicture};
ghost use Rattle.prl_picture.specs.Ranges.{IsRange};
ghost use Rattle.prl_shapes.specs.Views.{AreTasks, IsView};

use crate::asked::shown;
use crate::chosen::{all_rows, near_rows, task_named};
use crate::ranges::{MAX_UNTIL, left_out, scale_of};
use crate::words::{FORM, HELP, OPTIONS, range_of, tick_unit, whole_before};
use prl_base::Seq;
use prl_io::{
    Fault, Files, Piece, Sink, Stop, after_name, are_pairs, asks_help, end, read_named, unfit_for,
    value_of, why_with,
};
use prl_plan::Plan;
use prl_plantext::{PlanFault, read_plan};
use prl_views::{View, picture_of};
use std::alloc::Global;

/// The most bytes of a plan's text.
pub const MAX_PLAN: u64 = 33_554_432;

/// Why there is no picture.
const NO_PLAN: &str = "not the text of a plan";

/// The rows of the task of a name and its neighbours.
fn near_of(alloc: Global, words: &[String], plan: &Plan, name: &[u8]) -> Result<Vec<u32>, Fault>
    ensures rows { IfOk result (λ rows. IsNearRows plan.now rows.items name.now) }
    ensures tasks { IfOk result (λ rows. AreTasks plan.now rows.items) }
{
    match task_named(plan, name) {
        Some(task) => Ok(near_rows(alloc, plan, task)?),
        None => {
            let file = value_of(b"--plan", words).unwrap_or(b"");
            let why = why_with(alloc, &[Piece::Text(b"no task "), Piece::Text(name)]);
            Err(unfit_for(alloc, file, why))
        }
    }
}

/// The rows that the words ask for.
fn chosen(alloc: Global, words: &[String], plan: &Plan) -> Result<Vec<u32>, Fault>
    ensures rows { IfOk result (λ rows. AreRows plan.now (map string_bytes words.now) rows.items) }
    ensures tasks { IfOk result (λ rows. AreTasks plan.now rows.items) }
{
    match value_of(b"--task", words) {
        Some(name) => near_of(alloc, words, plan, name),
        None => Ok(all_rows(alloc, plan)?),
    }
}

/// The view of a range, with the windows whole of jobs that are released before `whole`.
fn view_of(plan: &Plan, rows: Vec<u32>, from: u64, until: u64, whole: u64) -> View
    requires rows { AreTasks plan.now rows.items }
    requires range { (from < until) × (until ≤ MAX_UNTIL) }
    ensures view { IsView plan.now result }
    ensures range { IsRange from until result.scale }
    ensures rows { result.rows ≡ rows.items }
{
    let scale = scale_of(plan, &rows, from, until, whole);
    View {
        scale,
        rows: Seq::new(rows),
    }
}

/// The picture of a plan over these ticks and with these rows, with what the words ask for beside the
/// windows.
fn seen<F: Files>(
    alloc: Global,
    words: &[String],
    files: &mut F,
    plan: &Plan,
    rows: Vec<u32>,
    range: (u64, u64),
) -> Result<Vec<u8>, Fault>
    requires tasks { AreTasks plan.now rows.items }
    requires rows { AreRows plan.now (map string_bytes words.now) rows.items }
    requires some { range.0 < range.1 }
    requires small { range.1 ≤ MAX_UNTIL }
    requires asked { AreAsked plan.now rows.items (map string_bytes words.now) range.0 range.1 }
    ensures text { IfOk result (λ text. IsDrawn (F.seen files.old).folder plan.now (map string_bytes words.now) text.items) }
    ensures kept { (F.seen files.new).folder ≡ (F.seen files.old).folder }
{
    let Some(unit) = tick_unit(words) else {
        return Err(Fault::Stop(Stop::Words(FORM)));
    };
    let shown = shown(alloc, words, files, plan, range.1)?;
    let whole = whole_before(words, plan, range.0);
    let view = view_of(plan, rows, range.0, range.1, whole);
    let more = left_out(plan, view.rows.as_slice(), view.scale.until, range.1);
    Ok(picture_of(alloc, plan, &shown, &view, &unit, more)?)
}

/// The picture of a plan, as the words ask for it.
fn drawn<F: Files>(
    alloc: Global,
    words: &[String],
    files: &mut F,
    plan: &Plan,
) -> Result<Vec<u8>, Fault>
    ensures text { IfOk result (λ text. IsDrawn (F.seen files.old).folder plan.now (map string_bytes words.now) text.items) }
    ensures kept { (F.seen files.new).folder ≡ (F.seen files.old).folder }
{
    let rows = chosen(alloc, words, plan)?;
    let Some(range) = range_of(words, plan, &rows) else {
        return Err(Fault::Stop(Stop::Words(FORM)));
    };
    seen(alloc, words, files, plan, rows, range)
}

/// Says that the file of a name is no plan.
fn no_plan(alloc: Global, name: &[u8]) -> Fault {
    unfit_for(alloc, name, Vec::from_slice(alloc, NO_PLAN.as_bytes()))
}

/// The picture that the words ask for.
fn picture<F: Files>(alloc: Global, words: &[String], files: &mut F) -> Result<Vec<u8>, Fault>
    ensures text { IfOk result (λ text. IsPicture (F.seen files.old).folder (map string_bytes words.now) text.items) }
    ensures kept { (F.seen files.new).folder ≡ (F.seen files.old).folder }
{
    if !are_pairs(&OPTIONS, words) {
        return Err(Fault::Stop(Stop::Words(FORM)));
    }
    let Some(name) = value_of(b"--plan", words) else {
        return Err(Fault::Stop(Stop::Words(FORM)));
    };
    let source = read_named(alloc, files, name, MAX_PLAN)?;
    match read_plan(alloc, &source) {
        Ok(plan) => drawn(alloc, words, files, &plan),
        Err(PlanFault::NotPlan) => Err(no_plan(alloc, name)),
        Err(PlanFault::Memory) => Err(Fault::Stop(Stop::Memory)),
    }
}

/// What the words ask for: what the options mean, or a picture.
fn answer<F: Files>(alloc: Global, words: &[String], files: &mut F) -> Result<Vec<u8>, Fault>
    ensures { OnFalse (asks_help (map string_bytes words.now)) (IfOk result (λ text. IsPicture (F.seen files.old).folder (map string_bytes words.now) text.items)) }
{
    if asks_help(words) {
        return Ok(Vec::from_slice(alloc, HELP.as_bytes())?);
    }
    picture(alloc, words, files)
}

/// Draws a plan: the picture goes to `out`, and at every status but 0 one line goes to `err`. The first word is the program's
/// own name, which is passed over.
pub fn draw<F: Files, S: Sink, E: Sink>(
    alloc: Global,
    words: &[String],
    files: &mut F,
    out: &mut S,
    err: &mut E,
) -> u8
    ensures { Answers (drop 1 (map string_bytes words.now)) (F.seen files.old) (S.seen out.old) (S.seen out.new)
        (E.seen err.old) (E.seen err.new) result }
{
    let outcome = answer(alloc, after_name(words), files);
    end(out, err, outcome)
}
