//! The pieces of a run of one processor, below the windows of their tasks and in the row of the
//! processor, with the names of the tasks there, and for how many ticks the processor is busy.

ghost use Rattle.std.specs.Prelude.{◌≡◌, ◌-◌, ◌++◌, ◌≤◌, ◌^◌, OnOk, length, min};
ghost use Rattle.prl_plan.specs.declared.limits.TheConstants.{MAX_TASKS};
ghost use Rattle.prl_views.specs.Loads.{busy_before};
ghost use Rattle.prl_views.specs.Pieces.{high_text, low_text, piece_text};
ghost use Rattle.prl_drawing.specs.Scales.{IsScale};
ghost use Rattle.prl_shapes.specs.Views.{IsView};

use prl_drawing::{
    GAP, LEAST, Scale, Slice, Unit, is_seen, push_box, push_short_legend, push_slice_name, row_of,
    x_within,
};
use prl_edf::Piece;
use prl_plan::Plan;
use prl_shapes::{View, row_in, task_of};
use std::alloc::AllocError;

/// How high a piece is in the row of the processor.
pub const HIGH: u64 = 200;

/// How high a piece is below the windows of its task.
pub const LOW: u64 = 80;

/// How far it is there below the top of the row.
pub const BELOW: u64 = 310;

/// Appends a piece below the windows of its task, where that has a row.
fn push_low(text: &mut Vec<u8>, view: &View, piece: &Piece) -> Result<(), AllocError>
    requires range { IsScale view.now.scale }
    requires few { length view.now.rows ≤ MAX_TASKS }
    ensures { OnOk result (text.new.items ≡ text.old.items ++ low_text view.now piece.now) }
{
    let row = row_in(view.rows.as_slice(), piece.task);
    if row >= view.count() {
        return Ok(());
    }
    let (task, from, to) = (piece.task.0, piece.from, piece.to);
    push_box(text, view.scale, task, from, to, row_of(row) + BELOW, LOW)
}

/// Appends a piece that is drawn: below the windows of its task, and in the row of the processor.
fn push_both(text: &mut Vec<u8>, view: &View, piece: &Piece) -> Result<(), AllocError>
    requires range { IsScale view.now.scale }
    requires few { length view.now.rows ≤ MAX_TASKS }
    ensures { OnOk result (text.new.items ≡ text.old.items ++ (low_text view.now piece.now ++ high_text view.now piece.now)) }
{
    let (task, from, to) = (piece.task.0, piece.from, piece.to);
    let top = row_of(view.count()) + GAP;
    push_low(text, view, piece)?;
    push_box(text, view.scale, task, from, to, top, HIGH)
}

/// Appends a piece, where some of its ticks are drawn.
pub(crate) fn push_piece(text: &mut Vec<u8>, view: &View, piece: &Piece) -> Result<(), AllocError>
    requires range { IsScale view.now.scale }
    requires few { length view.now.rows ≤ MAX_TASKS }
    ensures { OnOk result (text.new.items ≡ text.old.items ++ piece_text view.now piece.now) }
{
    if is_seen(view.scale, piece.from, piece.to) {
        push_both(text, view, piece)
    } else {
        Ok(())
    }
}

/// For how many ticks before an end the processor is busy in a run, as far as 64 bits go.
pub(crate) fn busy_before(pieces: &[Piece], end: u64) -> u64
    ensures { result ≡ min (busy_before end pieces.now) (2 ^ 64 - 1) }
{
    let mut busy: u64 = 0;
    for piece in pieces {
        busy = busy.saturating_add(piece.to.min(end).saturating_sub(piece.from));
    }
    busy
}

/// Appends the name of the task of a piece in the row of the processor, and what is told of it.
fn push_piece_name(
    text: &mut Vec<u8>,
    plan: &Plan,
    view: &View,
    unit: &Unit,
    piece: &Piece,
) -> Result<(), AllocError>
    requires { IsView plan.now view.now }
{
    if piece.task.0 as usize >= plan.graph().tasks.len() {
        return Ok(());
    }
    let slice = Slice {
        job: piece.job,
        from: piece.from,
        to: piece.to,
    };
    let name = task_of(plan, piece.task).name.bytes();
    push_slice_name(text, view.scale, unit, view.count(), name, slice)
}

/// Whether a piece is too narrow for a rectangle.
fn is_short(scale: Scale, piece: &Piece) -> bool
    requires { IsScale scale }
{
    x_within(scale, piece.to).saturating_sub(x_within(scale, piece.from)) < LEAST
}

/// Appends the names of the tasks of the pieces that are drawn, and what a line means that stands for a
/// piece, where there is one.
pub(crate) fn push_names(
    text: &mut Vec<u8>,
    plan: &Plan,
    view: &View,
    unit: &Unit,
    pieces: &[Piece],
) -> Result<(), AllocError>
    requires { IsView plan.now view.now }
{
    let mut short = false;
    for piece in pieces {
        if is_seen(view.scale, piece.from, piece.to) {
            short = short || is_short(view.scale, piece);
            push_piece_name(text, plan, view, unit, piece)?;
        }
    }
    if short {
        return push_short_legend(text);
    }
    Ok(())
}
