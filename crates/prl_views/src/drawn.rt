//! The picture of a view of a plan.

ghost use Rattle.std.specs.Prelude.{◌≡◌, ◌++◌, IfOk};
ghost use Rattle.std.specs.List.{flat_map};
ghost use Rattle.prl_drawing.specs.Windows.{window_text};
ghost use Rattle.prl_views.specs.Drawn.{IsPictureOf};
ghost use Rattle.prl_views.specs.Pieces.{IsPiecesText};
ghost use Rattle.prl_shapes.specs.Shown.{IsOfPlan};
ghost use Rattle.prl_shapes.specs.Views.{IsView};

use crate::arrows::push_arrows;
use crate::details::push_details;
use crate::heads::push_head;
use crate::shown::{pieces, push_shown, rows_of};
use prl_drawing::{Shape, Unit, push, push_numbers, windows};
use prl_plan::Plan;
use prl_shapes::{Shown, View, shapes_of};
use std::alloc::{AllocError, Global};

/// What is drawn over the windows.
fn above(
    alloc: Global,
    plan: &Plan,
    shown: &Shown,
    view: &View,
    unit: &Unit,
    shapes: &[Shape],
) -> Result<Vec<u8>, AllocError>
    requires view { IsView plan.now view.now }
    requires shown { IsOfPlan plan.now shown.now }
{
    let mut text = Vec::new(alloc);
    push_shown(alloc, &mut text, plan, view, unit, shapes, shown)?;
    push_details(&mut text, plan, view.scale, unit, shapes)?;
    push_arrows(alloc, &mut text, plan, shown, view)?;
    push_numbers(&mut text, shapes)?;
    push(&mut text, "</svg>\n")?;
    Ok(text)
}

/// What is drawn below the windows.
fn below(
    alloc: Global,
    plan: &Plan,
    view: &View,
    rows: u32,
    unit: &Unit,
    left_out: u64,
) -> Result<Vec<u8>, AllocError>
    requires view { IsView plan.now view.now }
{
    let mut text = Vec::new(alloc);
    push_head(&mut text, plan, view, unit, left_out, rows)?;
    Ok(text)
}

/// The windows of jobs, and the pieces of the run.
fn inside(
    alloc: Global,
    plan: &Plan,
    shown: &Shown,
    view: &View,
    shapes: &[Shape],
) -> Result<(Vec<u8>, Vec<u8>), AllocError>
    requires view { IsView plan.now view.now }
    requires shown { IsOfPlan plan.now shown.now }
    ensures windows { IfOk result (λ made. made.0.items ≡ flat_map window_text shapes.now) }
    ensures pieces { IfOk result (λ made. IsPiecesText plan.now view.now shown.now made.1.items) }
{
    let windows = windows(alloc, shapes)?;
    Ok((windows, pieces(alloc, plan, view, shown)?))
}

/// Texts one after another, behind a first one.
fn joined(first: Vec<u8>, two: &(Vec<u8>, Vec<u8>), last: &[u8]) -> Result<Vec<u8>, AllocError>
    ensures { IfOk result (λ text. text.items ≡ first.items ++ two.now.0.items ++ two.now.1.items ++ last.now) }
{
    let mut text = first;
    text.extend_from_slice(&two.0)?;
    text.extend_from_slice(&two.1)?;
    text.extend_from_slice(last)?;
    Ok(text)
}

/// The picture of the jobs of a plan, with what is drawn beside the windows.
pub fn picture_of(
    alloc: Global,
    plan: &Plan,
    shown: &Shown,
    view: &View,
    unit: &Unit,
    left_out: u64,
) -> Result<Vec<u8>, AllocError>
    requires view { IsView plan.now view.now }
    requires shown { IsOfPlan plan.now shown.now }
    ensures { IfOk result (λ text. IsPictureOf plan.now shown.now view.now text.items) }
{
    let shapes = shapes_of(alloc, plan, shown, view)?;
    let inside = inside(alloc, plan, shown, view, &shapes)?;
    let above = above(alloc, plan, shown, view, unit, &shapes)?;
    let rows = rows_of(alloc, view, shown)?;
    let below = below(alloc, plan, view, rows, unit, left_out)?;
    joined(below, &inside, &above)
}
