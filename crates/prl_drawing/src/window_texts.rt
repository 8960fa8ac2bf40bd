//! The windows of jobs as SVG.

ghost use Rattle.std.specs.Prelude.{◌≡◌, ◌+◌, ◌-◌, ◌++◌, IfOk, OnOk};
ghost use Rattle.std.specs.List.{flat_map};
ghost use Rattle.prl_drawing.specs.Rows.{row_of};
ghost use Rattle.prl_drawing.specs.Windows.{window_text};

use crate::boxes::push_cut;
use crate::rows::{GAP, colour_of, row_of};
use crate::shapes::Shape;
use crate::texts::push_attribute;
use std::alloc::{AllocError, Global};

/// How high a window is.
pub const HIGH: u64 = 200;

/// How far the windows of a row are from the top.
fn window_top(row: u32) -> u64
    ensures { result ≡ row_of row + GAP }
{
    row_of(row) + GAP
}

/// How wide the window of a job is.
fn width_of(shape: &Shape) -> u64
    ensures { result ≡ shape.now.right - shape.now.left }
{
    shape.right.saturating_sub(shape.left)
}

/// Appends the window of a job.
#[tactic(auto, unfolding(crate::specs::Windows::window_text))]
fn push_window(text: &mut Vec<u8>, shape: &Shape) -> Result<(), AllocError>
    ensures { OnOk result (text.new.items ≡ text.old.items ++ window_text shape.now) }
{
    push_attribute(text, "<rect class=\"w t", colour_of(shape.task))?;
    let top = window_top(shape.row);
    push_cut(text, shape.cut, shape.left, top, width_of(shape), HIGH)
}

/// The windows of jobs, each once, in order.
pub fn windows(alloc: Global, shapes: &[Shape]) -> Result<Vec<u8>, AllocError>
    ensures { IfOk result (λ text. text.items ≡ flat_map window_text shapes.now) }
{
    let mut text = Vec::new(alloc);
    for shape in shapes {
        push_window(&mut text, shape)?;
    }
    Ok(text)
}
