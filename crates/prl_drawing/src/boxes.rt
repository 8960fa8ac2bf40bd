//! Rectangles and lines in the colours of tasks, and what stands over the ticks of an interval.

ghost use Rattle.std.specs.Prelude.{◌≡◌, ◌++◌, OnOk};
ghost use Rattle.prl_drawing.specs.Boxes.{box_text, coloured_text, cut_text, down_text, front_text, mark_text, sides_text};
ghost use Rattle.prl_drawing.specs.Scales.{IsScale};

use crate::cuts::{Cut, cut_of, push_open};
use crate::rows::colour_of;
use crate::scales::{Scale, x_within};
use crate::texts::{push, push_all, push_attribute};
use std::alloc::AllocError;

/// Less than this, in tenths of a pixel, is too narrow to be seen: a line stands for it.
pub const LEAST: u64 = 5;

/// From this width on, in tenths of a pixel, a rectangle over ticks has an outline.
pub const OUTLINED: u64 = 20;

/// What the rest of a rectangle ends with that tells nothing.
pub(crate) const CLOSED: &str = "\"/>\n";

/// Appends where a rectangle stands, how wide and high it is, and what comes behind that.
pub(crate) fn push_place(
    text: &mut Vec<u8>,
    left: u64,
    top: u64,
    width: u64,
    height: u64,
    tail: &str,
) -> Result<(), AllocError>
    ensures { OnOk result (text.new.items ≡ text.old.items ++ sides_text left top width height ++ tail.now) }
{
    let attributes = [
        ("\" x=\"", left),
        ("\" y=\"", top),
        ("\" width=\"", width),
        ("\" height=\"", height),
    ];
    push_all(text, &attributes, tail)
}

/// Appends the rest of a rectangle that tells something where the mouse rests on it, up to what it tells.
pub fn push_telling(
    text: &mut Vec<u8>,
    left: u64,
    top: u64,
    width: u64,
    height: u64,
) -> Result<(), AllocError> {
    push_place(text, left, top, width, height, "\"><title>")
}

/// Appends a rectangle in the colour of a task.
pub fn push_coloured(
    text: &mut Vec<u8>,
    task: u32,
    left: u64,
    top: u64,
    width: u64,
    height: u64,
) -> Result<(), AllocError>
    ensures { OnOk result (text.new.items ≡ text.old.items ++ coloured_text task left top width height) }
{
    push_attribute(text, "<rect class=\"s t", colour_of(task))?;
    push_place(text, left, top, width, height, CLOSED)
}

/// Appends the rest of a rectangle whose outline is open where it is cut off.
#[tactic(auto, unfolding(crate::specs::Boxes::cut_text))]
pub(crate) fn push_cut(
    text: &mut Vec<u8>,
    cut: Cut,
    left: u64,
    top: u64,
    width: u64,
    height: u64,
) -> Result<(), AllocError>
    ensures { OnOk result (text.new.items ≡ text.old.items ++ cut_text cut left top width height) }
{
    push_place(text, left, top, width, height, "")?;
    push_open(text, cut, width, height)?;
    push(text, CLOSED)
}

/// Appends the rest of a line downwards.
fn push_down(text: &mut Vec<u8>, x: u64, top: u64, height: u64) -> Result<(), AllocError>
    ensures { OnOk result (text.new.items ≡ text.old.items ++ down_text x top height) }
{
    let attributes = [("\" d=\"M", x), (" ", top), ("v", height)];
    push_all(text, &attributes, CLOSED)
}

/// Appends the mark of a task at an instant.
pub fn push_mark(
    text: &mut Vec<u8>,
    task: u32,
    x: u64,
    top: u64,
    height: u64,
) -> Result<(), AllocError>
    ensures { OnOk result (text.new.items ≡ text.old.items ++ mark_text task x top height) }
{
    push_attribute(text, "<path class=\"m e", colour_of(task))?;
    push_down(text, x, top, height)
}

/// How what stands over ticks begins, by how wide it is.
fn front_of(width: u64) -> &'static str
    ensures { result.now ≡ front_text width }
{
    if width < LEAST {
        "<path class=\"i e"
    } else if width < OUTLINED {
        "<rect class=\"r t"
    } else {
        "<rect class=\"s t"
    }
}

/// Appends what stands over the ticks of an interval, in the colour of a task: a rectangle, open where
/// it is cut off; where it is too narrow to be seen, a line where the ticks begin.
pub fn push_box(
    text: &mut Vec<u8>,
    scale: Scale,
    task: u32,
    from: u64,
    to: u64,
    top: u64,
    height: u64,
) -> Result<(), AllocError>
    requires range { IsScale scale }
    ensures { OnOk result (text.new.items ≡ text.old.items ++ box_text scale task from to top height) }
{
    let left = x_within(scale, from);
    let width = x_within(scale, to).saturating_sub(left);
    push_attribute(text, front_of(width), colour_of(task))?;
    if width < LEAST {
        push_down(text, left, top, height)
    } else {
        push_cut(text, cut_of(scale, from, to), left, top, width, height)
    }
}
