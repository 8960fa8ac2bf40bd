//! The line that says what is drawn, and what is told of acts, where the mouse rests or where there is room.

ghost use Rattle.std.specs.Prelude.{◌+◌, ◌<◌, ◌^◌};
ghost use Rattle.prl_drawing.specs.Scales.{IsScale};

use crate::boxes::push_telling;
use crate::rows::{colour_of, row_of};
use crate::scales::{Scale, x_of, x_within};
use crate::texts::{push, push_all, push_attribute};
use crate::units::{Unit, push_time};
use std::alloc::AllocError;

/// How wide a letter of a name is, in tenths of a pixel.
const LETTER: u64 = 65;

/// How much of a place stays free of its name, at both ends together.
const FREE: u64 = 60;

/// How high the sign of an act is.
pub const SIGN: u64 = 80;

/// How wide a place is at least that tells something where the mouse rests.
const HOVER: u64 = 20;

/// Appends what the times of the picture are told in, and how long a tick is where that is another unit.
fn push_unit(text: &mut Vec<u8>, unit: &Unit) -> Result<(), AllocError> {
    push(text, "<text x=\"100\" y=\"190\">times in ")?;
    push(text, unit.name)?;
    if unit.name == "ticks" {
        return Ok(());
    }
    push(text, ", a tick is ")?;
    push_time(text, unit, 1)
}

/// Appends how many jobs are not drawn, where some are not.
fn push_left_out(text: &mut Vec<u8>, left_out: u64) -> Result<(), AllocError> {
    if left_out == 0 {
        return Ok(());
    }
    let tail = " later jobs of the range are not drawn";
    push_all(text, &[("; ", left_out)], tail)
}

/// Appends that the jobs under way at the first tick are drawn, too, where that is not tick 0.
fn push_under_way(text: &mut Vec<u8>, unit: &Unit, from: u64) -> Result<(), AllocError> {
    if from == 0 {
        return Ok(());
    }
    push(text, ", and those under way at ")?;
    push_time(text, unit, from)
}

/// Appends which jobs are drawn.
fn push_range(text: &mut Vec<u8>, scale: Scale, unit: &Unit) -> Result<(), AllocError> {
    push(text, "; jobs that are released from ")?;
    push_time(text, unit, scale.from)?;
    push(text, " on and before ")?;
    push_time(text, unit, scale.until)?;
    push_under_way(text, unit, scale.from)
}

/// Appends the line that says what is drawn of plans of this hyperperiod, in which unit times are told,
/// and how many jobs are not drawn.
pub fn push_title(
    text: &mut Vec<u8>,
    hyper: u64,
    scale: Scale,
    unit: &Unit,
    left_out: u64,
) -> Result<(), AllocError> {
    push_unit(text, unit)?;
    push(text, "; hyperperiod ")?;
    push_time(text, unit, hyper)?;
    push_range(text, scale, unit)?;
    push_left_out(text, left_out)?;
    push(text, "</text>\n")
}

/// Appends that the task of a name acts at a tick.
fn push_acting(text: &mut Vec<u8>, unit: &Unit, name: &[u8], tick: u64) -> Result<(), AllocError> {
    text.extend_from_slice(name)?;
    push(text, " acts at ")?;
    push_time(text, unit, tick)
}

/// Appends the sign of a task that acts at a tick, and what is told of it.
pub fn push_sign(
    text: &mut Vec<u8>,
    scale: Scale,
    unit: &Unit,
    row: u32,
    task: u32,
    name: &[u8],
    tick: u64,
) -> Result<(), AllocError>
    requires tick { tick < 2 ^ 33 + 2 ^ 32 }
    requires span { 0 < scale.span }
{
    push_attribute(text, "<path class=\"m e", colour_of(task))?;
    let place = [
        ("\" d=\"M", x_of(scale, tick)),
        (" ", row_of(row) + 310),
        ("v", SIGN),
    ];
    push_all(text, &place, "\"><title>")?;
    push_acting(text, unit, name, tick)?;
    push(text, "</title></path>\n")
}

/// Appends the name of a task at the left end of a place of this width, where that is wide enough.
fn push_label(
    text: &mut Vec<u8>,
    name: &[u8],
    row: u32,
    left: u64,
    width: u64,
) -> Result<(), AllocError> {
    let wide = (name.len() as u64).saturating_mul(LETTER);
    if width < wide.saturating_add(FREE) {
        return Ok(());
    }
    let attributes = [
        ("<text class=\"j p\" x=\"", left.saturating_add(FREE / 2)),
        ("\" y=\"", row_of(row) + 195),
    ];
    push_all(text, &attributes, "\">")?;
    text.extend_from_slice(name)?;
    push(text, "</text>\n")
}

/// Appends the rest of what tells something where the mouse rests in the row of a processor.
fn push_place(text: &mut Vec<u8>, row: u32, left: u64, width: u64) -> Result<(), AllocError> {
    push(text, "<rect class=\"h")?;
    push_telling(text, left, row_of(row) + 60, width.max(HOVER), 200)
}

/// Appends the name of a task beside its mark in the row of a processor, and what is told of that.
pub fn push_part_name(
    text: &mut Vec<u8>,
    unit: &Unit,
    row: u32,
    left: u64,
    width: u64,
    name: &[u8],
    tick: u64,
) -> Result<(), AllocError> {
    push_label(text, name, row, left, width)?;
    push_place(text, row, left, width)?;
    push_acting(text, unit, name, tick)?;
    push(text, "</title></rect>\n")
}

/// Ticks that go to a job.
#[derive(Clone, Copy)]
pub struct Slice {
    pub job: u64,
    /// The first tick.
    pub from: u64,
    /// The tick after the last one.
    pub to: u64,
}

/// Appends the name of a task in ticks that go to a job in the row of the processor, where there is
/// room, and what is told of them.
pub fn push_slice_name(
    text: &mut Vec<u8>,
    scale: Scale,
    unit: &Unit,
    row: u32,
    name: &[u8],
    slice: Slice,
) -> Result<(), AllocError>
    requires range { IsScale scale }
{
    let left = x_within(scale, slice.from);
    let width = x_within(scale, slice.to).saturating_sub(left);
    push_label(text, name, row, left, width)?;
    push_place(text, row, left, width)?;
    text.extend_from_slice(name)?;
    push_all(text, &[(" job ", slice.job)], ": runs from ")?;
    push_time(text, unit, slice.from)?;
    push(text, " to ")?;
    push_time(text, unit, slice.to)?;
    push(text, "</title></rect>\n")
}
