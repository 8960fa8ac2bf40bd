//! The names of flows, the levels that their panes show, and what is told where the mouse rests.

use crate::axes::push_line;
use crate::flows::Flow;
use crate::levels::{ZERO, push_level};
use crate::panes::{Pane, y_of};
use crate::samples::Step;
use prl_base::Ty;
use prl_drawing::{LEFT, WIDTH, push, push_all, push_attribute, push_telling};
use std::alloc::AllocError;

/// How many letters of a name there is room for; longer ones are smaller.
const LETTERS: u64 = 20;

/// How high the letters of a name are, in tenths of a pixel.
const LETTER: u64 = 120;

/// How near to the end of a pane the level 0 has its number on the right.
const NEAR: u64 = 110;

/// What a line ends with.
const LINE_END: &str = "\"/>\n";

/// Appends the name of a flow.
fn push_name(text: &mut Vec<u8>, name: &[u8], y: u64) -> Result<(), AllocError> {
    let letters = name.len() as u64;
    push_attribute(text, "<text x=\"100\" y=\"", y)?;
    if letters > LETTERS {
        let size = LETTER * LETTERS / letters;
        push_all(text, &[("\" style=\"font-size:", size)], "px")?;
    }
    push(text, "\">")?;
    text.extend_from_slice(name)?;
    push(text, "</text>\n")
}

/// Appends the number of a level, left of where that stands.
fn push_number(text: &mut Vec<u8>, level: u64, y: u64) -> Result<(), AllocError> {
    push_all(text, &[("<text class=\"n\" x=\"1560\" y=\"", y)], "\">")?;
    push_level(text, level)?;
    push(text, "</text>\n")
}

/// Appends the number of the level 0 right of its line, where another number stands left of it.
fn push_right_zero(text: &mut Vec<u8>, y: u64) -> Result<(), AllocError> {
    let place = [
        ("<text class=\"n p\" x=\"", LEFT + WIDTH + 40),
        ("\" y=\"", y),
    ];
    push_all(text, &place, "\">")?;
    push_level(text, ZERO)?;
    push(text, "</text>\n")
}

/// Appends the line of the level 0 where it is between others, and its number: left of the line where
/// there is room, else right of it.
fn push_zero(text: &mut Vec<u8>, pane: Pane) -> Result<(), AllocError> {
    if ZERO <= pane.low || pane.high <= ZERO {
        return Ok(());
    }
    let y = y_of(pane, ZERO);
    push_line(text, "<path class=\"z\" d=\"M", y, LINE_END)?;
    if y_of(pane, pane.high).saturating_add(NEAR) > y
        || y.saturating_add(NEAR) > y_of(pane, pane.low)
    {
        push_right_zero(text, y.saturating_add(30))
    } else {
        push_number(text, ZERO, y.saturating_add(30))
    }
}

/// Appends the levels that a pane shows: the least and the greatest, each once, and 0 between them.
fn push_levels(text: &mut Vec<u8>, pane: Pane) -> Result<(), AllocError> {
    let top = y_of(pane, pane.high);
    push_line(text, "<path class=\"g\" d=\"M", top, LINE_END)?;
    push_number(text, pane.high, top.saturating_add(30))?;
    if pane.low == pane.high {
        return Ok(());
    }
    push_line(text, "<path class=\"g\" d=\"M", pane.bottom, LINE_END)?;
    push_number(text, pane.low, pane.bottom.saturating_add(30))?;
    push_zero(text, pane)
}

/// Appends the name of a flow, and the levels of its pane.
pub(crate) fn push_title(
    text: &mut Vec<u8>,
    flow: &Flow,
    pane: Pane,
    steps: &[Step],
) -> Result<(), AllocError> {
    let middle = pane.bottom.saturating_sub(pane.height / 2);
    push_name(text, flow.name(), middle.saturating_add(40))?;
    if steps.is_empty() {
        let place = [(
            "<text class=\"k\" x=\"1700\" y=\"",
            middle.saturating_add(40),
        )];
        return push_all(text, &place, "\">no value in this range</text>\n");
    }
    match flow.ty() {
        Ty::Int => push_levels(text, pane),
        Ty::Bool => push_line(text, "<path class=\"l\" d=\"M", pane.bottom, LINE_END),
    }
}

/// Appends what is told of the levels of a pane.
fn push_told_levels(text: &mut Vec<u8>, ty: Ty, pane: Pane) -> Result<(), AllocError> {
    match ty {
        Ty::Bool => Ok(()),
        Ty::Int => {
            push(text, ", from ")?;
            push_level(text, pane.low)?;
            push(text, " to ")?;
            push_level(text, pane.high)
        }
    }
}

/// Appends what is told of a flow where the mouse rests on its pane: how many values are drawn, and their range.
pub(crate) fn push_told(
    text: &mut Vec<u8>,
    flow: &Flow,
    pane: Pane,
    count: u64,
) -> Result<(), AllocError> {
    if count == 0 {
        return Ok(());
    }
    let top = pane.bottom.saturating_sub(pane.height);
    push(text, "<rect class=\"h")?;
    push_telling(text, LEFT, top, WIDTH, pane.height)?;
    text.extend_from_slice(flow.name())?;
    push_attribute(text, ": values ", count)?;
    push_told_levels(text, flow.ty(), pane)?;
    push(text, "</title></rect>\n")
}
