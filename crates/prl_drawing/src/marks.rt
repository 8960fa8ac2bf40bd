//! Marks of jobs: the outlines of their WCETs, arrows at their own dates, frames round their windows,
//! and arrows from one job to another.

use crate::boxes::{CLOSED, OUTLINED, push_cut};
use crate::cuts::Cut;
use crate::rows::{GAP, colour_of, row_of};
use crate::scales::LEFT;
use crate::shapes::Shape;
use crate::texts::{push, push_all, push_attribute};
use crate::window_texts::HIGH;
use std::alloc::AllocError;

/// From which width on, in tenths of a pixel, a window has the arrows that begin and end there.
const WIDE: u64 = 200;

/// How far the first lane of a row, in which its arrows begin, is below the top of the row.
const LANE: u64 = 268;

/// How many lanes a row has, and how far they lie apart.
const LANES: u64 = 4;

const BETWEEN: u64 = 11;

/// How far the nearest trunk, in which arrows go from row to row, is left of where they end.
const NEAR: u64 = 110;

/// How many trunks there are, and how far they lie apart.
pub const TRUNKS: u64 = 12;

const APART: u64 = 18;

/// How far a trunk is from the arrow at the own release of the job that it leads to.
const CLEAR: u64 = 24;

/// How far the highest end of an arrow is below the top of the row, how many ends there are, and how far
/// they lie apart.
const END: u64 = 90;

const ENDS: u64 = 4;

const UNDER: u64 = 45;

/// An arrow upwards and one downwards, from where they begin.
const UP: &str = "v-260m-30 60l30 -60l30 60\"/>\n";

const DOWN: &str = "v260m-30 -60l30 60l30 -60\"/>\n";

/// How high the outline of a WCET is, and how far below the top of its row it ends.
const BAR: u64 = 80;

const BAR_END: u64 = 260;

/// The corners of an outline, from one of the side at which it may be open back to the other.
fn corners(from: u64, to: u64, top: u64) -> [(&'static str, u64); 5] {
    [
        ("\" d=\"M", from),
        (" ", top),
        ("H", to),
        ("V", top.saturating_add(BAR)),
        ("H", from),
    ]
}

/// Appends an outline that has no side where it is cut off.
fn push_outline(
    text: &mut Vec<u8>,
    cut: Cut,
    left: u64,
    right: u64,
    top: u64,
) -> Result<(), AllocError> {
    if cut.before && cut.behind {
        let below = [
            ("\" d=\"M", left),
            (" ", top),
            ("H", right),
            ("M", left),
            (" ", top.saturating_add(BAR)),
            ("H", right),
        ];
        return push_all(text, &below, CLOSED);
    }
    let (from, to) = if cut.behind {
        (right, left)
    } else {
        (left, right)
    };
    let tail = if cut.before || cut.behind {
        CLOSED
    } else {
        "z\"/>\n"
    };
    push_all(text, &corners(from, to, top), tail)
}

/// Appends the outline of a job's WCET, or a line where that is too narrow for one; nothing, where the
/// WCET is over at the first tick.
pub fn push_bar(text: &mut Vec<u8>, shape: &Shape) -> Result<(), AllocError> {
    if shape.bar <= LEFT {
        return Ok(());
    }
    push_attribute(text, "<path class=\"v t", colour_of(shape.task))?;
    let top = row_of(shape.row) + BAR_END - BAR;
    if shape.bar.saturating_sub(shape.left) < OUTLINED {
        let line = [("\" d=\"M", shape.left), (" ", top), ("v", BAR)];
        return push_all(text, &line, CLOSED);
    }
    push_outline(text, shape.bar_cut, shape.left, shape.bar, top)
}

/// Appends an arrow at an own date of a job: what comes behind where it begins.
fn push_own(text: &mut Vec<u8>, x: u64, y: u64, tail: &str) -> Result<(), AllocError> {
    push_all(text, &[("<path class=\"o\" d=\"M", x), (" ", y)], tail)
}

/// Appends arrows at the own release, upwards, and at the own deadline of a job, downwards, where they
/// are not the encoded ones.
pub fn push_own_dates(text: &mut Vec<u8>, shape: &Shape) -> Result<(), AllocError> {
    let top = row_of(shape.row) + 30;
    if shape.own_left != shape.left {
        push_own(text, shape.own_left, top + 260, UP)?;
    }
    if shape.own_right != shape.right {
        push_own(text, shape.own_right, top, DOWN)?;
    }
    Ok(())
}

/// Appends a frame round the window of a job.
pub fn push_frame(text: &mut Vec<u8>, shape: &Shape) -> Result<(), AllocError> {
    let width = shape.right.saturating_sub(shape.left);
    push(text, "<rect class=\"c")?;
    let top = row_of(shape.row) + GAP;
    push_cut(text, shape.cut, shape.left, top, width, HIGH)
}

/// Where an arrow goes: by which lane of the row in which it begins, by which trunk, and to which end.
#[derive(Clone, Copy)]
pub struct Way {
    pub lane: u64,
    pub trunk: u64,
    pub end: u64,
}

/// How far from the left the trunk of an arrow to a window is: not where the own release of its job is.
fn trunk_of(way: Way, after: &Shape) -> u64 {
    let x = after
        .left
        .saturating_sub(NEAR + APART * (way.trunk % TRUNKS));
    let own = after.own_left;
    if x < own.saturating_add(CLEAR) && own < x.saturating_add(CLEAR) {
        return own.saturating_sub(CLEAR);
    }
    x
}

/// Appends an arrow from the outline of one job to the window of another, dashed where a delay lies
/// between: along a lane of the first one's row, and then up or down a trunk left of the second one.
pub fn push_arrow(
    text: &mut Vec<u8>,
    way: Way,
    delayed: bool,
    before: &Shape,
    after: &Shape,
) -> Result<(), AllocError> {
    let tail = if delayed { " d" } else { "" };
    let colour = colour_of(before.task);
    push_all(text, &[("<path class=\"a e", colour)], tail)?;
    let attributes = [
        ("\" d=\"M", before.bar.min(before.right)),
        (" ", row_of(before.row) + BAR_END),
        (
            "V",
            row_of(before.row) + LANE + BETWEEN * (way.lane % LANES),
        ),
        ("H", trunk_of(way, after)),
        ("V", row_of(after.row) + END + UNDER * (way.end % ENDS)),
        ("H", after.left),
    ];
    push_all(text, &attributes, CLOSED)
}

/// Whether the windows of both jobs are wide enough for an arrow to be followed.
pub fn is_followed(before: &Shape, after: &Shape) -> bool {
    before.right.saturating_sub(before.left) >= WIDE
        && after.right.saturating_sub(after.left) >= WIDE
}
