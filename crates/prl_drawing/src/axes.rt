//! What each picture begins with, and lines at ticks with when these are.

ghost use Rattle.std.specs.Prelude.{◌<◌};
ghost use Rattle.prl_drawing.specs.Scales.{IsScale};

use crate::scales::{Scale, x_of};
use crate::texts::{push, push_all};
use crate::units::{Unit, push_time};
use std::alloc::AllocError;

/// How wide a picture is, in tenths of a pixel.
const WHOLE: u64 = 12_000;

/// What a picture begins with, up to the number of its height.
const SVG: &str = "<svg xmlns=\"http://www.w3.org/2000/svg\" width=\"1200\" height=\"";

/// Ticks with a line lie so many powers of ten apart, or twice or five times as many.
static SHARES: [u64; 3] = [1, 2, 5];

/// How far from the top lines at ticks begin and end, and their times stand.
#[derive(Clone, Copy)]
pub struct Axis {
    pub top: u64,
    pub bottom: u64,
    pub times: u64,
}

/// Appends what a picture of this height begins with.
pub fn push_svg(text: &mut Vec<u8>, height: u64) -> Result<(), AllocError> {
    let attributes = [
        (SVG, height / 10),
        ("\" viewBox=\"0 0 ", WHOLE),
        (" ", height),
    ];
    push_all(text, &attributes, "\">\n")
}

/// How far ticks with a line lie apart that are this power of ten or a share of it apart, where fewer
/// than so many fit.
fn fitting(span: u64, power: u64, most: u64) -> Option<u64> {
    for share in SHARES {
        let step = power.saturating_mul(share);
        if span / step.max(1) < most {
            return Some(step);
        }
    }
    None
}

/// How far the ticks with a line lie apart.
fn step_of(span: u64, most: u64) -> u64
    ensures { 0 < result }
{
    let mut power: u64 = 1;
    for _ in 0..11 {
        if let Some(step) = fitting(span, power, most) {
            return step.max(1);
        }
        power = power.saturating_mul(10);
    }
    span.max(1)
}

/// Appends a line at a tick, and when it is.
fn push_tick(
    text: &mut Vec<u8>,
    unit: &Unit,
    axis: Axis,
    x: u64,
    tick: u64,
) -> Result<(), AllocError> {
    let attributes = [
        ("<path class=\"g\" d=\"M", x),
        (" ", axis.top),
        ("V", axis.bottom),
        ("\"/><text class=\"x\" x=\"", x),
        ("\" y=\"", axis.times),
    ];
    push_all(text, &attributes, "\">")?;
    push_time(text, unit, tick)?;
    push(text, "</text>\n")
}

/// Appends lines at some ticks, fewer than so many or one more, and when they are, in this unit.
pub fn push_times(
    text: &mut Vec<u8>,
    scale: Scale,
    unit: &Unit,
    axis: Axis,
    most: u64,
) -> Result<(), AllocError>
    requires range { IsScale scale }
{
    let step = step_of(scale.span, most);
    let end = scale.from + scale.span;
    let first = scale.from.div_ceil(step);
    for k in first..end / step + 1 {
        let tick = k * step;
        push_tick(text, unit, axis, x_of(scale, tick), tick)?;
    }
    Ok(())
}

/// Appends what the times are told in.
pub fn push_unit_name(text: &mut Vec<u8>, unit: &Unit, axis: Axis) -> Result<(), AllocError> {
    let front = "<text class=\"u\" x=\"1240\" y=\"";
    push_all(text, &[(front, axis.times)], "\">")?;
    push(text, unit.name)?;
    push(text, "</text>\n")
}
