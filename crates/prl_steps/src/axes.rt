//! The head of a picture of plots, and the axis of time below them.

ghost use Rattle.prl_drawing.specs.Scales.{IsScale};

use crate::panes::BETWEEN;
use prl_drawing::{
    Axis, LEFT, Scale, Unit, WIDTH, push, push_all, push_svg, push_times, push_unit_name,
};
use std::alloc::AllocError;

/// How many times the axis has at most, about.
const LABELS: u64 = 11;

/// How much stands below the last pane.
const BELOW: u64 = 320;

/// From so many microseconds on the axis counts milliseconds.
const MANY: u64 = 10_000;

/// The most parts of a unit of which a thousandth can be told in full.
const PARTS: u64 = 1_000_000;

/// How things look. Colours are those that most eyes tell apart.
const STYLE: &str = "<style>text{font-family:sans-serif;font-size:120px;fill:#222}\
    .n{font-size:90px;fill:#555;text-anchor:end}.p{text-anchor:start}.k{font-size:100px;fill:#888}\
    .x{font-size:100px;fill:#444;text-anchor:middle}\
    .u{font-size:100px;fill:#444;text-anchor:end}\
    .g{stroke:#e6e6e6;stroke-width:8;fill:none}.l{stroke:#ccc;stroke-width:8;fill:none}\
    .z{stroke:#888;stroke-width:8;stroke-dasharray:20 40;fill:none}.h{fill-opacity:0}\
    .f{fill:none;stroke-width:14;stroke-linejoin:round}\
    .q{fill-opacity:.55;stroke:#444;stroke-width:3;stroke-linejoin:round}\
    .e0{stroke:#9A6A00}.e1{stroke:#1F7FB8}.e2{stroke:#00664B}.e3{stroke:#8C8200}\
    .e4{stroke:#004B7A}.e5{stroke:#A34700}.e6{stroke:#9C4A7B}.e7{stroke:#555}\
    .t0{fill:#E69F00}.t1{fill:#56B4E9}.t2{fill:#009E73}.t3{fill:#F0E442}\
    .t4{fill:#0072B2}.t5{fill:#D55E00}.t6{fill:#CC79A7}.t7{fill:#999999}</style>\n\
    <rect width=\"100%\" height=\"100%\" fill=\"#fff\"/>\n";

/// Appends what a picture begins with whose last pane ends there.
pub(crate) fn push_opening(text: &mut Vec<u8>, bottom: u64) -> Result<(), AllocError> {
    push_svg(text, bottom.saturating_add(BELOW))?;
    push(text, STYLE)
}

/// Appends a line over the whole range: what stands before and behind its places.
pub(crate) fn push_line(
    text: &mut Vec<u8>,
    front: &str,
    y: u64,
    tail: &str,
) -> Result<(), AllocError> {
    push_all(text, &[(front, LEFT), (" ", y), ("H", LEFT + WIDTH)], tail)
}

/// The unit in which times up to a tick are told: milliseconds, where these are many microseconds.
fn told_unit(unit: &Unit, end: u64) -> Unit {
    let last = end.saturating_mul(unit.parts) / unit.whole.max(1);
    if unit.name == "us" && unit.whole <= PARTS && last >= MANY {
        Unit {
            parts: unit.parts,
            whole: unit.whole * 1_000,
            name: "ms",
        }
    } else {
        *unit
    }
}

/// Appends lines at some ticks, and below the last pane when they are, in this unit.
pub(crate) fn push_axis(
    text: &mut Vec<u8>,
    scale: Scale,
    unit: &Unit,
    bottom: u64,
) -> Result<(), AllocError>
    requires range { IsScale scale }
{
    let axis = Axis {
        top: BETWEEN / 2,
        bottom: bottom.saturating_add(80),
        times: bottom.saturating_add(200),
    };
    let unit = told_unit(unit, scale.from + scale.span);
    push_times(text, scale, &unit, axis, LABELS)?;
    push_line(text, "<path class=\"l\" d=\"M", axis.bottom, "\"/>")?;
    push_unit_name(text, &unit, axis)
}
