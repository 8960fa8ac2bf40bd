//! What stands around the windows of a picture: its head, the ticks, and the names of rows.

ghost use Rattle.std.specs.Prelude.{◌<◌, ◌^◌};
ghost use Rattle.prl_drawing.specs.Scales.{IsScale};

use crate::axes::{Axis, push_svg, push_times, push_unit_name};
use crate::rows::{TOP, row_of};
use crate::scales::{LEFT, Scale, WIDTH};
use crate::texts::{push, push_all, push_attribute};
use crate::units::{Unit, push_time};
use std::alloc::AllocError;

/// How wide a name may be.
const NAME_WIDTH: u64 = 1_450;

/// How many bytes of a name fit without being narrowed.
const NAME_BYTES: usize = 20;

/// How many ticks have a number, at most.
const LABELS: u64 = 20;

/// How things look. Colours are those that most eyes tell apart.
const STYLE: &str = "<style>text{font-family:sans-serif;font-size:120px;fill:#222}\
    .k{font-size:100px;fill:#666}.x{font-size:100px;fill:#444;text-anchor:middle}.u{font-size:100px;fill:#444;text-anchor:end}\
    .j{font-size:100px;fill:#222;text-anchor:middle;stroke:#fff;stroke-width:24;\
    stroke-opacity:.8;paint-order:stroke;pointer-events:none}.p{text-anchor:start}.g{stroke:#ddd;stroke-width:8;fill:none}\
    .l{stroke:#bbb;stroke-width:10;fill:none}.o{stroke:#222;stroke-width:14;fill:none}\
    .a{stroke:#555;stroke-width:9;fill:none;stroke-linejoin:round;marker-end:url(#p)}\
    .d{stroke-dasharray:50 30}.v{fill-opacity:0;stroke:#222;stroke-width:8;stroke-dasharray:32 20}\
    .e0{stroke:#9A6A00}.e1{stroke:#1F7FB8}.e2{stroke:#00664B}.e3{stroke:#8C8200}\
    .e4{stroke:#004B7A}.e5{stroke:#A34700}.e6{stroke:#9C4A7B}.e7{stroke:#555}\
    .w{fill-opacity:.35;stroke:#444;stroke-width:8}.h{fill-opacity:0}.s{stroke:#222;stroke-width:6}\
    .r{stroke:#222;stroke-width:2}.i{fill:none;stroke-width:6}.m{fill:none;stroke-width:24}\
    .s~.m,.r~.m,.i~.m{stroke:#222}\
    .b{fill:#D55E00;fill-opacity:.2;stroke:#D55E00;stroke-width:10}\
    .c{fill:none;stroke:#D55E00;stroke-width:24}\
    .t0{fill:#E69F00}.t1{fill:#56B4E9}.t2{fill:#009E73}.t3{fill:#F0E442}\
    .t4{fill:#0072B2}.t5{fill:#D55E00}.t6{fill:#CC79A7}.t7{fill:#999999}</style>\n\
    <defs><marker id=\"p\" viewBox=\"0 0 10 10\" refX=\"9\" refY=\"5\" markerWidth=\"90\" \
    markerHeight=\"90\" markerUnits=\"userSpaceOnUse\" orient=\"auto\">\
    <path d=\"M0 1L10 5L0 9z\" fill=\"#555\"/></marker></defs>\n\
    <rect width=\"100%\" height=\"100%\" fill=\"#fff\"/>\n";

/// What the signs mean.
const LEGEND: &str = "<rect class=\"w t7\" x=\"1600\" y=\"330\" width=\"300\" height=\"160\"/>\
    <text x=\"1960\" y=\"455\">window: encoded release to encoded deadline</text>\
    <rect class=\"v t7\" x=\"4900\" y=\"410\" width=\"300\" height=\"80\"/>\
    <text x=\"5260\" y=\"455\">WCET</text>\
    <path class=\"o\" d=\"M5900 500v-180m-30 60l30 -60l30 60\"/>\
    <text x=\"5990\" y=\"455\">own release</text>\
    <path class=\"o\" d=\"M6950 320v180m-30 -60l30 60l30 -60\"/>\
    <text x=\"7040\" y=\"455\">own deadline</text>\n";

/// What an arrow means.
const PRECEDES: &str = "<path class=\"a\" d=\"M8400 415h320\"/>\
    <text x=\"8780\" y=\"455\">precedes</text>\n";

/// What a dashed arrow means.
const AFTER_DELAY: &str = "<path class=\"a d\" d=\"M9500 415h320\"/>\
    <text x=\"9880\" y=\"455\">after a delay</text>\n";

/// What a line in place of a rectangle means.
const SHORT: &str = "<path class=\"i e7\" d=\"M10000 590v80\"/>\
    <text x=\"10060\" y=\"670\">less than half a pixel</text>\n";

/// Appends what a line means that stands for a rectangle too narrow to be seen.
pub fn push_short_legend(text: &mut Vec<u8>) -> Result<(), AllocError> {
    push(text, SHORT)
}

/// Appends what a picture of so many rows begins with.
pub fn push_opening(text: &mut Vec<u8>, rows: u32) -> Result<(), AllocError> {
    push_svg(text, row_of(rows) + 200)?;
    push(text, STYLE)?;
    push(text, LEGEND)
}

/// Appends what the arrows mean that are drawn: whether there are some, and some that are dashed.
pub fn push_arrow_legend(text: &mut Vec<u8>, plain: bool, delayed: bool) -> Result<(), AllocError> {
    if plain {
        push(text, PRECEDES)?;
    }
    if delayed {
        push(text, AFTER_DELAY)?;
    }
    Ok(())
}

/// Appends lines at some ticks, and when they are, in this unit.
pub fn push_ticks(
    text: &mut Vec<u8>,
    scale: Scale,
    unit: &Unit,
    bottom: u64,
) -> Result<(), AllocError>
    requires range { IsScale scale }
{
    let axis = Axis {
        top: TOP,
        bottom,
        times: TOP - 60,
    };
    push_times(text, scale, unit, axis, LABELS)?;
    push_unit_name(text, unit, axis)
}

/// Appends the line above a row, and what its name begins with.
fn push_row(text: &mut Vec<u8>, y: u64) -> Result<(), AllocError>
    requires { y < 2 ^ 42 }
{
    let attributes = [
        ("<path class=\"l\" d=\"M100 ", y),
        ("H", LEFT + WIDTH + 200),
        ("\"/><text x=\"100\" y=\"", y + 190),
    ];
    push_all(text, &attributes, "")
}

/// Appends the period and the WCET of a task, in this unit.
fn push_times_of(
    text: &mut Vec<u8>,
    unit: &Unit,
    y: u64,
    period: u64,
    wcet: u32,
) -> Result<(), AllocError>
    requires { y < 2 ^ 42 }
{
    let front = "</text><text class=\"k\" x=\"100\" y=\"";
    push_all(text, &[(front, y + 320)], "\">period ")?;
    push_time(text, unit, period)?;
    push(text, ", wcet ")?;
    push_time(text, unit, u64::from(wcet))?;
    push(text, "</text>\n")
}

/// Appends the name of a task, its period and its WCET in this unit, and a line above its row.
pub fn push_name(
    text: &mut Vec<u8>,
    unit: &Unit,
    name: &[u8],
    y: u64,
    period: u64,
    wcet: u32,
) -> Result<(), AllocError>
    requires { y < 2 ^ 42 }
{
    push_row(text, y)?;
    if name.len() > NAME_BYTES {
        push_attribute(
            text,
            "\" lengthAdjust=\"spacingAndGlyphs\" textLength=\"",
            NAME_WIDTH,
        )?;
    }
    push(text, "\">")?;
    text.extend_from_slice(name)?;
    push_times_of(text, unit, y, period, wcet)
}

/// Appends what a row of the processor begins with.
pub fn push_processor(text: &mut Vec<u8>, row: u32) -> Result<(), AllocError> {
    push_row(text, row_of(row))?;
    push(text, "\">processor")
}
