//! What the row of a processor tells: for how many ticks it is busy, or the interval in which its jobs
//! ask for more than there is.

ghost use Rattle.prl_drawing.specs.Scales.{IsScale};

use crate::boxes::push_cut;
use crate::cuts::cut_of;
use crate::frames::push_processor;
use crate::marks::push_frame;
use crate::rows::{TOP, row_of};
use crate::scales::{Scale, is_seen, x_within};
use crate::shapes::Shape;
use crate::texts::{push, push_all};
use crate::units::{Unit, push_time};
use std::alloc::AllocError;

/// How wide an overloaded interval is that has its demand written in it.
const WIDE: u64 = 1_700;

/// What the signs of an overload mean.
const LEGEND: &str = "<rect class=\"b\" x=\"1600\" y=\"590\" width=\"300\" height=\"80\"/>\
    <text x=\"1960\" y=\"670\">overloaded ticks</text>\
    <rect class=\"c\" x=\"3200\" y=\"590\" width=\"300\" height=\"80\"/>\
    <text x=\"3560\" y=\"670\">windows inside</text>\n";

/// For how many ticks of how many a processor is busy, what its pieces mean, and what is said of it.
#[derive(Clone, Copy)]
pub struct Load {
    pub legend: &'static str,
    pub name: &'static str,
    pub busy: u64,
    pub ticks: u64,
}

/// An interval, and how many units its jobs ask for, which are more than its ticks.
#[derive(Clone, Copy)]
pub struct Overload {
    pub from: u64,
    pub to: u64,
    pub demand: u64,
}

/// Appends the load of the processor, in this unit.
pub fn push_load(text: &mut Vec<u8>, unit: &Unit, row: u32, load: Load) -> Result<(), AllocError> {
    push(text, load.legend)?;
    push_processor(text, row)?;
    let share = load.busy.saturating_mul(100) / load.ticks.max(1);
    push_all(text, &[(load.name, share)], " %")?;
    push_all(text, &[second_line(row)], "\">busy ")?;
    push_time(text, unit, load.busy)?;
    push(text, " of ")?;
    push_units(text, unit, load.ticks)?;
    push(text, "</text>\n")
}

/// Appends a time and its unit.
fn push_units(text: &mut Vec<u8>, unit: &Unit, ticks: u64) -> Result<(), AllocError> {
    push_time(text, unit, ticks)?;
    push(text, " ")?;
    push(text, unit.name)
}

/// The attribute that the second line of the processor's row begins with.
pub fn second_line(row: u32) -> (&'static str, u64) {
    let front = "</text><text class=\"k\" x=\"100\" y=\"";
    (front, row_of(row) + 320)
}

/// Appends the demand of an overloaded interval, and its length, in this unit.
fn push_demand(
    text: &mut Vec<u8>,
    unit: &Unit,
    row: u32,
    overload: Overload,
) -> Result<(), AllocError> {
    push_processor(text, row)?;
    push(text, ": overload")?;
    push_all(text, &[second_line(row)], "\">")?;
    push_time(text, unit, overload.from)?;
    push(text, " to ")?;
    push_time(text, unit, overload.to)?;
    push(text, ": demand ")?;
    push_time(text, unit, overload.demand)?;
    push(text, ", has ")?;
    push_time(text, unit, overload.to.saturating_sub(overload.from))?;
    push(text, "</text>\n")
}

/// Appends the demand of an overloaded interval in its mark, in this unit.
fn push_inside(
    text: &mut Vec<u8>,
    unit: &Unit,
    row: u32,
    left: u64,
    overload: Overload,
) -> Result<(), AllocError> {
    let attributes = [
        ("<text class=\"k\" x=\"", left.saturating_add(40)),
        ("\" y=\"", row_of(row) + 190),
    ];
    push_all(text, &attributes, "\">demand ")?;
    push_time(text, unit, overload.demand)?;
    push(text, " in ")?;
    push_units(text, unit, overload.to.saturating_sub(overload.from))?;
    push(text, "</text>\n")
}

/// Appends the mark of an overloaded interval, over the rows of all tasks and that of the processor,
/// with its demand.
pub fn push_overload(
    text: &mut Vec<u8>,
    scale: Scale,
    unit: &Unit,
    row: u32,
    overload: Overload,
) -> Result<(), AllocError>
    requires range { IsScale scale }
{
    push(text, LEGEND)?;
    push_demand(text, unit, row, overload)?;
    if !is_seen(scale, overload.from, overload.to) {
        return Ok(());
    }
    let left = x_within(scale, overload.from);
    let width = x_within(scale, overload.to).saturating_sub(left);
    push(text, "<rect class=\"b")?;
    let cut = cut_of(scale, overload.from, overload.to);
    push_cut(text, cut, left, TOP, width, row_of(row) + 400 - TOP)?;
    if width < WIDE {
        return Ok(());
    }
    push_inside(text, unit, row, left, overload)
}

/// Appends a frame round the window of a job that lies within an overloaded interval.
fn push_counted(text: &mut Vec<u8>, shape: &Shape, overload: Overload) -> Result<(), AllocError> {
    if shape.release < overload.from || overload.to < shape.deadline {
        return Ok(());
    }
    push_frame(text, shape)
}

/// Appends frames round the windows that lie within an overloaded interval: those whose jobs make up
/// its demand.
pub fn push_all_counted(
    text: &mut Vec<u8>,
    shapes: &[Shape],
    overload: Overload,
) -> Result<(), AllocError> {
    for shape in shapes {
        push_counted(text, shape, overload)?;
    }
    Ok(())
}
