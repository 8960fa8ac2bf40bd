//! The line of a flow as SVG.

ghost use Rattle.std.specs.Prelude.{◌≡◌, ◌++◌, OnOk, Some};
ghost use Rattle.std.specs.List.{flat_map};
ghost use Rattle.prl_steps.specs.Paths.{bar_text, closing_text, move_text, opening_text, path_text, reach_text};
ghost use Rattle.prl_drawing.specs.Scales.{IsScale};

use crate::bars::{Bar, bars_of};
use crate::panes::{Pane, y_of};
use crate::samples::Step;
use prl_base::Ty;
use prl_drawing::{LEFT, Scale, WIDTH, colour_of, push_attribute, x_within};
use std::alloc::{AllocError, Global};

/// Appends that the line goes over all levels of a bar of several.
fn push_reach(text: &mut Vec<u8>, pane: Pane, bar: Bar) -> Result<(), AllocError>
    ensures { OnOk result (text.new.items ≡ text.old.items ++ reach_text pane bar) }
{
    if bar.low == bar.high {
        return Ok(());
    }
    push_attribute(text, "V", y_of(pane, bar.high))?;
    push_attribute(text, "V", y_of(pane, bar.low))
}

/// Appends that the line goes on to a bar, and at its last level.
fn push_bar(text: &mut Vec<u8>, pane: Pane, bar: Bar) -> Result<(), AllocError>
    ensures { OnOk result (text.new.items ≡ text.old.items ++ bar_text pane (Some bar)) }
{
    push_attribute(text, "H", bar.x)?;
    push_reach(text, pane, bar)?;
    push_attribute(text, "V", y_of(pane, bar.last))
}

/// Appends that the line goes on to bars.
fn push_bars(text: &mut Vec<u8>, pane: Pane, bars: &[Option<Bar>]) -> Result<(), AllocError>
    ensures { OnOk result (text.new.items ≡ text.old.items ++ flat_map (bar_text pane) bars.now) }
{
    for bar in bars {
        if let Some(bar) = bar {
            push_bar(text, pane, *bar)?;
        }
    }
    Ok(())
}

/// Appends where a line begins.
fn push_move(text: &mut Vec<u8>, x: u64, y: u64) -> Result<(), AllocError>
    ensures { OnOk result (text.new.items ≡ text.old.items ++ move_text x y) }
{
    push_attribute(text, "\" d=\"M", x)?;
    push_attribute(text, " ", y)
}

/// Appends what the line of a flow begins with, at its first step.
fn push_opening(
    text: &mut Vec<u8>,
    scale: Scale,
    pane: Pane,
    ty: Ty,
    colour: u32,
    step: Step,
) -> Result<(), AllocError>
    requires range { IsScale scale }
    ensures { OnOk result (text.new.items ≡ text.old.items ++ opening_text scale pane ty colour step) }
{
    let x = x_within(scale, step.from);
    match ty {
        Ty::Int => {
            push_attribute(text, "<path class=\"f e", colour_of(colour))?;
            push_move(text, x, y_of(pane, step.level))
        }
        Ty::Bool => {
            push_attribute(text, "<path class=\"q t", colour_of(colour))?;
            push_move(text, x, pane.bottom)
        }
    }
}

/// Appends what the line of a flow ends with.
fn push_closing(text: &mut Vec<u8>, pane: Pane, ty: Ty) -> Result<(), AllocError>
    ensures { OnOk result (text.new.items ≡ text.old.items ++ closing_text pane ty) }
{
    push_attribute(text, "H", LEFT + WIDTH)?;
    match ty {
        Ty::Int => text.extend_from_slice(b"\"/>\n"),
        Ty::Bool => {
            push_attribute(text, "V", pane.bottom)?;
            text.extend_from_slice(b"z\"/>\n")
        }
    }
}

/// Appends the line of some steps; nothing where there are none.
pub fn push_path(
    alloc: Global,
    text: &mut Vec<u8>,
    scale: Scale,
    pane: Pane,
    ty: Ty,
    colour: u32,
    steps: &[Step],
) -> Result<(), AllocError>
    requires range { IsScale scale }
    ensures { OnOk result (text.new.items ≡ text.old.items ++ path_text scale pane ty colour steps.now) }
{
    match steps {
        [] => Ok(()),
        [first, ..] => {
            let bars = bars_of(alloc, scale, steps)?;
            push_opening(text, scale, pane, ty, colour, *first)?;
            push_bars(text, pane, &bars)?;
            push_closing(text, pane, ty)
        }
    }
}
