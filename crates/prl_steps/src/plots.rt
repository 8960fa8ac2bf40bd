//! The plots of flows, one below another, with their axis.

ghost use Rattle.std.specs.Prelude.{◌≡◌, ◌<◌, ◌≤◌, ◌++◌, ◌+◌, ◌*◌, ◌^◌, IfOk, OnOk, length};
ghost use Rattle.prl_steps.specs.Plots.{ArePlotsOf, bottom_of, plot_text, plots_text};
ghost use Rattle.prl_drawing.specs.Scales.{IsScale};

use crate::axes::{push_axis, push_opening};
use crate::flows::Flow;
use crate::panes::{BETWEEN, height_of, pane_of};
use crate::paths::push_path;
use crate::steps::seen_steps;
use crate::titles::{push_title, push_told};
use prl_drawing::{Scale, Unit, push};
use std::alloc::{AllocError, Global};

/// How many flows have a plot in one picture at most.
pub const MAX_PLOTS: usize = 256;

/// How far the bottom of a flow's pane is from the top, by that of the pane before.
fn bottom_of(above: u64, flow: &Flow) -> u64
    requires { above < 2 ^ 62 }
    ensures exact { result ≡ bottom_of above flow.now }
    ensures small { result ≤ above + 1000 }
{
    above + BETWEEN + height_of(flow.ty())
}

/// How far the bottom of the last pane is from the top.
fn last_bottom(flows: &[Flow]) -> u64 {
    let mut bottom: u64 = 0;
    for flow in flows {
        bottom = bottom_of(bottom.min(1_000_000_000), flow);
    }
    bottom
}

/// Appends the line of a flow in its pane.
fn push_plot(
    alloc: Global,
    text: &mut Vec<u8>,
    scale: Scale,
    bottom: u64,
    colour: u32,
    flow: &Flow,
) -> Result<(), AllocError>
    requires range { IsScale scale }
    ensures { OnOk result (text.new.items ≡ text.old.items ++ plot_text scale bottom colour flow.now) }
{
    let steps = seen_steps(alloc, scale, flow.samples())?;
    let pane = pane_of(flow.ty(), bottom, &steps);
    push_path(alloc, text, scale, pane, flow.ty(), colour, &steps)
}

/// Appends the lines of flows, each in its pane.
fn push_plots(
    alloc: Global,
    text: &mut Vec<u8>,
    scale: Scale,
    above: u64,
    colour: u32,
    flows: &[Flow],
) -> Result<(), AllocError>
    requires range { IsScale scale }
    requires above { above + 1000 * length flows.now < 2 ^ 62 }
    requires colour { colour + length flows.now < 2 ^ 32 }
    ensures { OnOk result (text.new.items ≡ text.old.items ++ plots_text scale above colour flows.now) }
{
    match flows {
        [] => Ok(()),
        [flow, rest @ ..] => {
            let bottom = bottom_of(above, flow);
            push_plot(alloc, text, scale, bottom, colour, flow)?;
            push_plots(alloc, text, scale, bottom, colour + 1, rest)
        }
    }
}

/// Appends the name of a flow and the levels of its pane, or what is told where the mouse rests there.
fn push_words(
    alloc: Global,
    text: &mut Vec<u8>,
    scale: Scale,
    bottom: u64,
    flow: &Flow,
    told: bool,
) -> Result<(), AllocError>
    requires range { IsScale scale }
{
    let steps = seen_steps(alloc, scale, flow.samples())?;
    let pane = pane_of(flow.ty(), bottom, &steps);
    if told {
        push_told(text, flow, pane, steps.len() as u64)
    } else {
        push_title(text, flow, pane, &steps)
    }
}

/// Appends the names of flows and the levels of their panes, or what is told where the mouse rests.
fn push_all_words(
    alloc: Global,
    text: &mut Vec<u8>,
    scale: Scale,
    flows: &[Flow],
    told: bool,
) -> Result<(), AllocError>
    requires range { IsScale scale }
{
    let mut bottom: u64 = 0;
    for flow in flows {
        bottom = bottom_of(bottom.min(1_000_000_000), flow);
        push_words(alloc, text, scale, bottom, flow, told)?;
    }
    Ok(())
}

/// What stands below the lines: the axis, the names and the levels.
fn below(alloc: Global, flows: &[Flow], scale: Scale, unit: &Unit) -> Result<Vec<u8>, AllocError>
    requires range { IsScale scale }
{
    let bottom = last_bottom(flows);
    let mut text = Vec::new(alloc);
    push_opening(&mut text, bottom)?;
    push_axis(&mut text, scale, unit, bottom)?;
    push_all_words(alloc, &mut text, scale, flows, false)?;
    Ok(text)
}

/// What stands above the lines.
fn above(alloc: Global, flows: &[Flow], scale: Scale) -> Result<Vec<u8>, AllocError>
    requires range { IsScale scale }
{
    let mut text = Vec::new(alloc);
    push_all_words(alloc, &mut text, scale, flows, true)?;
    push(&mut text, "</svg>\n")?;
    Ok(text)
}

/// The picture of flows: a plot of each, in order, over the ticks of a range, with times in this unit.
pub fn plots_of(
    alloc: Global,
    flows: &[Flow],
    scale: Scale,
    unit: &Unit,
) -> Result<Vec<u8>, AllocError>
    requires from { scale.from < 2 ^ 32 }
    requires span { (0 < scale.span) × (scale.span < 2 ^ 33) }
    requires few { length flows.now ≤ MAX_PLOTS }
    ensures { IfOk result (λ text. ArePlotsOf scale flows.now text.items) }
{
    let mut text = below(alloc, flows, scale, unit)?;
    push_plots(alloc, &mut text, scale, 0, 0, flows)?;
    let above = above(alloc, flows, scale)?;
    text.extend_from_slice(&above)?;
    Ok(text)
}
