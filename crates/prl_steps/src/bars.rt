//! The steps that begin in one pixel column, as one.

ghost use Rattle.std.specs.Prelude.{◌≡◌, ◌<◌, [], IfOk, length};
ghost use Rattle.prl_drawing.specs.declared.scales.Scale.{Scale as AnyScale};
ghost use Rattle.prl_steps.specs.Bars.{bars_of, column_of, joined};
ghost use Rattle.prl_drawing.specs.Scales.{IsScale};

use crate::samples::Step;
use prl_drawing::{LEFT, Scale, WIDTH, x_within};
use std::alloc::{AllocError, Global};

/// How many pixel columns there are, each ten tenths of a pixel wide.
pub const COLUMNS: usize = WIDTH as usize / 10;

/// Some steps that begin in one column.
#[derive(Clone, Copy)]
pub struct Bar {
    /// Where the first one begins.
    pub x: u64,
    pub low: u64,
    pub high: u64,
    /// The level of the last one.
    pub last: u64,
}

/// The pixel column of a tick; the last one for a tick behind it.
fn column_of(scale: Scale, tick: u64) -> usize
    requires range { IsScale scale }
    ensures exact { result ≡ column_of scale tick }
    ensures small { result < COLUMNS }
{
    let column = x_within(scale, tick).saturating_sub(LEFT) / 10;
    column.min(COLUMNS as u64 - 1) as usize
}

/// A step before those of a bar.
fn joined(scale: Scale, step: Step, bar: Option<Bar>) -> Bar
    requires range { IsScale scale }
    ensures { result ≡ joined scale step bar }
{
    let x = x_within(scale, step.from);
    match bar {
        None => Bar {
            x,
            low: step.level,
            high: step.level,
            last: step.level,
        },
        Some(bar) => Bar {
            x,
            low: step.level.min(bar.low),
            high: step.level.max(bar.high),
            last: bar.last,
        },
    }
}

/// The bars of no steps: none in each pixel column.
fn no_bars(alloc: Global) -> Result<Vec<Option<Bar>>, AllocError>
    ensures none { IfOk result (λ bars. (scale : AnyScale) → bars.items ≡ bars_of scale []) }
    ensures count { IfOk result (λ bars. length bars.items ≡ COLUMNS) }
{
    let mut bars = Vec::with_capacity(alloc, COLUMNS)?;
    for _ in 0..COLUMNS {
        bars.push(None)?;
    }
    Ok(bars)
}

/// The bar of each pixel column, of the steps that begin there.
pub fn bars_of(alloc: Global, scale: Scale, steps: &[Step]) -> Result<Vec<Option<Bar>>, AllocError>
    requires range { IsScale scale }
    ensures { IfOk result (λ bars. bars.items ≡ bars_of scale steps.now) }
{
    let mut bars = no_bars(alloc)?;
    let count = steps.len();
    for k in 0..count {
        let step = steps[count - 1 - k];
        let at = column_of(scale, step.from);
        bars[at] = Some(joined(scale, step, bars[at]));
    }
    Ok(bars)
}
