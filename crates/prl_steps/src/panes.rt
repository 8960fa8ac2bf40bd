//! Panes: the small plots, and where a level stands in one.

ghost use Rattle.std.specs.Prelude.{◌≡◌};
ghost use Rattle.prl_base.specs.declared.values.Ty.TheVariants as types;
ghost use Rattle.prl_steps.specs.Panes.{height_of, pane_of, rise_of, y_of};

use crate::samples::Step;
use crate::steps::levels_of;
use prl_base::Ty;

/// How much stays free above a pane, in tenths of a pixel.
pub const BETWEEN: u64 = 240;

/// A small plot: where its bottom is, how high it is, and the levels that its bottom and its top stand for.
#[derive(Clone, Copy)]
pub struct Pane {
    pub bottom: u64,
    pub height: u64,
    pub low: u64,
    pub high: u64,
}

/// How far above the bottom a level stands.
fn rise_of(pane: Pane, level: u64) -> u64
    ensures { result ≡ rise_of pane level }
{
    let range = pane.high.saturating_sub(pane.low);
    if range == 0 {
        return pane.height / 2;
    }
    let above = level.saturating_sub(pane.low);
    let rise = u128::from(above) * u128::from(pane.height) / u128::from(range);
    u128::from(pane.height).min(rise) as u64
}

/// How far from the top of the picture a level stands, in tenths of a pixel.
pub fn y_of(pane: Pane, level: u64) -> u64
    ensures { result ≡ y_of pane level }
{
    pane.bottom.saturating_sub(rise_of(pane, level))
}

/// How high the pane of a flow is, in tenths of a pixel.
pub(crate) fn height_of(ty: Ty) -> u64
    ensures { result ≡ height_of ty }
{
    match ty {
        Ty::Int => 480,
        Ty::Bool => 160,
    }
}

/// The pane of a flow of integers, of which it shows these steps.
fn curve_of(bottom: u64, steps: &[Step]) -> Pane
    ensures { result ≡ pane_of types.Int bottom steps.now }
{
    let (low, high) = match steps {
        [] => (0, 0),
        [first, rest @ ..] => levels_of(first.level, rest),
    };
    Pane {
        bottom,
        height: height_of(Ty::Int),
        low,
        high,
    }
}

/// The pane of a flow, of which it shows these steps.
pub fn pane_of(ty: Ty, bottom: u64, steps: &[Step]) -> Pane
    ensures { result ≡ pane_of ty bottom steps.now }
{
    match ty {
        Ty::Int => curve_of(bottom, steps),
        Ty::Bool => Pane {
            bottom,
            height: height_of(ty),
            low: 0,
            high: 1,
        },
    }
}
