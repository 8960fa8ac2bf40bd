//! Which ends of an interval lie outside of the ticks that are drawn, and outlines that are open there.

ghost use Rattle.std.specs.Prelude.{◌≡◌, ◌++◌, OnOk, codes};
ghost use Rattle.prl_drawing.specs.Cuts.{cut_of, open_text, side_text};
ghost use Rattle.prl_drawing.specs.Scales.{IsScale};
ghost use Rattle.prl_drawing.specs.Texts.{attribute_text};

use crate::scales::Scale;
use crate::texts::{push, push_attribute};
use std::alloc::AllocError;

/// Which ends of an interval lie outside of the ticks that are drawn.
#[derive(Clone, Copy)]
pub struct Cut {
    /// It begins before the first tick.
    pub before: bool,
    /// It goes on behind the last one.
    pub behind: bool,
}

/// Which ends of an interval lie outside of the ticks that are drawn.
pub fn cut_of(scale: Scale, from: u64, to: u64) -> Cut
    requires range { IsScale scale }
    ensures { result ≡ cut_of scale from to }
{
    Cut {
        before: from < scale.from,
        behind: scale.from + scale.span < to,
    }
}

/// Appends a side of an outline that is made of dashes and gaps: a gap where it is left out.
fn push_side(text: &mut Vec<u8>, left_out: bool, height: u64) -> Result<(), AllocError>
    ensures { OnOk result (text.new.items ≡ text.old.items ++ side_text left_out height) }
{
    if left_out {
        return push_attribute(text, " ", height);
    }
    push_attribute(text, " 0 ", height)?;
    push(text, " 0")
}

/// Appends the two halves of an outline that has no side where its rectangle is cut off.
fn push_halves(text: &mut Vec<u8>, cut: Cut, width: u64, height: u64) -> Result<(), AllocError>
    ensures { OnOk result (text.new.items ≡ text.old.items ++ (attribute_text (codes "\" stroke-dasharray=\"") width ++ side_text cut.behind height
        ++ attribute_text (codes " ") width ++ side_text cut.before height)) }
{
    push_attribute(text, "\" stroke-dasharray=\"", width)?;
    push_side(text, cut.behind, height)?;
    push_attribute(text, " ", width)?;
    push_side(text, cut.before, height)
}

/// Appends what leaves out the sides of an outline where its rectangle is cut off.
pub(crate) fn push_open(
    text: &mut Vec<u8>,
    cut: Cut,
    width: u64,
    height: u64,
) -> Result<(), AllocError>
    ensures { OnOk result (text.new.items ≡ text.old.items ++ open_text cut width height) }
{
    if cut.before || cut.behind {
        push_halves(text, cut, width, height)
    } else {
        Ok(())
    }
}
