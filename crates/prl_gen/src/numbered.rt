//! Texts with the number of a lane in them. Each function appends to the text.

ghost use Rattle.std.specs.Prelude.{◌≡◌, ◌++◌, OnOk};
ghost use Rattle.prl_gen.specs.Texts.{numbered, numbered_lines};

use prl_base::push_number;
use std::alloc::AllocError;

/// The number of a lane between two texts.
pub fn push_numbered(
    text: &mut Vec<u8>,
    before: &[u8],
    lane: u64,
    after: &[u8],
) -> Result<(), AllocError>
    ensures { OnOk result (text.new.items ≡ text.old.items ++ numbered before.now after.now lane) }
{
    text.extend_from_slice(before)?;
    push_number(text, lane)?;
    text.extend_from_slice(after)
}

/// A line for each lane: its number between two texts.
#[tactic(auto, using(crate::proofs::Steps::each_more))]
pub fn push_lines(
    text: &mut Vec<u8>,
    before: &[u8],
    after: &[u8],
    size: u64,
) -> Result<(), AllocError>
    ensures { OnOk result (text.new.items ≡ text.old.items ++ numbered_lines before.now after.now size) }
{
    for lane in 0..size {
        push_numbered(text, before, lane, after)?;
    }
    Ok(())
}
