//! The bodies of a generated program. Each function appends to the text.

ghost use Rattle.std.specs.Prelude.{◌≡◌, ◌++◌, OnOk};
ghost use Rattle.prl_gen.specs.Texts.{bodies, body};

use prl_base::push_number;
use std::alloc::AllocError;

fn push_body(text: &mut Vec<u8>, lane: usize, factor: u64) -> Result<(), AllocError>
    ensures { OnOk result (text.new.items ≡ text.old.items ++ body lane factor) }
{
    text.extend_from_slice(b"body f")?;
    push_number(text, lane as u64)?;
    text.extend_from_slice(b" { z = x + y * ")?;
    push_number(text, factor)?;
    text.extend_from_slice(b"; }\n")
}

/// The bodies of lanes with these factors.
#[tactic(auto, using(crate::proofs::Steps::each_more))]
pub fn push_bodies(text: &mut Vec<u8>, factors: &[u64]) -> Result<(), AllocError>
    ensures { OnOk result (text.new.items ≡ text.old.items ++ bodies factors.now) }
{
    for (lane, factor) in factors.iter().enumerate() {
        push_body(text, lane, *factor)?;
    }
    Ok(())
}
