//! The sensors of a program.

ghost use Rattle.std.specs.Prelude.{◌≡◌, ◌≤◌, ◌<◌, IfOk, length};
ghost use Rattle.prl_flow.specs.Solutions.{AreClocks};
ghost use Rattle.prl_plot.specs.Inputs.{input_of, inputs_of};

use crate::forms::Input;
use prl_base::Label;
use prl_flow::{Clocks, Flat};
use std::alloc::{AllocError, Global};

/// The sensor of main's input `k`, on the clock of its flow.
fn input_of(alloc: Global, flat: &Flat, clocks: &Clocks, k: u32) -> Result<Input, AllocError>
    requires clocks { AreClocks flat.now clocks.now.of }
    requires within { k < length flat.now.ins }
    ensures { IfOk result (λ input. input ≡ input_of flat.now clocks.now.of k) }
{
    let _flows = flat.flows();
    let flow = flat.ins()[k as usize];
    Ok(Input {
        name: Label::new(alloc, flat.in_name(k).bytes())?,
        clock: clocks.of.as_slice()[flow.0 as usize],
    })
}

/// The sensors of a flat program, each on the clock of its flow.
pub(crate) fn inputs_of(
    alloc: Global,
    flat: &Flat,
    clocks: &Clocks,
) -> Result<Vec<Input>, AllocError>
    requires clocks { AreClocks flat.now clocks.now.of }
    requires few { length flat.now.ins ≤ 4096 }
    ensures { IfOk result (λ inputs. inputs.items ≡ inputs_of flat.now clocks.now.of) }
{
    let mut inputs = Vec::new(alloc);
    for k in 0..flat.ins().len() {
        inputs.push(input_of(alloc, flat, clocks, k as u32)?)?;
    }
    Ok(inputs)
}
