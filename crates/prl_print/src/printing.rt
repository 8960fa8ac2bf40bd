//! Whole programs as they are printed.

ghost use Rattle.std.specs.Prelude.{◌≡◌, ◌++◌, ℕ, List, Ok, IfOk, OnOk};
ghost use Rattle.std.specs.List.{flat_map};
ghost use Rattle.prl_ast.specs.Trees.{program_tree};
ghost use Rattle.prl_syntax.specs.Parsing.{IsParsed};
ghost use Rattle.prl_print.specs.RoundTrip.{IsTextOf};
ghost use Rattle.prl_print.specs.Printing.{printed, printed_device};

use crate::declarations::push_device;
use crate::parts::push_each;
use prl_ast::{Device, Program};
use std::alloc::{AllocError, Global};

fn push_devices(text: &mut Vec<u8>, keyword: &[u8], devices: &[Device]) -> Result<(), AllocError>
    ensures { OnOk result (text.new.items ≡ text.old.items ++ flat_map (printed_device keyword.now) devices.now) }
{
    for device in devices {
        push_device(text, keyword, device)?;
    }
    Ok(())
}

#[tactic(auto, using(crate::proofs::Shown::trees_printed))]
fn printed(alloc: Global, program: &Program) -> Result<Vec<u8>, AllocError>
    ensures { IfOk result (λ text. text.items ≡ printed (program_tree program.now)) }
{
    let mut text = Vec::new(alloc);
    push_each(&mut text, program.imports.as_slice())?;
    push_devices(&mut text, b"sensor ", program.sensors.as_slice())?;
    push_devices(&mut text, b"actuator ", program.actuators.as_slice())?;
    push_each(&mut text, program.nodes.as_slice())?;
    Ok(text)
}

/// The printed text of the program: imports, sensors, actuators and nodes, each kind in its order, and each line
/// with one line feed at its end. The text of a program that was read from a text is a program again, and this is
/// the same one but for the places in it.
pub fn print(alloc: Global, program: &Program) -> Result<Vec<u8>, AllocError>
    ensures text { IfOk result (λ text. text.items ≡ printed (program_tree program.now)) }
    // Where the program is that of a text, it is also that of the printed text, places aside.
    ensures same { (source : List ℕ) → IsParsed source (Ok (program_tree program.now)) → IfOk result (λ text. IsTextOf text.items (program_tree program.now)) }
{
    printed(alloc, program)
}
