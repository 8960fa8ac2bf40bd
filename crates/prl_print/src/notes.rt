//! Parameters and their notes as they are printed. Each function appends to the text.

ghost use Rattle.std.specs.Prelude.{◌≡◌, ◌++◌, OnOk};
ghost use Rattle.prl_print.specs.Printing.{note_parts, printed_due, printed_locals, printed_note, printed_rate};

use crate::parts::{Part, push_separated};
use prl_ast::{Param, Rate};
use prl_base::{push_number, push_ratio, push_type};
use std::alloc::AllocError;

fn push_rate(text: &mut Vec<u8>, rate: Rate) -> Result<(), AllocError>
    ensures { OnOk result (text.new.items ≡ text.old.items ++ printed_rate rate) }
{
    text.extend_from_slice(b"rate (")?;
    push_number(text, u64::from(rate.period))?;
    text.extend_from_slice(b", ")?;
    push_ratio(text, rate.phase)?;
    text.push(b')')?;
    Ok(())
}

fn push_due(text: &mut Vec<u8>, due: u32) -> Result<(), AllocError>
    ensures { OnOk result (text.new.items ≡ text.old.items ++ printed_due due) }
{
    text.extend_from_slice(b"due ")?;
    push_number(text, u64::from(due))
}

/// The note of the parameter, if it has one.
fn push_note(text: &mut Vec<u8>, param: &Param) -> Result<(), AllocError>
    ensures { OnOk result (text.new.items ≡ text.old.items ++ printed_note (note_parts param.now)) }
{
    let mut before: &[u8] = b": ";
    if let Some(ty) = param.ty {
        text.extend_from_slice(before)?;
        push_type(text, ty)?;
        before = b" ";
    }
    if let Some(rate) = param.rate {
        text.extend_from_slice(before)?;
        push_rate(text, rate)?;
        before = b" ";
    }
    if let Some(due) = param.due {
        text.extend_from_slice(before)?;
        push_due(text, due)?;
    }
    Ok(())
}

impl Part for Param {
    ghost use Rattle.prl_print.specs.Printing.{printed_param};

    ghost printed = { printed_param };

    fn push(&self, text: &mut Vec<u8>) -> Result<(), AllocError> {
        text.extend_from_slice(self.name.bytes())?;
        push_note(text, self)
    }
}

/// The line of the local variables, if there are any.
pub fn push_locals(text: &mut Vec<u8>, locals: &[Param]) -> Result<(), AllocError>
    ensures { OnOk result (text.new.items ≡ text.old.items ++ printed_locals locals.now) }
{
    if locals.is_empty() {
        return Ok(());
    }
    text.extend_from_slice(b"var ")?;
    push_separated(text, b"; ", locals)?;
    text.extend_from_slice(b";\n")
}
