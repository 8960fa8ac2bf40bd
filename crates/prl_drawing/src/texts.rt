//! Texts and attributes with a number.

ghost use Rattle.std.specs.Prelude.{◌≡◌, ◌++◌, OnOk};
ghost use Rattle.std.specs.List.{flat_map};
ghost use Rattle.prl_drawing.specs.Texts.{attribute_text};

use prl_base::push_number;
use std::alloc::AllocError;

/// Appends a text.
pub fn push(text: &mut Vec<u8>, piece: &str) -> Result<(), AllocError>
    ensures { OnOk result (text.new.items ≡ text.old.items ++ piece.now) }
{
    text.extend_from_slice(piece.as_bytes())
}

/// Appends an attribute: what stands before its number, and the number.
pub fn push_attribute(text: &mut Vec<u8>, front: &str, number: u64) -> Result<(), AllocError>
    ensures { OnOk result (text.new.items ≡ text.old.items ++ attribute_text front.now number) }
{
    text.extend_from_slice(front.as_bytes())?;
    push_number(text, number)
}

/// Appends attributes, one after another, and a text behind them.
pub fn push_all(
    text: &mut Vec<u8>,
    attributes: &[(&str, u64)],
    tail: &str,
) -> Result<(), AllocError>
    ensures { OnOk result (text.new.items ≡ text.old.items ++ flat_map (λ one. attribute_text one.0.now one.1) attributes.now ++ tail.now) }
{
    for attribute in attributes {
        push_attribute(text, attribute.0, attribute.1)?;
    }
    push(text, tail)
}
