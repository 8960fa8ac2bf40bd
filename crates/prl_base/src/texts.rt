//! Numbers, values, types and ratios as they are written. Each function appends to a text.

ghost use Rattle.std.specs.Prelude.{◌≡◌, ◌++◌, OnOk, decimal};
ghost use Rattle.std.specs.Fmt.{signed_decimal};
ghost use Rattle.prl_base.specs.Texts.{fraction_text, type_text, value_text};

use crate::{Ratio, Ty, Value};
use itoa::Buffer;
use std::alloc::AllocError;

/// Appends a number in decimal, without leading zeros.
pub fn push_number(text: &mut Vec<u8>, number: u64) -> Result<(), AllocError>
    ensures { OnOk result (text.new.items ≡ text.old.items ++ decimal number) }
{
    let mut buffer = Buffer::new();
    text.extend_from_slice(buffer.format(number).as_bytes())
}

/// Appends a number in decimal, after a `-` where it is negative.
pub fn push_integer(text: &mut Vec<u8>, number: i64) -> Result<(), AllocError>
    ensures { OnOk result (text.new.items ≡ text.old.items ++ signed_decimal number) }
{
    let mut buffer = Buffer::new();
    text.extend_from_slice(buffer.format(number).as_bytes())
}

/// Appends a value: a number in decimal, or `true` or `false`.
pub fn push_value(text: &mut Vec<u8>, value: Value) -> Result<(), AllocError>
    ensures { OnOk result (text.new.items ≡ text.old.items ++ value_text value) }
{
    match value {
        Value::Int(number) => push_integer(text, number),
        Value::Bool(true) => text.extend_from_slice(b"true"),
        Value::Bool(false) => text.extend_from_slice(b"false"),
    }
}

/// Appends the name of a type: `int` or `bool`.
pub fn push_type(text: &mut Vec<u8>, ty: Ty) -> Result<(), AllocError>
    ensures { OnOk result (text.new.items ≡ text.old.items ++ type_text ty) }
{
    text.extend_from_slice(ty.text().as_bytes())
}

/// Appends a ratio: its numerator, and after it `/` and its denominator unless that is 1.
pub fn push_ratio(text: &mut Vec<u8>, ratio: Ratio) -> Result<(), AllocError>
    ensures { OnOk result (text.new.items ≡ text.old.items ++ fraction_text ratio) }
{
    push_integer(text, ratio.num)?;
    if ratio.den == 1 {
        return Ok(());
    }
    text.push(b'/')?;
    push_number(text, ratio.den)
}
