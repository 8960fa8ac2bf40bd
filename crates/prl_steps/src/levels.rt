//! Values as levels: natural numbers in the order of the values.

ghost use Rattle.std.specs.Prelude.{◌≡◌};
ghost use Rattle.prl_steps.specs.Levels.{level_of, level_of_int};

use prl_base::{Value, push_number};
use std::alloc::AllocError;

/// The level of the integer 0: how far it is above the least integer of 64 bits.
pub const ZERO: u64 = 9_223_372_036_854_775_808;

/// How far an integer is above the least one.
fn level_of_int(number: i64) -> u64
    ensures { result ≡ level_of_int number }
{
    let size = number.unsigned_abs();
    if number >= 0 {
        ZERO.saturating_add(size)
    } else {
        ZERO.saturating_sub(size)
    }
}

/// The level of a value.
pub fn level_of(value: Value) -> u64
    ensures { result ≡ level_of value }
{
    match value {
        Value::Int(number) => level_of_int(number),
        Value::Bool(true) => 1,
        Value::Bool(false) => 0,
    }
}

/// Appends the integer of a level.
pub(crate) fn push_level(text: &mut Vec<u8>, level: u64) -> Result<(), AllocError> {
    if level < ZERO {
        text.push(b'-')?;
        return push_number(text, ZERO.saturating_sub(level));
    }
    push_number(text, level.saturating_sub(ZERO))
}
