//! The two halves of a value, and the words that carry them: each with the tag of its instance.

ghost use Rattle.std.specs.Prelude.{◌≡◌, ◌+◌, ◌/◌, ◌%◌, ◌^◌};
ghost use Rattle.std.specs.Bool.{OnTrue, OnFalse};
ghost use Rattle.prl_base.specs.Values.{FitsValue};
ghost use Rattle.prl_rule.specs.Halves.{AreHalves, high_half, low_half, tagged, value_of_halves};

use prl_base::{Ty, Value};

/// The low and the high half of a value. Those of an integer are the 32 low and the 32 high bits of
/// its two's complement. `false` has 0 and 0, and `true` has 1 and 0.
pub fn halves(value: Value) -> (u32, u32)
    ensures halves { (result.0 ≡ low_half value) × (result.1 ≡ high_half value) }
    ensures fits { FitsValue value }
{
    let bits = match value {
        Value::Int(number) => number.cast_unsigned(),
        Value::Bool(truth) => u64::from(truth),
    };
    let (high, low) = unpack(bits);
    (low, high)
}

/// The value of this type that has these halves.
pub fn whole(low: u32, high: u32, ty: Ty) -> Value
    requires { AreHalves ty low high }
    ensures { result ≡ value_of_halves ty low high }
{
    match ty {
        Ty::Int => Value::Int(pack(high, low).cast_signed()),
        Ty::Bool => Value::Bool(low == 1),
    }
}

/// The word of a half: its tag in the high 32 bits, and the half in the low ones.
pub fn pack(tag: u32, half: u32) -> u64
    ensures { result ≡ tagged tag half }
{
    u64::from(tag) * (1 << 32) + u64::from(half)
}

/// The tag and the half of a word.
pub fn unpack(word: u64) -> (u32, u32)
    ensures { (result.0 ≡ word / 2 ^ 32) × (result.1 ≡ word % 2 ^ 32) }
{
    ((word / (1 << 32)) as u32, (word % (1 << 32)) as u32)
}

/// Whether the word of a half is of another instance than this one.
pub fn is_other(word: u64, instance: u64) -> bool
    ensures yes { OnTrue result (word / 2 ^ 32 ≡ instance + 1 → ⊥) }
    ensures no { OnFalse result (word / 2 ^ 32 ≡ instance + 1) }
{
    let (tag, _) = unpack(word);
    tag == 0 || u64::from(tag - 1) != instance
}
