//! The line of an actuator's row: what it has after the name is written from its last byte to its
//! first, and appended in one.

ghost use Rattle.std.specs.Prelude.{◌≡◌, ◌+◌, ◌≤◌, ◌<◌, ◌++◌, ◌∷◌, [], drop, length, OnOk};
ghost use Rattle.std.specs.Fmt.{decimal, signed_decimal};
ghost use Rattle.prl_base.specs.Texts.{value_text};

use itoa::write_digits;
use prl_base::Value;
use std::alloc::AllocError;

/// The most bytes of a line after the name: an instance, a date and a value of at most 20 bytes
/// each, three commas, and a line feed.
const REST: usize = 64;

/// Writes the byte before the place `at`, and gives its own.
fn put(line: &mut [u8; REST], at: usize, byte: u8) -> usize
    requires { (0 < at) × (at ≤ 64) }
    ensures start { result + 1 ≡ at }
    ensures written { drop result line.new ≡ byte ∷ drop at line.old }
{
    line[at - 1] = byte;
    at - 1
}

/// Writes the word before the place `end`, and gives where it starts.
fn put_word(line: &mut [u8; REST], end: usize, word: &[u8]) -> usize
    requires { (length word.now ≤ end) × (end ≤ 64) }
    ensures start { result + length word.now ≡ end }
    ensures written { drop result line.new ≡ word.now ++ drop end line.old }
{
    let start = end - word.len();
    line[start..end].copy_from_slice(word);
    start
}

/// Writes the number in decimal before the place `end`, and gives where it starts.
fn put_number(line: &mut [u8; REST], end: usize, number: u64) -> usize
    requires { (20 ≤ end) × (end ≤ 64) }
    ensures start { (end ≤ result + 20) × (result ≤ end) }
    ensures written { drop result line.new ≡ decimal number ++ drop end line.old }
{
    write_digits(number, line, end)
}

/// Writes the number in decimal, after a `-` where it is negative, before the place `end`, and
/// gives where it starts.
fn put_integer(line: &mut [u8; REST], end: usize, number: i64) -> usize
    requires { (20 ≤ end) × (end ≤ 64) }
    ensures start { (end ≤ result + 20) × (result ≤ end) }
    ensures written { drop result line.new ≡ signed_decimal number ++ drop end line.old }
{
    let start = write_digits(number.unsigned_abs(), line, end);
    if number >= 0 {
        return start;
    }
    put(line, start, b'-')
}

/// Writes the value before the place `end`, and gives where it starts.
fn put_value(line: &mut [u8; REST], end: usize, value: Value) -> usize
    requires { (20 ≤ end) × (end ≤ 64) }
    ensures start { (end ≤ result + 20) × (result ≤ end) }
    ensures written { drop result line.new ≡ value_text value ++ drop end line.old }
{
    match value {
        Value::Int(number) => put_integer(line, end, number),
        Value::Bool(true) => put_word(line, end, b"true"),
        Value::Bool(false) => put_word(line, end, b"false"),
    }
}

/// Appends what a line has after the name: the instance, the date and the value, each after a
/// comma, and a line feed.
pub(crate) fn push_rest(
    text: &mut Vec<u8>,
    instance: u64,
    date: u64,
    value: Value,
) -> Result<(), AllocError>
    ensures { OnOk result (text.new.items ≡ text.old.items ++ 44 ∷ decimal instance ++ 44 ∷ decimal date ++ 44 ∷ value_text value ++ 10 ∷ []) }
{
    let mut line = [0; REST];
    let at = put(&mut line, REST, b'\n');
    let at = put_value(&mut line, at, value);
    let at = put(&mut line, at, b',');
    let at = put_number(&mut line, at, date);
    let at = put(&mut line, at, b',');
    let at = put_number(&mut line, at, instance);
    let at = put(&mut line, at, b',');
    text.extend_from_slice(&line[at..])
}
