//! Room for the actuators' rows, so that their text need not move while it grows.

use crate::outputs::OutRows;
use itoa::Buffer;
use prl_base::Value;

/// What a row has beside its name, its numbers and its value: three commas and a line feed.
const MARKS: usize = 4;

/// The bytes of the longer truth value.
const TRUTH: usize = 5;

/// How many digits the number has.
fn digits(number: u64) -> usize {
    let mut buffer = Buffer::new();
    buffer.format(number).as_bytes().len()
}

/// The size of the greatest integer among the values, by its distance from 0.
fn greatest(values: &[Value]) -> u64 {
    let mut greatest: u64 = 0;
    for value in values {
        if let Value::Int(number) = value {
            greatest = greatest.max(number.unsigned_abs());
        }
    }
    greatest
}

/// How many bytes the actuator's rows take at most.
pub(crate) fn room_of(out: &OutRows<'_>) -> usize {
    let rows = out.values.len();
    let last = out
        .clock
        .start
        .saturating_add(out.clock.period.saturating_mul(rows as u64));
    let value = digits(greatest(out.values)).saturating_add(1).max(TRUTH);
    let numbers = digits(rows as u64).saturating_add(digits(last));
    let beside = out.name.bytes().len().saturating_add(MARKS);
    rows.saturating_mul(beside.saturating_add(numbers).saturating_add(value))
}
