//! Halves of values and tagged words that are worked out by hand.

use prl_base::{Ty, Value};
use prl_rule::{halves, pack, unpack, whole};
use std::test::Fail;

/// Values, and their low and high halves.
const HALVES: [(Value, (u32, u32)); 7] = [
    (Value::Int(-1), (4294967295, 4294967295)),
    (Value::Int(7), (7, 0)),
    (Value::Int(4294967303), (7, 1)),
    (Value::Int(i64::MAX), (4294967295, 2147483647)),
    (Value::Int(i64::MIN), (0, 2147483648)),
    (Value::Bool(false), (0, 0)),
    (Value::Bool(true), (1, 0)),
];

/// The number of the first of the values that has other halves.
fn other_halves() -> Option<usize> {
    for (k, (value, wanted)) in HALVES.iter().enumerate() {
        if halves(*value) != *wanted {
            return Some(k);
        }
    }
    None
}

/// Whether integers and truth values are made of their halves.
fn are_whole() -> bool {
    whole(4294967295, 4294967295, Ty::Int) == Value::Int(-1)
        && whole(7, 1, Ty::Int) == Value::Int(4294967303)
        && whole(0, 2147483648, Ty::Int) == Value::Int(i64::MIN)
        && whole(0, 0, Ty::Bool) == Value::Bool(false)
        && whole(1, 0, Ty::Bool) == Value::Bool(true)
}

/// Tags and halves, and the words of both.
const WORDS: [((u32, u32), u64); 5] = [
    ((0, 0), 0),
    ((1, 4294967295), 8589934591),
    ((2, 0), 8589934592),
    ((2, 2), 8589934594),
    ((4294967295, 4294967295), 18446744073709551615),
];

/// The number of the first of the words that is of another tag and half.
fn other_word() -> Option<usize> {
    for (k, (parts, word)) in WORDS.iter().enumerate() {
        if pack(parts.0, parts.1) != *word || unpack(*word) != *parts {
            return Some(k);
        }
    }
    None
}

#[test]
fn of_values_and_tagged(rt: HostRuntime) -> Result<(), Fail> {
    assert!(rt; other_halves() == None);
    assert!(rt; are_whole());
    assert!(rt; other_word() == None);
    assert!(rt; pack(1, 4294967295) == 0x0000_0001_ffff_ffff);
    Ok(())
}
