//! Units of time: how long a tick is.

ghost use Rattle.std.specs.Prelude.{◌≡◌, ◌<◌, ◌≤◌, ◌++◌, OnOk, length};
ghost use Rattle.prl_drawing.specs.Times.{behind_text, digits_text, time_text};

use prl_base::{decimal_of, push_number};
use std::alloc::AllocError;

/// How many digits may stand behind the point.
pub const MOST_DIGITS: usize = 9;

/// How long a tick is: so many parts of a unit, of which the unit has so many.
#[derive(Clone, Copy)]
pub struct Unit {
    pub parts: u64,
    pub whole: u64,
    /// What it is called.
    pub name: &'static str,
}

impl Unit {
    /// Ticks are told as ticks.
    pub fn ticks() -> Unit {
        Unit {
            parts: 1,
            whole: 1,
            name: "ticks",
        }
    }
}

/// The unit that a word ends with, and what stands before it.
fn cut_name(word: &[u8]) -> Option<(&[u8], &'static str)> {
    match word {
        [front @ .., b'n', b's'] => Some((front, "ns")),
        [front @ .., b'u', b's'] => Some((front, "us")),
        [front @ .., b'm', b's'] => Some((front, "ms")),
        [front @ .., b's'] => Some((front, "s")),
        _ => None,
    }
}

/// How many bytes there are up to a point or the end.
fn point_in(text: &[u8]) -> usize
    ensures { result ≤ length text.now }
{
    for (i, byte) in text.iter().enumerate() {
        if *byte == b'.' {
            return i;
        }
    }
    text.len()
}

/// Ten times itself, so often as there are digits.
fn scaled(number: u64, digits: usize) -> u64 {
    let mut scaled = number;
    for _ in 0..digits {
        scaled = scaled.saturating_mul(10);
    }
    scaled
}

/// How many parts the digits before and behind the point are, of which a unit has so many.
fn parts_of(front: &[u8], behind: &[u8]) -> Option<(u64, u64)> {
    let number = decimal_of(front)?;
    if behind.is_empty() {
        return Some((number, 1));
    }
    let more = decimal_of(behind)?;
    if behind.len() > MOST_DIGITS || number > u64::from(u32::MAX) {
        return None;
    }
    let digits = behind.len();
    Some((
        scaled(number, digits).saturating_add(more),
        scaled(1, digits),
    ))
}

/// How long a tick is by a word: a number, with a point or without, and `ns`, `us`, `ms` or `s`.
pub fn unit_of(word: &[u8]) -> Option<Unit> {
    let (number, name) = cut_name(word)?;
    let at = point_in(number);
    let behind = if at < number.len() {
        &number[at + 1..]
    } else {
        b"".as_slice()
    };
    if at < number.len() && behind.is_empty() {
        return None;
    }
    let (parts, whole) = parts_of(&number[..at], behind)?;
    if parts == 0 {
        return None;
    }
    Some(Unit { parts, whole, name })
}

/// Appends the digits of a part of a whole, up to the last one that is not 0, and at most so many.
fn push_digits(text: &mut Vec<u8>, most: usize, part: u64, whole: u64) -> Result<(), AllocError>
    requires { 0 < whole }
    ensures { OnOk result (text.new.items ≡ text.old.items ++ digits_text most part whole) }
{
    if most == 0 {
        return Ok(());
    }
    if part == 0 {
        return Ok(());
    }
    let tenths = part.saturating_mul(10);
    push_number(text, tenths / whole)?;
    push_digits(text, most - 1, tenths % whole, whole)
}

/// Appends what stands behind the whole number: nothing where no part is left.
fn push_behind(text: &mut Vec<u8>, part: u64, whole: u64) -> Result<(), AllocError>
    requires { 0 < whole }
    ensures { OnOk result (text.new.items ≡ text.old.items ++ behind_text part whole) }
{
    if part == 0 {
        return Ok(());
    }
    text.extend_from_slice(b".")?;
    push_digits(text, MOST_DIGITS, part, whole)
}

/// Appends when a tick is.
pub fn push_time(text: &mut Vec<u8>, unit: &Unit, tick: u64) -> Result<(), AllocError>
    ensures { OnOk result (text.new.items ≡ text.old.items ++ time_text unit.now tick) }
{
    let whole = unit.whole.max(1);
    let parts = tick.saturating_mul(unit.parts);
    push_number(text, parts / whole)?;
    push_behind(text, parts % whole, whole)
}
