//! Bytes as a terminal may show them.

ghost use Rattle.std.specs.Prelude.{◌≡◌, ◌<◌, ◌++◌, IfOk, OnOk, drop, length};
ghost use Rattle.prl_shown.specs.Shown.{between, character_len, escape, goes_on, hex_digit, is_four, is_plain, is_tab_or_line, is_three, is_two, may_follow, shown, shown_from};

use std::alloc::{AllocError, Global};

/// Whether a byte lies between two others.
fn between(low: u8, high: u8, byte: u8) -> bool
    ensures { result ≡ between low high byte }
{
    low <= byte && byte <= high
}

/// Whether a byte goes on a character.
fn goes_on(byte: u8) -> bool
    ensures { result ≡ goes_on byte }
{
    between(128, 191, byte)
}

/// Whether the second byte of a character may follow the first.
fn may_follow(first: u8, second: u8) -> bool
    ensures { result ≡ may_follow first second }
{
    match first {
        0xC2 | 0xE0 => between(0xA0, 0xBF, second),
        0xED => between(0x80, 0x9F, second),
        0xF0 => between(0x90, 0xBF, second),
        0xF4 => between(0x80, 0x8F, second),
        _ => goes_on(second),
    }
}

/// Whether a byte is a tab or a line feed.
fn is_tab_or_line(byte: u8) -> bool
    ensures { result ≡ is_tab_or_line byte }
{
    byte == b'\t' || byte == b'\n'
}

/// Whether a character of one byte begins the text, which is no control character; in lines it may be a tab or a line feed.
fn is_plain(lines: bool, text: &[u8]) -> bool
    ensures { result ≡ is_plain lines text.now }
{
    match text {
        [] => false,
        [a, ..] => (lines && is_tab_or_line(*a)) || between(b' ', b'~', *a),
    }
}

/// Whether a character of two bytes begins the text, which is no control character.
fn is_two(text: &[u8]) -> bool
    ensures { result ≡ is_two text.now }
{
    match text {
        [a, b, ..] => between(0xC2, 0xDF, *a) && may_follow(*a, *b),
        _ => false,
    }
}

/// Whether a character of three bytes begins the text.
fn is_three(text: &[u8]) -> bool
    ensures { result ≡ is_three text.now }
{
    match text {
        [a, b, c, ..] => between(0xE0, 0xEF, *a) && may_follow(*a, *b) && goes_on(*c),
        _ => false,
    }
}

/// Whether a character of four bytes begins the text.
fn is_four(text: &[u8]) -> bool
    ensures { result ≡ is_four text.now }
{
    match text {
        [a, b, c, d, ..] => {
            between(0xF0, 0xF4, *a) && may_follow(*a, *b) && goes_on(*c) && goes_on(*d)
        }
        _ => false,
    }
}

/// How many bytes the character has that begins the text; 0 where none does, or a control character.
fn character_len(lines: bool, text: &[u8]) -> usize
    ensures { result ≡ character_len lines text.now }
{
    if is_plain(lines, text) {
        1
    } else if is_two(text) {
        2
    } else if is_three(text) {
        3
    } else if is_four(text) {
        4
    } else {
        0
    }
}

/// The digit of a number below 16.
fn hex_digit(number: u8) -> u8
    requires { number < 16 }
    ensures { result ≡ hex_digit number }
{
    if number < 10 {
        b'0' + number
    } else {
        b'A' + (number - 10)
    }
}

/// Appends a byte as `\xNN`.
fn push_escape(text: &mut Vec<u8>, byte: u8) -> Result<(), AllocError>
    ensures { OnOk result (text.new.items ≡ text.old.items ++ escape byte) }
{
    text.extend_from_slice(&[b'\\', b'x', hex_digit(byte / 16), hex_digit(byte % 16)])
}

/// Appends the first byte of the rest of a text, of whose last character so many bytes are left, and answers how many are left then.
fn push_byte(text: &mut Vec<u8>, lines: bool, rest: &[u8], left: usize) -> Result<usize, AllocError>
    requires { 0 < length rest.now }
    ensures { IfOk result (λ after. text.new.items ++ shown_from lines after (drop 1 rest.now) ≡ text.old.items ++ shown_from lines left rest.now) }
{
    if left > 0 {
        text.push(rest[0])?;
        return Ok(left - 1);
    }
    let len = character_len(lines, rest);
    if len == 0 {
        push_escape(text, rest[0])?;
        return Ok(0);
    }
    text.push(rest[0])?;
    Ok(len - 1)
}

/// Appends bytes as a terminal may show them: characters in UTF-8 as they are, but for control characters, and each other byte as
/// `\xNN`. Where the bytes are lines, tabs and line feeds stay.
pub fn push_shown(text: &mut Vec<u8>, lines: bool, bytes: &[u8]) -> Result<(), AllocError>
    ensures { OnOk result (text.new.items ≡ text.old.items ++ shown lines bytes.now) }
{
    let mut left = 0;
    for i in 0..bytes.len() {
        left = push_byte(text, lines, &bytes[i..], left)?;
    }
    Ok(())
}

/// Bytes as a terminal may show them, as `push_shown` appends them.
pub fn shown(alloc: Global, lines: bool, bytes: &[u8]) -> Result<Vec<u8>, AllocError>
    ensures { IfOk result (λ text. text.items ≡ shown lines bytes.now) }
{
    let mut text = Vec::with_capacity(alloc, bytes.len())?;
    push_shown(&mut text, lines, bytes)?;
    Ok(text)
}
