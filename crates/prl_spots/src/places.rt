//! Lines and columns of a text, which count from 1.

ghost use Rattle.std.specs.Prelude.{◌≡◌, ◌≢◌, ◌≤◌, ◌<◌, ◌+◌, ℕ, length, take, IfSome, IfNone, OnOk, ◌++◌};
ghost use Rattle.prl_spots.specs.Places.{IsLineStart, lead, line_front, line_rest, place_of};

use prl_base::line_len;
use std::alloc::AllocError;

/// A place of a text.
#[derive(Clone, Copy)]
pub struct Place {
    /// The line, counted from 1.
    pub line: u64,
    /// The byte of the line, counted from 1. A tab is one byte.
    pub column: u64,
}

/// The place of the byte at this index of the text, or of its end.
pub fn place_of(text: &[u8], at: usize) -> Place
    requires { at ≤ length text.now }
    ensures exact { result ≡ place_of text.now at }
    ensures within { result.column ≤ at + 1 }
{
    let mut line: u64 = 1;
    let mut column: u64 = 1;
    for byte in &text[..at] {
        if *byte == b'\n' {
            line += 1;
            column = 1;
        } else {
            column += 1;
        }
    }
    Place { line, column }
}

/// Where a line of the text begins: the least index whose line it is.
pub fn line_start(text: &[u8], line: u64) -> Option<usize>
    ensures found { IfSome result (IsLineStart text.now line) }
    ensures none { IfNone result ((at : ℕ) → at ≤ length text.now → (place_of text.now at).line ≢ line) }
{
    if line == 0 {
        return None;
    }
    let mut number: u64 = 1;
    for (i, byte) in text.iter().enumerate() {
        if number == line {
            return Some(i);
        }
        if *byte == b'\n' {
            number += 1;
        }
    }
    if number == line {
        Some(text.len())
    } else {
        None
    }
}

/// The bytes of a line before the one at this index.
pub fn line_front(text: &[u8], at: usize) -> &[u8]
    requires { at ≤ length text.now }
    ensures { result.now ≡ line_front text.now at }
{
    let start = at + 1 - place_of(text, at).column as usize;
    &text[start..at]
}

/// The bytes of a line from the one at this index on.
pub fn line_rest(text: &[u8], at: usize) -> &[u8]
    requires { at ≤ length text.now }
    ensures { result.now ≡ line_rest text.now at }
{
    let rest = &text[at..];
    &rest[..line_len(rest)]
}

/// Appends what leads a mark to its place below a line that begins so: a tab under a tab, a blank under each other character.
pub fn push_lead(text: &mut Vec<u8>, front: &[u8]) -> Result<(), AllocError>
    ensures { OnOk result (text.new.items ≡ text.old.items ++ lead front.now) }
{
    for byte in front {
        match byte {
            b'\t' => text.push(b'\t')?,
            0x80..=0xBF => {}
            _ => text.push(b' ')?,
        }
    }
    Ok(())
}
