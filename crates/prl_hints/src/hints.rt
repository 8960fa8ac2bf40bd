//! The hint that is given at a place.

ghost use Rattle.std.specs.Prelude.{◌≡◌, ◌≤◌, IfOk, IfSome, drop, length};
ghost use Rattle.prl_hints.specs.Hints.{IsGiven, IsHintTold, stands_there};

use crate::places::{before_open, begins_with_name, covers, ends_with_name};
use crate::rows::rows_of;
use std::alloc::{AllocError, Global};

/// Where the word of a hint stands, of the place that a line tells.
#[derive(Clone, Copy)]
pub enum Stands {
    /// Over it: it begins there, or before it and ends behind it.
    Over,
    /// There, as a whole name.
    Here,
    /// Before it, as a whole name with blanks behind.
    Before,
    /// Before the last open parenthesis that stands before it, as a whole name with blanks behind.
    Group,
}

/// A hint: a word, where it stands, and what is said then.
#[derive(Clone, Copy)]
pub struct Hint {
    pub stands: Stands,
    pub word: &'static str,
    pub said: &'static str,
}

/// Whether a word stands so at a place of the text.
fn stands_there(stands: Stands, word: &[u8], text: &[u8], at: usize) -> bool
    requires { at ≤ length text.now }
    ensures { result ≡ stands_there stands word.now text.now at }
{
    match stands {
        Stands::Over => covers(text, at, word),
        Stands::Here => begins_with_name(&text[at..], word),
        Stands::Before => ends_with_name(&text[..at], word),
        Stands::Group => ends_with_name(before_open(&text[..at]), word),
    }
}

/// How the word of a row stands, by its first character.
fn stands_by(mark: &str) -> Stands {
    match mark {
        "here" => Stands::Here,
        "before" => Stands::Before,
        "group" => Stands::Group,
        _ => Stands::Over,
    }
}

/// The hint of a row: how its word stands, the word, and what is said, each with a blank behind.
fn hint_of(row: &'static str) -> Hint {
    let (mark, rest) = row.split_once(' ').unwrap_or((row, ""));
    let (word, said) = rest.split_once(' ').unwrap_or((rest, ""));
    let stands = stands_by(mark);
    Hint { stands, word, said }
}

/// The first of the hints that may be given at a place.
fn first_given(rows: &'static [&'static str], text: &[u8], at: usize) -> Option<Hint>
    requires { at ≤ length text.now }
    ensures { IfSome result (λ hint. IsGiven hint text.now at) }
{
    for row in rows {
        let hint = hint_of(row);
        if stands_there(hint.stands, hint.word.as_bytes(), text, at) {
            return Some(hint);
        }
    }
    None
}

/// What is told of a place of a text, where a line of `prelude` that begins so tells it: nothing, or a hint that may be given there.
pub fn hint_told(alloc: Global, front: &str, text: &[u8], at: usize) -> Result<Vec<u8>, AllocError>
    requires { at ≤ length text.now }
    ensures { IfOk result (λ told. IsHintTold text.now at told.items) }
{
    let mut told = Vec::new(alloc);
    match first_given(rows_of(front), text, at) {
        None => Ok(told),
        Some(hint) => {
            told.extend_from_slice(hint.said.as_bytes())?;
            told.extend_from_slice(b"\n")?;
            Ok(told)
        }
    }
}
