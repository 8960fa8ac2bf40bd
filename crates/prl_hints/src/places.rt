//! Where the word of a hint stands.

ghost use Rattle.std.specs.Prelude.{◌≡◌, ◌≤◌, ◌-◌, drop, length, nat_eq};
ghost use Rattle.std.specs.List.{starts_with};
ghost use Rattle.prl_hints.specs.Places.{begins_in_name, before_open, covers, ends_in_name, ends_with_name, begins_with_name, last_open, trimmed};

use prl_base::is_word_byte;

/// Whether the word begins so many bytes before the place, or at the begin of the text where that has fewer.
fn begins_before(text: &[u8], at: usize, word: &[u8], back: usize) -> bool
    requires { at ≤ length text.now }
    ensures { result ≡ starts_with nat_eq (drop (at - back) text.now) word.now }
{
    text[at.saturating_sub(back)..].starts_with(word)
}

/// Whether the word stands over the place: begins there, or before it and ends behind it.
#[tactic(auto, using(crate::proofs::Ends::found, crate::proofs::Ends::passed_on))]
pub(crate) fn covers(text: &[u8], at: usize, word: &[u8]) -> bool
    requires { at ≤ length text.now }
    ensures { result ≡ covers text.now at word.now (length word.now) }
{
    for passed in 0..word.len() {
        let back = word.len() - 1 - passed;
        if begins_before(text, at, word, back) {
            return true;
        }
    }
    false
}

/// Whether the first byte may stand in a name.
fn begins_in_name(text: &[u8]) -> bool
    ensures { result ≡ begins_in_name text.now }
{
    match text {
        [] => false,
        [byte, ..] => is_word_byte(*byte),
    }
}

/// Whether the last byte may stand in a name.
fn ends_in_name(text: &[u8]) -> bool
    ensures { result ≡ ends_in_name text.now }
{
    begins_in_name(&text[text.len().saturating_sub(1)..])
}

/// Whether the text begins with a whole name.
pub(crate) fn begins_with_name(text: &[u8], name: &[u8]) -> bool
    ensures { result ≡ begins_with_name text.now name.now }
{
    match text.strip_prefix(name) {
        None => false,
        Some(rest) => !begins_in_name(rest),
    }
}

/// The text without the blanks at its end.
#[tactic(auto, using(crate::proofs::Ends::trimmed_is))]
fn trimmed(text: &[u8]) -> &[u8]
    ensures { result.now ≡ trimmed text.now }
{
    text.trim_ascii_end()
}

/// Whether the text ends with a whole name, and perhaps blanks behind it.
pub(crate) fn ends_with_name(text: &[u8], name: &[u8]) -> bool
    ensures { result ≡ ends_with_name text.now name.now }
{
    match trimmed(text).strip_suffix(name) {
        None => false,
        Some(front) => !ends_in_name(front),
    }
}

/// Where the last parenthesis begins that is open, or has no other one behind it; 0 where there is none.
fn last_open(text: &[u8]) -> usize
    ensures exact { result ≡ last_open 0 0 text.now }
    ensures inside { result ≤ length text.now }
{
    let mut open = 0;
    for (i, byte) in text.iter().enumerate() {
        if *byte == b'(' {
            open = i;
        } else if *byte == b')' {
            open = 0;
        }
    }
    open
}

/// What stands before the last parenthesis that is open.
pub(crate) fn before_open(text: &[u8]) -> &[u8]
    ensures { result.now ≡ before_open text.now }
{
    &text[..last_open(text)]
}
