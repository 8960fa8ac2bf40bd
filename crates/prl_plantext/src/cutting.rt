//! Lines and words of a text.

ghost use Rattle.std.specs.Prelude.{◌≡◌, ◌==◌, length};
ghost use Rattle.std.specs.Str.{bytes_eq};
ghost use Rattle.prl_plantext.specs.code.Graphs.{after, before, first_of, number_in, rest_of, small_in, words_in};

use prl_base::decimal_of;
use std::marker::Model;

/// What stands before the first byte of this kind, and after it. Without such a byte all of the text stands before it.
pub(crate) fn cut_at(text: &[u8], end: u8) -> (&[u8], &[u8])
    ensures front { result.0.now ≡ before end text.now }
    ensures rest { result.1.now ≡ after end text.now }
{
    for (i, byte) in text.iter().enumerate() {
        if *byte == end {
            return (&text[..i], &text[i + 1..]);
        }
    }
    (text, &[])
}

/// The number of a word, 0 where it has none.
pub(crate) fn number_in(word: &[u8]) -> u64
    ensures { result ≡ number_in word.now }
{
    decimal_of(word).unwrap_or(0)
}

/// The number of a word, 0 where it has none of 32 bits.
pub(crate) fn small_in(word: &[u8]) -> u32
    ensures { result ≡ small_in word.now }
{
    let number = number_in(word);
    if number < 1 << 32 { number as u32 } else { 0 }
}

/// Whether a word is this one.
pub(crate) fn is_keyword(word: &[u8], keyword: &[u8]) -> bool
    ensures { result ≡ bytes_eq word.now keyword.now }
{
    word == keyword
}

/// The words of a line that are left. Contracts see their list.
#[derive(Drop)]
pub(crate) struct Words<'a> {
    line: &'a [u8],
}

impl<'a> Model for Words<'a> {
    ghost use Rattle.std.specs.Prelude.{List, ℕ};
    ghost use Rattle.std.specs.Str.{bytes_eq};
    ghost use Rattle.prl_plantext.specs.code.Graphs.{words_in};

    ghost Value = { List (List ℕ) };

    ghost view = { λ w. words_in w.line.now };
}

impl<'a> Words<'a> {
    /// The words of a line.
    pub(crate) fn new(line: &'a [u8]) -> Words<'a>
        ensures { result ≡ words_in line.now }
    {
        Words { line }
    }

    /// Whether no word is left.
    #[tactic(auto, using(crate::proofs::Parts::length_parts))]
    pub(crate) fn is_empty(&self) -> bool
        ensures { result ≡ (length self.now == 0) }
    {
        self.line.is_empty()
    }

    /// Takes the next word; where none is left, it has no byte.
    #[tactic(auto, using(crate::proofs::Parts::first_of_parts, crate::proofs::Parts::rest_of_parts))]
    pub(crate) fn next(&mut self) -> &'a [u8]
        ensures word { result.now ≡ first_of self.entry.now }
        ensures rest { self.exit.now ≡ rest_of self.entry.now }
    {
        let (word, rest) = cut_at(self.line, b' ');
        self.line = rest;
        word
    }

    /// Takes a word and then a number.
    pub(crate) fn number(&mut self) -> u64
        ensures number { result ≡ number_in (first_of (rest_of self.entry.now)) }
        ensures rest { self.exit.now ≡ rest_of (rest_of self.entry.now) }
    {
        self.next();
        number_in(self.next())
    }
}
