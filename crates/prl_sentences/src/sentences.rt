//! What is said of a line: words, and words of the line itself.

ghost use Rattle.std.specs.Prelude.{◌≡◌, ◌++◌, OnOk};
ghost use Rattle.std.specs.List.{flat_map};
ghost use Rattle.prl_sentences.specs.Sentences.{said, sentence_text, word_at, word_from};

use crate::kinds::{Kind, rest_of, word_of};
use std::alloc::AllocError;

/// The bytes from the word of a number on, which counts from 0; a blank or a line feed ends a word.
fn word_from(text: &[u8], number: u64) -> &[u8]
    ensures { result.now ≡ word_from number text.now }
{
    let mut left = number;
    for (i, byte) in text.iter().enumerate() {
        if left == 0 {
            return &text[i..];
        }
        if *byte == b' ' || *byte == b'\n' {
            left -= 1;
        }
    }
    &[]
}

/// The word of a number, from 0; no bytes where there are fewer words.
pub fn word_at(text: &[u8], number: u64) -> &[u8]
    ensures { result.now ≡ word_at number text.now }
{
    word_of(word_from(text, number))
}

/// Appends a byte of a sentence, or the word that it stands for.
fn push_said(text: &mut Vec<u8>, rest: &[u8], byte: u8) -> Result<(), AllocError>
    ensures { OnOk result (text.new.items ≡ text.old.items ++ said rest.now byte) }
{
    if byte < 10 {
        text.extend_from_slice(word_at(rest, byte as u64))
    } else {
        text.extend_from_slice(&[byte])
    }
}

/// Appends the bytes of a sentence, and the words that some of them stand for.
fn push_words(text: &mut Vec<u8>, rest: &[u8], sentence: &[u8]) -> Result<(), AllocError>
    ensures { OnOk result (text.new.items ≡ text.old.items ++ flat_map (said rest.now) sentence.now) }
{
    for byte in sentence {
        push_said(text, rest, *byte)?;
    }
    Ok(())
}

/// Appends what is said of a line of a kind.
pub fn push_sentence(text: &mut Vec<u8>, kind: &Kind, line: &[u8]) -> Result<(), AllocError>
    ensures { OnOk result (text.new.items ≡ text.old.items ++ sentence_text kind.now line.now) }
{
    push_words(text, rest_of(kind, line), kind.sentence.as_bytes())?;
    text.extend_from_slice(b"\n")
}
