//! From a text to its tokens, or to its first fault.

ghost use Rattle.std.specs.Prelude.{◌≡◌, ◌≤◌, ◌+◌, ◌*◌, ◌<◌, ◌^◌, length, All, IfOk, IsTrue};
ghost use Rattle.std.specs.Char.{is_ascii_digit, digit_value};
ghost use Rattle.std.specs.List.{AllPass};
ghost use Rattle.std.specs.Str.Parse.{digits_value};
ghost use Rattle.prl_base.specs.Reading.{GivesBut};
ghost use Rattle.prl_lex.specs.Digits.{in_64_bits};
ghost use Rattle.prl_lex.specs.Lexing.{tokens_of, IsTokenOf, AreInOrder, checked, depth_after};

use crate::pieces::{Piece, piece_of};
use crate::tokens::{Kind, LexFault, Token};
use prl_base::{Limit, Span, What};
use std::alloc::Global;

/// The most parentheses that may be open.
const MAX_DEPTH: u64 = 64;

/// The most bytes that a name may have.
const MAX_NAME: usize = 64;

/// The number with one digit more, if it has at most 64 bits.
fn with_digit(number: u64, digit: u8) -> Option<u64>
    requires { IsTrue (is_ascii_digit digit) }
    ensures { result ≡ in_64_bits (number * 10 + digit_value digit) }
{
    number.checked_mul(10)?.checked_add(u64::from(digit - b'0'))
}

/// What the digits write, if it has at most 64 bits.
fn number_of(digits: &[u8]) -> Option<u64>
    requires { AllPass is_ascii_digit digits.now }
    ensures { result ≡ in_64_bits (digits_value 10 digits.now) }
{
    let mut number = 0;
    for digit in digits {
        number = with_digit(number, *digit)?;
    }
    Some(number)
}

/// The open parentheses after a token, of those before it.
fn depth_after(depth: u64, bytes: &[u8]) -> u64
    requires { depth < 2 ^ 32 }
    ensures exact { result ≡ depth_after depth bytes.now }
    ensures within { result ≤ depth + length bytes.now }
{
    match bytes {
        [b'('] => depth + 1,
        [b')'] => depth.saturating_sub(1),
        _ => depth,
    }
}

/// The token of these bytes at a place. So many parentheses are open after it.
fn checked(at: u32, depth: u64, kind: Kind, bytes: &[u8]) -> Result<Token, LexFault>
    requires short { length bytes.now < 2 ^ 32 }
    requires digits { kind ≡ Kind.Number → AllPass is_ascii_digit bytes.now }
    ensures { result ≡ checked at depth kind bytes.now }
{
    let span = Span {
        at,
        len: bytes.len() as u32,
    };
    match kind {
        Kind::Word => {
            if bytes.len() > MAX_NAME {
                let found = bytes.len() as u64;
                return Err(LexFault::Limit(Limit {
                    what: What::Name,
                    found,
                }));
            }
            Ok(Token {
                kind,
                span,
                number: 0,
            })
        }
        Kind::Number => match number_of(bytes) {
            Some(number) => Ok(Token { kind, span, number }),
            None => Err(LexFault::NumberRange(at)),
        },
        Kind::Symbol => {
            if depth > MAX_DEPTH {
                return Err(LexFault::Limit(Limit {
                    what: What::Depth,
                    found: depth,
                }));
            }
            Ok(Token {
                kind,
                span,
                number: 0,
            })
        }
    }
}

fn tokens_of(alloc: Global, text: &[u8]) -> Result<Vec<Token>, LexFault>
    requires { length text.now < 2 ^ 32 }
    ensures { GivesBut LexFault.Memory (λ tokens. tokens.items) result (tokens_of text.now) }
{
    let mut tokens = Vec::new(alloc);
    let mut at: usize = 0;
    let mut depth: u64 = 0;
    while at < text.len() {
        let rest = &text[at..];
        match piece_of(rest) {
            Piece::Bad => return Err(LexFault::BadToken(at as u32)),
            Piece::Gap(len) => at += len,
            Piece::Token(kind, len) => {
                let (bytes, _) = rest.split_at(len);
                depth = depth_after(depth, bytes);
                tokens.push(checked(at as u32, depth, kind, bytes)?)?;
                at += len;
            }
        }
    }
    Ok(tokens)
}

/// The tokens of the text in order: words, numbers and symbols, each the longest that stands at its place.
/// Between them there may be blanks, tabs, returns and line feeds, and comments: from `--` to the end of its
/// line, and from `(*` to the first `*)` after it.
///
/// Else the first fault in order of place: a bad token, a number above 2^64 - 1, a name of more than 64 bytes,
/// or more than 64 open parentheses; or want of memory.
pub fn lex(alloc: Global, text: &[u8]) -> Result<Vec<Token>, LexFault>
    requires { length text.now < 2 ^ 32 }
    // The tokens of the text, or its first fault.
    ensures exact { GivesBut LexFault.Memory (λ tokens. tokens.items) result (tokens_of text.now) }
    // Each lies in the text, and a word is a name.
    ensures each { IfOk result (λ tokens. All (IsTokenOf text.now) tokens.items) }
    ensures order { IfOk result (λ tokens. AreInOrder 0 tokens.items) }
{
    tokens_of(alloc, text)
}
