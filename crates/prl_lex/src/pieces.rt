//! What stands at the front of a text.

ghost use Rattle.std.specs.Prelude.{◌≡◌, ◌≤◌, length, drop, IfSome};
ghost use Rattle.std.specs.Char.{is_ascii_digit};
ghost use Rattle.std.specs.List.{prefix_len};
ghost use Rattle.prl_base.specs.Names.{is_word_byte};
ghost use Rattle.prl_lex.specs.FirstByte.{symbol_by_bytes, token_by_first};
ghost use Rattle.prl_lex.specs.Tokens.{is_blank, is_one_byte_symbol, is_two_byte_symbol, begins, closing_len, closed, token_of_len, longest, piece_of, FitsPiece};

use crate::tokens::Kind;
use prl_base::{is_word_byte, is_word_start, line_len};

/// What stands at the front of a text.
#[derive(Clone, Copy)]
pub enum Piece {
    /// So many bytes of white space or of a comment.
    Gap(usize),
    /// A token of so many bytes.
    Token(Kind, usize),
    /// Neither, or a comment that is not closed.
    Bad,
}

fn is_blank(byte: u8) -> bool
    ensures { result ≡ is_blank byte }
{
    byte == b' ' || byte == b'\t' || byte == b'\r' || byte == b'\n'
}

fn is_one_byte_symbol(byte: u8) -> bool
    ensures { result ≡ is_one_byte_symbol byte }
{
    b"(){},;:=+-*/%<>".contains(&byte)
}

fn is_two_byte_symbol(first: u8, second: u8) -> bool
    ensures { result ≡ is_two_byte_symbol first second }
{
    match first {
        b':' => second == b':',
        b'<' => second == b'=' || second == b'>',
        b'>' => second == b'=',
        b'*' | b'/' => second == b'^',
        b'~' => second == b'>',
        _ => false,
    }
}

/// How many bytes of a word the text begins with, its first byte aside.
fn word_len(text: &[u8]) -> usize
    ensures exact { result ≡ prefix_len is_word_byte text.now }
    ensures within { result ≤ length text.now }
{
    for (i, byte) in text.iter().enumerate() {
        if !is_word_byte(*byte) {
            return i;
        }
    }
    text.len()
}

/// How many digits the text begins with.
fn digits_len(text: &[u8]) -> usize
    ensures exact { result ≡ prefix_len is_ascii_digit text.now }
    ensures within { result ≤ length text.now }
{
    for (i, byte) in text.iter().enumerate() {
        if !byte.is_ascii_digit() {
            return i;
        }
    }
    text.len()
}

/// Whether the text begins with the two bytes.
fn begins(text: &[u8], first: u8, second: u8) -> bool
    ensures { result ≡ begins first second text.now }
{
    match text {
        [a, b, ..] => *a == first && *b == second,
        [_] => false,
        [] => false,
    }
}

/// How many bytes there are up to the end of the first `*)`.
fn closing_len(text: &[u8]) -> Option<usize>
    ensures exact { result ≡ closing_len text.now }
    ensures within { IfSome result (λ len. len ≤ length text.now) }
{
    for i in 0..text.len() {
        if begins(&text[i..], b'*', b')') {
            return Some(i + 2);
        }
    }
    None
}

/// The comment at the front of a text that begins with `(*`.
fn comment(text: &[u8]) -> Piece
    requires { 2 ≤ length text.now }
    ensures { result ≡ closed (closing_len (drop 2 text.now)) }
{
    match closing_len(&text[2..]) {
        Some(len) => Piece::Gap(len + 2),
        None => Piece::Bad,
    }
}

/// The symbol at the front, of which these are the first byte and the rest.
fn symbol(first: u8, rest: &[u8]) -> Piece
    ensures { result ≡ symbol_by_bytes first rest.now }
{
    if let [second, ..] = rest
        && is_two_byte_symbol(first, *second)
    {
        return Piece::Token(Kind::Symbol, 2);
    }
    if is_one_byte_symbol(first) {
        return Piece::Token(Kind::Symbol, 1);
    }
    Piece::Bad
}

/// The token at the front, whose kind its first byte tells.
fn token_by_first(text: &[u8]) -> Piece
    ensures { result ≡ token_by_first text.now }
{
    match text {
        [] => Piece::Bad,
        [first, rest @ ..] => {
            if is_word_start(*first) {
                Piece::Token(Kind::Word, word_len(rest) + 1)
            } else if first.is_ascii_digit() {
                Piece::Token(Kind::Number, digits_len(rest) + 1)
            } else {
                symbol(*first, rest)
            }
        }
    }
}

/// The longest token at the front.
fn token(text: &[u8]) -> Piece
    ensures { result ≡ token_of_len text.now (longest text.now) }
{
    token_by_first(text)
}

fn front(text: &[u8]) -> Piece
    ensures { result ≡ piece_of text.now }
{
    match text {
        [] => Piece::Bad,
        [first, ..] => {
            if is_blank(*first) {
                Piece::Gap(1)
            } else if begins(text, b'-', b'-') {
                Piece::Gap(line_len(text))
            } else if begins(text, b'(', b'*') {
                comment(text)
            } else {
                token(text)
            }
        }
    }
}

/// What stands at the front of a text.
pub fn piece_of(text: &[u8]) -> Piece
    ensures exact { result ≡ piece_of text.now }
    ensures fits { FitsPiece text.now result }
{
    front(text)
}
