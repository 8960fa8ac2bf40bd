//! Where a name stands in a program.

ghost use Rattle.std.specs.Prelude.{◌≡◌, ◌<◌, ◌≤◌, ◌^◌, All, IfOk, IfSome, false, length};
ghost use Rattle.std.specs.List.{after_first, before_first, position_or_len};
ghost use Rattle.prl_lex.specs.Lexing.{IsTokenOf};
ghost use Rattle.prl_spots.specs.Names.{first_named, first_used, flow_asked, is_inside, is_byte, is_declaring, is_text, main_of, named_at, named_in, declared_from, shown, used_or_first};

use prl_lex::{LexFault, Token, lex, token_text};
use std::alloc::{AllocError, Global};

/// Which of the places where a name stands is asked for: the first that lies in a node, or else in the whole text; its declaration
/// as a node, a sensor or an actuator; or the first of main or of a node.
#[derive(Clone, Copy)]
pub(crate) enum Asked<'a> {
    Used(&'a [u8]),
    Declared(&'a [u8]),
    InMain(&'a [u8]),
    InNode(&'a [u8], &'a [u8]),
}

/// Whether a token is this word.
pub(crate) fn is_text(text: &[u8], token: &Token, word: &[u8]) -> bool
    requires { IsTokenOf text.now token.now }
    ensures { result ≡ is_text text.now token.now word.now }
{
    token_text(text, token) == word
}

/// Where the first of the tokens begins that is this name.
fn first_named(text: &[u8], tokens: &[Token], name: &[u8]) -> Option<usize>
    requires { All (IsTokenOf text.now) tokens.now }
    ensures exact { result ≡ first_named text.now tokens.now name.now }
    ensures inside { IfSome result (λ at. at ≤ length text.now) }
{
    for token in tokens {
        if is_text(text, token, name) {
            return Some(token.span.at as usize);
        }
    }
    None
}

/// Whether the next token lies in a node: what is not imported, up to its `tel`.
fn is_inside(text: &[u8], inside: bool, imported: bool, token: &Token) -> bool
    requires { IsTokenOf text.now token.now }
    ensures { result ≡ is_inside text.now inside imported token.now }
{
    if inside {
        !is_text(text, token, b"tel")
    } else {
        !imported && is_text(text, token, b"node")
    }
}

/// Where the first of the tokens begins that is this name and lies in a node.
fn first_used(text: &[u8], tokens: &[Token], name: &[u8]) -> Option<usize>
    requires { All (IsTokenOf text.now) tokens.now }
    ensures exact { result ≡ first_used text.now name.now false false tokens.now }
    ensures inside { IfSome result (λ at. at ≤ length text.now) }
{
    let mut in_node = false;
    let mut imported = false;
    for token in tokens {
        if in_node && is_text(text, token, name) {
            return Some(token.span.at as usize);
        }
        in_node = is_inside(text, in_node, imported, token);
        imported = is_text(text, token, b"imported");
    }
    None
}

/// Where the first of the tokens begins that is this name, of those in a node where there is one.
fn used_or_first(text: &[u8], tokens: &[Token], name: &[u8]) -> Option<usize>
    requires { All (IsTokenOf text.now) tokens.now }
    ensures exact { result ≡ used_or_first text.now tokens.now name.now }
    ensures inside { IfSome result (λ at. at ≤ length text.now) }
{
    match first_used(text, tokens, name) {
        Some(at) => Some(at),
        None => first_named(text, tokens, name),
    }
}

/// The tokens from the last `node` on that is not imported; all of them where there is none.
fn main_of<'a>(text: &[u8], tokens: &'a [Token]) -> &'a [Token]
    requires { All (IsTokenOf text.now) tokens.now }
    ensures exact { result.now ≡ main_of text.now tokens.now false tokens.now }
    ensures each { All (IsTokenOf text.now) result.now }
{
    let mut start: usize = 0;
    let mut imported = false;
    for (i, token) in tokens.iter().enumerate() {
        if !imported && is_text(text, token, b"node") {
            start = i;
        }
        imported = is_text(text, token, b"imported");
    }
    &tokens[start..]
}

/// Whether a name that is declared stands after this token.
fn is_declaring(text: &[u8], token: &Token) -> bool
    requires { IsTokenOf text.now token.now }
    ensures { result ≡ is_declaring text.now token.now }
{
    is_text(text, token, b"node")
        || is_text(text, token, b"sensor")
        || is_text(text, token, b"actuator")
}

/// The tokens from the declaration of this name on; none where it is not declared.
fn declared_of<'a>(text: &[u8], tokens: &'a [Token], name: &[u8]) -> &'a [Token]
    requires { All (IsTokenOf text.now) tokens.now }
    ensures exact { result.now ≡ declared_from text.now name.now false tokens.now }
    ensures each { All (IsTokenOf text.now) result.now }
{
    let mut declares = false;
    for (i, token) in tokens.iter().enumerate() {
        if declares && is_text(text, token, name) {
            return &tokens[i..];
        }
        declares = is_declaring(text, token);
    }
    &[]
}

/// The place that is asked for, among these tokens.
fn named_in(text: &[u8], tokens: &[Token], asked: Asked<'_>) -> Option<usize>
    requires { All (IsTokenOf text.now) tokens.now }
    ensures exact { result ≡ named_in text.now tokens.now (shown asked.entry) }
    ensures inside { IfSome result (λ at. at ≤ length text.now) }
{
    match asked {
        Asked::Used(name) => used_or_first(text, tokens, name),
        Asked::InMain(name) => first_named(text, main_of(text, tokens), name),
        Asked::Declared(name) => first_named(text, declared_of(text, tokens, name), name),
        Asked::InNode(node, name) => first_named(text, declared_of(text, tokens, node), name),
    }
}

/// The place that is asked for in a program, where that has tokens and the name is one of them.
pub(crate) fn named_at(
    alloc: Global,
    text: &[u8],
    asked: Asked<'_>,
) -> Result<Option<usize>, AllocError>
    requires { length text.now < 2 ^ 32 }
    ensures exact { IfOk result (λ at. at ≡ named_at text.now (shown asked.entry)) }
    ensures inside { IfOk result (λ found. IfSome found (λ at. at ≤ length text.now)) }
{
    match lex(alloc, text) {
        Ok(tokens) => Ok(named_in(text, &tokens, asked)),
        Err(LexFault::Memory) => Err(AllocError),
        Err(LexFault::BadToken(_)) => Ok(None),
        Err(LexFault::NumberRange(_)) => Ok(None),
        Err(LexFault::Limit(_)) => Ok(None),
    }
}

/// How many bytes stand before the first that is this one.
fn len_before(text: &[u8], byte: u8) -> usize
    ensures exact { result ≡ position_or_len (is_byte byte) text.now }
    ensures within { result ≤ length text.now }
{
    for (i, other) in text.iter().enumerate() {
        if *other == byte {
            return i;
        }
    }
    text.len()
}

/// What stands before the first byte that is this one.
pub(crate) fn before(text: &[u8], byte: u8) -> &[u8]
    ensures { result.now ≡ before_first (is_byte byte) text.now }
{
    &text[..len_before(text, byte)]
}

/// What stands after the first byte that is this one.
pub(crate) fn behind(text: &[u8], byte: u8) -> &[u8]
    ensures { result.now ≡ after_first (is_byte byte) text.now }
{
    let len = len_before(text, byte);
    if len < text.len() {
        &text[len + 1..]
    } else {
        &[]
    }
}

/// Which place the label of a flow asks for: `NODE#N.NAME`, or a name of main.
pub(crate) fn flow_asked(label: &[u8]) -> Asked<'_>
    ensures { shown result ≡ flow_asked label.now }
{
    if len_before(label, b'#') < label.len() {
        Asked::InNode(before(label, b'#'), behind(label, b'.'))
    } else {
        Asked::InMain(label)
    }
}
