//! Tokens by their classes: from the tokens of a text to those of a grammar.

ghost use Rattle.std.specs.Prelude.{◌≡◌, ◌≤◌, All, IfOk, IfSome};
ghost use Rattle.prl_base.specs.Names.{IsName};
ghost use Rattle.prl_lex.specs.Lexing.{IsTokenOf};
ghost use Rattle.prl_lex.specs.Classes.{class_in, lexeme_of, lexemes_of, symbol_class, word_lexeme};

use crate::syntax::Syntax;
use crate::terminals::Terminal;
use crate::tokens::{Kind, Token, token_text};
use prl_base::{Name, NameFault, Span};
use std::alloc::{AllocError, Global};

/// The class of a symbol that a language does not have.
pub const FOREIGN: u8 = 255;

/// The class of the first row with these bytes, in a table of bytes and classes.
pub fn class_in(table: &[(&[u8], u8)], bytes: &[u8]) -> Option<u8>
    requires { All (λ row. 2 ≤ row.1) table.now }
    ensures exact { result ≡ class_in (λ row. row.0.now) (λ row. row.1) table.now bytes.now }
    ensures from_two { IfSome result (λ class. 2 ≤ class) }
{
    'each: for row in table {
        if bytes == row.0 {
            return Some(row.1);
        }
    }
    None
}

/// A word of at most 64 bytes: a keyword or a name.
fn word_terminal<S: Syntax>(alloc: Global, bytes: &[u8], at: Span) -> Result<Terminal, AllocError>
    requires { IsName bytes.now }
    ensures { IfOk result (λ t. t ≡ word_lexeme (S.texts.vocabulary.keyword bytes.now) bytes.now at) }
{
    match S::keyword(bytes) {
        Some(class) => Ok(Terminal::fixed(class, at)),
        None => match Name::new(alloc, bytes) {
            Ok(name) => Ok(Terminal::name(name, at)),
            Err(NameFault::Shape) => unreachable!(),
            Err(NameFault::Long(_)) => unreachable!(),
            Err(NameFault::Memory) => Err(AllocError),
        },
    }
}

/// The class of a symbol of the language, or the one of all others.
fn symbol_class<S: Syntax>(bytes: &[u8]) -> u8
    ensures exact { result ≡ symbol_class (S.texts.vocabulary.symbol bytes.now) }
    ensures from_two { 2 ≤ result }
{
    match S::symbol(bytes) {
        Some(class) => class,
        None => FOREIGN,
    }
}

fn terminal<S: Syntax>(alloc: Global, text: &[u8], token: &Token) -> Result<Terminal, AllocError>
    requires { IsTokenOf text.now token.now }
    ensures { IfOk result (λ t. t ≡ lexeme_of S.texts.vocabulary text.now token.now) }
{
    let bytes = token_text(text, token);
    match token.kind {
        Kind::Number => Ok(Terminal::number(token.number, token.span)),
        Kind::Symbol => Ok(Terminal::fixed(symbol_class::<S>(bytes), token.span)),
        Kind::Word => word_terminal::<S>(alloc, bytes, token.span),
    }
}

/// The tokens of the text as the grammar of the language sees them.
pub fn terminals_of<S: Syntax>(
    alloc: Global,
    text: &[u8],
    tokens: &[Token],
) -> Result<Vec<Terminal>, AllocError>
    requires { All (IsTokenOf text.now) tokens.now }
    ensures { IfOk result (λ terminals. terminals.items ≡ lexemes_of S.texts.vocabulary text.now tokens.now) }
{
    let mut terminals = Vec::new(alloc);
    'each: for token in tokens {
        terminals.push(terminal::<S>(alloc, text, token)?)?;
    }
    Ok(terminals)
}
