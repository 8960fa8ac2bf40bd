//! Tokens, and what can be wrong with a text's.

ghost use Rattle.std.specs.Prelude.{◌≡◌, ◌+◌, ◌≤◌, length};
ghost use Rattle.prl_lex.specs.Lexing.{token_text};
ghost use Rattle.prl_lex.specs.declared.tokens.LexFault.TheVariants.{Memory};

use prl_base::{Limit, Span};
use std::alloc::AllocFailed;

/// What a token is.
#[derive(Clone, Copy, PartialEq, Eq)]
pub enum Kind {
    /// An ASCII letter or `_`, and then ASCII letters, digits and `_`: a name or a keyword.
    Word,
    /// One or more decimal digits.
    Number,
    /// One of `(` `)` `{` `}` `,` `;` `:` `::` `=` `+` `-` `*` `/` `%` `<` `<=` `>` `>=` `<>` `*^` `/^` `~>`.
    Symbol,
}

/// A token of a text.
#[derive(Clone, Copy)]
pub struct Token {
    pub kind: Kind,
    /// Its bytes.
    pub span: Span,
    /// What a number's digits write; 0 for the other kinds.
    pub number: u64,
}

/// Why a text has no tokens. The first fault, in order of place, is answered.
#[derive(Clone, Copy)]
pub enum LexFault {
    /// No token begins at this byte; a comment that is not closed counts as such.
    BadToken(u32),
    /// The number at this byte is above 2^64 - 1.
    NumberRange(u32),
    /// A name of more than 64 bytes, or more than 64 open parentheses.
    Limit(Limit),
    Memory,
}

impl<T: Drop> From<AllocFailed<T>> for LexFault {
    ghost from_gives = { λ _ e. e ≡ Memory };

    fn from(_error: AllocFailed<T>) -> LexFault {
        LexFault::Memory
    }
}

/// The bytes of a token of the text.
pub fn token_text<'a>(text: &'a [u8], token: &Token) -> &'a [u8]
    requires { token.now.span.at + token.now.span.len ≤ length text.now }
    ensures { result.now ≡ token_text text.now token.now }
{
    let at = token.span.at as usize;
    &text[at..at + token.span.len as usize]
}
