//! The parser: what is left of the tokens, and what is taken of them.

ghost use Rattle.std.specs.Prelude.{◌≡◌, ◌∷◌, []};
ghost use Rattle.prl_lex.specs.Vocabulary.{first_place, next_in, ◌⊳◌, named, number};
ghost use Rattle.prl_syntax.specs.Grammar.{the};
ghost use Rattle.prl_syntax.specs.code.Parses.{Parses};
ghost use Rattle.prl_syntax.specs.Words.{class_of};

use crate::words::Fixed;
use prl_base::{Name, Span};
use prl_lex::{Stop, Terminal};
use std::alloc::Global;
use std::marker::Model;

/// A parser of programs. Contracts see what is left of the tokens.
#[derive(Drop)]
pub struct Parser<'a> {
    pub alloc: Global,
    pub rest: &'a [Terminal],
}

impl<'a> Model for Parser<'a> {
    ghost use Rattle.std.specs.Prelude.{List};
    ghost use Rattle.prl_lex.specs.Lexemes.{Lexeme};

    ghost Value = { List Lexeme };

    ghost view = { λ p. p.rest.now };
}

impl<'a> Parser<'a> {
    /// Whether the next token is this one.
    pub fn next_is(&self, fixed: Fixed) -> bool
        ensures { result ≡ next_in (class_of fixed ∷ []) self.now }
    {
        prl_lex::next_is(self.rest, fixed as u8)
    }

    /// Whether a name is next.
    pub fn next_is_name(&self) -> bool
        ensures { result ≡ next_in (0 ∷ []) self.now }
    {
        prl_lex::next_is(self.rest, 0)
    }

    /// Whether a number is next.
    pub fn next_is_number(&self) -> bool
        ensures { result ≡ next_in (1 ∷ []) self.now }
    {
        prl_lex::next_is(self.rest, 1)
    }

    /// The place of the next token.
    pub fn place_of_first(&self) -> Span
        ensures { result ≡ first_place self.now }
    {
        match self.rest {
            [] => Span { at: 0, len: 0 },
            [first, ..] => first.at(),
        }
    }

    /// Takes this token, and answers its place.
    pub fn expect(&mut self, fixed: Fixed) -> Result<Span, Stop>
        ensures { Parses (λ x. x) (the fixed) result self.entry.now self.exit.now }
    {
        let (at, rest) = prl_lex::expect(self.rest, fixed as u8)?;
        self.rest = rest;
        Ok(at)
    }

    /// Takes a name, and answers it and its place.
    pub fn name(&mut self) -> Result<(Name, Span), Stop>
        ensures { Parses (λ x. (x.0, x.1)) named result self.entry.now self.exit.now }
    {
        let (name, at, rest) = prl_lex::name(self.alloc, self.rest)?;
        self.rest = rest;
        Ok((name, at))
    }

    /// Takes a number.
    pub fn number(&mut self) -> Result<u64, Stop>
        ensures { Parses (λ x. x) number result self.entry.now self.exit.now }
    {
        let (number, _, rest) = prl_lex::number(self.rest)?;
        self.rest = rest;
        Ok(number)
    }

    /// Takes this token and a number.
    pub fn number_after(&mut self, fixed: Fixed) -> Result<u64, Stop>
        ensures { Parses (λ x. x) (the fixed ⊳ number) result self.entry.now self.exit.now }
    {
        self.expect(fixed)?;
        self.number()
    }
}
