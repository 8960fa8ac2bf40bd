//! The parser: what is left of the tokens, and what is taken of them.

ghost use Rattle.std.specs.Prelude.{◌≡◌, ◌∷◌, []};
ghost use Rattle.prl_lex.specs.Vocabulary.{next_in, named, number};
ghost use Rattle.prl_bodytext.specs.Grammar.{the, Constant};
ghost use Rattle.prl_bodytext.specs.code.Parses.{Parses};
ghost use Rattle.prl_bodytext.specs.Words.{class_of};

use crate::words::Fixed;
use prl_base::{Name, Span, Value};
use prl_lex::{Stop, Terminal, negative, positive};
use std::alloc::Global;
use std::marker::Model;

/// A parser of bodies. Contracts see what is left of the tokens.
#[derive(Drop)]
pub struct Parser<'a> {
    pub alloc: Global,
    pub rest: &'a [Terminal],
}

impl<'a> Model for Parser<'a> {
    ghost use Rattle.std.specs.Prelude.{List};
    ghost use Rattle.prl_lex.specs.Lexemes.{Lexeme};

    ghost Value = { List Lexeme };

    ghost view = { λ p. p.rest.now };
}

impl<'a> Parser<'a> {
    /// Whether the next token is this one.
    pub fn next_is(&self, fixed: Fixed) -> bool
        ensures { result ≡ next_in (class_of fixed ∷ []) self.now }
    {
        prl_lex::next_is(self.rest, fixed as u8)
    }

    /// Whether a name is next.
    pub fn next_is_name(&self) -> bool
        ensures { result ≡ next_in (0 ∷ []) self.now }
    {
        prl_lex::next_is(self.rest, 0)
    }

    /// Takes this token, and answers its place.
    pub fn expect(&mut self, fixed: Fixed) -> Result<Span, Stop>
        ensures { Parses (λ x. x) (the fixed) result self.entry.now self.exit.now }
    {
        let (at, rest) = prl_lex::expect(self.rest, fixed as u8)?;
        self.rest = rest;
        Ok(at)
    }

    /// Takes a name, and answers it and its place.
    pub fn name(&mut self) -> Result<(Name, Span), Stop>
        ensures { Parses (λ x. (x.0, x.1)) named result self.entry.now self.exit.now }
    {
        let (name, at, rest) = prl_lex::name(self.alloc, self.rest)?;
        self.rest = rest;
        Ok((name, at))
    }

    /// Takes a number.
    pub fn number(&mut self) -> Result<u64, Stop>
        ensures { Parses (λ x. x) number result self.entry.now self.exit.now }
    {
        let (number, _, rest) = prl_lex::number(self.rest)?;
        self.rest = rest;
        Ok(number)
    }

    /// Takes a constant.
    #[tactic(auto, unfolding(crate::specs::Grammar::Constant))]
    pub fn constant(&mut self) -> Result<Value, Stop>
        ensures { Parses (λ x. x) Constant result self.entry.now self.exit.now }
    {
        if self.next_is(Fixed::True) {
            self.expect(Fixed::True)?;
            return Ok(Value::Bool(true));
        }
        if self.next_is(Fixed::False) {
            self.expect(Fixed::False)?;
            return Ok(Value::Bool(false));
        }
        if self.next_is(Fixed::Minus) {
            self.expect(Fixed::Minus)?;
            return Ok(negative(self.number()?));
        }
        Ok(positive(self.number()?))
    }
}
