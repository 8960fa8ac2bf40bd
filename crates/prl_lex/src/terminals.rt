//! Tokens as a grammar sees them.

ghost use Rattle.std.specs.Prelude.{◌≡◌, ◌==◌, ◌≤◌, [], false, MatchOption};

use prl_base::{Name, Span};
use std::marker::Model;

#[derive(Drop)]
pub enum Word {
    Name(Name),
    Number(u64),
    /// A keyword or a symbol, by its number in its language, from 2 on.
    Fixed(u8),
}

/// A token as a grammar sees it: a name, a number, or a keyword or symbol of the language. Contracts see its
/// class and what it holds.
pub struct Terminal {
    word: Word,
    at: Span,
}

impl Model for Terminal {
    ghost use Rattle.prl_lex.specs.Lexemes.{Lexeme};

    ghost Value = { Lexeme };

    ghost use Rattle.prl_lex.specs.code.Terminals.{class_of, name_of, number_of, word_fits};

    ghost view = { λ t. record { class = class_of t.word; name = name_of t.word; number = number_of t.word; at = t.at } };

    ghost use Rattle.std.specs.Prelude.{IsTrue};

    ghost invariant = { λ t. IsTrue (word_fits t.word) };
}

impl Terminal {
    /// A name.
    pub fn name(name: Name, at: Span) -> Terminal
        ensures { result ≡ record { class = 0; name = name; number = 0; at = at } }
    {
        Terminal {
            word: Word::Name(name),
            at,
        }
    }

    /// A number.
    pub fn number(number: u64, at: Span) -> Terminal
        ensures { result ≡ record { class = 1; name = []; number = number; at = at } }
    {
        Terminal {
            word: Word::Number(number),
            at,
        }
    }

    /// A keyword or a symbol, by its number in its language, from 2 on.
    pub fn fixed(class: u8, at: Span) -> Terminal
        requires { 2 ≤ class }
        ensures { result ≡ record { class = class; name = []; number = 0; at = at } }
    {
        Terminal {
            word: Word::Fixed(class),
            at,
        }
    }

    /// Where it stands.
    pub fn at(&self) -> Span
        ensures { result ≡ self.now.at }
    {
        self.at
    }

    /// Its class: 0 a name, 1 a number, and from 2 on a keyword or a symbol.
    pub fn class(&self) -> u8
        ensures { result ≡ self.now.class }
    {
        match &self.word {
            Word::Name(_) => 0,
            Word::Number(_) => 1,
            Word::Fixed(own) => *own,
        }
    }

    /// Whether it is of the class: 0 a name, 1 a number, and from 2 on a keyword or a symbol.
    pub fn is(&self, class: u8) -> bool
        ensures { result ≡ (self.now.class == class) }
    {
        match &self.word {
            Word::Name(_) => class == 0,
            Word::Number(_) => class == 1,
            Word::Fixed(own) => *own == class,
        }
    }

    /// The name, where it is one.
    pub fn own_name(&self) -> Option<&Name>
        ensures { MatchOption result ((self.now.class == 0) ≡ false) (λ name. (self.now.class ≡ 0) × (name.now ≡ self.now.name)) }
    {
        match &self.word {
            Word::Name(name) => Some(name),
            Word::Number(_) => None,
            Word::Fixed(_) => None,
        }
    }

    /// What a number is; 0 for the others.
    pub fn value(&self) -> u64
        ensures { result ≡ self.now.number }
    {
        match &self.word {
            Word::Number(number) => *number,
            Word::Name(_) | Word::Fixed(_) => 0,
        }
    }
}

impl Drop for Terminal {
    fn drop(self) {
        let Terminal { word, at: _ } = self;
        drop(word);
    }
}
