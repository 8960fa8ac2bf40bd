//! Readers of one token.

ghost use Rattle.std.specs.Prelude.{◌≡◌, ◌∷◌, [], ◌≤◌, ◌+◌, length, IfOk, IsTrue};
ghost use Rattle.prl_base.specs.Reading.{Gives};
ghost use Rattle.prl_lex.specs.code.Readers.{next_in, place_at, name_at, number_at};
ghost use Rattle.prl_lex.specs.code.Stops.{stop_of};
ghost use Rattle.prl_lex.specs.Whole.{place_of, place_or};
ghost use Rattle.prl_lex.specs.declared.reading.Stop.TheVariants.{Memory};

use crate::terminals::Terminal;
use prl_base::{Name, Span};
use std::alloc::{AllocError, AllocFailed, Global};

/// Why a reader stopped.
#[derive(Clone, Copy)]
pub enum Stop {
    /// The next token is unexpected, or the end is; so many tokens are left.
    Unexpected(usize),
    Memory,
}

impl From<AllocError> for Stop {
    ghost from_gives = { λ _ e. e ≡ Memory };

    fn from(_error: AllocError) -> Stop {
        Stop::Memory
    }
}

impl<T: Drop> From<AllocFailed<T>> for Stop {
    ghost from_gives = { λ _ e. e ≡ Memory };

    fn from(_error: AllocFailed<T>) -> Stop {
        Stop::Memory
    }
}

/// Whether the next token is of the class.
pub fn next_is(terminals: &[Terminal], class: u8) -> bool
    ensures { result ≡ next_in (class ∷ []) terminals.now }
{
    match terminals {
        [] => false,
        [first, ..] => first.is(class),
    }
}

/// Takes a token of the class, and answers its place and the tokens after it.
pub fn expect(terminals: &[Terminal], class: u8) -> Result<(Span, &[Terminal]), Stop>
    ensures { Gives (λ x. (x.0, x.1.now)) stop_of result (place_at class terminals.now) }
{
    match terminals {
        [] => Err(Stop::Unexpected(0)),
        [first, rest @ ..] => {
            if !first.is(class) {
                return Err(Stop::Unexpected(terminals.len()));
            }
            Ok((first.at(), rest))
        }
    }
}

/// Takes a number, and answers it, its place and the tokens after it.
pub fn number(terminals: &[Terminal]) -> Result<(u64, Span, &[Terminal]), Stop>
    ensures { Gives (λ x. ((x.0, x.1), x.2.now)) stop_of result (number_at terminals.now) }
{
    match terminals {
        [] => Err(Stop::Unexpected(0)),
        [first, rest @ ..] => {
            if !first.is(1) {
                return Err(Stop::Unexpected(terminals.len()));
            }
            Ok((first.value(), first.at(), rest))
        }
    }
}

/// Takes a name, and answers it, its place and the tokens after it.
pub fn name(alloc: Global, terminals: &[Terminal]) -> Result<(Name, Span, &[Terminal]), Stop>
    ensures { Gives (λ x. ((x.0, x.1), x.2.now)) stop_of result (name_at terminals.now) }
{
    match terminals {
        [] => Err(Stop::Unexpected(0)),
        [first, rest @ ..] => match first.own_name() {
            Some(name) => Ok((name.copy(alloc)?, first.at(), rest)),
            None => Err(Stop::Unexpected(terminals.len())),
        },
    }
}

/// The place of the first of the tokens, or the end of the text.
fn place_or(end: u32, terminals: &[Terminal]) -> u32
    ensures { result ≡ place_or end terminals.now }
{
    match terminals {
        [] => end,
        [first, ..] => first.at().at,
    }
}

/// The place of the first of so many tokens that are left, or the end of the text.
pub fn place_of(terminals: &[Terminal], left: usize, end: u32) -> u32
    ensures { result ≡ place_of terminals.now left end }
{
    let (_, rest) = terminals.split_at(terminals.len().saturating_sub(left));
    place_or(end, rest)
}
