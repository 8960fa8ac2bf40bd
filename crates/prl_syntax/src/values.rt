//! Constants and ratios.

ghost use Rattle.std.specs.Prelude.{◌≡◌, ◌<◌, ◌≤◌};
ghost use Rattle.prl_base.specs.Reading.{Gives};
ghost use Rattle.prl_base.specs.declared.ratios.TheConstants.{MAX_PART};
ghost use Rattle.prl_lex.specs.Vocabulary.{stop_of, ◌⊳◌};
ghost use Rattle.prl_lex.specs.Combinators as combinators;
ghost use Rattle.prl_syntax.specs.Values.{small, reduced, ratio_of};
ghost use Rattle.prl_syntax.specs.Grammar as grammar;
ghost use Rattle.prl_syntax.specs.code.Parses.{Parses};
ghost use Rattle.prl_syntax.specs.declared.words.Fixed.TheVariants as kinds;

use crate::parser::Parser;
use crate::words::Fixed;
use prl_base::{MAX_PART, Ratio, Value, gcd};
use prl_lex::{Stop, negative, positive};

/// The number, or the greatest one that is in a range.
pub fn small(number: u64) -> u32
    ensures { result ≡ small number }
{
    number.min(MAX_PART) as u32
}

impl<'a> Parser<'a> {
    /// Takes a constant.
    #[tactic(auto, unfolding(crate::specs::Grammar::Const))]
    pub fn constant(&mut self) -> Result<Value, Stop>
        ensures { Parses (λ x. x) grammar.Const result self.entry.now self.exit.now }
    {
        if self.next_is(Fixed::True) {
            self.expect(Fixed::True)?;
            return Ok(Value::Bool(true));
        }
        if self.next_is(Fixed::False) {
            self.expect(Fixed::False)?;
            return Ok(Value::Bool(false));
        }
        if self.next_is(Fixed::Minus) {
            return Ok(negative(self.number_after(Fixed::Minus)?));
        }
        Ok(positive(self.number()?))
    }
}

/// The reduced ratio of numbers that are in range.
fn reduced(num: u64, den: u64) -> Ratio
    requires num { num ≤ MAX_PART }
    requires positive { 0 < den }
    requires den { den ≤ MAX_PART }
    ensures { result ≡ reduced num den }
{
    let divisor = gcd(num, den);
    Ratio {
        num: (num / divisor) as i64,
        den: den / divisor,
    }
}

/// The reduced ratio; 0 where the denominator is.
pub fn ratio_of(num: u64, den: u64) -> Ratio
    ensures { result ≡ ratio_of num den }
{
    if small(den) == 0 {
        return Ratio { num: 0, den: 1 };
    }
    reduced(u64::from(small(num)), u64::from(small(den)))
}

impl<'a> Parser<'a> {
    /// Takes a denominator and its `/`, if they are there.
    fn maybe_denominator(&mut self) -> Result<Option<u64>, Stop>
        ensures { Parses (λ x. x) (combinators.maybe (grammar.the kinds.Slash ⊳ combinators.number)) result self.entry.now self.exit.now }
    {
        if self.next_is(Fixed::Slash) {
            return Ok(Some(self.number_after(Fixed::Slash)?));
        }
        Ok(None)
    }

    /// Takes a ratio: a number, or two with a `/` between.
    #[tactic(auto, unfolding(crate::specs::Grammar::Ratio))]
    pub fn ratio(&mut self) -> Result<Ratio, Stop>
        ensures { Parses (λ x. x) grammar.Ratio result self.entry.now self.exit.now }
    {
        let num = self.number()?;
        let den = self.maybe_denominator()?;
        Ok(ratio_of(num, den.unwrap_or(1)))
    }
}
