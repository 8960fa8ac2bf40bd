//! Expressions. Only parentheses nest: series and runs are read by loops.

ghost use Rattle.std.specs.Prelude.{◌≡◌, ◌∷◌, [], map};
ghost use Rattle.prl_body.specs.Texts.{tree_of};
ghost use Rattle.prl_lex.specs.Vocabulary.{◌⊳◌, ◌⊲◌, next_in, many, inner, shape, inner_of};
ghost use Rattle.prl_bodytext.specs.Grammar.{the, sign, Operators, RightOf, SeriesOf, Comparison, Negation, Unary, Primary, Enclosed, Conditional, Operand, bodies};
ghost use Rattle.prl_bodytext.specs.code.Parses.{Parses};
ghost use Rattle.prl_bodytext.specs.declared.words.Fixed.TheVariants as kinds;
ghost use Rattle.prl_bodytext.specs.Trees.{pair_view};

use crate::levels::Level;
use crate::parser::Parser;
use crate::trees::{compared, in_series, prefixed};
use crate::words::Fixed;
use prl_base::{Span, Value};
use prl_body::{Expr, ExprRight, Operator, Prefix};
use prl_lex::{Stop, positive};

impl<'a> Parser<'a> {
    #[tactic(auto, unfolding(crate::specs::Grammar::Operators, crate::specs::Grammar::RightOf))]
    fn begins_operator(&self, level: Level) -> bool
        ensures { result ≡ next_in (shape (inner_of bodies) (RightOf level (Operand level))).first self.now }
    {
        match level {
            Level::Disjunction => self.next_is(Fixed::Or) || self.next_is(Fixed::Xor),
            Level::Conjunction => self.next_is(Fixed::And),
            Level::Comparison => {
                self.next_is(Fixed::Equals)
                    || self.next_is(Fixed::Unequal)
                    || self.next_is(Fixed::Less)
                    || self.next_is(Fixed::AtMost)
                    || self.next_is(Fixed::Greater)
                    || self.next_is(Fixed::AtLeast)
            }
            Level::Sum => self.next_is(Fixed::Plus) || self.next_is(Fixed::Minus),
            Level::Product => {
                self.next_is(Fixed::Star)
                    || self.next_is(Fixed::Slash)
                    || self.next_is(Fixed::Percent)
            }
        }
    }

    fn sign(&mut self, fixed: Fixed, operator: Operator) -> Result<(Operator, Span), Stop>
        ensures { Parses (λ x. (x.0, x.1)) (sign fixed operator) result self.entry.now self.exit.now }
    {
        let at = self.expect(fixed)?;
        Ok((operator, at))
    }

    #[tactic(auto, unfolding(crate::specs::Grammar::Operators))]
    fn operator(&mut self, level: Level) -> Result<(Operator, Span), Stop>
        ensures { Parses (λ x. (x.0, x.1)) (Operators level) result self.entry.now self.exit.now }
    {
        match level {
            Level::Disjunction => {
                if self.next_is(Fixed::Or) {
                    return self.sign(Fixed::Or, Operator::Or);
                }
                self.sign(Fixed::Xor, Operator::Xor)
            }
            Level::Conjunction => self.sign(Fixed::And, Operator::And),
            Level::Comparison => {
                if self.next_is(Fixed::Equals) {
                    return self.sign(Fixed::Equals, Operator::Equal);
                }
                if self.next_is(Fixed::Unequal) {
                    return self.sign(Fixed::Unequal, Operator::Unequal);
                }
                if self.next_is(Fixed::Less) {
                    return self.sign(Fixed::Less, Operator::Less);
                }
                if self.next_is(Fixed::AtMost) {
                    return self.sign(Fixed::AtMost, Operator::AtMost);
                }
                if self.next_is(Fixed::Greater) {
                    return self.sign(Fixed::Greater, Operator::Greater);
                }
                self.sign(Fixed::AtLeast, Operator::AtLeast)
            }
            Level::Sum => {
                if self.next_is(Fixed::Plus) {
                    return self.sign(Fixed::Plus, Operator::Plus);
                }
                self.sign(Fixed::Minus, Operator::Minus)
            }
            Level::Product => {
                if self.next_is(Fixed::Star) {
                    return self.sign(Fixed::Star, Operator::Times);
                }
                if self.next_is(Fixed::Slash) {
                    return self.sign(Fixed::Slash, Operator::Over);
                }
                self.sign(Fixed::Percent, Operator::Modulo)
            }
        }
    }

    /// Takes as many of the token as are next, and answers their places.
    #[tactic(auto, using(prl_lex::proofs::Loops::loops, crate::proofs::Right::prefix_steps))]
    fn prefixes(&mut self, fixed: Fixed) -> Result<Vec<Span>, Stop>
        ensures { Parses (λ x. x.items) (many (the fixed)) result self.entry.now self.exit.now }
    {
        let mut ats = Vec::new(self.alloc);
        'more: while self.next_is(fixed) {
            ats.push(self.expect(fixed)?)?;
        }
        Ok(ats)
    }

    #[cycle(expression)]
    #[tactic(auto, unfolding(crate::specs::Grammar::Primary, crate::specs::Grammar::Enclosed))]
    fn primary(&mut self) -> Result<Expr, Stop>
        ensures { Parses tree_of Primary result self.entry.now self.exit.now }
    {
        if prl_lex::next_is(self.rest, 1) {
            return Ok(Expr::Const(positive(self.number()?)));
        }
        if self.next_is(Fixed::True) {
            self.expect(Fixed::True)?;
            return Ok(Expr::Const(Value::Bool(true)));
        }
        if self.next_is(Fixed::False) {
            self.expect(Fixed::False)?;
            return Ok(Expr::Const(Value::Bool(false)));
        }
        if self.next_is_name() {
            let (name, at) = self.name()?;
            return Ok(Expr::Name { name, at });
        }
        if self.next_is(Fixed::Open) {
            return self.enclosed();
        }
        self.conditional()
    }

    #[cycle(expression)]
    #[tactic(auto, unfolding(crate::specs::Grammar::Enclosed))]
    fn enclosed(&mut self) -> Result<Expr, Stop>
        ensures { Parses tree_of Enclosed result self.entry.now self.exit.now }
    {
        self.expect(Fixed::Open)?;
        let expr = self.expression()?;
        self.expect(Fixed::Close)?;
        Ok(expr)
    }

    #[cycle(expression)]
    #[tactic(auto, unfolding(crate::specs::Grammar::Conditional))]
    fn conditional(&mut self) -> Result<Expr, Stop>
        ensures { Parses tree_of Conditional result self.entry.now self.exit.now }
    {
        let at = self.expect(Fixed::If)?;
        let test = self.boxed_after(Fixed::Open)?;
        let chosen = self.boxed_after(Fixed::Comma)?;
        let other = self.closing()?;
        Ok(Expr::If {
            at,
            test,
            chosen,
            other,
        })
    }

    /// Takes the token and an expression.
    #[cycle(expression)]
    fn boxed_after(&mut self, fixed: Fixed) -> Result<Box<Expr>, Stop>
        ensures { Parses (λ x. tree_of x.value) (the fixed ⊳ inner) result self.entry.now self.exit.now }
    {
        self.expect(fixed)?;
        let expr = self.expression()?;
        Ok(Box::new(self.alloc, expr)?)
    }

    /// Takes a comma, an expression and the closing parenthesis.
    #[cycle(expression)]
    fn closing(&mut self) -> Result<Box<Expr>, Stop>
        ensures { Parses (λ x. tree_of x.value) (the kinds.Comma ⊳ inner ⊲ the kinds.Close) result self.entry.now self.exit.now }
    {
        let expr = self.boxed_after(Fixed::Comma)?;
        self.expect(Fixed::Close)?;
        Ok(expr)
    }

    #[cycle(expression)]
    #[tactic(auto, unfolding(crate::specs::Grammar::Unary, crate::specs::Grammar::RunOf))]
    fn unary(&mut self) -> Result<Expr, Stop>
        ensures { Parses tree_of Unary result self.entry.now self.exit.now }
    {
        let ats = self.prefixes(Fixed::Minus)?;
        let operand = self.primary()?;
        Ok(prefixed(self.alloc, Prefix::Negated, ats, operand)?)
    }

    #[cycle(expression)]
    #[tactic(auto, unfolding(crate::specs::Grammar::Comparison, crate::specs::Grammar::PairOf, crate::specs::Grammar::Operand, crate::specs::Grammar::RightOf))]
    fn comparison(&mut self) -> Result<Expr, Stop>
        ensures { Parses tree_of Comparison result self.entry.now self.exit.now }
    {
        let first = self.operand(Level::Comparison)?;
        if !self.begins_operator(Level::Comparison) {
            return Ok(first);
        }
        let pair = self.pair(Level::Comparison)?;
        Ok(compared(self.alloc, first, pair)?)
    }

    #[cycle(expression)]
    #[tactic(auto, unfolding(crate::specs::Grammar::Negation, crate::specs::Grammar::RunOf))]
    fn negation(&mut self) -> Result<Expr, Stop>
        ensures { Parses tree_of Negation result self.entry.now self.exit.now }
    {
        let ats = self.prefixes(Fixed::Not)?;
        let operand = self.comparison()?;
        Ok(prefixed(self.alloc, Prefix::Not, ats, operand)?)
    }

    #[cycle(expression)]
    #[tactic(auto, unfolding(crate::specs::Grammar::Operand, crate::specs::Grammar::Product, crate::specs::Grammar::Sum, crate::specs::Grammar::Conjunction))]
    fn operand(&mut self, level: Level) -> Result<Expr, Stop>
        ensures { Parses tree_of (Operand level) result self.entry.now self.exit.now }
    {
        match level {
            Level::Disjunction => self.series(Level::Conjunction),
            Level::Conjunction => self.negation(),
            Level::Comparison => self.series(Level::Sum),
            Level::Sum => self.series(Level::Product),
            Level::Product => self.unary(),
        }
    }

    #[cycle(expression)]
    #[tactic(auto, using(crate::proofs::Right::operator_fewer, crate::proofs::Calls::few_calls), unfolding(crate::specs::Grammar::RightOf))]
    fn pair(&mut self, level: Level) -> Result<ExprRight, Stop>
        ensures { Parses pair_view (RightOf level (Operand level)) result self.entry.now self.exit.now }
    {
        let (operator, at) = self.operator(level)?;
        let right = self.operand(level)?;
        Ok(ExprRight {
            operator,
            at,
            right,
        })
    }

    #[cycle(expression)]
    #[tactic(auto, using(prl_lex::proofs::Loops::loops, crate::proofs::Right::pair_steps))]
    fn rights(&mut self, level: Level) -> Result<Vec<ExprRight>, Stop>
        ensures { Parses (λ x. map pair_view x.items) (many (RightOf level (Operand level))) result self.entry.now self.exit.now }
    {
        let mut rights = Vec::new(self.alloc);
        'more: while self.begins_operator(level) {
            rights.push(self.pair(level)?)?;
        }
        Ok(rights)
    }

    #[cycle(expression)]
    #[tactic(auto, using(crate::proofs::Right::operand_fewer), unfolding(crate::specs::Grammar::SeriesOf, crate::specs::Grammar::RightOf))]
    fn series(&mut self, level: Level) -> Result<Expr, Stop>
        ensures { Parses tree_of (SeriesOf level (Operand level)) result self.entry.now self.exit.now }
    {
        let first = self.operand(level)?;
        let rights = self.rights(level)?;
        Ok(in_series(self.alloc, first, rights)?)
    }

    /// Takes an expression.
    #[cycle(expression)]
    pub fn expression(&mut self) -> Result<Expr, Stop>
        ensures { Parses tree_of inner result self.entry.now self.exit.now }
    {
        self.series(Level::Disjunction)
    }
}
