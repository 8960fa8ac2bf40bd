//! Registers, statements and whole texts.

ghost use Rattle.std.specs.Prelude.{◌≡◌, map};
ghost use Rattle.prl_base.specs.Reading.{Gives};
ghost use Rattle.prl_body.specs.Texts.{statement_tree, text_tree, text_trees, tree_of};
ghost use Rattle.prl_lex.specs.Vocabulary.{◌&◌, ◌⊳◌, ◌⊲◌, inner, many, read_at, stop_of};
ghost use Rattle.prl_lex.specs.Vocabulary.{all_at};
ghost use Rattle.prl_bodytext.specs.Grammar.{the, Constant, Register, StatementLine, Body, Bodies, bodies};
ghost use Rattle.prl_bodytext.specs.code.Parses.{Parses};
ghost use Rattle.prl_bodytext.specs.declared.words.Fixed.TheVariants as kinds;

use crate::parser::Parser;
use crate::repeats::Item;
use crate::words::Fixed;
use prl_base::{Seq, Value};
use prl_body::{BodyText, BodyTexts, Expr, RegisterText, Statement};
use prl_lex::{Stop, Terminal};
use std::alloc::Global;

impl<'a> Parser<'a> {
    /// Takes what is put into a register at first.
    fn first_value(&mut self) -> Result<Value, Stop>
        ensures { Parses (λ x. x) (the kinds.Equals ⊳ Constant ⊲ the kinds.Semicolon) result self.entry.now self.exit.now }
    {
        self.expect(Fixed::Equals)?;
        let value = self.constant()?;
        self.expect(Fixed::Semicolon)?;
        Ok(value)
    }

    /// Takes the declaration of a register.
    #[tactic(auto, unfolding(crate::specs::Grammar::Register))]
    fn register(&mut self) -> Result<RegisterText, Stop>
        ensures { Parses (λ x. x) Register result self.entry.now self.exit.now }
    {
        self.expect(Fixed::Reg)?;
        let (name, at) = self.name()?;
        let first = self.first_value()?;
        Ok(RegisterText { name, first, at })
    }

    /// Takes the right side of a statement.
    fn right_side(&mut self) -> Result<Expr, Stop>
        ensures { Parses tree_of (the kinds.Equals ⊳ inner ⊲ the kinds.Semicolon) result self.entry.now self.exit.now }
    {
        self.expect(Fixed::Equals)?;
        let right = self.expression()?;
        self.expect(Fixed::Semicolon)?;
        Ok(right)
    }

    /// Takes a statement.
    #[tactic(auto, unfolding(crate::specs::Grammar::StatementLine))]
    fn statement(&mut self) -> Result<Statement, Stop>
        ensures { Parses statement_tree StatementLine result self.entry.now self.exit.now }
    {
        let (left, at) = self.name()?;
        let right = self.right_side()?;
        Ok(Statement { left, right, at })
    }

    /// Takes statements, and the end of their body.
    #[tactic(auto, using(crate::proofs::Right::statement_loop))]
    fn ended_statements(&mut self) -> Result<Vec<Statement>, Stop>
        ensures { Parses (λ x. map statement_tree x.items) (many StatementLine ⊲ the kinds.End) result self.entry.now self.exit.now }
    {
        let statements = self.many::<Statement>()?;
        self.expect(Fixed::End)?;
        Ok(statements)
    }

    /// Takes what stands in a body.
    #[tactic(auto, using(crate::proofs::Right::register_loop, crate::proofs::Right::registers_seen))]
    fn inside(&mut self) -> Result<(Vec<RegisterText>, Vec<Statement>), Stop>
        ensures { Parses (λ x. (x.0.items, map statement_tree x.1.items)) (the kinds.Begin ⊳ many Register & many StatementLine ⊲ the kinds.End) result self.entry.now self.exit.now }
    {
        self.expect(Fixed::Begin)?;
        let registers = self.many::<RegisterText>()?;
        let statements = self.ended_statements()?;
        Ok((registers, statements))
    }

    /// Takes a body.
    #[tactic(auto, unfolding(crate::specs::Grammar::Body))]
    fn body(&mut self) -> Result<BodyText, Stop>
        ensures { Parses text_tree Body result self.entry.now self.exit.now }
    {
        self.expect(Fixed::Body)?;
        let (name, at) = self.name()?;
        let (registers, statements) = self.inside()?;
        Ok(BodyText {
            name,
            at,
            registers: Seq::new(registers),
            statements: Seq::new(statements),
        })
    }

    /// Takes bodies up to the end.
    #[tactic(auto, using(crate::proofs::Right::body_loop), unfolding(crate::specs::Grammar::Bodies))]
    fn whole(&mut self) -> Result<BodyTexts, Stop>
        ensures { Gives text_trees stop_of result (all_at (read_at bodies Bodies) self.entry.now) }
    {
        let bodies = self.many::<BodyText>()?;
        match self.rest {
            [] => Ok(BodyTexts {
                bodies: Seq::new(bodies),
            }),
            [_, ..] => Err(Stop::Unexpected(self.rest.len())),
        }
    }
}

impl Item for RegisterText {
    ghost use Rattle.prl_body.specs.declared.texts.RegisterText.{RegisterText};
    ghost use Rattle.prl_bodytext.specs.Grammar.{Register};

    ghost Seen = { RegisterText };

    ghost seen = { λ x. x };

    ghost grammar = { Register };

    #[tactic(auto, unfolding(crate::specs::Grammar::Register))]
    fn is_next(parser: &Parser<'_>) -> bool {
        parser.next_is(Fixed::Reg)
    }

    fn read(parser: &mut Parser<'_>) -> Result<RegisterText, Stop> {
        parser.register()
    }
}

impl Item for Statement {
    ghost use Rattle.prl_body.specs.Texts.{StatementTree, statement_tree};
    ghost use Rattle.prl_bodytext.specs.Grammar.{StatementLine};

    ghost Seen = { StatementTree };

    ghost seen = { statement_tree };

    ghost grammar = { StatementLine };

    #[tactic(auto, unfolding(crate::specs::Grammar::StatementLine))]
    fn is_next(parser: &Parser<'_>) -> bool {
        parser.next_is_name()
    }

    fn read(parser: &mut Parser<'_>) -> Result<Statement, Stop> {
        parser.statement()
    }
}

impl Item for BodyText {
    ghost use Rattle.prl_body.specs.Texts.{TextTree, text_tree};
    ghost use Rattle.prl_bodytext.specs.Grammar.{Body};

    ghost Seen = { TextTree };

    ghost seen = { text_tree };

    ghost grammar = { Body };

    #[tactic(auto, unfolding(crate::specs::Grammar::Body))]
    fn is_next(parser: &Parser<'_>) -> bool {
        parser.next_is(Fixed::Body)
    }

    fn read(parser: &mut Parser<'_>) -> Result<BodyText, Stop> {
        parser.body()
    }
}

/// The bodies that all of the tokens are.
pub fn bodies(alloc: Global, terminals: &[Terminal]) -> Result<BodyTexts, Stop>
    ensures { Gives text_trees stop_of result (all_at (read_at bodies Bodies) terminals.now) }
{
    let mut parser = Parser {
        alloc,
        rest: terminals,
    };
    parser.whole()
}
