//! Equations, nodes and whole programs.

ghost use Rattle.std.specs.Prelude.{◌≡◌, ◌∷◌, [], map, reverse, IfOk, OnOk};
ghost use Rattle.prl_base.specs.Reading.{Gives};
ghost use Rattle.prl_ast.specs.Trees.{equation_tree, node_tree, program_tree};
ghost use Rattle.prl_lex.specs.Vocabulary.{stop_of, all_at, inner_of, read_at, many, shape};
ghost use Rattle.prl_lex.specs.Vocabulary.{next_in};
ghost use Rattle.prl_lex.specs.Combinators as combinators;
ghost use Rattle.prl_syntax.specs.code.Nodes.{declared_view, declarations_view, with_last, ClosedEquations, NodeBody, OutsAndBody};
ghost use Rattle.prl_syntax.specs.Grammar as grammar;
ghost use Rattle.prl_syntax.specs.code.Parses.{Parses};
ghost use Rattle.prl_syntax.specs.Trees.{program_of};
ghost use Rattle.prl_syntax.specs.declared.words.Fixed.TheVariants as kinds;

use crate::parser::Parser;
use crate::words::Fixed;
use prl_ast::{Device, Equation, Import, Node, Param, Placed, Program};
use prl_base::{Seq, Span};
use prl_lex::{Stop, Terminal};
use std::alloc::{AllocError, Global};

impl<'a> Parser<'a> {
    /// Takes the names on the left of an equation.
    #[tactic(auto, unfolding(crate::specs::Grammar::Left))]
    fn lefts(&mut self) -> Result<Vec<Placed>, Stop>
        ensures { Parses (λ x. x.items) grammar.Left result self.entry.now self.exit.now }
    {
        if self.next_is(Fixed::Open) {
            self.expect(Fixed::Open)?;
            let lefts = self.names()?;
            self.expect(Fixed::Close)?;
            return Ok(lefts);
        }
        let left = self.placed()?;
        let mut lefts = Vec::new(self.alloc);
        lefts.push(left)?;
        Ok(lefts)
    }

    /// Takes an equation.
    #[tactic(auto, unfolding(crate::specs::Grammar::Equation, crate::specs::Grammar::Left))]
    fn read_equation(&mut self) -> Result<Equation, Stop>
        ensures { Parses equation_tree grammar.Equation result self.entry.now self.exit.now }
    {
        let at = self.place_of_first();
        let lefts = self.lefts()?;
        self.expect(Fixed::Equals)?;
        let right = self.expr()?;
        self.expect(Fixed::Semicolon)?;
        Ok(Equation {
            lefts: Seq::new(lefts),
            right,
            at,
        })
    }

    #[tactic(auto, unfolding(crate::specs::Grammar::Equation, crate::specs::Grammar::Left, crate::specs::Grammar::Name))]
    fn begins_equation(&self) -> bool
        ensures { result ≡ next_in (shape (inner_of grammar.programs) grammar.Equation).first self.now }
    {
        self.next_is(Fixed::Open) || self.next_is_name()
    }

    /// Takes equations, as many as there are.
    #[tactic(auto, using(prl_lex::proofs::Loops::loops, crate::proofs::Right::equation_steps))]
    fn equations(&mut self) -> Result<Vec<Equation>, Stop>
        ensures { Parses (λ x. map equation_tree x.items) (many grammar.Equation) result self.entry.now self.exit.now }
    {
        let mut equations = Vec::new(self.alloc);
        'more: while self.begins_equation() {
            equations.push(self.read_equation()?)?;
        }
        Ok(equations)
    }

    fn maybe_semicolon(&mut self) -> Result<Option<Span>, Stop>
        ensures { Parses (λ x. x) (combinators.maybe (grammar.the kinds.Semicolon)) result self.entry.now self.exit.now }
    {
        if self.next_is(Fixed::Semicolon) {
            return Ok(Some(self.expect(Fixed::Semicolon)?));
        }
        Ok(None)
    }

    /// Takes the equations of a node.
    fn closed_equations(&mut self) -> Result<Vec<Equation>, Stop>
        ensures { Parses (λ x. map equation_tree x.items) ClosedEquations result self.entry.now self.exit.now }
    {
        self.expect(Fixed::Let)?;
        let eqs = self.equations()?;
        self.expect(Fixed::Tel)?;
        self.maybe_semicolon()?;
        Ok(eqs)
    }

    /// Takes the local variables and the equations of a node.
    fn body(&mut self) -> Result<(Vec<Param>, Vec<Equation>), Stop>
        ensures { Parses (λ x. (x.0.items, map equation_tree x.1.items)) NodeBody result self.entry.now self.exit.now }
    {
        let locals = self.maybe_locals()?;
        let eqs = self.closed_equations()?;
        Ok((locals, eqs))
    }

    /// Takes the outputs of a node, and its body.
    fn outs_and_body(&mut self) -> Result<(Vec<Param>, (Vec<Param>, Vec<Equation>)), Stop>
        ensures { Parses (λ x. (x.0.items, (x.1.0.items, map equation_tree x.1.1.items))) OutsAndBody result self.entry.now self.exit.now }
    {
        self.expect(Fixed::Returns)?;
        let outs = self.enclosed_params()?;
        let body = self.body()?;
        Ok((outs, body))
    }

    /// Takes a node.
    #[tactic(auto, unfolding(crate::specs::Grammar::Node))]
    fn read_node(&mut self) -> Result<Node, Stop>
        ensures { Parses node_tree grammar.Node result self.entry.now self.exit.now }
    {
        self.expect(Fixed::Node)?;
        let (name, at) = self.name()?;
        let ins = self.maybe_params()?;
        let (outs, (locals, eqs)) = self.outs_and_body()?;
        Ok(Node {
            name,
            ins: Seq::new(ins),
            outs: Seq::new(outs),
            locals: Seq::new(locals),
            eqs: Seq::new(eqs),
            at,
        })
    }
}

/// A declaration.
#[derive(Drop)]
enum Declaration {
    Import(Import),
    Sensor(Device),
    Actuator(Device),
    Node(Node),
}

impl<'a> Parser<'a> {
    #[tactic(auto, unfolding(crate::specs::Grammar::Declaration, crate::specs::Grammar::Import, crate::specs::Grammar::Device, crate::specs::Grammar::Node))]
    fn begins_declaration(&self) -> bool
        ensures { result ≡ next_in (shape (inner_of grammar.programs) grammar.Declaration).first self.now }
    {
        self.next_is(Fixed::Imported)
            || self.next_is(Fixed::Sensor)
            || self.next_is(Fixed::Actuator)
            || self.next_is(Fixed::Node)
    }

    /// Takes a declaration.
    #[tactic(auto, unfolding(crate::specs::Grammar::Declaration, crate::specs::Grammar::Import, crate::specs::Grammar::Device, crate::specs::Grammar::Node, crate::specs::code::Nodes::declared_view))]
    fn read_declaration(&mut self) -> Result<Declaration, Stop>
        ensures { Parses declared_view grammar.Declaration result self.entry.now self.exit.now }
    {
        if self.next_is(Fixed::Imported) {
            return Ok(Declaration::Import(self.read_import()?));
        }
        if self.next_is(Fixed::Sensor) {
            return Ok(Declaration::Sensor(self.read_device(Fixed::Sensor)?));
        }
        if self.next_is(Fixed::Actuator) {
            return Ok(Declaration::Actuator(self.read_device(Fixed::Actuator)?));
        }
        Ok(Declaration::Node(self.read_node()?))
    }

    /// Takes declarations, as many as there are.
    #[tactic(auto, using(prl_lex::proofs::Loops::loops, crate::proofs::Right::declaration_steps))]
    fn declarations(&mut self) -> Result<Vec<Declaration>, Stop>
        ensures { Parses (λ x. map declared_view x.items) (many grammar.Declaration) result self.entry.now self.exit.now }
    {
        let mut declarations = Vec::new(self.alloc);
        'more: while self.begins_declaration() {
            declarations.push(self.read_declaration()?)?;
        }
        Ok(declarations)
    }
}

/// Declarations by kind.
#[derive(Drop)]
struct Declarations {
    imports: Vec<Import>,
    sensors: Vec<Device>,
    actuators: Vec<Device>,
    nodes: Vec<Node>,
}

/// Appends the declaration to its kind.
#[tactic(auto, unfolding(crate::specs::code::Nodes::declared_view))]
fn push_declaration(sorted: &mut Declarations, declaration: Declaration) -> Result<(), AllocError>
    ensures { OnOk result (declarations_view sorted.new ≡ with_last (declarations_view sorted.old) (declared_view declaration)) }
{
    match declaration {
        Declaration::Import(import) => sorted.imports.push(import)?,
        Declaration::Sensor(sensor) => sorted.sensors.push(sensor)?,
        Declaration::Actuator(actuator) => sorted.actuators.push(actuator)?,
        Declaration::Node(node) => sorted.nodes.push(node)?,
    }
    Ok(())
}

/// The declarations, the last one first, by kind.
fn by_kind(alloc: Global, backward: Vec<Declaration>) -> Result<Declarations, AllocError>
    ensures { IfOk result (λ p. declarations_view p ≡ program_of (map declared_view (reverse backward.items))) }
{
    let mut declarations = backward;
    let mut sorted = Declarations {
        imports: Vec::new(alloc),
        sensors: Vec::new(alloc),
        actuators: Vec::new(alloc),
        nodes: Vec::new(alloc),
    };
    'each: while let Some(declaration) = declarations.pop() {
        push_declaration(&mut sorted, declaration)?;
    }
    Ok(sorted)
}

/// The declarations by kind.
fn program_of(alloc: Global, declarations: Vec<Declaration>) -> Result<Program, AllocError>
    ensures { IfOk result (λ p. program_tree p ≡ program_of (map declared_view declarations.items)) }
{
    let mut declarations = declarations;
    declarations.reverse();
    let sorted = by_kind(alloc, declarations)?;
    Ok(Program {
        imports: Seq::new(sorted.imports),
        sensors: Seq::new(sorted.sensors),
        actuators: Seq::new(sorted.actuators),
        nodes: Seq::new(sorted.nodes),
    })
}

impl<'a> Parser<'a> {
    /// Takes declarations up to the end.
    #[tactic(auto, unfolding(crate::specs::Grammar::Program))]
    fn whole(&mut self) -> Result<Program, Stop>
        ensures { Gives program_tree stop_of result (all_at (read_at grammar.programs grammar.Program) self.entry.now) }
    {
        let declarations = self.declarations()?;
        match self.rest {
            [] => Ok(program_of(self.alloc, declarations)?),
            [_, ..] => Err(Stop::Unexpected(self.rest.len())),
        }
    }
}

/// The program that all of the tokens are.
pub fn program(alloc: Global, terminals: &[Terminal]) -> Result<Program, Stop>
    ensures { Gives program_tree stop_of result (all_at (read_at grammar.programs grammar.Program) terminals.now) }
{
    let mut parser = Parser {
        alloc,
        rest: terminals,
    };
    parser.whole()
}
